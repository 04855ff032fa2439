// The kernel's source.

ghost use Rattle.std.specs.Prelude.{◌≡◌, ◌++◌, IfOk, OnOk};
ghost use Rattle.sample_maker.specs.Source.{pattern, filled_pattern, filled_byte};

use cvm_text::decimal_u64;
use std::alloc::{AllocError, Global};

// The source, with the letter U for the number of users, and K for the number below that of user 1.
const PATTERN: &[u8] = b"int total;
int left;
bool[17] done;
int pick(int user) {
  int next; bool look;
  next = user; look = true;
  while (look) {
    next = next + 1;
    if (next > U) { next = 1; }
    if (!done[next]) { look = false; }
  }
  return next;
}
int dispatch(int cause, int data, int user) {
  int next; int u; int v; bool ok;
  if (cause == 0) {
    left = U; u = 1;
    while (u <= U) {
      ok = vm_resize(u, 16);
      if (u > 1) { ok = vm_copy(1, 0, u, 0, 1024); }
      ok = vm_set(u, 1, K + u);
      u = u + 1;
    }
    next = 1;
  }
  if (cause == 1) { next = pick(user); }
  if (cause == 6) {
    v = vm_get(user, 4);
    total = total + v;
    left = left - 1;
    done[user] = true;
    if (left > 0) { next = pick(user); }
  }
  return next;
}
";

// Appends what stands for a byte of the pattern.
fn push_filled(text: &mut Vec<u8>, users: u32, base: u32, byte: u8) -> Result<(), AllocError>
    ensures { OnOk result (text.new.items ≡ text.old.items ++ filled_byte users base byte) }
{
    match byte {
        b'U' => text.extend_from_slice(decimal_u64(u64::from(users)).as_str().as_bytes()),
        b'K' => text.extend_from_slice(decimal_u64(u64::from(base)).as_str().as_bytes()),
        _ => text.push(byte).map_err(|_| AllocError),
    }
}

// A pattern with numbers for its letters.
fn filled_in(alloc: Global, users: u32, base: u32, pattern: &[u8]) -> Result<Vec<u8>, AllocError>
    ensures { IfOk result (λ v. v.items ≡ filled_pattern users base pattern.now) }
{
    let mut text = Vec::new(alloc);
    for byte in pattern {
        push_filled(&mut text, users, base, *byte)?;
    }
    Ok(text)
}

/// The kernel's source for so many users, who begin with the numbers above `base`.
pub fn source_in(alloc: Global, users: u32, base: u32) -> Result<Vec<u8>, AllocError>
    ensures { IfOk result (λ v. v.items ≡ filled_pattern users base pattern) }
{
    filled_in(alloc, users, base, PATTERN)
}

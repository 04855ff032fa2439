// The program of user 1.

ghost use Rattle.std.specs.Prelude.{◌≡◌, ◌≤◌, ◌-◌, ◌∷◌, [], IfOk, Ok, map, replicate};
ghost use Rattle.mips_asm.specs.Assembled.{assembled};
ghost use Rattle.sample_maker.specs.Program.{program_text, sample_words};

use mips_asm::assemble;
use std::alloc::{AllocError, Global};

// The program's text.
const PROGRAM: &[u8] = b"ori r2, r0, 61440
fill: sw r1, 0(r2)
addiu r1, r1, 1
addiu r2, r2, -4096
bgtz r2, fill
ori r2, r0, 61440
add: lw r3, 0(r2)
addu r4, r4, r3
sw r0, 0(r2)
addiu r2, r2, -4096
bgtz r2, add
syscall
";

/// A law: the words of user 1 are those that the text of its program is assembled to.
pub fn program_is_assembled()
    ensures { assembled program_text ≡ Ok sample_words }
{}

// The program's words.
fn words_in(alloc: Global) -> Result<Vec<u32>, AllocError>
    ensures { IfOk result (λ ws. ws.items ≡ sample_words) }
{
    program_is_assembled();
    match assemble(alloc, PROGRAM) {
        Ok(words) => Ok(words),
        Err(_) => Err(AllocError),
    }
}

/// The words of so many users: the first has the program, and the others have none.
pub fn users_in(alloc: Global, count: u32) -> Result<Vec<Vec<u32>>, AllocError>
    requires { 1 ≤ count }
    ensures { IfOk result (λ v. map (λ u. u.items) v.items ≡ sample_words ∷ replicate (count - 1) []) }
{
    let mut users = Vec::with_capacity(alloc, count as usize)?;
    users.push(words_in(alloc)?)?;
    for _user in 1..count {
        users.push(Vec::new(alloc))?;
    }
    Ok(users)
}

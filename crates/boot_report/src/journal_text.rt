// The rows of a trace, as they are printed. None takes memory.

ghost use Rattle.std.specs.Prelude.{◌≡◌};
ghost use Rattle.mips_table.specs.Flat.{Flat};
ghost use Rattle.cvm_model.specs.Kernel.{Trapped, Set, Size, Put};
ghost use Rattle.cvm_model.specs.Primitives.{pages_of};
ghost use Rattle.cvm_model.specs.Text.{steps_row, entry_row, start_row};

use arrayvec::ArrayString;
use cvm_text::{decimal_u64, hex8};

/// The first row, of a user and the number of its pages at the start.
pub fn start_row(user: u32, pages: u32) -> ArrayString<64>
    ensures { (f : Flat) → pages_of f ≡ pages → result.bytes ≡ start_row user f }
{
    let mut text = ArrayString::new();
    text.push_str("start ");
    text.push_str(decimal_u64(user as u64).as_str());
    text.push_str(" pages ");
    text.push_str(decimal_u64(pages as u64).as_str());
    text.push('\n');
    text
}

/// The row of so many untrapped steps: none where there are none.
pub fn steps_row(steps: u64) -> ArrayString<64>
    ensures { result.bytes ≡ steps_row steps }
{
    if steps == 0 {
        return ArrayString::new();
    }
    let mut text = ArrayString::new();
    text.push_str("steps ");
    text.push_str(decimal_u64(steps).as_str());
    text.push('\n');
    text
}

/// The row of a trap.
pub fn trap_row(cause: u32, edata: u32) -> ArrayString<64>
    ensures { result.bytes ≡ entry_row (Trapped cause edata) }
{
    let mut text = ArrayString::new();
    text.push_str("trap ");
    text.push_str(decimal_u64(cause as u64).as_str());
    text.push(' ');
    text.push_str(hex8(edata).as_str());
    text.push('\n');
    text
}

/// The row of a register that was put, where 32 is the pc.
pub fn set_row(register: u32, value: u32) -> ArrayString<64>
    ensures { result.bytes ≡ entry_row (Set register value) }
{
    let mut text = ArrayString::new();
    text.push_str("set ");
    text.push_str(decimal_u64(register as u64).as_str());
    text.push(' ');
    text.push_str(hex8(value).as_str());
    text.push('\n');
    text
}

/// The row of a size in pages that was put.
pub fn size_row(pages: u32) -> ArrayString<64>
    ensures { result.bytes ≡ entry_row (Size pages) }
{
    let mut text = ArrayString::new();
    text.push_str("size ");
    text.push_str(decimal_u64(pages as u64).as_str());
    text.push('\n');
    text
}

/// The row of a word that was put at an address.
pub fn put_row(address: u32, value: u32) -> ArrayString<64>
    ensures { result.bytes ≡ entry_row (Put address value) }
{
    let mut text = ArrayString::new();
    text.push_str("put ");
    text.push_str(hex8(address).as_str());
    text.push(' ');
    text.push_str(hex8(value).as_str());
    text.push('\n');
    text
}

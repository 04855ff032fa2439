// Single rows, which take no memory.
ghost use Rattle.std.specs.Prelude.{◌≡◌, ◌++◌, ◌*◌, ◌<◌, ◌^◌, ◌==◌, if◌then◌else◌, [], codes, decimal};
ghost use Rattle.cvm_text.specs.Hex.{hex8 as hex8_of};
ghost use Rattle.cvm_model.specs.Text.{hex_row, nonzero_row, user_head};
ghost use Rattle.boot_report.specs.Texts.{end_row, register_row, memory_row};
ghost use Rattle.cvm_outside.specs.Script.{Prints};

use arrayvec::ArrayString;
use cvm_outside::single_calls::put;
use cvm_outside::{Sink, SinkFault};
use cvm_text::{decimal_u64, hex8};

// The row of a word of the console's log.
fn log_row(word: u32) -> ArrayString<16>
    ensures { result.bytes ≡ hex_row (codes "con") word }
{
    let mut text = ArrayString::new();
    text.push_str("con ");
    text.push_str(hex8(word).as_str());
    text.push('\n');
    text
}

// The row of a register.
fn reg_row(register: u32, word: u32) -> ArrayString<40>
    ensures { result.bytes ≡ hex_row (codes "reg " ++ decimal register) word }
{
    let mut text = ArrayString::new();
    text.push_str("reg ");
    text.push_str(decimal_u64(register as u64).as_str());
    text.push_str(" ");
    text.push_str(hex8(word).as_str());
    text.push('\n');
    text
}

// The row of hi.
fn hi_row(word: u32) -> ArrayString<16>
    ensures { result.bytes ≡ hex_row (codes "hi") word }
{
    let mut text = ArrayString::new();
    text.push_str("hi ");
    text.push_str(hex8(word).as_str());
    text.push('\n');
    text
}

// The row of lo.
fn lo_row(word: u32) -> ArrayString<16>
    ensures { result.bytes ≡ hex_row (codes "lo") word }
{
    let mut text = ArrayString::new();
    text.push_str("lo ");
    text.push_str(hex8(word).as_str());
    text.push('\n');
    text
}

// The row of a word of memory, by its number.
fn mem_row(number: u32, word: u32) -> ArrayString<32>
    requires { number < 2 ^ 30 }
    ensures { result.bytes ≡ hex_row (codes "mem " ++ hex8_of (4 * number)) word }
{
    let mut text = ArrayString::new();
    text.push_str("mem ");
    text.push_str(hex8(4 * number).as_str());
    text.push_str(" ");
    text.push_str(hex8(word).as_str());
    text.push('\n');
    text
}

// The first row of a user.
fn user_row(user: u32, pages: u32, pc: u32) -> ArrayString<80>
    ensures { result.bytes ≡ user_head user pages pc }
{
    let mut text = ArrayString::new();
    text.push_str("user ");
    text.push_str(decimal_u64(user as u64).as_str());
    text.push_str(" pages ");
    text.push_str(decimal_u64(pages as u64).as_str());
    text.push_str(" pc ");
    text.push_str(hex8(pc).as_str());
    text.push('\n');
    text
}

// Prints the row of a word of the console's log.
pub(crate) fn put_log_word<O: Sink>(word: u32, out: &mut O) -> Result<(), SinkFault>
    ensures { Prints O.Sink out.old out.new (hex_row (codes "con") word) result }
{
    put(log_row(word).as_str().as_bytes(), out)
}

// Prints the row of a word that isn't 0.
fn put_nonzero<O: Sink>(word: u32, row: &[u8], out: &mut O) -> Result<(), SinkFault>
    ensures { Prints O.Sink out.old out.new (if word == 0 then [] else row.now) result }
{
    if word == 0 {
        return Ok(());
    }
    put(row, out)
}

// Prints the row of a register that isn't 0.
pub(crate) fn put_register<O: Sink>(register: u32, word: u32, out: &mut O) -> Result<(), SinkFault>
    ensures { Prints O.Sink out.old out.new (register_row register word) result }
{
    put_nonzero(word, reg_row(register, word).as_str().as_bytes(), out)
}

// Prints the row of hi, if it isn't 0.
pub(crate) fn put_hi<O: Sink>(word: u32, out: &mut O) -> Result<(), SinkFault>
    ensures { Prints O.Sink out.old out.new (nonzero_row (codes "hi") word) result }
{
    put_nonzero(word, hi_row(word).as_str().as_bytes(), out)
}

// Prints the row of lo, if it isn't 0.
pub(crate) fn put_lo<O: Sink>(word: u32, out: &mut O) -> Result<(), SinkFault>
    ensures { Prints O.Sink out.old out.new (nonzero_row (codes "lo") word) result }
{
    put_nonzero(word, lo_row(word).as_str().as_bytes(), out)
}

// Prints the row of a word of memory that isn't 0, by its number.
pub(crate) fn put_word<O: Sink>(number: u32, word: u32, out: &mut O) -> Result<(), SinkFault>
    requires { number < 2 ^ 30 }
    ensures { Prints O.Sink out.old out.new (memory_row number word) result }
{
    if word == 0 {
        return Ok(());
    }
    put(mem_row(number, word).as_str().as_bytes(), out)
}

// Prints the first row of a user.
pub(crate) fn put_user<O: Sink>(
    user: u32,
    pages: u32,
    pc: u32,
    out: &mut O,
) -> Result<(), SinkFault>
    ensures { Prints O.Sink out.old out.new (user_head user pages pc) result }
{
    put(user_row(user, pages, pc).as_str().as_bytes(), out)
}

/// Prints whether a run halted or goes on.
///
/// # Errors
///
/// A fault of the sink.
pub fn put_end<O: Sink>(halted: bool, out: &mut O) -> Result<(), SinkFault>
    ensures { Prints O.Sink out.old out.new (end_row halted) result }
{
    if halted {
        return put(b"halted\n", out);
    }
    put(b"stopped\n", out)
}

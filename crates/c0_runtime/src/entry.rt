//! The entry of a kernel: its first words, at which the layer calls `dispatch`, whose code stands behind them.

ghost use Rattle.std.specs.Prelude.{◌≡◌, ◌++◌, map, OnOk, OnErr};
ghost use Rattle.mips_table.specs.Encoding.{encoding};
ghost use Rattle.c0_runtime.specs.Code.{startup_code};

use layer_map::{LEAVE, STACK_FIRST, STACK_LIMIT};
use masm::registers::{FRAME_END, GLOBALS, RETURN, STACK_END};
use masm::roles::ZERO;
use masm::{Block, block, code};
use mips_table::Inst;
use std::alloc::{AllocError, Global};
use std::vec::Vec;

/// The words of the entry.
pub const ENTRY_WORDS: u32 = 5;

/// The end of the first frame (none stands yet, so it is the stack's first address) and the stack's end, from the layer's variables; and
/// the return address, which is the layer's entry at which the kernel is left.
const SET_ENDS: [Inst; 3] = code! {
    lw FRAME_END, STACK_FIRST(ZERO);
    lw STACK_END, STACK_LIMIT(ZERO);
    ori RETURN, ZERO, LEAVE;
};

/// Appends the entry: the globals' address `globals`, in bytes, the end of the frames, the stack's end and the return address go to their
/// registers. It runs into the function that is appended next, and the kernel is left where that returns.
///
/// Want of memory leaves `code` as it was.
pub fn emit_entry(_alloc: Global, globals: u32, code: &mut Vec<u32>) -> Result<(), AllocError>
    ensures appended { OnOk result (code.new.items ≡ code.old.items ++ map encoding (startup_code globals)) }
    ensures unchanged { OnErr result (code.new.items ≡ code.old.items) }
{
    let entry: Block<5> = block! {
        lui GLOBALS, globals / 65536;
        ori GLOBALS, GLOBALS, globals % 65536;
        code SET_ENDS;
    };
    code.extend_from_slice(entry.words())
}

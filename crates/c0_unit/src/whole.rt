// The words of a unit.

ghost use Rattle.std.specs.Prelude.{◌≡◌, ◌+◌, ◌*◌, ◌<◌, ◌≤◌, length, IfOk};
ghost use Rattle.masm.specs.CodeAddresses.{AreCodeAddresses};
ghost use Rattle.c0_tree.specs.View.{unit_view};
ghost use Rattle.c0_meaning.specs.Limits.{all_nodes};
ghost use Rattle.c0_unit.specs.Code.{program_words, unit_words, words_from};
ghost use Rattle.c0_unit.specs.Laws.{AreAddressesOf};

use crate::functions::emit_functions;
use crate::laws::units_are_short;
use crate::placing::placed_at;
use crate::typed::TypedUnit;
use c0_meaning::{Checked, Measured, UserChecked};
use c0_runtime::entry::ENTRY_WORDS;
use c0_runtime::runtime::RUNTIME_WORDS;
use c0_runtime::{emit_entry, emit_runtime};
use layer_map::LAYER_WORDS;
use masm::registers::CodeAddresses;
use std::alloc::{AllocError, Global};
use std::vec::Vec;

// The addresses of a unit whose first function is that of the number `first`: all functions are emitted once without addresses,
// as no code's length hangs on them.
fn unit_addresses(
    alloc: Global,
    typed: &TypedUnit<'_>,
    first: u32,
) -> Result<CodeAddresses, AllocError>
    requires { first ≤ length (unit_view typed.now).functions }
    ensures placed { IfOk result (λ p. AreAddressesOf (unit_view typed.now) first p) }
    ensures addresses { IfOk result AreCodeAddresses }
{
    let unplaced = placed_at(alloc, Vec::new(alloc), LAYER_WORDS, 0)?;
    let mut code = vec![in alloc; 0; ENTRY_WORDS as usize]?;
    let starts = emit_functions(alloc, typed, &unplaced, first, &mut code)?;
    let routines = LAYER_WORDS + code.len() as u32;
    placed_at(
        alloc,
        starts,
        routines,
        (routines + RUNTIME_WORDS + 1023) / 1024 * 4096,
    )
}

// The code of a unit whose first function is that of the number `first`, for the address 0x10000.
fn compile_from(alloc: Global, unit: &Measured<'_>, first: u32) -> Result<Vec<u32>, AllocError>
    requires { first < length unit.now.functions.items }
    ensures words { IfOk result (λ v. v.items ≡ words_from (unit_view unit.now) first) }
    ensures few { IfOk result (λ v. length v.items ≤ 512 + 32 * all_nodes (unit_view unit.now).functions) }
{
    units_are_short();
    let typed = TypedUnit::new(alloc, unit)?;
    let addresses = unit_addresses(alloc, &typed, first)?;
    let mut code = Vec::new(alloc);
    emit_entry(alloc, addresses.globals, &mut code)?;
    let _starts = emit_functions(alloc, &typed, &addresses, first, &mut code)?;
    emit_runtime(alloc, &addresses, &mut code)?;
    Ok(code)
}

/// The code of a kernel's unit, for the address 0x10000: at most 512 words and 32 for each node. The one error is want of memory.
pub fn compile(alloc: Global, unit: &Checked) -> Result<Vec<u32>, AllocError>
    ensures words { IfOk result (λ v. v.items ≡ unit_words (unit_view unit.now)) }
    ensures few { IfOk result (λ v. length v.items ≤ 512 + 32 * all_nodes (unit_view unit.now).functions) }
{
    compile_from(alloc, &unit.measured(), unit.first())
}

/// The code of a user program's unit, for the address 0x10000: at most 512 words and 32 for each node. The one error is want of memory.
///
/// It calls `trap` as primitive 0, and leaves by the exits of a kernel.
pub fn compile_flat(alloc: Global, unit: &UserChecked) -> Result<Vec<u32>, AllocError>
    ensures words { IfOk result (λ v. v.items ≡ program_words (unit_view unit.now)) }
    ensures few { IfOk result (λ v. length v.items ≤ 512 + 32 * all_nodes (unit_view unit.now).functions) }
{
    compile_from(alloc, &unit.measured(), unit.first())
}

// The functions of a unit, one behind the other.

ghost use Rattle.std.specs.Prelude.{◌≡◌, ◌+◌, ◌<◌, ◌≤◌, All, length, sum, IfOk, OnOk};
ghost use Rattle.layer_map.specs.Map.{layer_words};
ghost use Rattle.masm.specs.CodeAddresses.{IsJumpTarget, AreCodeAddresses};
ghost use Rattle.c0_tree.specs.View.{unit_view};
ghost use Rattle.c0_meaning.specs.Limits.{all_nodes};
ghost use Rattle.c0_typed.specs.Seen.{OfFunction};
ghost use Rattle.c0_expr_code.specs.Emit.{Appends};
ghost use Rattle.c0_stmt_code.specs.Code.{links_of};
ghost use Rattle.c0_stmt_code.specs.Emit.{function_at};
ghost use Rattle.c0_unit.specs.Code.{code_in, fault_exits, lengths_of, ordered_code, starts_from, starts_in_order, words_in};

use crate::typed::TypedUnit;
use c0_meaning::laws::units_are_typed_or_faulty;
use c0_stmt_code::emit_function;
use c0_stmt_code::sizes::{functions_are_short, lengths_are_fixed};
use c0_stmt_code::typed_laws::functions_are_made;
use layer_map::LAYER_WORDS;
use masm::registers::CodeAddresses;
use std::alloc::{AllocError, Global};
use std::vec::Vec;

// Appends the code of the function of a number.
fn emit_one(
    alloc: Global,
    typed: &TypedUnit<'_>,
    addresses: &CodeAddresses,
    number: u32,
    code: &mut Vec<u32>,
) -> Result<(), AllocError>
    requires addresses { AreCodeAddresses addresses.now }
    requires number { number < length (unit_view typed.now).functions }
    ensures { OfFunction (unit_view typed.now) number (λ f. Appends code.old.items code.new.items (function_at (unit_view typed.now) addresses.now f) result) }
{
    functions_are_made();
    let _unit = typed.measured().unit();
    emit_function(alloc, addresses, typed.function(number), code)
}

// Appends the code of the functions of the numbers from `from` on, those below `to`, and answers the address of each.
fn emit_range(
    alloc: Global,
    typed: &TypedUnit<'_>,
    addresses: &CodeAddresses,
    from: u32,
    to: u32,
    code: &mut Vec<u32>,
) -> Result<Vec<u32>, AllocError>
    requires addresses { AreCodeAddresses addresses.now }
    requires faults { addresses.now.faults ≡ fault_exits }
    requires range { from ≤ to }
    requires within { to ≤ length (unit_view typed.now).functions }
    requires nodes { all_nodes (unit_view typed.now).functions ≤ 100000 }
    requires room { length code.old.items ≤ 3300000 }
    ensures appended { Appends code.old.items code.new.items (code_in (unit_view typed.now) (links_of addresses.now) from to) result }
    ensures starts { IfOk result (λ s. s.items ≡ starts_from (layer_words + length code.old.items) (words_in (unit_view typed.now) from to)) }
    ensures few { OnOk result (length code.new.items ≤ length code.old.items + 3200000) }
    ensures are_places { IfOk result (λ s. All IsJumpTarget s.items) }
{
    functions_are_short();
    lengths_are_fixed();
    let mut starts = Vec::new(alloc);
    for number in from..to {
        starts.push(4 * (LAYER_WORDS + code.len() as u32))?;
        emit_one(alloc, typed, addresses, number, code)?;
    }
    Ok(starts)
}

/// Appends the code of all functions, which begins behind the layer's words and those of `code`: in source order from the function of the number
/// `first` on, and then those before it. Answers the address of each, by its number.
pub fn emit_functions(
    alloc: Global,
    typed: &TypedUnit<'_>,
    addresses: &CodeAddresses,
    first: u32,
    code: &mut Vec<u32>,
) -> Result<Vec<u32>, AllocError>
    requires addresses { AreCodeAddresses addresses.now }
    requires faults { addresses.now.faults ≡ fault_exits }
    requires first { first ≤ length (unit_view typed.now).functions }
    requires room { length code.old.items ≤ 5 }
    ensures appended { Appends code.old.items code.new.items (ordered_code (unit_view typed.now) (links_of addresses.now) first) result }
    ensures starts { IfOk result (λ s. s.items ≡ starts_in_order (layer_words + length code.old.items) (unit_view typed.now) first) }
    ensures length { OnOk result (length code.new.items ≡ length code.old.items + sum (lengths_of (unit_view typed.now))) }
    ensures few { OnOk result (length code.new.items ≤ 6400005) }
    ensures are_places { IfOk result (λ s. All IsJumpTarget s.items) }
{
    units_are_typed_or_faulty();
    lengths_are_fixed();
    let count = typed.measured().unit().functions.len() as u32;
    let later = emit_range(alloc, typed, addresses, first, count, code)?;
    let mut starts = emit_range(alloc, typed, addresses, 0, first, code)?;
    starts.extend_from_slice(&later)?;
    Ok(starts)
}

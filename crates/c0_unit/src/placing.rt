// Where the parts of a unit stand.

ghost use Rattle.std.specs.Prelude.{◌≡◌, ◌≤◌, All, IfOk};
ghost use Rattle.masm.specs.CodeAddresses.{IsJumpTarget, AreCodeAddresses};
ghost use Rattle.c0_unit.specs.Code.{primitive_entries};
ghost use Rattle.c0_unit.specs.Laws.{AreAddressesAt};

use c0_runtime::runtime::{DIVIDE, MULTIPLY, NEW_OBJECT, REMAINDER};
use c0_tree::primitives;
use layer_map::{EXITS, PRIMITIVES};
use masm::registers::CodeAddresses;
use std::alloc::{AllocError, Global};
use std::vec::Vec;

// Where faults leave the kernel.
const FAULT_EXITS: [u32; 4] = [EXITS, EXITS + 4, EXITS + 8, EXITS + 12];

// Where the primitives are entered, by their numbers.
fn entries(alloc: Global) -> Result<Vec<u32>, AllocError>
    ensures { IfOk result (λ v. v.items ≡ primitive_entries) }
{
    let mut entries = Vec::new(alloc);
    for number in 0..primitives().len() as u32 {
        entries.push(PRIMITIVES + 4 * number)?;
    }
    Ok(entries)
}

/// The addresses of code in which the functions have these addresses, the routines begin at this word, and the globals at this address.
pub fn placed_at(
    alloc: Global,
    functions: Vec<u32>,
    routines: u32,
    globals: u32,
) -> Result<CodeAddresses, AllocError>
    requires functions { All IsJumpTarget functions.items }
    requires routines { routines ≤ 10000000 }
    requires globals { IsJumpTarget globals }
    ensures placed { IfOk result (λ p. AreAddressesAt p functions.items routines globals) }
    ensures addresses { IfOk result AreCodeAddresses }
{
    let primitives = entries(alloc)?;
    Ok(CodeAddresses {
        globals,
        faults: FAULT_EXITS,
        multiply: 4 * (routines + MULTIPLY),
        divide: 4 * (routines + DIVIDE),
        remainder: 4 * (routines + REMAINDER),
        new_object: 4 * (routines + NEW_OBJECT),
        functions,
        primitives,
    })
}

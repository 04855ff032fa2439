// A whole source.

ghost use Rattle.std.specs.Prelude.{◌≡◌, ◌<◌, [], length, Err, IfOk, IfErr, MatchResult};
ghost use Rattle.c0_tree.specs.View.{unit_view};
ghost use Rattle.c0_parser.specs.declared.fault.ReadFault.TheVariants.{SourceTooLong};
ghost use Rattle.c0_tree.specs.declared.primitive.Program.TheVariants.{User};
ghost use Rattle.c0_meaning.specs.Sizes.{IsMeasured};
ghost use Rattle.c0_meaning.specs.Unit.{IsCheckedAs};
ghost use Rattle.c0_types.specs.Source.{checked_unit, source_faults};
ghost use Rattle.c0_types.specs.Front.{OfTree, IsCheckedOf, IsUnitAs, IsUnitOf, IsFaultAs, IsSourceFaultOf, IsFaultIn, IsFaultInAs};
ghost use Rattle.c0_types.specs.declared.source_fault.SourceFault.TheVariants.{Reading};

use crate::source_fault::SourceFault;
use crate::unit::checked;
use c0_meaning::{Checked, UserChecked};
use c0_parser::parse;
use c0_tree::{Program, Unit};
use std::alloc::Global;

// The checked unit of the source of a kernel or a user program, and the words of its structs.
fn read_as(alloc: Global, program: Program, source: &[u8]) -> Result<(Unit, Vec<u32>), SourceFault>
    ensures too_long { 1048576 < length source.now → result ≡ Err (Reading SourceTooLong) }
    ensures checked { IfOk result (λ v. IsCheckedAs program (unit_view v.0)) }
    ensures measured { IfOk result (λ v. IsMeasured (unit_view v.0) v.1.items) }
    ensures found { IfOk result (λ v. IsUnitAs program source.now (unit_view v.0)) }
    ensures fault { IfErr result (IsFaultAs program source.now) }
    ensures only { OfTree source.now (λ u. MatchResult result (λ v. IsCheckedOf program u (unit_view v.0)) (IsFaultInAs program u)) }
{
    match parse(alloc, source) {
        Ok(unit) => match checked(alloc, program, unit) {
            Ok(unit) => Ok(unit),
            Err(fault) => Err(SourceFault::Typing(fault)),
        },
        Err(fault) => Err(SourceFault::Reading(fault)),
    }
}

/// The checked unit of a kernel's source: of the tree that the source reads as, with its asm texts read and its names resolved, where no
/// fault of typing stands in it. Else the fault of the first token that cannot be where it stands, or the fault of typing that comes
/// first: the one whose span starts first and, among those, the one of the least number. A source of more than 1,048,576 bytes is refused
/// as too long. Otherwise the one error is want of memory.
pub fn read_unit(alloc: Global, source: &[u8]) -> Result<Checked, SourceFault>
    ensures too_long { 1048576 < length source.now → result ≡ Err (Reading SourceTooLong) }
    ensures found { IfOk result (λ c. IsUnitOf source.now (unit_view c)) }
    ensures fault { IfErr result (IsSourceFaultOf source.now) }
    ensures only { OfTree source.now (λ u. MatchResult result (λ c. (source_faults u ≡ []) × (unit_view c ≡ checked_unit u)) (IsFaultIn u)) }
{
    match read_as(alloc, Program::Kernel, source) {
        Ok((unit, words)) => Ok(Checked::new(unit, words)),
        Err(fault) => Err(fault),
    }
}

/// The checked unit of a user program's source, as [`read_unit`] gives that of a kernel's.
pub fn read_program(alloc: Global, source: &[u8]) -> Result<UserChecked, SourceFault>
    ensures too_long { 1048576 < length source.now → result ≡ Err (Reading SourceTooLong) }
    ensures found { IfOk result (λ c. IsUnitAs User source.now (unit_view c)) }
    ensures fault { IfErr result (IsFaultAs User source.now) }
    ensures only { OfTree source.now (λ u. MatchResult result (λ c. IsCheckedOf User u (unit_view c)) (IsFaultInAs User u)) }
{
    match read_as(alloc, Program::User, source) {
        Ok((unit, words)) => Ok(UserChecked::new(unit, words)),
        Err(fault) => Err(fault),
    }
}

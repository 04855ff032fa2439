// The object of a kernel.

ghost use Rattle.std.specs.Prelude.{◌≡◌, ◌≤◌, length, IfOk};
ghost use Rattle.c0_tree.specs.View.{unit_view};
ghost use Rattle.c0_types.specs.Front.{IsUnitOf};
ghost use Rattle.kernel_linker.specs.Object.{object_of};

use c0_meaning::Checked;
use c0_meaning::laws::units_are_typed_or_faulty;
use c0_unit::compile;
use object_file::Object;
use std::alloc::{AllocError, Global};
use std::vec::Vec;

/// The object of a kernel, whose unit is the checked one of this source: the source, and the words that the unit is compiled to, of which an
/// object file has room for at least as many. The one error is want of memory.
pub fn make_object(alloc: Global, source: &[u8], unit: &Checked) -> Result<Object, AllocError>
    requires { IsUnitOf source.now (unit_view unit.now) }
    ensures object { IfOk result (λ o. o ≡ object_of source.now (unit_view unit.now)) }
    ensures source { IfOk result (λ o. o.source ≡ source.now) }
    ensures few { IfOk result (λ o. length o.words ≤ 4177920) }
{
    units_are_typed_or_faulty();
    let _unit = unit.unit();
    let words = compile(alloc, unit)?;
    let source = Vec::from_slice(alloc, source)?;
    Ok(Object { source, words })
}

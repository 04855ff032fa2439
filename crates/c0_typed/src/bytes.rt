// The bytes of types, and the words before fields.

ghost use Rattle.std.specs.Prelude.{◌≡◌, ◌*◌, ◌%◌, ◌^◌};
ghost use Rattle.c0_tree.specs.View.{name_view, type_view, unit_view};
ghost use Rattle.c0_tree.specs.Tree.{named};
ghost use Rattle.c0_meaning.specs.Resolved.{IsResolved};
ghost use Rattle.c0_meaning.specs.Sound.{shapes};
ghost use Rattle.c0_meaning.specs.Ty as ty;
ghost use Rattle.c0_meaning.specs.Ty.{ty_of};
ghost use Rattle.c0_meaning.specs.Words.{words};
ghost use Rattle.c0_typed.specs.Seen as spec;
ghost use Rattle.c0_typed.specs.Typed.{entry as entry_of};

use crate::seen_unit::SeenUnit;
use c0_meaning::Measured;
use c0_meaning::laws::well_formed_units_are_sized;
use c0_tree::{CType, Name};

// The bytes of a struct, modulo 2^32.
fn struct_bytes(unit: &Measured<'_>, name: &Name) -> u32
    requires { IsResolved (shapes (unit_view unit.now)) (named (name_view name.now)) }
    ensures { result ≡ 4 * words (shapes (unit_view unit.now)) (ty.named name.now.bytes.items) % 2 ^ 32 }
{
    well_formed_units_are_sized();
    let _unit = unit.unit();
    unit.struct_words(name.number).wrapping_mul(4)
}

/// The bytes of a type, modulo 2^32.
pub fn bytes_of(unit: &Measured<'_>, ty: &CType) -> u32
    requires { IsResolved (shapes (unit_view unit.now)) (type_view ty.now) }
    ensures { result ≡ 4 * words (shapes (unit_view unit.now)) (ty_of (type_view ty.now)) % 2 ^ 32 }
{
    match ty {
        CType::Int => 4,
        CType::Bool => 4,
        CType::Pointer(_) => 4,
        CType::Named(name) => struct_bytes(unit, name),
        CType::Array(element, length) => bytes_of(unit, element).wrapping_mul(*length),
    }
}

/// The entry of a number; 0 where there is none.
pub fn entry(words: &[u64], number: u32) -> u64
    ensures { result ≡ entry_of words.now number }
{
    words.get(number as usize).copied().unwrap_or(0)
}

/// The words before the field of a number in the struct of a name; 0 where there is no such field.
pub fn words_to_field(unit: &SeenUnit<'_>, owner: &Name, number: u32) -> u64
    requires { IsResolved (shapes (unit_view unit.now.unit.now)) (named (name_view owner.now)) }
    ensures { result ≡ spec.words_to_field (unit_view unit.now.unit.now) owner.now.bytes.items number }
{
    well_formed_units_are_sized();
    let _unit = unit.unit.unit();
    entry(&unit.fields[owner.number as usize], number)
}

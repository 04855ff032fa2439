// Declarations of a space: their names get their numbers, and a name that is set before is met.

ghost use Rattle.std.specs.Prelude.{◌≡◌, ◌<◌, ◌+◌, ◌^◌, ◌∷◌, [], OnOk, Some, None, cond, map, length, is_some};
ghost use Rattle.std.specs.Str.{bytes_eq};
ghost use Rattle.c0_meaning.specs.Fault.{fault, NAME_TWICE};
ghost use Rattle.c0_name_check.specs.Spaces.{SetsNames, twice_by, TwiceByTestIsTwice};
ghost use Rattle.c0_tree.specs.View.{decl_view};
ghost use Rattle.c0_name_check.specs.Met.{Meets};
ghost use Rattle.c0_name_check.specs.Names.{look, number_named};

use crate::met::{Fault, Mistake, meet_at};
use crate::names::set_name;
use c0_tree::{Decl, Name};
use indexmap::IndexMap;
use std::alloc::{AllocError, Global};

/// Gives a name its number unless it has one, and meets it where it has one: so it is set before in its space. The one error is want of
/// memory.
pub fn declare(
    alloc: Global,
    names: &mut IndexMap<Vec<u8>, u32>,
    name: &Name,
    number: u32,
    least: &mut Option<Fault>,
) -> Result<(), AllocError>
    ensures names { OnOk result (SetsNames (look names.old) (look names.new) (λ q. cond (bytes_eq name.now.bytes.items q) (Some number) None)) }
    ensures met { OnOk result (Meets least.old least.new (cond (is_some (look names.old name.now.bytes.items)) (fault NAME_TWICE name.now.span ∷ []) [])) }
{
    if set_name(alloc, names, name.bytes.as_slice(), number)? {
        meet_at(least, Mistake::NameTwice, name.span);
    }
    Ok(())
}

/// Gives declarations their numbers, of which the first has this one, and meets the names that are set before in their
/// space: before the call, or by a declaration before them.
pub fn declare_all(
    alloc: Global,
    names: &mut IndexMap<Vec<u8>, u32>,
    decls: &[Decl],
    first: u32,
    least: &mut Option<Fault>,
) -> Result<(), AllocError>
    requires { first + length decls.now < 2 ^ 32 }
    ensures names { OnOk result (SetsNames (look names.old) (look names.new) (λ q. number_named (λ d. d.name.text) q first (map decl_view decls.now))) }
    ensures met { OnOk result (Meets least.old least.new (twice_by (λ q. is_some (look names.old q)) (map (λ d. d.name) (map decl_view decls.now)))) }
{
    let mut number = first;
    for decl in decls {
        declare(alloc, names, &decl.name, number, least)?;
        number += 1;
    }
    Ok(())
}

/// A law: by a test of what is set before, the names set twice are those by the list of what is set before.
pub fn twice_by_test_is_twice()
    ensures { TwiceByTestIsTwice }
{}

// The numbers of structs.

ghost use Rattle.std.specs.Prelude.{◌≡◌, ◌<◌, ◌^◌, IfOk, List, length, map};
ghost use Rattle.c0_name_check.specs.Names.{look};
ghost use Rattle.c0_struct_sizes.specs.Parts.{TellsFirst};
ghost use Rattle.c0_tree.specs.View.{struct_view};

use c0_name_check::names::{Names, set_name};
use c0_tree::StructDef;
use indexmap::IndexMap;
use std::alloc::{AllocError, Global};

/// The number of the first struct of each name. The one error is want of memory.
pub fn struct_numbers(alloc: Global, structs: &[StructDef]) -> Result<Names, AllocError>
    requires { length structs.now < 2 ^ 32 }
    ensures { IfOk result (λ names. TellsFirst (look names) (map struct_view structs.now)) }
{
    let mut names = IndexMap::new(alloc);
    let mut number = 0;
    for def in structs {
        set_name(alloc, &mut names, def.name.bytes.as_slice(), number)?;
        number += 1;
    }
    Ok(names)
}

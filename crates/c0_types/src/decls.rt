// Declarations: their types are checked, and their names get their numbers.

ghost use Rattle.std.specs.Prelude.{◌≡◌, ◌<◌, ◌+◌, ◌^◌, length, map, nat_lt};
ghost use Rattle.c0_meaning.specs.DeclaredTypes.{declared_faults};
ghost use Rattle.c0_meaning.specs.Env.{typed_of};
ghost use Rattle.c0_meaning.specs.Limits.{MAX_GLOBAL_WORDS};
ghost use Rattle.c0_meaning.specs.Resolved.{resolved_decls};
ghost use Rattle.c0_meaning.specs.Words.{all_words};
ghost use Rattle.c0_name_check.specs.Met.{Meets};
ghost use Rattle.c0_name_check.specs.Structs.{OfStructs};
ghost use Rattle.c0_tree.specs.View.{decl_view};

use c0_name_check::met::Fault;
use c0_name_check::names::Names;
use c0_name_check::types::{capped_words, check_type};
use c0_tree::{Decl, Kind};

/// How many words all globals have together at most.
const MAX_GLOBAL_WORDS: u64 = 262_144;

/// Checks the types of declarations, and gives their names this kind and their numbers, of which the first has this one.
pub fn check_decls(
    names: &Names,
    words: &[u32],
    kind: Kind,
    first: u32,
    decls: &mut [Decl],
    least: &mut Option<Fault>,
)
    requires few { first + length decls.old < 2 ^ 32 }
    ensures met { OfStructs names.now words.now (λ shapes. Meets least.old least.new (declared_faults shapes (map decl_view decls.old))) }
    ensures named { OfStructs names.now words.now (λ shapes. map decl_view decls.new ≡ resolved_decls shapes kind first (map decl_view decls.old)) }
{
    let mut number = first;
    for decl in decls.iter_mut() {
        check_type(names, words, &mut decl.ty, decl.ty_span, least);
        decl.name.kind = kind;
        decl.name.number = number;
        number += 1;
    }
}

/// Whether globals have too many words together.
pub fn are_too_large(names: &Names, words: &[u32], globals: &[Decl]) -> bool
    requires few { length globals.now < 2 ^ 32 }
    ensures { OfStructs names.now words.now (λ shapes. result ≡ nat_lt MAX_GLOBAL_WORDS (all_words shapes (map typed_of (map decl_view globals.now)))) }
{
    let mut sum = 0u64;
    for decl in globals {
        sum += u64::from(capped_words(names, words, &decl.ty));
    }
    sum > MAX_GLOBAL_WORDS
}

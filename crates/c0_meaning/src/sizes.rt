// How many words types and frames take, and where declarations stand.

ghost use Rattle.std.specs.Prelude.{◌≡◌, ◌≤◌, ◌<◌, ◌+◌, ◌*◌, ◌^◌, min, map, length, slice_get, Some, take};
ghost use Rattle.std.specs.List.{All};
ghost use Rattle.c0_tree.specs.Tree.{CFunction};
ghost use Rattle.c0_tree.specs.View.{type_view, decl_view, function_view, unit_view};
ghost use Rattle.c0_meaning.specs.Ty.{ty_of};
ghost use Rattle.c0_meaning.specs.Env.{typed_of};
ghost use Rattle.c0_meaning.specs.Words.{words, all_words};
ghost use Rattle.c0_meaning.specs.DeclaredTypes.{MAX_TYPE_WORDS};
ghost use Rattle.c0_meaning.specs.Limits.{words_of_frame};
ghost use Rattle.c0_meaning.specs.Resolved.{IsResolved};
ghost use Rattle.c0_meaning.specs.Sizes.{capped};
ghost use Rattle.c0_meaning.specs.Sound.{shapes, IsSized, IsSizedFunction};

use crate::limits::WORDS_CAP;
use crate::measured::Measured;
use c0_tree::{Body, CType, Decl, Function};

/// The words of a type, up to 1,048,577: a scalar has 1, a struct those of its fields, an array its length times those of its element.
pub fn words_of(ty: &CType, unit: &Measured<'_>) -> u32
    requires { IsResolved (shapes (unit_view unit.now)) (type_view ty.now) }
    ensures { result ≡ capped (shapes (unit_view unit.now)) (ty_of (type_view ty.now)) }
{
    match ty {
        CType::Int => 1,
        CType::Bool => 1,
        CType::Pointer(_) => 1,
        CType::Named(name) => unit.struct_words(name.number),
        CType::Array(element, length) => {
            words_of(element, unit)
                .saturating_mul(*length)
                .min(WORDS_CAP)
        }
    }
}

/// The words of declarations: those of their types, which are sized.
pub fn decls_words(decls: &[Decl], unit: &Measured<'_>) -> u64
    requires decls { All (λ d. IsSized (shapes (unit_view unit.now)) d.ty) (map decl_view decls.now) }
    requires few { length decls.now < 2 ^ 32 }
    ensures value { result ≡ all_words (shapes (unit_view unit.now)) (map typed_of (map decl_view decls.now)) }
    ensures small { result ≤ length decls.now * MAX_TYPE_WORDS }
{
    let mut words = 0;
    for decl in decls {
        words += u64::from(words_of(&decl.ty, unit));
    }
    words
}

// The words of a function's frame.
fn function_words(function: &Function, unit: &Measured<'_>) -> u64
    requires { IsSizedFunction (shapes (unit_view unit.now)) (function_view function.now) }
    ensures { result ≡ words_of_frame (shapes (unit_view unit.now)) (function_view function.now) }
{
    let params = decls_words(&function.params, unit);
    match &function.body {
        Body::Code(code) => params + decls_words(&code.locals, unit) + 3,
        Body::Asm(_) => params + 3,
    }
}

/// The words of a function's frame: those of its parameters and of its locals, and three more. An asm function has no
/// locals.
pub fn frame_words(unit: &Measured<'_>, function: u32) -> u64
    requires { function < length unit.now.functions.items }
    ensures { (f : CFunction) → slice_get (unit_view unit.now).functions function ≡ Some f → result ≡ words_of_frame (shapes (unit_view unit.now)) f }
{
    function_words(&unit.unit().functions[function as usize], unit)
}

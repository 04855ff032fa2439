// With which function the run of a unit begins: `dispatch` of a kernel, `main` of a user program.

ghost use Rattle.std.specs.Prelude.{◌≡◌, ◌<◌, Some, length, map, position};
ghost use Rattle.c0_tree.specs.View.{decl_view, function_view, type_view, unit_view};
ghost use Rattle.c0_meaning.specs.Limits as limits;
ghost use Rattle.c0_meaning.specs.Ty.{int, same_ty, ty_of};
ghost use Rattle.c0_meaning.specs.Unit.{IsCheckedAs};

use c0_tree::{Body, CType, Decl, Function, Program, Unit};

// Whether a type is int.
fn is_int(ty: &CType) -> bool
    ensures { result ≡ same_ty (ty_of (type_view ty.now)) int }
{
    matches!(ty, CType::Int)
}

// Whether these are three parameters of type int.
fn are_three_ints(params: &[Decl]) -> bool
    ensures { result ≡ limits.are_three_ints (map decl_view params.now) }
{
    match params {
        [a, b, c] => is_int(&a.ty) && is_int(&b.ty) && is_int(&c.ty),
        _ => false,
    }
}

// Whether this is `int dispatch(int, int, int)` with a code body.
fn is_dispatch(function: &Function) -> bool
    ensures { result ≡ limits.is_dispatch (function_view function.now) }
{
    function.name.bytes.as_slice() == b"dispatch".as_slice()
        && are_three_ints(&function.params)
        && is_int(&function.answer)
        && !matches!(&function.body, Body::Asm(_))
}

// Whether this is `int main()` with a code body.
fn is_main(function: &Function) -> bool
    ensures { result ≡ limits.is_main (function_view function.now) }
{
    function.name.bytes.as_slice() == b"main".as_slice()
        && function.params.len() == 0
        && is_int(&function.answer)
        && !matches!(&function.body, Body::Asm(_))
}

// Whether this is the function with which a run begins.
fn is_first(program: Program, function: &Function) -> bool
    ensures { result ≡ limits.is_first program (function_view function.now) }
{
    match program {
        Program::Kernel => is_dispatch(function),
        Program::User => is_main(function),
    }
}

// The place of the first such function, by the tree.
fn found_first(program: Program, functions: &[Function]) -> Option<usize>
    ensures { result ≡ position (λ f. limits.is_first program (function_view f)) functions.now }
{
    functions.iter().position(|f| is_first(program, f))
}

/// The number of the first function with which a run of the program may begin, if there is one: `int dispatch(int, int, int)` of a
/// kernel, `int main()` of a user program, with a code body.
pub fn find_first(program: Program, functions: &[Function]) -> Option<usize>
    ensures { result ≡ position (limits.is_first program) (map function_view functions.now) }
{
    found_first(program, functions)
}

/// The number of the function with which the run of a checked unit begins.
pub fn first_of(program: Program, unit: &Unit) -> u32
    requires { IsCheckedAs program (unit_view unit.now) }
    ensures is { result ≡ limits.first_number program (unit_view unit.now) }
    ensures found { position (limits.is_first program) (unit_view unit.now).functions ≡ Some result }
    ensures there { result < length unit.now.functions.items }
{
    let number = find_first(program, &unit.functions).unwrap();
    number as u32
}

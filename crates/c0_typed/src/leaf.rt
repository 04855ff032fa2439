// Which functions keep their variables in registers, and which write the return register.

ghost use Rattle.std.specs.Prelude.{◌≡◌, map};
ghost use Rattle.std.specs.List.{list_all};
ghost use Rattle.c0_tree.specs.View.{body_view, decl_view, function_view, stmt_view, stmts_view, type_view};
ghost use Rattle.c0_meaning.specs.Env.{typed_of};
ghost use Rattle.c0_meaning.specs.Ty.{is_scalar as is_scalar_type, ty_of};
ghost use Rattle.c0_meaning.specs.Limits.{locals_of as locals};
ghost use Rattle.c0_meaning.specs.TypedState.{types_of};
ghost use Rattle.c0_typed.specs.Leaf as spec;

use c0_tree::{Body, CType, Decl, Function, Stmt};

// How many variables registers can hold.
const MAX_REGISTER_VARIABLES: usize = 8;

/// Whether a type is an int, a bool or a pointer.
pub fn is_scalar(ty: &CType) -> bool
    ensures { result ≡ is_scalar_type (ty_of (type_view ty.now)) }
{
    match ty {
        CType::Int => true,
        CType::Bool => true,
        CType::Pointer(_) => true,
        CType::Named(_) => false,
        CType::Array(_, _) => false,
    }
}

// Whether all of these are scalars.
fn are_scalars(decls: &[Decl]) -> bool
    ensures { result ≡ list_all is_scalar_type (types_of (map typed_of (map decl_view decls.now))) }
{
    let mut all = true;
    for decl in decls {
        all = all && is_scalar(&decl.ty);
    }
    all
}

// Whether a statement calls no function and no primitive.
#[cycle(leaf)]
fn is_free_of_calls(stmt: &Stmt) -> bool
    ensures { result ≡ spec.is_free_of_calls (stmt_view stmt.now) }
{
    match stmt {
        Stmt::Assign { .. } => true,
        Stmt::Call { .. } => false,
        Stmt::New { .. } => true,
        Stmt::If { yes, no, .. } => are_free_of_calls(yes) && are_free_of_calls(no),
        Stmt::While { body, .. } => are_free_of_calls(body),
    }
}

// Whether none of the statements does.
#[cycle(leaf)]
fn are_free_of_calls(stmts: &[Stmt]) -> bool
    ensures { result ≡ spec.are_free_of_calls (stmts_view stmts.now) }
{
    let mut free = true;
    for stmt in stmts {
        free = free && is_free_of_calls(stmt);
    }
    free
}

// Whether a body is of statements that call nothing.
fn is_leaf(body: &Body) -> bool
    ensures { result ≡ spec.is_leaf (body_view body.now) }
{
    match body {
        Body::Code(code) => are_free_of_calls(&code.stmts),
        Body::Asm(_) => false,
    }
}

// The locals of a body.
fn locals_of(body: &Body) -> &[Decl]
    ensures { map decl_view result.now ≡ locals (body_view body.now) }
{
    match body {
        Body::Code(code) => &code.locals,
        Body::Asm(_) => &[],
    }
}

/// Whether a function keeps its variables in registers: it calls no function and no primitive, and has at most eight variables, all of
/// them scalars.
pub fn keeps_registers(function: &Function) -> bool
    ensures { result ≡ spec.keeps_registers (function_view function.now) }
{
    let locals = locals_of(&function.body);
    let count = function.params.len().saturating_add(locals.len());
    is_leaf(&function.body)
        && count <= MAX_REGISTER_VARIABLES
        && are_scalars(&function.params)
        && are_scalars(locals)
}

// Whether a statement calls a function or a primitive, or makes an object.
#[cycle(calling)]
fn is_calling(stmt: &Stmt) -> bool
    ensures { result ≡ spec.is_calling (stmt_view stmt.now) }
{
    match stmt {
        Stmt::Assign { .. } => false,
        Stmt::Call { .. } => true,
        Stmt::New { .. } => true,
        Stmt::If { yes, no, .. } => are_calling(yes) || are_calling(no),
        Stmt::While { body, .. } => are_calling(body),
    }
}

// Whether one of the statements does.
#[cycle(calling)]
fn are_calling(stmts: &[Stmt]) -> bool
    ensures { result ≡ spec.are_calling (stmts_view stmts.now) }
{
    let mut calling = false;
    for stmt in stmts {
        calling = calling || is_calling(stmt);
    }
    calling
}

/// Whether the code of a body writes the return register: it calls something, or makes an object.
pub fn calls_in(body: &Body) -> bool
    ensures { result ≡ spec.calls_in (body_view body.now) }
{
    match body {
        Body::Code(code) => are_calling(&code.stmts),
        Body::Asm(_) => false,
    }
}

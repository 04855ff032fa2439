// A tree as a text with brackets around each operator and its operands.

use c0_tree::{
    BinaryOp, Body, CType, Code, Decl, Expr, Function, Kind, Name, Stmt, StructDef, UnaryOp, Unit,
};
use std::alloc::AllocError;
use std::fmt::Write;

/// Bytes: those of printed ASCII as they are, and `\xHH` for each other one.
pub fn put_bytes(out: &mut String, bytes: &[u8]) -> Result<(), AllocError> {
    for byte in bytes {
        if *byte >= b' ' && *byte <= b'~' && *byte != b'\\' {
            out.push(char::from(*byte))?;
        } else {
            write!(out, "\\x{byte:02x}")?;
        }
    }
    Ok(())
}

/// Words in hex, each with a blank before it.
pub fn put_words(out: &mut String, words: &[u32]) -> Result<(), AllocError> {
    for word in words {
        write!(out, " {word:08x}")?;
    }
    Ok(())
}

// A name; where it stands for something, this too, as in `x@Local 2`.
fn put_name(out: &mut String, name: &Name) -> Result<(), AllocError> {
    put_bytes(out, &name.bytes)?;
    if name.kind != Kind::Unresolved || name.number != 0 {
        let kind = name.kind;
        let number = name.number;
        write!(out, "@{kind:?} {number}")?;
    }
    Ok(())
}

// An operator's sign, between blanks.
fn sign_of(op: BinaryOp) -> &'static str {
    match op {
        BinaryOp::Add => " + ",
        BinaryOp::Sub => " - ",
        BinaryOp::Mul => " * ",
        BinaryOp::Div => " / ",
        BinaryOp::Rem => " % ",
        BinaryOp::Lt => " < ",
        BinaryOp::Le => " <= ",
        BinaryOp::Gt => " > ",
        BinaryOp::Ge => " >= ",
        BinaryOp::Eq => " == ",
        BinaryOp::Ne => " != ",
        BinaryOp::And => " && ",
        BinaryOp::Or => " || ",
    }
}

// An operator with `(` before it, its operand, and `)`.
#[cycle(expressions)]
fn put_prefixed(out: &mut String, sign: &str, part: &Expr) -> Result<(), AllocError> {
    out.push_str(sign)?;
    put_expr(out, part)?;
    out.push(')')
}

// An expression, as `((-a) * b[i].f)`.
#[cycle(expressions)]
fn put_expr(out: &mut String, expr: &Expr) -> Result<(), AllocError> {
    match expr {
        Expr::Num(_, value) => write!(out, "{value}")?,
        Expr::True(_) => out.push_str("true")?,
        Expr::False(_) => out.push_str("false")?,
        Expr::Null(_) => out.push_str("null")?,
        Expr::Var(name) => put_name(out, name)?,
        Expr::Field(_, whole, name) => {
            put_expr(out, whole)?;
            out.push('.')?;
            put_name(out, name)?;
        }
        Expr::Arrow(_, whole, name) => {
            put_expr(out, whole)?;
            out.push_str("->")?;
            put_name(out, name)?;
        }
        Expr::Index(_, array, index) => {
            put_expr(out, array)?;
            out.push('[')?;
            put_expr(out, index)?;
            out.push(']')?;
        }
        Expr::Deref(_, part) => put_prefixed(out, "(*", part)?,
        Expr::AddressOf(_, part) => put_prefixed(out, "(&", part)?,
        Expr::Unary(_, UnaryOp::Negate, part) => put_prefixed(out, "(-", part)?,
        Expr::Unary(_, UnaryOp::Not, part) => put_prefixed(out, "(!", part)?,
        Expr::Binary(_, op, left, right) => {
            out.push('(')?;
            put_expr(out, left)?;
            out.push_str(sign_of(*op))?;
            put_expr(out, right)?;
            out.push(')')?;
        }
    }
    Ok(())
}

// A type, from the outside in: `4 of pointer to int`.
fn put_type(out: &mut String, ty: &CType) -> Result<(), AllocError> {
    match ty {
        CType::Int => out.push_str("int"),
        CType::Bool => out.push_str("bool"),
        CType::Named(name) => {
            out.push_str("struct ")?;
            put_name(out, name)
        }
        CType::Pointer(part) => {
            out.push_str("pointer to ")?;
            put_type(out, part)
        }
        CType::Array(part, length) => {
            write!(out, "{length} of ")?;
            put_type(out, part)
        }
    }
}

// Declarations, as `a: int; b: pointer to bool; `.
fn put_decls(out: &mut String, decls: &[Decl]) -> Result<(), AllocError> {
    for decl in decls {
        put_name(out, &decl.name)?;
        out.push_str(": ")?;
        put_type(out, &decl.ty)?;
        out.push_str("; ")?;
    }
    Ok(())
}

// Arguments, as `(a)(1)`.
fn put_args(out: &mut String, args: &[Expr]) -> Result<(), AllocError> {
    for arg in args {
        out.push('(')?;
        put_expr(out, arg)?;
        out.push(')')?;
    }
    Ok(())
}

// An expression with a text before and behind it.
fn put_between(
    out: &mut String,
    before: &str,
    expr: &Expr,
    behind: &str,
) -> Result<(), AllocError> {
    out.push_str(before)?;
    put_expr(out, expr)?;
    out.push_str(behind)
}

// A statement; an `if` has two blocks, with and without `else`.
#[cycle(statements)]
fn put_stmt(out: &mut String, stmt: &Stmt) -> Result<(), AllocError> {
    match stmt {
        Stmt::Assign { place, value, .. } => {
            put_between(out, "", place, " = ")?;
            put_between(out, "", value, "; ")?;
        }
        Stmt::Call {
            place,
            function,
            args,
            ..
        } => {
            put_between(out, "", place, " = call ")?;
            put_name(out, function)?;
            put_args(out, args)?;
            out.push_str("; ")?;
        }
        Stmt::New { place, ty, .. } => {
            put_between(out, "", place, " = new ")?;
            put_type(out, ty)?;
            out.push_str("; ")?;
        }
        Stmt::If { test, yes, no, .. } => {
            put_between(out, "if ", test, " ")?;
            put_block(out, yes)?;
            put_block(out, no)?;
        }
        Stmt::While { test, body, .. } => {
            put_between(out, "while ", test, " ")?;
            put_block(out, body)?;
        }
    }
    Ok(())
}

// Statements in braces.
#[cycle(statements)]
fn put_block(out: &mut String, stmts: &[Stmt]) -> Result<(), AllocError> {
    out.push_str("{ ")?;
    for stmt in stmts {
        put_stmt(out, stmt)?;
    }
    out.push_str("} ")
}

// What a function does; of an asm text the bytes, and the words that it has by then.
fn put_body(out: &mut String, body: &Body) -> Result<(), AllocError> {
    match body {
        Body::Code(
            Code {
                locals,
                stmts,
                answer,
            },
        ) => {
            put_decls(out, locals)?;
            put_block(out, stmts)?;
            put_between(out, "return ", answer, "")
        }
        Body::Asm(asm) => {
            out.push_str("asm ")?;
            put_bytes(out, &asm.bytes)?;
            put_words(out, &asm.words)
        }
    }
}

// A function, as `f: int of a: int; { x = 1; } return x`.
fn put_function(out: &mut String, function: &Function) -> Result<(), AllocError> {
    put_name(out, &function.name)?;
    out.push_str(": ")?;
    put_type(out, &function.answer)?;
    out.push_str(" of ")?;
    put_decls(out, &function.params)?;
    put_body(out, &function.body)?;
    out.push('\n')
}

// A struct, as `s has a: int;`.
fn put_struct(out: &mut String, definition: &StructDef) -> Result<(), AllocError> {
    put_name(out, &definition.name)?;
    out.push_str(" has ")?;
    put_decls(out, &definition.fields)?;
    out.push('\n')
}

/// A unit: its structs, each on a line, then its globals on a line, then its functions, each on a line.
pub fn put_unit(out: &mut String, unit: &Unit) -> Result<(), AllocError> {
    for definition in &unit.structs {
        put_struct(out, definition)?;
    }
    put_decls(out, &unit.globals)?;
    out.push('\n')?;
    for function in &unit.functions {
        put_function(out, function)?;
    }
    Ok(())
}

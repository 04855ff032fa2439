// The spans of a tree in a list: each part before the parts in it.

use c0_tree::{Body, CType, Code, Decl, Expr, Function, Span, Stmt, Unit};
use std::alloc::{AllocError, Global};

// An expression, and the operands and field names in it.
fn add_expr(spans: &mut Vec<Span>, expr: &Expr) -> Result<(), AllocError> {
    match expr {
        Expr::Num(span, _) | Expr::True(span) | Expr::False(span) | Expr::Null(span) => {
            spans.push(*span)?;
        }
        Expr::Var(name) => spans.push(name.span)?,
        Expr::Field(span, whole, name) | Expr::Arrow(span, whole, name) => {
            spans.push(*span)?;
            add_expr(spans, whole)?;
            spans.push(name.span)?;
        }
        Expr::Index(span, left, right) | Expr::Binary(span, _, left, right) => {
            spans.push(*span)?;
            add_expr(spans, left)?;
            add_expr(spans, right)?;
        }
        Expr::Deref(span, part) | Expr::AddressOf(span, part) | Expr::Unary(span, _, part) => {
            spans.push(*span)?;
            add_expr(spans, part)?;
        }
    }
    Ok(())
}

// The name in a type, if it has one.
fn add_struct_name(spans: &mut Vec<Span>, ty: &CType) -> Result<(), AllocError> {
    match ty {
        CType::Int | CType::Bool => {}
        CType::Named(name) => spans.push(name.span)?,
        CType::Pointer(part) | CType::Array(part, _) => add_struct_name(spans, part)?,
    }
    Ok(())
}

// Declarations: of each its type and its name.
fn add_decls(spans: &mut Vec<Span>, decls: &[Decl]) -> Result<(), AllocError> {
    for decl in decls {
        spans.push(decl.ty_span)?;
        add_struct_name(spans, &decl.ty)?;
        spans.push(decl.name.span)?;
    }
    Ok(())
}

// Arguments, in order.
fn add_args(spans: &mut Vec<Span>, args: &[Expr]) -> Result<(), AllocError> {
    for arg in args {
        add_expr(spans, arg)?;
    }
    Ok(())
}

// A statement, with those in it.
#[cycle(statements)]
fn add_stmt(spans: &mut Vec<Span>, stmt: &Stmt) -> Result<(), AllocError> {
    match stmt {
        Stmt::Assign { span, place, value } => {
            spans.push(*span)?;
            add_expr(spans, place)?;
            add_expr(spans, value)?;
        }
        Stmt::Call {
            span,
            place,
            call_span,
            function,
            args,
        } => {
            spans.push(*span)?;
            add_expr(spans, place)?;
            spans.push(*call_span)?;
            spans.push(function.span)?;
            add_args(spans, args)?;
        }
        Stmt::New {
            span,
            place,
            ty,
            ty_span,
        } => {
            spans.push(*span)?;
            add_expr(spans, place)?;
            spans.push(*ty_span)?;
            add_struct_name(spans, ty)?;
        }
        Stmt::If {
            span,
            test,
            yes,
            no,
        } => {
            spans.push(*span)?;
            add_expr(spans, test)?;
            add_stmts(spans, yes)?;
            add_stmts(spans, no)?;
        }
        Stmt::While { span, test, body } => {
            spans.push(*span)?;
            add_expr(spans, test)?;
            add_stmts(spans, body)?;
        }
    }
    Ok(())
}

// Statements, in order.
#[cycle(statements)]
fn add_stmts(spans: &mut Vec<Span>, stmts: &[Stmt]) -> Result<(), AllocError> {
    for stmt in stmts {
        add_stmt(spans, stmt)?;
    }
    Ok(())
}

// A function: the type of its result, its name, its parameters and its body.
fn add_function(spans: &mut Vec<Span>, function: &Function) -> Result<(), AllocError> {
    spans.push(function.answer_span)?;
    add_struct_name(spans, &function.answer)?;
    spans.push(function.name.span)?;
    add_decls(spans, &function.params)?;
    match &function.body {
        Body::Code(
            Code {
                locals,
                stmts,
                answer,
            },
        ) => {
            add_decls(spans, locals)?;
            add_stmts(spans, stmts)?;
            add_expr(spans, answer)
        }
        Body::Asm(asm) => Ok(spans.push(asm.span)?),
    }
}

/// All spans of a unit: those of its structs, its globals and its functions.
pub fn unit_spans(alloc: Global, unit: &Unit) -> Result<Vec<Span>, AllocError> {
    let mut spans = Vec::new(alloc);
    for definition in &unit.structs {
        spans.push(definition.name.span)?;
        add_decls(&mut spans, &definition.fields)?;
    }
    add_decls(&mut spans, &unit.globals)?;
    for function in &unit.functions {
        add_function(&mut spans, function)?;
    }
    Ok(spans)
}

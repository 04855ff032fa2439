//! The tree of a C0 source, and the tables of the primitives: a kernel's, and a user program's.
//!
//! Each list of the tree is in source order. Spans are of bytes of the source, counted from 0.
#![tactic(auto)]

pub mod primitive;
pub mod tree;

pub use primitive::{Primitive, Program, Scalar, primitives, user_primitives};
pub use tree::{
    AsmText, BinaryOp, Body, CType, Code, Decl, Expr, Function, Kind, Name, Span, Stmt, StructDef,
    UnaryOp, Unit,
};

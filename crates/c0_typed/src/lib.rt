//! The typed tree of a unit: what a code generator reads in place of names and types.
//!
//! A place says where it stands, a part how many bytes lie before it, an array what its elements are, and an operator which sort of code it has.
//! [`typed_unit`] makes it of a unit whose names are resolved; the definitions are in `specs/`:
//!
//! - `Tree` the tree, `View` what contracts see of it, `Sorted` which operator of C0 each sorted one is.
//! - `Seen` and `SeenEnv` what names stand for in a function that is read, `Elaborated` what an expression in it comes to, `Sized` that types are sized.
//! - `Typed` the tree of each expression, statement, function and unit; `Leaf` which functions keep their variables in registers.
//! - `Size` how large it is, `Laws` what is proved of it, `Rows` the trees of some expressions.
#![tactic(auto)]

mod build;
mod bytes;
mod elaborated;
mod expression;
mod function;
pub mod laws;
mod leaf;
mod place;
mod seen_function;
mod seen_unit;
mod sorted;
mod statement;
mod tree;
mod unit;

pub use sorted::{Order, Plain};
pub use tree::{Elements, LocalType, TypedBody, TypedCode, TypedExpr, TypedFunction, TypedStmt};
pub use unit::typed_unit;

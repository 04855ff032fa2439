//! The check of a C0 body: it types expressions and statements, resolves their names in place, and keeps the least fault.
#![tactic(auto)]

pub mod body;
pub mod calls;
pub mod check;
pub mod parts;
pub mod rules;
pub mod scope;
pub mod shape;
pub mod stmts;

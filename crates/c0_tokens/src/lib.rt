//! The tokens of a C0 source.
#![tactic(auto)]

mod laws;
mod lexer;
mod nesting;
mod spelling;
pub mod token;

pub use laws::{longest_mark_is_cut, tokens_are_few_and_small, tokens_stand_in_order};
pub use lexer::{MAX_SOURCE, tokens};
pub use token::{Lexeme, Mark, Token, TokenFault};

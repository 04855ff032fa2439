//! The tree of a C0 source, or its first token that cannot be where it stands.
#![tactic(auto)]

mod arguments;
mod expressions;
mod fault;
mod items;
mod laws;
mod reader;
mod source;
mod statements;
mod types;

pub use fault::ReadFault;
pub use laws::{
    readings_are_plain, sources_have_one_answer, sources_read_by_walks, unit_has_all_items,
};
pub use source::parse;

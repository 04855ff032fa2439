//! How a copy on the machine shares frames: of the memory that the layer's image makes with any kernel's code behind it.
#![tactic(auto)]

mod laws;

pub use laws::{a_copy_passes_its_last_page, the_last_page_is_shared};

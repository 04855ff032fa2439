//! Samples: for each number a kernel with its users and a schedule, to be linked and booted.
//!
//! The kernel gives each of 3 to 16 users 16 pages, copies the first page of user 1 to the others, and runs them in turn until each has
//! trapped. There are 2 to 8 frames for all these pages, so pages are brought in and out all the time, and pages that share a frame are
//! split when they are stored to.
#![tactic(auto)]

mod making;
mod parts;
mod program;
mod schedule;
mod source;

pub use making::sample;
pub use parts::Sample;
pub use program::program_is_assembled;

//! Loaded runs over any layer: what makes one (`load`, `load_rom`, `resumed`), its turns, its report and its words; whole boots and traces, a boot that is
//! to be saved, and the rest of one that was taken up; and laws of them.
#![tactic(auto)]

mod laws;
mod layout;
mod load;
mod next;
mod pages;
mod pasts;
mod report;
mod resuming;
mod run;
mod saving;
mod turn_rows;
mod whole;

pub use boot_turns::{RunFault, Turn, View};
pub use cvm_model::{Next, Row};
pub use laws::systems_can_boot;
pub use load::{LoadFault, Setup, Shortage, check_room};
pub use pasts::pasts_exist;
pub use resuming::{run_on, saved_boots_are_of_runs};
pub use run::Run;
pub use saving::run_to_save;
pub use whole::{Limits, RunEnd, run_rom, run_whole, saved_runs_are_taken_up};

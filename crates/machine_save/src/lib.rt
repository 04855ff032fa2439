//! Saved runs: a boot whose state is put to a file where it stops, in a room that is taken before the run; and a run that is taken up from a file, and goes
//! on.
#![tactic(auto)]

mod laws;
mod resuming;
mod saving;
mod space;

pub use laws::boots_hold;
pub use resuming::{ResumeFault, resume, resume_run};
pub use saved_file::SaveFault;
pub use saving::{Place, save_run};
pub use space::Room;

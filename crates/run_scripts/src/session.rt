// What is run of an accepted system.
use boot_run::View;

/// Where the run of a system starts.
#[derive(Clone, Copy, Debug, PartialEq, Eq)]
pub enum StartPoint {
    /// At the loaded machine, whose memory holds the linked words.
    Loaded,
    /// At the machine with a boot ROM, which brings the linked words from the disk.
    Rom,
}

/// What is run of an accepted system, under its schedule.
#[derive(Clone, Copy, Debug, PartialEq, Eq)]
pub struct Session {
    /// Where it starts.
    pub start: StartPoint,
    /// What is printed: the rows and the report of a boot, or the trace of one user.
    pub view: View,
    /// How many turns are wanted, at least 1.
    pub turns: u32,
    /// The most steps of the machine.
    pub steps: u64,
}

//! Schedules: which lines are raised at which step of a machine, how long its
//! disk is busy with which command, and which words its console has to give.
//!
//! A schedule is a text of lines. Each ends with LF, which the last one may
//! lack, and an empty text is an empty schedule. A line has two or three words
//! with one space between two of them:
//!
//! - `line T J`: the line J, 0 to 7, is raised at step T;
//! - `busy N B`: the disk is busy for B steps, 0 to 65,535, with the command N;
//! - `input W`: W, 0 to 4,294,967,295, is the next word of the console's input.
//!
//! Steps and commands are counted from 0 and are below 2^64. Numbers are
//! decimal, with no sign and no leading zero. T never falls from one `line` row
//! to the next, and N rises from one `busy` row to the next. There are at most
//! 4,096 `input` rows. The three kinds may be mixed.
#![tactic(auto)]

mod fault;
mod lines;
mod row;
mod schedule;

pub use fault::ScheduleFault;
pub use lines::Lines;
pub use row::{BusyRow, LineRow, Row, read_rows_are_spelled, spelled_rows_are_read};
pub use schedule::{MOST_INPUTS, Schedule, busy_times_are_within_the_longest, read};

//! The texts of a run: its end and its report, printed from the machine, with rows of globals, of the console's log and of users; and the rows
//! of dispatches, of journals and of a kernel's fault.
#![tactic(auto)]

mod fault;
mod globals;
pub mod journal_text;
mod laws;
mod memory;
pub mod row_text;
mod rows;
mod users;

pub use fault::ReportFault;
pub use globals::{put_global, put_globals};
pub use laws::{
    a_global_tells, a_user_is_told, a_user_speaks, the_globals_tell, the_rows_tell,
    the_users_speak, the_words_show, the_words_tell,
};
pub use memory::read_user_word;
pub use rows::put_end;
pub use users::{put_log, put_user_rows, put_users};

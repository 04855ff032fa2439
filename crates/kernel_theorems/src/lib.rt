//! Properties of kernels, proved of all their runs: each function is a law, and docs/VERIFYING.md says what each is for.
#![tactic(auto)]

ghost use Rattle.kernel_theorems.specs.Text.{ProgramTextsMeanTrees, TextsMeanTrees};

use c0_meaning::program_laws::programs_ignore_spans;
use c0_parser::sources_read_by_walks;
use c0_types::laws::{programs_have_one_answer, sources_have_one_answer};
use cvm_model::reasoning::meanings_ignore_spans;

pub mod guarded;
pub mod logging;
pub mod mailbox;
pub mod registers;
pub mod round_robin;
pub mod semaphore;
pub mod traps;

/// A law: a text that is read by computation means the tree that it comes to.
pub fn texts_mean_trees()
    ensures { TextsMeanTrees }
{
    sources_read_by_walks();
    sources_have_one_answer();
    meanings_ignore_spans();
}

/// A law: so does a user program's text.
pub fn program_texts_mean_trees()
    ensures { ProgramTextsMeanTrees }
{
    sources_read_by_walks();
    programs_have_one_answer();
    programs_ignore_spans();
}

//! A whole system: two users bring the odd and the even numbers, and the kernel lets them call in turn. docs/VERIFYING.md says how such a proof is made.
#![tactic(auto)]

ghost use Rattle.alternating.specs.Boots.{AlternatingBoots};
ghost use Rattle.alternating.specs.Property.{UsersAlternate};
ghost use Rattle.alternating.specs.Text.{text};
ghost use Rattle.alternating.specs.Tree.{kernel_tree};
ghost use Rattle.kernel_theorems.specs.Text.{IsTextOf};

use cvm_model::reasoning::runs_are_lawful;
use kernel_linker::laws::accepted_systems_are_of_their_images;
use kernel_theorems::texts_mean_trees;
use mips_table::runs::turns_are_counted;
use run_bounds::{bounds_are_small, lines_taken_are_few, raised_lines_are_few};

/// A law: whatever lines are raised, each turn ends, the log has the numbers from 1 on, one for each call, each user's machine is after its own steps, and the
/// system has halted exactly behind the sixth call.
pub fn users_alternate()
    ensures { UsersAlternate }
{
    runs_are_lawful();
}

/// A law: the text is that of the tree.
pub fn text_is_tree()
    ensures { IsTextOf 19600 text kernel_tree }
{}

/// A law: each boot (`boot`, `rom` or `sample`, with no failed call) of an image with this text and these users, under every schedule, printed the text of
/// such a state; with 17 turns and one more for each `line` row, and the steps for them, it halted, and then it printed at most 7 rows and one more for each
/// `line` row, and a report that is stated letter by letter.
pub fn alternating_boots()
    ensures { AlternatingBoots }
{
    accepted_systems_are_of_their_images();
    runs_are_lawful();
    turns_are_counted();
    bounds_are_small();
    lines_taken_are_few();
    raised_lines_are_few();
    texts_mean_trees();
    text_is_tree();
}

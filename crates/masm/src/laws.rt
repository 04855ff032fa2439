//! The laws of blocks. Each is the contract of a function that does nothing.
//!
//! They are statements on runs of code from one configuration to another, and hold on the physical machine and on the flat one.

ghost use Rattle.mips_table.specs.declared.inst.Inst.{Inst};
ghost use Rattle.std.specs.Prelude.{ℕ, List, ◌<◌, ◌≤◌, ◌+◌, length};
ghost use Rattle.mips_table.specs.Code.{Contents, Behind, World, Sound};
ghost use Rattle.masm.specs.CodeAddresses.{CallsLead};
ghost use Rattle.masm.specs.Standing.{BlockStands};
ghost use Rattle.masm.specs.Stays.{RegistersStay};
ghost use Rattle.masm.specs.Laws.{RunsCompose, StraightRuns, JumpsLead, WhenRuns, LoopRuns, BlocksInRange, LoopPays, ReturnRuns, WordsAreEncodings};

use mips_table::runs::code_runs_join;

/// Runs join, a block's parts stand where the block does, and a run of part of the code is a run of all of it.
pub fn runs_compose()
    ensures { RunsCompose }
{}

/// A block stands where its instructions do, and a run of it alone stays among them to its end.
pub fn a_block_stands()
    ensures { (n : ℕ) (is : List Inst) → BlockStands n is }
{
    code_runs_join();
}

/// Straight code does what is said of its instructions, in a step each.
pub fn straight_code_runs()
    ensures { (w : World) → Sound w → StraightRuns w }
{}

/// A register that straight code doesn't write stays.
pub fn registers_stay()
    ensures { RegistersStay }
{}

/// Branches and jumps lead where they name, in one step.
pub fn jumps_lead()
    ensures { (w : World) → Sound w → JumpsLead w }
{}

/// A jump, a call and a return lead where they name, and a call's return leads behind it.
pub fn calls_lead()
    ensures { (w : World) → Sound w → CallsLead w }
{}

/// A body under a condition is run where the register isn't 0, and passed over where it is.
pub fn a_condition_is_tested()
    ensures { (w : World) → Sound w → (r : ℕ) (body : List Inst) → length body < 32768 → WhenRuns w r body }
{}

/// A loop turns as long as the register isn't 0.
pub fn a_loop_turns()
    ensures { (w : World) → Sound w → (test : List Inst) (r : ℕ) (body : List Inst) → length test + length body + 2 ≤ 32768 → LoopRuns w test r body }
{}

/// What a loop keeps: a state of the loop's own, and what holds of it and of the machine's before each test, after it, and
/// behind the loop, in each world.
pub trait Turns {
    ghost State: { Type 0 };

    ghost before: { World → State → Contents → Behind → Type 0 };

    ghost tested: { World → State → Contents → Behind → Type 0 };

    ghost ends: { World → State → Contents → Behind → Type 0 };
}

/// A loop whose turns are paid for ends, within what it may spend.
pub fn a_loop_pays<T: Turns>()
    ensures { (w : World) → Sound w → LoopPays w T.State (T.before w) (T.tested w) (T.ends w) }
{}

/// A body that ends in a jump to the return address returns.
pub fn a_routine_returns()
    ensures { (w : World) → Sound w → (body : List Inst) → ReturnRuns w body }
{}

/// The words of a block are those of its instructions, also where it is made of blocks. A function that makes a block of blocks calls this law, so
/// that its proof has it; when it runs the call does nothing.
pub fn words_are_encodings()
    ensures { WordsAreEncodings }
{}

/// The instructions of a block are in range where those of its parts are.
pub fn blocks_are_in_range()
    ensures { BlocksInRange }
{}

//! What the entry and the routines do. Each law is the contract of a function that does nothing; it holds in each world that holds the
//! code, on the physical machine and on the flat one.

ghost use Rattle.std.specs.Prelude.{ℕ};
ghost use Rattle.mips_table.specs.Code.{World, Sound, CodeAt};
ghost use Rattle.masm.specs.declared.registers.CodeAddresses.{CodeAddresses};
ghost use Rattle.c0_runtime.specs.Code.{startup_code, new_routine, runtime_code};
ghost use Rattle.c0_runtime.specs.Laws.{NewRuns, MultiplyRuns, DivideRuns, EntryRuns, RoutinesStand};
ghost use Rattle.c0_runtime.specs.Samples.{code_after, contents, LastWords, NoRoom, SampleAnswers, SampleEntered};

use masm::laws::{jumps_lead, runs_compose, straight_code_runs};
use mips_table::runs::code_runs_join;

/// The routine `new` makes an object, or refuses it where the heap has no room.
pub fn objects_are_made()
    ensures { (w : World) → Sound w → NewRuns w }
{
    code_runs_join();
    runs_compose();
    straight_code_runs();
    jumps_lead();
}

/// The routine that multiplies gives the product of ints.
pub fn products_are_computed()
    ensures { (w : World) → Sound w → MultiplyRuns w }
{
    runs_compose();
    straight_code_runs();
    jumps_lead();
}

/// The routines that divide and give the remainder do so, and leave by the exit where the divisor is 0.
pub fn quotients_are_computed()
    ensures { (w : World) → Sound w → DivideRuns w }
{
    runs_compose();
    straight_code_runs();
    jumps_lead();
}

/// The entry comes to the word behind it, with the registers of the frames, the stack, the globals and the return address set.
pub fn kernels_are_entered()
    ensures { (w : World) → Sound w → EntryRuns w }
{
    straight_code_runs();
}

/// Each routine stands where its number says.
pub fn routines_stand()
    ensures { (w : World) (n : ℕ) (p : CodeAddresses) → CodeAt w n (runtime_code p) → RoutinesStand w n p }
{}

/// Small runs of the routines come to what is known of them.
pub fn sample_runs_are_right()
    ensures made { LastWords (code_after new_routine (contents 3 0 0) 22) }
    ensures refused { NoRoom (code_after new_routine (contents 4 0 0) 7) }
    ensures answers { SampleAnswers }
    ensures entered { SampleEntered (code_after (startup_code 0x12345678) (contents 0 0 0) 5) }
{}

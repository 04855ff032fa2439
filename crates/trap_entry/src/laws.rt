// The laws of the way in and out. Each is the contract of a function that does nothing.
ghost use Rattle.mips_table.specs.Code.{World, Sound};
ghost use Rattle.trap_entry.specs.Laws.{HandlesFaults, EntersKernel, ResetEnters, LeavesToUser, LeavesForGood, LeavesBadly, ExitsWith};

use masm::laws::{a_condition_is_tested, jumps_lead, runs_compose};
use page_model::laws::alikes_stand;
use pcb_layer::{a_user_is_kept, a_user_is_restored, registers_are_restored, registers_are_saved};

/// A handled fault comes to the eret with the page resident and private, and with the registers as they were.
pub fn a_fault_is_handled()
    ensures { (w : World) → Sound w → HandlesFaults w }
{
    runs_compose();
    a_condition_is_tested();
    alikes_stand();
    registers_are_saved();
    registers_are_restored();
}

/// Every other interrupt of a user comes to the kernel, with cause, edata and user as its arguments, and the user in its control block.
pub fn the_kernel_is_entered()
    ensures { (w : World) → Sound w → EntersKernel w }
{
    runs_compose();
    a_condition_is_tested();
    jumps_lead();
    registers_are_saved();
    a_user_is_kept();
}

/// The reset comes to the kernel.
pub fn the_kernel_is_entered_first()
    ensures { (w : World) → Sound w → ResetEnters w }
{
    runs_compose();
    a_condition_is_tested();
    jumps_lead();
    registers_are_saved();
}

/// The answer of a user's number comes to the eret with this user's registers, page table and size.
pub fn the_kernel_is_left_for_a_user()
    ensures { (w : World) → Sound w → LeavesToUser w }
{
    runs_compose();
    a_condition_is_tested();
    a_user_is_restored();
}

/// The answer 0 comes to the store of a 0 to the power port.
pub fn the_kernel_is_left_for_good()
    ensures { (w : World) → Sound w → LeavesForGood w }
{
    runs_compose();
    a_condition_is_tested();
}

/// An answer that is no user's number comes to the store of BAD_USER to the power port.
pub fn the_kernel_is_left_badly()
    ensures { (w : World) → Sound w → LeavesBadly w }
{
    runs_compose();
    a_condition_is_tested();
}

/// A fault exit comes to the store of its power word to the power port.
pub fn an_exit_comes()
    ensures { (w : World) → Sound w → ExitsWith w }
{
    runs_compose();
}

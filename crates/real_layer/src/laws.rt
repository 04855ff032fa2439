// The laws of the layer's runs. Each is the contract of a function that does nothing.
ghost use Rattle.real_layer.specs.Laws.{ImageEnters, ImageEntersFirst, ImageExits, ImageLeaves, ImageLaws, ImageLinked, ImagePrimitives, ImageSettles};
ghost use Rattle.real_layer.specs.Premises.{Premises};
ghost use Rattle.real_layer.specs.Runs.{BlocksRun};

use cvm_primitives::laws::{memory_answers, registers_answer};
use layer_contract::{faults_ask, no_command_is_due, the_reset_stands, users_are_interrupted};
use masm::laws::{a_block_stands, a_routine_returns, jumps_lead, runs_compose};
use mips_table::runs::{
    an_interrupt_is_taken, code_runs_on_the_machine, eret_leaves, runs_join,
    the_power_port_ends_a_run, words_stay_words,
};
use page_fault::{maps_are_sited, the_block_is_a_page_block};
use page_model::laws::{alikes_stand, handled_pages_pass, two_faults_suffice};
use trap_entry::{
    a_fault_is_handled, an_exit_comes, the_kernel_is_entered, the_kernel_is_entered_first,
    the_kernel_is_left_badly, the_kernel_is_left_for_a_user, the_kernel_is_left_for_good,
};

/// The machine makes each run of a block of the layer's code, whatever lines are raised: its pc stays in the block up to the end of the run, the
/// linked words stay, and so do the frames beyond the map and the sectors past the users' pages, for which there is no command.
pub fn blocks_run()
    ensures { BlocksRun }
{
    code_runs_on_the_machine();
    a_block_stands();
}

/// What each law of a layer stands on: laws of the crates below, and that the machine makes the runs of blocks.
pub fn premises()
    ensures { Premises }
{
    runs_join();
    blocks_run();
    a_block_stands();
    runs_compose();
    jumps_lead();
    no_command_is_due();
    words_stay_words();
    alikes_stand();
}

/// LEAVE at a fault: from the exit of a kernel's fault the machine is off with the fault's word, and stands for the same state.
pub fn faults_exit()
    ensures { ImageExits }
{
    premises();
    the_power_port_ends_a_run();
    an_exit_comes();
}

/// LEAVE: from an answer of `dispatch` the next user runs, or the machine is off with 0 or 5, and it stands for the state after that answer.
pub fn the_kernel_is_left()
    ensures { ImageLeaves }
{
    premises();
    the_power_port_ends_a_run();
    eret_leaves();
    the_kernel_is_left_for_a_user();
    the_kernel_is_left_for_good();
    the_kernel_is_left_badly();
}

/// The variables and the control blocks of an image are as they are to be at load.
pub fn the_image_is_linked()
    ensures { ImageLinked }
{}

/// ENTER, after the reset: the machine comes to `dispatch`, called with 0, 0, 0, and stands for the state at the start.
pub fn the_kernel_begins()
    ensures { ImageEntersFirst }
{
    premises();
    the_reset_stands();
    the_kernel_is_entered_first();
}

/// ENTER, from a user: every interrupt but a handled fault comes to `dispatch`, called with the cause, what it concerns, and the user, and the
/// machine stands for the state with the user's pc at the place to go on from.
pub fn the_kernel_is_called()
    ensures { ImageEnters }
{
    premises();
    an_interrupt_is_taken();
    users_are_interrupted();
    the_kernel_is_entered();
}

/// PRIMITIVES: from its entry each primitive comes back with the answer and the effect of the abstract machine's; and the pages by which a
/// `vm_resize` makes a memory grow name the zero frame then.
pub fn primitives_answer()
    ensures { ImagePrimitives }
{
    premises();
    a_routine_returns();
    maps_are_sited();
    registers_answer();
    memory_answers();
}

/// HANDLED FAULTS: each goes back to the user at the same instruction, with the page resident and for a store private, and one step of a
/// user meets at most two. With one page that names the frame at the hand a fault takes at most 5,599 steps and two busy times, with four 13,720 and five,
/// however large the system is.
pub fn faults_settle()
    ensures { ImageSettles }
{
    premises();
    eret_leaves();
    an_interrupt_is_taken();
    users_are_interrupted();
    faults_ask();
    maps_are_sited();
    the_block_is_a_page_block();
    a_fault_is_handled();
    handled_pages_pass();
    two_faults_suffice();
}

/// All laws of a layer.
pub fn the_layer_is_lawful()
    ensures { ImageLaws }
{
    the_kernel_begins();
    the_kernel_is_called();
    the_kernel_is_left();
    faults_exit();
    primitives_answer();
    faults_settle();
}

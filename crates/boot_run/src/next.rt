// Who is next, as the machine shows it at the end of a turn.
ghost use Rattle.std.specs.Prelude.{◌≡◌, ◌<◌, length, slice_index};
ghost use Rattle.layer_map.specs.Map.{current_at};
ghost use Rattle.boot_run.specs.Shown.{fault_of_power, next_shown, end_of_next, has_faulted};

use cvm_model::{KernelFault, Next};
use layer_map::CURRENT;
use mips_machine::Machine;

// The fault of a power word: that of 1 to 4, and of any other one that of a bad user.
fn fault_of_power(power: u32) -> KernelFault
    ensures { result ≡ fault_of_power power }
{
    match power {
        1 => KernelFault::NullUse,
        2 => KernelFault::Bounds,
        3 => KernelFault::DivZero,
        4 => KernelFault::StackOut,
        _ => KernelFault::BadUser,
    }
}

// Who is next: where the machine is on the current user, and else by the power word.
pub(crate) fn seen_next(machine: &Machine) -> Next
    requires { 1024 < length machine.now.hardware.memory }
    ensures { result ≡ next_shown machine.now.hardware.off (slice_index machine.now.hardware.memory current_at) }
{
    match machine.off() {
        None => Next::User(machine.word(CURRENT)),
        Some(0) => Next::Halt,
        Some(power) => Next::Fault(fault_of_power(power)),
    }
}

// How a run has ended with this next, if it has.
pub(crate) fn ended_by(next: Next) -> Option<Next>
    ensures { result ≡ end_of_next next }
{
    match next {
        Next::User(_) => None,
        Next::Halt => Some(Next::Halt),
        Next::Fault(fault) => Some(Next::Fault(fault)),
    }
}

// Whether a run has ended by a fault of the kernel.
pub(crate) fn has_faulted(ended: Option<Next>) -> bool
    ensures { result ≡ has_faulted ended }
{
    match ended {
        Some(Next::Fault(_)) => true,
        _ => false,
    }
}

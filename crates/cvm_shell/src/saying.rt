// What is said beside a status.
ghost use Rattle.std.specs.Prelude.{◌≡◌, ◌≢◌};
ghost use Rattle.cvm_shell.specs.Does.{SaysAs, SaysStop, SaysFault, SaysEnd};
ghost use Rattle.cvm_shell.specs.Views.{stated_row, stated_status};
ghost use Rattle.run_scripts.specs.RunStatus.{status_of_end};

use crate::boot::Stop;
use crate::refusal::Refusal;
use boot_run::{LoadFault, RunEnd};
use cvm_outside::Sink;
use run_scripts::Status;

/// Prints a text beside a status. A sink that fails is `Sink`.
pub fn say<O: Sink>(out: &mut O, text: &[u8], status: Status) -> Status
    requires { status ≢ Status.Sink }
    ensures { SaysAs O.Sink status text.now out.old out.new result }
{
    match out.put(text) {
        Ok(()) => status,
        Err(_) => Status::Sink,
    }
}

/// Prints the row of a refusal, beside its status. A sink that fails is `Sink`.
pub fn refuse<O: Sink>(refusal: &Refusal, out: &mut O) -> Status
    ensures { SaysAs O.Sink (stated_status refusal.now) (stated_row refusal.now) out.old out.new result }
{
    let row = refusal.row();
    say(out, row.as_str().as_bytes(), refusal.status())
}

/// Says why a stage stopped: the row of what is refused, or nothing beside the status. A sink that fails is `Sink`.
pub fn say_stop<O: Sink>(stop: Stop, out: &mut O) -> Status
    ensures { SaysStop O.Sink stop out.old out.new result }
{
    match stop {
        Stop::Refused(refusal) => refuse(&refusal, out),
        Stop::Shelf => Status::Shelf,
        Stop::Memory => Status::Memory,
    }
}

/// Says why no run was begun: the row of what is refused, or nothing beside the status. A sink that fails is `Sink`.
pub fn say_fault<O: Sink>(fault: LoadFault, out: &mut O) -> Status
    ensures { SaysFault O.Sink fault out.old out.new result }
{
    match fault {
        LoadFault::SmallDisk { need, have } => refuse(&Refusal::SmallDisk { need, have }, out),
        LoadFault::NoSuchUser { user, users } => refuse(&Refusal::NoSuchUser { user, users }, out),
        LoadFault::Disk => Status::Disk,
        LoadFault::Memory => Status::Memory,
    }
}

/// The status of a run by how it ended, or what is said where none was begun. A sink that fails is `Sink`.
pub fn say_end<O: Sink>(answer: Result<RunEnd, LoadFault>, out: &mut O) -> Status
    ensures { SaysEnd O.Sink answer out.old out.new result }
{
    match answer {
        Ok(end) => status_of(end),
        Err(fault) => say_fault(fault, out),
    }
}

/// The status of a run by its end.
pub fn status_of(end: RunEnd) -> Status
    ensures { result ≡ status_of_end end }
{
    match end {
        RunEnd::Done | RunEnd::Stopped => Status::Done,
        RunEnd::KernelFaulted => Status::KernelFault,
        RunEnd::OutOfSteps => Status::StepLimit,
        RunEnd::DiskFault => Status::Disk,
        RunEnd::SinkFault => Status::Sink,
        RunEnd::ShelfFault => Status::Shelf,
    }
}

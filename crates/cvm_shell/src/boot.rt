// A boot or a trace: what its files come to, and the run of the system that is accepted.
ghost use Rattle.std.specs.Prelude.{◌≡◌, ◌≢◌, ◌≤◌, ⊤, IfOk, IfErr, IsErrOf};
ghost use Rattle.real_layer.specs.Image.{layer_image};
ghost use Rattle.run_scripts.specs.Command.{boot as of_boot};
ghost use Rattle.cvm_shell.specs.Does.{Gets, SystemDoes};
ghost use Rattle.run_scripts.specs.Ends.{AreBytes};
ghost use Rattle.run_scripts.specs.Served.{files_of};
ghost use Rattle.run_scripts.specs.Plan.{AfterFiles, IsPlan};
ghost use Rattle.cvm_shell.specs.Stages.{stop_of, accept_stop, schedule_stop, ready_for, IsBootPlan, SystemFollows};
ghost use Rattle.cvm_shell.specs.Views.{boot_view, IfPlan};

use crate::accepted::accept_image;
use crate::command::Boot;
use crate::getting::get_file;
use crate::refusal::Refusal;
use crate::saying::say_end;
use crate::starting::load_and_run;
use c0_types::laws::sources_have_one_answer;
use cvm_outside::{Sectors, Shelf, ShelfFault, Sink};
use kernel_linker::AcceptFault;
use layer_contract::Boot as Booted;
use real_layer::RealLayer;
use run_scripts::{Session, Status};
use schedule_file::{Schedule, ScheduleFault, read};
use std::alloc::Global;

/// Why nothing is run, and no file is put.
#[derive(Clone, Copy, Debug, PartialEq, Eq)]
pub enum Stop {
    /// A file has a named fault.
    Refused(Refusal),
    /// The shelf of files failed.
    Shelf,
    /// There was no memory.
    Memory,
}

impl From<ShelfFault> for Stop {
    ghost from_gives = { λ f e. e ≡ stop_of f };

    fn from(fault: ShelfFault) -> Self {
        match fault {
            ShelfFault::Failed => Stop::Shelf,
            ShelfFault::TooLong => Stop::Refused(Refusal::TooLong),
            ShelfFault::Memory => Stop::Memory,
        }
    }
}

impl From<AcceptFault> for Stop {
    ghost from_gives = { λ f e. e ≡ accept_stop f };

    fn from(fault: AcceptFault) -> Self {
        match fault {
            AcceptFault::Memory => Stop::Memory,
            fault => Stop::Refused(Refusal::Unaccepted(fault)),
        }
    }
}

impl From<ScheduleFault> for Stop {
    ghost from_gives = { λ f e. e ≡ schedule_stop f };

    fn from(fault: ScheduleFault) -> Self {
        match fault {
            ScheduleFault::Memory => Stop::Memory,
            fault => Stop::Refused(Refusal::BadSchedule(fault)),
        }
    }
}

/// An accepted system, with the layer that it is linked with, and the schedule under which it is to be run.
#[derive(Drop)]
pub struct Ready {
    /// What is booted.
    pub boot: Booted,
    /// The layer that was made for it.
    pub layer: RealLayer,
    /// The schedule.
    pub schedule: Schedule,
}

/// Gets the files of a boot, the image first; accepts the image, and reads the schedule: what is to be run, by whatever session.
pub fn plan<S: Shelf>(alloc: Global, boot: &Boot, shelf: &mut S) -> Result<Ready, Stop>
    ensures comes { (session : Session) → IfPlan (ready_for session) (IsBootPlan layer_image (S.file shelf.old) (boot_view boot.now) session) result }
    ensures follows { IfOk result SystemFollows }
    ensures gets { Gets S.Shelf (files_of (of_boot (boot_view boot.now))) shelf.old shelf.new result }
    ensures bytes { IfOk result (λ _. AreBytes (S.file shelf.old) (files_of (of_boot (boot_view boot.now)))) }
{
    let image = get_file(alloc, boot.image, shelf)?;
    let schedule = get_file(alloc, boot.schedule, shelf)?;
    ready_of(alloc, &image, &schedule)
}

/// What the bytes of an image and of a schedule come to: what is to be run, by whatever session.
pub fn ready_of(alloc: Global, image: &[u8], schedule: &[u8]) -> Result<Ready, Stop>
    ensures comes { (session : Session) → IfPlan (ready_for session) (IsPlan ⊤ (AfterFiles layer_image session image.now schedule.now)) result }
    ensures follows { IfOk result SystemFollows }
    ensures inside { IfErr result (λ s. s ≢ Stop.Shelf) }
    ensures short { IsErrOf result (Stop.Refused Refusal.TooLong) → ⊥ }
{
    sources_have_one_answer();
    let accepted = accept_image::<RealLayer>(alloc, image)?;
    let schedule = read(alloc, schedule)?;
    Ok(Ready {
        boot: accepted.boot,
        layer: accepted.layer,
        schedule,
    })
}

/// Loads a system for its session's start, and runs it until the wanted turns are complete or it has ended, for at most so many steps of its machine;
/// prints of its run what is viewed. The user of a trace that is none is refused, and then a disk with too few sectors for the users' pages and, where a
/// ROM is booted, for the linked words.
pub fn run_system<O: Sink, D: Sectors>(
    alloc: Global,
    ready: Ready,
    session: Session,
    out: &mut O,
    disk: &mut D,
) -> Status
    requires follows { SystemFollows ready }
    requires some { 1 ≤ session.turns }
    ensures { SystemDoes O.Sink D.Sectors (ready_for session ready) result (out.old, disk.old) (out.new, disk.new) }
{
    let answer = load_and_run(alloc, ready, session, out, disk);
    say_end(answer, out)
}

// A resume: what its files come to, and the run that goes on.
ghost use Rattle.std.specs.Prelude.{◌≡◌, IfOk};
ghost use Rattle.real_layer.specs.Image.{layer_image};
ghost use Rattle.run_scripts.specs.Command.{resume as of_resume};
ghost use Rattle.cvm_shell.specs.Does.{Gets, RunDoes, SystemDoes};
ghost use Rattle.run_scripts.specs.Ends.{AreBytes};
ghost use Rattle.run_scripts.specs.Served.{files_of};
ghost use Rattle.cvm_shell.specs.Stages.{resume_stop, resumable_for, SystemFollows, FilesPlan};
ghost use Rattle.cvm_shell.specs.Views.{save_view, IfPlan};

use crate::boot::{Ready, Stop, ready_of};
use crate::getting::get_file;
use crate::refusal::Refusal;
use crate::saving_words::Save;
use crate::saying::{say_stop, status_of};
use boot_run::{Limits, Setup};
use cvm_outside::{Sectors, Shelf, Sink};
use machine_save::{ResumeFault, resume_run};
use run_scripts::Status;
use std::alloc::Global;

impl From<ResumeFault> for Stop {
    ghost from_gives = { λ f e. e ≡ resume_stop f };

    fn from(fault: ResumeFault) -> Self {
        match fault {
            ResumeFault::SmallDisk { need, have } => {
                Stop::Refused(Refusal::SmallDisk { need, have })
            }
            ResumeFault::Save(fault) => Stop::from(fault),
        }
    }
}

/// An accepted system under its schedule, with the bytes of the file of a saved machine.
#[derive(Drop)]
pub struct Resumable {
    /// What is run.
    pub ready: Ready,
    /// The bytes, which may be refused.
    pub bytes: Vec<u8>,
}

/// Gets the files of a resume: the image, the schedule and the saved machine, in this order; then accepts the image and reads the schedule.
pub fn plan_resume<S: Shelf>(alloc: Global, resume: &Save, shelf: &mut S) -> Result<Resumable, Stop>
    ensures comes { IfPlan (resumable_for (save_view resume.now)) (FilesPlan layer_image (S.file shelf.old) (of_resume (save_view resume.now))) result }
    ensures follows { IfOk result (λ r. SystemFollows r.ready) }
    ensures gets { Gets S.Shelf (files_of (of_resume (save_view resume.now))) shelf.old shelf.new result }
    ensures bytes { IfOk result (λ _. AreBytes (S.file shelf.old) (files_of (of_resume (save_view resume.now)))) }
{
    let image = get_file(alloc, resume.boot.image, shelf)?;
    let schedule = get_file(alloc, resume.boot.schedule, shelf)?;
    let bytes = get_file(alloc, resume.file, shelf)?;
    let ready = ready_of(alloc, &image, &schedule)?;
    Ok(Resumable { ready, bytes })
}

/// Goes on with the run whose machine was saved, over the disk as it stands, to the wanted turns and for the most steps that are counted from its start.
pub fn run_resume<S: Shelf, O: Sink, D: Sectors>(
    alloc: Global,
    resume: &Save,
    shelf: &mut S,
    out: &mut O,
    disk: &mut D,
) -> Status
    ensures { RunDoes S.Shelf O.Sink D.Sectors (of_resume (save_view resume.now)) result (shelf.old, out.old, disk.old) (shelf.new, out.new, disk.new) }
{
    disk.are_sectors();
    match plan_resume(alloc, resume, shelf) {
        Ok(resumable) => resume_system(alloc, resumable, resume, out, disk),
        Err(stop) => say_stop(stop, out),
    }
}

// Goes on with the run of a system from the bytes of its saved machine, or refuses the first fault of these; then a disk with too few sectors.
fn resume_system<O: Sink, D: Sectors>(
    alloc: Global,
    resumable: Resumable,
    resume: &Save,
    out: &mut O,
    disk: &mut D,
) -> Status
    requires follows { SystemFollows resumable.ready }
    ensures { SystemDoes O.Sink D.Sectors (resumable_for (save_view resume.now) resumable) result (out.old, disk.old) (out.new, disk.new) }
{
    let limits = Limits {
        turns: resume.boot.turns,
        steps: resume.boot.steps,
    };
    let setup = Setup {
        alloc,
        layer: resumable.ready.layer,
        boot: resumable.ready.boot,
        schedule: resumable.ready.schedule,
    };
    match resume_run(setup, &resumable.bytes, limits, disk, out) {
        Ok(end) => status_of(end),
        Err(fault) => say_stop(Stop::from(fault), out),
    }
}

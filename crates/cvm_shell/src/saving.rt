// A save: what its files come to, and the run that is saved.
ghost use Rattle.std.specs.Prelude.{◌≡◌, ◌≤◌, IfOk, IfErr};
ghost use Rattle.kernel_linker.specs.Accept.{image_system};
ghost use Rattle.boot_run.specs.SaveRoom.{most_words, FILE_ROOM};
ghost use Rattle.real_layer.specs.Image.{layer_image};
ghost use Rattle.run_scripts.specs.Command.{save as of_save, save_session};
ghost use Rattle.cvm_shell.specs.Does.{Gets, RunDoes, SaveDoes, SavedCalls, SessionPasts};
ghost use Rattle.run_scripts.specs.Ends.{AreBytes};
ghost use Rattle.run_scripts.specs.Served.{files_of};
ghost use Rattle.run_scripts.specs.Plan.{frames_of, most_bytes};
ghost use Rattle.cvm_shell.specs.Stages.{save_stop, saveable_for, CallAnswers, SystemFollows, HasNoSaveRoom, FilesPlan};
ghost use Rattle.cvm_shell.specs.Views.{save_view, IfPlan};

use crate::boot::{Ready, Stop, plan};
use crate::refusal::Refusal;
use crate::saving_words::Save;
use crate::saying::{say_end, say_stop};
use boot_run::{Limits, LoadFault, RunEnd, Setup, pasts_exist};
use cvm_outside::{Sectors, Shelf, Sink};
use layer_contract::Layer;
use machine_save::{Place, Room, SaveFault, save_run};
use run_scripts::Status;
use run_scripts::laws::plans_have_shape;
use std::alloc::Global;

impl From<SaveFault> for Stop {
    ghost from_gives = { λ f e. e ≡ save_stop f };

    fn from(fault: SaveFault) -> Self {
        match fault {
            SaveFault::Memory => Stop::Memory,
            fault => Stop::Refused(Refusal::BadSave(fault)),
        }
    }
}

/// An accepted system under its schedule, with the room for the file of its machine.
#[derive(Drop)]
pub struct Saveable {
    /// What is run.
    pub ready: Ready,
    /// The room.
    pub room: Room,
}

/// Gets the files of a save, the image first; accepts the image, reads the schedule, and takes the room for the file: what is to be run.
pub fn plan_save<S: Shelf>(alloc: Global, save: &Save, shelf: &mut S) -> Result<Saveable, Stop>
    ensures comes { IfPlan (saveable_for (save_view save.now)) (FilesPlan layer_image (S.file shelf.old) (of_save (save_view save.now))) result }
    ensures follows { IfOk result (λ r. SystemFollows r.ready) }
    ensures room { IfOk result (λ r. r.room.words ≡ most_words (frames_of (image_system r.ready.boot))) }
    ensures short { IfOk result (λ r. most_bytes (image_system r.ready.boot) ≤ FILE_ROOM) }
    ensures gets { Gets S.Shelf (files_of (of_save (save_view save.now))) shelf.old shelf.new result }
    ensures bytes { IfOk result (λ _. AreBytes (S.file shelf.old) (files_of (of_save (save_view save.now)))) }
{
    let ready = plan(alloc, &save.boot, shelf)?;
    let room = room_for(alloc, &ready)?;
    Ok(Saveable { ready, room })
}

// The room for the file of a system's machine.
fn room_for(alloc: Global, ready: &Ready) -> Result<Room, Stop>
    requires { SystemFollows ready.now }
    ensures room { IfOk result (λ r. r.words ≡ most_words (frames_of (image_system ready.now.boot))) }
    ensures short { IfOk result (λ _. most_bytes (image_system ready.now.boot) ≤ FILE_ROOM) }
    ensures stops { IfErr result (HasNoSaveRoom (image_system ready.now.boot)) }
{
    ready.layer.keeps_laws();
    let frames = ready.layer.memory_map().memory_frames();
    let room = Room::new(alloc, frames)?;
    Ok(room)
}

/// Boots an image under a schedule, and saves its machine to a file where the run stops; where it ends before, what its boot prints is printed.
pub fn run_save<S: Shelf, O: Sink, D: Sectors>(
    alloc: Global,
    save: &Save,
    shelf: &mut S,
    out: &mut O,
    disk: &mut D,
) -> Status
    requires { 1 ≤ (save_view save.now).boot.turns }
    ensures { RunDoes S.Shelf O.Sink D.Sectors (of_save (save_view save.now)) result (shelf.old, out.old, disk.old) (shelf.new, out.new, disk.new) }
{
    plans_have_shape();
    disk.are_sectors();
    match plan_save(alloc, save, shelf) {
        Ok(saveable) => save_system(alloc, saveable, save, shelf, out, disk),
        Err(stop) => say_stop(stop, out),
    }
}

// Runs a system, and saves its machine where the run stops. A disk with too few sectors for the users' pages is refused.
fn save_system<S: Shelf, O: Sink, D: Sectors>(
    alloc: Global,
    saveable: Saveable,
    save: &Save,
    shelf: &mut S,
    out: &mut O,
    disk: &mut D,
) -> Status
    requires follows { SystemFollows saveable.ready }
    requires room { saveable.room.words ≡ most_words (frames_of (image_system saveable.ready.boot)) }
    requires short { most_bytes (image_system saveable.ready.boot) ≤ FILE_ROOM }
    requires some { 1 ≤ (save_view save.now).boot.turns }
    ensures { SaveDoes S.Shelf O.Sink D.Sectors (saveable_for (save_view save.now) saveable) result
        (shelf.old, out.old, disk.old) (shelf.new, out.new, disk.new) }
{
    let answer = save_ready(alloc, saveable, save, shelf, out, disk);
    say_end(answer, out)
}

// Loads and runs a system that is to be saved.
fn save_ready<S: Shelf, O: Sink, D: Sectors>(
    alloc: Global,
    saveable: Saveable,
    save: &Save,
    shelf: &mut S,
    out: &mut O,
    disk: &mut D,
) -> Result<RunEnd, LoadFault>
    requires follows { SystemFollows saveable.ready }
    requires room { saveable.room.words ≡ most_words (frames_of (image_system saveable.ready.boot)) }
    requires short { most_bytes (image_system saveable.ready.boot) ≤ FILE_ROOM }
    requires some { 1 ≤ (save_view save.now).boot.turns }
    ensures answers { CallAnswers saveable.ready (save_session (save_view save.now)) (D.size disk.old) result }
    ensures calls { SavedCalls S.Shelf O.Sink D.Sectors saveable.ready (save_view save.now) result
        (shelf.old, out.old, disk.old) (shelf.new, out.new, disk.new) }
    ensures pasts { SessionPasts saveable.ready (save_session (save_view save.now)) (D.size disk.old) (D.sectors disk.old) }
{
    let ready = &saveable.ready;
    pasts_exist(&ready.layer, &ready.boot, &ready.schedule, disk);
    let limits = Limits {
        turns: save.boot.turns,
        steps: save.boot.steps,
    };
    let setup = Setup {
        alloc,
        layer: saveable.ready.layer,
        boot: saveable.ready.boot,
        schedule: saveable.ready.schedule,
    };
    let place = Place {
        room: saveable.room,
        name: save.file,
    };
    save_run(setup, limits, place, shelf, disk, out)
}

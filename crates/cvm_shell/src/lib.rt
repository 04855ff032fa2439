// The top call: words in, text and a status out.
#![tactic(auto)]

ghost use Rattle.std.specs.Prelude.{◌≤◌};
ghost use Rattle.run_scripts.specs.Command as command;
ghost use Rattle.run_scripts.specs.Command.{word_texts};
ghost use Rattle.cvm_shell.specs.Does.{CommandDoes, RunDoes, SampleDoes};
ghost use Rattle.run_scripts.specs.CommandEnds.{Headlines, RunCompletes, Isolates, SavesComplete, ResumesComplete};
ghost use Rattle.run_scripts.specs.Ends.{Ends, as_outside as told_by};
ghost use Rattle.run_scripts.specs.Promises.{OfCall};
ghost use Rattle.run_scripts.specs.Resumes.{Resumes};
ghost use Rattle.run_scripts.specs.Saves.{Saves};
ghost use Rattle.run_scripts.specs.Suffices.{Suffices};
ghost use Rattle.cvm_shell.specs.Stages.{JournalsReplay};
ghost use Rattle.cvm_shell.specs.Views.{boot_view, user_view, kernel_view, link_view, migrate_view};

pub mod accepted;
pub mod assembly;
pub mod boot;
pub mod check;
pub mod command;
pub mod getting;
pub mod laws;
pub mod linking;
pub mod migration;
pub mod object;
pub mod program;
pub mod putting;
pub mod refusal;
pub mod resuming;
pub mod sampling;
pub mod saving;
pub mod saving_words;
pub mod saying;
mod starting;

pub use assembly::{user_image, words_have_four_bytes};
pub use boot::{Ready, Stop, plan, run_system};
use boot_run::View;
pub use check::{Check, check_object, read_check, stack_text};
pub use command::{
    Boot, Command, CompileKernel, CompileUser, Link, Migrate, Sample, Trace, read_boot,
    read_command, read_compile_kernel, read_compile_user, read_link, read_migrate, read_sample,
    read_trace,
};
use cvm_model::{units_are_kernels, units_dont_matter, units_replay, users_are_isolated};
use cvm_outside::{Sectors, Shelf, Sink};
pub use linking::system_image;
pub use migration::migrated_image;
pub use object::kernel_object;
use program::compile_program;
pub use program::{CompileProgram, program_image, read_compile_program};
use putting::put_made;
use real_layer::RealLayer;
pub use refusal::Refusal;
pub use resuming::{Resumable, plan_resume, run_resume};
use run_scripts::laws::{
    headlines_hold, resumes_are_complete, resumes_are_held, runs_are_complete, saves_are_complete,
    saves_are_held, traces_are_isolated, yes_is_enough,
};
pub use run_scripts::{Session, StartPoint, Status};
pub use sampling::sampled;
pub use saving::{Saveable, plan_save, run_save};
pub use saving_words::{Save, read_resume, read_save};
use saying::{say, say_stop};
use std::alloc::Global;

/// Runs the command of these words over a shelf of files, a sink of text and a disk.
///
/// The commands are `boot IMAGE SCHEDULE TURNS STEPS`, `rom IMAGE SCHEDULE TURNS STEPS`, `trace IMAGE SCHEDULE TURNS STEPS USER`,
/// `compile user ASM IMG`, `compile kernel SRC OBJ`, `compile program SRC IMG`, `link OBJ PARAMS OUT USER..`, `migrate IMAGE OUT`,
/// `sample N`, `check OBJ STACK`, `save IMAGE SCHEDULE TURNS STEPS FILE` and `resume IMAGE SCHEDULE TURNS STEPS FILE`. `rom` boots a machine
/// whose memory is empty but for a boot ROM, which brings the linked words from the disk's sectors behind the users' pages; what it prints is
/// that of the abstract run as of a boot's. A trace runs the machine as its boot does, and prints in place of the boot's rows and report the
/// start row, the journal, the end and the registers and memory of one user, of those of the image, counted from 1. A migration puts the image
/// of form 3 of an image of form 2. A sample is the boot of the system that is made from its number, for 100,000 turns and at most
/// 4,000,000,000 steps. A check prints how much stack the kernel of an object needs: where it prints `yes`, no system of that source with so much
/// stack ever stops for want of stack.
///
/// A save runs as its boot. Where that would print `stopped`, the machine is put to FILE, and `saved` is printed in place of all from `stopped` on. A
/// resume goes on from FILE and the disk as it stands; TURNS and STEPS count from the start of the saved run. The rows of the two are together those
/// of one boot.
///
/// The status says how it ended; `Words`, `Refused`, `Shelf` where a file is too long, and `Disk` where the disk is too small, print a
/// row of their own, and a sink that fails is `Sink`, also in place of another status whose text it was to take. No file changes but the
/// one that a `compile user`, a `compile kernel`, a `compile program`, a `link`, a `migrate` or a `save` names to be put, and no sector but
/// those of the users' pages of a `boot`, a `rom`, a `trace`, a `save`, a `resume` or a `sample`, and of the linked words of a `rom`. A
/// `resume` that doesn't go on from what a `save` left, file and disk, changes sectors as the machine does whose state the file names.
///
/// How it ends is said once, for every command (`script`): by the script of calls that words and files ask for. What is promised of a run
/// follows from that, by laws of `run_scripts`: the headline, that enough steps are enough, isolation, what a `yes` means, and saves and resumes are clauses
/// here; why a status is what it is, how the machine rests at the end, and what stands after a fault, are laws there.
pub fn run<S: Shelf, O: Sink, D: Sectors>(
    alloc: Global,
    words: &Vec<String>,
    shelf: &mut S,
    out: &mut O,
    disk: &mut D,
) -> Status
    ensures script { Ends (word_texts words.now.items) (told_by S.Shelf O.Sink D.Sectors shelf.old out.old disk.old)
        (told_by S.Shelf O.Sink D.Sectors shelf.new out.new disk.new) result }
    ensures headline { OfCall Headlines S.Shelf O.Sink D.Sectors words.now.items result shelf.old out.old disk.old shelf.new out.new disk.new }
    ensures complete { OfCall RunCompletes S.Shelf O.Sink D.Sectors words.now.items result shelf.old out.old disk.old shelf.new out.new disk.new }
    ensures isolated { OfCall Isolates S.Shelf O.Sink D.Sectors words.now.items result shelf.old out.old disk.old shelf.new out.new disk.new }
    ensures suffices { OfCall Suffices S.Shelf O.Sink D.Sectors words.now.items result shelf.old out.old disk.old shelf.new out.new disk.new }
    ensures saves { OfCall Saves S.Shelf O.Sink D.Sectors words.now.items result shelf.old out.old disk.old shelf.new out.new disk.new }
    ensures saves_complete { OfCall SavesComplete S.Shelf O.Sink D.Sectors words.now.items result shelf.old out.old disk.old shelf.new out.new disk.new }
    ensures resumes { OfCall Resumes S.Shelf O.Sink D.Sectors words.now.items result shelf.old out.old disk.old shelf.new out.new disk.new }
    ensures resumes_complete { OfCall ResumesComplete S.Shelf O.Sink D.Sectors words.now.items result shelf.old out.old disk.old shelf.new out.new disk.new }
{
    headlines_hold();
    runs_are_complete();
    traces_are_isolated();
    yes_is_enough();
    saves_are_held();
    saves_are_complete();
    resumes_are_held();
    resumes_are_complete();
    run_command(alloc, words, shelf, out, disk)
}

// Runs the command of these words: each makes the calls of its script.
fn run_command<S: Shelf, O: Sink, D: Sectors>(
    alloc: Global,
    words: &Vec<String>,
    shelf: &mut S,
    out: &mut O,
    disk: &mut D,
) -> Status
    ensures { Ends (word_texts words.now.items) (told_by S.Shelf O.Sink D.Sectors shelf.old out.old disk.old)
        (told_by S.Shelf O.Sink D.Sectors shelf.new out.new disk.new) result }
{
    match read_command(words) {
        None => say(out, b"bad words\n", Status::Words),
        Some(Command::Boot(boot)) => run_boot(alloc, &boot, View::Boot, shelf, out, disk),
        Some(Command::Trace(trace)) => {
            let view = View::Trace(trace.user);
            run_boot(alloc, &trace.boot, view, shelf, out, disk)
        }
        Some(Command::Save(save)) => run_save(alloc, &save, shelf, out, disk),
        Some(Command::Resume(resume)) => run_resume(alloc, &resume, shelf, out, disk),
        Some(Command::CompileUser(names)) => compile_user(alloc, &names, shelf, out),
        Some(Command::CompileKernel(names)) => compile_kernel(alloc, &names, shelf, out),
        Some(Command::CompileProgram(names)) => compile_program(alloc, &names, shelf, out),
        Some(Command::Link(names)) => link_system(alloc, &names, shelf, out),
        Some(Command::Migrate(names)) => migrate_image(alloc, &names, shelf, out),
        Some(Command::Sample(sample)) => run_sample(alloc, sample.number, out, disk),
        Some(Command::Check(check)) => check_object(alloc, &check, shelf, out),
    }
}

// A law: the replay of a user's journal gives its machine, whatever else is in the system.
fn journals_replay()
    ensures { JournalsReplay }
{
    units_are_kernels();
    units_dont_matter();
    units_replay();
    users_are_isolated();
}

// Boots an image under a schedule, and prints what is viewed.
fn run_boot<S: Shelf, O: Sink, D: Sectors>(
    alloc: Global,
    boot: &Boot,
    view: View,
    shelf: &mut S,
    out: &mut O,
    disk: &mut D,
) -> Status
    requires { 1 ≤ (boot_view boot.now).turns }
    ensures { RunDoes S.Shelf O.Sink D.Sectors (command.command_of (boot_view boot.now) view) result
        (shelf.old, out.old, disk.old) (shelf.new, out.new, disk.new) }
{
    disk.are_sectors();
    let session = Session {
        start: boot.start,
        view,
        turns: boot.turns,
        steps: boot.steps,
    };
    match plan(alloc, boot, shelf) {
        Ok(ready) => run_system(alloc, ready, session, out, disk),
        Err(stop) => say_stop(stop, out),
    }
}

// Puts the image of a user, whose text is got and assembled.
fn compile_user<S: Shelf, O: Sink>(
    alloc: Global,
    names: &CompileUser,
    shelf: &mut S,
    out: &mut O,
) -> Status
    ensures { CommandDoes S.Shelf O.Sink (command.compile_user (user_view names.now)) result (shelf.old, out.old) (shelf.new, out.new) }
{
    let image = user_image(alloc, names, shelf);
    put_made(image, names.image, shelf, out)
}

// Puts the object of a kernel, whose source is got, read, checked and compiled.
fn compile_kernel<S: Shelf, O: Sink>(
    alloc: Global,
    names: &CompileKernel,
    shelf: &mut S,
    out: &mut O,
) -> Status
    ensures { CommandDoes S.Shelf O.Sink (command.compile_kernel (kernel_view names.now)) result (shelf.old, out.old) (shelf.new, out.new) }
{
    let object = kernel_object(alloc, names, shelf);
    put_made(object, names.object, shelf, out)
}

// Puts the image of a system, whose object, parameters and users are got, read and linked.
fn link_system<S: Shelf, O: Sink>(alloc: Global, names: &Link, shelf: &mut S, out: &mut O) -> Status
    ensures { CommandDoes S.Shelf O.Sink (command.link (link_view names.now)) result (shelf.old, out.old) (shelf.new, out.new) }
{
    let linked = system_image::<RealLayer, S>(alloc, names, shelf);
    put_made(linked, names.image, shelf, out)
}

// Puts the image that is made anew of one of form 2, which is got and read.
fn migrate_image<S: Shelf, O: Sink>(
    alloc: Global,
    names: &Migrate,
    shelf: &mut S,
    out: &mut O,
) -> Status
    ensures { CommandDoes S.Shelf O.Sink (command.migrate (migrate_view names.now)) result (shelf.old, out.old) (shelf.new, out.new) }
{
    let made = migrated_image::<RealLayer, S>(alloc, names, shelf);
    put_made(made, names.image, shelf, out)
}

// Makes, links and boots the sample of a number.
fn run_sample<O: Sink, D: Sectors>(alloc: Global, number: u32, out: &mut O, disk: &mut D) -> Status
    ensures { SampleDoes O.Sink D.Sectors number result (out.old, disk.old) (out.new, disk.new) }
{
    disk.are_sectors();
    let session = Session {
        start: StartPoint::Loaded,
        view: View::Boot,
        turns: 100_000,
        steps: 4_000_000_000,
    };
    match sampled(alloc, number) {
        Ok(ready) => run_system(alloc, ready, session, out, disk),
        Err(stop) => say_stop(stop, out),
    }
}

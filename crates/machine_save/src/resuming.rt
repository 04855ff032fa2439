// A run that is taken up from a file.

ghost use Rattle.std.specs.Prelude.{◌≡◌, ◌*◌, ◌≤◌, length, IfOk, Ok};
ghost use Rattle.layer_map.specs.Map.{memory_frames};
ghost use Rattle.cvm_model.specs.Cvm.{map_of};
ghost use Rattle.layer_contract.specs.Boots.{BootFollows, boot_of};
ghost use Rattle.boot_run.specs.Pieces.{AreBoots};
ghost use Rattle.boot_run.specs.RunEnds.{EndsUnsaved};
ghost use Rattle.machine_save.specs.Resume.{ResumesFile};
ghost use Rattle.machine_save.specs.ResumeCalls.{ResumeScript};
ghost use Rattle.machine_save.specs.ResumeRun.{ResumeAnswers};
ghost use Rattle.machine_save.specs.declared.resuming.ResumeFault.TheVariants.{Save, SmallDisk as NoSpace};
ghost use Rattle.saved_file.specs.declared.fault.SaveFault.TheVariants.{Memory};

use crate::laws::{are_in_range, boots_hold};
use boot_run::{Limits, Run, RunEnd, Setup, Shortage, check_room, run_on, saved_runs_are_taken_up};
use boot_turns::machines_run;
use cvm_outside::{Sectors, Sink};
use layer_contract::{Boot, Layer};
use layer_map::{memory_is_whole, parts_are_in_order};
use mips_table::runs::{a_new_machine_is_steady, turns_are_counted};
use saved_file::{SaveFault, Sizes, read};
use std::alloc::AllocError;
use thiserror::Error;

/// Why a run is not taken up.
#[derive(Clone, Copy, Debug, PartialEq, Eq, Error)]
pub enum ResumeFault {
    /// The file is not one that can be taken up, or want of memory.
    #[error("{0}")]
    Save(SaveFault),
    /// The disk has fewer sectors than the users' pages take.
    #[error("the disk has {have} sectors, and {need} are needed")]
    SmallDisk { need: u32, have: u32 },
}

impl From<SaveFault> for ResumeFault {
    ghost from_gives = { λ fault e. e ≡ Save fault };

    fn from(fault: SaveFault) -> Self {
        ResumeFault::Save(fault)
    }
}

impl From<AllocError> for ResumeFault {
    ghost from_gives = { λ _ e. e ≡ Save Memory };

    fn from(_error: AllocError) -> Self {
        ResumeFault::Save(SaveFault::Memory)
    }
}

impl From<Shortage> for ResumeFault {
    ghost from_gives = { λ s e. e ≡ NoSpace s.need s.have };

    fn from(few: Shortage) -> Self {
        ResumeFault::SmallDisk {
            need: few.need,
            have: few.have,
        }
    }
}

// What a saved machine has to fit of what is booted over a layer.
fn sizes_of<L: Layer>(layer: &L, boot: &Boot) -> Sizes
    requires { BootFollows (L.image layer.now) (L.sizes layer.now) (L.map layer.now) boot.now }
    ensures frames { result.frames ≡ memory_frames (map_of (boot_of boot.now)) }
    ensures users { result.users ≡ length boot.now.users.items }
    ensures pages { result.pages ≡ boot.now.params.pages }
    ensures few { result.frames ≤ 65000 }
    ensures most { result.users ≤ 64 }
    ensures wide { result.pages ≤ 1024 }
    ensures linked { length boot.now.words.items ≤ 1024 * result.frames }
    ensures layer { 16 ≤ result.frames }
{
    parts_are_in_order();
    memory_is_whole();
    Sizes {
        frames: layer.memory_map().memory_frames(),
        users: boot.users.len() as u32,
        pages: boot.params.pages,
    }
}

/// Takes up a run from the bytes of a file, over the disk as it stands, which is not called. So many turns are wanted, counted from the
/// start of the run that was saved.
///
/// # Errors
///
/// The first thing in the file that keeps it from being taken up; then a disk with too few sectors; want of memory.
pub fn resume<L: Layer + Drop, D: Sectors>(
    setup: Setup<L>,
    bytes: &[u8],
    turns: u32,
    disk: &mut D,
) -> Result<Run<L>, ResumeFault>
    requires follows { BootFollows (L.image setup.layer) (L.sizes setup.layer) (L.map setup.layer) setup.boot }
    ensures is { ResumesFile setup.layer setup.boot setup.schedule turns (D.size disk.old) bytes.now result }
    ensures boots { IfOk result (λ _. AreBoots setup.boot setup.schedule (D.size disk.old)) }
    ensures same { disk.new ≡ disk.old }
{
    let sizes = sizes_of(&setup.layer, &setup.boot);
    let inputs = setup.schedule.inputs();
    let words = read(setup.alloc, bytes, &sizes, inputs, &setup.boot.words, turns)?;
    let have = disk.count();
    check_room(have, sizes.users * sizes.pages)?;
    Ok(Run::resumed(setup, have, &words)?)
}

/// Takes up a run from the bytes of a file, over the disk as it stands, and goes on with it: makes turns until so many are complete, counted from the start
/// of the run that was saved, or the run has ended or met a fault. As many steps at most are made, counted from there, too: none where the saved run had
/// made no fewer. The rows and the report are printed that a boot prints from there on.
///
/// # Errors
///
/// As [`resume`]; the disk and the sink are not called then.
pub fn resume_run<L: Layer + Drop, D: Sectors, O: Sink>(
    setup: Setup<L>,
    bytes: &[u8],
    limits: Limits,
    disk: &mut D,
    out: &mut O,
) -> Result<RunEnd, ResumeFault>
    requires follows { BootFollows (L.image setup.layer) (L.sizes setup.layer) (L.map setup.layer) setup.boot }
    ensures answers { ResumeAnswers setup.boot setup.schedule limits.turns (D.size disk.old) bytes.now result }
    ensures ends { IfOk result EndsUnsaved }
    ensures script { ResumeScript O.Sink D.Sectors setup.boot setup.schedule limits.turns limits.steps bytes.now
        (out.old, disk.old) (out.new, disk.new) result }
{
    machines_run();
    turns_are_counted();
    a_new_machine_is_steady();
    saved_runs_are_taken_up();
    boots_hold(&setup.layer, &setup.boot, &setup.schedule, disk);
    are_in_range(limits.turns, limits.steps);
    let mut run = resume(setup, bytes, limits.turns, disk)?;
    Ok(run_on(&mut run, limits, disk, out))
}

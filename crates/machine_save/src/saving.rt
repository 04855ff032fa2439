// A boot that is to be saved: its state is put to a file where it stops, and else it ends as a boot does.

ghost use Rattle.std.specs.Prelude.{◌≡◌, ◌≤◌};
ghost use Rattle.layer_map.specs.Map.{memory_frames};
ghost use Rattle.cvm_model.specs.Cvm.{map_of};
ghost use Rattle.layer_contract.specs.Boots.{BootFollows, boot_of};
ghost use Rattle.boot_turns.specs.declared.answers.View.TheVariants.{Boot as OfBoot};
ghost use Rattle.layer_contract.specs.Follows.{loaded};
ghost use Rattle.boot_run.specs.LoadEnds.{pages_needed};
ghost use Rattle.boot_run.specs.Loaded.{boot_load};
ghost use Rattle.boot_run.specs.RunCalls.{LoadsRun};
ghost use Rattle.boot_run.specs.LoadScript.{load_script};
ghost use Rattle.boot_run.specs.LoadedPages.{user_pages};
ghost use Rattle.boot_run.specs.Loading.{system_of};
ghost use Rattle.boot_run.specs.SaveRoom.{most_words};
ghost use Rattle.machine_save.specs.SaveCalls.{PutCalls, RowCalls, SavedScript};

use crate::laws::{are_in_range, boots_hold};
use crate::space::Room;
use boot_run::{Limits, LoadFault, Run, RunEnd, Setup, run_to_save};
use boot_turns::machines_run;
use cvm_outside::{Sectors, Shelf, Sink};
use layer_contract::Layer;
use mips_table::runs::turns_are_counted;

/// Where a run is saved.
#[derive(Drop)]
pub struct Place<'a> {
    /// The room that was taken for it.
    pub room: Room,
    /// The name of the file.
    pub name: &'a str,
}

/// Boots what is to be saved: loads, and makes turns until so many are complete or the run has ended or met a fault, at most so many steps. The rows of
/// the dispatches are printed. Where the turns are complete and the run goes on, its state is put to the file of that name, and the row `saved` is
/// printed; where it halted its end and the report are. The room is taken before, and is that of the boot's memory.
///
/// # Errors
///
/// As [`Run::load`](boot_run::Run::load); nothing is printed then, and no file changes.
pub fn save_run<L: Layer + Drop, S: Shelf, D: Sectors, O: Sink>(
    setup: Setup<L>,
    limits: Limits,
    place: Place<'_>,
    shelf: &mut S,
    disk: &mut D,
    out: &mut O,
) -> Result<RunEnd, LoadFault>
    requires follows { BootFollows (L.image setup.layer) (L.sizes setup.layer) (L.map setup.layer) setup.boot }
    requires some { 1 ≤ limits.turns }
    requires room { place.room.words ≡ most_words (memory_frames (map_of (boot_of setup.boot))) }
    ensures loads { LoadsRun D.Sectors setup.boot OfBoot (boot_load setup.boot setup.schedule) (out.old, disk.old) (out.new, disk.new) result }
    ensures script { SavedScript S.Shelf O.Sink D.Sectors (system_of setup.boot setup.schedule) setup.schedule
        (loaded (system_of setup.boot setup.schedule)) limits.turns limits.steps
        (load_script (user_pages (system_of setup.boot setup.schedule)) (pages_needed setup.boot)) place.entry.name.now
        (shelf.old, out.old, disk.old) (shelf.new, out.new, disk.new) result }
{
    machines_run();
    turns_are_counted();
    boots_hold(&setup.layer, &setup.boot, &setup.schedule, disk);
    are_in_range(limits.turns, limits.steps);
    let (run, end) = run_to_save(setup, limits, disk, out)?;
    if let RunEnd::Stopped = end {
        return Ok(put_state(&run, place, shelf, out));
    }
    Ok(end)
}

// Puts the state of a run to its place, and then prints the row `saved`.
fn put_state<L: Layer + Drop, S: Shelf, O: Sink>(
    run: &Run<L>,
    place: Place<'_>,
    shelf: &mut S,
    out: &mut O,
) -> RunEnd
    ensures { PutCalls S.Shelf O.Sink run.now place.entry.room.words place.entry.name.now (shelf.old, out.old) (shelf.new, out.new) result }
{
    let mut room = place.room;
    room.fill(run);
    match shelf.put(place.name, room.bytes()) {
        Ok(()) => put_row(out),
        Err(_) => RunEnd::ShelfFault,
    }
}

// Prints the row `saved`.
fn put_row<O: Sink>(out: &mut O) -> RunEnd
    ensures { RowCalls O.Sink out.old out.new result }
{
    match out.put(b"saved\n") {
        Ok(()) => RunEnd::Stopped,
        Err(_) => RunEnd::SinkFault,
    }
}

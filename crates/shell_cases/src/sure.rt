// A command over an outside in memory where no call fails.
ghost use Rattle.std.specs.Prelude.{◌≡◌, ◌≢◌, length, IfOk, []};
ghost use Rattle.cvm_outside.specs.Shelves.{shelf_inside, taken_of};
ghost use Rattle.run_scripts.specs.Command.{word_texts};
ghost use Rattle.shell_cases.specs.Sure.{IsTooLong, IsTooSmall};

use cvm_outside::{MemSectors, MemShelf, MemSink, Shelf, SureSectors, SureShelf, SureSink};
use cvm_shell::{Status, run};
use run_scripts::laws::statuses_are_caused;
use std::alloc::{AllocError, Global};

/// Runs a command where no call of the shelf, the sink and the disk fails. A status of the sink doesn't come, one of the shelf only where a
/// file is too long, and one of the disk only where it has too few sectors.
pub fn run_surely(
    alloc: Global,
    words: &Vec<String>,
    shelf: &mut SureShelf,
    sink: &mut SureSink,
    disk: &mut SureSectors,
) -> Status
    ensures sink { result ≢ Status.Sink }
    ensures shelf { result ≡ Status.Shelf → IsTooLong (word_texts words.now.items) (taken_of (shelf_inside shelf.new)) }
    ensures disk { result ≡ Status.Disk → IsTooSmall (word_texts words.now.items) (length disk.old) }
{
    statuses_are_caused();
    run(alloc, words, shelf, sink, disk)
}

// A shelf with the files that have these names on another.
fn copied(
    alloc: Global,
    names: &Vec<String>,
    from: &mut MemShelf,
) -> Result<SureShelf, AllocError> {
    let mut shelf = MemShelf::new(alloc, Vec::new(alloc))?;
    for name in names {
        if let Ok(bytes) = from.get(alloc, name) {
            shelf.place(alloc, name, &bytes)?;
        }
    }
    Ok(SureShelf::new(shelf))
}

/// Runs a command over copies of the files that its words name, and a disk of so many sectors.
pub fn run_over_copies(
    alloc: Global,
    words: &Vec<String>,
    files: &mut MemShelf,
    sectors: u32,
) -> Result<Status, AllocError> {
    let mut shelf = copied(alloc, words, files)?;
    let mut sink = SureSink::new(MemSink::new(alloc, Vec::new(alloc))?);
    let mut disk = SureSectors::new(MemSectors::new(alloc, sectors, Vec::new(alloc))?);
    Ok(run_surely(alloc, words, &mut shelf, &mut sink, &mut disk))
}

// An outside in memory, and the commands that are run over it.

use cvm_outside::{MemSectors, MemShelf, MemSink, Sectors, Shelf};
use cvm_shell::run;
use std::alloc::{AllocError, Global};
use std::str;

/// How many sectors the disk has.
const SECTORS: u32 = 16;

/// How a command ended: its status, and what it printed.
#[derive(Drop)]
pub struct Ended {
    /// The code of the status.
    pub code: u8,
    sink: MemSink,
}

impl Ended {
    /// What was printed.
    pub fn text(&self) -> &str {
        str::from_utf8(self.sink.bytes()).unwrap_or("(no text)")
    }
}

/// A shelf of files and a disk, none of whose calls fails by its number. Each command gets a sink of its own, with room for 1 MiB.
#[derive(Drop)]
pub struct World {
    shelf: MemShelf,
    disk: MemSectors,
}

// The words of a line, between blanks.
fn words_of(alloc: Global, line: &str) -> Result<Vec<String>, AllocError> {
    let mut words = Vec::new(alloc);
    for word in line.split(' ') {
        words.push(String::from_str(alloc, word)?)?;
    }
    Ok(words)
}

// A disk of zeros.
fn new_disk(alloc: Global) -> Result<MemSectors, AllocError> {
    MemSectors::new(alloc, SECTORS, Vec::new(alloc))
}

// The words of a sector; zeros where there is none.
fn sector_of(disk: &mut MemSectors, sector: u32) -> [u32; 1024] {
    let mut words = [0; 1024];
    if sector < disk.count() && disk.read(sector, &mut words).is_err() {
        words = [0; 1024];
    }
    words
}

// Writes a sector of one disk to the same of another.
fn copy_sector(from: &mut MemSectors, to: &mut MemSectors, sector: u32) {
    let words = sector_of(from, sector);
    if sector < to.count() {
        let _ = to.write(sector, &words);
    }
}

impl World {
    /// A shelf with no file, and a disk of zeros.
    pub fn new(alloc: Global) -> Result<World, AllocError> {
        Ok(World {
            shelf: MemShelf::new(alloc, Vec::new(alloc))?,
            disk: new_disk(alloc)?,
        })
    }

    /// Places a file; a put may replace its bytes by no more.
    pub fn place(&mut self, alloc: Global, name: &str, bytes: &[u8]) -> Result<(), AllocError> {
        self.shelf.place(alloc, name, bytes)
    }

    /// The bytes of a file; none where it is not got.
    pub fn bytes(&mut self, alloc: Global, name: &str) -> Vec<u8> {
        match self.shelf.get(alloc, name) {
            Ok(bytes) => bytes,
            Err(_) => Vec::new(alloc),
        }
    }

    /// Runs the command of the words of a line, which have blanks between them.
    pub fn run(&mut self, alloc: Global, line: &str) -> Result<Ended, AllocError> {
        let words = words_of(alloc, line)?;
        let mut sink = MemSink::new(alloc, Vec::new(alloc))?;
        let status = run(alloc, &words, &mut self.shelf, &mut sink, &mut self.disk);
        Ok(Ended {
            code: status.code(),
            sink,
        })
    }

    /// Runs a command as `run` does, over a copy of the disk, which is then let go.
    pub fn run_aside(&mut self, alloc: Global, line: &str) -> Result<Ended, AllocError> {
        let mut aside = new_disk(alloc)?;
        for sector in 0..SECTORS {
            copy_sector(&mut self.disk, &mut aside, sector);
        }
        let words = words_of(alloc, line)?;
        let mut sink = MemSink::new(alloc, Vec::new(alloc))?;
        let status = run(alloc, &words, &mut self.shelf, &mut sink, &mut aside);
        Ok(Ended {
            code: status.code(),
            sink,
        })
    }

    /// Takes a new disk of zeros, and gives the one that there was.
    pub fn change_disk(&mut self, alloc: Global) -> Result<MemSectors, AllocError> {
        Ok(std::mem::replace(&mut self.disk, new_disk(alloc)?))
    }

    /// Whether another disk has the same sectors.
    pub fn has_sectors_of(&mut self, other: &mut MemSectors) -> bool {
        let mut same = true;
        for sector in 0..SECTORS {
            let here = sector_of(&mut self.disk, sector);
            let there = sector_of(other, sector);
            same = same && here == there;
        }
        same
    }
}

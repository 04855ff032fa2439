// A disk that does not return what was written.
ghost use Rattle.std.specs.Prelude.{length};
ghost use Rattle.shell_cases.specs.Telling.{told_unless, told_size};

use cvm_outside::{DiskFault, MemSectors, Sectors};

/// What the reads of one sector answer in place of one of its words.
#[derive(Clone, Copy, Debug, PartialEq, Eq)]
pub struct Alteration {
    /// The sector.
    pub sector: u32,
    /// The place of the word, below 1,024.
    pub place: usize,
    /// What is answered.
    pub word: u32,
}

/// A disk that may answer the reads of one sector with another word, and then tells no contents.
#[derive(Drop)]
pub struct Altered {
    inner: MemSectors,
    alteration: Option<Alteration>,
}

impl Altered {
    /// Over a disk in memory.
    pub fn new(inner: MemSectors, alteration: Option<Alteration>) -> Altered {
        Altered { inner, alteration }
    }
}

impl Sectors for Altered {
    ghost sectors = { λ s. told_unless s.alteration s.inner.sectors };

    ghost size = { λ s. length s.inner.sectors };

    ghost faults = { λ s. s.inner.calls.faults };

    ghost calls = { λ s. s.inner.calls.sound };

    ghost all_calls = { λ s. s.inner.calls.next };

    ghost sized = { λ s. told_size s.alteration s.inner.sectors };

    fn are_sectors(&self) {
        self.inner.are_sectors();
    }

    fn count(&self) -> u32 {
        self.inner.count()
    }

    fn read(&mut self, i: u32, into: &mut [u32; 1024]) -> Result<(), DiskFault> {
        self.inner.read(i, into)?;
        if let Some(alteration) = self.alteration {
            if i == alteration.sector && alteration.place < 1024 {
                into[alteration.place] = alteration.word;
            }
        }
        Ok(())
    }

    fn write(&mut self, i: u32, from: &[u32; 1024]) -> Result<(), DiskFault> {
        self.inner.write(i, from)
    }
}

// A disk in memory, where no call fails.
ghost use Rattle.std.specs.Prelude.{◌≡◌, ◌<◌, ◌-◌, ◌^◌, length, slice_set, slice_index_or, refl, IsOk, Some, []};

use crate::mem_sectors::MemSectors;
use crate::{DiskFault, Sectors};
use std::marker::Model;

/// A disk over one in memory that has no call that fails.
#[derive(Drop)]
pub struct SureSectors {
    inner: MemSectors,
}

impl Model for SureSectors {
    ghost use Rattle.std.specs.Prelude.{◌≡◌, List, ℕ, []};

    ghost Value = { List (List ℕ) };

    ghost view = { λ s. s.inner.sectors };

    ghost invariant = { λ s. s.inner.calls.failing ≡ [] };
}

impl SureSectors {
    /// A disk with the sectors of `inner`, which is to have no call that fails.
    pub fn new(inner: MemSectors) -> SureSectors
        requires { inner.calls.failing ≡ [] }
        ensures { result ≡ inner.sectors }
    {
        SureSectors { inner }
    }
}

impl Sectors for SureSectors {
    ghost sectors = { λ s. Some s };

    ghost size = { length };

    ghost sized = { λ _. refl };

    ghost faults = { λ _. 0 };

    // No call fails, so none is told from another: both counts stand at their last value.
    ghost calls = { λ _. 2 ^ 64 - 1 };

    ghost all_calls = { λ _. 2 ^ 64 - 1 };

    fn count(&self) -> u32 {
        self.inner.count()
    }

    /// Fills `into` with the words of sector `i`. There is no error.
    fn read(&mut self, i: u32, into: &mut [u32; 1024]) -> Result<(), DiskFault>
        requires { i < length self.old }
        ensures sure { IsOk result }
        ensures sectors { self.new ≡ self.old }
        ensures whole { length into.new ≡ 1024 }
        ensures words { into.new ≡ slice_index_or self.old i [] }
    {
        self.inner.read(i, into)
    }

    /// Replaces the words of sector `i`. There is no error.
    fn write(&mut self, i: u32, from: &[u32; 1024]) -> Result<(), DiskFault>
        requires { i < length self.old }
        ensures sure { IsOk result }
        ensures words { self.new ≡ slice_set self.old i from.now }
    {
        self.inner.write(i, from)
    }

    fn are_sectors(&self) {
        self.inner.are_sectors();
    }
}

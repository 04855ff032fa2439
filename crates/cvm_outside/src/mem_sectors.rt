// A disk in memory.
ghost use Rattle.std.specs.Prelude.{All, slice_set, slice_index_or, ◌≡◌, ◌<◌, ◌≤◌, ◌^◌, is_err, length, replicate, refl, Some, IfOk, OnOk, OnErr, List, ℕ, []};
ghost use Rattle.cvm_outside.specs.Causes.{Counts};
ghost use Rattle.cvm_outside.specs.Numbering.{fresh, is_listed, numbered_call};
ghost use Rattle.cvm_outside.specs.Told.{IsSector, Tells, told_sector, with_sector};

use crate::calls::Calls;
use crate::{DiskFault, Sectors};
use std::alloc::{AllocError, Global};
use std::marker::Model;

/// A disk that keeps its sectors in memory.
#[derive(Drop)]
pub struct MemSectors {
    sectors: Vec<[u32; 1024]>,
    count: u32,
    calls: Calls,
}

impl Model for MemSectors {
    ghost use Rattle.std.specs.Prelude.{◌≡◌, All, vec_len};
    ghost use Rattle.cvm_outside.specs.Memory.{Disk};
    ghost use Rattle.cvm_outside.specs.Told.{IsSector};

    ghost Value = { Disk };

    ghost view = { λ s. record { sectors = s.sectors.items; calls = s.calls } };

    ghost invariant = { λ s. (vec_len s.sectors ≡ s.count) × All IsSector s.sectors.items };
}

impl MemSectors {
    /// A disk of `count` sectors of zeros. The calls of `read` and `write` whose numbers, from 0 in
    /// one count, are in `fail` fail.
    ///
    /// # Errors
    ///
    /// Want of memory.
    pub fn new(alloc: Global, count: u32, fail: Vec<u64>) -> Result<MemSectors, AllocError>
        ensures { IfOk result (λ s. s ≡ record { sectors = replicate count (replicate 1024 0); calls = fresh fail.items }) }
    {
        let sectors = Vec::from_elem(alloc, [0; 1024], count as usize)?;
        Ok(MemSectors {
            sectors,
            count,
            calls: Calls::new(fail),
        })
    }
}

impl Sectors for MemSectors {
    ghost sectors = { λ s. Some s.sectors };

    ghost size = { λ s. length s.sectors };

    ghost faults = { λ s. s.calls.faults };

    ghost calls = { λ s. s.calls.sound };

    ghost all_calls = { λ s. s.calls.next };

    ghost sized = { λ _. refl };

    fn count(&self) -> u32 {
        self.count
    }

    /// Fills `into` with the words of sector `i`.
    ///
    /// # Errors
    ///
    /// `Failed` exactly where the number of the call is listed.
    fn read(&mut self, i: u32, into: &mut [u32; 1024]) -> Result<(), DiskFault>
        requires { i < length self.old.sectors }
        ensures fails { is_err result ≡ is_listed self.old.calls }
        ensures calls { self.new.calls ≡ numbered_call self.old.calls (is_err result) }
        ensures sectors { self.new.sectors ≡ self.old.sectors }
        ensures words { OnOk result (into.new ≡ slice_index_or self.old.sectors i []) }
        ensures whole { length into.new ≡ 1024 }
        ensures count { Counts self.old.calls.faults self.new.calls.faults result }
    {
        if self.calls.begin() {
            self.calls.count_fault();
            return Err(DiskFault::Failed);
        }
        let words = &self.sectors[i as usize];
        is_whole(words);
        *into = *words;
        Ok(())
    }

    /// Replaces the words of sector `i`, or changes nothing.
    ///
    /// # Errors
    ///
    /// `Failed` exactly where the number of the call is listed.
    fn write(&mut self, i: u32, from: &[u32; 1024]) -> Result<(), DiskFault>
        requires { i < length self.old.sectors }
        ensures fails { is_err result ≡ is_listed self.old.calls }
        ensures calls { self.new.calls ≡ numbered_call self.old.calls (is_err result) }
        ensures words { OnOk result (self.new.sectors ≡ slice_set self.old.sectors i from.now) }
        ensures kept { OnErr result (self.new.sectors ≡ self.old.sectors) }
        ensures size { length self.new.sectors ≡ length self.old.sectors }
        ensures torn { OnErr result ((words : List ℕ) × (Some self.new.sectors ≡ with_sector (Some self.old.sectors) i words)) }
        ensures count { Counts self.old.calls.faults self.new.calls.faults result }
    {
        let failing = self.calls.begin();
        if failing {
            self.calls.count_fault();
            return Err(DiskFault::Failed);
        }
        is_whole(from);
        self.sectors[i as usize] = *from;
        Ok(())
    }

    fn are_sectors(&self) {
        let _all = &self.sectors;
    }
}

// Tells proofs that an array of 1,024 words is a sector.
fn is_whole(words: &[u32; 1024])
    ensures { IsSector words.now }
{
    are_words(words);
}

// Tells proofs that words are in the range of their type.
fn are_words(words: &[u32])
    ensures { All (λ w. w < 2 ^ 32) words.now }
{}

// A disk of sectors of 1,024 words.
ghost use Rattle.std.specs.Prelude.{All, IfSome, length, ◌≡◌, ◌<◌, ◌≢◌, ℕ, List, Option, OnOk, OnErr};
ghost use Rattle.cvm_outside.specs.Causes.{Counts};
ghost use Rattle.cvm_outside.specs.Numbering.{counted_up, until_fault};
ghost use Rattle.cvm_outside.specs.Told.{Tells, IsSector, told_sector, with_sector};

use thiserror::Error;

/// Why a call of a disk was not done.
#[derive(Clone, Copy, Debug, PartialEq, Eq, Error)]
pub enum DiskFault {
    /// The sector could not be read or written, and the disk counted a fault.
    #[error("a sector could not be read or written")]
    Failed,
}

/// A disk of sectors of 1,024 words of 32 bits.
pub trait Sectors {
    /// The words of each sector, where they are told.
    ghost sectors: { Self → Option (List (List ℕ)) };

    /// How many sectors there are.
    ghost size: { Self → ℕ };

    /// How many faults there were.
    ghost faults: { Self → ℕ };

    /// How many calls of `read` and `write` there were up to the first that failed, that one with it: a count that stands still after it, and at
    /// 2^64 - 1.
    ghost calls: { Self → ℕ };

    /// How many calls of `read` and `write` there were in all: a count that stands still at 2^64 - 1.
    ghost all_calls: { Self → ℕ };

    /// How many sectors there are. The number never changes.
    fn count(&self) -> u32
        ensures { result ≡ size self.now };

    /// Fills `into` with the words of sector `i`, from 0. No sector changes. After a fault `into`
    /// may hold anything.
    ///
    /// # Errors
    ///
    /// `Failed`, exactly where one fault more is counted.
    fn read(&mut self, i: u32, into: &mut [u32; 1024]) -> Result<(), DiskFault>
        requires { i < size self.old }
        ensures size { size self.new ≡ size self.old }
        ensures sectors { sectors self.new ≡ sectors self.old }
        ensures whole { length into.new ≡ 1024 }
        ensures words { OnOk result (Tells (told_sector (sectors self.old) i) into.new) }
        ensures count { Counts (faults self.old) (faults self.new) result }
        ensures called { calls self.new ≡ until_fault (faults self.old) (calls self.old) }
        ensures all_called { all_calls self.new ≡ counted_up (all_calls self.old) };

    /// Replaces the words of sector `i`, from 0. After a fault that sector may hold anything, and
    /// the others are as before.
    ///
    /// # Errors
    ///
    /// `Failed`, exactly where one fault more is counted.
    fn write(&mut self, i: u32, from: &[u32; 1024]) -> Result<(), DiskFault>
        requires { i < size self.old }
        ensures size { size self.new ≡ size self.old }
        ensures words { OnOk result (sectors self.new ≡ with_sector (sectors self.old) i from.now) }
        ensures torn { OnErr result ((words : List ℕ) × (sectors self.new ≡ with_sector (sectors self.old) i words)) }
        ensures count { Counts (faults self.old) (faults self.new) result }
        ensures called { calls self.new ≡ until_fault (faults self.old) (calls self.old) }
        ensures all_called { all_calls self.new ≡ counted_up (all_calls self.old) };

    /// A law: each sector that is told is 1,024 words of 32 bits.
    fn are_sectors(&self)
        ensures { IfSome (sectors self.now) (All IsSector) };

    /// Where the sectors are told, there are as many as `size` says.
    ghost sized: { (disk : Self) → IfSome (sectors disk) (λ ss. length ss ≡ size disk) };
}

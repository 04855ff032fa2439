// Named files.
ghost use Rattle.std.specs.Prelude.{◌≡◌, ◌≢◌, ◌≤◌, ◌↔◌, ℕ, Bool, true, false, min, List, Option, length, IfOk, IfSome, OnOk, OnErr, IsErrOf};
ghost use Rattle.cvm_outside.specs.Causes.{ShelfCounts};
ghost use Rattle.cvm_outside.specs.Numbering.{counted_up, until_fault};
ghost use Rattle.cvm_outside.specs.Told.{Tells, IsCutOff, retold, TOO_LONG};
ghost use Rattle.cvm_outside.specs.declared.shelf.ShelfFault.TheVariants.{Failed, TooLong, Memory};

use std::alloc::Global;
use thiserror::Error;

/// The most bytes that a file may have: 64 MiB.
pub const LONGEST_FILE: usize = 67_108_864;

/// Why a call of a shelf gave no answer.
#[derive(Clone, Copy, Debug, PartialEq, Eq, Error)]
pub enum ShelfFault {
    /// The file could not be read or written, and the shelf counted a fault.
    #[error("the file could not be read or written")]
    Failed,
    /// The file has more than 67,108,864 bytes.
    #[error("the file has more than 67,108,864 bytes")]
    TooLong,
    /// Want of memory.
    #[error("out of memory")]
    Memory,
}

/// Named files.
pub trait Shelf {
    /// The bytes of the file of a name, where they are told.
    ghost file: { Self → List ℕ → Option (List ℕ) };

    /// How many bytes the last `get` took.
    ghost taken: { Self → ℕ };

    /// How many faults there were.
    ghost faults: { Self → ℕ };

    /// How many calls of `get` and `put` there were up to the first that failed, that one with it: a count that stands still after it, and at
    /// 2^64 - 1. Want of memory and a file that is too long are no faults.
    ghost calls: { Self → ℕ };

    /// How many calls of `get` and `put` there were in all: a count that stands still at 2^64 - 1.
    ghost all_calls: { Self → ℕ };

    /// The names of which a `get` surely is not `Failed`.
    ghost gives: { Self → List ℕ → Bool };

    /// The bytes of the file of that name, at most 67,108,864. No file changes.
    ///
    /// # Errors
    ///
    /// `Failed` only where one fault more is counted and the name is not surely given, `TooLong`
    /// exactly where 67,108,865 bytes were taken, and want of memory.
    fn get(&mut self, alloc: Global, name: &str) -> Result<Vec<u8>, ShelfFault>
        ensures files { (n : List ℕ) → file self.new n ≡ file self.old n }
        ensures bytes { IfOk result (λ v. Tells (file self.old name.now) v.items) }
        ensures all { IfOk result (λ v. length v.items ≡ taken self.new) }
        ensures most { taken self.new ≤ TOO_LONG }
        ensures long { IsErrOf result TooLong ↔ (taken self.new ≡ TOO_LONG) }
        ensures told_long { IsErrOf result TooLong → IfSome (file self.old name.now) (λ bs. taken self.new ≡ min (length bs) TOO_LONG) }
        ensures count { ShelfCounts (faults self.old) (faults self.new) result }
        ensures called { calls self.new ≡ until_fault (faults self.old) (calls self.old) }
        ensures all_called { all_calls self.new ≡ counted_up (all_calls self.old) }
        ensures sure { IsErrOf result Failed → gives self.old name.now ≡ false }
        ensures given { (n : List ℕ) → gives self.old n ≡ true → gives self.new n ≡ true };

    /// Makes the bytes of the file of that name those given. The other files are as before. After a
    /// fault the file holds its old bytes or a prefix of the new ones.
    ///
    /// # Errors
    ///
    /// `Failed`, exactly where one fault more is counted.
    fn put(&mut self, name: &str, bytes: &[u8]) -> Result<(), ShelfFault>
        ensures others { (n : List ℕ) → n ≢ name.now → file self.new n ≡ file self.old n }
        ensures bytes { OnOk result (file self.new name.now ≡ retold (file self.old name.now) bytes.now) }
        ensures part { OnErr result (IsCutOff (file self.old name.now) bytes.now (file self.new name.now)) }
        ensures few { (IsErrOf result TooLong → ⊥) × (IsErrOf result Memory → ⊥) }
        ensures taken { taken self.new ≡ taken self.old }
        ensures count { ShelfCounts (faults self.old) (faults self.new) result }
        ensures called { calls self.new ≡ until_fault (faults self.old) (calls self.old) }
        ensures all_called { all_calls self.new ≡ counted_up (all_calls self.old) }
        ensures given { (n : List ℕ) → gives self.old n ≡ true → gives self.new n ≡ true };
}

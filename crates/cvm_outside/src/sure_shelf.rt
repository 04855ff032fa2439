// A shelf in memory, where no call fails.
ghost use Rattle.std.specs.Prelude.{◌≡◌, ◌≢◌, ◌≤◌, ◌↔◌, List, ℕ, true, length, IsOk, IfOk, IsErrOf, IsSomeAnd, unwrap_or, if◌then◌else◌, None, []};
ghost use Rattle.cvm_outside.specs.Numbering.{counted_up};
ghost use Rattle.cvm_outside.specs.Told.{TOO_LONG};
ghost use Rattle.cvm_outside.specs.Shelves.{placed, calls_of, taken_of, placed_bytes, found, put_over, shelf_inside};
ghost use Rattle.cvm_outside.specs.declared.shelf.ShelfFault.TheVariants.{Failed, TooLong};

use crate::mem_shelf::MemShelf;
use crate::{Shelf, ShelfFault};
use std::alloc::Global;

/// A shelf over one in memory. Where that fails, a `put` does nothing and a `get` answers the empty
/// file, and so it tells no contents.
#[derive(Drop)]
pub struct SureShelf {
    inner: MemShelf,
}

impl SureShelf {
    /// A shelf over `inner`, which is to have no call that fails by its number.
    pub fn new(inner: MemShelf) -> SureShelf
        requires { (calls_of inner).failing ≡ [] }
        ensures { shelf_inside result ≡ inner }
    {
        SureShelf { inner }
    }
}

impl Shelf for SureShelf {
    ghost file = { λ _ _. None };

    ghost taken = { λ s. taken_of (shelf_inside s) };

    ghost faults = { λ _. 0 };

    // No call fails, so all are counted.
    ghost calls = { λ s. (calls_of (shelf_inside s)).next };

    ghost all_calls = { λ s. (calls_of (shelf_inside s)).next };

    ghost gives = { λ _ _. true };

    /// The bytes of the file of that name, or none where there is no such file.
    ///
    /// # Errors
    ///
    /// `TooLong` exactly where there is one of more than 67,108,864 bytes, and want of memory.
    fn get(&mut self, alloc: Global, name: &str) -> Result<Vec<u8>, ShelfFault>
        ensures sure { IsErrOf result Failed → ⊥ }
        ensures found { IfOk result (λ v. v.items ≡ unwrap_or (placed_bytes (found (shelf_inside self.old) name.now)) []) }
        ensures too_long { IsErrOf result TooLong ↔ IsSomeAnd (found (shelf_inside self.old) name.now) (λ f. TOO_LONG ≤ length f.bytes) }
        ensures placed { (n : List ℕ) → placed (shelf_inside self.new) n ≡ placed (shelf_inside self.old) n }
        ensures all { IfOk result (λ v. length v.items ≡ taken_of (shelf_inside self.new)) }
        ensures most { taken_of (shelf_inside self.new) ≤ TOO_LONG }
        ensures long { IsErrOf result TooLong ↔ (taken_of (shelf_inside self.new) ≡ TOO_LONG) }
        ensures called { (calls_of (shelf_inside self.new)).next ≡ counted_up (calls_of (shelf_inside self.old)).next }
    {
        match self.inner.get(alloc, name) {
            Err(ShelfFault::Failed) => Ok(Vec::new(alloc)),
            answer => answer,
        }
    }

    /// Puts the bytes where the file is there and has room for them. There is no error.
    fn put(&mut self, name: &str, bytes: &[u8]) -> Result<(), ShelfFault>
        ensures sure { IsOk result }
        ensures put { placed (shelf_inside self.new) name.now ≡ put_over (found (shelf_inside self.old) name.now)
            (placed (shelf_inside self.old) name.now) bytes.now }
        ensures others { (n : List ℕ) → n ≢ name.now → placed (shelf_inside self.new) n ≡ placed (shelf_inside self.old) n }
        ensures taken { taken_of (shelf_inside self.new) ≡ taken_of (shelf_inside self.old) }
        ensures called { (calls_of (shelf_inside self.new)).next ≡ counted_up (calls_of (shelf_inside self.old)).next }
    {
        let _ = self.inner.put(name, bytes);
        Ok(())
    }
}

// Files in memory.
ghost use Rattle.std.specs.Prelude.{◌≡◌, ◌≤◌, ◌<◌, ◌≢◌, ◌||◌, ◌↔◌, List, ℕ, true, false, length, is_err, is_some};
ghost use Rattle.std.specs.Prelude.{if◌then◌else◌, vec_len, IfOk, OnOk, OnErr, Some, None, IsErrOf, IsSomeAnd, IfSome, min, not};
ghost use Rattle.std.specs.BTreeMap.{get_by_text};
ghost use Rattle.cvm_outside.specs.Causes.{ShelfCounts};
ghost use Rattle.cvm_outside.specs.Told.{TOO_LONG};
ghost use Rattle.cvm_outside.specs.Numbering.{fresh, is_listed, numbered_call};
ghost use Rattle.cvm_outside.specs.Memory.{Placed};
ghost use Rattle.cvm_outside.specs.Shelves.{placed, calls_of, taken_of, placed_bytes, found, lacks_room, replaced, is_failed, is_sure};
ghost use Rattle.cvm_outside.specs.declared.shelf.ShelfFault.TheVariants.{Failed, TooLong, Memory};

use crate::calls::Calls;
use crate::mem_file::MemFile;
use crate::shelf::LONGEST_FILE;
use crate::{Shelf, ShelfFault};
use std::alloc::{AllocError, Global};
use std::collections::BTreeMap;

/// A shelf that keeps its files in memory. The room of a file is taken when it is placed, so a
/// `put` takes no memory.
#[derive(Drop)]
pub struct MemShelf {
    files: BTreeMap<String, MemFile>,
    taken: u64,
    calls: Calls,
}

impl MemShelf {
    /// A shelf with no file. The calls of `get` and `put` whose numbers, from 0 in one count, are
    /// in `fail` fail.
    ///
    /// # Errors
    ///
    /// None: an empty shelf takes no memory.
    pub fn new(alloc: Global, fail: Vec<u64>) -> Result<MemShelf, AllocError>
        ensures files { IfOk result (λ s. (n : List ℕ) → placed s n ≡ None) }
        ensures taken { IfOk result (λ s. taken_of s ≡ 0) }
        ensures calls { IfOk result (λ s. calls_of s ≡ fresh fail.items) }
    {
        Ok(MemShelf {
            files: BTreeMap::new(alloc),
            taken: 0,
            calls: Calls::new(fail),
        })
    }

    /// Puts a file there beforehand, with room for as many bytes as it has. It is no call of the
    /// trait, and has no number.
    ///
    /// # Errors
    ///
    /// Want of memory, with no file changed.
    pub fn place(&mut self, alloc: Global, name: &str, bytes: &[u8]) -> Result<(), AllocError>
        ensures placed { OnOk result (placed self.new name.now ≡ Some (record { bytes = bytes.now; room = length bytes.now })) }
        ensures others { (n : List ℕ) → n ≢ name.now → placed self.new n ≡ placed self.old n }
        ensures err { OnErr result (placed self.new name.now ≡ placed self.old name.now) }
        ensures taken { taken_of self.new ≡ taken_of self.old }
        ensures calls { calls_of self.new ≡ calls_of self.old }
    {
        let name = String::from_str(alloc, name)?;
        let file = MemFile::new(alloc, bytes)?;
        match self.files.insert(name, file) {
            Ok(_) => Ok(()),
            Err(_) => Err(AllocError),
        }
    }
}

// Puts the bytes if the file is there and has room for them, and tells whether it did.
fn put_file(files: &mut BTreeMap<String, MemFile>, name: &str, bytes: &[u8]) -> bool
    ensures fits { result ≡ not (lacks_room (get_by_text files.old name.now) bytes.now) }
    ensures put { get_by_text files.new name.now ≡ (if result then replaced (get_by_text files.old name.now) bytes.now else get_by_text files.old name.now) }
    ensures others { (n : List ℕ) → n ≢ name.now → get_by_text files.new n ≡ get_by_text files.old n }
    ensures kept { (n : List ℕ) → is_some (get_by_text files.new n) ≡ is_some (get_by_text files.old n) }
{
    match files.get_mut(name) {
        Some(file) => file.replace(bytes),
        None => false,
    }
}

impl Shelf for MemShelf {
    ghost file = { λ s n. placed_bytes (placed s n) };

    ghost taken = { λ s. taken_of s };

    ghost faults = { λ s. (calls_of s).faults };

    ghost calls = { λ s. (calls_of s).sound };

    ghost all_calls = { λ s. (calls_of s).next };

    ghost gives = { λ s n. is_sure s n };

    /// The bytes of the file of that name.
    ///
    /// # Errors
    ///
    /// `Failed` exactly where the number of the call is listed or there is no such file, `TooLong`
    /// exactly where there is one of more than 67,108,864 bytes, and want of memory.
    fn get(&mut self, alloc: Global, name: &str) -> Result<Vec<u8>, ShelfFault>
        ensures fails { IsErrOf result Failed ↔ (found self.old name.now ≡ None) }
        ensures found { IfOk result (λ v. placed_bytes (found self.old name.now) ≡ Some v.items) }
        ensures too_long { IsErrOf result TooLong ↔ IsSomeAnd (found self.old name.now) (λ f. TOO_LONG ≤ length f.bytes) }
        ensures nothing { IsErrOf result Failed → taken_of self.new ≡ 0 }
        ensures placed { (n : List ℕ) → placed self.new n ≡ placed self.old n }
        ensures calls { calls_of self.new ≡ numbered_call (calls_of self.old) (is_failed result) }
        ensures all { IfOk result (λ v. length v.items ≡ taken_of self.new) }
        ensures most { taken_of self.new ≤ TOO_LONG }
        ensures long { IsErrOf result TooLong ↔ (taken_of self.new ≡ TOO_LONG) }
        ensures told_long { IsErrOf result TooLong → IfSome (placed_bytes (placed self.old name.now)) (λ bs. taken_of self.new ≡ min (length bs) TOO_LONG) }
        ensures count { ShelfCounts (calls_of self.old).faults (calls_of self.new).faults result }
        ensures sure { IsErrOf result Failed → is_sure self.old name.now ≡ false }
        ensures given { (n : List ℕ) → is_sure self.old n ≡ true → is_sure self.new n ≡ true }
    {
        self.taken = 0;
        if self.calls.begin() {
            self.calls.count_fault();
            return Err(ShelfFault::Failed);
        }
        let Some(file) = self.files.get(name) else {
            self.calls.count_fault();
            return Err(ShelfFault::Failed);
        };
        let bytes = file.bytes();
        if bytes.len() > LONGEST_FILE {
            self.taken = LONGEST_FILE as u64 + 1;
            return Err(ShelfFault::TooLong);
        }
        let Ok(copy) = bytes.to_vec(alloc) else {
            return Err(ShelfFault::Memory);
        };
        self.taken = copy.len() as u64;
        Ok(copy)
    }

    /// Puts all the bytes in the place of the file's, or changes nothing.
    ///
    /// # Errors
    ///
    /// `Failed` exactly where the number of the call is listed, there is no such file, or the bytes
    /// are more than it was placed with.
    fn put(&mut self, name: &str, bytes: &[u8]) -> Result<(), ShelfFault>
        ensures fails { is_err result ≡ lacks_room (found self.old name.now) bytes.now }
        ensures few { (IsErrOf result TooLong → ⊥) × (IsErrOf result Memory → ⊥) }
        ensures put { placed self.new name.now ≡ (if is_err result then placed self.old name.now else replaced (placed self.old name.now) bytes.now) }
        ensures others { (n : List ℕ) → n ≢ name.now → placed self.new n ≡ placed self.old n }
        ensures taken { taken_of self.new ≡ taken_of self.old }
        ensures calls { calls_of self.new ≡ numbered_call (calls_of self.old) (is_failed result) }
        ensures count { ShelfCounts (calls_of self.old).faults (calls_of self.new).faults result }
        ensures given { (n : List ℕ) → is_sure self.old n ≡ true → is_sure self.new n ≡ true }
    {
        if self.calls.begin() || !put_file(&mut self.files, name, bytes) {
            self.calls.count_fault();
            return Err(ShelfFault::Failed);
        }
        Ok(())
    }
}

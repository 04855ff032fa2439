// One file of a shelf in memory.
ghost use Rattle.std.specs.Prelude.{◌≡◌, ◌≤◌, length, nat_le, if◌then◌else◌, IfOk};
ghost use Rattle.cvm_outside.specs.Memory.{Placed};

use std::alloc::{AllocError, Global};
use std::marker::Model;

/// The bytes of a file, and the room that they were placed with, in bytes.
#[derive(Drop)]
pub(crate) struct MemFile {
    bytes: Vec<u8>,
    room: usize,
}

impl Model for MemFile {
    ghost use Rattle.std.specs.Prelude.{◌≤◌, vec_capacity};
    ghost use Rattle.cvm_outside.specs.Memory.{Placed};

    ghost Value = { Placed };

    ghost view = { λ f. record { bytes = f.bytes.items; room = f.room } };

    ghost invariant = { λ f. f.room ≤ vec_capacity f.bytes };
}

impl MemFile {
    // A file of these bytes, with room for as many.
    pub(crate) fn new(alloc: Global, bytes: &[u8]) -> Result<MemFile, AllocError>
        ensures { IfOk result (λ f. f ≡ record { bytes = bytes.now; room = length bytes.now }) }
    {
        Ok(MemFile {
            bytes: bytes.to_vec(alloc)?,
            room: bytes.len(),
        })
    }

    // The bytes of the file.
    pub(crate) fn bytes(&self) -> &[u8]
        ensures { result.now ≡ self.now.bytes }
    {
        &self.bytes
    }

    // Puts the bytes in the place of the old ones if they fit the room, and tells whether they did.
    pub(crate) fn replace(&mut self, bytes: &[u8]) -> bool
        ensures fits { result ≡ nat_le (length bytes.now) self.old.room }
        ensures bytes { self.new.bytes ≡ (if result then bytes.now else self.old.bytes) }
        ensures room { self.new.room ≡ self.old.room }
    {
        if bytes.len() > self.room {
            return false;
        }
        self.bytes.clear();
        self.bytes.extend_from_slice(bytes).is_ok()
    }
}

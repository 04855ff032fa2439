// The room for a saved machine, and its filling.

ghost use Rattle.std.specs.Prelude.{◌≡◌, ◌*◌, ◌≤◌, ◌<◌, ◌^◌, length, take};
ghost use Rattle.std.specs.List.{flat_map};
ghost use Rattle.cvm_words.specs.Bytes.{word};
ghost use Rattle.boot_run.specs.Saving.{saved_run};
ghost use Rattle.machine_save.specs.Room.{IsRoom};

use boot_run::Run;
use layer_contract::Layer;
use saved_file::{SaveFault, spell};
use std::alloc::Global;
use std::marker::Model;

/// Room for the words and the bytes of a saved machine. Contracts see how many words fit, and the file that was filled in last.
#[derive(Drop)]
pub struct Room {
    words: Vec<u32>,
    bytes: Vec<u8>,
    // How many bytes were filled in.
    filled: usize,
}

impl Model for Room {
    ghost use Rattle.std.specs.Prelude.{◌≡◌, ◌≤◌, ◌*◌, length, take};
    ghost use Rattle.machine_save.specs.Room.{Filled};

    ghost Value = { Filled };

    ghost view = { λ r. record { words = length r.words.items; file = take r.filled r.bytes.items } };

    ghost invariant = { λ r. (length r.bytes.items ≡ 4 * length r.words.items) × (r.filled ≤ length r.bytes.items) };
}

impl Room {
    /// Takes the room for a saved machine of so many frames of memory, with a full log. Nothing is filled in.
    ///
    /// # Errors
    ///
    /// A file of as many bytes would be too long. Want of memory.
    pub fn new(alloc: Global, frames: u32) -> Result<Room, SaveFault>
        ensures { IsRoom frames result }
    {
        let count = 5176 + 1024 * u64::from(frames);
        if 67_108_864 < 4 * count {
            return Err(SaveFault::SaveTooLarge { bytes: 4 * count });
        }
        Ok(Room {
            words: vec![in alloc; 0; count as usize]?,
            bytes: vec![in alloc; 0; 4 * count as usize]?,
            filled: 0,
        })
    }

    /// Fills in the file of a run, and takes no memory. A run with more turns than a word tells, or with more words than fit, is not filled in, and the
    /// file stays: one of an image has no more words where the room is that of its frames.
    pub fn fill<L: Layer + Drop>(&mut self, run: &Run<L>)
        ensures room { self.new.words ≡ self.old.words }
        ensures file { length (saved_run run.now) ≤ self.old.words → run.now.turns < 2 ^ 32 → self.new.file ≡ flat_map word (saved_run run.now) }
        ensures few { self.old.words < length (saved_run run.now) → self.new.file ≡ self.old.file }
        ensures many { 2 ^ 32 ≤ run.now.turns → self.new.file ≡ self.old.file }
    {
        let tells = run.turns_done() <= u64::from(u32::MAX);
        if tells && self.words.len() as u64 >= run.state_words() {
            self.filled = put(run, &mut self.words, &mut self.bytes);
        }
    }

    /// The bytes of the file that was filled in last.
    pub fn bytes(&self) -> &[u8]
        ensures { result.now ≡ self.now.file }
    {
        &self.bytes[..self.filled]
    }
}

// Puts the words of a run into the first of these words, and their bytes into the first of these bytes, and answers how many bytes they are.
fn put<L: Layer + Drop>(run: &Run<L>, words: &mut [u32], bytes: &mut [u8]) -> usize
    requires few { run.now.turns < 2 ^ 32 }
    requires room { length (saved_run run.now) ≤ length words.old }
    requires bytes { length bytes.old ≡ 4 * length words.old }
    ensures most { result ≤ length bytes.old }
    ensures filled { take result bytes.new ≡ flat_map word (saved_run run.now) }
{
    let count = run.state_words() as usize;
    let (front, _) = words.split_at_mut(count);
    run.save_state(front);
    let (file, _) = bytes.split_at_mut(4 * count);
    spell(front, file);
    4 * count
}

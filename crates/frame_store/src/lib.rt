//! A store of frames: memory of a fixed number of frames, seen as one list of words.
//!
//! A word has 32 bits, and a frame is 1,024 words side by side, which is 4,096
//! bytes. Frames and words are counted from 0, so the frame `i` is made of the
//! words from `1024 * i` on.
//!
//! The words lie in one block. `new`, `get`, `put`, `lend`, `lend_mut` and the
//! drop reach it by a raw pointer, which only the module `region` names.
#![tactic(auto)]

ghost use Rattle.std.specs.Prelude.{◌≡◌, ◌≢◌, ℕ, ◌+◌, ◌*◌, ◌<◌, ◌≤◌, ◌⊎◌, ◌++◌, length, replicate, slice_index, slice_set, IfOk, List};
ghost use Rattle.std.specs.Borrow.{sem, Lends, Array, u32 as word};
ghost use Rattle.frame_store.specs.Words.{frame_of, with_frame};
ghost use Rattle.frame_store.specs.contracts.Frames.{the_row};

mod region;

use crate::region::{Deed, Region, release, reserve};
use std::alloc::{AllocError, Global};
use std::marker::Model;

/// Frames of 1,024 words of 32 bits. Contracts see them as the list of all their words.
pub struct Frames {
    region: Region,
    deed: Deed<Global>,
    size: usize,
    alloc: Global,
}

impl Model for Frames {
    ghost use Rattle.std.specs.Prelude.{List, ℕ, ◌≡◌, ◌+◌};

    ghost Value = { List ℕ };

    ghost view = { λ f. f.region.words };

    ghost invariant = { λ f. (f.deed.at ≡ f.region.at) × (f.deed.size ≡ f.size) × (f.region.count ≡ f.size) × (f.region.room ≡ 0) × (f.deed.alloc ≡ f.alloc) };
}

impl Drop for Frames {
    fn drop(self) {
        let Frames {
            region,
            deed,
            size,
            alloc,
        } = self;
        release(&alloc, region, deed, size);
    }
}

impl Frames {
    /// Takes the memory of `frames` frames, from 1 to 65,536, and sets each word to 0.
    ///
    /// Fails only for want of memory.
    pub fn new(alloc: Global, frames: u32) -> Result<Frames, AllocError>
        requires some { 1 ≤ frames }
        requires few { frames ≤ 65536 }
        ensures { IfOk result (λ f. f ≡ replicate (1024 * frames) 0) }
    {
        let size = 1024 * frames as usize;
        let (mut region, deed) = reserve(&alloc, size)?;
        let mut i = 0;
        while i < size {
            region.push(i, 0);
            i += 1;
        }
        Ok(Frames {
            region,
            deed,
            size,
            alloc,
        })
    }

    /// The word with the number `word`.
    pub fn get(&self, word: u32) -> u32
        requires { word < length self.now }
        ensures { result ≡ slice_index self.now word }
    {
        self.region.words(self.size)[word as usize]
    }

    /// Sets the word with the number `word` to `value`, and no other.
    pub fn put(&mut self, word: u32, value: u32)
        requires { word < length self.old }
        ensures { self.new ≡ slice_set self.old word value }
    {
        self.region.put(word as usize, value);
    }

    /// The 1,024 words of the frame with the number `frame`, to be read in place.
    #[tactic(auto, using(crate::proofs::FrameIsItsPart::range_frame))]
    pub fn lend(&self, frame: u32) -> &[u32; 1024]
        requires { 1024 * frame + 1024 ≤ length self.now }
        ensures { result.now ≡ frame_of self.now frame }
    {
        let at = 1024 * frame as usize;
        self.region.words(self.size)[at..at + 1024]
            .as_array::<1024>()
            .unwrap()
    }

    /// The 1,024 words of the frame with the number `frame`, to be read and
    /// written in place. What is written there is written to that part of the
    /// list, and the other words stay as they are.
    pub fn lend_mut(&mut self, frame: u32) -> &mut [u32; 1024]
        requires { 1024 * frame + 1024 ≤ length self.old }
        ensures* writes_back { sem 𝓛 (Lends the_row (Array word 0) self.entry result (with_frame self.entry.now frame)) }
        ensures value { result.now ≡ frame_of self.old frame }
    {
        self.region.lend_at(1024 * frame as usize)
    }
}

/// A law: what one frame is to the list of all words, as it stands and once it
/// was written with 1,024 other words.
pub fn a_frame_is_its_part()
    ensures whole { (words : List ℕ) (frame : ℕ) → 1024 * frame + 1024 ≤ length words
        → length (frame_of words frame) ≡ 1024 }
    ensures word { (words : List ℕ) (frame i : ℕ) → i < 1024
        → slice_index (frame_of words frame) i ≡ slice_index words (1024 * frame + i) }
    ensures same_length { (words : List ℕ) (frame : ℕ) (new : List ℕ) → 1024 * frame + 1024 ≤ length words
        → length new ≡ 1024 → length (with_frame words frame new) ≡ length words }
    ensures inside { (words : List ℕ) (frame : ℕ) (new : List ℕ) (i : ℕ) → 1024 * frame + 1024 ≤ length words
        → length new ≡ 1024 → i < 1024 → slice_index (with_frame words frame new) (1024 * frame + i) ≡ slice_index new i }
    ensures outside { (words : List ℕ) (frame : ℕ) (new : List ℕ) (k : ℕ) → 1024 * frame + 1024 ≤ length words
        → length new ≡ 1024 → (k < 1024 * frame) ⊎ (1024 * frame + 1024 ≤ k)
        → slice_index (with_frame words frame new) k ≡ slice_index words k }
    ensures same_frame { (words : List ℕ) (frame : ℕ) (new : List ℕ) → 1024 * frame + 1024 ≤ length words
        → length new ≡ 1024 → frame_of (with_frame words frame new) frame ≡ new }
    ensures other_frame { (words : List ℕ) (frame other : ℕ) (new : List ℕ) → 1024 * frame + 1024 ≤ length words
        → length new ≡ 1024 → other ≢ frame → frame_of (with_frame words frame new) other ≡ frame_of words other }
    ensures one_word { (words : List ℕ) (frame i value : ℕ) → 1024 * frame + 1024 ≤ length words → i < 1024
        → slice_set words (1024 * frame + i) value ≡ with_frame words frame (slice_set (frame_of words frame) i value) }
{}

//! One block of words, by its address. Only this module has a raw pointer.
ghost use Rattle.std.specs.Prelude.{◌≡◌, ℕ, ◌+◌, ◌*◌, ◌^◌, ◌<◌, ◌≤◌, List, [], ◌∷◌, ◌++◌, length, slice_set, IfOk};
ghost use denote.RawPtr.{Ptr};
ghost use Rattle.frame_store.specs.Region.{region_owns, region_lends, deed_owns};

use std::alloc::{AllocError, Allocator};
use std::marker::{Model, PhantomData};
use std::slice;

/// The block at `at`: `count` words, and after them room for `room` more.
pub(crate) struct Region {
    at: *mut u32,
    ghost count: { ℕ },
    ghost room: { ℕ },
    ghost words: { List ℕ },
}

impl Model for Region {
    ghost also_owns = { λ r. region_owns r.at r.count r.room r.words };

    ghost also_shares = { λ r _ κ. region_lends r.at r.count r.room r.words κ };
}

/// The right to give the block of `size` words at `at` back to `alloc`.
pub(crate) struct Deed<A: Allocator> {
    mark: PhantomData<A>,
    ghost at: { Ptr },
    ghost size: { ℕ },
    ghost alloc: { A },
}

impl<A: Allocator> Model for Deed<A> {
    ghost also_owns = { λ d. deed_owns (A.dealloc_token d.alloc) d.at d.size };
}

// Takes a block with room for `size` words and no word in it.
pub(crate) fn reserve<A: Allocator>(alloc: &A, size: usize) -> Result<(Region, Deed<A>), AllocError>
    requires { size * 4 < 2 ^ 63 }
    ensures { IfOk result (λ r. (r.0.count ≡ 0) × (r.0.room ≡ size) × (r.0.words ≡ []) × (r.1.at ≡ r.0.at) × (r.1.size ≡ size) × (r.1.alloc ≡ alloc.now)) }
{
    match alloc.allocate(size * 4, 4) {
        Ok(block) => {
            let at = block as *mut u32;
            let mark = PhantomData;
            Ok((Region { at }, Deed { mark }))
        }
        Err(error) => Err(error),
    }
}

// Gives the block back.
pub(crate) fn release<A: Allocator>(alloc: &A, region: Region, deed: Deed<A>, size: usize)
    requires { (deed.at ≡ region.at) × (deed.size ≡ size) × (region.count + region.room ≡ size) × (deed.alloc ≡ alloc.now) }
{
    let Region { at } = region;
    let Deed { mark: _ } = deed;
    unsafe { alloc.deallocate(at as *mut u8, size * 4, 4) };
}

impl Region {
    ghost use Rattle.std.specs.Borrow.{sem, Lends, Array, u32 as word};
    ghost use Rattle.frame_store.specs.Frame.{words_at, with_words_at};
    ghost use Rattle.frame_store.specs.contracts.region.Region.{the_row};

    // Writes the word after the `i` words that are there.
    pub(crate) fn push(&mut self, i: usize, value: u32)
        requires { (i ≡ self.old.count) × (0 < self.old.room) }
        ensures words { self.new.words ≡ self.old.words ++ value ∷ [] }
        ensures block { (self.new.at ≡ self.old.at) × (self.new.count ≡ self.old.count + 1) × (self.new.room + 1 ≡ self.old.room) }
    {
        unsafe { self.at.add(i).write(value) };
    }

    // The `count` words that are there.
    pub(crate) fn words(&self, count: usize) -> &[u32]
        requires { count ≡ self.now.count }
        ensures { result.now ≡ self.now.words }
    {
        unsafe { slice::from_raw_parts(self.at, count) }
    }

    // Sets the word at `i`.
    pub(crate) fn put(&mut self, i: usize, value: u32)
        requires { i < length self.old.words }
        ensures words { self.new.words ≡ slice_set self.old.words i value }
        ensures block { (self.new.at ≡ self.old.at) × (self.new.count ≡ self.old.count) × (self.new.room ≡ self.old.room) }
    {
        unsafe { *self.at.add(i) = value };
    }

    // The 1,024 words from `at` on, to be written in place.
    pub(crate) fn lend_at(&mut self, at: usize) -> &mut [u32; 1024]
        requires { at + 1024 ≤ length self.old.words }
        ensures* writes_back { sem 𝓛 (Lends the_row (Array word 0) self.entry result (with_words_at self.entry.now at)) }
        ensures value { result.now ≡ words_at self.old.words at }
    {
        unsafe { &mut *(self.at.add(at) as *mut [u32; 1024]) }
    }
}

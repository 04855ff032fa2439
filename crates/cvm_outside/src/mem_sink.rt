// A sink in memory, of fixed room.
ghost use Rattle.std.specs.Prelude.{◌≡◌, ◌≤◌, ◌<◌, ◌+◌, ◌++◌, length, nat_le, is_err, if◌then◌else◌, vec_len, vec_capacity, Some, IfOk, OnErr, []};
ghost use Rattle.cvm_outside.specs.Causes.{Counts};
ghost use Rattle.cvm_outside.specs.Numbering.{fresh, numbered_call};
ghost use Rattle.cvm_outside.specs.Memory.{put_fails};
ghost use Rattle.cvm_outside.specs.Told.{AppendsPart};

use crate::calls::Calls;
use crate::{Sink, SinkFault};
use std::alloc::{AllocError, Global};
use std::marker::Model;

/// The room of a sink that `MemSink::new` makes, in bytes: 1 MiB.
const ROOM: usize = 1_048_576;

/// A sink that keeps its bytes in memory. Its room is taken when it is made, so a `put` takes no
/// memory.
#[derive(Drop)]
pub struct MemSink {
    bytes: Vec<u8>,
    room: usize,
    pub(crate) calls: Calls,
}

impl Model for MemSink {
    ghost use Rattle.std.specs.Prelude.{◌≤◌, vec_len, vec_capacity};
    ghost use Rattle.cvm_outside.specs.Memory.{Written};

    ghost Value = { Written };

    ghost view = { λ s. record { text = s.bytes.items; room = s.room; calls = s.calls } };

    ghost invariant = { λ s. (vec_len s.bytes ≤ s.room) × (s.room ≤ vec_capacity s.bytes) };
}

impl MemSink {
    /// An empty sink with room for 1 MiB. The calls of `put` whose numbers, from 0, are in `fail`
    /// fail.
    ///
    /// # Errors
    ///
    /// Want of memory.
    pub fn new(alloc: Global, fail: Vec<u64>) -> Result<MemSink, AllocError>
        ensures { IfOk result (λ s. s ≡ record { text = []; room = 1048576; calls = fresh fail.items }) }
    {
        MemSink::with_room(alloc, ROOM, fail)
    }

    /// An empty sink with room for `room` bytes. The calls of `put` whose numbers, from 0, are in
    /// `fail` fail.
    ///
    /// # Errors
    ///
    /// Want of memory.
    pub fn with_room(alloc: Global, room: usize, fail: Vec<u64>) -> Result<MemSink, AllocError>
        ensures { IfOk result (λ s. s ≡ record { text = []; room = room; calls = fresh fail.items }) }
    {
        let bytes = Vec::with_capacity(alloc, room)?;
        Ok(MemSink {
            bytes,
            room,
            calls: Calls::new(fail),
        })
    }

    /// The bytes that were put, in the order of the calls.
    pub fn bytes(&self) -> &[u8]
        ensures { result.now ≡ self.now.text }
    {
        &self.bytes
    }
}

// Appends the bytes if they fit the room, and tells whether they did.
fn append(text: &mut Vec<u8>, room: usize, bytes: &[u8]) -> bool
    requires within { vec_len text.old ≤ room }
    requires taken { room ≤ vec_capacity text.old }
    ensures fits { result ≡ nat_le (vec_len text.old + length bytes.now) room }
    ensures text { text.new.items ≡ (if result then text.old.items ++ bytes.now else text.old.items) }
    ensures within { vec_len text.new ≤ room }
    ensures taken { room ≤ vec_capacity text.new }
{
    bytes.len() <= room - text.len() && text.extend_from_slice(bytes).is_ok()
}

impl Sink for MemSink {
    ghost text = { λ s. Some s.text };

    ghost faults = { λ s. s.calls.faults };

    /// Appends all the bytes, or none of them.
    ///
    /// # Errors
    ///
    /// `Failed` exactly where the number of the call is listed or the bytes have no room.
    fn put(&mut self, bytes: &[u8]) -> Result<(), SinkFault>
        ensures fails { is_err result ≡ put_fails self.old bytes.now }
        ensures text { self.new.text ≡ (if is_err result then self.old.text else self.old.text ++ bytes.now) }
        ensures room { self.new.room ≡ self.old.room }
        ensures calls { self.new.calls ≡ numbered_call self.old.calls (is_err result) }
        ensures part { OnErr result (AppendsPart (Some self.old.text) (Some self.new.text) bytes.now) }
        ensures count { Counts self.old.calls.faults self.new.calls.faults result }
    {
        if self.calls.begin() || !append(&mut self.bytes, self.room, bytes) {
            self.calls.count_fault();
            return Err(SinkFault::Failed);
        }
        Ok(())
    }
}

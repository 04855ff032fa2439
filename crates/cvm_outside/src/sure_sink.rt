// A sink in memory, where no put fails.
ghost use Rattle.std.specs.Prelude.{◌≡◌, ◌++◌, if◌then◌else◌, IsOk, None, []};
ghost use Rattle.cvm_outside.specs.Memory.{put_fails};

use crate::mem_sink::MemSink;
use crate::{Sink, SinkFault};
use std::marker::Model;

/// A sink over one in memory. It drops what finds no room there, and so it tells no contents.
#[derive(Drop)]
pub struct SureSink {
    inner: MemSink,
}

impl Model for SureSink {
    ghost use Rattle.std.specs.Prelude.{◌≡◌, []};
    ghost use Rattle.cvm_outside.specs.Memory.{Written};

    ghost Value = { Written };

    ghost view = { λ s. s.inner };

    ghost invariant = { λ s. s.inner.calls.failing ≡ [] };
}

impl SureSink {
    /// A sink over `inner`, which is to have no call that fails by its number.
    pub fn new(inner: MemSink) -> SureSink
        requires { inner.calls.failing ≡ [] }
        ensures { result ≡ inner }
    {
        SureSink { inner }
    }
}

impl Sink for SureSink {
    ghost text = { λ _. None };

    ghost faults = { λ _. 0 };

    /// Appends the bytes where they have room. There is no error.
    fn put(&mut self, bytes: &[u8]) -> Result<(), SinkFault>
        ensures sure { IsOk result }
        ensures text { self.new.text ≡ (if put_fails self.old bytes.now then self.old.text else self.old.text ++ bytes.now) }
        ensures room { self.new.room ≡ self.old.room }
    {
        let _ = self.inner.put(bytes);
        Ok(())
    }
}

// A sink that takes the first bytes of a put that fails.
ghost use Rattle.std.specs.Prelude.{Some};

use cvm_outside::{MemSink, Sink, SinkFault};

/// A sink that takes at most so many bytes of each put that fails. Where it takes any, this is a call of the sink within it, too.
#[derive(Drop)]
pub struct Partial {
    inner: MemSink,
    takes: usize,
    faults: u64,
}

impl Partial {
    /// Over a sink in memory.
    pub fn new(inner: MemSink, takes: usize) -> Partial {
        Partial {
            inner,
            takes,
            faults: 0,
        }
    }

    /// The bytes that were put.
    pub fn bytes(&self) -> &[u8] {
        self.inner.bytes()
    }
}

impl Sink for Partial {
    ghost text = { λ s. Some s.inner.text };

    ghost faults = { λ s. s.faults };

    fn put(&mut self, bytes: &[u8]) -> Result<(), SinkFault> {
        if self.inner.put(bytes).is_ok() {
            return Ok(());
        }
        if self.takes > 0 {
            let count = self.takes.min(bytes.len());
            self.inner.put(&bytes[..count]).unwrap_or(());
        }
        self.faults = self.faults.saturating_add(1);
        Err(SinkFault::Failed)
    }
}

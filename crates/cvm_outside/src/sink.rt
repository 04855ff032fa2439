// Bytes that are written out.
ghost use Rattle.std.specs.Prelude.{◌≡◌, ℕ, List, Option, OnOk, OnErr};
ghost use Rattle.std.specs.Io.KnownBytes.{append_known};
ghost use Rattle.cvm_outside.specs.Causes.{Counts};
ghost use Rattle.cvm_outside.specs.Told.{AppendsPart};

use thiserror::Error;

/// Why a put of a sink was not done.
#[derive(Clone, Copy, Debug, PartialEq, Eq, Error)]
pub enum SinkFault {
    /// Not all bytes could be put, and the sink counted a fault.
    #[error("not all bytes could be written")]
    Failed,
}

/// Bytes that are written out, in the order of the calls.
pub trait Sink {
    /// The bytes written, where they are told.
    ghost text: { Self → Option (List ℕ) };

    /// How many faults there were.
    ghost faults: { Self → ℕ };

    /// Appends the bytes. After a fault a prefix of them was appended.
    ///
    /// # Errors
    ///
    /// `Failed`, exactly where one fault more is counted.
    fn put(&mut self, bytes: &[u8]) -> Result<(), SinkFault>
        ensures whole { OnOk result (text self.new ≡ append_known (text self.old) bytes.now) }
        ensures part { OnErr result (AppendsPart (text self.old) (text self.new) bytes.now) }
        ensures count { Counts (faults self.old) (faults self.new) result };
}

// Standard output.
ghost use Rattle.std.specs.Prelude.{◌≡◌, None};

use crate::calls::Tally;
use crate::{Sink, SinkFault};
use std::io::Print;

/// A sink over standard output.
#[derive(Drop)]
pub struct OutSink<P> {
    output: P,
    tally: Tally,
}

impl<P: Print + Drop> OutSink<P> {
    /// A sink over `output`, with no fault.
    pub fn new(output: P) -> Self
        ensures { ⟦<OutSink<P> as Sink>⟧.faults result ≡ 0 }
    {
        OutSink {
            output,
            tally: Tally::new(),
        }
    }
}

impl<P: Print + Drop> Sink for OutSink<P> {
    ghost text = { λ _. None };

    ghost faults = { λ s. s.tally.faults };

    fn put(&mut self, bytes: &[u8]) -> Result<(), SinkFault> {
        match self.output.write_all(bytes) {
            Ok(()) => Ok(()),
            Err(_) => {
                self.tally.count_fault();
                Err(SinkFault::Failed)
            }
        }
    }
}

#[cfg(test)]
mod tests {
    use super::*;
    use std::fmt::Display;
    use std::test::Fail;
    use std::{fs, io};

    const NAME: &str = "out_sink.test";

    /// Stands for standard output, and appends to a file that is there.
    #[derive(Drop)]
    struct ToFile(HostRuntime);

    impl Print for ToFile {
        fn print<D: Display + Drop>(&self, _value: D) -> io::Result<()> {
            Err(io::Error::from(io::ErrorKind::Unsupported))
        }

        fn println<D: Display + Drop>(&self, _value: D) -> io::Result<()> {
            Err(io::Error::from(io::ErrorKind::Unsupported))
        }

        fn write_all(&self, bytes: &[u8]) -> io::Result<()> {
            let mut file = fs::OpenOptions::new().append(true).open(&self.0, NAME)?;
            io::Write::write_all(&mut file, bytes)
        }
    }

    fn file_is(rt: HostRuntime, bytes: &[u8]) -> io::Result<bool> {
        Ok(fs::read(&rt, NAME)?.as_slice() == bytes)
    }

    #[test]
    fn writes_all_bytes_in_order(rt: HostRuntime) -> Result<(), Fail> {
        fs::write(&rt, NAME, b"")?;
        let mut sink = OutSink::new(ToFile(rt));
        sink.put(b"turn 1\n")?;
        sink.put(&[0, 255])?;
        assert!(rt; file_is(rt, b"turn 1\n\x00\xff")?);
        assert_eq!(rt; sink.tally.faults, 0);
        fs::remove_file(&rt, NAME)?;
        assert!(rt; sink.put(b"lost").is_err());
        assert_eq!(rt; sink.tally.faults, 1);
        Ok(())
    }

    #[test]
    fn prints(rt: HostRuntime) -> Result<(), Fail> {
        OutSink::new(rt).put(b"printed\n")?;
        Ok(())
    }
}

// Single calls of the outside, each by its script.
ghost use Rattle.std.specs.Prelude.{◌≡◌, ◌∷◌, ◌<◌, [], length, OnOk};
ghost use Rattle.cvm_outside.specs.Told.{Tells, told_sector};
ghost use Rattle.cvm_outside.specs.Script.{Read, Wrote, Prints, Asks};

use crate::sectors::{DiskFault, Sectors};
use crate::sink::{Sink, SinkFault};

/// Prints a text. After a fault a prefix of it was printed.
///
/// # Errors
///
/// A fault of the sink, exactly where it counted one more.
pub fn put<O: Sink>(text: &[u8], out: &mut O) -> Result<(), SinkFault>
    ensures { Prints O.Sink out.old out.new text.now result }
{
    out.put(text)
}

/// Reads a sector, numbered from 0, into a buffer of 1,024 words, by one call. No sector changes.
///
/// # Errors
///
/// A fault of the disk, exactly where it counted one more. `into` may then hold anything.
pub fn read<D: Sectors>(sector: u32, into: &mut [u32; 1024], disk: &mut D) -> Result<(), DiskFault>
    requires { sector < D.size disk.old }
    ensures asks { Asks D.Sectors disk.old disk.new (Read sector ∷ []) result }
    ensures words { OnOk result (Tells (told_sector (D.sectors disk.old) sector) into.new) }
    ensures whole { length into.new ≡ 1024 }
{
    disk.read(sector, into)
}

/// Writes the 1,024 words of a sector, numbered from 0, by one call. The other sectors are as before.
///
/// # Errors
///
/// A fault of the disk, exactly where it counted one more. The sector may then hold anything.
pub fn write<D: Sectors>(sector: u32, from: &[u32; 1024], disk: &mut D) -> Result<(), DiskFault>
    requires { sector < D.size disk.old }
    ensures { Asks D.Sectors disk.old disk.new (Wrote sector from.now ∷ []) result }
{
    disk.write(sector, from)
}

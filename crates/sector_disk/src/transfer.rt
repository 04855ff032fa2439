// The command under way, and its transfer.
ghost use Rattle.std.specs.Prelude.{◌≡◌, ◌+◌, ◌*◌, ◌<◌, ◌≤◌, length, slice_set, ◌∷◌, [], ℕ, List, OnOk, OnErr};
ghost use Rattle.cvm_outside.specs.Script.{Read, Wrote, Asks};
ghost use Rattle.cvm_outside.specs.Told.{Tells, told_sector, with_sector};
ghost use Rattle.frame_store.specs.Words.{frame_of, with_frame};
ghost use Rattle.mips_table.specs.Device.{is_busy as is_under_way};
ghost use Rattle.sector_disk.specs.Transfers.{pending_of};

use cvm_outside::{DiskFault, Sectors};
use frame_store::{Frames, a_frame_is_its_part};

/// The command under way: how many steps end before its transfer, and the sector that it names.
#[derive(Clone, Copy)]
pub(crate) enum Transfer {
    /// No command is under way.
    Idle,
    /// A sector is being read, for so many steps yet.
    Reading { left: u64, sector: u32 },
    /// A sector is being written, for so many steps yet.
    Writing { left: u64, sector: u32 },
}

impl Transfer {
    // Whether a command is under way.
    pub(crate) fn is_busy(self) -> bool
        ensures { result ≡ is_under_way (pending_of self) }
    {
        !matches!(self, Transfer::Idle)
    }
}

// Reads a sector straight into a frame.
pub(crate) fn read_sector<D: Sectors>(
    disk: &mut D,
    sector: u32,
    frames: &mut Frames,
    buffer: u32,
) -> Result<(), DiskFault>
    requires sector { sector < D.size disk.old }
    requires frame { 1024 * buffer + 1024 ≤ length frames.old }
    ensures size { D.size disk.new ≡ D.size disk.old }
    ensures sectors { D.sectors disk.new ≡ D.sectors disk.old }
    ensures frames { frames.new ≡ with_frame frames.old buffer (frame_of frames.new buffer) }
    ensures length { length frames.new ≡ length frames.old }
    ensures words { OnOk result (Tells (told_sector (D.sectors disk.old) sector) (frame_of frames.new buffer)) }
    ensures script { Asks D.Sectors disk.old disk.new (Read sector ∷ []) result }
{
    a_frame_is_its_part();
    disk.read(sector, frames.lend_mut(buffer))
}

// Writes a frame straight to a sector.
pub(crate) fn write_sector<D: Sectors>(
    disk: &mut D,
    sector: u32,
    frames: &Frames,
    buffer: u32,
) -> Result<(), DiskFault>
    requires sector { sector < D.size disk.old }
    requires frame { 1024 * buffer + 1024 ≤ length frames.now }
    ensures size { D.size disk.new ≡ D.size disk.old }
    ensures words { OnOk result (D.sectors disk.new ≡ with_sector (D.sectors disk.old) sector (frame_of frames.now buffer)) }
    ensures torn { OnErr result ((words : List ℕ) × (D.sectors disk.new ≡ with_sector (D.sectors disk.old) sector words)) }
    ensures script { Asks D.Sectors disk.old disk.new (Wrote sector (frame_of frames.now buffer) ∷ []) result }
{
    disk.write(sector, frames.lend(buffer))
}

// Sets word `i` of a frame.
pub(crate) fn put_word(frames: &mut Frames, buffer: u32, i: u32, value: u32)
    requires word { i < 1024 }
    requires frame { 1024 * buffer + 1024 ≤ length frames.old }
    ensures words { frame_of frames.new buffer ≡ slice_set (frame_of frames.old buffer) i value }
    ensures frames { frames.new ≡ with_frame frames.old buffer (frame_of frames.new buffer) }
    ensures length { length frames.new ≡ length frames.old }
{
    a_frame_is_its_part();
    frames.lend_mut(buffer)[i as usize] = value;
}

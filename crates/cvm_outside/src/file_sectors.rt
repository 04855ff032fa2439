// The disk in the file `cvm.disk`.
ghost use Rattle.std.specs.Prelude.{◌≡◌, ◌<◌, length, None};

use crate::calls::Tally;
use crate::{DiskFault, Sectors};
use byteorder::{ByteOrder, LittleEndian};
use std::fs::{File, OpenOptions, TryLockError};
use std::io::{Read, Seek, SeekFrom, Write};
use std::{fs, io};

/// How many sectors the file has.
pub const SECTORS: u32 = 65_536;

/// The name of the file, in the current folder.
pub(crate) const DISK: &str = "cvm.disk";

/// How many bytes a sector has in the file: 1,024 words of four bytes, the least byte first.
const SECTOR_BYTES: usize = 4096;

/// A disk of 65,536 sectors in the file `cvm.disk` in the current folder. A sector past the end of
/// the file reads as zeros. The first `read` or `write` opens the file, makes it where there is
/// none, and locks it against other disks until this one is dropped; if the file can't be opened, is
/// no regular one, or another disk holds it, it is that call's fault, and the next call tries again.
#[derive(Drop)]
pub struct FileSectors {
    rt: HostRuntime,
    file: Option<File>,
    tally: Tally,
}

impl FileSectors {
    /// The disk, with its file not yet opened and no fault.
    pub fn new(rt: HostRuntime) -> Self
        ensures { ⟦<FileSectors as Sectors>⟧.faults result ≡ 0 }
    {
        FileSectors {
            rt,
            file: None,
            tally: Tally::new(),
        }
    }

    // Takes the file, which is opened and locked if it is not yet.
    fn take_file(&mut self) -> io::Result<File>
        ensures { self.new.tally ≡ self.old.tally }
    {
        match self.file.take() {
            Some(file) => Ok(file),
            None => open_disk(self.rt),
        }
    }

    // Reads a sector of the file, which stays open whether that fails or not.
    fn try_read(&mut self, i: u32, into: &mut [u32; 1024]) -> io::Result<()>
        ensures { self.new.tally ≡ self.old.tally }
    {
        let mut file = self.take_file()?;
        let result = read_sector(&mut file, i, into);
        self.file = Some(file);
        result
    }

    // Writes a sector of the file, which stays open whether that fails or not.
    fn try_write(&mut self, i: u32, from: &[u32; 1024]) -> io::Result<()>
        ensures { self.new.tally ≡ self.old.tally }
    {
        let mut file = self.take_file()?;
        let result = write_sector(&mut file, i, from);
        self.file = Some(file);
        result
    }
}

impl Sectors for FileSectors {
    ghost sectors = { λ _. None };

    ghost size = { λ _. 65536 };

    ghost sized = { λ _. tt };

    ghost faults = { λ s. s.tally.faults };

    ghost calls = { λ s. s.tally.calls };

    ghost all_calls = { λ s. s.tally.all_calls };

    fn count(&self) -> u32 {
        SECTORS
    }

    fn read(&mut self, i: u32, into: &mut [u32; 1024]) -> Result<(), DiskFault> {
        self.tally.count_call();
        match self.try_read(i, into) {
            Ok(()) => Ok(()),
            Err(_) => {
                self.tally.count_fault();
                Err(DiskFault::Failed)
            }
        }
    }

    fn write(&mut self, i: u32, from: &[u32; 1024]) -> Result<(), DiskFault> {
        self.tally.count_call();
        match self.try_write(i, from) {
            Ok(()) => Ok(()),
            Err(_) => {
                self.tally.count_fault();
                Err(DiskFault::Failed)
            }
        }
    }

    fn are_sectors(&self) {}
}

// Opens the file of the disk, made if there is none, and locks it. Where the file's system has no locks, it is taken without one. What is no regular
// file isn't opened: a device would answer with other bytes than were written.
fn open_disk(rt: HostRuntime) -> io::Result<File> {
    if let Ok(about) = fs::metadata(&rt, DISK)
        && !about.is_file()
    {
        return Err(io::Error::from(io::ErrorKind::Unsupported));
    }
    let file = OpenOptions::new()
        .read(true)
        .write(true)
        .create(true)
        .open(&rt, DISK)?;
    match file.try_lock() {
        Err(TryLockError::WouldBlock) => Err(io::Error::from(io::ErrorKind::ResourceBusy)),
        Ok(()) | Err(TryLockError::Error(_)) => Ok(file),
    }
}

// Fills the buffer as far as the file goes, and leaves zeros past its end.
fn fill<F: Read>(file: &mut F, buffer: &mut [u8; SECTOR_BYTES]) -> io::Result<()> {
    let mut filled = 0;
    for _ in 0..u64::MAX {
        if filled == SECTOR_BYTES {
            break;
        }
        let count = file.read(&mut buffer[filled..])?;
        if count == 0 {
            break;
        }
        filled += count;
    }
    Ok(())
}

// Reads the words of sector `i`, with zeros past the file's end.
fn read_sector<F: Read + Seek>(file: &mut F, i: u32, into: &mut [u32; 1024]) -> io::Result<()> {
    file.seek(SeekFrom::Start(u64::from(i) * SECTOR_BYTES as u64))?;
    let mut bytes = [0; SECTOR_BYTES];
    fill(file, &mut bytes)?;
    LittleEndian::read_u32_into(&bytes, into);
    Ok(())
}

// Writes the words of sector `i`.
fn write_sector<F: Write + Seek>(file: &mut F, i: u32, from: &[u32; 1024]) -> io::Result<()> {
    file.seek(SeekFrom::Start(u64::from(i) * SECTOR_BYTES as u64))?;
    let mut bytes = [0; SECTOR_BYTES];
    LittleEndian::write_u32_into(from, &mut bytes);
    file.write_all(&bytes)
}

#[cfg(test)]
mod tests {
    use super::*;
    use std::process::Abort;
    use std::test::Fail;

    // Whether `at` and what follows it in the file are these bytes.
    fn file_has(rt: HostRuntime, at: usize, bytes: &[u8]) -> io::Result<bool> {
        let file = fs::read(&rt, DISK)?;
        Ok(file.get(at..at.saturating_add(bytes.len())) == Some(bytes))
    }

    fn file_len(rt: HostRuntime) -> io::Result<u64> {
        Ok(fs::metadata(&rt, DISK)?.len())
    }

    // The first and the last word of a sector, and whether the others are zeros.
    fn ends(disk: &mut FileSectors, i: u32) -> Result<(u32, u32, bool), DiskFault>
        requires { i < 65536 }
    {
        let mut words = [7; 1024];
        disk.read(i, &mut words)?;
        let others = words.iter().skip(1).take(1022).all(|word| *word == 0);
        Ok((words[0], words[1023], others))
    }

    // A folder of that name can't be opened, and the next call tries again.
    fn opens_at_a_call(rt: HostRuntime, test: &impl Abort) -> Result<(), Fail> {
        let mut disk = FileSectors::new(rt);
        fs::create_dir(&rt, DISK)?;
        assert!(test; ends(&mut disk, 0).is_err());
        assert_eq!(test; disk.tally.faults, 1);
        fs::remove_dir(&rt, DISK)?;
        assert_eq!(test; ends(&mut disk, 65_535), Ok((0, 0, true)));
        assert_eq!(test; file_len(rt)?, 0);
        Ok(())
    }

    // Sector 1 is the file's second 4,096 bytes, and each word has its least byte first.
    fn writes_words(rt: HostRuntime, test: &impl Abort) -> Result<(), Fail> {
        let mut disk = FileSectors::new(rt);
        let mut words = [0; 1024];
        words[0] = 0x0403_0201;
        words[1023] = 0xffff_fffe;
        disk.write(1, &words)?;
        assert_eq!(test; file_len(rt)?, 8192);
        assert!(test; file_has(rt, 0, &[0; 4096])?);
        assert!(test; file_has(rt, 4096, &[1, 2, 3, 4, 0, 0])?);
        assert!(test; file_has(rt, 8186, &[0, 0, 254, 255, 255, 255])?);
        assert_eq!(test; ends(&mut disk, 1), Ok((0x0403_0201, 0xffff_fffe, true)));
        Ok(())
    }

    // A file that ends in the middle of a word reads as if zeros came after it.
    fn reads_zeros_past_the_end(rt: HostRuntime, test: &impl Abort) -> Result<(), Fail> {
        fs::write(&rt, DISK, &[1; 4098])?;
        let mut disk = FileSectors::new(rt);
        assert_eq!(test; ends(&mut disk, 1), Ok((0x0101, 0, true)));
        assert_eq!(test; ends(&mut disk, 2), Ok((0, 0, true)));
        assert_eq!(test; disk.tally.faults, 0);
        Ok(())
    }

    // The file of a disk that has read is no other disk's, until the first is dropped.
    fn is_held_alone(rt: HostRuntime, test: &impl Abort) -> Result<(), Fail> {
        let mut first = FileSectors::new(rt);
        let mut second = FileSectors::new(rt);
        assert!(test; ends(&mut first, 0).is_ok());
        assert!(test; ends(&mut second, 0).is_err());
        assert_eq!(test; second.tally.faults, 1);
        drop(first);
        assert!(test; ends(&mut second, 0).is_ok());
        Ok(())
    }

    #[test]
    fn keeps_words_in_the_file(rt: HostRuntime) -> Result<(), Fail> {
        opens_at_a_call(rt, &rt)?;
        writes_words(rt, &rt)?;
        reads_zeros_past_the_end(rt, &rt)?;
        is_held_alone(rt, &rt)?;
        fs::remove_file(&rt, DISK)?;
        Ok(())
    }
}

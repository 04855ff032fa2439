// Files by name.
ghost use Rattle.std.specs.Prelude.{◌≡◌, ◌<◌, ◌-◌, [], None, false, length};
ghost use Rattle.cvm_outside.specs.Told.{TOO_LONG};

use crate::calls::Tally;
use crate::file_sectors::DISK;
use crate::shelf::LONGEST_FILE;
use crate::{Shelf, ShelfFault};
use std::alloc::Global;
use std::fs::{Metadata, OpenFile};
use std::io::{ErrorKind, Read, Write};
use std::os::unix::fs::{FileTypeExt, MetadataExt};
use std::rt::Files;
use std::{fs, io};

/// How many bytes a file is read at once.
const BLOCK: usize = 4096;

/// The name under which the system has a process's standard output.
const OUTPUT: &str = "/dev/stdout";

/// A shelf over the system's files. A name is a path. No file has two roles in one run, whatever
/// names lead to it: that of the disk and standard output are neither got nor put, and one that was
/// got isn't put. Such a call fails and changes nothing.
#[derive(Drop)]
pub struct FileShelf<R: Files> {
    rt: R,
    got: Vec<Identity>,
    taken: u64,
    tally: Tally,
}

impl<R: Files + AllocGlobal + Drop> FileShelf<R> {
    /// The shelf, with nothing taken and no fault.
    pub fn new(rt: R) -> Self
        ensures taken { ⟦<FileShelf<R> as Shelf>⟧.taken result ≡ 0 }
        ensures faults { ⟦<FileShelf<R> as Shelf>⟧.faults result ≡ 0 }
    {
        let got = Vec::new(rt.alloc());
        FileShelf {
            rt,
            got,
            taken: 0,
            tally: Tally::new(),
        }
    }
}

impl<R: Files + Drop> FileShelf<R> {
    /// Whether standard output is the file of the disk.
    pub fn is_output_the_disk(&self) -> bool {
        let output = identity_of(&self.rt, OUTPUT);
        output.is_some() && output == identity_of(&self.rt, DISK)
    }

    // Opens a file that is to be got. Fails where it is the disk's or standard output; else it isn't put from then on.
    fn open_input(&self, name: &str) -> io::Result<(R::File, Option<Identity>)> {
        let file = fs::open(&self.rt, name)?;
        let which = which_file(&file.metadata()?);
        if self.is_elsewhere(which) {
            return Err(io::Error::from(ErrorKind::ResourceBusy));
        }
        Ok((file, which))
    }

    // Whether it is the disk's file or standard output.
    fn is_elsewhere(&self, file: Option<Identity>) -> bool {
        file.is_some()
            && (file == identity_of(&self.rt, DISK) || file == identity_of(&self.rt, OUTPUT))
    }

    // Whether a file of that name has another role in this run.
    fn is_in_use(&self, name: &str) -> bool {
        match identity_of(&self.rt, name) {
            Some(file) => self.is_elsewhere(Some(file))
                || self.got.iter().any(|other| *other == file),
            None => name == DISK,
        }
    }

    // Makes the file of that name hold these bytes.
    fn write_file(&self, name: &str, bytes: &[u8]) -> io::Result<()> {
        if self.is_in_use(name) {
            return Err(io::Error::from(ErrorKind::ResourceBusy));
        }
        let mut file = fs::create(&self.rt, name)?;
        file.write_all(bytes)
    }
}

impl<R: Files + Drop> Shelf for FileShelf<R> {
    ghost file = { λ _ _. None };

    ghost taken = { λ s. s.taken };

    ghost faults = { λ s. s.tally.faults };

    ghost calls = { λ s. s.tally.calls };

    ghost all_calls = { λ s. s.tally.all_calls };

    ghost gives = { λ _ _. false };

    fn get(&mut self, alloc: Global, name: &str) -> Result<Vec<u8>, ShelfFault> {
        self.taken = 0;
        self.tally.count_call();
        let Ok((mut file, which)) = self.open_input(name) else {
            self.tally.count_fault();
            return Err(ShelfFault::Failed);
        };
        if let Some(which) = which
            && self.got.push(which).is_err()
        {
            return Err(ShelfFault::Memory);
        }
        let mut bytes = Vec::new(alloc);
        let end = take_all(&mut file, &mut bytes);
        self.taken = bytes.len() as u64;
        match end {
            End::OfFile => Ok(bytes),
            End::TooLong => Err(ShelfFault::TooLong),
            End::Memory => Err(ShelfFault::Memory),
            End::Failed => {
                self.tally.count_fault();
                Err(ShelfFault::Failed)
            }
        }
    }

    fn put(&mut self, name: &str, bytes: &[u8]) -> Result<(), ShelfFault> {
        self.tally.count_call();
        match self.write_file(name, bytes) {
            Ok(()) => Ok(()),
            Err(_) => {
                self.tally.count_fault();
                Err(ShelfFault::Failed)
            }
        }
    }
}

/// Why no more bytes are taken from a file.
enum End {
    OfFile,
    TooLong,
    Failed,
    Memory,
}

// Takes the bytes of a file, but at most one more than a file may have.
fn take_all<F: Read>(file: &mut F, bytes: &mut Vec<u8>) -> End
    requires { bytes.old.items ≡ [] }
    ensures long { result ≡ End.TooLong → length bytes.new.items ≡ TOO_LONG }
    ensures short { (result ≡ End.TooLong → ⊥) → length bytes.new.items < TOO_LONG }
{
    let mut block = [0; BLOCK];
    for _ in 0..u64::MAX {
        let wanted = (LONGEST_FILE + 1 - bytes.len()).min(BLOCK);
        let Ok(count) = file.read(&mut block[..wanted]) else {
            return End::Failed;
        };
        if count == 0 {
            return End::OfFile;
        }
        if bytes.extend_from_slice(&block[..count]).is_err() {
            return End::Memory;
        }
        if bytes.len() > LONGEST_FILE {
            return End::TooLong;
        }
    }
    End::Failed
}

/// Which file it is, whatever names lead to it.
#[derive(Clone, Copy, PartialEq, Eq)]
pub(crate) struct Identity {
    device: u64,
    number: u64,
}

// Which file it is; none for a device of characters, as /dev/null and a terminal, which keeps nothing of what is written.
fn which_file(about: &Metadata) -> Option<Identity> {
    (!about.file_type().is_char_device()).then_some(Identity {
        device: about.dev(),
        number: about.ino(),
    })
}

// Which file a name leads to, if it leads to one that keeps what is written.
fn identity_of<R: Files>(rt: &R, name: &str) -> Option<Identity> {
    match fs::metadata(rt, name) {
        Ok(about) => which_file(&about),
        Err(_) => None,
    }
}

#[cfg(test)]
mod tests {
    use super::*;
    use std::process::Abort;
    use std::test::Fail;

    const NAME: &str = "file_shelf.test";

    const LINK: &str = "file_shelf.link";

    // Makes the file have `len` bytes of zeros.
    fn make(rt: HostRuntime, len: u64) -> io::Result<()> {
        fs::create(&rt, NAME)?.set_len(len)
    }

    fn file_is(rt: HostRuntime, bytes: &[u8]) -> io::Result<bool> {
        Ok(fs::read(&rt, NAME)?.as_slice() == bytes)
    }

    fn replaces_the_bytes(rt: HostRuntime, test: &impl Abort) -> Result<(), Fail> {
        let mut shelf = FileShelf::new(rt);
        shelf.put(NAME, b"abc")?;
        assert!(test; file_is(rt, b"abc")?);
        shelf.put(NAME, &[0, 255])?;
        assert!(test; file_is(rt, &[0, 255])?);
        let got = shelf.get(rt.alloc(), NAME)?;
        assert!(test; got.as_slice() == [0, 255].as_slice());
        assert_eq!(test; (shelf.taken, shelf.tally.faults), (2, 0));
        Ok(())
    }

    fn refuses_a_long_file(rt: HostRuntime, test: &impl Abort) -> Result<(), Fail> {
        let mut shelf = FileShelf::new(rt);
        make(rt, 67_108_864)?;
        assert_eq!(test; shelf.get(rt.alloc(), NAME)?.len(), 67_108_864);
        make(rt, 67_108_865)?;
        assert!(test; shelf.get(rt.alloc(), NAME).is_err());
        assert_eq!(test; (shelf.taken, shelf.tally.faults), (67_108_865, 0));
        Ok(())
    }

    fn counts_faults(rt: HostRuntime, test: &impl Abort) -> Result<(), Fail> {
        let mut shelf = FileShelf::new(rt);
        assert!(test; shelf.get(rt.alloc(), "no_folder/file").is_err());
        assert!(test; shelf.put("no_folder/file", b"abc").is_err());
        assert_eq!(test; (shelf.taken, shelf.tally.faults), (0, 2));
        Ok(())
    }

    // What was got isn't put, by a link neither, and the disk's file isn't put.
    fn keeps_roles_apart(rt: HostRuntime, test: &impl Abort) -> Result<(), Fail> {
        let mut shelf = FileShelf::new(rt);
        fs::hard_link(&rt, NAME, LINK)?;
        shelf.put(LINK, b"before")?;
        assert!(test; shelf.get(rt.alloc(), NAME).is_ok());
        assert!(test; shelf.put(LINK, b"after").is_err());
        assert!(test; shelf.put(DISK, b"after").is_err());
        assert!(test; file_is(rt, b"before")?);
        assert_eq!(test; (shelf.taken, shelf.tally.faults), (6, 2));
        fs::remove_file(&rt, LINK)?;
        Ok(())
    }

    #[test]
    fn keeps_bytes_in_files(rt: HostRuntime) -> Result<(), Fail> {
        replaces_the_bytes(rt, &rt)?;
        keeps_roles_apart(rt, &rt)?;
        refuses_a_long_file(rt, &rt)?;
        counts_faults(rt, &rt)?;
        fs::remove_file(&rt, NAME)?;
        Ok(())
    }
}

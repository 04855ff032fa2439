// The users' pages, written to their sectors, and the linked words, written into memory.
ghost use Rattle.std.specs.Prelude.{◌≡◌, ℕ, ◌+◌, ◌<◌, ◌≤◌, ◌^◌, length, slice_index};
ghost use Rattle.boot_run.specs.Loading.{pages_of_users, holding_words};
ghost use Rattle.cvm_outside.specs.Script.{Asks};
ghost use Rattle.boot_run.specs.LoadScript.{page_write_script, load_script};
ghost use Rattle.boot_run.specs.Writes.{HavePages, IsSource};

use cvm_outside::{DiskFault, Sectors};
use mips_machine::Machine;

// The word of a number, or 0 past the end.
fn word_at(words: &[u32], i: usize) -> u32
    ensures { result ≡ slice_index words.now i }
{
    words.get(i).copied().unwrap_or(0)
}

// The 1,024 words from a number on, with zeros past the end.
fn page_words(words: &[u32], first: usize) -> [u32; 1024]
    requires { first < length words.now }
    ensures long { length result ≡ 1024 }
    ensures words { (i : ℕ) → i < 1024 → slice_index result i ≡ slice_index words.now (first + i) }
{
    let mut page = [0; 1024];
    for i in 0..1024usize {
        page[i] = word_at(words, first + i);
    }
    page
}

// The words of which the sector of a number gets 1,024, and the number of the first one: those of the user whose page it is, and behind all users'
// pages further words.
fn page_source<'a>(users: &'a [Vec<u32>], per: u32, behind: &'a [u32], q: u32) -> (&'a [u32], usize)
    requires { HavePages per (length users.now) }
    ensures { IsSource (pages_of_users per users.now behind.now) q result.0.now result.1 }
{
    let pages = users.len() as u32 * per;
    if q < pages {
        return (
            users[(q / per) as usize].as_slice(),
            1024 * (q % per) as usize,
        );
    }
    (behind, 1024 * (q - pages) as usize)
}

// Writes the page of a number to its sector, by one call of the disk, if words reach into it.
//
// # Errors
//
// A fault of the disk, only where words reach into the page. Its sector may then hold anything.
fn write_page<D: Sectors>(
    users: &[Vec<u32>],
    per: u32,
    behind: &[u32],
    q: u32,
    disk: &mut D,
) -> Result<(), DiskFault>
    requires pages { HavePages per (length users.now) }
    requires inside { q < D.size disk.old }
    ensures size { D.size disk.new ≡ D.size disk.old }
    ensures script { Asks D.Sectors disk.old disk.new (page_write_script (pages_of_users per users.now behind.now) q) result }
{
    let (words, first) = page_source(users, per, behind, q);
    if first < words.len() {
        return disk.write(q, &page_words(words, first));
    }
    Ok(())
}

// Writes the users' pages to their sectors, and the pages of further words to those behind them, up to sector `most`.
//
// # Errors
//
// A fault of the disk, at which the script breaks off.
pub(crate) fn write_pages<D: Sectors>(
    users: &[Vec<u32>],
    per: u32,
    behind: &[u32],
    most: u32,
    disk: &mut D,
) -> Result<(), DiskFault>
    requires pages { HavePages per (length users.now) }
    requires room { most ≤ D.size disk.old }
    ensures size { D.size disk.new ≡ D.size disk.old }
    ensures script { Asks D.Sectors disk.old disk.new (load_script (pages_of_users per users.now behind.now) most) result }
{
    for q in 0..most {
        write_page(users, per, behind, q, disk)?;
    }
    Ok(())
}

// Writes words into memory from a place on.
pub(crate) fn put_words(machine: &mut Machine, at: u32, words: &[u32])
    requires room { at + length words.now ≤ length machine.old.hardware.memory }
    requires small { at + length words.now < 2 ^ 30 }
    ensures { machine.new ≡ holding_words machine.old at words.now }
{
    for (i, word) in words.iter().enumerate() {
        machine.set_word(4 * (at + i as u32), *word);
    }
}

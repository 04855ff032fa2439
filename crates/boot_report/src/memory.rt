// The rows of a user's memory.
ghost use Rattle.std.specs.Prelude.{◌≡◌, ◌↔◌, ◌+◌, ◌*◌, ◌/◌, ◌<◌, ◌≤◌, ◌^◌};
ghost use Rattle.std.specs.Prelude.{ℕ, [], length, slice_index, true, if◌then◌else◌, IfSome, IfOk};
ghost use Rattle.mips_machine.specs.Machine.{state_of};
ghost use Rattle.layer_map.specs.Map.{memory_frames};
ghost use Rattle.boot_report.specs.Texts.{texts, memory_row, page_text, page_word, PageShows};
ghost use Rattle.boot_report.specs.Resident.{is_resident, shown, page_reads, word_reads, word_told};
ghost use Rattle.boot_report.specs.Scripts.{of_report, pages_script};
ghost use Rattle.boot_report.specs.Stand.{CanReadPage, CanReadPages, CanReadWord};
ghost use Rattle.cvm_outside.specs.Script.{Prints, Asks, Makes};

use crate::fault::ReportFault;
use crate::rows::put_word;
use cvm_outside::single_calls::read;
use cvm_outside::{DiskFault, Sectors, Sink, SinkFault};
use layer_map::Map;
use mips_machine::Machine;
use mips_table::IS_VALID;

// The words of a page that is in this frame, or was read.
fn words_of_page<'a>(
    machine: &'a Machine,
    frame: Option<u32>,
    read: &'a [u32; 1024],
) -> &'a [u32; 1024]
    requires inside { IfSome frame (λ f. 1024 * f + 1024 ≤ length machine.now.hardware.memory) }
    ensures whole { length result.now ≡ 1024 }
    ensures words { (i : ℕ) → i < 1024 → slice_index result.now i ≡ page_word machine.now read.now frame i }
{
    match frame {
        Some(frame) => machine.frame(frame),
        None => read,
    }
}

// Whether all these words are 0. The loop has no way out before the end, so that the compiler takes many words at once.
fn are_zero(words: &[u32]) -> bool
    ensures { result ≡ true ↔ ((i : ℕ) → i < length words.now → slice_index words.now i ≡ 0) }
{
    let mut seen = 0;
    for i in 0..words.len() {
        seen |= words[i];
    }
    seen == 0
}

// Prints the rows of 64 words of a user's memory, the first of which has this number.
fn put_line<O: Sink>(words: &[u32], first: u32, out: &mut O) -> Result<(), SinkFault>
    requires whole { length words.now ≡ 64 }
    requires numbers { first + 64 ≤ 2 ^ 30 }
    ensures { Prints O.Sink out.old out.new (texts (λ i. memory_row (first + i) (slice_index words.now i)) 64) result }
{
    if are_zero(words) {
        return Ok(());
    }
    for i in 0..64u32 {
        put_word(first + i, words[i as usize], out)?;
    }
    Ok(())
}

// Prints the rows of a page, by its words.
fn put_page<O: Sink>(words: &[u32; 1024], page: u32, out: &mut O) -> Result<(), SinkFault>
    requires { page < 1024 }
    ensures { Prints O.Sink out.old out.new (page_text page (slice_index words.now)) result }
{
    for i in 0..16u32 {
        let at = 64 * i as usize;
        put_line(&words[at..at + 64], 1024 * page + 64 * i, out)?;
    }
    Ok(())
}

// Whether a page, by its number of all pages, is in a frame of the memory.
fn is_resident(machine: &Machine, map: &Map, q: u32) -> bool
    requires { CanReadPage map.now q (length machine.now.hardware.memory) (map.now.users * map.now.params.pages) }
    ensures { result ≡ is_resident map.now (state_of machine.now []) q }
{
    let entry = machine.word(map.page_tables() + 4 * q);
    entry / IS_VALID % 2 == 1 && entry / 4096 < map.memory_frames()
}

// Brings a page, by its number of all pages, where it can be read: gives its frame, or else has read its sector.
//
// # Errors
//
// A fault of the disk.
fn find_page<D: Sectors>(
    machine: &Machine,
    map: &Map,
    q: u32,
    into: &mut [u32; 1024],
    disk: &mut D,
) -> Result<Option<u32>, DiskFault>
    requires { CanReadPage map.now q (length machine.now.hardware.memory) (D.size disk.old) }
    ensures frame { IfOk result (λ o. IfSome o (λ f. f < memory_frames map.now)) }
    ensures shown { IfOk result (PageShows machine.now into.new (shown map.now (state_of machine.now []) (D.sectors disk.old) q)) }
    ensures asks { Asks D.Sectors disk.old disk.new (page_reads map.now (state_of machine.now []) q) result }
{
    if is_resident(machine, map, q) {
        return Ok(Some(machine.word(map.page_tables() + 4 * q) / 4096));
    }
    read(q, into, disk)?;
    Ok(None)
}

/// The word of a user with this number, from 0, whose page may have to be read from its sector.
///
/// # Errors
///
/// A fault of the disk.
pub fn read_user_word<D: Sectors>(
    machine: &Machine,
    map: &Map,
    user: u32,
    k: u32,
    disk: &mut D,
) -> Result<u32, DiskFault>
    requires { CanReadWord map.now user k (length machine.now.hardware.memory) (D.size disk.old) }
    ensures word { IfOk result (λ w. IfSome (word_told map.now (state_of machine.now []) (D.sectors disk.old) user k) (λ told. w ≡ told)) }
    ensures asks { Asks D.Sectors disk.old disk.new (word_reads map.now (state_of machine.now []) user k) result }
{
    let page = (user - 1) * map.params().pages + k / 1024;
    let word = (k % 1024) as usize;
    if is_resident(machine, map, page) {
        return Ok(machine.frame(machine.word(map.page_tables() + 4 * page) / 4096)[word]);
    }
    let mut words = [0; 1024];
    read(page, &mut words, disk)?;
    Ok(words[word])
}

// Prints the rows of so many pages of a user, the first of which has this number of all pages.
//
// # Errors
//
// A fault of the disk or of the sink.
pub(crate) fn put_memory<D: Sectors, O: Sink>(
    machine: &Machine,
    map: &Map,
    first: u32,
    pages: u32,
    disk: &mut D,
    out: &mut O,
) -> Result<(), ReportFault>
    requires { CanReadPages map.now first pages (length machine.now.hardware.memory) (D.size disk.old) }
    ensures { Makes O.Sink D.Sectors (out.old, disk.old) (out.new, disk.new)
        (pages_script map.now (state_of machine.now []) (D.sectors disk.old) first pages) of_report result }
{
    let mut words = [0; 1024];
    for p in 0..pages {
        let frame = find_page(machine, map, first + p, &mut words, disk)?;
        put_page(words_of_page(machine, frame, &words), p, out)?;
    }
    Ok(())
}

// Files of saved machines: what each holds. The image has 3 users of 8 pages at most, 17 frames of memory and 16,500 linked words, of which each
// is 5; the schedule gives 3 words in.

use cvm_words::push_words;
use saved_file::{SaveFault, Sizes, read};
use std::alloc::{AllocError, Global};
use std::fmt::Write;

// Why bytes are not taken up, as the program prints it.
fn put_fault(out: &mut String, fault: SaveFault) -> Result<(), AllocError> {
    write!(out, "refused {}", fault.number())?;
    match fault {
        SaveFault::Magic | SaveFault::Memory => {}
        SaveFault::Truncated { at } | SaveFault::Trailing { at } => write!(out, " {at}")?,
        SaveFault::Field { position, value } => write!(out, " {position} {value}")?,
        SaveFault::ForgedWord {
            position,
            stored,
            made,
        } => write!(out, " {position} {stored} {made}")?,
        SaveFault::SizeTooLarge { user, pages } => write!(out, " {user} {pages}")?,
        SaveFault::TurnsDone { saved, wanted } => write!(out, " {saved} {wanted}")?,
        SaveFault::SaveTooLarge { bytes } => write!(out, " {bytes}")?,
    }
    out.push('\n')
}

// What is printed of words that can be taken up: how many, the turns and the user, and whether their bytes are those of the file.
fn put_words(
    alloc: Global,
    out: &mut String,
    words: &[u32],
    bytes: &[u8],
) -> Result<(), AllocError> {
    let mut written = Vec::new(alloc);
    push_words(&mut written, words)?;
    let is_same = written.as_slice() == bytes;
    write!(out, "{} words", words.len())?;
    if let (Some(turns), Some(user)) = (words.get(5), words.get(6)) {
        write!(out, ", turns {turns}, user {user}")?;
    }
    out.push_str(if is_same {
        "\n"
    } else {
        ", written otherwise\n"
    })
}

// What is printed of bytes that are taken up for so many turns.
pub(crate) fn put_saved(
    alloc: Global,
    out: &mut String,
    bytes: &[u8],
    turns: u32,
) -> Result<(), AllocError> {
    let sizes = Sizes {
        frames: 17,
        users: 3,
        pages: 8,
    };
    let linked = vec![in alloc; 5; 16500]?;
    match read(alloc, bytes, &sizes, &[1, 2, 3], &linked, turns) {
        Ok(words) => put_words(alloc, out, &words, bytes),
        Err(fault) => put_fault(out, fault),
    }
}

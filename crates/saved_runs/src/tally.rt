// How many forged files were refused, and how the others ended.

use crate::bytes::word_of;
use crate::outside::World;
use std::alloc::{AllocError, Global};
use std::fmt::Write;

/// The command that goes on from a forged file.
const RESUME: &str = "resume img s 1000 20000 forged";

/// The number of the first refusal of a saved machine; eight more follow it.
const FIRST_REFUSAL: u32 = 100;

/// That of a linked word that differs from the image's.
const FORGED_WORD: u32 = 104;

/// How many words of a file stand before its log.
const HEAD: u32 = 56;

/// How many words stand between the log and memory: the buffer's.
const BUFFER: u32 = 1024;

// The number in the field with this number, from 0, of a row that is cut at spaces; 0 where there is none.
fn field(text: &str, number: usize) -> u32 {
    let field = text.split(' ').nth(number).unwrap_or("");
    field.trim_end().parse::<u32>().unwrap_or(0)
}

// The word of a file at this place of memory.
fn memory_word(bytes: &[u8], place: u32) -> u32 {
    let log = word_of(bytes, HEAD - 1);
    let first = HEAD.saturating_add(log).saturating_add(BUFFER);
    word_of(bytes, first.saturating_add(place))
}

/// A count of forged files.
#[derive(Drop)]
pub struct Tally {
    files: u32,
    /// How many were refused, by the number of the refusal behind the first one.
    refused: [u32; 9],
    /// The sum of the places of linked words that were told.
    places: u64,
    /// The file before it was forged.
    whole: Vec<u8>,
    /// The first file that did not end as it may.
    wrong: String,
}

impl Tally {
    /// No file yet; those to come are forged of the file `f`.
    pub fn new(alloc: Global, world: &mut World) -> Tally {
        Tally {
            files: 0,
            refused: [0; 9],
            places: 0,
            whole: world.bytes(alloc, "f"),
            wrong: String::new(alloc),
        }
    }

    /// Goes on from these bytes, and counts how that ends. The name and the number say which file it is.
    pub fn count(
        &mut self,
        alloc: Global,
        world: &mut World,
        bytes: &[u8],
        name: &str,
        number: u32,
    ) -> Result<(), AllocError> {
        world.place(alloc, "forged", bytes)?;
        let ended = world.run_aside(alloc, RESUME)?;
        self.files = self.files.saturating_add(1);
        let is_right = match ended.code {
            2 => self.count_refusal(ended.text(), bytes),
            code => code == 0 || code == 3 || code == 4,
        };
        if !is_right && self.wrong.is_empty() {
            writeln!(self.wrong, "{name} {number}: status {}", ended.code)?;
        }
        Ok(())
    }

    // Counts a refusal by its text, and tells whether it is one of a saved machine.
    fn count_refusal(&mut self, text: &str, bytes: &[u8]) -> bool {
        let number = field(text, 1);
        let place = number.wrapping_sub(FIRST_REFUSAL) as usize;
        match self.refused.get_mut(place) {
            Some(count) => *count = count.saturating_add(1),
            None => return false,
        }
        number != FORGED_WORD || self.count_word(text, bytes)
    }

    // Counts the place of a linked word by its refusal, and tells whether that tells the word of this file and the one before it was forged.
    fn count_word(&mut self, text: &str, bytes: &[u8]) -> bool {
        let place = field(text, 2);
        let stored = memory_word(bytes, place);
        let made = memory_word(&self.whole, place);
        self.places = self.places.saturating_add(u64::from(place));
        stored != made && field(text, 3) == stored && field(text, 4) == made
    }

    /// Prints the counts, and the first file that did not end as it may.
    pub fn put(&self, out: &mut String) -> Result<(), AllocError> {
        write!(out, "{} files", self.files)?;
        let mut number = FIRST_REFUSAL;
        for count in &self.refused {
            if *count > 0 {
                write!(out, ", {count} refused {number}")?;
            }
            if *count > 0 && number == FORGED_WORD {
                write!(out, " at words that add up to {}", self.places)?;
            }
            number = number.saturating_add(1);
        }
        if self.wrong.is_empty() {
            out.push_str(", the others 0, 3 or 4\n")
        } else {
            write!(out, ", but {}", self.wrong)
        }
    }
}

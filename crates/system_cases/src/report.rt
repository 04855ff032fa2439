// What a system shows at its end.

use crate::system::System;
use crate::watch::Watch;
use cvm_text::hex8;
use cvm_words::int_of;
use layer_map::{BLOCK_HI, BLOCK_LO, BLOCK_PC, BLOCK_SIZE, CURRENT, HEAP_USED, block_of};
use std::alloc::AllocError;
use std::fmt::Write;

// A name and a word.
fn put(out: &mut String, name: &str, word: u32) -> Result<(), AllocError> {
    out.push_str(name)?;
    out.push_str(" ")?;
    out.push_str(hex8(word).as_str())
}

// The number of a word, from an address on, where the word is one of so many addresses from there on.
fn number_in(word: u32, first: u32, words: u32) -> Option<u32> {
    let distance = word.checked_sub(first)?;
    if distance % 4 == 0 && distance / 4 < words {
        Some(distance / 4)
    } else {
        None
    }
}

impl System {
    // A word of the kernel: a pointer into the globals or the heap, or else an int.
    fn put_value(&self, out: &mut String, word: u32) -> Result<(), AllocError> {
        let heap_words = self.map.params().heap;
        if let Some(number) = number_in(word, self.map.globals(), self.global_words) {
            write!(out, " g{number}")
        } else if let Some(number) = number_in(word, self.map.heap(), heap_words) {
            write!(out, " h{number}")
        } else {
            let value = int_of(word);
            write!(out, " {value}")
        }
    }

    // Words of the kernel's data.
    fn put_values(
        &self,
        out: &mut String,
        name: &str,
        address: u32,
        words: u32,
    ) -> Result<(), AllocError> {
        out.push_str(name)?;
        for k in 0..words {
            self.put_value(out, self.desk.word((address / 4).wrapping_add(k)))?;
        }
        out.push_str("\n")
    }

    // A word of a user's control block.
    fn block_word(&self, user: u32, word: u32) -> u32 {
        self.desk
            .word((block_of(user.clamp(1, 64)) / 4).wrapping_add(word))
    }

    // Whether a user is the one that runs on the processor.
    fn runs(&self, user: u32) -> bool {
        self.desk.is_user() && self.desk.off().is_none() && self.desk.word(CURRENT / 4) == user
    }

    // A user's registers other than 0.
    fn put_registers(&self, out: &mut String, user: u32) -> Result<(), AllocError> {
        for register in 1..32u32 {
            let word = if self.runs(user) {
                self.desk.reg(register)
            } else {
                self.block_word(user, register)
            };
            if word != 0 {
                write!(out, " r{register}")?;
                put(out, "", word)?;
            }
        }
        Ok(())
    }

    // A user's size, pc, hi and lo.
    fn put_user(&self, out: &mut String, user: u32) -> Result<(), AllocError> {
        let pages = self.block_word(user, BLOCK_SIZE);
        write!(out, "user {user} pages {pages}")?;
        if self.runs(user) {
            put(out, " pc", self.desk.pc())?;
            put(out, " hi", self.desk.hi())?;
            put(out, " lo", self.desk.lo())?;
        } else {
            put(out, " pc", self.block_word(user, BLOCK_PC))?;
            put(out, " hi", self.block_word(user, BLOCK_HI))?;
            put(out, " lo", self.block_word(user, BLOCK_LO))?;
        }
        self.put_registers(out, user)
    }

    // The sum of a page, going on from a sum.
    fn page_sum(&mut self, number: u32, from: u32) -> u32 {
        let entry = self
            .desk
            .word((self.map.page_tables() / 4).wrapping_add(number));
        let mut sum = from;
        self.desk.view(number);
        for k in 0..1024u32 {
            let word = if entry / 0x800 % 2 == 1 {
                self.desk
                    .word((entry / 4096).wrapping_mul(1024).wrapping_add(k))
            } else {
                self.desk.viewed(k)
            };
            sum = sum.wrapping_mul(31).wrapping_add(word);
        }
        sum
    }

    // The sum of a user's words.
    fn put_sum(&mut self, out: &mut String, user: u32) -> Result<(), AllocError> {
        let most = self.map.params().pages;
        let mut sum = 0u32;
        for page in 0..self.block_word(user, BLOCK_SIZE).min(most) {
            let number = (user.wrapping_sub(1)).wrapping_mul(most).wrapping_add(page);
            sum = self.page_sum(number, sum);
        }
        put(out, " words", sum)?;
        out.push_str("\n")
    }

    /// Tells how the run ended, the kernel's data, the users and the console.
    pub fn put_report(&mut self, out: &mut String) -> Result<(), AllocError> {
        match self.desk.off() {
            Some(word) => writeln!(out, "off {word}")?,
            None => out.push_str("stopped\n")?,
        }
        self.put_values(out, "globals", self.map.globals(), self.global_words)?;
        let used = self.desk.word(HEAP_USED / 4).min(self.map.params().heap);
        self.put_values(out, "heap", self.map.heap(), used)?;
        for user in 1..self.map.users() + 1 {
            self.put_user(out, user)?;
            self.put_sum(out, user)?;
        }
        out.push_str("log")?;
        for word in self.desk.log() {
            put(out, "", *word)?;
        }
        out.push_str("\n")
    }
}

// The turn that a line of a step belongs to: the first that began then or later.
fn put_turn(out: &mut String, begins: &[u64], step: u64) -> Result<(), AllocError> {
    match begins.iter().position(|begin| *begin >= step) {
        Some(turn) => write!(out, " {turn}"),
        None => out.push_str(" -"),
    }
}

/// Tells to which turns the lines of a schedule belong, and the steps of the longest parts.
pub fn put_steps(out: &mut String, schedule: &[u8], watch: &Watch) -> Result<(), AllocError> {
    out.push_str("lines")?;
    for line in schedule.split(|c| *c == b'\n') {
        if line.starts_with(b"line ") {
            let digits = line.split(|c| *c == b' ').nth(1).unwrap_or(b"");
            let step = cvm_text::read_decimal(digits, 0).map_or(0, |read| read.0);
            put_turn(out, &watch.begins, step)?;
        }
    }
    let turns = watch.complete;
    let longest = watch.longest;
    let enter = longest.enter;
    let leave = longest.leave;
    let fault = longest.fault;
    let primitive = longest.primitive;
    writeln!(
        out,
        "\nturns {turns} steps enter {enter} leave {leave} fault {fault} primitive {primitive}"
    )
}

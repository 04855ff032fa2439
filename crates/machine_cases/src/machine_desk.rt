// A machine over a disk in memory.
ghost use Rattle.std.specs.Prelude.{◌≡◌, ◌<◌, length};

use crate::telling::{count, tell};
use cvm_outside::{DiskFault, MemSectors, Sectors};
use cvm_text::decimal_u64;
use mips_interrupts::number_of;
use mips_machine::{Event, Machine};
use schedule_file::{Schedule, read};
use std::alloc::{AllocError, Global};
use std::marker::Model;

/// How many words the memory has: 4 frames.
const WORDS: u32 = 4096;

/// The names of the special registers.
const SPECIAL: [&str; 9] = [
    "sr", "esr", "eca", "epc", "edata", "pto", "ptl", "mode", "emode",
];

/// A machine with 4 frames and its disk of eight sectors, and where its next word goes.
#[derive(Drop)]
pub struct Desk {
    machine: Machine,
    disk: MemSectors,
    next: u32,
}

impl Model for Desk {
    ghost use Rattle.mips_machine.specs.Machine.{Held};
    ghost use Rattle.machine_cases.specs.Desk.{DeskFits};

    ghost Value = { Held };

    ghost view = { λ d. d.machine };

    ghost invariant = { λ d. DeskFits 4096 8 d.machine d.disk.sectors };
}

// Appends a name and a word, if the word isn't 0.
fn tell_some(told: &mut String, name: &str, word: u32) -> Result<(), AllocError> {
    if word == 0 {
        Ok(())
    } else {
        tell(told, name, word)
    }
}

// Appends what a step was, where it was no instruction that merely ran.
fn tell_event(
    told: &mut String,
    step: u64,
    event: Result<Event, DiskFault>,
) -> Result<(), AllocError> {
    match event {
        Ok(Event::Ran) => Ok(()),
        Ok(Event::Taken(cause)) => {
            count(told, " at", step)?;
            count(told, " taken", u64::from(number_of(cause)))
        }
        Ok(Event::Power(word)) => {
            count(told, " at", step)?;
            tell(told, " power", word)
        }
        Ok(Event::Off(word)) => {
            count(told, " at", step)?;
            tell(told, " off", word)
        }
        Err(_) => count(told, " fault at", step),
    }
}

impl Desk {
    /// A machine with this schedule; the disk's calls with these digits as numbers fail.
    pub fn new(alloc: Global, schedule: &[u8], fails: &[u8]) -> Option<Desk> {
        let schedule = read(alloc, schedule).ok()?;
        let mut fail = Vec::new(alloc);
        for digit in fails {
            if digit.is_ascii_digit() {
                fail.push(u64::from(digit % 16)).ok()?;
            }
        }
        Desk::over(alloc, schedule, fail).ok()
    }

    // A machine with this schedule, over a new disk of which each word of sector 7 is 99.
    fn over(alloc: Global, schedule: Schedule, fail: Vec<u64>) -> Result<Desk, AllocError> {
        let mut desk = Desk {
            machine: Machine::new(alloc, 4, schedule)?,
            disk: MemSectors::new(alloc, 8, fail)?,
            next: 0,
        };
        let _ = desk.disk.write(7, &[99; 1024]);
        Ok(desk)
    }

    /// The next word goes to this address.
    pub fn place(&mut self, address: u32) {
        self.next = address / 4;
    }

    /// Sets the next word of memory.
    pub fn put(&mut self, word: u32) {
        if self.next < WORDS {
            self.machine.set_word(4 * self.next, word);
            self.next += 1;
        }
    }

    /// Sets all words of memory to those of another machine.
    pub fn copy_memory(&mut self, other: &Desk) {
        for word in 0..WORDS {
            self.machine
                .set_word(4 * word, other.machine.word(4 * word));
        }
    }

    // A step, unless a billion are made.
    fn step(&mut self) -> Result<Event, DiskFault> {
        if self.machine.steps() < 1_000_000_000 {
            self.machine.step(&mut self.disk)
        } else {
            Ok(Event::Ran)
        }
    }

    /// Makes so many steps.
    pub fn run(&mut self, steps: u32, told: &mut String) -> Result<(), AllocError> {
        for _ in 0..steps {
            let number = self.machine.steps();
            let event = self.step();
            tell_event(told, number, event)?;
        }
        Ok(())
    }

    /// Tells the pc, and what of the rest isn't 0.
    pub fn tell_state(&self, told: &mut String) -> Result<(), AllocError> {
        tell(told, " pc", self.machine.pc())?;
        for r in 0..32u32 {
            if self.machine.reg(r) != 0 {
                told.push_str(" r")?;
                tell(
                    told,
                    decimal_u64(u64::from(r)).as_str(),
                    self.machine.reg(r),
                )?;
            }
        }
        tell_some(told, " hi", self.machine.hi())?;
        tell_some(told, " lo", self.machine.lo())?;
        for rd in 0..9u32 {
            if self.machine.special(rd) != 0 {
                told.push_str(" ")?;
                tell(told, SPECIAL[rd as usize], self.machine.special(rd))?;
            }
        }
        count(told, " steps", self.machine.steps())
    }

    /// Tells words of memory.
    pub fn tell_words(
        &self,
        address: u32,
        words: u32,
        told: &mut String,
    ) -> Result<(), AllocError> {
        for k in 0..words {
            let word = (address / 4).wrapping_add(k);
            if word < WORDS {
                tell(told, "", self.machine.word(4 * word))?;
            }
        }
        Ok(())
    }

    /// Tells the first words of a sector.
    pub fn tell_sector(
        &mut self,
        sector: u32,
        words: u32,
        told: &mut String,
    ) -> Result<(), AllocError> {
        if sector < 8 && self.machine.view_sector(&mut self.disk, sector).is_ok() {
            for word in 0..words.min(1024) {
                tell(told, "", self.machine.viewed(word))?;
            }
        }
        Ok(())
    }

    /// Tells the length of the log, and its first words.
    pub fn tell_log(&self, words: u32, told: &mut String) -> Result<(), AllocError> {
        count(told, " length", self.machine.log().len() as u64)?;
        for word in self.machine.log().iter().take(words as usize) {
            tell(told, "", *word)?;
        }
        Ok(())
    }
}

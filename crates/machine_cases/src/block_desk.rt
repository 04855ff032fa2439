// A machine over a disk in memory, with the code that it is to run.
ghost use Rattle.std.specs.Prelude.{◌≡◌, ◌<◌, length};

use crate::telling::{count, tell};
use cvm_outside::{DiskFault, MemSectors};
use mips_machine::{Event, Machine};
use mips_table::EPC;
use schedule_file::{Schedule, read};
use std::alloc::{AllocError, Global};
use std::marker::Model;

/// How many words the memory has: 32 frames.
pub const WORDS: u32 = 32768;

/// The most words of code.
const CODE: u32 = 1024;

/// The most steps of a run.
const MOST: u32 = 100_000;

/// A machine with 32 frames and its disk of eight sectors, and where its next word of code goes.
#[derive(Drop)]
pub struct Desk {
    machine: Machine,
    disk: MemSectors,
    next: u32,
}

impl Model for Desk {
    ghost use Rattle.mips_machine.specs.Machine.{Held};
    ghost use Rattle.machine_cases.specs.Desk.{DeskFits};

    ghost Value = { Held };

    ghost view = { λ d. d.machine };

    ghost invariant = { λ d. DeskFits 32768 8 d.machine d.disk.sectors };
}

// The schedule in which the disk is busy for so many steps, a number in decimal, with each of the first ten commands.
fn schedule(alloc: Global, busy: &[u8]) -> Option<Schedule> {
    let mut text = Vec::new(alloc);
    for command in b'0'..=b'9' {
        text.extend_from_slice(b"busy ").ok()?;
        text.push(command).ok()?;
        text.push(b' ').ok()?;
        text.extend_from_slice(busy).ok()?;
        text.push(b'\n').ok()?;
    }
    read(alloc, text.as_slice()).ok()
}

impl Desk {
    /// A machine past its reset, whose disk is busy for so many steps with each of the first ten commands.
    pub fn new(alloc: Global, busy: &[u8]) -> Option<Desk> {
        let schedule = schedule(alloc, busy)?;
        let mut desk = Desk {
            machine: Machine::new(alloc, 32, schedule).ok()?,
            disk: MemSectors::new(alloc, 8, Vec::new(alloc)).ok()?,
            next: 0,
        };
        let _ = desk.step();
        Some(desk)
    }

    /// Sets words of memory from an address on, each one more than the one before.
    pub fn fill(&mut self, address: u32, count: u32, first: u32) {
        for k in 0..count {
            let word = (address / 4).wrapping_add(k);
            if word < WORDS {
                self.machine.set_word(4 * word, first.wrapping_add(k));
            }
        }
    }

    /// Appends words of code.
    pub fn append(&mut self, words: &[u32]) {
        for word in words {
            if self.next < CODE {
                self.machine.set_word(4 * self.next, *word);
                self.next += 1;
            }
        }
    }

    // A step, unless a billion are made.
    fn step(&mut self) -> Result<Event, DiskFault> {
        if self.machine.steps() < 1_000_000_000 {
            self.machine.step(&mut self.disk)
        } else {
            Ok(Event::Ran)
        }
    }

    /// Runs the code to its end, and tells the steps.
    pub fn run(&mut self, told: &mut String) -> Result<(), AllocError> {
        let mut steps = 0u64;
        for _ in 0..MOST {
            if self.machine.pc() / 4 == self.next {
                break;
            }
            let _ = self.step();
            steps = steps.saturating_add(1);
        }
        count(told, " steps", steps)?;
        tell(told, " pc", self.machine.pc())
    }

    /// Tells the registers, hi, lo, and epc.
    pub fn tell_registers(&self, told: &mut String) -> Result<(), AllocError> {
        for r in 1..32u32 {
            tell(told, "", self.machine.reg(r))?;
        }
        tell(told, " hi", self.machine.hi())?;
        tell(told, " lo", self.machine.lo())?;
        tell(told, " epc", self.machine.special(EPC))
    }

    /// Tells words of memory.
    pub fn tell_words(
        &self,
        address: u32,
        words: u32,
        told: &mut String,
    ) -> Result<(), AllocError> {
        for k in 0..words {
            let word = (address / 4).wrapping_add(k);
            if word < WORDS {
                tell(told, "", self.machine.word(4 * word))?;
            }
        }
        Ok(())
    }

    /// Tells the first and the last word of each sector.
    pub fn tell_sectors(&mut self, told: &mut String) -> Result<(), AllocError> {
        for sector in 0..8u32 {
            if self.machine.view_sector(&mut self.disk, sector).is_ok() {
                tell(told, "", self.machine.viewed(0))?;
                tell(told, "", self.machine.viewed(1023))?;
            }
        }
        Ok(())
    }
}

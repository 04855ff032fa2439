// A machine over a disk in memory.
ghost use Rattle.std.specs.Prelude.{◌≤◌};

use cvm_outside::{MemSectors, Sectors};
use mips_machine::{Event, Machine};
use mips_table::MODE;
use schedule_file::Schedule;
use std::alloc::{AllocError, Global};
use std::marker::Model;

/// A machine and its disk.
#[derive(Drop)]
pub struct Desk {
    machine: Machine,
    disk: MemSectors,
    words: u32,
    sectors: u32,
}

impl Model for Desk {
    ghost use Rattle.mips_machine.specs.Machine.{Held};
    ghost use Rattle.system_cases.specs.Desk.{DeskFits};

    ghost Value = { Held };

    ghost view = { λ d. d.machine };

    ghost invariant = { λ d. DeskFits d.words d.sectors d.machine d.disk.sectors };
}

impl Desk {
    /// A machine with so many frames of memory, at most 65,000, all 0, and a disk of so many sectors.
    pub fn new(
        alloc: Global,
        frames: u32,
        sectors: u32,
        schedule: Schedule,
    ) -> Result<Desk, AllocError>
        requires { frames ≤ 65000 }
    {
        Ok(Desk {
            machine: Machine::new(alloc, frames, schedule)?,
            disk: MemSectors::new(alloc, sectors, Vec::new(alloc))?,
            words: 1024 * frames,
            sectors,
        })
    }

    /// Sets a word of memory, by its number.
    pub fn set(&mut self, word: u32, value: u32) {
        if word < self.words && word < 0x1000_0000 {
            self.machine.set_word(4 * word, value);
        }
    }

    /// A word of memory, by its number.
    pub fn word(&self, word: u32) -> u32 {
        if word < self.words && word < 0x1000_0000 {
            self.machine.word(4 * word)
        } else {
            0
        }
    }

    /// Words go to memory, from a word on.
    pub fn place(&mut self, word: u32, words: &[u32]) {
        let mut at = word;
        for value in words {
            self.set(at, *value);
            at = at.wrapping_add(1);
        }
    }

    /// A sector gets these words.
    pub fn put_sector(&mut self, sector: u32, words: &[u32; 1024]) {
        if sector < self.sectors {
            let _ = self.disk.write(sector, words);
        }
    }

    /// Makes a sector's words the viewed ones.
    pub fn view(&mut self, sector: u32) {
        if sector < self.sectors {
            let _ = self.machine.view_sector(&mut self.disk, sector);
        }
    }

    /// A word of the viewed ones.
    pub fn viewed(&self, word: u32) -> u32 {
        if word < 1024 {
            self.machine.viewed(word)
        } else {
            0
        }
    }

    /// A step.
    pub fn step(&mut self) -> Event {
        if self.machine.steps() < 1_000_000_000 {
            self.machine.step(&mut self.disk).unwrap_or(Event::Ran)
        } else {
            Event::Ran
        }
    }

    /// The number of steps done.
    pub fn steps(&self) -> u64 {
        self.machine.steps()
    }

    /// The pc.
    pub fn pc(&self) -> u32 {
        self.machine.pc()
    }

    /// A register.
    pub fn reg(&self, register: u32) -> u32 {
        self.machine.reg(register % 32)
    }

    /// A special register.
    pub fn special(&self, register: u32) -> u32 {
        self.machine.special(register % 9)
    }

    /// Register hi.
    pub fn hi(&self) -> u32 {
        self.machine.hi()
    }

    /// Register lo.
    pub fn lo(&self) -> u32 {
        self.machine.lo()
    }

    /// The word with which the machine was switched off.
    pub fn off(&self) -> Option<u32> {
        self.machine.off()
    }

    /// The console's log.
    pub fn log(&self) -> &[u32] {
        self.machine.log()
    }

    /// Whether the machine is in user mode.
    pub fn is_user(&self) -> bool {
        self.special(MODE) == 1
    }
}

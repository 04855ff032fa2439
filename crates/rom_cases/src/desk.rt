// A machine that boots from its ROM, over a disk in memory.
ghost use Rattle.std.specs.Prelude.{◌≡◌, ◌<◌, ◌≤◌, length};

use cvm_outside::{DiskFault, MemSectors, Sectors};
use masm::instruction;
use mips_machine::{Event, Machine};
use mips_table::encode;
use schedule_file::Schedule;
use std::alloc::{AllocError, Global};
use std::marker::Model;

/// How many words the memory has: 64 frames.
const WORDS: u32 = 65536;

/// How many sectors the disk has.
const SECTORS: u32 = 64;

/// The most sectors of linked words: their frames, an empty one and the ROM's are below 64.
pub const MOST_LINKED: u32 = 40;

/// The most steps of a boot.
const MOST_STEPS: u64 = 1_000_000;

/// How many users the machine's system has: their pages are the sectors before the linked words.
pub const USERS: u32 = 2;

/// How many pages each of them has.
pub const PAGES: u32 = 3;

/// A machine with 64 frames, a disk of 64 sectors, and how many of these are linked words.
#[derive(Drop)]
pub struct Desk {
    machine: Machine,
    disk: MemSectors,
    linked: u32,
}

impl Model for Desk {
    ghost use Rattle.std.specs.Prelude.{◌≤◌};
    ghost use Rattle.mips_machine.specs.Machine.{Held};
    ghost use Rattle.rom_cases.specs.Desk.{DeskFits};

    ghost Value = { Held };

    ghost view = { λ d. d.machine };

    ghost invariant = { λ d. DeskFits 65536 64 d.machine d.disk.sectors × (d.linked ≤ 40) };
}

// The word with this number of a sector, as it is before the boot and is to stay.
fn sector_word(sector: u32, place: u32) -> u32 {
    (sector << 16).wrapping_add(place).wrapping_add(1)
}

// How many of a sector's words aren't those that it had before the boot.
fn changed_words(sector: u32, words: &[u32; 1024]) -> u32 {
    let mut count: u32 = 0;
    for (place, word) in words.iter().enumerate() {
        count = count.wrapping_add(u32::from(*word != sector_word(sector, place as u32)));
    }
    count
}

impl Desk {
    /// A machine over a full disk, of which so many sectors (`MOST_LINKED` at most) behind the users' pages are linked words. Its memory is
    /// empty but for the ROM of these words, which stands behind the frames for the linked words and one that stays empty, and for a jump
    /// to it at word 0.
    pub fn new(
        alloc: Global,
        linked: u32,
        rom: &[u32],
        schedule: Schedule,
    ) -> Result<Desk, AllocError> {
        let mut desk = Desk {
            machine: Machine::new(alloc, 64, schedule)?,
            disk: MemSectors::new(alloc, SECTORS, Vec::new(alloc))?,
            linked: linked.min(MOST_LINKED),
        };
        desk.put_rom(rom);
        for sector in 0..SECTORS {
            desk.fill_sector(sector);
        }
        Ok(desk)
    }

    // The number of the ROM's first word.
    fn rom_at(&self) -> u32
        ensures { result < 67108864 }
    {
        1024 * (self.linked + 1)
    }

    // Puts the words of the ROM, and a jump to them.
    fn put_rom(&mut self, rom: &[u32]) {
        let mut at = self.rom_at();
        self.set(0, encode(&instruction!(j at)));
        for word in rom {
            self.set(at, *word);
            at = at.wrapping_add(1);
        }
    }

    // Puts a sector's words.
    fn fill_sector(&mut self, sector: u32) {
        let mut words = [0; 1024];
        for (place, word) in words.iter_mut().enumerate() {
            *word = sector_word(sector, place as u32);
        }
        if sector < SECTORS {
            let _ = self.disk.write(sector, &words);
        }
    }

    // Sets a word by its number, if it is in memory.
    fn set(&mut self, at: u32, word: u32) {
        if at < WORDS {
            self.machine.set_word(4 * at, word);
        }
    }

    // A word by its number, and 0 where there is no memory.
    fn word(&self, at: u32) -> u32 {
        if at < WORDS {
            self.machine.word(4 * at)
        } else {
            0
        }
    }

    // A step, unless `MOST_STEPS` are made.
    fn step(&mut self) -> Result<Event, DiskFault> {
        if self.machine.steps() < MOST_STEPS {
            self.machine.step(&mut self.disk)
        } else {
            Ok(Event::Ran)
        }
    }

    /// Makes steps, the reset and one more at least, until the machine is at word 0, and tells how many it made: `MOST_STEPS` at most.
    pub fn run(&mut self) -> u64 {
        for _ in 0..MOST_STEPS {
            let _ = self.step();
            if self.machine.pc() == 0 && self.machine.steps() > 1 {
                break;
            }
        }
        self.machine.steps()
    }

    /// The pc.
    pub fn pc(&self) -> u32 {
        self.machine.pc()
    }

    /// How many of the registers, hi, lo and the special registers aren't 0.
    pub fn set_registers(&self) -> u32 {
        let mut count: u32 = 0;
        for r in 0..32 {
            count = count.wrapping_add(u32::from(self.machine.reg(r) != 0));
        }
        for rd in 0..9 {
            count = count.wrapping_add(u32::from(self.machine.special(rd) != 0));
        }
        count = count.wrapping_add(u32::from(self.machine.hi() != 0));
        count.wrapping_add(u32::from(self.machine.lo() != 0))
    }

    /// How many words of memory below the ROM aren't the linked words, and behind them 0.
    pub fn wrong_words(&self) -> u32 {
        let mut count: u32 = 0;
        for at in 0..self.rom_at() {
            let frame = at / 1024;
            let wanted = if frame < self.linked {
                sector_word((USERS * PAGES).wrapping_add(frame), at % 1024)
            } else {
                0
            };
            count = count.wrapping_add(u32::from(self.word(at) != wanted));
        }
        count
    }

    /// How many words of the ROM's frame and of all frames behind it aren't those of the ROM, and behind them 0.
    pub fn wrong_rom(&self, rom: &[u32]) -> u32 {
        let mut count: u32 = 0;
        for at in self.rom_at()..WORDS {
            let place = at.wrapping_sub(self.rom_at());
            let wanted = rom.get(place as usize).copied().unwrap_or(0);
            count = count.wrapping_add(u32::from(self.word(at) != wanted));
        }
        count
    }

    // How many words of a sector aren't as they were, or all of them where it isn't read.
    fn wrong_of_sector(&mut self, sector: u32) -> u32 {
        if sector < SECTORS && self.machine.view_sector(&mut self.disk, sector).is_ok() {
            changed_words(sector, self.machine.viewed_page())
        } else {
            1024
        }
    }

    /// How many words of the disk aren't as they were.
    pub fn wrong_sectors(&mut self) -> u32 {
        let mut count: u32 = 0;
        for sector in 0..SECTORS {
            count = count.wrapping_add(self.wrong_of_sector(sector));
        }
        count
    }

    /// The latched lines: bit j is line j. They are word 7 of the machine's saved words.
    pub fn latched(&self, alloc: Global) -> Result<u32, AllocError> {
        let mut words = vec![in alloc; 0; self.machine.state_words() as usize]?;
        self.machine.save_state(1, 1, &mut words);
        Ok(words.get(7).copied().unwrap_or(0))
    }
}

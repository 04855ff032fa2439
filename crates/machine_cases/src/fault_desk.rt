// A machine over a disk in memory, with the block in its memory.
ghost use Rattle.std.specs.Prelude.{◌≡◌, ◌<◌, ◌≤◌, length};

use crate::driver::{BEGIN, FIRST, LAST, PAGE, STORE, driver};
use crate::telling::{count, tell};
use cvm_outside::{DiskFault, MemSectors, Sectors};
use cvm_text::decimal_u64;
use layer_map::{HAND, Map, Params, SLOTS};
use mips_machine::{Event, Machine};
use mips_table::IS_VALID;
use schedule_file::{Schedule, read};
use std::alloc::{AllocError, Global};
use std::marker::Model;

/// How many words the memory has: 64 frames.
const WORDS: u32 = 65536;

/// The most steps of a run.
const MOST: u32 = 1_000_000;

/// A machine with 64 frames and a disk of 64 sectors, and where paging stands: the numbers of pages and frames, the first words of
/// the page tables and of the frame table, and the number of the zero frame.
#[derive(Drop)]
pub struct Desk {
    machine: Machine,
    disk: MemSectors,
    pages: u32,
    frames: u32,
    tables: u32,
    counts: u32,
    zeros: u32,
}

impl Model for Desk {
    ghost use Rattle.mips_machine.specs.Machine.{Held};
    ghost use Rattle.machine_cases.specs.Desk.{DeskFits, PagesFit};

    ghost Value = { Held };

    ghost view = { λ d. d.machine };

    ghost invariant = { λ d. DeskFits 65536 64 d.machine d.disk.sectors × PagesFit d.pages d.frames d.tables d.counts d.zeros };
}

impl Desk {
    /// A machine of such a system with this schedule, if there is memory, the numbers are in their ranges and the schedule is read.
    pub fn new(
        alloc: Global,
        users: u32,
        pages: u32,
        frames: u32,
        schedule: &[u8],
    ) -> Option<Desk> {
        if users > 4 || pages < 1 || pages > 16 || frames < 2 || frames > 40 {
            return None;
        }
        let params = Params {
            pages,
            frames,
            heap: 0,
            stack: 64,
        };
        let map = Map::of(&params, users, 0, 0);
        let mut desk = Desk::over(
            alloc,
            &map,
            users * pages,
            frames,
            read(alloc, schedule).ok()?,
        )
        .ok()?;
        desk.load(&map);
        Some(desk)
    }

    // The machine before the block's words are in its memory, with so many pages and frames.
    fn over(
        alloc: Global,
        map: &Map,
        pages: u32,
        frames: u32,
        schedule: Schedule,
    ) -> Result<Desk, AllocError>
        requires pages { pages ≤ 64 }
        requires frames { frames ≤ 40 }
    {
        Ok(Desk {
            machine: Machine::new(alloc, 64, schedule)?,
            disk: MemSectors::new(alloc, 64, Vec::new(alloc))?,
            pages,
            frames,
            tables: (map.page_tables() / 4).min(WORDS),
            counts: (map.frame_table() / 4).min(WORDS),
            zeros: (map.zero_frame() / 4096).min(WORDS),
        })
    }

    // The block's words go to memory.
    fn load(&mut self, map: &Map) {
        let code = driver(map);
        for (at, word) in code.words().iter().enumerate() {
            self.set(at as u32, *word);
        }
    }

    // A word by its number, and 0 where there is no memory.
    fn word(&self, at: u32) -> u32 {
        if at < WORDS {
            self.machine.word(4 * at)
        } else {
            0
        }
    }

    // Sets a word by its number, if it is in memory.
    fn set(&mut self, at: u32, word: u32) {
        if at < WORDS {
            self.machine.set_word(4 * at, word);
        }
    }

    /// Sets the entry of a page.
    pub fn set_entry(&mut self, page: u32, entry: u32) {
        self.set(self.tables.wrapping_add(page), entry);
    }

    // The word of the count of a user frame, from 1.
    fn count_at(&self, frame: u32) -> u32 {
        self.counts
            .wrapping_add(8u32.wrapping_mul(frame.wrapping_sub(1)))
    }

    /// Sets the count of a user frame, from 1.
    pub fn set_count(&mut self, frame: u32, count: u32) {
        self.set(self.count_at(frame), count);
    }

    // The word of a slot, from 0, of a user frame, from 1.
    fn slot_at(&self, frame: u32, slot: u32) -> u32 {
        self.count_at(frame).wrapping_add(1).wrapping_add(slot)
    }

    /// Sets a slot, from 0, of a user frame, from 1, to a page.
    pub fn set_slot(&mut self, frame: u32, slot: u32, page: u32) {
        self.set(self.slot_at(frame, slot), page);
    }

    /// Sets the hand to a user frame, from 0.
    pub fn set_hand(&mut self, frame: u32) {
        self.set(HAND / 4, frame);
    }

    /// Sets the words of a frame, of which 0 is the zero frame, to this one and those that follow it.
    pub fn fill_frame(&mut self, frame: u32, word: u32) {
        let first = 1024u32.wrapping_mul(self.zeros.wrapping_add(frame));
        for i in 0..1024u32 {
            self.set(first.wrapping_add(i), word.wrapping_add(i));
        }
    }

    /// Sets the words of a page's sector to this one and those that follow it.
    pub fn fill_sector(&mut self, page: u32, word: u32) {
        let mut words = [0; 1024];
        for (i, slot) in words.iter_mut().enumerate() {
            *slot = word.wrapping_add(i as u32);
        }
        if page < 64 {
            let _ = self.disk.write(page, &words);
        }
    }

    /// Sets a word of a page, in its frame.
    pub fn store(&mut self, page: u32, i: u32, word: u32) {
        let frame = self.word(self.tables.wrapping_add(page)) / 4096;
        self.set(1024u32.wrapping_mul(frame).wrapping_add(i), word);
    }

    // A step, unless a billion are made.
    fn step(&mut self) -> Result<Event, DiskFault> {
        if self.machine.steps() < 1_000_000_000 {
            self.machine.step(&mut self.disk)
        } else {
            Ok(Event::Ran)
        }
    }

    // Runs until the pc is this one, and says after how many steps.
    fn run_to(&mut self, pc: u32) -> u32 {
        for steps in 0..MOST {
            if self.machine.pc() == pc {
                return steps;
            }
            let _ = self.step();
        }
        MOST
    }

    /// Asks for a page, to store where `store` isn't 0, and tells the steps and what stands then.
    pub fn ask(&mut self, page: u32, store: u32, told: &mut String) -> Result<(), AllocError> {
        self.set(PAGE, page);
        self.set(STORE, store);
        self.set(BEGIN, 1);
        self.run_to(FIRST);
        let steps = self.run_to(LAST);
        count(told, " steps", u64::from(steps))?;
        told.push_str("\n")?;
        self.tell(told)
    }

    // A number made of the words of a frame.
    fn frame_number(&self, frame: u32) -> u32 {
        let first = 1024u32.wrapping_mul(frame);
        let mut number = 0u32;
        for i in 0..1024u32 {
            number = number
                .wrapping_mul(31)
                .wrapping_add(self.word(first.wrapping_add(i)));
        }
        number
    }

    // The same of a sector.
    fn sector_number(&mut self, sector: u32) -> u32 {
        let mut number = 0u32;
        if sector < 64 && self.machine.view_sector(&mut self.disk, sector).is_ok() {
            for i in 0..1024u32 {
                number = number.wrapping_mul(31).wrapping_add(self.machine.viewed(i));
            }
        }
        number
    }

    // The same of what a page shows.
    fn shown_number(&mut self, page: u32) -> u32 {
        let entry = self.word(self.tables.wrapping_add(page));
        if entry / IS_VALID % 2 == 1 {
            self.frame_number(entry / 4096)
        } else {
            self.sector_number(page)
        }
    }

    // The list of a user frame, from 1: the pages in the slots below its count.
    fn tell_list(&self, told: &mut String, frame: u32) -> Result<(), AllocError> {
        let listed = self.word(self.count_at(frame)).min(SLOTS);
        told.push_str(if listed == 0 { " -" } else { " " })?;
        for slot in 0..listed {
            told.push_str(if slot == 0 { "" } else { "," })?;
            told.push_str(decimal_u64(u64::from(self.word(self.slot_at(frame, slot)))).as_str())?;
        }
        Ok(())
    }

    /// Tells the hand, the entries, the counts, the lists and what the pages show.
    pub fn tell(&mut self, told: &mut String) -> Result<(), AllocError> {
        count(told, " hand", u64::from(self.word(HAND / 4)))?;
        told.push_str(" entries")?;
        for page in 0..self.pages {
            tell(told, "", self.word(self.tables.wrapping_add(page)))?;
        }
        told.push_str(" counts")?;
        for frame in 0..self.frames {
            let listed = self.word(self.count_at(frame.wrapping_add(1)));
            count(told, "", u64::from(listed))?;
        }
        told.push_str(" lists")?;
        for frame in 0..self.frames {
            self.tell_list(told, frame.wrapping_add(1))?;
        }
        self.tell_pages(told)
    }

    // The number of what each page shows.
    fn tell_pages(&mut self, told: &mut String) -> Result<(), AllocError> {
        told.push_str("\n shown")?;
        for page in 0..self.pages {
            tell(told, "", self.shown_number(page))?;
        }
        Ok(())
    }
}

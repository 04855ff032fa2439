// A machine with a kernel in its memory.
ghost use Rattle.std.specs.Prelude.{◌≡◌, ◌<◌, ◌≤◌, length};

use crate::stubs::{ARGUMENTS, PRIMITIVES, STUBS, start, stub};
use cvm_outside::{DiskFault, MemSectors};
use layer_map::{
    EXITS, HEAP_FIRST, HEAP_USED, HEAP_WORDS, LAYER_WORDS, LEAVE, Map, PRIMITIVES as ENTRIES,
    STACK_FIRST, STACK_LIMIT,
};
use mips_machine::{Event, Machine};
use schedule_file::{Schedule, read};
use std::alloc::{AllocError, Global};
use std::fmt::Write;
use std::marker::Model;

/// How many words the memory has: 256 frames.
const WORDS: u32 = 262_144;

/// The most steps of a dispatch.
const MOST: u32 = 4_000_000;

/// Parts of memory, each by its first address and its words.
#[derive(Clone, Copy, Drop)]
pub struct Parts {
    pub code_words: u32,
    pub globals: u32,
    pub global_words: u32,
    pub heap: u32,
    pub heap_words: u32,
    pub stack: u32,
    pub stack_limit: u32,
}

/// A machine with 256 frames and a disk of 8 sectors, and the parts of its memory.
#[derive(Drop)]
pub struct Desk {
    machine: Machine,
    disk: MemSectors,
    parts: Parts,
}

impl Model for Desk {
    ghost use Rattle.std.specs.Prelude.{◌≡◌, length};
    ghost use Rattle.mips_table.specs.Fits.{NamesSector};
    ghost use Rattle.mips_machine.specs.Machine.{Held};

    ghost Value = { Held };

    ghost view = { λ d. d.machine };

    ghost invariant = { λ d. (length d.machine.hardware.memory ≡ 262144) × (length d.disk.sectors ≡ 8) × NamesSector 8 d.machine.hardware.ports.pending };
}

impl Desk {
    /// A machine with these words of a kernel, whose parts stand as the map says, past its reset; unless memory is wanting.
    pub fn new(
        alloc: Global,
        map: &Map,
        code: &[u32],
        global_words: u32,
        schedule: Schedule,
    ) -> Result<Desk, AllocError> {
        let params = map.params();
        let mut desk = Desk {
            machine: Machine::new(alloc, 256, schedule)?,
            disk: MemSectors::new(alloc, 8, Vec::new(alloc))?,
            parts: Parts {
                code_words: (code.len() as u64).min(262_144) as u32,
                globals: map.globals(),
                global_words,
                heap: map.heap(),
                heap_words: params.heap,
                stack: map.stack(),
                stack_limit: map.stack_limit(),
            },
        };
        desk.load(alloc, code)?;
        let _ = desk.step();
        Ok(desk)
    }

    // Sets the word at an address, if it is in memory.
    fn set(&mut self, address: u32, word: u32) {
        if address / 4 < WORDS {
            self.machine.set_word(address / 4 * 4, word);
        }
    }

    // The word at an address, and 0 where there is no memory.
    fn word(&self, address: u32) -> u32 {
        if address / 4 < WORDS {
            self.machine.word(address / 4 * 4)
        } else {
            0
        }
    }

    // Words go to memory from an address on.
    fn place(&mut self, address: u32, words: &[u32]) {
        let mut at = address;
        for word in words {
            self.set(at, *word);
            at = at.wrapping_add(4);
        }
    }

    // The kernel, the stand-ins and the layer's variables go to memory.
    fn load(&mut self, alloc: Global, code: &[u32]) -> Result<(), AllocError> {
        self.place(0, &start(alloc)?);
        for number in 0..10u32 {
            let to = STUBS + 0x100 * number;
            self.set(ENTRIES + 4 * number, 0x0800_0000 + to / 4);
            self.place(to, &stub(alloc, number)?);
        }
        self.set(LEAVE, 0x0800_0000);
        self.place(4 * LAYER_WORDS, code);
        self.set(HEAP_WORDS, self.parts.heap_words);
        self.set(HEAP_FIRST, self.parts.heap);
        self.set(STACK_FIRST, self.parts.stack);
        self.set(STACK_LIMIT, self.parts.stack_limit);
        Ok(())
    }

    /// The arguments of the next dispatch.
    pub fn ask(&mut self, cause: u32, data: u32, user: u32) {
        self.set(ARGUMENTS, cause);
        self.set(ARGUMENTS + 4, data);
        self.set(ARGUMENTS + 8, user);
    }

    // A step, unless a billion are made.
    fn step(&mut self) -> Result<Event, DiskFault> {
        if self.machine.steps() < 1_000_000_000 {
            self.machine.step(&mut self.disk)
        } else {
            Ok(Event::Ran)
        }
    }

    // The number of a word, from an address on, where the word is one of so many addresses from there on.
    fn number_in(word: u32, first: u32, words: u32) -> Option<u32> {
        let distance = word.checked_sub(first)?;
        if distance % 4 == 0 && distance / 4 < words {
            Some(distance / 4)
        } else {
            None
        }
    }

    // A word: a pointer into the globals or the heap, or else an int.
    fn put_word(&self, out: &mut String, word: u32) -> Result<(), AllocError> {
        let parts = &self.parts;
        if let Some(number) = Desk::number_in(word, parts.globals, parts.global_words) {
            write!(out, "g{number}")
        } else if let Some(number) = Desk::number_in(word, parts.heap, parts.heap_words) {
            write!(out, "h{number}")
        } else if word >= 0x8000_0000 {
            let distance = 0u32.wrapping_sub(word);
            write!(out, "-{distance}")
        } else {
            write!(out, "{word}")
        }
    }

    // A call of a primitive, which begins now.
    fn put_call(&self, out: &mut String, number: u32) -> Result<(), AllocError> {
        let (count, name) = PRIMITIVES[(number % 10) as usize];
        write!(out, "{name}(")?;
        for i in 0..count {
            if i > 0 {
                out.push_str(", ")?;
            }
            self.put_word(out, self.machine.reg((20 + i).min(31)))?;
        }
        out.push_str(")\n")
    }

    // The machine goes on to the next exit, and each call of a primitive is told.
    fn go(&mut self, out: &mut String) -> Result<bool, AllocError> {
        for _ in 0..MOST {
            let _ = self.step();
            let pc = self.machine.pc();
            if EXITS <= pc && pc <= LEAVE {
                return Ok(true);
            }
            if ENTRIES <= pc && pc < EXITS {
                self.put_call(out, (pc - ENTRIES) / 4)?;
            }
        }
        Ok(false)
    }

    // How a dispatch ended.
    fn put_end(&self, out: &mut String, arrived: bool) -> Result<(), AllocError> {
        if !arrived {
            return out.push_str("runs on\n");
        }
        match self.machine.pc().checked_sub(EXITS) {
            Some(0) => out.push_str("fault null\n"),
            Some(4) => out.push_str("fault bounds\n"),
            Some(8) => out.push_str("fault zero\n"),
            Some(12) => out.push_str("fault stack\n"),
            _ => {
                out.push_str("left ")?;
                self.put_word(out, self.machine.reg(2))?;
                out.push('\n')
            }
        }
    }

    // How many of the words between two addresses aren't 0.
    fn others(&self, from: u32, to: u32) -> u64 {
        let mut count = 0u64;
        for k in from / 4..to / 4 {
            if self.word(k.wrapping_mul(4)) != 0 {
                count = count.saturating_add(1);
            }
        }
        count
    }

    // A number made of the words between two addresses.
    fn sum(&self, from: u32, to: u32) -> u32 {
        let mut sum = 0u32;
        for k in from / 4..to / 4 {
            sum = sum
                .wrapping_mul(31)
                .wrapping_add(self.word(k.wrapping_mul(4)));
        }
        sum
    }

    // What nobody may change: the layer's words but that of the heap's use, and the code.
    fn fixed(&self) -> (u32, u32) {
        let end = (4 * LAYER_WORDS).saturating_add(4u32.saturating_mul(self.parts.code_words));
        (self.sum(0, HEAP_USED), self.sum(HEAP_USED + 4, end))
    }

    // How many words are written outside of the parts.
    fn strays(&self) -> u64 {
        let parts = &self.parts;
        let code = (4 * LAYER_WORDS).saturating_add(4u32.saturating_mul(parts.code_words));
        let globals = parts
            .globals
            .saturating_add(4u32.saturating_mul(parts.global_words));
        let heap = parts
            .heap
            .saturating_add(4u32.saturating_mul(parts.heap_words));
        self.others(code, parts.globals)
            .saturating_add(self.others(globals, parts.heap))
            .saturating_add(self.others(heap, parts.stack))
            .saturating_add(self.others(parts.stack_limit, 4 * WORDS))
    }

    /// Calls `dispatch` with the arguments, tells how it ends, and says whether it was left.
    pub fn dispatch(&mut self, out: &mut String) -> Result<bool, AllocError> {
        let before = self.fixed();
        let arrived = self.go(out)?;
        self.put_end(out, arrived)?;
        if self.fixed() != before {
            out.push_str("words that are fixed were changed\n")?;
        }
        if self.strays() > 0 {
            out.push_str("words outside of the parts were written\n")?;
        }
        Ok(arrived && self.machine.pc() == LEAVE)
    }

    // Words from an address on.
    fn put_words(&self, out: &mut String, first: u32, count: u32) -> Result<(), AllocError> {
        for k in 0..count {
            let word = self.word(first.wrapping_add(4u32.wrapping_mul(k)));
            if count <= 64 {
                out.push(' ')?;
                self.put_word(out, word)?;
            } else if word != 0 {
                write!(out, " {k}:")?;
                self.put_word(out, word)?;
            }
        }
        out.push('\n')
    }

    /// Tells the globals.
    pub fn put_globals(&self, out: &mut String) -> Result<(), AllocError> {
        out.push_str("globals")?;
        self.put_words(out, self.parts.globals, self.parts.global_words)
    }

    /// Tells the heap as far as it is used.
    pub fn put_heap(&self, out: &mut String) -> Result<(), AllocError> {
        out.push_str("heap")?;
        self.put_words(out, self.parts.heap, self.word(HEAP_USED).min(WORDS))
    }
}

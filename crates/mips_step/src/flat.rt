// The flat memory.
ghost use Rattle.std.specs.Prelude.{◌≡◌, ℕ, ◌/◌, List, slice_set, refl};
ghost use Rattle.std.proofs.Common.{ap};
ghost use Rattle.mips_table.specs.Flat.{vstep, is_inside, flat_access, word_at};
ghost use Rattle.mips_step.specs.Ends.{BusReads};
ghost use Rattle.mips_step.specs.Flat.{vstep_of, reads_unchanged};
ghost use Rattle.mips_step.specs.View.{cpu_of};

use crate::bus::{Bus, MemoryBus};
use crate::cpu::{Cpu, Outcome};
use crate::stepping::step_in_memory;

/// A memory that is a list of words: word k stands at address 4 * k, and an address past them is refused.
#[derive(Drop)]
pub struct Flat {
    pub words: Vec<u32>,
}

impl Bus for Flat {
    ghost may_fetch = { λ s a. is_inside s.words.items a };

    ghost may_load = { λ s a. is_inside s.words.items a };

    ghost may_store = { λ s a. is_inside s.words.items a };

    ghost loads = { λ s a value t. BusReads word_at reads_unchanged s.words.items a value t.words.items };

    ghost stores = { λ s a value t. t.words.items ≡ slice_set s.words.items (a / 4) value };

    fn may_fetch(&self, a: u32) -> bool {
        (a as usize) / 4 < self.words.len()
    }

    fn may_load(&self, a: u32) -> bool {
        (a as usize) / 4 < self.words.len()
    }

    fn may_store(&self, a: u32) -> bool {
        (a as usize) / 4 < self.words.len()
    }

    fn load(&mut self, address: u32) -> u32 {
        let index = address as usize / 4;
        if index < self.words.len() {
            self.words[index]
        } else {
            0
        }
    }

    fn store(&mut self, address: u32, value: u32) {
        let index = address as usize / 4;
        if index < self.words.len() {
            self.words[index] = value;
        }
    }
}

impl MemoryBus for Flat {
    ghost View = { List ℕ };

    ghost view = { λ s. s.words.items };

    ghost access = { flat_access };

    ghost word = { word_at };

    ghost read = { reads_unchanged };

    ghost written = { λ words a value. slice_set words (a / 4) value };

    ghost fetches_seen = { λ s a. refl };

    ghost loads_seen = { λ s a. refl };

    ghost stores_seen = { λ s a. refl };

    ghost reads = { λ s a value t h. h };

    ghost writes = { λ s a value t h. h };

    ghost access_stays = { λ s a value t h. ap flat_access h.1 };
}

/// One step of the flat machine.
pub fn flat_step(cpu: &mut Cpu, flat: &mut Flat) -> Outcome
    ensures { vstep (record { cpu = cpu_of cpu.old; words = flat.old.words.items })
        ≡ vstep_of result (record { cpu = cpu_of cpu.new; words = flat.new.words.items }) }
{
    step_in_memory(cpu, flat)
}

// One step.
ghost use Rattle.std.specs.Prelude.{◌≡◌, ◌<◌, ℕ};
ghost use Rattle.mips_table.specs.Processor.{with_loaded, advanced};
ghost use Rattle.mips_table.specs.Effect.{HasRegister};
ghost use Rattle.mips_step.specs.Ends.{StepsInMemory};
ghost use Rattle.mips_step.specs.Step.{Accesses, EffectPerforms, StepsOver, took_place};
ghost use Rattle.mips_step.specs.View.{cpu_of};

use crate::bus::{Bus, MemoryBus};
use crate::cpu::{Cpu, Outcome};
use mips_table::effect::next;
use mips_table::{Cause, Effect, decode, effect_of};

/// One user instruction: a fetch, and then at most one load or one store, each only where the bus may take it.
///
/// After a trap the registers are unchanged, the bus is as its fetch alone left it, and pc is where to go on: the next
/// instruction after an overflow or a system call, and else the one that trapped. What a trap concerns is the word of the
/// instruction where it is illegal, overflows or calls, and else the address of the access.
pub fn step<B: Bus>(cpu: &mut Cpu, bus: &mut B) -> Outcome
    ensures { StepsOver B.may_fetch B.may_load B.may_store B.loads B.stores
        (cpu_of cpu.old) bus.old (record { outcome = result; cpu = cpu_of cpu.new }) bus.new }
{
    let pc = cpu.pc;
    if pc % 4 != 0 {
        return Outcome::Trap(Cause::FetchAlign, pc);
    }
    if !bus.may_fetch(pc) {
        return Outcome::Trap(Cause::FetchFault, pc);
    }
    let word = bus.load(pc);
    let Some(inst) = decode(word) else {
        return Outcome::Trap(Cause::Illegal, word);
    };
    let effect = effect_of(&inst, pc, &cpu.regs, cpu.hi, cpu.lo);
    perform(cpu, bus, word, effect)
}

// What the instruction in this word asks for.
fn perform<B: Bus>(cpu: &mut Cpu, bus: &mut B, word: u32, effect: Effect) -> Outcome
    requires { HasRegister effect }
    ensures { EffectPerforms B.may_fetch B.may_load B.may_store B.loads B.stores
        (cpu_of cpu.old) bus.old word effect (record { outcome = result; cpu = cpu_of cpu.new }) bus.new }
{
    match effect {
        Effect::Set {
            register,
            value,
            next,
        } => {
            cpu.write(register, value);
            cpu.pc = next;
            Outcome::Done
        }
        Effect::Wide { hi, lo, next } => {
            cpu.hi = hi;
            cpu.lo = lo;
            cpu.pc = next;
            Outcome::Done
        }
        Effect::Load { register, address } => load(cpu, bus, register, address),
        Effect::Store { address, value } => store(cpu, bus, address, value),
        Effect::Overflow => {
            cpu.pc = next(cpu.pc);
            Outcome::Trap(Cause::Overflow, word)
        }
        Effect::Call => {
            cpu.pc = next(cpu.pc);
            Outcome::Trap(Cause::Syscall, word)
        }
        Effect::System => Outcome::Trap(Cause::Illegal, word),
    }
}

// Loads the word at an address into a register.
#[inline(always)]
fn load<B: Bus>(cpu: &mut Cpu, bus: &mut B, register: u32, address: u32) -> Outcome
    requires { register < 32 }
    ensures { Accesses B.may_fetch B.may_load B.may_store B.loads B.stores (B.may_load bus.old address)
        (cpu_of cpu.old) address bus.old (record { outcome = result; cpu = cpu_of cpu.new }) bus.new
        ((value : ℕ) × B.loads bus.old address value bus.new
        × (record { outcome = result; cpu = cpu_of cpu.new } ≡ took_place (with_loaded (advanced (cpu_of cpu.old)) register value))) }
{
    if address % 4 != 0 {
        return Outcome::Trap(Cause::DataAlign, address);
    }
    if !bus.may_load(address) {
        return Outcome::Trap(Cause::DataFault, address);
    }
    let value = bus.load(address);
    cpu.write(register, value);
    cpu.pc = next(cpu.pc);
    Outcome::Done
}

// Stores a word at an address.
#[inline(always)]
fn store<B: Bus>(cpu: &mut Cpu, bus: &mut B, address: u32, value: u32) -> Outcome
    ensures { Accesses B.may_fetch B.may_load B.may_store B.loads B.stores (B.may_store bus.old address)
        (cpu_of cpu.old) address bus.old (record { outcome = result; cpu = cpu_of cpu.new }) bus.new
        (B.stores bus.old address value bus.new
        × (record { outcome = result; cpu = cpu_of cpu.new } ≡ took_place (advanced (cpu_of cpu.old)))) }
{
    if address % 4 != 0 {
        return Outcome::Trap(Cause::DataAlign, address);
    }
    if !bus.may_store(address) {
        return Outcome::Trap(Cause::DataFault, address);
    }
    bus.store(address, value);
    cpu.pc = next(cpu.pc);
    Outcome::Done
}

/// One user instruction over a bus that is a memory: what comes of it is the move of that memory, over what the fetch left.
pub fn step_in_memory<B: MemoryBus>(cpu: &mut Cpu, bus: &mut B) -> Outcome
    ensures { StepsInMemory B.access B.word B.read B.written
        (cpu_of cpu.old) (B.view bus.old) (record { outcome = result; cpu = cpu_of cpu.new }) (B.view bus.new) }
{
    step(cpu, bus)
}

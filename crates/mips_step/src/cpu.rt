// The processor's state.
ghost use Rattle.std.specs.Prelude.{◌≡◌, ◌<◌, slice_index};

use mips_table::Cause;

/// How a step ended.
#[derive(Clone, Copy, Debug)]
pub enum Outcome {
    /// The instruction took place.
    Done,
    /// It trapped: the cause, and the word or the address that it concerns.
    Trap(Cause, u32),
}

/// The processor: the pc, the registers 0 to 31, of which register 0 is 0, and the registers hi and lo.
#[derive(Clone, Copy)]
pub struct Cpu {
    pub pc: u32,
    pub regs: [u32; 32],
    pub hi: u32,
    pub lo: u32,
    pub ghost zero: { slice_index regs 0 ≡ 0 },
}

impl Cpu {
    ghost use Rattle.mips_table.specs.Processor.{with_loaded};
    ghost use Rattle.mips_step.specs.View.{cpu_of};

    /// Writes a register. Register 0 stays as it is.
    pub fn write(&mut self, register: u32, value: u32)
        requires { register < 32 }
        ensures { cpu_of self.new ≡ with_loaded (cpu_of self.old) register value }
    {
        if register != 0 {
            self.regs[register as usize] = value;
        }
    }
}

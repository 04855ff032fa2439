//! Interrupts: the special registers, how an interrupt is taken, and how
//! `eret` leaves it.
//!
//! Source: Paul, Baumann, Lutsyk, Schmaltz, "System Architecture", for the
//! registers and what is saved in them; their numbers and the causes' are this
//! project's own.
#![tactic(auto)]

ghost use Rattle.std.specs.Prelude.{◌≡◌, slice_index};
ghost use Rattle.mips_table.specs.Machine.{cause_number as number_in, taken, left};

use mips_table::Cause;

/// The number of sr: 1 says that external interrupts are taken.
pub const SR: usize = mips_table::SR as usize;
/// The number of esr: sr before the interrupt.
pub const ESR: usize = mips_table::ESR as usize;
/// The number of eca: the cause.
pub const ECA: usize = mips_table::ECA as usize;
/// The number of epc: where to go on after the interrupt.
pub const EPC: usize = mips_table::EPC as usize;
/// The number of edata: what the cause concerns.
pub const EDATA: usize = mips_table::EDATA as usize;
/// The number of pto: the physical address of the page table, in bytes.
pub const PTO: usize = mips_table::PTO as usize;
/// The number of ptl: how many pages the page table has.
pub const PTL: usize = mips_table::PTL as usize;
/// The number of mode: 0 in system mode, and 1 in user mode.
pub const MODE: usize = mips_table::MODE as usize;
/// The number of emode: mode before the interrupt.
pub const EMODE: usize = mips_table::EMODE as usize;

/// The nine special registers, by their numbers.
#[derive(Clone, Copy, Debug, PartialEq, Eq)]
pub struct Special {
    /// The registers' words.
    pub regs: [u32; 9],
}

/// Takes an interrupt with a cause that concerns `edata`: saves sr and mode,
/// turns external interrupts off, goes to system mode, and answers the new pc,
/// which is 0. Here `pc` is where to go on afterwards: behind an overflow or a
/// system call, and else at the instruction that was interrupted.
pub fn take(pc: u32, special: &mut Special, cause: Cause, edata: u32) -> u32
    ensures special { special.new.regs ≡ taken special.old.regs (number_in cause) edata pc }
    ensures pc { result ≡ 0 }
{
    let regs = special.regs;
    special.regs = [
        0,
        regs[SR],
        number_of(cause),
        pc,
        edata,
        regs[PTO],
        regs[PTL],
        0,
        regs[MODE],
    ];
    0
}

/// Leaves an interrupt, as `eret` does: gives sr and mode back, and answers the
/// new pc, which is epc.
pub fn leave(special: &mut Special) -> u32
    ensures special { special.new.regs ≡ left special.old.regs }
    ensures pc { result ≡ slice_index special.old.regs EPC }
{
    special.regs[SR] = special.regs[ESR];
    special.regs[MODE] = special.regs[EMODE];
    special.regs[EPC]
}

/// The number of a cause, from 0 to 8: where several causes stand together, the
/// one with the least number comes.
pub fn number_of(cause: Cause) -> u32
    ensures { result ≡ number_in cause }
{
    match cause {
        Cause::Reset => 0,
        Cause::External => 1,
        Cause::FetchAlign => 2,
        Cause::FetchFault => 3,
        Cause::Illegal => 4,
        Cause::Overflow => 5,
        Cause::Syscall => 6,
        Cause::DataAlign => 7,
        Cause::DataFault => 8,
    }
}

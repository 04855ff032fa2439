// The words of a few blocks, and what the routines of a kernel answer, run by the processor's step.

use c0_asm_body::emit_asm;
use c0_runtime::emit_runtime;
use c0_runtime::runtime::{DIVIDE, MULTIPLY, REMAINDER, RUNTIME_WORDS};
use masm::copying::copy_words;
use masm::registers::{ANSWER, ARGUMENTS, CodeAddresses, RETURN, SCRATCH};
use masm::roles::{T0, T1, ZERO};
use masm::waiting::wait_for_disk;
use masm::{Block, block};
use mips_step::{Cpu, Flat, step};
use std::alloc::{AllocError, Global};
use std::fmt::Write;

// Prints the words of a block under its name.
fn put_words(out: &mut String, name: &str, words: &[u32]) -> Result<(), AllocError> {
    writeln!(out, "{name}")?;
    for word in words {
        writeln!(out, "{:08x}", *word)?;
    }
    Ok(())
}

// ANSWER becomes 1 and the routine returns where T0 isn't 0; else ANSWER becomes 0.
fn condition() -> Block<4> {
    block! {
        when T0 {
            addiu ANSWER, ZERO, 1;
            jr RETURN;
        }
        addu ANSWER, ZERO, ZERO;
    }
}

// T0 is raised to T1.
fn count() -> Block<4> {
    let test: Block<1> = block! {
        sltu SCRATCH, T0, T1;
    };
    let body: Block<1> = block! {
        addiu T0, T0, 1;
    };
    let mut code = Block::<4>::new();
    code.loop_while(&test, SCRATCH, &body);
    code
}

// What the routine that stands at a word answers on two operands: it is run until it returns, behind the routines, or for eight steps.
fn answer(alloc: Global, routine: u32, left: u32, right: u32) -> Result<u32, AllocError> {
    let addresses = CodeAddresses {
        globals: 0,
        faults: [0, 0, 0, 0],
        multiply: 0,
        divide: 0,
        remainder: 0,
        new_object: 0,
        functions: Vec::new(alloc),
        primitives: Vec::new(alloc),
    };
    let mut words = Vec::new(alloc);
    emit_runtime(alloc, &addresses, &mut words)?;
    let mut memory = Flat { words };
    let mut cpu = Cpu {
        pc: routine.wrapping_mul(4),
        regs: [0; 32],
        hi: 0,
        lo: 0,
    };
    cpu.write(ARGUMENTS, left);
    cpu.write(ARGUMENTS + 1, right);
    cpu.write(RETURN, 4 * RUNTIME_WORDS);
    for _ in 0..8 {
        if cpu.pc != 4 * RUNTIME_WORDS {
            let _ = step(&mut cpu, &mut memory);
        }
    }
    Ok(cpu.regs[ANSWER as usize])
}

// Prints what a routine answers on two operands.
fn put_answer(
    out: &mut String,
    alloc: Global,
    name: &str,
    routine: u32,
    left: u32,
    right: u32,
) -> Result<(), AllocError> {
    let answer = answer(alloc, routine, left, right)?;
    writeln!(out, "{name} {:08x} {:08x} {:08x}", left, right, answer)
}

// Prints the word of `addu r2, r4, r5`.
fn put_asm(out: &mut String, alloc: Global) -> Result<(), AllocError> {
    let mut code = Vec::new(alloc);
    emit_asm(alloc, &[0x0085_1021], &mut code)?;
    put_words(out, "asm", &code)
}

// What is printed of them.
pub(crate) fn put_routines(alloc: Global, out: &mut String) -> Result<(), AllocError> {
    put_words(out, "nothing", Block::<0>::new().words())?;
    put_words(out, "condition", condition().words())?;
    put_words(out, "count", count().words())?;
    put_words(out, "copy", copy_words().words())?;
    put_words(out, "wait", wait_for_disk().words())?;
    let least = 0x8000_0000;
    put_answer(out, alloc, "product", MULTIPLY, least, 0xffff_ffff)?;
    put_answer(out, alloc, "quotient", DIVIDE, least, 0xffff_ffff)?;
    put_answer(out, alloc, "remainder", REMAINDER, least, 0xffff_ffff)?;
    put_answer(out, alloc, "quotient", DIVIDE, 0xffff_fff9, 2)?;
    put_answer(out, alloc, "remainder", REMAINDER, 0xffff_fff9, 2)?;
    put_asm(out, alloc)
}

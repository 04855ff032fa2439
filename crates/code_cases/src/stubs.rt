// The code that stands in for the layer.

use std::alloc::{AllocError, Global};
use std::vec::Vec;

/// The address of the first argument of a dispatch: the start loads the arguments from there.
pub const ARGUMENTS: u32 = 0x1100;

/// The address of the first primitive's stand-in. Each has 0x100 bytes.
pub const STUBS: u32 = 0x3000;

/// How many arguments a primitive takes, and its name.
pub const PRIMITIVES: [(u32, &str); 10] = [
    (2, "vm_get"),
    (3, "vm_set"),
    (1, "vm_size"),
    (2, "vm_resize"),
    (2, "vm_word"),
    (3, "vm_put"),
    (5, "vm_copy"),
    (1, "con_put"),
    (0, "con_get"),
    (0, "con_left"),
];

// The instruction that makes a register 0xdead0000.
fn spoil(register: u32) -> u32 {
    0x3c00_dead + 0x1_0000 * (register % 32)
}

/// The code at address 0: it loads the arguments, gives the other registers a word, and enters the kernel.
pub fn start(alloc: Global) -> Result<Vec<u32>, AllocError> {
    let mut code = [0x8c14_1100, 0x8c15_1104, 0x8c16_1108].to_vec(alloc)?;
    for register in 1..20u32 {
        code.push(spoil(register))?;
    }
    for register in 23..32u32 {
        code.push(spoil(register))?;
    }
    code.push(0x0060_0011)?;
    code.push(0x0060_0013)?;
    code.push(0x0800_4000)?;
    Ok(code)
}

// The instructions that give the answer of a primitive in register 2.
fn answer(alloc: Global, number: u32) -> Result<Vec<u32>, AllocError> {
    let more = 100 * (number % 10);
    match number {
        0 | 4 => [0x0295_1021, 0x2442_0000 + more].to_vec(alloc),
        2 => [0x2682_0000 + more].to_vec(alloc),
        8 | 9 => [0x2402_0000 + more].to_vec(alloc),
        _ => [0x0014_102a].to_vec(alloc),
    }
}

/// The stand-in of a primitive: its answer, words in the registers that it may change, and the return.
pub fn stub(alloc: Global, number: u32) -> Result<Vec<u32>, AllocError> {
    let mut code = answer(alloc, number)?;
    code.push(spoil(1))?;
    for register in 3..28u32 {
        code.push(spoil(register))?;
    }
    code.push(0x0060_0011)?;
    code.push(0x0060_0013)?;
    code.push(0x03e0_0008)?;
    Ok(code)
}

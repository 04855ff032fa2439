// The special registers, by the numbers that mfc0 and mtc0 name, and the bits of a page table's entry.

/// 1 says that external interrupts are taken.
pub const SR: u32 = 0;

/// SR before the interrupt: what SR becomes at an eret.
pub const ESR: u32 = 1;

/// The cause of the interrupt.
pub const ECA: u32 = 2;

/// The pc before the interrupt: where an eret goes.
pub const EPC: u32 = 3;

/// The address or the word that the interrupt concerns.
pub const EDATA: u32 = 4;

/// The physical address of the current user's page table.
pub const PTO: u32 = 5;

/// The number of pages of the current user.
pub const PTL: u32 = 6;

/// The mode: 0 is system mode, 1 is user mode.
pub const MODE: u32 = 7;

/// The mode before the interrupt: what MODE becomes at an eret.
pub const EMODE: u32 = 8;

/// The number of the bit of an entry that says that it is valid.
pub const VALID_BIT: u32 = 11;

/// That bit as a mask.
pub const IS_VALID: u32 = 1 << VALID_BIT;

/// The number of the bit of an entry that says that its page is protected, so no store goes there.
pub const PROTECTED_BIT: u32 = 10;

/// That bit as a mask.
pub const IS_PROTECTED: u32 = 1 << PROTECTED_BIT;

// The registers that say what a step was, by the numbers that the machine takes: special ones, and those of a call of a primitive; and a cause.

/// The cause of the last interrupt.
pub(crate) const ECA: u32 = mips_table::ECA;

/// The number of the cause of an interrupt from outside. It has no row in a trace, and neither has the reset before it.
pub(crate) const EXTERNAL: u32 = 1;

/// What it concerns.
pub(crate) const EDATA: u32 = mips_table::EDATA;

/// The number of pages of the user that runs.
pub(crate) const PTL: u32 = mips_table::PTL;

/// The mode: 0 in system mode, 1 in user mode.
pub(crate) const MODE: u32 = mips_table::MODE;

/// The register of a primitive's first argument at its entry. The further ones have their arguments in the registers after it.
pub(crate) const ARGUMENT: u32 = layer_contract::ARGUMENT as u32;

/// The register of a primitive's return address at its entry.
pub(crate) const RETURN: u32 = layer_contract::RETURN as u32;

/// The register of a primitive's answer.
pub(crate) const ANSWER: u32 = layer_contract::ANSWER as u32;

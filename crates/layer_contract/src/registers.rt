// The registers in which the layer and the kernel's code pass words.

/// The register of an entry's first argument. The further ones have their arguments in the registers after it.
pub const ARGUMENT: usize = layer_map::ARGUMENTS as usize;

/// The register of an answer: of a primitive that has returned, and of `dispatch` at the entry Leave.
pub const ANSWER: usize = layer_map::ANSWER as usize;

/// The register of a primitive's return address at its entry.
pub const RETURN: usize = layer_map::RETURN as usize;

/// The registers that a primitive leaves as they were at its entry.
pub const KEPT: [usize; 3] = [
    layer_map::GLOBALS as usize,
    layer_map::FRAME_END as usize,
    layer_map::STACK_END as usize,
];

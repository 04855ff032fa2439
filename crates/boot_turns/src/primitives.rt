// The primitives whose ends have rows in a trace, by their numbers in the kernel's table of primitives.

/// `vm_set` puts a register of a user.
pub(crate) const VM_SET: u32 = 1;

/// `vm_resize` puts the size of a user's memory in pages.
pub(crate) const VM_RESIZE: u32 = 3;

/// `vm_put` puts a word of a user's memory.
pub(crate) const VM_PUT: u32 = 5;

/// `vm_copy` copies words from one user to another.
pub(crate) const VM_COPY: u32 = 6;

// The parameters of a system.

/// The parameters of a system.
#[derive(Clone, Copy, Debug, PartialEq, Eq)]
pub struct Params {
    /// The most pages that a user may have, 1 to 1,024.
    pub pages: u32,
    /// The number of user frames, 2 to 16,384.
    pub frames: u32,
    /// The words of the kernel's heap, 0 to 1,048,576.
    pub heap: u32,
    /// The words of the kernel's stack, 64 to 262,144.
    pub stack: u32,
}

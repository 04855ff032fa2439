// Where the layer and the kernel's code meet.

/// Where the layer and the kernel's code meet.
#[derive(Clone, Copy, Debug, PartialEq, Eq)]
pub enum Entry {
    /// The kernel's `dispatch` is called.
    Dispatch,
    /// A primitive is called, by its number in the table of primitives, 0 to 9.
    Primitive(u32),
    /// The kernel met the fault of this power word, 1 to 4.
    Fault(u32),
    /// `dispatch` has answered.
    Leave,
}

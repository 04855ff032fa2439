// What users find in their registers.

ghost use Rattle.kernel_theorems.specs.Registers.{SetsAreFound};

/// A law: what a kernel puts into a register of one of its users by `vm_set`, that user finds, and nothing else changes.
pub fn sets_are_found()
    ensures { SetsAreFound }
{}

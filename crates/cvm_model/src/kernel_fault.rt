// The faults of a kernel.

ghost use Rattle.std.specs.Prelude.{◌≡◌};
ghost use Rattle.cvm_model.specs.Kernel.{power_of};
ghost use Rattle.cvm_model.specs.Text.{fault_name};

/// The faults of a kernel, each of which ends the run.
#[derive(Clone, Copy, Debug, PartialEq, Eq)]
pub enum KernelFault {
    /// The object of a null pointer is used.
    NullUse,
    /// An index is below 0 or not below the array's length.
    Bounds,
    /// A division by 0.
    DivZero,
    /// A call has no room on the stack.
    StackOut,
    /// The answer of `dispatch` is neither 0 nor a user.
    BadUser,
}

impl KernelFault {
    /// Its name, as it is printed.
    pub fn name(self) -> &'static str
        ensures { result.now ≡ fault_name self }
    {
        match self {
            KernelFault::NullUse => "NullUse",
            KernelFault::Bounds => "Bounds",
            KernelFault::DivZero => "DivZero",
            KernelFault::StackOut => "StackOut",
            KernelFault::BadUser => "BadUser",
        }
    }

    /// The word that is written to the power port where it ends the run, 1 to 5.
    pub fn power(self) -> u32
        ensures { result ≡ power_of self }
    {
        match self {
            KernelFault::NullUse => 1,
            KernelFault::Bounds => 2,
            KernelFault::DivZero => 3,
            KernelFault::StackOut => 4,
            KernelFault::BadUser => 5,
        }
    }
}

// Where faults leave.

ghost use Rattle.std.specs.Prelude.{◌≡◌, ◌<◌, ◌^◌, [], ◌∷◌, All};
ghost use Rattle.masm.specs.CodeAddresses.{IsJumpTarget};

/// The addresses of the exits of faults, in bytes, each below 2^28.
#[derive(Clone, Copy, Debug)]
pub struct FaultExits {
    /// That of a use of null.
    pub null_use: u32,
    /// That of an index out of bounds.
    pub bounds: u32,
    /// That of a division by zero.
    pub zero_division: u32,
    /// That of a want of stack.
    pub stack: u32,
    ghost small: { (null_use < 2 ^ 28) × (bounds < 2 ^ 28) × (zero_division < 2 ^ 28) × (stack < 2 ^ 28) },
}

impl FaultExits {
    /// Those at these addresses, in the order of their power words.
    pub fn new(faults: [u32; 4]) -> FaultExits
        requires { All IsJumpTarget faults }
        ensures { result.null_use ∷ result.bounds ∷ result.zero_division ∷ result.stack ∷ [] ≡ faults }
    {
        let [null_use, bounds, zero_division, stack] = faults;
        FaultExits {
            null_use,
            bounds,
            zero_division,
            stack,
        }
    }
}

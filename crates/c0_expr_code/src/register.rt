// Registers.

ghost use Rattle.std.specs.Prelude.{◌≡◌, ◌<◌};

use std::marker::Model;

/// A register of the processor, seen as its number, 0 to 31.
#[derive(Clone, Copy, Debug)]
pub struct Register {
    number: u32,
}

impl Model for Register {
    ghost use Rattle.std.specs.Prelude.{ℕ, ◌<◌};

    ghost Value = { ℕ };

    ghost view = { λ r. r.number };

    ghost invariant = { λ r. r.number < 32 };

    ghost inverse = { λ n. record { number = n } };
}

impl Register {
    /// The register of this number, 0 to 31.
    pub fn new(number: u32) -> Register
        requires { number < 32 }
        ensures { result ≡ number }
    {
        Register { number }
    }

    /// Its number, 0 to 31.
    pub fn number(self) -> u32
        ensures value { result ≡ self }
        ensures small { result < 32 }
    {
        self.number
    }
}

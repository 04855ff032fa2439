// The eight lines.

ghost use Rattle.std.specs.Prelude.{⊤, ◌≡◌, ◌<◌, ◌^◌, [], ◌∷◌, codes};

use bitflags::{Flag, Flags, bitflag_items};

/// A set of the eight interrupt lines: bit J is the line J.
#[derive(Clone, Copy, Debug, PartialEq, Eq)]
pub struct Lines(pub u8);

bitflag_items! {
    impl Lines: u8 {
        const LINE_0 = 1;
        const LINE_1 = 2;
        const LINE_2 = 4;
        const LINE_3 = 8;
        const LINE_4 = 16;
        const LINE_5 = 32;
        const LINE_6 = 64;
        const LINE_7 = 128;
    }
}

impl Flags for Lines {
    type Bits = u8;

    ghost exact = { ⊤ };

    ghost table = { (codes "LINE_0", 1) ∷ (codes "LINE_1", 2) ∷ (codes "LINE_2", 4) ∷ (codes "LINE_3", 8)
        ∷ (codes "LINE_4", 16) ∷ (codes "LINE_5", 32) ∷ (codes "LINE_6", 64) ∷ (codes "LINE_7", 128) ∷ [] };

    ghost set_of = { λ lines. lines.0 };

    fn flags<'a>() -> &'a [Flag<Lines>] {
        Lines::FLAGS
    }

    fn bits(&self) -> u8 {
        self.0
    }

    fn from_bits_retain(bits: u8) -> Lines {
        Lines(bits)
    }
}

impl Lines {
    /// The line with the number `line`, 0 to 7, alone.
    pub fn only(line: u8) -> Lines
        requires { line < 8 }
        ensures { result.0 ≡ 2 ^ line }
    {
        Lines(1 << line)
    }
}

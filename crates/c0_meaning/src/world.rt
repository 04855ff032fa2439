// The world that primitives act on.

ghost use Rattle.std.specs.Prelude.{ℤ, List};
ghost use Rattle.c0_meaning.specs.UserProgram.{trap};
ghost use Rattle.c0_meaning.specs.World.{PrimitiveMeaning};

/// A world that primitives act on: how it may stand, the entries of its journal, and what the primitives mean.
pub trait World {
    ghost Standing: { Type 0 };

    ghost Entry: { Type 0 };

    ghost meaning: { PrimitiveMeaning Standing Entry };
}

/// The world of a user program: the answers that are left, and as its journal the arguments of the calls of `trap`.
#[derive(Clone, Copy)]
pub struct TrapAnswers;

impl World for TrapAnswers {
    ghost Standing = { List ℤ };

    ghost Entry = { ℤ };

    ghost meaning = { trap };
}

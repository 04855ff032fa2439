// Laws for whoever proves a property of a kernel's code. The rules for code range over types, which no contract can: they are lemmas of
// the file proofs/Rules.

ghost use Rattle.c0_meaning.specs.Bare.{DispatchesIgnoreSpans, UnitsIgnoreSpans};

use crate::world::World;

/// A unit without its spans in the source has the globals and the first state of the unit.
pub fn units_ignore_spans()
    ensures { UnitsIgnoreSpans }
{}

/// A dispatch of a unit without its spans in the source comes to what one of the unit comes to.
pub fn dispatches_ignore_spans<W: World>()
    ensures { DispatchesIgnoreSpans W.Standing W.Entry }
{}

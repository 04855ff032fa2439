//! The laws of the typed tree. Each is the contract of a function that does nothing.

ghost use Rattle.c0_typed.specs.Laws.{ElementsAreThose, FieldsAreThose, OperatorsAreThose, TreesIgnoreSpans, VariablesAreThose};
ghost use Rattle.c0_typed.specs.Rows.{PlacesAreTyped, StatementsAreTyped, ValuesAreTyped};
ghost use Rattle.c0_typed.specs.Size.{NeedsAreFew};
ghost use Rattle.c0_typed.specs.Sized.{BodiesAreSized};

use c0_meaning::laws::{numbers_tell, offsets_are_those};

/// Variables stand behind the words of those before them.
pub fn variables_are_those()
    ensures { VariablesAreThose }
{
    offsets_are_those();
}

/// Fields stand behind the words of those before them.
pub fn fields_are_those()
    ensures { FieldsAreThose }
{
    offsets_are_those();
}

/// Elements stand behind the bytes of those before them.
pub fn elements_are_those()
    ensures { ElementsAreThose }
{}

/// An operator on two registers is sorted as the operator of C0 that it is.
pub fn operators_are_those()
    ensures { OperatorsAreThose }
{}

/// Spans in the source don't matter.
pub fn trees_ignore_spans()
    ensures { TreesIgnoreSpans }
{}

/// A typed tree needs no more registers than the expression.
pub fn needs_are_few()
    ensures { NeedsAreFew }
{}

/// The types that `new` names in a well formed unit have few words.
pub fn bodies_are_sized()
    ensures { BodiesAreSized }
{
    numbers_tell();
}

/// The trees of some expressions and statements.
pub fn worked_rows()
    ensures places { PlacesAreTyped }
    ensures values { ValuesAreTyped }
    ensures statements { StatementsAreTyped }
{}

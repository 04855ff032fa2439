// Laws for whoever proves a property of a kernel's runs. The rules for runs and the way from code to runs range over properties, which no
// contract can: they are lemmas of the files proofs/SystemsHold, proofs/InvariantsHold, proofs/KeepsDispatch and proofs/KeepsSystem.

ghost use Rattle.cvm_model.specs.Invariant.{RunsAreLawful};
ghost use Rattle.cvm_model.specs.JournalWords.{JournalsHoldWords};
ghost use Rattle.cvm_model.specs.SpansIgnored.{MeaningsIgnoreSpans};
ghost use Rattle.cvm_model.specs.Systems.{RunsAreChains};

use crate::{KernelWorld, units_are_kernels, units_dont_matter};
use c0_meaning::reasoning::{dispatches_ignore_spans, units_ignore_spans};
use c0_meaning::run_laws::{
    calls_are_safe, entries_pass, first_states_are_typed, primitives_alone_change_the_world,
};

/// A law: what a unit means as a kernel doesn't depend on spans in its source.
pub fn meanings_ignore_spans()
    ensures { MeaningsIgnoreSpans }
{
    units_ignore_spans();
    dispatches_ignore_spans::<KernelWorld>();
}

/// A law: what the rule for runs rests on, and what is known of the machines in each run.
pub fn runs_are_lawful()
    ensures { RunsAreLawful }
{
    units_dont_matter();
    units_are_kernels();
    primitives_alone_change_the_world::<KernelWorld>();
}

/// A law: each run, whatever its kernel and its users are, is a chain of its dispatches: each begins where the one before it ended, but for untrapped
/// steps of the user who was next, one for each turn between.
pub fn runs_are_chains()
    ensures { RunsAreChains }
{
    runs_are_lawful();
}

/// A law: what a kernel sets a user's register to is a word, in each run.
pub fn journals_hold_words()
    ensures { JournalsHoldWords }
{
    runs_are_lawful();
    first_states_are_typed();
    calls_are_safe::<KernelWorld>();
    entries_pass::<KernelWorld>();
}

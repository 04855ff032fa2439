//! The laws of a kernel's run: each function says one, and does nothing.

ghost use Rattle.cvm_model.specs.Kernel.{Changes};
ghost use Rattle.cvm_model.specs.KernelMeaning.{Machines};
ghost use Rattle.unit_runs.specs.Held.{HeldIsFlat};
ghost use Rattle.c0_meaning.specs.World.{all_entries};
ghost use Rattle.unit_runs.specs.Host.{Fixed, HasCome, TellsCalls};
ghost use Rattle.unit_runs.specs.Outer.{Outer};
ghost use Rattle.unit_runs.specs.Runs.{CompiledUnitsCallsFollow, CompiledUnitsRun, UnitsCallsFollow, UnitsRunOverLayers};

use c0_expr_runs::laws::areas_hold;
use c0_meaning::laws::types_are_equal_as_written;
use c0_meaning::run_laws::kernels_have_a_dispatch;
use c0_runs::laws::{Host, runs_follow};
use c0_runtime::laws::kernels_are_entered;
use c0_unit::laws::{units_have_addresses, units_stand};
use cvm_model::{rows_are_called, units_stay_typed};
use mips_table::runs::{code_runs_on_the_machine, runs_join, words_stay_words};
use page_model::laws::alikes_stand;

/// A kernel's data stand value by value exactly where their words stand one after another.
pub fn held_values_are_their_words()
    ensures { HeldIsFlat }
{}

/// The machine over a layer, as the host of a kernel's code: beside the kernel's own data stand the users and the console.
struct MachineOverLayer;

impl Host for MachineOverLayer {
    ghost Standing = { Machines };

    ghost Entry = { Changes };

    ghost Fixed = { Fixed };

    ghost outer = { λ f. Outer f.site f.current };

    ghost here = { λ f. HasCome f.outside f.site f.code f.words f.first };

    ghost told = { λ f k v calls. TellsCalls f.outside f.site f.longest f.first k (all_entries calls) };
}

/// Over any layer the code of a checked unit runs as the unit means: a dispatch comes to its answer or its fault within its steps, or is on its way.
pub fn units_run_over_layers()
    ensures { UnitsRunOverLayers }
{
    held_values_are_their_words();
    areas_hold();
    types_are_equal_as_written();
    kernels_have_a_dispatch();
    kernels_are_entered();
    runs_follow::<MachineOverLayer>();
    rows_are_called();
    units_stay_typed();
    code_runs_on_the_machine();
    runs_join();
    words_stay_words();
    alikes_stand();
}

/// So do the words that a checked unit is compiled to, behind the words of any layer.
pub fn compiled_units_run()
    ensures { CompiledUnitsRun }
{
    units_have_addresses();
    units_stand();
    units_run_over_layers();
}

/// Over a layer that keeps its laws, the calls of primitives that a dispatch has ended are those that the machine ends, in order, and it ends no others.
pub fn units_calls_follow()
    ensures { UnitsCallsFollow }
{
    held_values_are_their_words();
    areas_hold();
    types_are_equal_as_written();
    kernels_have_a_dispatch();
    kernels_are_entered();
    runs_follow::<MachineOverLayer>();
    rows_are_called();
    units_stay_typed();
    code_runs_on_the_machine();
    runs_join();
    words_stay_words();
    alikes_stand();
}

/// So are those of a dispatch of the words that a checked unit is compiled to, behind the words of such a layer.
pub fn compiled_units_calls_follow()
    ensures { CompiledUnitsCallsFollow }
{
    units_have_addresses();
    units_stand();
    units_calls_follow();
}

//! The law of what is booted: it follows its layer.

ghost use Rattle.unit_runs.specs.Follows.{LinkedBootsFollow};

use crate::laws::{compiled_units_calls_follow, compiled_units_run};
use c0_meaning::laws::units_are_typed_or_faulty;
use c0_meaning::run_laws::zeros_have_the_words_of_their_types;
use c0_unit::laws::{units_are_short, units_have_addresses, units_stand};
use cvm_model::{units_are_kernels, units_stay_typed};

/// A whole system over a layer that keeps its laws follows it: its map is in range, the layer was made for it, and the code of its unit runs as the
/// unit means, call by call.
pub fn linked_boots_follow()
    ensures { LinkedBootsFollow }
{
    units_are_typed_or_faulty();
    zeros_have_the_words_of_their_types();
    units_are_short();
    units_have_addresses();
    units_stand();
    units_are_kernels();
    units_stay_typed();
    compiled_units_run();
    compiled_units_calls_follow();
}

// How copies share frames. Each law is the contract of a function that does nothing.
ghost use Rattle.mips_table.specs.Code.{World, Sound};
ghost use Rattle.layer_sharing.specs.Passing.{CopyPasses};
ghost use Rattle.layer_sharing.specs.Sharing.{ImageShares};

use cvm_primitives::laws::routines_have_laws;
use masm::laws::a_routine_returns;
use page_fault::{maps_are_sited, the_block_is_a_page_block};
use real_layer::{premises, primitives_answer};

/// A run of `vm_copy` that ends with a whole page comes by the head of its loop with that page left; and in the end the target's last page names the
/// source's frame, unless four other pages named it there.
pub fn a_copy_passes_its_last_page()
    ensures { (w : World) → Sound w → CopyPasses w }
{
    routines_have_laws();
    the_block_is_a_page_block();
}

/// SHARING at the machine: a good `vm_copy` that ends with a whole page on both sides comes back with the target's last page naming the frame of the
/// source's; or else, at a moment of the call at which all but that page is copied, the source's page named a user frame that four other pages named.
pub fn the_last_page_is_shared()
    ensures { ImageShares }
{
    premises();
    a_routine_returns();
    maps_are_sited();
    a_copy_passes_its_last_page();
    primitives_answer();
}

// An image, accepted: what is booted follows its layer.

ghost use Rattle.std.specs.Prelude.{IfOk};
ghost use Rattle.boot_image.specs.Reading.{answer};
ghost use Rattle.kernel_linker.specs.Accept.{AcceptAnswers, image_system};
ghost use Rattle.layer_contract.specs.Boots.{BootFollows};

use boot_image::images_are_their_spellings;
use kernel_linker::laws::spelled_images_fit;
use kernel_linker::{AcceptFault, Accepted, accept};
use layer_contract::LayerMaker;
use std::alloc::Global;
use unit_runs::follows::linked_boots_follow;

/// Accepts the bytes of an image, over a layer that is made for it. What is accepted follows its layer.
///
/// # Errors
///
/// Those of `kernel_linker::accept`.
pub fn accept_image<M: LayerMaker>(alloc: Global, bytes: &[u8]) -> Result<Accepted<M>, AcceptFault>
    ensures is { AcceptAnswers M.made (λ a. image_system a.boot) (answer bytes.now) result }
    ensures follows { IfOk result (λ a. BootFollows (M.image a.layer) (M.sizes a.layer) (M.map a.layer) a.boot) }
{
    linked_boots_follow();
    images_are_their_spellings();
    spelled_images_fit();
    let accepted = accept::<M>(alloc, bytes)?;
    accepted.layer.keeps_laws();
    let _unit = accepted.boot.unit.unit();
    Ok(accepted)
}

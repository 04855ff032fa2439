// An image, accepted.

ghost use Rattle.std.specs.Prelude.{◌≡◌, ◌+◌, ◌≤◌, All, length, map, Result, Err, IfOk};
ghost use Rattle.boot_image.specs.Reading.{answer};
ghost use Rattle.c0_tree.specs.View.{unit_view};
ghost use Rattle.kernel_linker.specs.Linked.{map_for, sizes_of};
ghost use Rattle.kernel_linker.specs.Accept.{AcceptAnswers, words_match, image_system};

use crate::difference::compare;
use crate::fault::AcceptFault;
use crate::linked::{compiled, link_words};
use boot_image::{Image, read};
use c0_types::read_unit;
use layer_contract::{Boot, LayerMaker};
use std::alloc::Global;

/// What is booted, and the layer that was made for it.
#[derive(Drop)]
pub struct Accepted<M> {
    /// What is booted.
    pub boot: Boot,
    /// The layer that its words begin with.
    pub layer: M,
}

// Looks whether an image's linked words, if it has any, are those that are made.
fn check_words(image: &Image, made: &[u32]) -> Result<(), AcceptFault>
    ensures { result ≡ words_match image.now made.now }
{
    if image.form == 1 {
        return Ok(());
    }
    compare(&image.words, made)?;
    Ok(())
}

/// Accepts the bytes of an image.
///
/// The fields are looked at in the order of the file; then the source is read and checked, and the linked words are compared with those that
/// the image's own source, parameters and users are linked to. The first fault answers. An image of form 1 has no linked words and no users:
/// they are made.
pub fn accept<M: LayerMaker>(alloc: Global, bytes: &[u8]) -> Result<Accepted<M>, AcceptFault>
    // The answer that is due for the image that the bytes are, or want of memory.
    ensures is { AcceptAnswers M.made (λ a. image_system a.boot) (answer bytes.now) result }
    // The layer is the one that is made for the boot's map and for its users' sizes.
    ensures map { IfOk result (λ a. M.map a.layer ≡ map_for (unit_view a.boot.unit) a.boot.params (length a.boot.users.items)) }
    ensures sizes { IfOk result (λ a. M.sizes a.layer ≡ sizes_of (map (λ u. u.items) a.boot.users.items)) }
    ensures image { IfOk result (λ a. M.image a.layer ≡ M.made (M.map a.layer) (M.sizes a.layer)) }
{
    let image = read(alloc, bytes)?;
    let unit = read_unit(alloc, &image.source)?;
    let code = compiled(alloc, &unit)?;
    let joined = link_words::<M>(alloc, &unit, &code, &image.params, &image.users)?;
    check_words(&image, &joined.words)?;
    Ok(Accepted {
        boot: Boot {
            params: image.params,
            unit,
            words: joined.words,
            users: image.users,
        },
        layer: joined.layer,
    })
}

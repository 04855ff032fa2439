// An image of an older form, made anew.

ghost use Rattle.std.specs.Prelude.{◌≡◌, IfOk};
ghost use Rattle.boot_image.specs.Format.{HasSpelling};
ghost use Rattle.boot_image.specs.Reading.{old_answer};
ghost use Rattle.kernel_linker.specs.Migrate.{Migrates};

use crate::fault::AcceptFault;
use crate::linked::{compiled, link_words};
use boot_image::{Image, read_old};
use c0_types::read_unit;
use layer_contract::LayerMaker;
use std::alloc::Global;

/// Makes an image of form 3 of the bytes of an image of form 2.
///
/// The fields are looked at in the order of the file; then the source is read and checked. The first fault answers. The new image has the
/// same source, parameters and users, and its linked words are made of them: the old ones are not looked at.
pub fn migrate<M: LayerMaker>(alloc: Global, bytes: &[u8]) -> Result<Image, AcceptFault>
    // The answer that is due for the image of form 2 that the bytes are, or want of memory.
    ensures is { Migrates M.made (old_answer bytes.now) result }
    // The image can be written.
    ensures spelled { IfOk result HasSpelling }
{
    let old = read_old(alloc, bytes)?;
    let unit = read_unit(alloc, &old.source)?;
    let code = compiled(alloc, &unit)?;
    let joined = link_words::<M>(alloc, &unit, &code, &old.params, &old.users)?;
    Ok(Image {
        params: old.params,
        form: 3,
        source: old.source,
        words: joined.words,
        users: old.users,
    })
}

// What a user program is compiled to.

ghost use Rattle.std.specs.Prelude.{◌≡◌, ◌≤◌, length, IfErr, IfOk};
ghost use Rattle.c0_tree.specs.View.{unit_view};
ghost use Rattle.c0_unit.specs.Code.{program_words};
ghost use Rattle.cvm_model.specs.Cvm.{first_flat};
ghost use Rattle.user_c0.specs.Compiled.{IsSizeFaultOf};
ghost use Rattle.user_c0.specs.Image.{image_words, map_of_image};
ghost use Rattle.user_c0.specs.Program.{MAX_IMAGE, RunsAsMeant};

use crate::fault::UserFault;
use crate::image::{ROOM, image};
use crate::laws::{images_are_whole, images_run};
use c0_meaning::UserChecked;
use c0_meaning::laws::units_are_typed_or_faulty;
use c0_unit::laws::{units_have_addresses, units_stand};
use c0_unit::{compile_flat, global_words};
use layer_map::{Map, Params};
use std::alloc::{AllocError, Global};
use std::vec::Vec;

// The most words of an image.
const MOST: u32 = 65536;

// The code of a program's unit, as short as a map allows.
fn compiled(alloc: Global, unit: &UserChecked) -> Result<Vec<u32>, AllocError>
    ensures words { IfOk result (λ v. v.items ≡ program_words (unit_view unit.now)) }
    ensures most { IfOk result (λ v. length v.items ≤ 4177920) }
{
    units_are_typed_or_faulty();
    let _unit = unit.unit();
    let code = compile_flat(alloc, unit)?;
    Ok(code)
}

// Where the parts of a program's image stand, whose code has so many words.
fn image_map(unit: &UserChecked, code: &[u32]) -> Map
    requires code { code.now ≡ program_words (unit_view unit.now) }
    requires most { length code.now ≤ 4177920 }
    ensures { result ≡ map_of_image (unit_view unit.now) }
{
    units_have_addresses();
    units_stand();
    let _unit = unit.unit();
    let params = Params {
        pages: 1,
        frames: 2,
        heap: ROOM,
        stack: ROOM,
    };
    let globals = global_words(&unit.measured());
    Map::of(&params, 0, code.len() as u32, globals)
}

// How many words a program's image has.
fn image_size(unit: &UserChecked, map: &Map) -> u32
    requires { map.now ≡ map_of_image (unit_view unit.now) }
    ensures { result ≡ length (image_words (unit_view unit.now)) }
{
    images_are_whole();
    let _unit = unit.unit();
    map.page_tables() / 4
}

// A program's image, which isn't too large.
fn laid_out(
    alloc: Global,
    unit: &UserChecked,
    code: &[u32],
    map: &Map,
) -> Result<Vec<u32>, AllocError>
    requires code { code.now ≡ program_words (unit_view unit.now) }
    requires map { map.now ≡ map_of_image (unit_view unit.now) }
    requires most { length (image_words (unit_view unit.now)) ≤ MAX_IMAGE }
    ensures words { IfOk result (λ v. v.items ≡ image_words (unit_view unit.now)) }
    ensures runs { IfOk result (λ v. RunsAsMeant (unit_view unit.now) (first_flat v.items)) }
{
    images_run();
    images_are_whole();
    let _unit = unit.unit();
    let words = (map.page_tables() / 4) as usize;
    let laid = image(
        alloc,
        code,
        map.heap(),
        map.stack(),
        map.stack_limit(),
        words,
    )?;
    Ok(laid)
}

/// The image of a user program: its memory as it starts, whole pages, at most 65,536 words. It runs on a flat machine as the program means: its
/// calls of the kernel are the program's calls of `trap`, and it ends as the program does.
///
/// Its time grows with the source. An image that would have more words is refused before it is laid out.
pub fn compile_user(alloc: Global, unit: &UserChecked) -> Result<Vec<u32>, UserFault>
    ensures words { IfOk result (λ v. v.items ≡ image_words (unit_view unit.now)) }
    ensures most { IfOk result (λ v. length v.items ≤ MAX_IMAGE) }
    ensures runs { IfOk result (λ v. RunsAsMeant (unit_view unit.now) (first_flat v.items)) }
    ensures fault { IfErr result (IsSizeFaultOf (unit_view unit.now)) }
{
    let Ok(code) = compiled(alloc, unit) else {
        return Err(UserFault::Memory);
    };
    let map = image_map(unit, &code);
    let words = image_size(unit, &map);
    if words > MOST {
        return Err(UserFault::TooLarge { words });
    }
    match laid_out(alloc, unit, &code, &map) {
        Ok(laid) => Ok(laid),
        Err(_) => Err(UserFault::Memory),
    }
}

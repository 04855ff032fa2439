// The image of a user: its text, assembled.
ghost use Rattle.std.specs.Prelude.{◌≡◌, ◌≢◌, ◌*◌, ℕ, List, length, IfOk, IfErr, IsErrOf};
ghost use Rattle.real_layer.specs.Image.{layer_image};
ghost use Rattle.run_scripts.specs.Command;
ghost use Rattle.cvm_shell.specs.Does.{Gets};
ghost use Rattle.run_scripts.specs.Served.{files_of};
ghost use Rattle.run_scripts.specs.Plan.{AfterText, user_bytes};
ghost use Rattle.cvm_shell.specs.Stages.{text_stop, puts_made, PutsAs, FilesPlan};
ghost use Rattle.cvm_shell.specs.Views.{user_view, IfPlan};

use crate::boot::Stop;
use crate::command::CompileUser;
use crate::getting::get_file;
use crate::refusal::Refusal;
use cvm_outside::Shelf;
use mips_asm::{AsmFault, assemble};
use std::alloc::{AllocError, Global};

impl From<AsmFault> for Stop {
    ghost from_gives = { λ f e. e ≡ text_stop f };

    fn from(fault: AsmFault) -> Self {
        match fault {
            AsmFault::Memory => Stop::Memory,
            fault => Stop::Refused(Refusal::BadText(fault)),
        }
    }
}

/// Gets the text of a user and assembles it: the bytes of the user's image, which is its words,
/// each little-endian, and nothing else.
pub fn user_image<S: Shelf>(
    alloc: Global,
    names: &CompileUser,
    shelf: &mut S,
) -> Result<Vec<u8>, Stop>
    ensures comes { IfPlan (puts_made names.now.image.now) (FilesPlan layer_image (S.file shelf.old) (Command.compile_user (user_view names.now))) result }
    ensures gets { Gets S.Shelf (files_of (Command.compile_user (user_view names.now))) shelf.old shelf.new result }
{
    let text = get_file(alloc, names.text, shelf)?;
    assembled_image(alloc, &text)
}

/// A law: the image of a user has four bytes a word.
pub fn words_have_four_bytes()
    ensures { (words : List ℕ) → length (user_bytes words) ≡ 4 * length words }
{}

// The bytes of the image that a text comes to.
fn assembled_image(alloc: Global, text: &[u8]) -> Result<Vec<u8>, Stop>
    ensures comes { PutsAs (λ name. AfterText name text.now) result }
    ensures inside { IfErr result (λ s. s ≢ Stop.Shelf) }
    ensures short { IsErrOf result (Stop.Refused Refusal.TooLong) → ⊥ }
{
    let words = assemble(alloc, text)?;
    match little_endian(alloc, &words) {
        Ok(image) => Ok(image),
        Err(_) => Err(Stop::Memory),
    }
}

// The bytes of these words, each little-endian.
pub(crate) fn little_endian(alloc: Global, words: &[u32]) -> Result<Vec<u8>, AllocError>
    ensures { IfOk result (λ v. v.items ≡ user_bytes words.now) }
{
    let mut bytes = Vec::new(alloc);
    for word in words {
        bytes.extend_from_slice(&word.to_le_bytes())?;
    }
    Ok(bytes)
}

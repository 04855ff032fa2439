// An image to bytes.

ghost use Rattle.std.specs.Prelude.{◌≡◌, ◌≤◌, ◌++◌, All, length, map, OnOk, IfOk, Ok, Err};
ghost use Rattle.std.specs.List.{flat_map};
ghost use Rattle.cvm_words.specs.Bytes.{word};
ghost use Rattle.boot_image.specs.Format.{spelling, fields, HasSpelling, HasOldSpelling, IsWritable, IsInRange, IsOldInRange, AreWords};
ghost use Rattle.boot_image.specs.Reading.{answer, old_answer};
ghost use Rattle.boot_image.specs.declared.fault.ImageFault.TheVariants.{Parameter};

use crate::image::Image;
use cvm_words::{push_word, push_words};
use std::alloc::{AllocError, Global};

/// Writes an image, in the form that it names: its one spelling, which reads as that image.
pub fn write(alloc: Global, image: &Image) -> Result<Vec<u8>, AllocError>
    requires { IsWritable image.now }
    ensures spelled { IfOk result (λ bytes. bytes.items ≡ spelling image.now) }
    // What is written in form 1 or 3 is read back by `read`,
    ensures in_range { IfOk result (λ bytes. HasSpelling image.now → IsInRange image.now) }
    ensures read_back { IfOk result (λ bytes. HasSpelling image.now → answer bytes.items ≡ Ok image.now) }
    // and what is written in form 2 by `read_old` alone.
    ensures old_in_range { IfOk result (λ bytes. HasOldSpelling image.now → IsOldInRange image.now) }
    ensures read_old_back { IfOk result (λ bytes. HasOldSpelling image.now → old_answer bytes.items ≡ Ok image.now) }
    ensures old_refused { IfOk result (λ bytes. HasOldSpelling image.now → answer bytes.items ≡ Err (Parameter 1 2)) }
{
    let mut bytes = Vec::new(alloc);
    bytes.extend_from_slice(b"CVMI")?;
    push_fields(&mut bytes, image)?;
    bytes.extend_from_slice(&image.source)?;
    push_words(&mut bytes, &image.words)?;
    push_users(&mut bytes, &image.users)?;
    Ok(bytes)
}

// Writes the fields at the end.
fn push_fields(bytes: &mut Vec<u8>, image: &Image) -> Result<(), AllocError>
    requires { IsWritable image.now }
    ensures { OnOk result (bytes.new.items ≡ bytes.old.items ++ flat_map word (fields image.now)) }
{
    let source_length = image.source.len() as u32;
    if image.form == 1 {
        return push_words(bytes, &[1, source_length]);
    }
    let numbers = [
        image.form,
        image.users.len() as u32,
        image.params.pages,
        image.params.frames,
        image.params.heap,
        image.params.stack,
        source_length,
        image.words.len() as u32,
    ];
    push_words(bytes, &numbers)?;
    push_counts(bytes, &image.users)
}

// Writes the numbers of words of users at the end.
fn push_counts(bytes: &mut Vec<u8>, users: &[Vec<u32>]) -> Result<(), AllocError>
    requires { All (λ u. length u ≤ 65536) (map (λ u. u.items) users.now) }
    ensures { OnOk result (bytes.new.items ≡ bytes.old.items ++ flat_map word (map length (map (λ u. u.items) users.now))) }
{
    for user in users {
        push_word(bytes, user.len() as u32)?;
    }
    Ok(())
}

// Writes the words of users at the end.
fn push_users(bytes: &mut Vec<u8>, users: &[Vec<u32>]) -> Result<(), AllocError>
    ensures written { OnOk result (bytes.new.items ≡ bytes.old.items ++ flat_map (flat_map word) (map (λ u. u.items) users.now)) }
    ensures bits { OnOk result (All AreWords (map (λ u. u.items) users.now)) }
{
    for user in users {
        push_words(bytes, user)?;
    }
    Ok(())
}

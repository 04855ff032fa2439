// An object to bytes.

ghost use Rattle.std.specs.Prelude.{◌≡◌, ◌≤◌, ◌<◌, ◌^◌, ◌++◌, All, length, OnOk, IfOk, Ok};
ghost use Rattle.std.specs.List.{flat_map};
ghost use Rattle.cvm_words.specs.Bytes.{word};
ghost use Rattle.object_file.specs.Format.{spelling};
ghost use Rattle.object_file.specs.Answer.{IsObjectAnswer};

use crate::object::Object;
use cvm_words::{push_word, push_words};
use std::alloc::{AllocError, Global};

/// Writes an object: its one spelling, which reads as that object.
///
/// The source has at most 1,048,576 bytes, and there are at most 4,177,920
/// words.
pub fn write(alloc: Global, object: &Object) -> Result<Vec<u8>, AllocError>
    requires source { length object.now.source ≤ 1048576 }
    requires words { length object.now.words ≤ 4177920 }
    ensures spelled { IfOk result (λ bytes. bytes.items ≡ spelling object.now) }
    ensures read_back { IfOk result (λ bytes. IsObjectAnswer bytes.items (Ok object.now)) }
{
    let source_length = object.source.len();
    let word_count = object.words.len();
    let mut bytes = Vec::with_capacity(alloc, 16 + source_length + 4 * word_count)?;
    bytes.extend_from_slice(b"CVMO")?;
    push_word(&mut bytes, 1)?;
    push_word(&mut bytes, source_length as u32)?;
    push_word(&mut bytes, word_count as u32)?;
    bytes.extend_from_slice(&object.source)?;
    push_words(&mut bytes, &object.words)?;
    Ok(bytes)
}

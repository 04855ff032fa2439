// Bytes to an object.

ghost use Rattle.std.specs.Prelude.{◌≡◌, ◌+◌, ◌*◌, ◌≤◌, ◌<◌, ◌%◌, ℕ, List, length, slice_index, Result, IfOk, Ok, Err};
ghost use Rattle.object_file.specs.declared.fault.ObjectFault.{ObjectFault};
ghost use Rattle.object_file.specs.declared.fault.ObjectFault.TheVariants.{Memory};
ghost use Rattle.object_file.specs.Parts.{ObjectParts};
ghost use Rattle.object_file.specs.Answer.{IsObjectAnswer, UnlessMemory};
ghost use Rattle.cvm_words.specs.Bytes.{words_of_bytes};
ghost use Rattle.cvm_words.specs.Reading.{Comes, GivesOkUnless};
ghost use Rattle.object_file.specs.Reading.{mark_at, number_at, parts_at, header_of, object_of_parts};

use crate::fault::ObjectFault;
use crate::object::{MOST_SOURCE, MOST_WORDS, Object};
use byteorder::{ByteOrder, LittleEndian};
use cvm_words::read_words;
use std::alloc::{AllocError, Global};

/// Reads an object: all of the bytes.
///
/// The fields are looked at in the order of the file, and the first that isn't
/// as it is to be answers. Memory is taken once the bytes are known to be an
/// object, for its source and its words, and for nothing else.
pub fn read(alloc: Global, bytes: &[u8]) -> Result<Object, ObjectFault>
    // What is answered is so of the bytes.
    ensures answer { UnlessMemory result (IsObjectAnswer bytes.now result) }
    // And what is so of the bytes is answered.
    ensures only { (answer : Result ObjectParts ObjectFault) → IsObjectAnswer bytes.now answer → GivesOkUnless Memory result answer }
{
    let (source, words) = parts(bytes)?;
    Ok(Object {
        source: Vec::from_slice(alloc, source)?,
        words: read_words(alloc, words)?,
    })
}

/// A law: of each list of bytes there is one answer.
pub fn bytes_have_one_answer()
    ensures some { (bytes : List ℕ) → ((i : ℕ) → slice_index bytes i < 256) → (answer : Result ObjectParts ObjectFault) × IsObjectAnswer bytes answer }
    ensures one { (bytes : List ℕ) (a b : Result ObjectParts ObjectFault) → IsObjectAnswer bytes a → IsObjectAnswer bytes b → a ≡ b }
{}

// The bytes of the source and those of the words.
#[tactic(auto, unfolding(crate::specs::Reading::header_of))]
fn parts(bytes: &[u8]) -> Result<(&[u8], &[u8]), ObjectFault>
    ensures header { Comes (λ x. (x.0.now, x.1.now)) result (header_of bytes.now) }
    ensures whole { IfOk result (λ x. length x.1.now % 4 ≡ 0) }
{
    let rest = after_mark(bytes)?;
    let (_, rest) = number(rest, 4, 1, 1)?;
    let (source_length, rest) = number(rest, 8, 0, MOST_SOURCE)?;
    let (word_count, rest) = number(rest, 12, 0, MOST_WORDS)?;
    split_parts(rest, source_length, word_count)
}

// The bytes that follow the mark.
#[tactic(auto, unfolding(crate::specs::Reading::mark_at))]
fn after_mark(bytes: &[u8]) -> Result<&[u8], ObjectFault>
    ensures { Comes (λ x. x.now) result (mark_at bytes.now) }
{
    if bytes.len() < 4 {
        return Err(ObjectFault::Truncated { at: 0 });
    }
    let (mark, rest) = bytes.split_at(4);
    if mark == b"CVMO".as_slice() {
        Ok(rest)
    } else {
        Err(ObjectFault::Magic)
    }
}

// The number of the field that begins at byte `at` of the file, and the bytes
// that follow the field.
#[tactic(auto, unfolding(crate::specs::Reading::number_at))]
fn number(bytes: &[u8], at: u64, least: u32, most: u32) -> Result<(u32, &[u8]), ObjectFault>
    ensures { Comes (λ x. (x.0, x.1.now)) result (number_at at least most bytes.now) }
{
    if bytes.len() < 4 {
        return Err(ObjectFault::Truncated { at });
    }
    let value = LittleEndian::read_u32(bytes);
    if value < least || most < value {
        return Err(ObjectFault::Field {
            at,
            value: u64::from(value),
        });
    }
    Ok((value, &bytes[4..]))
}

// The two parts, of so many bytes and so many words, behind the 16 bytes of
// the fields.
#[tactic(auto, unfolding(crate::specs::Reading::parts_at))]
fn split_parts(
    bytes: &[u8],
    source_length: u32,
    word_count: u32,
) -> Result<(&[u8], &[u8]), ObjectFault>
    ensures parts { Comes (λ x. (x.0.now, x.1.now)) result (parts_at source_length word_count bytes.now) }
    ensures whole { IfOk result (λ x. length x.1.now % 4 ≡ 0) }
{
    let source_end = 16 + u64::from(source_length);
    let words_length = 4 * u64::from(word_count);
    if bytes.len() < source_length as usize {
        return Err(ObjectFault::Truncated { at: 16 });
    }
    let (source, words) = bytes.split_at(source_length as usize);
    if (words.len() as u64) < words_length {
        return Err(ObjectFault::Truncated { at: source_end });
    }
    if words_length < words.len() as u64 {
        return Err(ObjectFault::Trailing {
            at: source_end + words_length,
        });
    }
    Ok((source, words))
}

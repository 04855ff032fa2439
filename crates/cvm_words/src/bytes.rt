// Words of 32 bits as bytes, four each, the lowest first.

ghost use Rattle.std.specs.Prelude.{◌≡◌, ◌≤◌, ◌<◌, ◌%◌, ◌^◌, ◌++◌, All, length, IfOk, OnOk};
ghost use Rattle.std.specs.List.{flat_map};
ghost use Rattle.cvm_words.specs.Bytes.{word, words_of_bytes};

use byteorder::{ByteOrder, LittleEndian};
use std::alloc::{AllocError, Global};
use std::vec::Vec;

/// The words of which bytes are made.
pub fn read_words(alloc: Global, bytes: &[u8]) -> Result<Vec<u32>, AllocError>
    requires { length bytes.now % 4 ≡ 0 }
    ensures words { IfOk result (λ v. v.items ≡ words_of_bytes bytes.now) }
    ensures spelled { IfOk result (λ v. flat_map word v.items ≡ bytes.now) }
{
    let mut words = vec![in alloc; 0; bytes.len() / 4]?;
    LittleEndian::read_u32_into(bytes, &mut words);
    Ok(words)
}

/// Appends the bytes of words.
pub fn push_words(bytes: &mut Vec<u8>, words: &[u32]) -> Result<(), AllocError>
    ensures written { OnOk result (bytes.new.items ≡ bytes.old.items ++ flat_map word words.now) }
    ensures bits { All (λ w. w < 2 ^ 32) words.now }
{
    for number in words {
        push_word(bytes, *number)?;
    }
    Ok(())
}

/// Appends the bytes of a word.
#[tactic(auto, unfolding(crate::specs::Bytes::word))]
pub fn push_word(bytes: &mut Vec<u8>, number: u32) -> Result<(), AllocError>
    ensures { OnOk result (bytes.new.items ≡ bytes.old.items ++ word number) }
{
    let mut word = [0; 4];
    LittleEndian::write_u32(&mut word, number);
    bytes.extend_from_slice(&word)
}

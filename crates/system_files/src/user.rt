// The words of a user.

ghost use Rattle.std.specs.Prelude.{◌≡◌, length, IfOk, IfErr};
ghost use Rattle.std.specs.List.{flat_map};
ghost use Rattle.cvm_words.specs.Bytes.{word, words_of_bytes};
ghost use Rattle.system_files.specs.User.{IsUserFault};

use crate::fault::FileFault;
use cvm_words::read_words;
use std::alloc::Global;

/// The words that a user's file holds; users are counted from 1. A length that is no multiple of 4 bytes comes before want of memory.
pub fn user_words(alloc: Global, user: u64, bytes: &[u8]) -> Result<Vec<u32>, FileFault>
    ensures words { IfOk result (λ v. v.items ≡ words_of_bytes bytes.now) }
    ensures spelled { IfOk result (λ v. flat_map word v.items ≡ bytes.now) }
    ensures fault { IfErr result (λ e. IsUserFault user (length bytes.now) e) }
{
    if bytes.len() % 4 != 0 {
        return Err(FileFault::UserTorn {
            user,
            bytes: bytes.len() as u64,
        });
    }
    Ok(read_words(alloc, bytes)?)
}

// The words of a saved machine to bytes.

ghost use Rattle.std.specs.Prelude.{◌≡◌, ◌*◌, length};
ghost use Rattle.std.specs.List.{flat_map};
ghost use Rattle.cvm_words.specs.Bytes.{word};

use byteorder::{ByteOrder, LittleEndian};

/// Writes the bytes of words, four each, into as many bytes as they have. It takes no memory.
pub fn spell(words: &[u32], into: &mut [u8])
    requires { length into.old ≡ 4 * length words.now }
    ensures { into.new ≡ flat_map word words.now }
{
    LittleEndian::write_u32_into(words, into);
}

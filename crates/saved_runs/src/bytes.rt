// The words of a file, of four bytes each, the lowest first.

/// Sets a word of a file, where it has it.
pub fn set_word(bytes: &mut [u8], word: u32, value: u32) {
    let at = 4 * word as usize;
    let mut rest = value;
    if let Some(part) = bytes.get_mut(at..at + 4) {
        for byte in part.iter_mut() {
            *byte = (rest % 256) as u8;
            rest /= 256;
        }
    }
}

/// A word of a file; 0 where it has none.
pub fn word_of(bytes: &[u8], word: u32) -> u32 {
    let at = 4 * word as usize;
    let mut value = 0u32;
    let mut scale = 1u32;
    for byte in bytes.get(at..at + 4).unwrap_or(&[]) {
        value = value.wrapping_add(scale.wrapping_mul(u32::from(*byte)));
        scale = scale.wrapping_mul(256);
    }
    value
}

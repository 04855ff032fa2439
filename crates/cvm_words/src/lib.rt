//! Words of 32 bits: as whole numbers with their division, and as bytes.
#![tactic(auto)]

ghost use Rattle.std.specs.Prelude.{◌≡◌, ◌≢◌, pos};
ghost use Rattle.cvm_words.specs.Words.{int_of as int_of_def, word_of as word_of_def, quotient as quotient_of, remainder as remainder_of};

mod bytes;

pub use bytes::{push_word, push_words, read_words};

/// The number that a word means in two's complement.
pub fn int_of(word: u32) -> i32
    ensures value { result ≡ int_of_def word }
    ensures back { word_of_def result ≡ word }
{
    word.cast_signed()
}

/// The word that means `value` in two's complement.
pub fn word_of(value: i32) -> u32
    ensures value { result ≡ word_of_def value }
    ensures back { int_of_def result ≡ value }
{
    value.cast_unsigned()
}

/// The quotient of `a` and `b`, which isn't 0, rounded towards zero. That of the least number and -1 is the least number.
pub fn quotient(a: i32, b: i32) -> i32
    requires { b ≢ pos 0 }
    ensures { result ≡ quotient_of a b }
{
    a.wrapping_div(b)
}

/// What is left of `a` by `quotient(a, b)`: it is 0 or has the sign of `a`. `b` isn't 0.
pub fn remainder(a: i32, b: i32) -> i32
    requires { b ≢ pos 0 }
    ensures { result ≡ remainder_of a b }
{
    a.wrapping_rem(b)
}

#[cfg(test)]
mod tests {
    use super::*;

    #[test]
    fn words_and_numbers(rt: HostRuntime) {
        for (word, value) in [
            (0, 0),
            (1, 1),
            (0x7fffffff, 2147483647),
            (0x80000000, -2147483648),
            (0xffffffff, -1),
        ] {
            assert_eq!(rt; int_of(word), value, "of {word}");
            assert_eq!(rt; word_of(value), word, "of {value}");
        }
    }

    #[test]
    fn division(rt: HostRuntime) {
        let rows = [
            (7, 2, 3, 1),
            (-7, 2, -3, -1),
            (7, -2, -3, 1),
            (-7, -2, 3, -1),
            (-2147483648, -1, -2147483648, 0),
        ];
        for (a, b, quotient_wanted, remainder_wanted) in rows {
            assert_eq!(rt; quotient(a, b), quotient_wanted, "{a} / {b}");
            assert_eq!(rt; remainder(a, b), remainder_wanted, "{a} % {b}");
        }
    }
}

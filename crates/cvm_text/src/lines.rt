// Texts line by line.

ghost use Rattle.std.specs.Prelude.{◌≡◌, ◌<◌, ◌^◌, ◌∷◌, ℕ, List, length, Some, decimal};
ghost use Rattle.cvm_text.specs.Lines.{lines_of, number_spelled};

use crate::cutting::cut;
use crate::read::read_decimal;

#[tactic(auto, using(crate::proofs::FirstLineIsCut::lines_cut, crate::proofs::FirstLineIsCut::lines_last))]
/// The first line of a text that has one, and the text after it. LF ends a line, and the last may lack it.
pub fn first_line(text: &[u8]) -> (&[u8], &[u8])
    requires { 0 < length text.now }
    ensures lines { lines_of text.now ≡ result.0.now ∷ lines_of result.1.now }
    ensures shorter { length result.1.now < length text.now }
{
    let (line, rest) = cut(text, b'\n');
    match rest {
        Some(rest) => (line, rest),
        None => (line, &[]),
    }
}

/// The number below 2^64 that a whole word spells.
pub fn whole_number(word: &[u8]) -> Option<u64>
    ensures { result ≡ number_spelled word.now }
{
    let (value, end) = read_decimal(word, 0)?;
    if end == word.len() { Some(value) } else { None }
}

/// A law: each number below 2^64 is spelled by its text as a whole word, and by no other word.
pub fn whole_numbers_are_spelled()
    ensures read { (n : ℕ) → n < 2 ^ 64 → number_spelled (decimal n) ≡ Some n }
    ensures spelled { (word : List ℕ) (n : ℕ) → number_spelled word ≡ Some n → (n < 2 ^ 64) × (word ≡ decimal n) }
{}

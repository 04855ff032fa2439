// The parameters of a system.

ghost use Rattle.std.specs.Prelude.{◌≡◌, ◌≤◌, ◌∷◌, [], List, ℕ, length, Result, Ok, IfOk, IfSome, Option, Some, None};
ghost use Rattle.cvm_text.specs.Lines.{lines_of};
ghost use Rattle.layer_map.specs.declared.params.Params.{Params};
ghost use Rattle.system_files.specs.declared.fault.FileFault.{FileFault};
ghost use Rattle.system_files.specs.Answer.{IsParamsAnswer};
ghost use Rattle.system_files.specs.Params as spec;
ghost use Rattle.cvm_words.specs.Reading.{Comes};
ghost use Rattle.system_files.specs.Params.{AreInRange, Spells, at_the_end, next_number as next_in, number_in, numbers_of, params_in, ranged};

use crate::fault::FileFault;
use cvm_text::{first_line, whole_number, whole_numbers_are_spelled};
use layer_map::Params;

// The numbers of the four lines.
#[derive(Clone, Copy)]
struct Numbers {
    pages: u64,
    frames: u64,
    heap: u64,
    stack: u64,
}

/// The parameters that a text has.
///
/// The first line that isn't as it is to be answers; where all four are, and there is no fifth, the first parameter out of its range
/// does. Want of memory is no answer.
pub fn params_of(bytes: &[u8]) -> Result<Params, FileFault>
    // The answer is that of the reading line by line; `texts_have_one_answer` says of texts alone which that is.
    ensures is { Comes (λ p. p) result (spec.params_of bytes.now) }
    ensures range { IfOk result (λ p. AreInRange p) }
{
    let numbers = read_lines(bytes)?;
    in_range(numbers)
}

/// A law: a text is read as parameters exactly where it spells them, and they are in their ranges.
pub fn parameters_are_their_spellings()
    ensures spelled { (text : List ℕ) (p : Params) → spec.params_of text ≡ Ok p → Spells text p × AreInRange p }
    ensures read { (text : List ℕ) (p : Params) → Spells text p → AreInRange p → spec.params_of text ≡ Ok p }
{
    whole_numbers_are_spelled();
}

/// A law: of each text there is one answer in the format's own words, and that is what is answered. So each fault comes exactly where it
/// stands first, with its numbers.
pub fn texts_have_one_answer()
    ensures so { (text : List ℕ) → IsParamsAnswer text (spec.params_of text) }
    ensures only { (text : List ℕ) (answer : Result Params FileFault) → IsParamsAnswer text answer → spec.params_of text ≡ answer }
{
    whole_numbers_are_spelled();
}

// The number behind the beginning of a line.
#[tactic(auto, unfolding(crate::specs::Params::number_in))]
fn number_behind(beginning: &[u8], line: &[u8]) -> Option<u64>
    ensures { result ≡ number_in beginning.now line.now }
{
    if line.len() < beginning.len() {
        return None;
    }
    let (first, number) = line.split_at(beginning.len());
    if first == beginning {
        whole_number(number)
    } else {
        None
    }
}

// The number of the next line, which is to begin so, and the text after it.
fn next_number<'a>(
    which: u32,
    beginning: &[u8],
    text: &'a [u8],
) -> Result<(u64, &'a [u8]), FileFault>
    ensures { Comes (λ x. (x.0, lines_of x.1.now)) result (next_in which beginning.now (lines_of text.now)) }
{
    if text.is_empty() {
        return Err(FileFault::BadParams { line: which });
    }
    let (line, rest) = first_line(text);
    match number_behind(beginning, line) {
        Some(number) => Ok((number, rest)),
        None => Err(FileFault::BadParams { line: which }),
    }
}

// The numbers, where no text is left.
fn ended(text: &[u8], numbers: Numbers) -> Result<Numbers, FileFault>
    ensures { Comes (λ x. x) result (at_the_end (lines_of text.now) numbers) }
{
    if text.is_empty() {
        return Ok(numbers);
    }
    let _fifth = first_line(text);
    Err(FileFault::BadParams { line: 5 })
}

// The numbers of the four lines of a text.
#[tactic(auto, unfolding(crate::specs::Params::numbers_of))]
fn read_lines(text: &[u8]) -> Result<Numbers, FileFault>
    ensures { Comes (λ x. x) result (numbers_of (lines_of text.now)) }
{
    let (pages, rest) = next_number(1, b"pages ".as_slice(), text)?;
    let (frames, rest) = next_number(2, b"frames ".as_slice(), rest)?;
    let (heap, rest) = next_number(3, b"heap ".as_slice(), rest)?;
    let (stack, rest) = next_number(4, b"stack ".as_slice(), rest)?;
    let numbers = Numbers {
        pages,
        frames,
        heap,
        stack,
    };
    ended(rest, numbers)
}

// A number in its range.
#[tactic(auto, unfolding(crate::specs::Params::ranged))]
fn within(which: u32, least: u32, most: u32, value: u64) -> Result<u32, FileFault>
    ensures is { Comes (λ x. x) result (ranged which least most value) }
    ensures range { IfOk result (λ x. (least ≤ x) × (x ≤ most)) }
{
    if value < u64::from(least) || u64::from(most) < value {
        return Err(FileFault::Parameter { which, value });
    }
    Ok(value as u32)
}

// The parameters that numbers are.
#[tactic(auto, unfolding(crate::specs::Params::params_in))]
fn in_range(numbers: Numbers) -> Result<Params, FileFault>
    ensures is { Comes (λ p. p) result (params_in numbers) }
    ensures range { IfOk result (λ p. AreInRange p) }
{
    let pages = within(1, 1, 1024, numbers.pages)?;
    let frames = within(2, 2, 16384, numbers.frames)?;
    let heap = within(3, 0, 1_048_576, numbers.heap)?;
    let stack = within(4, 64, 262_144, numbers.stack)?;
    Ok(Params {
        pages,
        frames,
        heap,
        stack,
    })
}

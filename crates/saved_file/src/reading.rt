// Bytes to the words of a saved machine.

ghost use Rattle.std.specs.Prelude.{◌≡◌, ◌+◌, ◌-◌, ◌*◌, ◌/◌, ◌≤◌, ◌<◌, ◌^◌, ◌++◌, ◌∷◌, [], List, ℕ, IsTrue, length, slice_index, IfOk, Ok};
ghost use Rattle.std.specs.List.{flat_map};
ghost use Rattle.cvm_words.specs.Bytes.{word, words_of_bytes};
ghost use Rattle.cvm_words.specs.Reading.{GivesUnless};
ghost use Rattle.mips_machine.specs.Saved.{from_halves};
ghost use Rattle.saved_file.specs.Resumable.{CanBeResumed, wanted, is_left_out as left_out, memory_word, memory_position, saved_size_at};
ghost use Rattle.saved_file.specs.Tests.{tried, all_tried, tests, head_tests, tests_behind, first_tests, special_tests, count_tests, mark_test};
ghost use Rattle.saved_file.specs.Tests.{field_test, commands_test, end_test, linked_test, size_test, turns_test, each, whole};
ghost use Rattle.saved_file.specs.declared.fault.SaveFault.TheVariants.{Memory};
ghost use Rattle.saved_file.specs.Answer.{answer, AnswersAreSo, NothingElseIsSo, AnswersAreResumable, ResumablesAreAnswered, SavedIsReadBack};

use crate::fault::SaveFault;
use cvm_words::read_words;
use std::alloc::Global;

/// What a saved machine has to fit of an image.
#[derive(Clone, Copy)]
pub struct Sizes {
    /// The frames of memory, of 1,024 words each.
    pub frames: u32,
    /// The number of users.
    pub users: u32,
    /// The most pages of a user.
    pub pages: u32,
}

/// Reads the words of a saved machine, under the sizes and the linked words of an image, the words that the schedule gives in, and the
/// number of turns that are wanted.
///
/// # Errors
///
/// What is looked at first and isn't as it has to be: the fields of the head, in order, then the end of the file, the linked words, the
/// sizes in the control blocks, and the turns. Want of memory.
pub fn read(
    alloc: Global,
    bytes: &[u8],
    sizes: &Sizes,
    inputs: &[u32],
    linked: &[u32],
    turns: u32,
) -> Result<Vec<u32>, SaveFault>
    requires frames { sizes.now.frames ≤ 65000 }
    requires layer { 16 ≤ sizes.now.frames }
    requires users { sizes.now.users ≤ 64 }
    requires linked { length linked.now ≤ 1024 * sizes.now.frames }
    requires inputs { length inputs.now < 2 ^ 32 }
    // The answer is that of the tests in order; `bytes_have_one_answer` says of bytes alone which that is.
    ensures is { GivesUnless Memory (λ v. v.items) result (answer (wanted sizes.now inputs.now linked.now turns) bytes.now) }
    // Words that are answered can be taken up,
    ensures resumable { IfOk result (λ v. CanBeResumed (wanted sizes.now inputs.now linked.now turns) v.items) }
    // and they are those that the bytes spell.
    ensures spelled { IfOk result (λ v. flat_map word v.items ≡ bytes.now) }
{
    let words = read_words(alloc, &bytes[..bytes.len() / 4 * 4])?;
    look_at(&words, bytes.len(), sizes, inputs, linked, turns)?;
    Ok(words)
}

/// A law: of each list of bytes there is one answer in the words of the tests, and that is what is answered. So each fault comes exactly
/// where it stands first, with its numbers.
pub fn bytes_have_one_answer()
    ensures so { AnswersAreSo answer }
    ensures only { NothingElseIsSo answer }
{}

/// A law: bytes are answered by words exactly where they spell words that can be taken up.
pub fn resumable_words_are_answered()
    ensures resumable { AnswersAreResumable answer }
    ensures answered { ResumablesAreAnswered answer }
{}

/// A law: the bytes of a machine that was saved in a run of the image are read back as its words, which can be taken up.
pub fn saved_machines_are_read_back()
    ensures { SavedIsReadBack answer }
{
    mips_machine::laws::saved_machines_are_accepted();
}

// Looks at all there is to look at, in order.
fn look_at(
    words: &[u32],
    bytes: usize,
    sizes: &Sizes,
    inputs: &[u32],
    linked: &[u32],
    turns: u32,
) -> Result<(), SaveFault>
    requires frames { sizes.now.frames ≤ 65000 }
    requires layer { 16 ≤ sizes.now.frames }
    requires users { sizes.now.users ≤ 64 }
    requires linked { length linked.now ≤ 1024 * sizes.now.frames }
    requires inputs { length inputs.now < 2 ^ 32 }
    ensures { result ≡ all_tried (length words.now) (tests (wanted sizes.now inputs.now linked.now turns) bytes words.now) }
{
    head(words, sizes, inputs.len() as u32)?;
    behind(words, bytes, sizes, linked, turns)
}

// Looks at the fields of the head.
fn head(words: &[u32], sizes: &Sizes, inputs: u32) -> Result<(), SaveFault>
    ensures is { result ≡ all_tried (length words.now) (head_tests sizes.now.frames sizes.now.users inputs words.now) }
    ensures whole { IfOk result (λ done. 56 ≤ length words.now) }
{
    first(words, sizes.frames, sizes.users)?;
    specials(words)?;
    counts(words, inputs)
}

// Looks at what comes behind the head.
fn behind(
    words: &[u32],
    bytes: usize,
    sizes: &Sizes,
    linked: &[u32],
    turns: u32,
) -> Result<(), SaveFault>
    requires frames { sizes.now.frames ≤ 65000 }
    requires layer { 16 ≤ sizes.now.frames }
    requires users { sizes.now.users ≤ 64 }
    requires linked { length linked.now ≤ 1024 * sizes.now.frames }
    requires head { 56 ≤ length words.now }
    ensures { result ≡ all_tried (length words.now) (tests_behind sizes.now.frames sizes.now.users sizes.now.pages turns bytes linked.now words.now) }
{
    end(words, sizes.frames, bytes)?;
    links(words, sizes.frames, linked)?;
    sizes_fit(words, sizes)?;
    turns_are_left(words, sizes.frames, turns)
}

// Looks at the field at a position, of one word.
#[tactic(auto, unfolding(crate::specs::Tests::tried))]
fn field(words: &[u32], position: usize, least: u32, most: u32) -> Result<(), SaveFault>
    requires { position ≤ 1000 }
    ensures is { result ≡ tried (length words.now) (field_test words.now position least most) }
    ensures whole { IfOk result (λ done. position < length words.now) }
{
    if words.len() < position + 1 {
        return Err(SaveFault::Truncated {
            at: 4 * words.len() as u64,
        });
    }
    let value = words[position];
    if value < least || most < value {
        return Err(SaveFault::Field {
            position: position as u64,
            value: u64::from(value),
        });
    }
    Ok(())
}

// Looks at the mark.
#[tactic(auto, unfolding(crate::specs::Tests::tried))]
fn mark(words: &[u32]) -> Result<(), SaveFault>
    ensures { result ≡ tried (length words.now) (mark_test words.now) }
{
    if words.len() < 1 {
        return Err(SaveFault::Truncated {
            at: 4 * words.len() as u64,
        });
    }
    if words[0] < 0x534d_5643 || 0x534d_5643 < words[0] {
        return Err(SaveFault::Magic);
    }
    Ok(())
}

// Looks at the first fields.
fn first(words: &[u32], frames: u32, users: u32) -> Result<(), SaveFault>
    ensures { result ≡ all_tried (length words.now) (first_tests frames users words.now) }
{
    mark(words)?;
    field(words, 1, 1, 1)?;
    field(words, 2, frames, frames)?;
    field(words, 5, 1, u32::MAX)?;
    field(words, 6, 1, users)?;
    field(words, 7, 0, 255)
}

// Looks at the special registers.
fn specials(words: &[u32]) -> Result<(), SaveFault>
    ensures { result ≡ all_tried (length words.now) (special_tests words.now) }
{
    field(words, 42, 0, 1)?;
    field(words, 43, 0, 1)?;
    field(words, 49, 1, 1)?;
    field(words, 50, 0, 1)
}

// A number from its two words, of which the low one has this position.
fn number(words: &[u32], position: usize) -> u64
    requires { position + 1 < length words.now }
    ensures { result ≡ from_halves (slice_index words.now position) (slice_index words.now (position + 1)) }
{
    u64::from(words[position]) + (u64::from(words[position + 1]) << 32)
}

// Looks at the number of the disk's next command.
#[tactic(auto, unfolding(crate::specs::Tests::tried))]
fn commands(words: &[u32]) -> Result<(), SaveFault>
    ensures { result ≡ tried (length words.now) (commands_test words.now) }
{
    if words.len() < 54 {
        return Err(SaveFault::Truncated {
            at: 4 * words.len() as u64,
        });
    }
    let value = number(words, 52);
    if number(words, 3) < value {
        return Err(SaveFault::Field {
            position: 52,
            value,
        });
    }
    Ok(())
}

// Looks at the fields behind the disk's sector register.
fn counts(words: &[u32], inputs: u32) -> Result<(), SaveFault>
    ensures is { result ≡ all_tried (length words.now) (count_tests inputs words.now) }
    ensures whole { IfOk result (λ done. 56 ≤ length words.now) }
{
    commands(words)?;
    field(words, 54, 0, inputs)?;
    field(words, 55, 0, 4096)
}

// Looks for the end of the file.
#[tactic(auto, unfolding(crate::specs::Tests::tried))]
fn end(words: &[u32], frames: u32, bytes: usize) -> Result<(), SaveFault>
    requires frames { frames ≤ 65000 }
    requires head { 56 ≤ length words.now }
    ensures is { result ≡ tried (length words.now) (end_test frames bytes words.now) }
    ensures whole { IfOk result (λ done. whole frames words.now ≤ length words.now) }
{
    let whole = 1080 + u64::from(words[55]) + 1024 * u64::from(frames);
    if (words.len() as u64) < whole {
        return Err(SaveFault::Truncated {
            at: 4 * words.len() as u64,
        });
    }
    if 4 * whole < bytes as u64 {
        return Err(SaveFault::Trailing { at: 4 * whole });
    }
    Ok(())
}

// Whether a linked word is one that a run may change.
fn is_left_out(position: usize) -> bool
    ensures { result ≡ left_out position }
{
    (1023 < position && position < 2048) || (12287 < position && position < 16384)
}

// Looks at one linked word.
#[tactic(auto, unfolding(crate::specs::Tests::tried))]
fn link(words: &[u32], frames: u32, linked: &[u32], position: usize) -> Result<(), SaveFault>
    requires few { length linked.now ≤ 1024 * frames }
    requires position { position < length linked.now }
    requires whole { whole frames words.now ≤ length words.now }
    ensures { result ≡ tried (length words.now) (linked_test frames linked.now words.now position) }
{
    if is_left_out(position) {
        return Ok(());
    }
    let stored = words[1080 + words[55] as usize + position];
    let made = linked[position];
    if stored != made {
        return Err(SaveFault::ForgedWord {
            position: position as u64,
            stored,
            made,
        });
    }
    Ok(())
}

// Looks at the linked words.
fn links(words: &[u32], frames: u32, linked: &[u32]) -> Result<(), SaveFault>
    requires few { length linked.now ≤ 1024 * frames }
    requires whole { whole frames words.now ≤ length words.now }
    ensures { result ≡ all_tried (length words.now) (each (linked_test frames linked.now words.now) 0 (length linked.now)) }
{
    for position in 0..linked.len() {
        link(words, frames, linked, position)?;
    }
    Ok(())
}

// Looks at the size of one user.
#[tactic(auto, unfolding(crate::specs::Tests::tried))]
fn size(words: &[u32], sizes: &Sizes, user: u32) -> Result<(), SaveFault>
    requires layer { 16 ≤ sizes.now.frames }
    requires whole { whole sizes.now.frames words.now ≤ length words.now }
    requires some { 1 ≤ user }
    requires most { user ≤ 64 }
    ensures { result ≡ tried (length words.now) (size_test sizes.now.frames sizes.now.pages words.now user) }
{
    let pages = words[1080 + words[55] as usize + 12288 + 64 * (user as usize - 1) + 32];
    if sizes.pages < pages {
        return Err(SaveFault::SizeTooLarge { user, pages });
    }
    Ok(())
}

// Looks at the sizes of the users.
fn sizes_fit(words: &[u32], sizes: &Sizes) -> Result<(), SaveFault>
    requires layer { 16 ≤ sizes.now.frames }
    requires whole { whole sizes.now.frames words.now ≤ length words.now }
    requires users { sizes.now.users ≤ 64 }
    ensures { result ≡ all_tried (length words.now) (each (size_test sizes.now.frames sizes.now.pages words.now) 1 sizes.now.users) }
{
    for user in 1..sizes.users + 1 {
        size(words, sizes, user)?;
    }
    Ok(())
}

// Looks whether there are turns left.
#[tactic(auto, unfolding(crate::specs::Tests::tried))]
fn turns_are_left(words: &[u32], frames: u32, turns: u32) -> Result<(), SaveFault>
    requires whole { whole frames words.now ≤ length words.now }
    ensures { result ≡ all_tried (length words.now) (turns_test frames turns words.now ∷ []) }
{
    if turns < words[5] {
        return Err(SaveFault::TurnsDone {
            saved: words[5],
            wanted: turns,
        });
    }
    Ok(())
}

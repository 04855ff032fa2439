// Bytes to an image.

ghost use Rattle.std.specs.Prelude.{◌≡◌, ◌+◌, ◌*◌, ◌≤◌, ◌<◌, ◌%◌, ◌↔◌, ℕ, [], ◌++◌, List, length, slice_index, map, Result, IfOk, Ok, Err};
ghost use Rattle.std.specs.List.{concat};
ghost use Rattle.boot_image.specs.Parts.{ImageParts};
ghost use Rattle.boot_image.specs.Format.{IsInRange, IsOldInRange, spelling, most_user_words};
ghost use Rattle.cvm_words.specs.Bytes.{words_of_bytes};
ghost use Rattle.cvm_words.specs.Reading.{Comes, GivesOkUnless};
ghost use Rattle.boot_image.specs.declared.fault.ImageFault.TheVariants.{Memory};
ghost use Rattle.boot_image.specs.Reading.{AnswersAreSpelled, SpellingsAreAnswered, image_at, answer, old_answer};
ghost use Rattle.boot_image.specs.Answer.{AnswersAreSo, NothingElseIsSo, pieces};
ghost use Rattle.boot_image.specs.Reading.{mark_at, number_at, form_at, params_at, counts_at, bare_at, system_at, header_of, old_header_of, part_at, users_at};
ghost use Rattle.boot_image.specs.Reading.{parts_of, users_of};

use crate::fault::ImageFault;
use crate::image::Image;
use arrayvec::ArrayVec;
use byteorder::{ByteOrder, LittleEndian};
use cvm_words::read_words;
use layer_map::Params;
use std::alloc::{AllocError, Global};

// The fields of an image but the users' numbers of words, and the byte where its parts begin.
#[derive(Clone, Copy)]
struct Header {
    form: u32,
    params: Params,
    source_length: u32,
    word_count: u32,
    parts_at: u64,
}

/// Reads an image: all of the bytes.
///
/// The fields are looked at in the order of the file, then the source, the linked words and each user's words, then the end. The
/// first that isn't as it is to be answers. Memory is taken once the bytes are known to be an image, and for its lists alone.
pub fn read(alloc: Global, bytes: &[u8]) -> Result<Image, ImageFault>
    // The answer is that of the reading from left to right; `bytes_have_one_answer` says of bytes alone which that is.
    ensures is { GivesOkUnless Memory result (answer bytes.now) }
    // An image is answered where the bytes are its spelling,
    ensures spelled { IfOk result (λ i. IsInRange i × (bytes.now ≡ spelling i)) }
    // and where they are, it is, or want of memory.
    ensures only { (i : ImageParts) → IsInRange i → bytes.now ≡ spelling i → GivesOkUnless Memory result (Ok i) }
{
    let (header, counts, rest) = fields(bytes)?;
    image_in(alloc, &header, &counts, rest)
}

/// Reads an image of form 2, which carried a whole system before form 3 did. It is laid out as form 3, with at most 16 users of at most 256
/// pages. Its linked words are those of the system of its time.
pub fn read_old(alloc: Global, bytes: &[u8]) -> Result<Image, ImageFault>
    ensures is { GivesOkUnless Memory result (old_answer bytes.now) }
    ensures spelled { IfOk result (λ i. IsOldInRange i × (bytes.now ≡ spelling i)) }
    ensures only { (i : ImageParts) → IsOldInRange i → bytes.now ≡ spelling i → GivesOkUnless Memory result (Ok i) }
{
    let (header, counts, rest) = old_fields(bytes)?;
    image_in(alloc, &header, &counts, rest)
}

/// A law: bytes are answered by an image exactly where they are its spelling.
pub fn images_are_their_spellings()
    ensures spelled { AnswersAreSpelled answer IsInRange }
    ensures read_back { SpellingsAreAnswered answer IsInRange }
{}

/// A law: bytes are answered by an image of form 2 exactly where they are its spelling.
pub fn old_images_are_their_spellings()
    ensures spelled { AnswersAreSpelled old_answer IsOldInRange }
    ensures read_back { SpellingsAreAnswered old_answer IsOldInRange }
{}

/// A law: of each list of bytes there is one answer in the format's own words, and that is what is answered. So each fault comes exactly
/// where it stands first, with its numbers.
pub fn bytes_have_one_answer()
    ensures pieces { (i : ImageParts) → concat (pieces i) ≡ spelling i }
    ensures so { AnswersAreSo answer IsInRange }
    ensures only { NothingElseIsSo answer IsInRange }
{}

/// The same law where form 2 is read.
pub fn old_bytes_have_one_answer()
    ensures so { AnswersAreSo old_answer IsOldInRange }
    ensures only { NothingElseIsSo old_answer IsOldInRange }
{}

// The image of a header and of the bytes that follow it.
fn image_in(
    alloc: Global,
    header: &Header,
    counts: &[u32],
    bytes: &[u8],
) -> Result<Image, ImageFault>
    requires at { header.now.parts_at ≤ 1000 }
    requires few { length counts.now ≤ 64 }
    ensures { GivesOkUnless Memory result (image_at header.now counts.now bytes.now) }
{
    let (source, words, users) = parts(header, counts, bytes)?;
    Ok(Image {
        params: header.params,
        form: header.form,
        source: Vec::from_slice(alloc, source)?,
        words: read_words(alloc, words)?,
        users: users_in(alloc, counts, users)?,
    })
}

// The fields, the users' numbers of words, and the bytes that follow them.
#[tactic(auto, unfolding(crate::specs::Reading::header_of))]
fn fields(bytes: &[u8]) -> Result<(Header, ArrayVec<u32, 64>, &[u8]), ImageFault>
    ensures is { Comes (λ x. (x.0, (x.1.items, x.2.now))) result (header_of bytes.now) }
    ensures position { IfOk result (λ x. x.0.parts_at ≤ 1000) }
{
    let rest = after_mark(bytes)?;
    let (form, rest) = form(rest)?;
    if form == 1 {
        bare(rest)
    } else {
        system(rest, 3, 64, 1024)
    }
}

// The same of a file of form 2.
#[tactic(auto, unfolding(crate::specs::Reading::old_header_of))]
fn old_fields(bytes: &[u8]) -> Result<(Header, ArrayVec<u32, 64>, &[u8]), ImageFault>
    ensures is { Comes (λ x. (x.0, (x.1.items, x.2.now))) result (old_header_of bytes.now) }
    ensures position { IfOk result (λ x. x.0.parts_at ≤ 1000) }
{
    let rest = after_mark(bytes)?;
    let (_, rest) = number(rest, 1, 2, 2)?;
    system(rest, 2, 16, 256)
}

// The bytes that follow the mark.
#[tactic(auto, unfolding(crate::specs::Reading::mark_at))]
fn after_mark(bytes: &[u8]) -> Result<&[u8], ImageFault>
    ensures { Comes (λ x. x.now) result (mark_at bytes.now) }
{
    if bytes.len() < 4 {
        return Err(ImageFault::Truncated { at: 0 });
    }
    let (mark, rest) = bytes.split_at(4);
    if mark == b"CVMI".as_slice() {
        Ok(rest)
    } else {
        Err(ImageFault::Magic)
    }
}

// The number of word `which` of the file, and the bytes that follow it.
#[tactic(auto, unfolding(crate::specs::Reading::number_at))]
fn number(bytes: &[u8], which: u32, least: u32, most: u32) -> Result<(u32, &[u8]), ImageFault>
    ensures is { Comes (λ x. (x.0, x.1.now)) result (number_at which least most bytes.now) }
    ensures range { IfOk result (λ x. (least ≤ x.0) × (x.0 ≤ most)) }
{
    if bytes.len() < 4 {
        return Err(ImageFault::Truncated {
            at: 4 * u64::from(which),
        });
    }
    let value = LittleEndian::read_u32(bytes);
    if value < least || most < value {
        return Err(ImageFault::Parameter {
            which: u64::from(which),
            value: u64::from(value),
        });
    }
    Ok((value, &bytes[4..]))
}

// The form, and the bytes that follow it.
#[tactic(auto, unfolding(crate::specs::Reading::form_at))]
fn form(bytes: &[u8]) -> Result<(u32, &[u8]), ImageFault>
    ensures { Comes (λ x. (x.0, x.1.now)) result (form_at bytes.now) }
{
    let (form, rest) = number(bytes, 1, 1, 3)?;
    if form == 2 {
        return Err(ImageFault::Parameter { which: 1, value: 2 });
    }
    Ok((form, rest))
}

// Behind the form of a source alone.
#[tactic(auto, unfolding(crate::specs::Reading::bare_at))]
fn bare(bytes: &[u8]) -> Result<(Header, ArrayVec<u32, 64>, &[u8]), ImageFault>
    ensures is { Comes (λ x. (x.0, (x.1.items, x.2.now))) result (bare_at bytes.now) }
    ensures position { IfOk result (λ x. x.0.parts_at ≤ 1000) }
{
    let (source_length, rest) = number(bytes, 2, 0, 1_048_576)?;
    let params = Params {
        pages: 1,
        frames: 2,
        heap: 1024,
        stack: 1024,
    };
    let header = Header {
        form: 1,
        params,
        source_length,
        word_count: 0,
        parts_at: 12,
    };
    Ok((header, ArrayVec::new(), rest))
}

// Behind the form of a whole system.
#[tactic(auto, unfolding(crate::specs::Reading::system_at))]
fn system(
    bytes: &[u8],
    form: u32,
    most_users: u32,
    most_pages: u32,
) -> Result<(Header, ArrayVec<u32, 64>, &[u8]), ImageFault>
    requires users { most_users ≤ 64 }
    requires pages { most_pages ≤ 1024 }
    ensures is { Comes (λ x. (x.0, (x.1.items, x.2.now))) result (system_at form most_users most_pages bytes.now) }
    ensures position { IfOk result (λ x. x.0.parts_at ≤ 1000) }
{
    let (users, rest) = number(bytes, 2, 0, most_users)?;
    let (params, rest) = params(rest, most_pages)?;
    let (source_length, rest) = number(rest, 7, 0, 1_048_576)?;
    let (word_count, rest) = number(rest, 8, 16384, 4_194_304)?;
    let most = (1024 * params.pages).min(65536);
    let (counts, rest) = counts(rest, users, most)?;
    let header = Header {
        form,
        params,
        source_length,
        word_count,
        parts_at: 36 + 4 * u64::from(users),
    };
    Ok((header, counts, rest))
}

// The parameters, and the bytes that follow them.
#[tactic(auto, unfolding(crate::specs::Reading::params_at))]
fn params(bytes: &[u8], most_pages: u32) -> Result<(Params, &[u8]), ImageFault>
    ensures is { Comes (λ x. (x.0, x.1.now)) result (params_at most_pages bytes.now) }
    ensures pages { IfOk result (λ x. x.0.pages ≤ most_pages) }
{
    let (pages, rest) = number(bytes, 3, 1, most_pages)?;
    let (frames, rest) = number(rest, 4, 2, 16384)?;
    let (heap, rest) = number(rest, 5, 0, 1_048_576)?;
    let (stack, rest) = number(rest, 6, 64, 262_144)?;
    let params = Params {
        pages,
        frames,
        heap,
        stack,
    };
    Ok((params, rest))
}

// The numbers of words of the users, and the bytes that follow them.
fn counts(bytes: &[u8], users: u32, most: u32) -> Result<(ArrayVec<u32, 64>, &[u8]), ImageFault>
    requires { users ≤ 64 }
    ensures { Comes (λ x. (x.0.items, x.1.now)) result (counts_at [] most users bytes.now) }
{
    let mut counts = ArrayVec::new();
    let mut rest = bytes;
    for user in 0..users {
        let (count, others) = number(rest, 9 + user, 0, most)?;
        counts.push(count);
        rest = others;
    }
    Ok((counts, rest))
}

// The bytes of a part of `size` bytes that begins at byte `at` of the file, and those that follow it.
#[tactic(auto, unfolding(crate::specs::Reading::part_at))]
fn part(bytes: &[u8], at: u64, size: u64) -> Result<(&[u8], &[u8]), ImageFault>
    ensures is { Comes (λ x. (x.0.now, x.1.now)) result (part_at at size bytes.now) }
    ensures size { IfOk result (λ x. length x.0.now ≡ size) }
{
    if (bytes.len() as u64) < size {
        return Err(ImageFault::Truncated { at });
    }
    Ok(bytes.split_at(size as usize))
}

// The bytes of the source, of the linked words, and of all users' words.
#[tactic(auto, unfolding(crate::specs::Reading::parts_of))]
fn parts<'a>(
    header: &Header,
    counts: &[u32],
    bytes: &'a [u8],
) -> Result<(&'a [u8], &'a [u8], &'a [u8]), ImageFault>
    requires at { header.now.parts_at ≤ 1000 }
    requires few { length counts.now ≤ 64 }
    ensures is { Comes (λ x. (x.0.now, (x.1.now, x.2.now))) result (parts_of header.now counts.now bytes.now) }
    ensures whole { IfOk result (λ x. length x.1.now % 4 ≡ 0) }
    ensures users { IfOk result (λ x. users_at (header.now.parts_at + header.now.source_length + 4 * header.now.word_count) counts.now x.2.now ≡ Ok tt) }
{
    let words_at = header.parts_at + u64::from(header.source_length);
    let words_length = 4 * u64::from(header.word_count);
    let (source, rest) = part(bytes, header.parts_at, u64::from(header.source_length))?;
    let (words, rest) = part(rest, words_at, words_length)?;
    users_are_whole(rest, words_at + words_length, counts)?;
    Ok((source, words, rest))
}

// Looks whether the words of each user are whole, and nothing follows.
fn users_are_whole(bytes: &[u8], at: u64, counts: &[u32]) -> Result<(), ImageFault>
    requires at { at ≤ 1000000000000 }
    requires few { length counts.now ≤ 64 }
    ensures { Comes (λ x. tt) result (users_at at counts.now bytes.now) }
{
    let mut rest = bytes;
    let mut position = at;
    for count in counts {
        let size = 4 * u64::from(*count);
        let (_, others) = part(rest, position, size)?;
        rest = others;
        position += size;
    }
    if rest.is_empty() {
        Ok(())
    } else {
        Err(ImageFault::Trailing { at: position })
    }
}

// The words of each user.
fn users_in(alloc: Global, counts: &[u32], bytes: &[u8]) -> Result<Vec<Vec<u32>>, AllocError>
    requires { (at : ℕ) × (users_at at counts.now bytes.now ≡ Ok tt) }
    ensures { IfOk result (λ v. map (λ u. u.items) v.items ≡ users_of counts.now bytes.now) }
{
    let mut users = Vec::with_capacity(alloc, counts.len())?;
    let mut rest = bytes;
    for count in counts {
        let (words, others) = rest.split_at(4 * *count as usize);
        users.push(read_words(alloc, words)?)?;
        rest = others;
    }
    Ok(users)
}

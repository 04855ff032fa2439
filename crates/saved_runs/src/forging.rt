// Forged files of a saved machine.

use crate::bytes::{set_word, word_of};
use crate::outside::World;
use crate::tally::Tally;
use std::alloc::{AllocError, Global};

/// How many words are set in a file of pseudo-random words.
const WORDS_A_FILE: u32 = 8;

// The next state of a generator: a linear congruence modulo 2^32 (Numerical Recipes).
fn next(state: u32) -> u32 {
    state.wrapping_mul(1_664_525).wrapping_add(1_013_904_223)
}

// A word of two states of the generator: the upper half of each, in this order.
fn random_word(first: u32, second: u32) -> u32 {
    first / 65536 * 65536 + second / 65536
}

// A copy of the file `f` with this word set.
fn put_word(
    alloc: Global,
    world: &mut World,
    tally: &mut Tally,
    bytes: &mut Vec<u8>,
    word: u32,
) -> Result<(), AllocError> {
    let old = word_of(bytes, word);
    for value in [0, 1, old.wrapping_add(1), u32::MAX] {
        set_word(bytes, word, value);
        tally.count(alloc, world, bytes, "word", word)?;
    }
    set_word(bytes, word, old);
    Ok(())
}

/// Sets words of the file `f`, each to four values in turn, and goes on from each.
pub fn put_words(
    alloc: Global,
    world: &mut World,
    out: &mut String,
    first: u32,
    count: u32,
    stride: u32,
) -> Result<(), AllocError> {
    let mut bytes = world.bytes(alloc, "f");
    let mut tally = Tally::new(alloc, world);
    for place in 0..count {
        if place % stride.max(1) == 0 {
            let word = first.saturating_add(place);
            put_word(alloc, world, &mut tally, &mut bytes, word)?;
        }
    }
    tally.put(out)
}

/// Sets each of so many words of the file `f` to its successor, and goes on from each.
pub fn put_next_words(
    alloc: Global,
    world: &mut World,
    out: &mut String,
    first: u32,
    count: u32,
) -> Result<(), AllocError> {
    let mut bytes = world.bytes(alloc, "f");
    let mut tally = Tally::new(alloc, world);
    for place in 0..count {
        let word = first.saturating_add(place);
        let old = word_of(&bytes, word);
        set_word(&mut bytes, word, old.wrapping_add(1));
        tally.count(alloc, world, &bytes, "word", word)?;
        set_word(&mut bytes, word, old);
    }
    tally.put(out)
}

/// Cuts the file `f` to each length below this one, and goes on from each.
pub fn put_cuts(
    alloc: Global,
    world: &mut World,
    out: &mut String,
    count: u32,
) -> Result<(), AllocError> {
    let bytes = world.bytes(alloc, "f");
    let mut tally = Tally::new(alloc, world);
    for length in 0..count {
        let front = bytes.get(..length as usize).unwrap_or(&bytes);
        tally.count(alloc, world, front, "length", length)?;
    }
    tally.put(out)
}

// Sets eight words among so many to pseudo-random ones, and tells the generator's state behind them.
fn scatter(bytes: &mut [u8], first: u32, count: u32, seed: u32) -> u32 {
    let mut state = seed;
    for _ in 0..WORDS_A_FILE {
        let place = next(state);
        let high = next(place);
        let low = next(high);
        let word = first.saturating_add(place / 256 % count.max(1));
        set_word(bytes, word, random_word(high, low));
        state = low;
    }
    state
}

/// Sets eight of so many words of the file `f` to pseudo-random ones, for so many files, and goes on from each.
pub fn put_random(
    alloc: Global,
    world: &mut World,
    out: &mut String,
    first: u32,
    count: u32,
    files: u32,
    seed: u32,
) -> Result<(), AllocError> {
    let whole = world.bytes(alloc, "f");
    let mut tally = Tally::new(alloc, world);
    let mut state = seed;
    for file in 0..files {
        let mut bytes = whole.clone()?;
        state = scatter(&mut bytes, first, count, state);
        tally.count(alloc, world, &bytes, "file", file)?;
    }
    tally.put(out)
}

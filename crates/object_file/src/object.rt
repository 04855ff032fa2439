// An object.

use std::marker::Model;

/// The most bytes that a source has.
pub const MOST_SOURCE: u32 = 1_048_576;

/// The most words that an object has.
pub const MOST_WORDS: u32 = 4_177_920;

/// A source and the words that it was compiled to. Contracts see it as two
/// lists of numbers: the bytes of the source, and the words.
#[derive(Debug, Drop)]
pub struct Object {
    /// The source, at most 1,048,576 bytes in a file.
    pub source: Vec<u8>,
    /// The words, at most 4,177,920 in a file.
    pub words: Vec<u32>,
}

impl Model for Object {
    ghost use Rattle.object_file.specs.Parts.{ObjectParts};

    ghost Value = { ObjectParts };

    ghost view = { λ o. record { source = o.source.items; words = o.words.items } };
}

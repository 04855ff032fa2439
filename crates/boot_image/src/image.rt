// An image.

use layer_map::Params;
use std::marker::Model;

/// What is booted. Contracts see it with lists of numbers: the bytes of the source, the linked words, and the words of each user.
#[derive(Debug, Drop)]
pub struct Image {
    /// The parameters of the system; in form 1 these are 1 page, 2 frames, and a heap and a stack of 1,024 words.
    pub params: Params,
    /// The form of the file, 1, 2 or 3.
    pub form: u32,
    /// The kernel's source, at most 1,048,576 bytes.
    pub source: Vec<u8>,
    /// The linked words: none in form 1, 16,384 to 4,194,304 in forms 2 and 3.
    pub words: Vec<u32>,
    /// The words of each user: none in form 1, at most 16 users in form 2 and 64 in form 3, each of at most 65,536 words and of no more
    /// than the pages of the parameters have.
    pub users: Vec<Vec<u32>>,
}

impl Model for Image {
    ghost use Rattle.std.specs.Prelude.{map};
    ghost use Rattle.boot_image.specs.Parts.{ImageParts};

    ghost Value = { ImageParts };

    ghost view = { λ i. record { params = i.params; form = i.form; source = i.source.items; words = i.words.items; users = map (λ u. u.items) i.users.items } };
}

// What is at hand: an object, users, and the bytes of an image.

use byteorder::{ByteOrder, LittleEndian};
use c0_types::read_unit;
use kernel_linker::make_object;
use object_file::Object;
use std::alloc::{AllocError, Global};
use system_files::user_words;

/// Where an image has the number of its linked words.
const WORD_COUNT: usize = 32;

/// What is at hand.
#[derive(Drop)]
pub struct Desk {
    /// The object.
    pub object: Object,
    /// The words of each user.
    pub users: Vec<Vec<u32>>,
    /// The bytes of an image.
    pub image: Vec<u8>,
    /// The bytes of the image that was linked last.
    pub linked: Vec<u8>,
}

// The object of a source, with no words if the source is refused.
fn object_of(alloc: Global, source: &[u8]) -> Result<Object, AllocError> {
    match read_unit(alloc, source) {
        Ok(unit) => make_object(alloc, source, &unit),
        Err(_) => bare_object(alloc, source),
    }
}

// An object of a source with no words.
fn bare_object(alloc: Global, source: &[u8]) -> Result<Object, AllocError> {
    Ok(Object {
        source: Vec::from_slice(alloc, source)?,
        words: Vec::new(alloc),
    })
}

impl Desk {
    /// With no source, no users and no bytes.
    pub fn new(alloc: Global) -> Desk {
        Desk {
            object: Object {
                source: Vec::new(alloc),
                words: Vec::new(alloc),
            },
            users: Vec::new(alloc),
            image: Vec::new(alloc),
            linked: Vec::new(alloc),
        }
    }

    /// Brings the object that a source is compiled to, and no users.
    pub fn bring_kernel(&mut self, alloc: Global, source: &[u8]) -> Result<(), AllocError> {
        self.object = object_of(alloc, source)?;
        self.users = Vec::new(alloc);
        Ok(())
    }

    /// Brings an object of a source with no words, and no users.
    pub fn bring_object(&mut self, alloc: Global, source: &[u8]) -> Result<(), AllocError> {
        self.object = bare_object(alloc, source)?;
        self.users = Vec::new(alloc);
        Ok(())
    }

    /// Turns the lowest bit of a word of the object.
    pub fn forge_object(&mut self, place: usize) {
        if let Some(word) = self.object.words.get_mut(place) {
            *word ^= 1;
        }
    }

    /// Drops the last words of the object.
    pub fn shorten_object(&mut self, count: usize) {
        let left = self.object.words.len().saturating_sub(count);
        self.object.words.truncate(left);
    }

    /// Adds words 0 to the object.
    pub fn lengthen_object(&mut self, count: usize) -> Result<(), AllocError> {
        for _ in 0..count {
            self.object.words.push(0)?;
        }
        Ok(())
    }

    /// Brings a further user of the words of bytes, or of none where they are not whole.
    pub fn bring_user(&mut self, alloc: Global, bytes: &[u8]) -> Result<(), AllocError> {
        let words = match user_words(alloc, 1, bytes) {
            Ok(words) => words,
            Err(_) => Vec::new(alloc),
        };
        self.users.push(words)?;
        Ok(())
    }

    /// Brings a further user of words 0.
    pub fn bring_zeros(&mut self, alloc: Global, count: usize) -> Result<(), AllocError> {
        self.users.push(vec![in alloc; 0; count]?)?;
        Ok(())
    }

    /// Brings further users of no words.
    pub fn bring_users(&mut self, alloc: Global, count: usize) -> Result<(), AllocError> {
        for _ in 0..count {
            self.users.push(Vec::new(alloc))?;
        }
        Ok(())
    }

    /// Brings the bytes of an image.
    pub fn bring_image(&mut self, bytes: &[u8]) -> Result<(), AllocError> {
        self.image.clear();
        self.image.extend_from_slice(bytes)
    }

    /// Replaces a byte of the image by the lowest one of a number.
    pub fn set_byte(&mut self, place: usize, value: u32) {
        if let Some(byte) = self.image.get_mut(place) {
            *byte = (value % 256) as u8;
        }
    }

    /// Turns the lowest bit of a byte of the image.
    pub fn flip_byte(&mut self, place: usize) {
        if let Some(byte) = self.image.get_mut(place) {
            *byte ^= 1;
        }
    }

    /// Leaves the first bytes of the image.
    pub fn cut_image(&mut self, count: usize) {
        self.image.truncate(count);
    }

    /// Adds linked words 0 to the image of a system without users: so many more are counted, and stand at the end.
    pub fn extend_image(&mut self, count: u32) -> Result<(), AllocError> {
        if self.image.len() >= WORD_COUNT + 4 {
            let field = &mut self.image[WORD_COUNT..WORD_COUNT + 4];
            let words = LittleEndian::read_u32(field);
            LittleEndian::write_u32(field, words.wrapping_add(count));
        }
        for _ in 0..count {
            self.lengthen_image(4)?;
        }
        Ok(())
    }

    /// Adds bytes 0 to the image.
    pub fn lengthen_image(&mut self, count: usize) -> Result<(), AllocError> {
        for _ in 0..count {
            self.image.push(0)?;
        }
        Ok(())
    }
}

// Boot images, those of form 2, the parameters of a system and the words of a user: what each holds. Of an image its parameters, and its source,
// words and users, and whether writing it gives the same bytes again; of one of form 2 also how what was written is read back, in form 2 and as
// the other forms are.

use boot_image::{Image, ImageFault, read, read_old, write};
use std::alloc::{AllocError, Global};
use std::fmt::Write;
use system_files::{FileFault, params_of, user_words};

// The numbers of words of the users.
fn put_users(out: &mut String, image: &Image) -> Result<(), AllocError> {
    write!(out, "users, {}:", image.users.len())?;
    for user in &image.users {
        write!(out, " {}", user.len())?;
        for word in user.iter().take(2) {
            write!(out, " {word:08x}")?;
        }
    }
    out.push('\n')
}

// The fields of an image, and the numbers of its parts.
fn put_image(out: &mut String, image: &Image) -> Result<(), AllocError> {
    let params = &image.params;
    writeln!(
        out,
        "form {}: pages {} frames {} heap {} stack {}",
        image.form, params.pages, params.frames, params.heap, params.stack
    )?;
    writeln!(out, "source, {} bytes", image.source.len())?;
    writeln!(out, "words, {}", image.words.len())?;
    put_users(out, image)
}

// Whether an image is written as it was read.
fn put_written(out: &mut String, is_same: bool) -> Result<(), AllocError> {
    out.push_str(if is_same {
        "written as it was\n"
    } else {
        "written otherwise\n"
    })
}

// Why bytes are no image.
fn put_fault(out: &mut String, fault: ImageFault) -> Result<(), AllocError> {
    write!(out, "{}", fault.number())?;
    if let Some(at) = fault.at() {
        write!(out, " at {at}")?;
    }
    if let Some(which) = fault.which() {
        write!(out, " word {which}")?;
    }
    if let Some(value) = fault.value() {
        write!(out, ", value {value}")?;
    }
    out.push('\n')
}

// What is printed of bytes that are read as an image.
pub(crate) fn put_image_file(
    alloc: Global,
    out: &mut String,
    bytes: &[u8],
) -> Result<(), AllocError> {
    match read(alloc, bytes) {
        Ok(image) => {
            put_image(out, &image)?;
            let written = write(alloc, &image)?;
            put_written(out, written.as_slice() == bytes)
        }
        Err(fault) => put_fault(out, fault),
    }
}

// How bytes that were written in form 2 are read back.
fn put_reread(alloc: Global, out: &mut String, bytes: &[u8]) -> Result<(), AllocError> {
    match read_old(alloc, bytes) {
        Ok(image) => {
            writeln!(
                out,
                "read back: form {}, users {}, pages {}",
                image.form,
                image.users.len(),
                image.params.pages
            )?;
            Ok(())
        }
        Err(fault) => put_fault(out, fault),
    }
}

// What is printed of bytes that are read as an image of form 2: what it holds, whether writing it gives the same bytes again, and what both
// readings answer of what was written.
pub(crate) fn put_old(alloc: Global, out: &mut String, bytes: &[u8]) -> Result<(), AllocError> {
    match read_old(alloc, bytes) {
        Ok(image) => {
            put_image(out, &image)?;
            let written = write(alloc, &image)?;
            put_written(out, written.as_slice() == bytes)?;
            put_reread(alloc, out, &written)?;
            put_image_file(alloc, out, &written)
        }
        Err(fault) => put_fault(out, fault),
    }
}

// Why a file has no parameters or no words.
fn put_file_fault(out: &mut String, fault: FileFault) -> Result<(), AllocError> {
    write!(out, "{}", fault.number())?;
    for field in &fault.fields() {
        write!(out, " {field}")?;
    }
    out.push('\n')
}

// What is printed of a text that is read as parameters.
pub(crate) fn put_params(out: &mut String, text: &[u8]) -> Result<(), AllocError> {
    match params_of(text) {
        Ok(params) => {
            writeln!(
                out,
                "pages {} frames {} heap {} stack {}",
                params.pages, params.frames, params.heap, params.stack
            )?;
            Ok(())
        }
        Err(fault) => put_file_fault(out, fault),
    }
}

// What is printed of the file of user 3.
pub(crate) fn put_user(alloc: Global, out: &mut String, bytes: &[u8]) -> Result<(), AllocError> {
    match user_words(alloc, 3, bytes) {
        Ok(words) => {
            write!(out, "words, {}:", words.len())?;
            for word in &words {
                write!(out, " {word:08x}")?;
            }
            out.push('\n')
        }
        Err(fault) => put_file_fault(out, fault),
    }
}

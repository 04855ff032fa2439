// What is answered, as text.

use crate::desk::Desk;
use boot_image::{Image, write};
use kernel_linker::{AcceptFault, Accepted, LinkFault, accept, link, migrate};
use layer_map::{LAYER_WORDS, Params};
use real_layer::RealLayer;
use std::alloc::{AllocError, Global};
use std::fmt::Write;

// A question's answer.
fn put_whether(out: &mut String, question: &str, holds: bool) -> Result<(), AllocError> {
    out.push_str(question)?;
    out.push_str(if holds { " yes\n" } else { " no\n" })
}

// Parameters.
fn put_params(out: &mut String, params: &Params) -> Result<(), AllocError> {
    writeln!(
        out,
        "pages {} frames {} heap {} stack {}",
        params.pages, params.frames, params.heap, params.stack
    )?;
    Ok(())
}

// The numbers of words of users.
fn put_users(out: &mut String, users: &[Vec<u32>]) -> Result<(), AllocError> {
    write!(out, "users {}:", users.len())?;
    for user in users {
        write!(out, " {}", user.len())?;
    }
    out.push('\n')
}

// The numbers of a refusal.
fn put_numbers(out: &mut String, number: u32, fields: &[u64]) -> Result<(), AllocError> {
    write!(out, "refused {number}")?;
    for field in fields {
        write!(out, " {field}")?;
    }
    out.push('\n')
}

// A word that differs, by its position and by the bits that differ, so that the word itself need not be known.
fn put_forged(
    out: &mut String,
    number: u32,
    position: u64,
    stored: u32,
    made: u32,
) -> Result<(), AllocError> {
    writeln!(
        out,
        "refused {number} {position}, bits {:08x}",
        stored ^ made
    )?;
    Ok(())
}

// Numbers of words that differ, by how many words more are stored than are made, or fewer.
fn put_counts(out: &mut String, number: u32, stored: u64, made: u64) -> Result<(), AllocError> {
    writeln!(
        out,
        "refused {number}, more {} fewer {}",
        stored.saturating_sub(made),
        made.saturating_sub(stored)
    )?;
    Ok(())
}

// Why nothing is linked.
fn put_link_fault(out: &mut String, fault: LinkFault) -> Result<(), AllocError> {
    match fault {
        LinkFault::ObjectForged {
            position,
            stored,
            made,
        } => put_forged(out, fault.number(), position, stored, made),
        LinkFault::ObjectForgedCount { stored, made } => {
            put_counts(out, fault.number(), stored, made)
        }
        _ => put_numbers(out, fault.number(), &fault.fields()),
    }
}

// Why an image is not accepted or migrated.
fn put_accept_fault(out: &mut String, fault: AcceptFault) -> Result<(), AllocError> {
    match fault {
        AcceptFault::Forged {
            position,
            stored,
            made,
        } => put_forged(out, fault.number(), position, stored, made),
        AcceptFault::ForgedCount { stored, made } => put_counts(out, fault.number(), stored, made),
        _ => put_numbers(out, fault.number(), &fault.fields()),
    }
}

// An image, and whether the words behind the layer's are those of the object at hand.
fn put_image(out: &mut String, image: &Image, desk: &Desk) -> Result<(), AllocError> {
    write!(out, "form {}: ", image.form)?;
    put_params(out, &image.params)?;
    writeln!(out, "source {} bytes", image.source.len())?;
    put_users(out, &image.users)?;
    let kernel = image.words.get(LAYER_WORDS as usize..).unwrap_or(&[]);
    let words = desk.object.words.as_slice();
    put_whether(out, "the object's words:", kernel == words)
}

/// Links what is at hand, and brings the image.
pub fn show_linked(
    alloc: Global,
    desk: &mut Desk,
    out: &mut String,
    params: &Params,
) -> Result<(), AllocError> {
    match link::<RealLayer>(alloc, &desk.object, params, &desk.users) {
        Ok(image) => {
            put_image(out, &image, desk)?;
            desk.image = write(alloc, &image)?;
            desk.linked = write(alloc, &image)?;
            Ok(())
        }
        Err(fault) => put_link_fault(out, fault),
    }
}

// What is booted.
fn put_accepted(
    out: &mut String,
    accepted: &Accepted<RealLayer>,
    desk: &Desk,
) -> Result<(), AllocError> {
    let boot = &accepted.boot;
    out.push_str("accepted: ")?;
    put_params(out, &boot.params)?;
    put_users(out, &boot.users)?;
    let kernel = boot.words.get(LAYER_WORDS as usize..).unwrap_or(&[]);
    let words = desk.object.words.as_slice();
    put_whether(out, "the object's words:", kernel == words)
}

/// Accepts the image at hand.
pub fn show_accepted(alloc: Global, desk: &Desk, out: &mut String) -> Result<(), AllocError> {
    match accept::<RealLayer>(alloc, &desk.image) {
        Ok(accepted) => put_accepted(out, &accepted, desk),
        Err(fault) => put_accept_fault(out, fault),
    }
}

/// Migrates the image at hand, and brings the new one.
pub fn show_migrated(alloc: Global, desk: &mut Desk, out: &mut String) -> Result<(), AllocError> {
    match migrate::<RealLayer>(alloc, &desk.image) {
        Ok(image) => {
            put_image(out, &image, desk)?;
            desk.image = write(alloc, &image)?;
            let same = desk.image.as_slice() == desk.linked.as_slice();
            put_whether(out, "as it was linked:", same)
        }
        Err(fault) => put_accept_fault(out, fault),
    }
}

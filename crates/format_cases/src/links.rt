// Systems that are linked, accepted and migrated over the layer of the machine: what is answered. A case's kind
// says what is done, and its name begins with the numbers that this needs; what stands behind them is a comment. What is at hand goes from a
// case to the next: an object, users, and the bytes of an image.
//
// - `kernel` brings the object that its source is compiled to, and no users; if the source is refused, an object with no words;
// - `object` brings an object of its source with no words, and no users;
// - `forge N` turns the lowest bit of the object's word N, `shorter N` drops its last N words, and `longer N` adds N words 0 to it;
// - `user` brings a further user of these bytes, `zeros N` one of N words 0, and `users N` N users of no words;
// - `link PAGES FRAMES HEAP STACK` links the object and the users, and brings the image;
// - `image` brings the bytes of an image;
// - `byte AT VALUE` replaces a byte of it, `flip AT` turns the lowest bit of a byte, `cut N` leaves its first N bytes, `more N` adds N
//   bytes 0, and `extend N` adds N linked words 0, where there are no users;
// - `accept` accepts it, and `migrate` migrates it and brings the new one.

use crate::desk::Desk;
use crate::show::{show_accepted, show_linked, show_migrated};
use case_file::Case;
use layer_map::Params;
use std::alloc::{AllocError, Global};
use std::fmt::Write;

// The number at a place of those that a text begins with, or 0.
fn number(text: &str, place: usize) -> u32 {
    match text.split(' ').nth(place) {
        Some(word) => word.parse::<u32>().unwrap_or(0),
        None => 0,
    }
}

// The parameters that a text begins with.
fn params_in(text: &str) -> Params {
    Params {
        pages: number(text, 0),
        frames: number(text, 1),
        heap: number(text, 2),
        stack: number(text, 3),
    }
}

// Brings a part, if the case is of such a kind.
fn bring(alloc: Global, desk: &mut Desk, case: &Case) -> Result<(), AllocError> {
    let number = number(case.name.as_str(), 0);
    let count = number as usize;
    match case.kind.as_str() {
        "kernel" => desk.bring_kernel(alloc, &case.source),
        "object" => desk.bring_object(alloc, &case.source),
        "longer" => desk.lengthen_object(count),
        "user" => desk.bring_user(alloc, &case.source),
        "zeros" => desk.bring_zeros(alloc, count),
        "users" => desk.bring_users(alloc, count),
        "image" => desk.bring_image(&case.source),
        "more" => desk.lengthen_image(count),
        "extend" => desk.extend_image(number),
        _ => Ok(()),
    }
}

// Changes a part, if the case is of such a kind.
fn change(desk: &mut Desk, case: &Case) {
    let place = number(case.name.as_str(), 0) as usize;
    match case.kind.as_str() {
        "forge" => desk.forge_object(place),
        "shorter" => desk.shorten_object(place),
        "byte" => desk.set_byte(place, number(case.name.as_str(), 1)),
        "flip" => desk.flip_byte(place),
        "cut" => desk.cut_image(place),
        _ => (),
    }
}

// Shows what is answered, if the case asks for something.
fn ask(alloc: Global, desk: &mut Desk, out: &mut String, case: &Case) -> Result<(), AllocError> {
    match case.kind.as_str() {
        "link" => show_linked(alloc, desk, out, &params_in(case.name.as_str())),
        "accept" => show_accepted(alloc, desk, out),
        "migrate" => show_migrated(alloc, desk, out),
        _ => Ok(()),
    }
}

// What is printed of cases that follow one another.
pub(crate) fn put_links(alloc: Global, out: &mut String, all: &[Case]) -> Result<(), AllocError> {
    let mut desk = Desk::new(alloc);
    for case in all {
        writeln!(out, "== {} {}", case.kind.as_str(), case.name.as_str())?;
        bring(alloc, &mut desk, case)?;
        change(&mut desk, case);
        ask(alloc, &mut desk, out, case)?;
    }
    Ok(())
}

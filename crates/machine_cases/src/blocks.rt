// The layer's blocks: they run on machines as the lines of a text say, and each line is printed, and what it has to tell:
//
//     machine USERS PAGES FRAMES BUSY   a new machine of 32 frames for this map, with a kernel of no words, and a disk of
//                                       8 sectors that is busy for BUSY steps with each of its first ten commands
//     fill ADDRESS COUNT WORD           words of memory, each one more than the one before
//     WORD                              a word of code, 8 hexadecimal digits
//     block NAME                        the code of a block
//     run                               runs the code to its end; tells the steps
//     registers                         registers 1 to 31, hi, lo and epc
//     words ADDRESS COUNT               words of memory
//     sectors                           the first and the last word of each sector
//
// Other lines are only printed. Counts, steps and the numbers of a machine are decimal. The blocks are save, restore, keep,
// resume, out, in, evict, find, leave, join and hand.

use crate::block_desk::Desk;
use crate::field::{field, hex, number};
use frame_table::{add_mapping, advance_clock, evict_frame, remove_mapping, walk_page_table};
use layer_map::{Map, Params};
use pcb_layer::{restore_registers, restore_user, save_registers, save_user};
use std::alloc::{AllocError, Global};
use std::fmt::Write;
use swap_layer::{swap_in, swap_out};

// The map of a line's numbers, each brought into its range.
fn map_of(users: u32, pages: u32, frames: u32) -> Map {
    let params = Params {
        pages: pages.clamp(1, 1024),
        frames: frames.clamp(2, 16384),
        heap: 0,
        stack: 64,
    };
    Map::of(&params, users.min(64), 0, 0)
}

// Appends a block on the current user.
fn append_user(desk: &mut Desk, name: &[u8]) {
    if name == b"save".as_slice() {
        desk.append(save_registers().words());
    } else if name == b"restore".as_slice() {
        desk.append(restore_registers().words());
    } else if name == b"keep".as_slice() {
        desk.append(save_user().words());
    } else if name == b"resume".as_slice() {
        desk.append(restore_user().words());
    }
}

// Appends a block on frames.
fn append_frames(desk: &mut Desk, map: &Map, name: &[u8]) {
    if name == b"out".as_slice() {
        desk.append(swap_out().words());
    } else if name == b"in".as_slice() {
        desk.append(swap_in().words());
    } else if name == b"evict".as_slice() {
        desk.append(evict_frame(map, &swap_out()).words());
    } else if name == b"find".as_slice() {
        desk.append(walk_page_table(map).words());
    } else if name == b"leave".as_slice() {
        desk.append(remove_mapping(map).words());
    } else if name == b"join".as_slice() {
        desk.append(add_mapping(map).words());
    } else if name == b"hand".as_slice() {
        desk.append(advance_clock(map).words());
    }
}

// Does what a line says, and appends what it has to tell.
fn obey(desk: &mut Desk, map: &Map, line: &[u8], told: &mut String) -> Result<(), AllocError> {
    let kind = field(line, 0);
    if kind == b"fill".as_slice() {
        desk.fill(
            hex(field(line, 1)),
            number(field(line, 2)),
            hex(field(line, 3)),
        );
    } else if kind == b"block".as_slice() {
        append_user(desk, field(line, 1));
        append_frames(desk, map, field(line, 1));
    } else if kind == b"run".as_slice() {
        desk.run(told)?;
    } else if kind == b"registers".as_slice() {
        desk.tell_registers(told)?;
    } else if kind == b"words".as_slice() {
        desk.tell_words(hex(field(line, 1)), number(field(line, 2)), told)?;
    } else if kind == b"sectors".as_slice() {
        desk.tell_sectors(told)?;
    } else if kind.len() == 8 {
        desk.append(&[hex(kind)]);
    }
    Ok(())
}

// The map that a line begins, if it does.
fn map_in(line: &[u8]) -> Option<Map> {
    if field(line, 0) != b"machine".as_slice() {
        return None;
    }
    Some(map_of(
        number(field(line, 1)),
        number(field(line, 2)),
        number(field(line, 3)),
    ))
}

// What is printed of the lines of a text.
pub(crate) fn put_lines(alloc: Global, out: &mut String, text: &str) -> Result<(), AllocError> {
    let mut map = map_of(1, 1, 2);
    let Some(mut desk) = Desk::new(alloc, b"0") else {
        return out.push_str("no machine\n");
    };
    for line in text.lines() {
        if let Some(new) = map_in(line.as_bytes()) {
            map = new;
            if let Some(new) = Desk::new(alloc, field(line.as_bytes(), 4)) {
                desk = new;
            }
        }
        let mut told = String::new(alloc);
        obey(&mut desk, &map, line.as_bytes(), &mut told)?;
        writeln!(out, "{line}")?;
        if !told.is_empty() {
            writeln!(out, "{told}")?;
        }
    }
    Ok(())
}

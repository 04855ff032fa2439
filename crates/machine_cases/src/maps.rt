// The map of three systems: the first addresses of their parts, and the frames of their memory.

use layer_map::{Map, Params, block_of};
use std::alloc::AllocError;
use std::fmt::Write;

// Prints the map of a system under its name.
fn put_map(out: &mut String, name: &str, map: &Map) -> Result<(), AllocError> {
    writeln!(out, "{name}")?;
    writeln!(
        out,
        "code {:08x} globals {:08x} heap {:08x} stack {:08x}",
        map.code(),
        map.globals(),
        map.heap(),
        map.stack()
    )?;
    writeln!(
        out,
        "page tables {:08x} frame table {:08x}",
        map.page_tables(),
        map.frame_table()
    )?;
    writeln!(
        out,
        "zero frame {:08x} user frames {:08x}",
        map.zero_frame(),
        map.user_frames()
    )?;
    writeln!(out, "frames of memory {}", map.memory_frames())
}

// What is printed of three systems.
pub(crate) fn put_maps(out: &mut String) -> Result<(), AllocError> {
    let no_users = Params {
        pages: 1,
        frames: 2,
        heap: 1024,
        stack: 1024,
    };
    let no_heap = Params {
        pages: 4,
        frames: 127,
        heap: 0,
        stack: 1025,
    };
    let largest = Params {
        pages: 1024,
        frames: 16384,
        heap: 1048576,
        stack: 262144,
    };
    put_map(out, "no users", &Map::of(&no_users, 0, 100, 3))?;
    put_map(out, "no heap", &Map::of(&no_heap, 3, 1024, 0))?;
    put_map(out, "the largest", &Map::of(&largest, 64, 4177920, 262144))?;
    writeln!(
        out,
        "control blocks {:08x} {:08x} {:08x}",
        block_of(1),
        block_of(2),
        block_of(64)
    )
}

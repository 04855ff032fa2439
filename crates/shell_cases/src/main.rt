// Runs commands of files of cases over an outside in memory, and prints how each ends: its text, its status, and the files and sectors
// that are asked for. `case_file` says how a case is written. The kinds, in the order in which they stand:
//
// - `case NAME` begins with a new outside. Lines below it may say `shelf N ..`, `sink N ..` or `disk N ..`, the numbers of the calls of
//   that object that fail, from 0; `room N`, how many bytes the sink has room for, in place of 1 MiB; `takes N`, that it takes the first N
//   bytes of a put that fails, which is a call of its own; `sectors N`, how many sectors the disk has; `alter S P W`, that the disk answers
//   each read of sector S with the word W in place of word P;
// - `file NAME` places a file with these bytes, `zeros NAME` one with so many bytes 0, and `host NAME` one with the bytes of a file of the
//   folder in which the program runs, whose path stands below it. A put to it has room for as many;
// - `flip NAME` turns the lowest bit of a byte of a file, whose place from 0 stands below it;
// - `cut NAME N` places the file `forged`: the first N bytes of a file, with zeros behind where it has fewer; `set NAME P W` places it as that
//   file with W as its word P, from 0 on;
// - `disk N` puts a new disk of N sectors in the place of the one there, whose calls don't fail;
// - `run WORD ..` runs the command of these words, and `as PATH` says whether its text is that of a file of the folder;
// - `each FROM TO NAME WORD ..` runs it once for each number of a range, over the file NAME with the text below, which has that number in the
//   place of each `@`; and prints the texts with their status, each with how often it came in succession;
// - `journal WORD ..` runs it, a trace, and prints its rows but those that count steps, up to the end of the run;
// - `sure WORD ..` runs it over copies of the files that its words name, a sink and a disk where no call fails, and prints the status alone;
// - `turns boot IMAGE SCHEDULE TURNS STEPS`, or `turns rom ..`, loads the system of these words, asks it for its next turn as often as TURNS
//   says, and prints each answer with how often it came in succession, how the run ended, its steps, and what was printed of it;
// - `put TEXT` puts these bytes into the sink, and prints whether it took them all and what it took;
// - `show NAME` gets a file and prints its bytes, `part NAME AT COUNT` so many of its bytes from a place on, `object NAME` reads it as an
//   object and prints its source and how many words it has, and `sector N` prints the words of a sector that aren't 0.
#![tactic(auto)]

ghost use Rattle.std.specs.Prelude.{◌≤◌, length, IfOk, IfSome};

mod altered;
mod each;
mod journal;
mod partial;
mod stepping;
mod sure;

use altered::{Alteration, Altered};
use boot_rom::rom_words;
use boot_run::{Run, View};
use case_file::{Case, cases};
use cvm_outside::{MemSectors, MemShelf, MemSink, Sectors, Shelf, Sink};
use cvm_shell::{StartPoint, plan, read_boot, run};
use each::run_each;
use journal::put_journal;
use layer_contract::Boot;
use object_file::read;
use partial::Partial;
use std::alloc::{AllocError, Global};
use std::fmt::Write;
use std::{env, fs, io, str};
use stepping::put_turns;
use sure::run_over_copies;

/// An outside in memory.
#[derive(Drop)]
struct World {
    shelf: MemShelf,
    sink: Partial,
    disk: Altered,
    /// How many bytes of the sink were there before the last command.
    before: usize,
    /// How many bytes of the sink were shown.
    shown: usize,
}

/// What the lines of a case say of its outside.
#[derive(Drop)]
struct Options {
    shelf: Vec<u64>,
    sink: Vec<u64>,
    disk: Vec<u64>,
    room: Option<usize>,
    takes: usize,
    sectors: u32,
    alter: Option<Alteration>,
}

// Reads the numbers of a text that stand between blanks.
fn numbers(alloc: Global, text: &str) -> Result<Vec<u64>, AllocError> {
    let mut numbers = Vec::new(alloc);
    for word in text.split(' ') {
        if let Ok(number) = word.parse::<u64>() {
            numbers.push(number)?;
        }
    }
    Ok(numbers)
}

// The alteration that a text's sector, place and word say.
fn alteration_in(text: &str) -> Option<Alteration> {
    let mut words = text.split(' ');
    let sector = words.next()?.parse::<u32>().ok()?;
    let place = words.next()?.parse::<usize>().ok()?;
    let word = words.next()?.parse::<u32>().ok()?;
    Some(Alteration {
        sector,
        place,
        word,
    })
}

// Reads the lines of a case.
fn read_options(alloc: Global, lines: &str) -> Result<Options, AllocError> {
    let mut options = Options {
        shelf: Vec::new(alloc),
        sink: Vec::new(alloc),
        disk: Vec::new(alloc),
        room: None,
        takes: 0,
        sectors: 2,
        alter: None,
    };
    for line in lines.lines() {
        let (what, rest) = line.split_once(' ').unwrap_or((line, ""));
        match what {
            "shelf" => options.shelf = numbers(alloc, rest)?,
            "sink" => options.sink = numbers(alloc, rest)?,
            "disk" => options.disk = numbers(alloc, rest)?,
            "alter" => options.alter = alteration_in(rest),
            "room" => options.room = rest.parse::<usize>().ok(),
            "takes" => options.takes = rest.parse::<usize>().unwrap_or(0),
            _ => options.sectors = rest.parse::<u32>().unwrap_or(2),
        }
    }
    Ok(options)
}

// A new outside.
fn world_of(alloc: Global, lines: &[u8]) -> Result<World, AllocError> {
    let options = read_options(alloc, str::from_utf8(lines).unwrap_or(""))?;
    let sink = match options.room {
        Some(room) => MemSink::with_room(alloc, room, options.sink)?,
        None => MemSink::new(alloc, options.sink)?,
    };
    Ok(World {
        shelf: MemShelf::new(alloc, options.shelf)?,
        sink: Partial::new(sink, options.takes),
        disk: Altered::new(
            MemSectors::new(alloc, options.sectors, options.disk)?,
            options.alter,
        ),
        before: 0,
        shown: 0,
    })
}

// Prints bytes: printed ASCII as it is, and `\xHH` for each other one.
fn put_bytes(out: &mut String, bytes: &[u8]) -> Result<(), AllocError> {
    for byte in bytes {
        if *byte >= b' ' && *byte <= b'~' && *byte != b'\\' {
            out.push(char::from(*byte))?;
        } else {
            write!(out, "\\x{byte:02x}")?;
        }
    }
    Ok(())
}

// Prints the text of a command, and that its last line was cut off.
fn put_text(out: &mut String, text: &[u8]) -> Result<(), AllocError> {
    out.push_str(str::from_utf8(text).unwrap_or("(no text)"))?;
    if !text.is_empty() && text.last() != Some(&b'\n') {
        out.push_str(" ..\n")?;
    }
    Ok(())
}

// The words of a line, between blanks.
fn words_of(alloc: Global, line: &str) -> Result<Vec<String>, AllocError> {
    let mut words = Vec::new(alloc);
    if !line.is_empty() {
        for word in line.split(' ') {
            words.push(String::from_str(alloc, word)?)?;
        }
    }
    Ok(words)
}

// Prints what the sink took since it was shown.
fn put_shown(world: &mut World, out: &mut String) -> Result<(), AllocError> {
    let text = world.sink.bytes();
    put_text(out, text.get(world.shown..).unwrap_or(b""))?;
    world.before = world.shown;
    world.shown = text.len();
    Ok(())
}

// Runs a command.
fn run_words(
    alloc: Global,
    world: &mut World,
    out: &mut String,
    line: &str,
) -> Result<(), AllocError> {
    let words = words_of(alloc, line)?;
    let status = run(
        alloc,
        &words,
        &mut world.shelf,
        &mut world.sink,
        &mut world.disk,
    );
    put_shown(world, out)?;
    writeln!(out, "status {}", status.code())
}

// Runs a trace, and prints what it says of the user's calls.
fn run_journal(
    alloc: Global,
    world: &mut World,
    out: &mut String,
    line: &str,
) -> Result<(), AllocError> {
    let words = words_of(alloc, line)?;
    let status = run(
        alloc,
        &words,
        &mut world.shelf,
        &mut world.sink,
        &mut world.disk,
    );
    let text = world.sink.bytes();
    put_journal(out, text.get(world.shown..).unwrap_or(b""))?;
    world.before = world.shown;
    world.shown = text.len();
    writeln!(out, "status {}", status.code())
}

// Runs a command over copies of its files, where no call fails.
fn run_sure(
    alloc: Global,
    world: &mut World,
    out: &mut String,
    line: &str,
) -> Result<(), AllocError> {
    let words = words_of(alloc, line)?;
    let sectors = world.disk.count();
    let status = run_over_copies(alloc, &words, &mut world.shelf, sectors)?;
    writeln!(out, "status {}", status.code())
}

// The words of the boot ROM that loads a system, if one can.
fn rom_of(alloc: Global, system: &Boot) -> Result<Option<Vec<u32>>, AllocError>
    ensures { IfOk result (λ found. IfSome found (λ rom. length rom.items ≤ 1024)) }
{
    let users = system.users.len();
    let pages = system.params.pages;
    let words = system.words.len();
    let sectors = words / 1024 + (words % 1024 != 0) as usize;
    if users > 64 || pages == 0 || pages > 1024 || sectors == 0 || sectors > 4096 {
        return Ok(None);
    }
    Ok(Some(rom_words(alloc, users as u32, pages, sectors as u32)?))
}

// Loads the system of a boot, or of one from a boot ROM, and asks for its turns one by one.
fn run_turns(
    alloc: Global,
    world: &mut World,
    out: &mut String,
    line: &str,
) -> Result<(), AllocError> {
    let words = words_of(alloc, line)?;
    let Some(boot) = read_boot(&words) else {
        return out.push_str("(no boot)\n");
    };
    let Ok(ready) = plan(alloc, &boot, &mut world.shelf) else {
        return out.push_str("(not accepted)\n");
    };
    let disk = &mut world.disk;
    let (layer, system, schedule) = (ready.layer, ready.boot, ready.schedule);
    let loaded = match boot.start {
        StartPoint::Loaded => Run::load(alloc, layer, system, schedule, View::Boot, disk),
        StartPoint::Rom => {
            let Some(rom) = rom_of(alloc, &system)? else {
                return out.push_str("(no ROM)\n");
            };
            Run::load_rom(alloc, layer, system, schedule, View::Boot, &rom, disk)
        }
    };
    let Ok(mut loaded) = loaded else {
        return out.push_str("(not loaded)\n");
    };
    put_turns(
        &mut loaded,
        boot.turns,
        boot.steps,
        &mut world.disk,
        &mut world.sink,
        out,
    )?;
    put_shown(world, out)
}

// Puts bytes into the sink.
fn put_into_sink(world: &mut World, out: &mut String, bytes: &[u8]) -> Result<(), AllocError> {
    let whole = world.sink.put(bytes).is_ok();
    put_shown(world, out)?;
    out.push_str(if whole { "taken\n" } else { "failed\n" })
}

// Prints the bytes of a file.
fn show_file(
    alloc: Global,
    world: &mut World,
    out: &mut String,
    name: &str,
) -> Result<(), AllocError> {
    match world.shelf.get(alloc, name) {
        Ok(bytes) => put_bytes(out, &bytes)?,
        Err(_) => out.push_str("(not got)")?,
    }
    out.push('\n')
}

// Prints bytes of a file: its name, the first byte's place and their number stand between blanks.
fn show_part(
    alloc: Global,
    world: &mut World,
    out: &mut String,
    line: &str,
) -> Result<(), AllocError> {
    let (name, range) = line.split_once(' ').unwrap_or((line, ""));
    let (at, count) = range.split_once(' ').unwrap_or((range, ""));
    let at = at.parse::<usize>().unwrap_or(0);
    let count = count.parse::<usize>().unwrap_or(0);
    match world.shelf.get(alloc, name) {
        Ok(bytes) => {
            let rest = bytes.get(at..).unwrap_or(b"");
            put_bytes(out, rest.get(..count).unwrap_or(rest))?;
        }
        Err(_) => out.push_str("(not got)")?,
    }
    out.push('\n')
}

// Prints the source of an object, and how many words it has.
fn show_object(
    alloc: Global,
    world: &mut World,
    out: &mut String,
    name: &str,
) -> Result<(), AllocError> {
    let Ok(bytes) = world.shelf.get(alloc, name) else {
        return out.push_str("(not got)\n");
    };
    match read(alloc, &bytes) {
        Ok(object) => {
            out.push_str("source ")?;
            put_bytes(out, &object.source)?;
            writeln!(out, "\nwords {}", object.words.len())
        }
        Err(fault) => writeln!(out, "fault {}", fault.number()),
    }
}

// Prints the words of a sector that aren't 0.
fn show_sector(world: &mut World, out: &mut String, number: &str) -> Result<(), AllocError> {
    let mut words = [0; 1024];
    let sector = number.parse::<u32>().unwrap_or(0);
    if sector >= world.disk.count() || world.disk.read(sector, &mut words).is_err() {
        return out.push_str("(not read)\n");
    }
    for (place, word) in words.iter().enumerate() {
        if *word != 0 {
            writeln!(out, "{place}: {word:08x}")?;
        }
    }
    Ok(())
}

// Places a file of so many zeros.
fn place_zeros(
    alloc: Global,
    world: &mut World,
    name: &str,
    count: &[u8],
) -> Result<(), AllocError> {
    let count = str::from_utf8(count).unwrap_or("");
    let zeros = vec![in alloc; 0; count.parse::<usize>().unwrap_or(0)]?;
    world.shelf.place(alloc, name, &zeros)
}

// Turns the lowest bit of a byte of a file.
fn flip_bit(alloc: Global, world: &mut World, name: &str, place: &[u8]) -> Result<(), AllocError> {
    let place = str::from_utf8(place).unwrap_or("").parse::<usize>();
    let Ok(mut bytes) = world.shelf.get(alloc, name) else {
        return Ok(());
    };
    if let Some(byte) = bytes.get_mut(place.unwrap_or(usize::MAX)) {
        *byte ^= 1;
    }
    world.shelf.place(alloc, name, &bytes)
}

// Places the file `forged`: the first bytes of a file, as many as stand behind its name, with zeros where it has fewer.
fn cut_file(alloc: Global, world: &mut World, line: &str) -> Result<(), AllocError> {
    let (name, count) = line.split_once(' ').unwrap_or((line, ""));
    let Ok(mut bytes) = world.shelf.get(alloc, name) else {
        return Ok(());
    };
    bytes.resize(count.parse::<usize>().unwrap_or(0), 0)?;
    world.shelf.place(alloc, "forged", &bytes)
}

// Places the file `forged`: a file with another word at a place, which stand behind its name, the place first.
fn set_word(alloc: Global, world: &mut World, line: &str) -> Result<(), AllocError> {
    let (name, rest) = line.split_once(' ').unwrap_or((line, ""));
    let (place, value) = rest.split_once(' ').unwrap_or((rest, ""));
    let at = 4 * u64::from(place.parse::<u32>().unwrap_or(0));
    let value = value.parse::<u32>().unwrap_or(0);
    let Ok(mut bytes) = world.shelf.get(alloc, name) else {
        return Ok(());
    };
    for (offset, byte) in value.to_le_bytes().iter().enumerate() {
        if let Some(old) = bytes.get_mut(at as usize + offset) {
            *old = *byte;
        }
    }
    world.shelf.place(alloc, "forged", &bytes)
}

// Puts a new disk of so many sectors in the place of the one there.
fn change_disk(alloc: Global, world: &mut World, count: &str) -> Result<(), AllocError> {
    let sectors = count.parse::<u32>().unwrap_or(0);
    let disk = MemSectors::new(alloc, sectors, Vec::new(alloc))?;
    world.disk = Altered::new(disk, None);
    Ok(())
}

// Places a file with the bytes of a file of the folder.
fn place_host(rt: &HostRuntime, world: &mut World, part: &Case) -> io::Result<()> {
    let text = fs::read_to_string(rt, str::from_utf8(&part.source).unwrap_or(""))?;
    world
        .shelf
        .place(rt.alloc(), part.name.as_str(), text.as_bytes())?;
    Ok(())
}

// Says whether the text of the last command is that of a file of the folder.
fn put_same(rt: &HostRuntime, world: &World, out: &mut String, path: &str) -> io::Result<()> {
    let text = fs::read_to_string(rt, path)?;
    let same = world.sink.bytes().get(world.before..world.shown) == Some(text.as_bytes());
    writeln!(
        out,
        "== as {path}\n{}",
        if same { "the same" } else { "another" }
    )?;
    Ok(())
}

// Does what a part of a case says.
fn do_part(
    alloc: Global,
    world: &mut World,
    out: &mut String,
    part: &Case,
) -> Result<(), AllocError> {
    let kind = part.kind.as_str();
    let name = part.name.as_str();
    if kind == "file" {
        return world.shelf.place(alloc, name, &part.source);
    }
    if kind == "zeros" {
        return place_zeros(alloc, world, name, &part.source);
    }
    if kind == "flip" {
        return flip_bit(alloc, world, name, &part.source);
    }
    writeln!(out, "== {kind} {name}")?;
    match kind {
        "case" => *world = world_of(alloc, &part.source)?,
        "cut" => cut_file(alloc, world, name)?,
        "set" => set_word(alloc, world, name)?,
        "disk" => change_disk(alloc, world, name)?,
        "run" => run_words(alloc, world, out, name)?,
        "each" => run_each(alloc, world, out, part)?,
        "journal" => run_journal(alloc, world, out, name)?,
        "sure" => run_sure(alloc, world, out, name)?,
        "turns" => run_turns(alloc, world, out, name)?,
        "put" => put_into_sink(world, out, name.as_bytes())?,
        "show" => show_file(alloc, world, out, name)?,
        "part" => show_part(alloc, world, out, name)?,
        "object" => show_object(alloc, world, out, name)?,
        "sector" => show_sector(world, out, name)?,
        _ => out.push_str("(no such kind)\n")?,
    }
    Ok(())
}

// The words are the names of files, whose cases are tried.
fn main(rt: HostRuntime) -> io::Result<()> {
    let alloc = rt.alloc();
    let mut out = String::new(alloc);
    let mut world = world_of(alloc, b"")?;
    for file in env::args(&rt)?.skip(1) {
        let text = fs::read_to_string(&rt, file.as_str())?;
        for part in &cases(alloc, text.as_str())? {
            match part.kind.as_str() {
                "host" => place_host(&rt, &mut world, part)?,
                "as" => put_same(&rt, &world, &mut out, part.name.as_str())?,
                _ => do_part(alloc, &mut world, &mut out, part)?,
            }
        }
    }
    rt.print(out)
}

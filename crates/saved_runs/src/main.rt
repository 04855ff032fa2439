// Saves runs and goes on with them over an outside in memory, as files of cases say, and prints how each ends. `case_file` says how a case is written.
// The kinds:
//
// - `file NAME` places a file with these bytes, and `room NAME` one with so many bytes 0, which a put may replace by no more;
// - `run WORD ..` runs the command of these words, and prints its text and its status;
// - `set NAME WORD VALUE` sets a word of a file, and `cut NAME BYTES` cuts it to so many bytes; the result is the file `forged`;
// - `every FIRST LAST TURNS STEPS` boots `img` under `s` for so many turns and steps; then saves it after each number of turns from FIRST to LAST
//   and goes on to TURNS, over a disk of its own. One line says of how many the two texts, but for the row `saved`, are joined that of the boot and
//   the sectors those behind it, and which is the first that isn't so;
// - `words FIRST COUNT STRIDE`, of the file `f`: each STRIDE-th of so many words is set to 0, to 1, to its successor and to 2^32 - 1, in turn;
// - `nexts FIRST COUNT`, of the same file: each of so many words is set to its successor;
// - `cuts COUNT`, of the same file: it is cut to each length below so many bytes;
// - `random FIRST COUNT FILES SEED`, of the same file: eight times in each of so many files one of these words is set to a pseudo-random one.
//
// Each file that is forged so is resumed for 1,000 turns and 20,000 steps over a copy of the disk as it stands. One line says how many were refused, by
// the number of the refusal, and whether each of the others ended with the status 0, 3 or 4: a shelf, a sink, a disk and memory that don't fail let no
// other status come. Where linked words are told, it says what their places add up to; each such row has to tell the word that stands there and the one
// that stood there.
#![tactic(auto)]

mod bytes;
mod forging;
mod outside;
mod tally;
mod turns;

use bytes::set_word;
use case_file::{Case, cases};
use forging::{put_cuts, put_next_words, put_random, put_words};
use outside::World;
use std::alloc::{AllocError, Global};
use std::fmt::Write;
use std::{env, fs, io, str};
use turns::put_every;

// The number in the field with this number, from 0, of a line that is cut at spaces; 0 where there is none.
fn number(line: &str, field: usize) -> u32 {
    line.split(' ')
        .nth(field)
        .unwrap_or("")
        .parse::<u32>()
        .unwrap_or(0)
}

// Places a file of so many zeros.
fn place_room(
    alloc: Global,
    world: &mut World,
    name: &str,
    count: &[u8],
) -> Result<(), AllocError> {
    let count = str::from_utf8(count).unwrap_or("");
    let zeros = vec![in alloc; 0; count.parse::<usize>().unwrap_or(0)]?;
    world.place(alloc, name, &zeros)
}

// Runs a command, and prints its text and its status.
fn put_run(
    alloc: Global,
    world: &mut World,
    out: &mut String,
    line: &str,
) -> Result<(), AllocError> {
    let ended = world.run(alloc, line)?;
    out.push_str(ended.text())?;
    writeln!(out, "status {}", ended.code)
}

// Places a file that is another one but for a word, or that is cut.
fn forge(alloc: Global, world: &mut World, kind: &str, line: &str) -> Result<(), AllocError> {
    let name = line.split(' ').next().unwrap_or("");
    let mut bytes = world.bytes(alloc, name);
    if kind == "set" {
        set_word(&mut bytes, number(line, 1), number(line, 2));
    } else {
        bytes.truncate(number(line, 1) as usize);
    }
    world.place(alloc, "forged", &bytes)
}

// Does what a case says.
fn do_case(
    alloc: Global,
    world: &mut World,
    out: &mut String,
    case: &Case,
) -> Result<(), AllocError> {
    let kind = case.kind.as_str();
    let name = case.name.as_str();
    if kind == "file" {
        return world.place(alloc, name, &case.source);
    }
    if kind == "room" {
        return place_room(alloc, world, name, &case.source);
    }
    writeln!(out, "== {kind} {name}")?;
    let first = number(name, 0);
    let second = number(name, 1);
    match kind {
        "run" => put_run(alloc, world, out, name),
        "set" | "cut" => forge(alloc, world, kind, name),
        "every" => put_every(alloc, world, out, first, second, name),
        "words" => put_words(alloc, world, out, first, second, number(name, 2)),
        "nexts" => put_next_words(alloc, world, out, first, second),
        "cuts" => put_cuts(alloc, world, out, first),
        "random" => {
            let seed = number(name, 3);
            put_random(alloc, world, out, first, second, number(name, 2), seed)
        }
        _ => out.push_str("(no such kind)\n"),
    }
}

// The words are the names of files, whose cases are done.
fn main(rt: HostRuntime) -> io::Result<()> {
    let alloc = rt.alloc();
    let mut out = String::new(alloc);
    let mut world = World::new(alloc)?;
    for file in env::args(&rt)?.skip(1) {
        let text = fs::read_to_string(&rt, file.as_str())?;
        for case in &cases(alloc, text.as_str())? {
            do_case(alloc, &mut world, &mut out, case)?;
        }
    }
    rt.print(out)
}

// Runs that are saved after each number of turns, and gone on with.

use crate::outside::World;
use cvm_outside::MemSectors;
use std::alloc::{AllocError, Global};
use std::fmt::Write;

/// The last row of a run that was saved.
const SAVED: &str = "saved\n";

/// What the boot of a system comes to: its text, and the disk behind it.
#[derive(Drop)]
struct Booted {
    text: String,
    disk: MemSectors,
}

// The third and fourth word of a line: turns and steps.
fn limits(line: &str) -> (&str, &str) {
    let mut words = line.split(' ').skip(2);
    let turns = words.next().unwrap_or("");
    let steps = words.next().unwrap_or("");
    (turns, steps)
}

// Boots `img` under `s` over a new disk.
fn boot(alloc: Global, world: &mut World, line: &str) -> Result<Option<Booted>, AllocError> {
    let (turns, steps) = limits(line);
    world.change_disk(alloc)?;
    let words = format!(in alloc; "boot img s {turns} {steps}")?;
    let ended = world.run(alloc, words.as_str())?;
    if ended.code != 0 {
        return Ok(None);
    }
    Ok(Some(Booted {
        text: String::from_str(alloc, ended.text())?,
        disk: world.change_disk(alloc)?,
    }))
}

// Whether a save after so many turns and a resume come to what the boot came to, over a new disk.
fn joins(
    alloc: Global,
    world: &mut World,
    booted: &mut Booted,
    after: u32,
    line: &str,
) -> Result<bool, AllocError> {
    let (turns, steps) = limits(line);
    world.change_disk(alloc)?;
    let words = format!(in alloc; "save img s {after} {steps} f")?;
    let saved = world.run(alloc, words.as_str())?;
    let words = format!(in alloc; "resume img s {turns} {steps} f")?;
    let resumed = world.run(alloc, words.as_str())?;
    let Some(front) = saved.text().strip_suffix(SAVED) else {
        return Ok(false);
    };
    let rest = booted.text.as_str().strip_prefix(front);
    let is_done = saved.code == 0 && resumed.code == 0;
    Ok(is_done && rest == Some(resumed.text()) && world.has_sectors_of(&mut booted.disk))
}

/// Saves after each number of turns, goes on from there, and prints of how many that comes to what the boot comes to.
pub fn put_every(
    alloc: Global,
    world: &mut World,
    out: &mut String,
    first: u32,
    last: u32,
    line: &str,
) -> Result<(), AllocError> {
    let Some(mut booted) = boot(alloc, world, line)? else {
        return out.push_str("(not booted)\n");
    };
    let mut count: u32 = 0;
    let mut other: Option<u32> = None;
    for after in first..last.saturating_add(1) {
        if joins(alloc, world, &mut booted, after, line)? {
            count = count.saturating_add(1);
        } else {
            other = other.or(Some(after));
        }
    }
    match other {
        None => writeln!(out, "{count} are as booted"),
        Some(after) => writeln!(
            out,
            "{count} are as booted, but not the one after {after} turns"
        ),
    }
}

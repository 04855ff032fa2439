// Boots machines from their ROM, as standard input says, a line at a time, and prints each line and what stands once the linked words are about to be run:
//
//     rom SECTORS BUSY LINES   the ROM for two users of three pages each and so many sectors of linked words (1 to 40), where each disk command
//                              is busy for BUSY steps, and line T mod 8 is raised at step T, for each of the first LINES steps
//
// It tells how many steps were made, and at which pc the machine is; how many registers aren't 0; how many words of memory below the ROM, of the ROM and
// behind it, and of the disk are wrong; and the latched lines, of which line j is bit j. The machine has 64 frames, and the disk has 64 sectors.
//
// Other lines are only printed. Numbers are decimal.
#![tactic(auto)]

mod desk;

use boot_rom::rom_words;
use cvm_text::decimal_u64;
use desk::{Desk, MOST_LINKED, PAGES, USERS};
use schedule_file::{Schedule, read};
use std::alloc::{AllocError, Global};
use std::fmt::Write;
use std::io;

// The number in the field with this number, from 0, of a line that is cut at spaces; 0 where there is none.
fn number(line: &str, field: usize) -> u32 {
    line.split(' ')
        .nth(field)
        .unwrap_or("")
        .parse::<u32>()
        .unwrap_or(0)
}

// The schedule of a line's machine, whose ROM reads so many sectors.
fn schedule(alloc: Global, line: &str, linked: u32) -> Result<Option<Schedule>, AllocError> {
    let mut rows = String::new(alloc);
    let busy = number(line, 2);
    for command in 0..linked {
        writeln!(rows, "busy {command} {busy}")?;
    }
    for step in 0..number(line, 3) {
        let raised = step % 8;
        writeln!(rows, "line {step} {raised}")?;
    }
    Ok(read(alloc, rows.as_bytes()).ok())
}

// Appends a name and a number.
fn tell(told: &mut String, name: &str, number: u64) -> Result<(), AllocError> {
    told.push_str(name)?;
    told.push_str(decimal_u64(number).as_str())
}

// Appends how many words are wrong.
fn tell_wrong(told: &mut String, desk: &mut Desk, rom: &[u32]) -> Result<(), AllocError> {
    tell(told, " wrong words: ", u64::from(desk.wrong_words()))?;
    tell(told, " of memory, ", u64::from(desk.wrong_rom(rom)))?;
    tell(told, " of the ROM, ", u64::from(desk.wrong_sectors()))?;
    told.push_str(" of the disk\n")
}

// Boots a machine, and appends what stands then.
fn tell_boot(
    alloc: Global,
    told: &mut String,
    desk: &mut Desk,
    rom: &[u32],
) -> Result<(), AllocError> {
    tell(told, " steps ", desk.run())?;
    tell(told, " pc ", u64::from(desk.pc()))?;
    tell(
        told,
        "\n registers not 0: ",
        u64::from(desk.set_registers()),
    )?;
    told.push_str("\n")?;
    tell_wrong(told, desk, rom)?;
    tell(told, " latched ", u64::from(desk.latched(alloc)?))?;
    told.push_str("\n")
}

// Boots the machine of a line, if it has one.
fn put_boot(alloc: Global, told: &mut String, line: &str) -> Result<(), AllocError> {
    let linked = number(line, 1);
    if linked < 1 || MOST_LINKED < linked {
        return told.push_str(" no such ROM\n");
    }
    let Some(schedule) = schedule(alloc, line, linked)? else {
        return told.push_str(" no such schedule\n");
    };
    let rom = rom_words(alloc, USERS, PAGES, linked)?;
    let mut desk = Desk::new(alloc, linked, &rom, schedule)?;
    tell_boot(alloc, told, &mut desk, &rom)
}

fn main(rt: HostRuntime) -> io::Result<()> {
    let alloc = rt.alloc();
    let mut told = String::new(alloc);
    for line in rt.lines(alloc) {
        let line = line?;
        told.push_str(line.as_str())?;
        told.push_str("\n")?;
        if line.starts_with("rom ") {
            put_boot(alloc, &mut told, line.as_str())?;
        }
    }
    rt.print(told)
}

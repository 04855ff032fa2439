// The rows of the users.
ghost use Rattle.std.specs.Prelude.{◌≡◌, ◌+◌, ◌-◌, ◌*◌, ◌<◌, ◌≤◌, ◌==◌};
ghost use Rattle.std.specs.Prelude.{length, min, slice_index};
ghost use Rattle.layer_map.specs.Map.{block_at};
ghost use Rattle.boot_report.specs.Texts.{shown_cpu, register_rows, processor_rows, log_rows};
ghost use Rattle.boot_report.specs.Scripts.{of_report, user_script, users_script};
ghost use Rattle.cvm_outside.specs.Script.{Prints, Makes};
ghost use Rattle.boot_report.specs.Stand.{BlockReadable, CanReadUser, CanReadUsers};

use crate::fault::ReportFault;
use crate::memory::put_memory;
use crate::rows::{put_hi, put_lo, put_log_word, put_register, put_user};
use cvm_outside::{Sectors, Sink, SinkFault};
use layer_map::{BLOCK_SIZE, Map, block_of};
use mips_machine::Machine;

// A word of a user's control block, by its number in the block.
fn block_word(machine: &Machine, user: u32, number: u32) -> u32
    requires user { BlockReadable user (length machine.now.hardware.memory) }
    requires number { number < 64 }
    ensures { result ≡ slice_index machine.now.hardware.memory (block_at user + number) }
{
    machine.word(block_of(user) + 4 * number)
}

// A user's pc.
fn pc_of(machine: &Machine, runs: bool, user: u32) -> u32
    requires user { BlockReadable user (length machine.now.hardware.memory) }
    ensures { result ≡ (shown_cpu machine.now runs user).pc }
{
    if runs {
        return machine.pc();
    }
    block_word(machine, user, 0)
}

// A register of a user, from 1 to 31.
fn register_of(machine: &Machine, runs: bool, user: u32, register: u32) -> u32
    requires user { BlockReadable user (length machine.now.hardware.memory) }
    requires some { 1 ≤ register }
    requires few { register ≤ 31 }
    ensures { result ≡ slice_index (shown_cpu machine.now runs user).regs register }
{
    if runs {
        return machine.reg(register);
    }
    block_word(machine, user, register)
}

// A user's hi.
fn hi_of(machine: &Machine, runs: bool, user: u32) -> u32
    requires user { BlockReadable user (length machine.now.hardware.memory) }
    ensures { result ≡ (shown_cpu machine.now runs user).hi }
{
    if runs {
        return machine.hi();
    }
    block_word(machine, user, 33)
}

// A user's lo.
fn lo_of(machine: &Machine, runs: bool, user: u32) -> u32
    requires user { BlockReadable user (length machine.now.hardware.memory) }
    ensures { result ≡ (shown_cpu machine.now runs user).lo }
{
    if runs {
        return machine.lo();
    }
    block_word(machine, user, 34)
}

// Prints the rows of a user's registers.
fn put_registers<O: Sink>(
    machine: &Machine,
    runs: bool,
    user: u32,
    out: &mut O,
) -> Result<(), SinkFault>
    requires user { BlockReadable user (length machine.now.hardware.memory) }
    ensures { Prints O.Sink out.old out.new (register_rows (shown_cpu machine.now runs user) 31) result }
{
    for i in 0..31u32 {
        put_register(i + 1, register_of(machine, runs, user, i + 1), out)?;
    }
    Ok(())
}

// Prints the rows of a user's processor.
fn put_processor<O: Sink>(
    machine: &Machine,
    runs: bool,
    user: u32,
    pages: u32,
    out: &mut O,
) -> Result<(), SinkFault>
    requires user { BlockReadable user (length machine.now.hardware.memory) }
    ensures { Prints O.Sink out.old out.new (processor_rows user pages (shown_cpu machine.now runs user)) result }
{
    put_user(user, pages, pc_of(machine, runs, user), out)?;
    put_registers(machine, runs, user, out)?;
    put_hi(hi_of(machine, runs, user), out)?;
    put_lo(lo_of(machine, runs, user), out)?;
    Ok(())
}

// Prints the rows of a user.
//
// # Errors
//
// A fault of the disk or of the sink.
fn put_one<D: Sectors, O: Sink>(
    machine: &Machine,
    map: &Map,
    runs: bool,
    user: u32,
    disk: &mut D,
    out: &mut O,
) -> Result<(), ReportFault>
    requires { CanReadUser map.now user (length machine.now.hardware.memory) (D.size disk.old) }
    ensures { Makes O.Sink D.Sectors (out.old, disk.old) (out.new, disk.new) (user_script map.now machine.now (D.sectors disk.old) runs user) of_report result }
{
    let most = map.params().pages;
    let pages = block_word(machine, user, BLOCK_SIZE).min(most);
    put_processor(machine, runs, user, pages, out)?;
    put_memory(machine, map, (user - 1) * most, pages, disk, out)
}

/// Prints the rows of this user, where one of all users may run: its number, or 0.
///
/// # Errors
///
/// A fault of the disk or of the sink.
pub fn put_user_rows<D: Sectors, O: Sink>(
    machine: &Machine,
    map: &Map,
    running: u32,
    user: u32,
    disk: &mut D,
    out: &mut O,
) -> Result<(), ReportFault>
    requires { CanReadUser map.now user (length machine.now.hardware.memory) (D.size disk.old) }
    ensures { Makes O.Sink D.Sectors (out.old, disk.old) (out.new, disk.new)
        (user_script map.now machine.now (D.sectors disk.old) (user == running) user) of_report result }
{
    put_one(machine, map, user == running, user, disk, out)
}

/// Prints the rows of all users, one of whom may run: its number, or 0.
///
/// # Errors
///
/// A fault of the disk or of the sink.
pub fn put_users<D: Sectors, O: Sink>(
    machine: &Machine,
    map: &Map,
    running: u32,
    disk: &mut D,
    out: &mut O,
) -> Result<(), ReportFault>
    requires { CanReadUsers map.now (length machine.now.hardware.memory) (D.size disk.old) }
    ensures { Makes O.Sink D.Sectors (out.old, disk.old) (out.new, disk.new)
        (users_script map.now machine.now (D.sectors disk.old) running map.now.users) of_report result }
{
    for i in 0..map.users() {
        put_user_rows(machine, map, running, i + 1, disk, out)?;
    }
    Ok(())
}

/// Prints the words of the console's log.
///
/// # Errors
///
/// A fault of the sink.
pub fn put_log<O: Sink>(log: &[u32], out: &mut O) -> Result<(), SinkFault>
    ensures { Prints O.Sink out.old out.new (log_rows log.now) result }
{
    for i in 0..log.len() {
        put_log_word(log[i], out)?;
    }
    Ok(())
}

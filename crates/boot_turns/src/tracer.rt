// What a trace keeps between two steps, and the rows that it prints.
ghost use Rattle.std.specs.Prelude.{◌≡◌, ◌≢◌, ◌*◌, ◌/◌, ◌≤◌, length, ◌+◌, ◌-◌, ◌<◌, ◌^◌, ◌++◌, [], true, Err, OnOk, OnErr};
ghost use Rattle.cvm_outside.specs.Script.{Prints};
ghost use Rattle.mips_machine.specs.Machine.{state_of};
ghost use Rattle.cvm_model.specs.Text.{steps_row as steps_text};
ghost use Rattle.boot_turns.specs.Entries.{turn_begins, call_ends, IsNoCopy};
ghost use Rattle.boot_turns.specs.Returns.{noted_at};
ghost use Rattle.boot_turns.specs.RowScripts.{MakesRows, copy_script};
ghost use Rattle.boot_turns.specs.Copies.{copied_kept};
ghost use Rattle.boot_turns.specs.StepRows.{PutsEntries};
ghost use Rattle.boot_turns.specs.Steps.{KeepsTracer};
ghost use Rattle.boot_turns.specs.Tracing.{CanTrace};

use crate::answers::RunFault;
use crate::completion::Begun;
use crate::primitives::{VM_PUT, VM_RESIZE, VM_SET};
use crate::registers::{ARGUMENT, EXTERNAL, MODE, RETURN};
use boot_report::journal_text::{put_row, set_row, size_row, steps_row, trap_row};
use boot_report::read_user_word;
use cvm_outside::single_calls::put;
use cvm_outside::{Sectors, Sink, SinkFault};
use layer_map::{EXITS, Map, PRIMITIVES};
use mips_machine::Machine;

/// What is noted of a primitive at its entry.
#[derive(Clone, Copy, Debug, PartialEq, Eq)]
pub struct Entered {
    /// Its number, 0 to 9.
    pub primitive: u32,
    /// Its return address.
    pub back: u32,
    /// The words of its arguments. Those past its last are of no use.
    pub arguments: [u32; 5],
}

/// The note, where the machine is at the entry of a primitive.
pub fn note_entry(machine: &Machine) -> Option<Entered>
    ensures { result ≡ noted_at 10 (state_of machine.now []) }
{
    if machine.special(MODE) != 0 || machine.off().is_some() {
        return None;
    }
    let pc = machine.pc();
    if pc < PRIMITIVES || pc >= EXITS || pc % 4 != 0 {
        return None;
    }
    Some(Entered {
        primitive: (pc - PRIMITIVES) / 4,
        back: machine.reg(RETURN),
        arguments: [
            machine.reg(ARGUMENT),
            machine.reg(ARGUMENT + 1),
            machine.reg(ARGUMENT + 2),
            machine.reg(ARGUMENT + 3),
            machine.reg(ARGUMENT + 4),
        ],
    })
}

// Prints the row of the steps that have none yet, and then this one.
fn put_after<O: Sink>(steps: u64, row: &[u8], out: &mut O) -> Result<(), SinkFault>
    ensures { Prints O.Sink out.old out.new (steps_text steps ++ row.now) result }
{
    put(steps_row(steps).as_str().as_bytes(), out)?;
    put(row, out)
}

/// What a trace keeps between two steps.
#[derive(Clone, Copy, Debug, PartialEq, Eq)]
pub struct Tracer {
    /// The user that is traced, from 1.
    pub user: u32,
    /// How many untrapped steps of the user have no row yet.
    pub steps: u64,
    /// What is noted of the primitive that is under way.
    pub call: Option<Entered>,
}

impl Tracer {
    /// Prints what begins with a turn under this current user, by what is noted after its first step: a trap. A step is counted.
    ///
    /// # Errors
    ///
    /// A fault of the sink.
    pub fn begin<O: Sink>(
        &mut self,
        current: u32,
        begun: &Begun,
        out: &mut O,
    ) -> Result<(), SinkFault>
        requires few { self.old.steps < 2 ^ 64 - 1 }
        ensures prints { PutsEntries O.Sink out.old out.new self.old self.new (turn_begins self.old.user current begun.now) result }
        ensures puts { OnErr result (begun.now.dispatched ≡ true) }
        ensures user { self.new.user ≡ self.old.user }
        ensures few { self.new.steps ≤ self.old.steps + 1 }
    {
        if current != self.user {
            return Ok(());
        }
        if !begun.dispatched {
            self.steps += 1;
            return Ok(());
        }
        if begun.cause <= EXTERNAL {
            return Ok(());
        }
        self.put(trap_row(begun.cause, begun.edata).as_str().as_bytes(), out)
    }

    // Prints the row of the steps that have none yet, and then this one.
    //
    // # Errors
    //
    // A fault of the sink.
    fn put<O: Sink>(&mut self, row: &[u8], out: &mut O) -> Result<(), SinkFault>
        ensures put { Prints O.Sink out.old out.new (steps_text self.old.steps ++ row.now) result }
        ensures steps { OnOk result (self.new ≡ record self.old { steps = 0 }) }
        ensures keeps { KeepsTracer self.old self.new }
    {
        put_after(self.steps, row, out)?;
        self.steps = 0;
        Ok(())
    }

    /// Prints the row of a primitive that has returned with this answer: of a put of a register, of a size or of a word. The primitive
    /// that copies words has other rows.
    ///
    /// # Errors
    ///
    /// A fault of the sink.
    pub fn end_call<O: Sink>(
        &mut self,
        call: &Entered,
        answer: u32,
        out: &mut O,
    ) -> Result<(), SinkFault>
        requires no_copy { IsNoCopy call.now }
        ensures prints { PutsEntries O.Sink out.old out.new self.old self.new (call_ends self.old.user call.now answer []) result }
        ensures keeps { KeepsTracer self.old self.new }
    {
        let [user, second, third, _, _] = call.arguments;
        if answer != 1 || user != self.user {
            return Ok(());
        }
        if call.primitive == VM_SET {
            return self.put(set_row(second, third).as_str().as_bytes(), out);
        }
        if call.primitive == VM_RESIZE {
            return self.put(size_row(second).as_str().as_bytes(), out);
        }
        if call.primitive == VM_PUT {
            return self.put(put_row(second, third).as_str().as_bytes(), out);
        }
        Ok(())
    }

    /// Prints the rows of words of the user from an address on, as its memory has them.
    ///
    /// # Errors
    ///
    /// A fault of the disk, from which a page may have to be read, or of the sink.
    pub fn put_words<D: Sectors, O: Sink>(
        &mut self,
        machine: &Machine,
        map: &Map,
        address: u32,
        count: u32,
        disk: &mut D,
        out: &mut O,
    ) -> Result<(), RunFault>
        requires can { CanTrace map.now (length machine.now.hardware.memory) machine.now.time (D.size disk.old) self.old }
        requires inside { address / 4 + count ≤ 1024 * map.now.params.pages }
        ensures behind { OnOk result (self.new ≡ copied_kept self.old count) }
        ensures keeps { KeepsTracer self.old self.new }
        ensures no_limit { result ≢ Err RunFault.StepLimit }
        ensures script { MakesRows O.Sink D.Sectors machine.now map.now (out.old, disk.old) (out.new, disk.new)
            (λ pages. copy_script map.now (state_of machine.now []) pages self.old.user self.old.steps address count) result }
    {
        for i in 0..count {
            let word = read_user_word(machine, map, self.user, address / 4 + i, disk)?;
            self.put(put_row(address + 4 * i, word).as_str().as_bytes(), out)?;
        }
        Ok(())
    }
}

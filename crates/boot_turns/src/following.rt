// The rows of one step of a trace, and what is kept after it.
ghost use Rattle.std.specs.Prelude.{◌≡◌, ◌≢◌, ◌<◌, ◌-◌, ◌^◌, [], length, Some, Err, OnErr};
ghost use Rattle.mips_machine.specs.Machine.{state_of};
ghost use Rattle.boot_turns.specs.Completes.{noted_of};
ghost use Rattle.boot_turns.specs.Entries.{HasRows};
ghost use Rattle.boot_turns.specs.Returns.{notes_on, returned};
ghost use Rattle.boot_turns.specs.RowScripts.{MakesRows, ended_script, followed_script};
ghost use Rattle.boot_turns.specs.StepRows.{EndKeeps, FollowKeeps};
ghost use Rattle.boot_turns.specs.Steps.{CanFollow, CountsStep, KeepsTracer};
ghost use Rattle.boot_turns.specs.Tracing.{CanTrace};

use crate::answers::RunFault;
use crate::completion::Begun;
use crate::primitives::VM_COPY;
use crate::registers::{ANSWER, ECA, EDATA, MODE};
use crate::tracer::{Entered, Tracer, note_entry};
use cvm_outside::{Sectors, Sink};
use layer_map::{CURRENT, Map};
use mips_machine::Machine;

// What the machine shows now, as it is noted after the step that begins a turn.
pub(crate) fn begun_now(machine: &Machine) -> Begun
    requires room { 1024 < length machine.now.hardware.memory }
    ensures { result ≡ noted_of machine.now }
{
    Begun {
        dispatched: machine.special(MODE) != 1,
        cause: machine.special(ECA),
        edata: machine.special(EDATA),
        user: machine.word(CURRENT),
    }
}

impl Tracer {
    // The primitive that returns where the machine is.
    fn returned_call(&self, machine: &Machine) -> Option<Entered>
        ensures { result ≡ returned (state_of machine.now []) self.now.call }
    {
        match self.call {
            Some(entered) if machine.pc() == entered.back => Some(entered),
            _ => None,
        }
    }

    // Keeps the note of the primitive that is under way. Most steps have none before and after them, and then nothing is written.
    fn note_call(&mut self, machine: &Machine)
        ensures { self.new ≡ record self.old { call = notes_on (state_of machine.now []) self.old.call } }
    {
        if let Some(entered) = self.call {
            if machine.pc() == entered.back {
                self.call = None;
            }
        } else if let Some(entered) = note_entry(machine) {
            self.call = Some(entered);
        }
    }

    // Prints the rows of words that were copied to the user by a primitive that has returned with this answer.
    //
    // # Errors
    //
    // A fault of the disk, from which a page may have to be read, or of the sink.
    fn end_copy<D: Sectors, O: Sink>(
        &mut self,
        machine: &Machine,
        map: &Map,
        call: &Entered,
        answer: u32,
        disk: &mut D,
        out: &mut O,
    ) -> Result<(), RunFault>
        requires copy { call.now.primitive ≡ VM_COPY }
        requires can { CanTrace map.now (length machine.now.hardware.memory) machine.now.time (D.size disk.old) self.old }
        ensures behind { EndKeeps (D.sectors disk.old) machine.now map.now self.old self.new call.now answer result }
        ensures keeps { KeepsTracer self.old self.new }
        ensures no_limit { result ≢ Err RunFault.StepLimit }
        ensures script { MakesRows O.Sink D.Sectors machine.now map.now (out.old, disk.old) (out.new, disk.new)
            (λ pages. ended_script map.now (state_of machine.now []) pages self.old.user self.old.steps call.now answer) result }
    {
        let [_, _, user, address, count] = call.arguments;
        let most = 1024 * map.params().pages;
        let first = address / 4;
        if answer != 1 || user != self.user || first > most || count > most - first {
            return Ok(());
        }
        self.put_words(machine, map, address, count, disk, out)
    }

    // Prints the rows of a primitive that has returned with this answer.
    //
    // # Errors
    //
    // A fault of the disk, from which a page may have to be read, or of the sink.
    fn end<D: Sectors, O: Sink>(
        &mut self,
        machine: &Machine,
        map: &Map,
        call: &Entered,
        answer: u32,
        disk: &mut D,
        out: &mut O,
    ) -> Result<(), RunFault>
        requires can { CanTrace map.now (length machine.now.hardware.memory) machine.now.time (D.size disk.old) self.old }
        ensures behind { EndKeeps (D.sectors disk.old) machine.now map.now self.old self.new call.now answer result }
        ensures keeps { KeepsTracer self.old self.new }
        ensures no_limit { result ≢ Err RunFault.StepLimit }
        ensures script { MakesRows O.Sink D.Sectors machine.now map.now (out.old, disk.old) (out.new, disk.new)
            (λ pages. ended_script map.now (state_of machine.now []) pages self.old.user self.old.steps call.now answer) result }
    {
        if call.primitive == VM_COPY {
            return self.end_copy(machine, map, call, answer, disk, out);
        }
        self.end_call(call, answer, out)?;
        Ok(())
    }

    // Counts a step under this current user that kept user mode, where no primitive is under way. The answer is whether none is.
    pub(crate) fn count(&mut self, current: u32) -> bool
        requires few { self.old.steps < 2 ^ 64 - 1 }
        ensures { CountsStep current (Some self.old) (Some self.new) result }
    {
        if self.call.is_some() {
            return false;
        }
        if current == self.user {
            self.steps += 1;
        }
        true
    }

    /// Prints the rows of what the user's journal grew by in the step that led here: it began a turn under this current user, or a
    /// primitive returned. A step of the user that was not trapped is counted.
    ///
    /// # Errors
    ///
    /// A fault of the disk, from which a page may have to be read, or of the sink.
    pub fn follow<D: Sectors, O: Sink>(
        &mut self,
        machine: &Machine,
        map: &Map,
        current: u32,
        began: bool,
        disk: &mut D,
        out: &mut O,
    ) -> Result<(), RunFault>
        requires can { CanFollow map.now machine.now self.old (D.size disk.old) }
        ensures behind { FollowKeeps (D.sectors disk.old) machine.now map.now self.old self.new current began result }
        ensures rows { OnErr result (HasRows (state_of machine.now []) self.old.call began) }
        ensures user { self.new.user ≡ self.old.user }
        ensures can { CanTrace map.now (length machine.now.hardware.memory) machine.now.time (D.size disk.old) self.new }
        ensures no_limit { result ≢ Err RunFault.StepLimit }
        ensures script { MakesRows O.Sink D.Sectors machine.now map.now (out.old, disk.old) (out.new, disk.new)
            (λ pages. followed_script map.now (state_of machine.now []) pages self.old current began) result }
    {
        if began {
            if current == self.user {
                // so the steps with no row can be counted in as many bits
                prove!(self.steps < machine.steps());
                self.begin(current, &begun_now(machine), out)?;
            }
        } else if let Some(call) = self.returned_call(machine) {
            self.end(machine, map, &call, machine.reg(ANSWER), disk, out)?;
        }
        self.note_call(machine);
        Ok(())
    }
}

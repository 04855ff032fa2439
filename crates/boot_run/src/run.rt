// A loaded run.
ghost use Rattle.std.specs.Prelude.{◌≡◌, ◌≢◌, ◌∷◌, ◌+◌, ◌-◌, ◌<◌, ◌≤◌, ◌^◌};
ghost use Rattle.std.specs.Prelude.{false, true, [], length, slice_index, IfOk, IfErr, IsSome, OnErr, Err, Ok, Some, None};
ghost use Rattle.cvm_outside.specs.Script.{Prints};
ghost use Rattle.layer_map.specs.Map.{memory_words};
ghost use Rattle.mips_machine.specs.Saved.{AreSaved};
ghost use Rattle.cvm_model.specs.Cvm.{map_of};
ghost use Rattle.layer_contract.specs.Boots.{boot_of, BootFollows};
ghost use Rattle.boot_turns.specs.LoopScripts.{StepsCall};
ghost use Rattle.boot_run.specs.LoadEnds.{HasDiskRoom, LoadFails, pages_needed, rom_needed};
ghost use Rattle.boot_run.specs.Loaded.{IsLoaded, boot_load, own_load, rom_load};
ghost use Rattle.boot_run.specs.AnyScripts.{TurnsScript};
ghost use Rattle.boot_run.specs.RunCalls.{LoadCalls, ReportCalls};
ghost use Rattle.boot_run.specs.Calls.{MakesTurns, Proceeds, ProceedsAnyhow};
ghost use Rattle.boot_run.specs.OneTurn.{CanMake, TurnsMake, ReportLeaves, TurnsSay, as_turns};
ghost use Rattle.boot_run.specs.Pieces.{AreBoots};
ghost use Rattle.boot_run.specs.Saving.{saved_run, IsTakenUp};
ghost use Rattle.boot_run.specs.Shown.{has_faulted};
ghost use Rattle.boot_run.specs.TurnCalls.{rows_of_turn};
ghost use Rattle.boot_run.specs.TurnParts.{rows_before, rows_after, Views};
ghost use Rattle.cvm_model.specs.declared.row.Row.{Row as OneRow};

use crate::laws::systems_can_boot;
use crate::layout::{BootLayout, boot_layout};
use crate::load::{
    LoadFault, Setup, check_room, check_view, first_tracer, loaded_machine, own_rom, pages_needed,
    rom_machine, rom_needed,
};
use crate::next::{ended_by, has_faulted, seen_next};
use crate::pages::write_pages;
use crate::report::{Standing, as_run, put_closing, put_trace_closing};
use crate::resuming::resumed_machine;
use crate::turn_rows::{put_fault, put_row, put_start};
use boot_report::{a_user_is_told, the_globals_tell, the_rows_tell};
use boot_turns::completion::complete;
use boot_turns::tracer::Tracer;
use boot_turns::{
    RunFault, Turn, View, journal_rows_follow, loops_advance, loops_make_turns, machines_run,
    runs_stay_typed, traces_grow,
};
use cvm_model::{Next, Row};
use cvm_outside::{Sectors, Sink, SinkFault};
use layer_contract::{Boot, Layer};
use layer_map::{CURRENT, memory_is_whole, parts_are_in_order};
use mips_machine::Machine;
use schedule_file::Schedule;
use std::alloc::{AllocError, Global};
use std::marker::Model;

/// A loaded run over a layer. The disk is lent to each call.
#[derive(Drop)]
pub struct Run<L> {
    layer: L,
    boot: Boot,
    tracer: Option<Tracer>,
    count: u32,
    machine: Machine,
    turns: u64,
    current: u32,
    ended: Option<Next>,
    fault: Option<RunFault>,
    layout: BootLayout,
}

impl<L> Model for Run<L> {
    ghost use Rattle.boot_run.specs.LoadEnds.{Kept, viewed};
    ghost use Rattle.boot_run.specs.Placed.{CanGoOn};
    ghost use Rattle.std.specs.Coded.{codes};
    ghost use Rattle.layer_contract.specs.contracts.boot.Boot as booted;

    ghost Value = { Kept L };

    ghost coded = { Prim.hlevel (codes, booted.the_row.coded) };

    ghost view = { λ r. record {
      layer = r.layer;
      boot = r.boot;
      view = viewed r.tracer;
      count = r.count;
      machine = r.machine;
      turns = r.turns;
      current = r.current;
      ended = r.ended;
      fault = r.fault;
      tracer = r.tracer;
    } };

    ghost invariant = { λ r. CanGoOn r.boot r.machine r.layout.map r.layout.offsets.items r.count r.tracer };
}

impl<L: Layer + Drop> Run<L> {
    /// Loads what is booted under a schedule: the linked words stand in memory from address 0 on, all other memory is 0, and each
    /// user's pages are in their sectors. It takes all memory of the run before it writes to the disk.
    ///
    /// # Errors
    ///
    /// `NoSuchUser`, where the user of a trace is none of the users; else `SmallDisk`, where the disk has fewer sectors than the
    /// users' pages take; else `Memory`, for want of memory; else `Disk`, where the disk counted one fault more. The script breaks off then: the
    /// sectors before the one at which the disk failed are written, that one may hold anything, and the others are as before.
    pub fn load<D: Sectors>(
        alloc: Global,
        layer: L,
        boot: Boot,
        schedule: Schedule,
        view: View,
        disk: &mut D,
    ) -> Result<Run<L>, LoadFault>
        requires { BootFollows (L.image layer) (L.sizes layer) (L.map layer) boot }
        ensures loaded { IfOk result (IsLoaded D.Sectors layer boot view schedule (boot_load boot schedule) disk.old disk.new) }
        ensures refused { IfErr result (LoadFails boot view (pages_needed boot) (D.size disk.old)) }
        ensures size { D.size disk.new ≡ D.size disk.old }
        ensures script { LoadCalls D.Sectors disk.old disk.new (boot_load boot schedule).script result }
    {
        check_view(view, boot.users.len() as u32)?;
        let need = pages_needed(&boot);
        let have = disk.count();
        check_room(have, need)?;
        let layout = boot_layout(alloc, &boot, layer.memory_map())?;
        let machine = loaded_machine(alloc, &layout.map, &boot, schedule)?;
        match write_pages(boot.users.as_slice(), boot.params.pages, &[], need, disk) {
            Ok(()) => Ok(Run {
                layer,
                boot,
                tracer: first_tracer(view),
                count: have,
                machine,
                turns: 0,
                current: 0,
                ended: None,
                fault: None,
                layout,
            }),
            Err(_) => Err(LoadFault::Disk),
        }
    }

    /// Loads what is booted under a schedule on a machine with a boot ROM of these words, in one frame more of memory: word 0 is the jump to the ROM,
    /// all other memory is 0, each user's pages are in their sectors, and the linked words in those behind. It takes all memory of the run before it
    /// writes to the disk.
    ///
    /// # Errors
    ///
    /// As [`Run::load`], where the disk needs sectors for the linked words, too.
    pub fn load_rom<D: Sectors>(
        alloc: Global,
        layer: L,
        boot: Boot,
        schedule: Schedule,
        view: View,
        rom: &Vec<u32>,
        disk: &mut D,
    ) -> Result<Run<L>, LoadFault>
        requires follows { BootFollows (L.image layer) (L.sizes layer) (L.map layer) boot }
        requires few { length rom.now.items ≤ 1024 }
        ensures loaded { IfOk result (IsLoaded D.Sectors layer boot view schedule (rom_load boot schedule rom.now.items) disk.old disk.new) }
        ensures refused { IfErr result (LoadFails boot view (rom_needed boot) (D.size disk.old)) }
        ensures size { D.size disk.new ≡ D.size disk.old }
        ensures script { LoadCalls D.Sectors disk.old disk.new (rom_load boot schedule rom.now.items).script result }
    {
        check_view(view, boot.users.len() as u32)?;
        check_room(disk.count(), rom_needed(&boot))?;
        let setup = Setup {
            alloc,
            layer,
            boot,
            schedule,
        };
        Run::load_words(setup, view, rom.as_slice(), disk)
    }

    // As [`Run::load_rom`], with the ROM that loads what is booted.
    pub(crate) fn load_own_rom<D: Sectors>(
        setup: Setup<L>,
        view: View,
        disk: &mut D,
    ) -> Result<Run<L>, LoadFault>
        requires { BootFollows (L.image setup.layer) (L.sizes setup.layer) (L.map setup.layer) setup.boot }
        ensures loaded { IfOk result
            (IsLoaded D.Sectors setup.layer setup.boot view setup.schedule (own_load setup.boot setup.schedule) disk.old disk.new) }
        ensures refused { IfErr result (LoadFails setup.boot view (rom_needed setup.boot) (D.size disk.old)) }
        ensures size { D.size disk.new ≡ D.size disk.old }
        ensures script { LoadCalls D.Sectors disk.old disk.new (own_load setup.boot setup.schedule).script result }
    {
        check_view(view, setup.boot.users.len() as u32)?;
        check_room(disk.count(), rom_needed(&setup.boot))?;
        let rom = own_rom(&setup)?;
        Run::load_words(setup, view, rom.as_slice(), disk)
    }

    // Loads it on a machine with a boot ROM of these words, of a view that there is, over a disk with the sectors that it needs.
    fn load_words<D: Sectors>(
        setup: Setup<L>,
        view: View,
        rom: &[u32],
        disk: &mut D,
    ) -> Result<Run<L>, LoadFault>
        requires follows { BootFollows (L.image setup.layer) (L.sizes setup.layer) (L.map setup.layer) setup.boot }
        requires few { length rom.now ≤ 1024 }
        requires room { HasDiskRoom setup.boot view (rom_needed setup.boot) (D.size disk.old) }
        ensures loaded { IfOk result
            (IsLoaded D.Sectors setup.layer setup.boot view setup.schedule (rom_load setup.boot setup.schedule rom.now) disk.old disk.new) }
        ensures refused { IfErr result (LoadFails setup.boot view (rom_needed setup.boot) (D.size disk.old)) }
        ensures size { D.size disk.new ≡ D.size disk.old }
        ensures script { LoadCalls D.Sectors disk.old disk.new (rom_load setup.boot setup.schedule rom.now).script result }
    {
        let boot = setup.boot;
        let count = disk.count();
        let layout = boot_layout(setup.alloc, &boot, setup.layer.memory_map())?;
        let machine = rom_machine(setup.alloc, &layout.map, rom, setup.schedule)?;
        let users = boot.users.as_slice();
        let words = boot.words.as_slice();
        match write_pages(users, boot.params.pages, words, rom_needed(&boot), disk) {
            Ok(()) => Ok(Run {
                layer: setup.layer,
                boot,
                tracer: first_tracer(view),
                count,
                machine,
                turns: 0,
                current: 0,
                ended: None,
                fault: None,
                layout,
            }),
            Err(_) => Err(LoadFault::Disk),
        }
    }

    // Prints what stands before the next turn: the first row of a trace, before its first turn.
    fn put_before<O: Sink>(&self, out: &mut O) -> Result<(), SinkFault>
        ensures put { Prints O.Sink out.old out.new (rows_before self.now.boot self.now.tracer self.now.turns) result }
        ensures first { OnErr result (IsSome self.now.tracer × (self.now.turns ≡ 0)) }
        ensures views { Views self.now }
    {
        let first = self.turns == 0;
        if let Some(tracer) = self.tracer {
            if first {
                return put_start(&self.boot, tracer.user, out);
            }
        }
        Ok(())
    }

    // Runs the machine through so many turns at most, and counts them: untrapped steps of the current user, as long as they come, and then
    // one turn more. The answer is how many were made, and the last of them. Of a trace it prints the rows whose entries end.
    fn make_turn<D: Sectors, O: Sink>(
        &mut self,
        most: u32,
        budget: &mut u64,
        disk: &mut D,
        out: &mut O,
    ) -> Result<(u32, Turn), RunFault>
        requires can { CanMake most self.old (D.size disk.old) budget.old }
        ensures makes { TurnsMake D.size most self.old disk.old budget.old self.new disk.new budget.new result }
        ensures ends { MakesTurns D.size D.sectors most self.old disk.old budget.old self.new disk.new budget.new result }
        ensures untraced { self.old.tracer ≡ None → (self.new.tracer ≡ None) × (out.new ≡ out.old) }
        ensures script { StepsCall O.Sink D.Sectors (map_of (boot_of self.old.boot)) self.old.machine self.old.tracer
            (out.old, disk.old) (out.new, disk.new) (budget.old - budget.new) result }
        ensures less { budget.new ≤ budget.old }
    {
        memory_is_whole();
        loops_advance();
        loops_make_turns();
        let (skipped, begun) = complete(
            &mut self.machine,
            budget,
            most,
            &mut self.tracer,
            &self.layout.map,
            disk,
            out,
        )?;
        let next = seen_next(&self.machine);
        let turn = self.turns.saturating_add(u64::from(skipped));
        let user = self.current;
        self.turns = turn.saturating_add(1);
        self.current = self.machine.word(CURRENT);
        self.ended = ended_by(next);
        if !begun.dispatched {
            return Ok((skipped + 1, Turn::Step(user)));
        }
        Ok((
            skipped + 1,
            Turn::Dispatch(Row {
                turn,
                cause: begun.cause,
                edata: begun.edata,
                user,
                next,
            }),
        ))
    }

    // Prints what stands behind a turn: of a boot the row of its dispatch, and of a trace the kernel's fault.
    fn put_after<O: Sink>(&self, answer: Turn, out: &mut O) -> Result<(), SinkFault>
        ensures put { Prints O.Sink out.old out.new (rows_after self.now.tracer self.now.ended answer) result }
        ensures dispatch { self.now.tracer ≡ None → OnErr result ((row : OneRow) × (rows_of_turn answer ≡ row ∷ [])) }
        ensures faulted { IsSome self.now.tracer → OnErr result (has_faulted self.now.ended ≡ true) }
    {
        match self.tracer {
            None => put_row(answer, out),
            Some(tracer) => put_fault(tracer.steps, self.ended, out),
        }
    }

    // Runs the machine through so many turns at most, and prints what is to be seen of them.
    fn proceed<D: Sectors, O: Sink>(
        &mut self,
        most: u32,
        budget: &mut u64,
        disk: &mut D,
        out: &mut O,
    ) -> Result<(u32, Turn), RunFault>
        requires can { CanMake most self.old (D.size disk.old) budget.old }
        ensures makes { TurnsMake D.size most self.old disk.old budget.old self.new disk.new budget.new result }
        ensures ends { Proceeds D.size D.sectors most self.old disk.old budget.old self.new disk.new budget.new result }
        ensures any { ProceedsAnyhow D.size D.sectors most self.old disk.old budget.old self.new disk.new budget.new result }
        ensures script { TurnsScript O.Sink D.Sectors self.old budget.old (out.old, disk.old) (out.new, disk.new) (budget.old - budget.new) result }
        ensures untraced { self.old.tracer ≡ None → self.new.tracer ≡ None }
        ensures less { budget.new ≤ budget.old }
    {
        machines_run();
        traces_grow();
        journal_rows_follow();
        self.put_before(out)?;
        let (made, answer) = self.make_turn(most, budget, disk, out)?;
        self.put_after(answer, out)?;
        Ok((made, answer))
    }

    /// Runs the machine, a step from the budget each, until so many turns at most are complete: untrapped steps of the current user, as
    /// long as they come, and then one turn more. The answer is how many were made, and the last of them. What is to be seen is printed: of a
    /// boot the row of a dispatch; of a trace the rows of its user as they end, the start row before the first turn, and the kernel's fault.
    /// A run that has ended answers that none was made and `Over`, and touches nothing.
    ///
    /// # Errors
    ///
    /// `StepLimit`, where the budget is spent and the last turn isn't complete; `Disk` and `Sink`, where that object counted one fault
    /// more (but for a fault that was kept). After a fault each call answers it again, and touches nothing.
    pub fn turns<D: Sectors, O: Sink>(
        &mut self,
        most: u32,
        budget: &mut u64,
        disk: &mut D,
        out: &mut O,
    ) -> Result<(u32, Turn), RunFault>
        requires can { CanMake most self.old (D.size disk.old) budget.old }
        ensures says { TurnsSay D.size D.sectors most self.old disk.old budget.old out.old self.new disk.new budget.new out.new result }
        ensures script { TurnsScript O.Sink D.Sectors self.old budget.old (out.old, disk.old) (out.new, disk.new) (budget.old - budget.new) result }
        ensures untraced { self.old.tracer ≡ None → self.new.tracer ≡ None }
        ensures less { budget.new ≤ budget.old }
    {
        if let Some(fault) = self.fault {
            return Err(fault);
        }
        if self.ended.is_some() {
            return Ok((0, Turn::Over));
        }
        match self.proceed(most, budget, disk, out) {
            Ok((made, turn)) => Ok((made, turn)),
            Err(fault) => {
                self.fault = Some(fault);
                Err(fault)
            }
        }
    }

    /// Runs the machine until the next turn is complete, as [`Run::turns`] does that makes one turn at most. A run that has ended answers `Over`.
    ///
    /// # Errors
    ///
    /// As [`Run::turns`].
    pub fn turn<D: Sectors, O: Sink>(
        &mut self,
        budget: &mut u64,
        disk: &mut D,
        out: &mut O,
    ) -> Result<Turn, RunFault>
        requires can { CanMake 1 self.old (D.size disk.old) budget.old }
        ensures says { TurnsSay D.size D.sectors 1 self.old disk.old budget.old out.old self.new disk.new budget.new out.new (as_turns result) }
        ensures script { TurnsScript O.Sink D.Sectors self.old budget.old (out.old, disk.old) (out.new, disk.new) (budget.old - budget.new) result }
    {
        let (_, turn) = self.turns(1, budget, disk, out)?;
        Ok(turn)
    }

    // Prints the end and the report of a run that halted, or goes on: of a trace its last steps, the end, and the rows of its user.
    fn put_report<D: Sectors, O: Sink>(&self, disk: &mut D, out: &mut O) -> Result<(), RunFault>
        requires disk { D.size disk.old ≡ self.now.count }
        requires goes_on { has_faulted self.now.ended ≡ false }
        ensures limit { result ≢ Err RunFault.StepLimit }
        ensures script { ReportCalls O.Sink D.Sectors self.now (out.old, disk.old) (out.new, disk.new) result }
    {
        machines_run();
        runs_stay_typed();
        traces_grow();
        journal_rows_follow();
        the_rows_tell();
        a_user_is_told();
        the_globals_tell();
        parts_are_in_order();
        memory_is_whole();
        let halted = self.ended.is_some();
        let standing = Standing {
            halted,
            current: self.current,
        };
        if let Some(tracer) = self.tracer {
            return as_run(put_trace_closing(
                &self.machine,
                &self.layout.map,
                tracer,
                standing,
                disk,
                out,
            ));
        }
        let decls = self.boot.unit.unit().globals.as_slice();
        as_run(put_closing(&self.machine, &self.layout, decls, standing, disk, out))
    }

    /// Prints the end and the report of a run that halted, or goes on: of a trace the row of the last steps, the end, and the rows of the
    /// traced user alone. Where the kernel faulted the rows of that turn ended the text, and nothing is printed. It reads pages from the
    /// disk, and writes nothing there.
    ///
    /// # Errors
    ///
    /// `Disk` and `Sink`, where a call of that object failed; what is printed then stands in the script. After a fault each call answers it
    /// again, and touches nothing.
    pub fn report<D: Sectors, O: Sink>(&mut self, disk: &mut D, out: &mut O) -> Result<(), RunFault>
        requires disk { D.size disk.old ≡ self.old.count }
        ensures rest { ReportLeaves self.old disk.old out.old self.new disk.new out.new result }
        ensures script { ReportCalls O.Sink D.Sectors self.old (out.old, disk.old) (out.new, disk.new) result }
    {
        if let Some(fault) = self.fault {
            return Err(fault);
        }
        if has_faulted(self.ended) {
            return Ok(());
        }
        let answer = self.put_report(disk, out);
        self.fault = answer.err();
        answer
    }

    /// How the run ended: `Halt`, or the kernel's fault.
    pub fn ended(&self) -> Option<Next>
        ensures { result ≡ self.now.ended }
    {
        self.ended
    }

    /// How many steps the machine made.
    pub fn steps(&self) -> u64
        ensures { result ≡ self.now.machine.time }
    {
        self.machine.steps()
    }
}

impl<L: Layer + Drop> Run<L> {
    /// The run that these words tell, of what is booted under a schedule: its machine is theirs, and so are the complete turns and the current user. It is
    /// ready for its next turn, over a disk of `count` sectors, which isn't touched; a report can be printed before that turn, too.
    ///
    /// # Errors
    ///
    /// Want of memory.
    pub fn resumed(setup: Setup<L>, count: u32, from: &[u32]) -> Result<Run<L>, AllocError>
        requires follows { BootFollows (L.image setup.layer) (L.sizes setup.layer) (L.map setup.layer) setup.boot }
        requires words { AreSaved (memory_words (map_of (boot_of setup.boot))) setup.schedule.inputs from.now }
        requires some { 1 ≤ slice_index from.now 5 }
        requires room { pages_needed setup.boot ≤ count }
        ensures taken_up { IfOk result (IsTakenUp setup.layer setup.boot setup.schedule count from.now) }
        ensures memory { IfOk result (λ r. length r.machine.hardware.memory ≡ memory_words (map_of (boot_of setup.boot))) }
        ensures boots { AreBoots setup.boot setup.schedule count }
    {
        systems_can_boot(&setup.layer, &setup.boot, &setup.schedule);
        let layout = boot_layout(setup.alloc, &setup.boot, setup.layer.memory_map())?;
        let machine = resumed_machine(setup.alloc, &layout.map, setup.schedule, from)?;
        Ok(Run {
            layer: setup.layer,
            boot: setup.boot,
            tracer: None,
            count,
            machine,
            turns: u64::from(from[5]),
            current: from[6],
            ended: None,
            fault: None,
            layout,
        })
    }
}

impl<L: Layer> Run<L> {
    /// How many turns are complete, those of the saved run that it was taken up from among them.
    pub fn turns_done(&self) -> u64
        ensures { result ≡ self.now.turns }
    {
        self.turns
    }

    /// How many words the saved run has: 5,176 and those of its memory at most.
    pub fn state_words(&self) -> u64
        ensures words { length (saved_run self.now) ≡ result }
        ensures most { result ≤ 5176 + length self.now.machine.hardware.memory }
    {
        self.machine.state_words()
    }

    /// The words of the saved run: those of its machine, with its complete turns and its current user.
    pub fn save_state(&self, into: &mut [u32])
        requires few { self.now.turns < 2 ^ 32 }
        requires room { length into.old ≡ length (saved_run self.now) }
        ensures { into.new ≡ saved_run self.now }
    {
        self.machine
            .save_state(self.turns as u32, self.current, into);
    }
}

// A run of the machine, turn by turn.

use crate::desk::Desk;
use crate::system::KERNEL;
use cvm_text::hex8;
use layer_map::{EXITS, LEAVE, PRIMITIVES};
use mips_machine::{Cause, Event};
use mips_table::{EDATA, PTL};
use std::alloc::AllocError;
use std::fmt::Write;

/// The most steps of a run.
const MOST: u64 = 3_000_000;

/// The most steps of parts of the run.
#[derive(Clone, Copy, Drop)]
pub struct Longest {
    pub enter: u64,
    pub leave: u64,
    pub fault: u64,
    pub primitive: u64,
}

/// What is seen of a run.
#[derive(Drop)]
pub struct Watch {
    /// The steps at which the turns began.
    pub begins: Vec<u64>,
    /// The number of complete turns.
    pub complete: u64,
    /// The longest parts.
    pub longest: Longest,
    begun: u64,
    left: Option<u64>,
    faulted: Option<u64>,
    called: Option<(u64, u32)>,
}

impl Watch {
    /// Nothing is seen yet.
    pub fn new(begins: Vec<u64>) -> Watch {
        Watch {
            begins,
            complete: 0,
            longest: Longest {
                enter: 0,
                leave: 0,
                fault: 0,
                primitive: 0,
            },
            begun: 0,
            left: None,
            faulted: None,
            called: None,
        }
    }

    // Whether a step that began in this mode began a turn.
    fn is_turn(desk: &Desk, was_user: bool, event: Event) -> bool {
        match event {
            Event::Taken(Cause::Reset) => true,
            Event::Taken(Cause::FetchFault) => was_user && !Watch::is_handled(desk),
            Event::Taken(Cause::DataFault) => was_user && !Watch::is_handled(desk),
            Event::Off(_) => false,
            _ => was_user,
        }
    }

    // Whether the fault that was taken concerns a page of the user.
    fn is_handled(desk: &Desk) -> bool {
        desk.special(EDATA) / 4096 < desk.special(PTL)
    }

    // Looks at a step that was done.
    fn see(&mut self, desk: &Desk, was_user: bool, event: Event) -> Result<(), AllocError> {
        let now = desk.steps();
        if Watch::is_turn(desk, was_user, event) {
            self.begun = now;
            self.begins.push(now.saturating_sub(1))?;
        } else if was_user {
            self.faulted = Some(now);
        }
        if desk.is_user() || desk.off().is_some() {
            self.complete = self.begins.len() as u64;
            self.arrive(now);
        }
        self.see_return(desk, now);
        Ok(())
    }

    // A fault that was handled, or a way out of the kernel, has ended.
    fn arrive(&mut self, now: u64) {
        if let Some(from) = self.faulted {
            self.longest.fault = self.longest.fault.max(now.saturating_sub(from));
        }
        if let Some(from) = self.left {
            self.longest.leave = self.longest.leave.max(now.saturating_sub(from));
        }
        self.faulted = None;
        self.left = None;
    }

    // A primitive may have returned.
    fn see_return(&mut self, desk: &Desk, now: u64) {
        if let Some((from, back)) = self.called {
            if desk.pc() == back {
                self.longest.primitive = self.longest.primitive.max(now.saturating_sub(from));
                self.called = None;
            }
        }
    }

    // Tells what begins or ends at the pc where the kernel runs.
    fn tell(&mut self, desk: &Desk, users: u32, out: &mut String) -> Result<(), AllocError> {
        let now = desk.steps();
        let pc = desk.pc();
        if pc == KERNEL {
            self.longest.enter = self.longest.enter.max(now.saturating_sub(self.begun));
            self.put_call(desk, out)
        } else if PRIMITIVES <= pc && pc < EXITS {
            self.called = Some((now, desk.reg(31)));
            Ok(())
        } else if EXITS <= pc && pc <= LEAVE {
            self.left = Some(now);
            put_end(desk, users, out)
        } else {
            Ok(())
        }
    }

    // The call of `dispatch`.
    fn put_call(&self, desk: &Desk, out: &mut String) -> Result<(), AllocError> {
        let turn = self.begins.len().saturating_sub(1);
        let cause = desk.reg(20);
        let data = hex8(desk.reg(21));
        let user = desk.reg(22);
        write!(out, "turn {turn} cause {cause} data ")?;
        out.push_str(data.as_str())?;
        write!(out, " user {user}")
    }

    /// Runs the machine until so many turns are complete, it is off, or too many steps are done.
    pub fn run(
        &mut self,
        desk: &mut Desk,
        users: u32,
        turns: u64,
        out: &mut String,
    ) -> Result<(), AllocError> {
        for _ in 0..MOST {
            if self.complete >= turns || desk.off().is_some() {
                break;
            }
            let was_user = desk.is_user();
            let event = desk.step();
            self.see(desk, was_user, event)?;
            if !desk.is_user() && desk.pc() % 4 == 0 {
                self.tell(desk, users, out)?;
            }
        }
        Ok(())
    }
}

// The end of a dispatch.
fn put_end(desk: &Desk, users: u32, out: &mut String) -> Result<(), AllocError> {
    match desk.pc() {
        EXITS => out.push_str(" fault NullUse\n"),
        0x202c => out.push_str(" fault Bounds\n"),
        0x2030 => out.push_str(" fault DivZero\n"),
        0x2034 => out.push_str(" fault StackOut\n"),
        _ => {
            let next = desk.reg(2);
            if next <= users {
                writeln!(out, " next {next}")
            } else {
                out.push_str(" fault BadUser\n")
            }
        }
    }
}

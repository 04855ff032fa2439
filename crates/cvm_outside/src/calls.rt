// Counts of calls and of faults; and the calls of an object in memory, numbered from 0, some of which fail.
ghost use Rattle.std.specs.Prelude.{◌≡◌, ◌≤◌, true, false};
ghost use Rattle.cvm_outside.specs.Numbering.{fresh, counted_up, until_fault, is_listed, is_spent, numbered_call};

use std::marker::Model;

/// How many faults there were, how many calls up to the first that failed, that one with it, and how many calls in all.
#[derive(Drop)]
pub(crate) struct Tally {
    pub(crate) faults: u64,
    pub(crate) calls: u64,
    pub(crate) all_calls: u64,
}

impl Tally {
    // No call and no fault yet.
    pub(crate) fn new() -> Tally
        ensures faults { result.faults ≡ 0 }
        ensures calls { result.calls ≡ 0 }
        ensures all_calls { result.all_calls ≡ 0 }
    {
        Tally {
            faults: 0,
            calls: 0,
            all_calls: 0,
        }
    }

    // Counts a call; up to the first that failed only where none has failed before.
    pub(crate) fn count_call(&mut self)
        ensures faults { self.new.faults ≡ self.old.faults }
        ensures calls { self.new.calls ≡ until_fault self.old.faults self.old.calls }
        ensures all_calls { self.new.all_calls ≡ counted_up self.old.all_calls }
        ensures more { self.old.all_calls ≤ self.new.all_calls }
    {
        self.all_calls = self.all_calls.saturating_add(1);
        if self.faults == 0 {
            self.calls = self.calls.saturating_add(1);
        }
    }

    // Counts a fault.
    pub(crate) fn count_fault(&mut self)
        ensures faults { self.new.faults ≡ counted_up self.old.faults }
        ensures calls { self.new.calls ≡ self.old.calls }
        ensures all_calls { self.new.all_calls ≡ self.old.all_calls }
    {
        self.faults = self.faults.saturating_add(1);
    }
}

/// Which calls fail, and the counts, of which that of all calls is the number of the next.
#[derive(Drop)]
pub(crate) struct Calls {
    failing: Vec<u64>,
    tally: Tally,
}

impl Model for Calls {
    ghost use Rattle.cvm_outside.specs.Numbering.{Numbering};

    ghost Value = { Numbering };

    ghost view = { λ c. record { failing = c.failing.items; next = c.tally.all_calls; faults = c.tally.faults; sound = c.tally.calls } };
}

impl Calls {
    // No call yet. The calls whose numbers are in `failing` are to fail.
    pub(crate) fn new(failing: Vec<u64>) -> Self
        ensures { result ≡ fresh failing.items }
    {
        Calls {
            failing,
            tally: Tally::new(),
        }
    }

    // Numbers a call, and tells whether it is to fail.
    pub(crate) fn begin(&mut self) -> bool
        ensures listed { result ≡ is_listed self.old }
        ensures numbered { self.new ≡ numbered_call self.old false }
        ensures sure { is_spent self.old ≡ true → result ≡ false }
        ensures spent { is_spent self.old ≡ true → is_spent self.new ≡ true }
    {
        let listed = self.failing.contains(&self.tally.all_calls);
        self.tally.count_call();
        listed
    }

    // Counts a fault.
    pub(crate) fn count_fault(&mut self)
        ensures counted { self.new ≡ record self.old { faults = counted_up self.old.faults } }
    {
        self.tally.count_fault();
    }
}

//! Counts the calls of an object in memory, and decides which of them are to fail.

ghost use Rattle.std.specs.Prelude.{◌≡◌, ◌≤◌};
ghost use Rattle.host_io.specs.Calls.{no_calls, is_to_fail, one_call};
ghost use Rattle.host_io.specs.Faults.{one_more as one_more_of};

use std::marker::Model;

/// The calls that an object has had, and the numbers of those that are to fail.
#[derive(Debug, Drop)]
pub(crate) struct Calls {
    made: u64,
    faults: u64,
    failing: Vec<u64>,
}

impl Model for Calls {
    ghost use Rattle.host_io.specs.Calls.{Calls as Counted};

    ghost Value = { Counted };

    ghost view = { λ c. record { made = c.made; faults = c.faults; failing = c.failing.items } };
}

impl Calls {
    pub(crate) fn new(failing: Vec<u64>) -> Calls
        ensures { result ≡ no_calls failing.items }
    {
        Calls {
            made: 0,
            faults: 0,
            failing,
        }
    }

    /// Counts one call, and decides whether it is to fail.
    pub(crate) fn next_fails(&mut self) -> bool
        ensures fails { result ≡ is_to_fail self.old }
        ensures calls { self.new ≡ one_call self.old }
        ensures count { self.old.faults ≤ self.new.faults }
    {
        let fails = self.failing.contains(&self.made);
        if fails {
            self.faults = one_more(self.faults);
        }
        self.made = one_more(self.made);
        fails
    }
}

/// The next count, which saturates.
pub(crate) fn one_more(count: u64) -> u64
    ensures { result ≡ one_more_of count }
{
    count.saturating_add(1)
}

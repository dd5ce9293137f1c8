// The calls of one kind that a depot or a sink in memory was asked for.
ghost use Rattle.std.specs.Prelude.{◌≡◌, ◌↔◌, IsTrue, Contains};
ghost use Rattle.nova_io.specs.Faults.{Rose, raised};

use crate::faults::{Failed, raise};
use std::marker::Model;

/// How many calls there were, how many of them were faults, and which are to fail.
#[derive(Drop)]
pub(crate) struct Calls {
    made: u64,
    faults: u64,
    failing: Vec<u64>,
}

impl Model for Calls {
    ghost use Rattle.nova_io.specs.Memory.{CallCounts};

    ghost Value = { CallCounts };

    ghost view = { λ c. record { made = c.made; faults = c.faults; failing = c.failing.items } };
}

impl Calls {
    /// No calls yet, of which those with the numbers `failing` are to fail. Calls are numbered from 1.
    pub(crate) fn new(failing: Vec<u64>) -> Calls
        ensures { result ≡ record { made = 0; faults = 0; failing = failing.items } }
    {
        Calls {
            made: 0,
            faults: 0,
            failing,
        }
    }

    /// Counts a call, and says whether it is to fail.
    pub(crate) fn begin(&mut self) -> bool
        ensures fails { IsTrue result ↔ Contains self.old.failing (raised self.old.made) }
        ensures counted { self.new ≡ record self.old { made = raised self.old.made } }
    {
        self.made = self.made.saturating_add(1);
        self.failing.contains(&self.made)
    }

    /// Counts a fault.
    pub(crate) fn fault(&mut self) -> Failed
        ensures counted { self.new ≡ record self.old { faults = raised self.old.faults } }
        ensures rose { Rose self.old.faults self.new.faults }
    {
        raise(&mut self.faults)
    }
}

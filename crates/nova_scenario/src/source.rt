ghost use Rattle.std.specs.Prelude.{◌≡◌};

use std::marker::Model;

/// A source of interrupts: a semaphore that is upped by a processor, at a moment of its clock and then again after each period, `count` times.
#[derive(Clone, Copy, Debug)]
pub struct SourceRow {
    /// The number of the processor.
    pub cpu: u32,

    /// How many turns the processor takes before the first time, at most 10,000,000.
    pub first: u64,

    /// How many turns lie between two times, from 1 to 10,000,000.
    pub period: u64,

    /// How many times there are, from 1 to 10,000,000.
    pub count: u64,
}

/// The sources of a scenario, in the order of its text. Contracts see them as a list.
#[derive(Debug, Drop)]
pub struct Sources {
    sources: Vec<SourceRow>,
}

impl Model for Sources {
    ghost use Rattle.std.specs.Prelude.{List};
    ghost use Rattle.nova_scenario.specs.declared.source.SourceRow.{SourceRow};

    ghost Value = { List SourceRow };

    ghost view = { λ s. s.sources.items };
}

impl Sources {
    /// The sources as a slice.
    pub fn as_slice(&self) -> &[SourceRow]
        ensures { result.now ≡ self.now }
    {
        self.sources.as_slice()
    }
}

impl From<Vec<SourceRow>> for Sources {
    ghost from_gives = { λ vec sources. sources ≡ vec.items };

    fn from(sources: Vec<SourceRow>) -> Self {
        Sources { sources }
    }
}

ghost use Rattle.std.specs.Prelude.{◌≡◌, Some};
ghost use Rattle.nova_debug.specs.Beginnings.{refusal_text};

use nova_run::RunFault;
use std::fmt;

/// Why a file doesn't serve.
#[derive(Clone, Copy)]
pub enum Unfit {
    /// A fetch of it failed.
    Unread,
    /// It has more bytes than it may have.
    TooLong,
    /// It is no text of its kind.
    Wrong,
}

/// Why no session begins.
#[derive(Clone, Copy)]
pub enum Refusal {
    /// The words of the command line are too few or too many.
    Usage,
    /// The limit is no number from 1 to 10,000,000.
    Limit,
    /// There is no scenario.
    Scenario(Unfit),
    /// There is no order.
    Order(Unfit),
    /// There is no run: a turn of the order is idle, or memory was refused, for a file too.
    Run(RunFault),
}

impl fmt::Display for Refusal {
    ghost output = { λ refusal. Some (refusal_text refusal) };

    fn fmt<W: fmt::Write>(&self, f: &mut fmt::Formatter<W>) -> fmt::Result {
        match self {
            Refusal::Usage => f.write_str("usage: nova_debug SCENARIO LIMIT [ORDER]"),
            Refusal::Limit => f.write_str("no limit"),
            Refusal::Scenario(_) => f.write_str("no scenario"),
            Refusal::Order(_) => f.write_str("no order"),
            Refusal::Run(fault) => write!(f, "no run: {fault}"),
        }
    }
}

ghost use Rattle.std.specs.Prelude.{◌≡◌};
ghost use Rattle.nova_explore.specs.Exit.{status_of};

use crate::verdict::Verdict;
use nova_command::CommandFault;
use nova_loading::ScenarioUnread;
use nova_scenario::Why;
use std::alloc::AllocError;
use thiserror::Error;

/// How a call of the program ends.
#[derive(Clone, Copy, Debug, PartialEq, Eq, Error)]
pub enum Exit {
    /// This is told of the orders. The text that tells it is written.
    #[error("told")]
    Told(Verdict),

    /// The words are no request. Nothing is written.
    #[error("usage: nova_explore SCENARIO [--turns N] [--states N] QUESTION [WORD ..]")]
    Usage,

    /// The scenario could not be fetched. Nothing is written.
    #[error("read fault")]
    ReadFault,

    /// The scenario is longer than 16 MiB. Nothing is written.
    #[error("scenario line 0: TooLong")]
    TooLong,

    /// The scenario is refused, at its first line at fault, from 1. Nothing is written.
    #[error("scenario line {line}: {why}")]
    Scenario { line: u64, why: Why },

    /// The scenario has no such console, or no such frame of RAM. Nothing is written.
    #[error("the scenario has no such console or frame")]
    Absent,

    /// The text could not be written whole. What is written is the beginning of it.
    #[error("write fault")]
    WriteFault,

    /// Memory was refused. Nothing is written.
    #[error("out of memory")]
    Memory,
}

/// The status of `verdict`.
fn status_of_verdict(verdict: Verdict) -> u8
    ensures { result ≡ status_of (Exit.Told verdict) }
{
    match verdict {
        Verdict::All => 0,
        Verdict::Found => 1,
        Verdict::Cut => 7,
        Verdict::Within => 9,
    }
}

impl Exit {
    /// The status that the program ends with.
    pub fn status(self) -> u8
        ensures { result ≡ status_of self }
    {
        match self {
            Exit::Told(verdict) => status_of_verdict(verdict),
            Exit::Usage => 2,
            Exit::ReadFault => 3,
            Exit::TooLong | Exit::Scenario { .. } => 4,
            Exit::Absent => 5,
            Exit::WriteFault => 6,
            Exit::Memory => 8,
        }
    }
}

impl From<AllocError> for Exit {
    ghost use Rattle.nova_explore.specs.declared.exit.Exit.TheVariants.{Memory};

    ghost from_gives = { λ _ exit. exit ≡ Memory };

    fn from(_: AllocError) -> Exit {
        Exit::Memory
    }
}

impl From<CommandFault> for Exit {
    ghost use Rattle.nova_explore.specs.Exit.{of_command};

    ghost from_gives = { λ fault exit. exit ≡ of_command fault };

    fn from(fault: CommandFault) -> Exit {
        match fault {
            CommandFault::Usage => Exit::Usage,
            CommandFault::Memory => Exit::Memory,
        }
    }
}

impl From<ScenarioUnread> for Exit {
    ghost use Rattle.nova_explore.specs.Exit.{of_scenario};

    ghost from_gives = { λ unread exit. exit ≡ of_scenario unread };

    fn from(unread: ScenarioUnread) -> Exit {
        match unread {
            ScenarioUnread::Failed => Exit::ReadFault,
            ScenarioUnread::TooLong => Exit::TooLong,
            ScenarioUnread::Refused { line, why } => Exit::Scenario { line, why },
            ScenarioUnread::Memory => Exit::Memory,
        }
    }
}

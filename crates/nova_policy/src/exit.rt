ghost use Rattle.std.specs.Prelude.{◌≡◌};
ghost use Rattle.nova_policy.specs.Exit.{of_policy_fetch, status_of};

use nova_command::CommandFault;
use nova_finished::RunFault;
use nova_io::FetchFault;
use nova_judging::{Answer, Expected};
use nova_loading::{OrderUnread, ScenarioUnread};
use nova_naming::{PolicyFault, PolicyWhy};
use nova_order::OrderFault;
use nova_scenario::Why;
use std::alloc::AllocError;
use thiserror::Error;

/// A file that is read.
#[derive(Clone, Copy, Debug, PartialEq, Eq, Error)]
pub enum Input {
    /// A scenario, of at most 16 MiB.
    #[error("scenario")]
    Scenario,

    /// An order of turns, of at most 64 MiB.
    #[error("order")]
    Order,

    /// A policy of sides, of at most 1 MiB.
    #[error("policy")]
    Policy,
}

/// How a call of the program ends.
#[derive(Clone, Copy, Debug, PartialEq, Eq, Error)]
pub enum Exit {
    /// This is what the sides are. The text that tells it is written.
    #[error("told")]
    Told(Answer),

    /// The words ask for nothing. Nothing is written.
    #[error("usage: nova_policy SCENARIO [--order ORDER] [--at TURN] [--until TURN] [--policy POLICY] [--flow TURN]")]
    Usage,

    /// A file could not be fetched. Nothing is written.
    #[error("read fault")]
    ReadFault,

    /// A file is too long. Nothing is written.
    #[error("{0}: too long")]
    TooLong(Input),

    /// The scenario is refused, at its first line at fault, from 1. Nothing is written.
    #[error("scenario line {line}: {why}")]
    Scenario {
        line: u64,
        why: Why,
    },

    /// The order is refused, at its first line at fault. Nothing is written.
    #[error("order {0}")]
    Order(OrderFault),

    /// One of the turns up to the last that is asked for meets an idle processor: one of this line of the order. Nothing is written.
    #[error("order line {0}: Idle")]
    Idle(u64),

    /// The policy is refused, at its first line at fault, from 1. Nothing is written.
    #[error("policy line {line}: {why}")]
    Policy {
        line: u64,
        why: PolicyWhy,
    },

    /// The policy names as a protection domain or as a semaphore what is none after the last turn: its first such number, and the line. Nothing is written.
    #[error("policy line {line}: {expected} {number}")]
    Misnamed {
        line: u64,
        expected: Expected,
        number: u32,
    },

    /// The text could not be written whole. What is written is the beginning of it.
    #[error("write fault")]
    WriteFault,

    /// Memory was refused. Nothing is written.
    #[error("out of memory")]
    Memory,
}

/// The status of `answer`.
fn status_of_answer(answer: Answer) -> u8
    ensures { result ≡ status_of (Exit.Told answer) }
{
    match answer {
        Answer::Apart => 0,
        Answer::Served => 1,
        Answer::Breach => 9,
        Answer::Stuck => 10,
        Answer::Single => 11,
    }
}

/// The status where the file `input` is refused.
fn status_of_input(input: Input) -> u8
    ensures { result ≡ status_of (Exit.TooLong input) }
{
    match input {
        Input::Scenario => 4,
        Input::Order => 5,
        Input::Policy => 7,
    }
}

impl Exit {
    /// How a call ends where a policy did not come, by `fault`.
    pub(crate) fn of_policy_fetch(fault: FetchFault) -> Exit
        ensures { result ≡ of_policy_fetch fault }
    {
        match fault {
            FetchFault::Failed => Exit::ReadFault,
            FetchFault::TooLong => Exit::TooLong(Input::Policy),
            FetchFault::Memory => Exit::Memory,
        }
    }

    /// The status that the program ends with.
    pub fn status(self) -> u8
        ensures { result ≡ status_of self }
    {
        match self {
            Exit::Told(answer) => status_of_answer(answer),
            Exit::Usage => 2,
            Exit::ReadFault => 3,
            Exit::TooLong(input) => status_of_input(input),
            Exit::Scenario { .. } => 4,
            Exit::Order(_) | Exit::Idle(_) => 5,
            Exit::WriteFault => 6,
            Exit::Policy { .. } | Exit::Misnamed { .. } => 7,
            Exit::Memory => 8,
        }
    }
}

impl From<AllocError> for Exit {
    ghost use Rattle.nova_policy.specs.declared.exit.Exit.TheVariants.{Memory};

    ghost from_gives = { λ _ exit. exit ≡ Memory };

    fn from(_: AllocError) -> Exit {
        Exit::Memory
    }
}

impl From<CommandFault> for Exit {
    ghost use Rattle.nova_policy.specs.Exit.{of_command};

    ghost from_gives = { λ fault exit. exit ≡ of_command fault };

    fn from(fault: CommandFault) -> Exit {
        match fault {
            CommandFault::Usage => Exit::Usage,
            CommandFault::Memory => Exit::Memory,
        }
    }
}

impl From<ScenarioUnread> for Exit {
    ghost use Rattle.nova_policy.specs.Exit.{of_scenario};

    ghost from_gives = { λ unread exit. exit ≡ of_scenario unread };

    fn from(unread: ScenarioUnread) -> Exit {
        match unread {
            ScenarioUnread::Failed => Exit::ReadFault,
            ScenarioUnread::TooLong => Exit::TooLong(Input::Scenario),
            ScenarioUnread::Refused { line, why } => Exit::Scenario { line, why },
            ScenarioUnread::Memory => Exit::Memory,
        }
    }
}

impl From<OrderUnread> for Exit {
    ghost use Rattle.nova_policy.specs.Exit.{of_order};

    ghost from_gives = { λ unread exit. exit ≡ of_order unread };

    fn from(unread: OrderUnread) -> Exit {
        match unread {
            OrderUnread::Failed => Exit::ReadFault,
            OrderUnread::TooLong => Exit::TooLong(Input::Order),
            OrderUnread::Refused(fault) => Exit::Order(fault),
            OrderUnread::Memory => Exit::Memory,
        }
    }
}

impl From<PolicyFault> for Exit {
    ghost use Rattle.nova_policy.specs.Exit.{of_policy};

    ghost from_gives = { λ fault exit. exit ≡ of_policy fault };

    fn from(fault: PolicyFault) -> Exit {
        match fault {
            PolicyFault::At { line, why } => Exit::Policy { line, why },
            PolicyFault::Memory => Exit::Memory,
        }
    }
}

impl From<RunFault> for Exit {
    ghost use Rattle.nova_policy.specs.Exit.{of_run};

    ghost from_gives = { λ fault exit. exit ≡ of_run fault };

    fn from(fault: RunFault) -> Exit {
        match fault {
            RunFault::OrderIdle(line) => Exit::Idle(line),
            RunFault::Memory => Exit::Memory,
        }
    }
}

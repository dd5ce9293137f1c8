ghost use Rattle.std.specs.Prelude.{◌≡◌};
ghost use Rattle.nova_answers.specs.Exit.{status_of, of_subjects_fetch, at_line};

use crate::subjects::SubjectsFault;
use nova_command::CommandFault;
use nova_finished::RunFault;
use nova_io::FetchFault;
use nova_loading::{OrderUnread, ScenarioUnread};
use nova_order::OrderFault;
use nova_scenario::Why;
use std::alloc::AllocError;
use thiserror::Error;

/// Why a scenario is refused.
#[derive(Clone, Copy, Debug, PartialEq, Eq, Error)]
pub enum ScenarioWhy {
    /// It is longer than 16 MiB.
    #[error("TooLong")]
    TooLong,

    /// Its text is at fault.
    #[error("{0}")]
    Text(Why),
}

/// Why an order is refused.
#[derive(Clone, Copy, Debug, PartialEq, Eq, Error)]
pub enum OrderWhy {
    /// The line is not of the form `cpu count`, has a number of 2^64 or more, or has no line feed at its end.
    #[error("BadLine")]
    BadLine,

    /// There is no such processor.
    #[error("BadCpu")]
    BadCpu,

    /// The line says no turns.
    #[error("ZeroCount")]
    ZeroCount,

    /// The line before names the same processor.
    #[error("NotMerged")]
    NotMerged,

    /// With this line there are more turns than the limit.
    #[error("TooMany")]
    TooMany,

    /// The processor is idle in one of the line's turns.
    #[error("Idle")]
    Idle,

    /// The order is longer than 64 MiB.
    #[error("TooLong")]
    TooLong,
}

/// Why two guests are not compared.
#[derive(Clone, Copy, Debug, PartialEq, Eq, Error)]
pub enum TwinWhy {
    /// The text does not name two guests.
    #[error("Syntax")]
    Syntax,

    /// No virtual CPU has the number at the end.
    #[error("Guest")]
    Guest,

    /// The line's scenario is refused, at this line of its own.
    #[error("{why}")]
    Scenario { line: u64, why: ScenarioWhy },

    /// The line's order is refused, at this line of its own.
    #[error("{why}")]
    Order { line: u64, why: OrderWhy },

    /// The text is longer than 4,096 bytes.
    #[error("TooLong")]
    TooLong,
}

/// How a call of the program ends.
#[derive(Clone, Copy, Debug, PartialEq, Eq, Error)]
pub enum Exit {
    /// The scenario is valid, and where it is run the run is quiet at its end; or two guests were compared. The text is written.
    #[error("done")]
    Done,

    /// The words are no command. Nothing is written.
    #[error("usage: nova run|solo|check|bench|twin NAME [ORDER] [--limit N]")]
    Usage,

    /// The scenario could not be fetched, or the order, or what names two guests. Nothing is written.
    #[error("read fault")]
    ReadFault,

    /// The scenario is refused: the first line at fault, from 1, or 0 where it is too long. Nothing is written.
    #[error("scenario line {line}: {why}")]
    Scenario { line: u64, why: ScenarioWhy },

    /// The order is refused: the first line at fault, from 1, or 0 where it is too long. Nothing is written.
    #[error("order line {line}: {why}")]
    OrderFault { line: u64, why: OrderWhy },

    /// Two guests are not compared: the line that names the guest at fault, 3 where more than two lines are there, or 0 where the text is too long.
    /// Nothing is written.
    #[error("twin line {line}: {why}")]
    Twin { line: u64, why: TwinWhy },

    /// The text could not be written whole. What is written is the beginning of it.
    #[error("write fault")]
    WriteFault,

    /// The run is not quiet at its end. Its report is written.
    #[error("not quiet")]
    Limit,

    /// Memory was refused. Nothing is written.
    #[error("out of memory")]
    Memory,
}

impl Exit {
    /// How a call ends whose text of two guests did not come, by `fault`.
    pub fn of_subjects_fetch(fault: FetchFault) -> Exit
        ensures { result ≡ of_subjects_fetch fault }
    {
        match fault {
            FetchFault::Failed => Exit::ReadFault,
            FetchFault::TooLong => Exit::Twin {
                line: 0,
                why: TwinWhy::TooLong,
            },
            FetchFault::Memory => Exit::Memory,
        }
    }

    /// The end where the guest of line `twin` is not followed.
    pub fn at_line(self, twin: u64) -> Exit
        ensures { result ≡ at_line twin self }
    {
        let why = match self {
            Exit::Scenario { line, why } => TwinWhy::Scenario { line, why },
            Exit::OrderFault { line, why } => TwinWhy::Order { line, why },
            exit => return exit,
        };
        Exit::Twin { line: twin, why }
    }

    /// The status that the program ends with.
    pub fn status(self) -> u8
        ensures { result ≡ status_of self }
    {
        match self {
            Exit::Done => 0,
            Exit::Usage => 2,
            Exit::ReadFault => 3,
            Exit::Scenario { .. } => 4,
            Exit::OrderFault { .. } => 5,
            Exit::WriteFault => 6,
            Exit::Limit => 7,
            Exit::Memory => 8,
            Exit::Twin { .. } => 10,
        }
    }
}

impl From<AllocError> for Exit {
    ghost use Rattle.nova_answers.specs.declared.exit.Exit.TheVariants.{Memory};

    ghost from_gives = { λ _ exit. exit ≡ Memory };

    fn from(_: AllocError) -> Exit {
        Exit::Memory
    }
}

impl From<CommandFault> for Exit {
    ghost use Rattle.nova_answers.specs.Exit.{of_command};

    ghost from_gives = { λ fault exit. exit ≡ of_command fault };

    fn from(fault: CommandFault) -> Exit {
        match fault {
            CommandFault::Usage => Exit::Usage,
            CommandFault::Memory => Exit::Memory,
        }
    }
}

impl From<ScenarioUnread> for Exit {
    ghost use Rattle.nova_answers.specs.Exit.{of_scenario};

    ghost from_gives = { λ unread exit. exit ≡ of_scenario unread };

    fn from(unread: ScenarioUnread) -> Exit {
        match unread {
            ScenarioUnread::Failed => Exit::ReadFault,
            ScenarioUnread::TooLong => Exit::Scenario {
                line: 0,
                why: ScenarioWhy::TooLong,
            },
            ScenarioUnread::Refused { line, why } => Exit::Scenario {
                line,
                why: ScenarioWhy::Text(why),
            },
            ScenarioUnread::Memory => Exit::Memory,
        }
    }
}

impl From<OrderFault> for Exit {
    ghost use Rattle.nova_answers.specs.Exit.{of_order_text};

    ghost from_gives = { λ fault exit. exit ≡ of_order_text fault };

    fn from(fault: OrderFault) -> Exit {
        let (line, why) = match fault {
            OrderFault::BadLine(line) => (line, OrderWhy::BadLine),
            OrderFault::BadCpu(line) => (line, OrderWhy::BadCpu),
            OrderFault::ZeroCount(line) => (line, OrderWhy::ZeroCount),
            OrderFault::NotMerged(line) => (line, OrderWhy::NotMerged),
            OrderFault::TooMany(line) => (line, OrderWhy::TooMany),
            OrderFault::Memory => return Exit::Memory,
        };
        Exit::OrderFault { line, why }
    }
}

impl From<OrderUnread> for Exit {
    ghost use Rattle.nova_answers.specs.Exit.{of_order};

    ghost from_gives = { λ unread exit. exit ≡ of_order unread };

    fn from(unread: OrderUnread) -> Exit {
        match unread {
            OrderUnread::Failed => Exit::ReadFault,
            OrderUnread::TooLong => Exit::OrderFault {
                line: 0,
                why: OrderWhy::TooLong,
            },
            OrderUnread::Refused(fault) => Exit::from(fault),
            OrderUnread::Memory => Exit::Memory,
        }
    }
}

impl From<RunFault> for Exit {
    ghost use Rattle.nova_answers.specs.Exit.{of_run};

    ghost from_gives = { λ fault exit. exit ≡ of_run fault };

    fn from(fault: RunFault) -> Exit {
        match fault {
            RunFault::OrderIdle(line) => Exit::OrderFault {
                line,
                why: OrderWhy::Idle,
            },
            RunFault::Memory => Exit::Memory,
        }
    }
}

impl From<SubjectsFault> for Exit {
    ghost use Rattle.nova_answers.specs.Exit.{of_subjects};

    ghost from_gives = { λ fault exit. exit ≡ of_subjects fault };

    fn from(fault: SubjectsFault) -> Exit {
        match fault {
            SubjectsFault::Syntax(line) => Exit::Twin {
                line,
                why: TwinWhy::Syntax,
            },
            SubjectsFault::Memory => Exit::Memory,
        }
    }
}

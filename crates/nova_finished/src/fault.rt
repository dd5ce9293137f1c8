ghost use Rattle.std.specs.Prelude.{◌≡◌, Some};
ghost use Rattle.nova_finished.specs.declared.fault.RunFault.TheVariants.{Memory};
ghost use Rattle.nova_finished.specs.Fault.{message_of};

use std::alloc::AllocError;
use std::error::Error;
use std::fmt;

/// Why there is no finished run.
#[derive(Clone, Copy, Debug, PartialEq, Eq)]
pub enum RunFault {
    /// A turn of the block in this line of the order's text, counted from 1, met an idle processor.
    OrderIdle(u64),

    /// Memory was refused.
    Memory,
}

impl From<AllocError> for RunFault {
    ghost from_gives = { λ error fault. fault ≡ Memory };

    fn from(_: AllocError) -> RunFault {
        RunFault::Memory
    }
}

impl fmt::Display for RunFault {
    ghost output = { λ fault. Some (message_of fault) };

    fn fmt<W: fmt::Write>(&self, f: &mut fmt::Formatter<W>) -> fmt::Result {
        match self {
            RunFault::OrderIdle(line) => write!(f, "line {line}: OrderIdle"),
            RunFault::Memory => f.write_str("out of memory"),
        }
    }
}

impl Error for RunFault {}

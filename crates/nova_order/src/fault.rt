ghost use Rattle.std.specs.Prelude.{◌≡◌, Some};
ghost use Rattle.nova_order.specs.declared.fault.OrderFault.TheVariants.{Memory};
ghost use Rattle.nova_order.specs.Fault.{message_of};

use std::alloc::AllocError;
use std::error::Error;
use std::fmt;

/// Why a text was not read as an order: the first line at fault, counted from 1, with its first fault in this order.
#[derive(Clone, Copy, Debug, PartialEq, Eq)]
pub enum OrderFault {
    /// It is not of the form, has a number of 2^64 or more, or has no line feed at the end.
    BadLine(u64),

    /// There is no such processor.
    BadCpu(u64),

    /// It says no turns.
    ZeroCount(u64),

    /// The line before names the same processor.
    NotMerged(u64),

    /// With it there are more turns than there may be.
    TooMany(u64),

    /// Memory was refused.
    Memory,
}

impl From<AllocError> for OrderFault {
    ghost from_gives = { λ error fault. fault ≡ Memory };

    fn from(_: AllocError) -> OrderFault {
        OrderFault::Memory
    }
}

impl fmt::Display for OrderFault {
    ghost output = { λ fault. Some (message_of fault) };

    fn fmt<W: fmt::Write>(&self, f: &mut fmt::Formatter<W>) -> fmt::Result {
        match self {
            OrderFault::BadLine(line) => write!(f, "line {line}: BadLine"),
            OrderFault::BadCpu(line) => write!(f, "line {line}: BadCpu"),
            OrderFault::ZeroCount(line) => write!(f, "line {line}: ZeroCount"),
            OrderFault::NotMerged(line) => write!(f, "line {line}: NotMerged"),
            OrderFault::TooMany(line) => write!(f, "line {line}: TooMany"),
            OrderFault::Memory => f.write_str("out of memory"),
        }
    }
}

impl Error for OrderFault {}

ghost use Rattle.std.specs.Prelude.{◌≡◌};

use std::alloc::AllocError;
use std::fmt;

/// Why a line is none of a policy.
#[derive(Clone, Copy, Debug, PartialEq, Eq)]
pub enum PolicyWhy {
    /// It begins with none of `trusted`, `side`, `shared` and `flow`.
    Word,

    /// The name of its side isn't there, or isn't one: a letter, and up to 31 more letters, digits, `-` and `_`; and not `trusted`. Or it says `flow` of
    /// anything but two names.
    Name,

    /// A word where a number below 2^32 is to stand isn't one.
    Number,

    /// It names no domain, or no semaphore.
    Empty,

    /// A line before it has its side's name.
    SameName,

    /// It names a domain twice, or a domain that a line before it names.
    SameDomain,

    /// It names a semaphore twice, or one that a line before it names.
    SameSemaphore,

    /// No line before it has the name of a side of its flow.
    NoSide,

    /// Its flow is from a side to itself.
    SameSide,

    /// A line before it says its flow.
    SameFlow,

    /// There are 1,000 lines before it that say something.
    TooMany,
}

impl fmt::Display for PolicyWhy {
    ghost use Rattle.std.specs.Prelude.{Some};
    ghost use Rattle.nova_naming.specs.Fault.{text_of};

    ghost output = { λ why. Some (text_of why) };

    fn fmt<W: fmt::Write>(&self, f: &mut fmt::Formatter<W>) -> fmt::Result {
        f.write_str(match self {
            PolicyWhy::Word => "Word",
            PolicyWhy::Name => "Name",
            PolicyWhy::Number => "Number",
            PolicyWhy::Empty => "Empty",
            PolicyWhy::SameName => "SameName",
            PolicyWhy::SameDomain => "SameDomain",
            PolicyWhy::SameSemaphore => "SameSemaphore",
            PolicyWhy::NoSide => "NoSide",
            PolicyWhy::SameSide => "SameSide",
            PolicyWhy::SameFlow => "SameFlow",
            PolicyWhy::TooMany => "TooMany",
        })
    }
}

/// Why no policy was read.
#[derive(Clone, Copy, Debug, PartialEq, Eq)]
pub enum PolicyFault {
    /// The first line at fault, counted from 1, with its first fault.
    At { line: u64, why: PolicyWhy },

    /// Memory was refused.
    Memory,
}

impl From<AllocError> for PolicyFault {
    ghost use Rattle.nova_naming.specs.declared.fault.PolicyFault.TheVariants.{Memory};

    ghost from_gives = { λ error fault. fault ≡ Memory };

    fn from(_: AllocError) -> PolicyFault {
        PolicyFault::Memory
    }
}

impl PolicyWhy {
    /// The fault of line `line`.
    pub(crate) fn at(self, line: u64) -> PolicyFault
        ensures { result ≡ PolicyFault.At line self }
    {
        PolicyFault::At { line, why: self }
    }
}

// The faults of reading and writing.
ghost use Rattle.std.specs.Prelude.{◌≡◌, Some, codes};
ghost use Rattle.nova_io.specs.Faults.{Rose, raised};
ghost use Rattle.nova_io.specs.declared.faults.FetchFault.TheVariants.{Failed as fetch_failed, Memory};

use std::alloc::AllocError;
use std::error::Error;
use std::fmt;

/// A fetch, an append or a write failed. It is answered only where the count of such faults rose.
#[derive(Clone, Copy, Debug, PartialEq, Eq)]
pub struct Failed;

impl fmt::Display for Failed {
    ghost output = { λ _. Some (codes "a fault of reading or writing") };

    fn fmt<W: fmt::Write>(&self, f: &mut fmt::Formatter<W>) -> fmt::Result {
        f.write_str("a fault of reading or writing")
    }
}

impl Error for Failed {}

/// Why the whole of a file didn't come.
#[derive(Clone, Copy, Debug, PartialEq, Eq)]
pub enum FetchFault {
    /// A fetch failed.
    Failed,
    /// More bytes came than the caller takes.
    TooLong,
    /// Memory was refused.
    Memory,
}

impl fmt::Display for FetchFault {
    ghost use Rattle.nova_io.specs.FetchFault.{text_of};

    ghost output = { λ fault. Some (text_of fault) };

    fn fmt<W: fmt::Write>(&self, f: &mut fmt::Formatter<W>) -> fmt::Result {
        f.write_str(match self {
            FetchFault::Failed => "a fetch failed",
            FetchFault::TooLong => "too many bytes",
            FetchFault::Memory => "out of memory",
        })
    }
}

impl Error for FetchFault {}

impl From<Failed> for FetchFault {
    ghost from_gives = { λ _ e. e ≡ fetch_failed };

    fn from(_: Failed) -> Self {
        FetchFault::Failed
    }
}

impl From<AllocError> for FetchFault {
    ghost from_gives = { λ _ e. e ≡ Memory };

    fn from(_: AllocError) -> Self {
        FetchFault::Memory
    }
}

/// Counts a fault in `count`. The count stays at its last value.
pub(crate) fn raise(count: &mut u64) -> Failed
    ensures counted { count.new ≡ raised count.old }
    ensures rose { Rose count.old count.new }
{
    *count = count.saturating_add(1);
    Failed
}

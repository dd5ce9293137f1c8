ghost use Rattle.std.specs.Prelude.{◌≡◌, IfOk};
ghost use Rattle.std.specs.List.{list_all};
ghost use Rattle.law_swaps.specs.Touches.{are_apart, has, meet};
ghost use Rattle.nova_touching.specs.Marks.{is_within, nothing};

use std::alloc::{AllocError, Global};
use std::marker::Model;

/// What a turn of a processor touches, or several turns do: it is at most this.
#[derive(Drop)]
pub struct Touch {
    /// The frames that are read, also consoles.
    pub(crate) reads: Vec<u64>,
    /// The frames of RAM that are stored to.
    pub(crate) writes: Vec<u64>,
    /// The processors, but for its own, of which something is changed, and on which somebody is chosen.
    pub(crate) meets: Vec<u64>,
    /// Whether where pages lead is changed.
    pub(crate) moves: bool,
    /// Whether it is a plain step: an instruction that goes on, where nothing is due.
    pub(crate) is_plain: bool,
}

impl Model for Touch {
    ghost use Rattle.law_swaps.specs.Touches.{Touch as Touched};

    ghost Value = { Touched };

    ghost view = { λ t. record { reads = t.reads.items; writes = t.writes.items; meets = t.meets.items; moves = t.moves; is_plain = t.is_plain } };
}

/// Whether a number is among `numbers`.
fn has(numbers: &[u64], number: u64) -> bool
    ensures { result ≡ has numbers.now number }
{
    numbers.iter().any(|&other| number == other)
}

/// Whether a number of the first is among the second.
fn meet(numbers: &[u64], others: &[u64]) -> bool
    ensures { result ≡ meet numbers.now others.now }
{
    numbers.iter().any(|&number| has(others, number))
}

/// Whether each number of the second is among the first.
fn has_all(numbers: &[u64], others: &[u64]) -> bool
    ensures { result ≡ list_all (has numbers.now) others.now }
{
    others.iter().all(|&other| has(numbers, other))
}

impl Touch {
    /// A turn that touches nothing, and isn't plain.
    pub(crate) fn nothing(alloc: Global) -> Touch
        ensures { result ≡ nothing }
    {
        Touch {
            reads: Vec::new(alloc),
            writes: Vec::new(alloc),
            meets: Vec::new(alloc),
            moves: false,
            is_plain: false,
        }
    }

    /// Whether a turn that touches no more than `other` touches no more than this, and is plain where this is.
    pub(crate) fn includes(&self, other: &Touch) -> bool
        ensures { result ≡ is_within self.now other.now }
    {
        has_all(&self.reads, &other.reads)
            && has_all(&self.writes, &other.writes)
            && has_all(&self.meets, &other.meets)
            && (self.moves || !other.moves)
            && (other.is_plain || !self.is_plain)
    }

    /// The same, in memory of its own.
    pub(crate) fn copy(&self, alloc: Global) -> Result<Touch, AllocError>
        ensures { IfOk result (λ t. t ≡ self.now) }
    {
        Ok(Touch {
            reads: Vec::from_slice(alloc, &self.reads)?,
            writes: Vec::from_slice(alloc, &self.writes)?,
            meets: Vec::from_slice(alloc, &self.meets)?,
            moves: self.moves,
            is_plain: self.is_plain,
        })
    }

    /// Whether a turn of the processor `cpu` that touches this is apart from a turn of another that touches `other`: it is plain, and the other changes nothing
    /// of its processor, doesn't change where pages lead, stores to nothing that it reads or stores to, and reads nothing that it stores to.
    pub fn is_apart(&self, cpu: u32, other: &Touch) -> bool
        ensures { result ≡ are_apart cpu self.now other.now }
    {
        self.is_plain
            && !(has(&other.meets, u64::from(cpu))
                || other.moves
                || meet(&other.writes, &self.reads)
                || meet(&other.writes, &self.writes)
                || meet(&self.writes, &other.reads))
    }
}

ghost use Rattle.std.specs.Prelude.{◌≡◌, ◌+◌, ◌/◌, ◌<◌, ◌≤◌, ◌++◌, ◌∷◌, [], vec_len, Contains, IfSome};
ghost use Rattle.nova_recording.specs.Copies.{AreAmong, IsMore, size_of, sizes_of};

use nova_kernel::Kernel;
use nova_report::count_derivations;
use std::alloc::{AllocError, Global};
use std::marker::Model;

/// The state after `turn` turns of a run, to go on from.
#[derive(Drop)]
pub(crate) struct Kept {
    pub(crate) turn: usize,
    pub(crate) kernel: Kernel,
}

/// States that are kept on the way, by rising turn, one each `spacing` turns. They take at most `most` bytes, where each is taken to be as large as
/// the largest. Where one more would be too many, every second is let go, and from then on they are kept half as often.
#[derive(Drop)]
pub(crate) struct Copies {
    kept: Vec<Kept>,
    /// The most bytes of all.
    most: usize,
    /// The most bytes of a kept state so far.
    each: usize,
    /// How many turns a kept state is after another.
    spacing: usize,
    /// The turn of which the next is kept.
    next: usize,
}

impl Model for Copies {
    ghost use Rattle.std.specs.Prelude.{◌<◌, ◌≤◌, ◌/◌, length};
    ghost use Rattle.nova_recording.specs.Copies.{AreNoLarger, CopiesView};

    ghost Value = { CopiesView };

    ghost view = { λ c. record { kept = c.kept.items; most = c.most; each = c.each } };

    ghost invariant = { λ c. (0 < c.each) × ((length c.kept.items ≤ c.most / c.each) × AreNoLarger c.each c.kept.items) };
}

/// Lets every second of `kept` go, from the second on.
fn thin(kept: &mut Vec<Kept>)
    ensures among { AreAmong kept.new.items kept.old.items }
    ensures half { vec_len kept.new ≡ (vec_len kept.old + 1) / 2 }
{
    let half = kept.len().div_ceil(2);
    for i in 1..half {
        kept.swap(i, 2 * i);
    }
    kept.truncate(half);
}

/// Lets every second of `kept` go until there are at most `most`, which is at least 1; and returns how far they are from one another then, where they
/// were `spacing`.
fn fit(kept: &mut Vec<Kept>, most: usize, spacing: usize) -> usize
    requires { 0 < most }
    ensures among { AreAmong kept.new.items kept.old.items }
    ensures most { vec_len kept.new ≤ most }
{
    let mut spacing = spacing;
    while kept.len() > most {
        thin(kept);
        spacing = spacing.saturating_mul(2);
    }
    spacing
}

/// Makes room for one more of `kept`, where there may be `most`; and returns how far they are from one another then, where they were `spacing`.
#[tactic(auto, using(crate::proofs::Copied::none_among))]
fn make_room(kept: &mut Vec<Kept>, most: usize, spacing: usize) -> usize
    ensures among { AreAmong kept.new.items kept.old.items }
    ensures most { vec_len kept.new ≤ most }
{
    if most < 2 {
        kept.clear();
        return spacing.saturating_mul(2);
    }
    fit(kept, most - 1, spacing)
}

/// The last of some states that is of turn `to` or before.
fn newest_of(kept: &[Kept], to: usize) -> Option<&Kept>
    ensures kept { IfSome result (λ k. Contains kept.now k.now) }
    ensures before { IfSome result (λ k. k.now.turn ≤ to) }
{
    kept.iter().rev().find(|kept| kept.turn <= to)
}

impl Copies {
    /// No kept states, and none is to be kept.
    #[tactic(auto, using(crate::proofs::Copied::none_larger))]
    pub(crate) fn none(alloc: Global) -> Copies
        ensures { result ≡ record { kept = []; most = 0; each = 1 } }
    {
        Copies {
            kept: Vec::new(alloc),
            most: 0,
            each: 1,
            spacing: 1,
            next: usize::MAX,
        }
    }

    /// Lets all go, and keeps states in at most `most` bytes from a turn on, at first each `spacing` turns; none for 0 bytes.
    #[tactic(auto, using(crate::proofs::Copied::none_larger))]
    pub(crate) fn begin(&mut self, most: usize, spacing: usize, turn: usize)
        ensures { self.new ≡ record self.old { kept = []; most = most } }
    {
        self.kept.clear();
        self.most = most;
        self.spacing = spacing;
        self.next = turn;
    }

    /// Whether a state is to be kept of `turn`: its turn has come, and a state is not thought to be larger than all may be.
    pub(crate) fn is_due(&self, turn: usize) -> bool {
        turn >= self.next && self.each <= self.most
    }

    /// Makes room for one more state, which takes `bytes` bytes.
    pub(crate) fn make_room(&mut self, bytes: usize)
        ensures among { AreAmong self.new.kept self.old.kept }
        ensures most { self.new.most ≡ self.old.most }
        ensures each { bytes ≤ self.new.each }
        ensures within { sizes_of self.new.kept ≤ self.new.most }
    {
        self.each = self.each.max(bytes);
        let spacing = make_room(&mut self.kept, self.most / self.each, self.spacing);
        self.spacing = spacing;
        if let Some(last) = self.kept.last() {
            self.next = last.turn.saturating_add(spacing);
        }
    }

    /// Keeps the state `kept`, where there is room for it; the next is kept `spacing` turns later.
    pub(crate) fn add(&mut self, kept: Kept) -> Result<(), AllocError>
        requires size { size_of kept.kernel.state ≤ self.old.each }
        ensures more { IsMore self.old.kept kept self.new.kept }
        ensures most { self.new.most ≡ self.old.most }
        ensures within { sizes_of self.new.kept ≤ self.new.most }
    {
        self.next = kept.turn.saturating_add(self.spacing);
        if self.kept.len() < self.most / self.each {
            self.kept.push(kept)?;
        }
        Ok(())
    }

    /// The newest that is kept of the turns up to `to`.
    pub(crate) fn newest(&self, to: usize) -> Option<&Kept>
        ensures kept { IfSome result (λ k. Contains self.now.kept k.now) }
        ensures before { IfSome result (λ k. k.now.turn ≤ to) }
    {
        newest_of(&self.kept, to)
    }
}

/// What a state takes beside what follows, in bytes.
const STATE: usize = 16_384;

/// A frame of RAM.
const FRAME: usize = 4_096;

/// An object's entries in all tables, with the message words and registers of a thread.
const OBJECT: usize = 1_024;

/// A derivation, with its place in an index.
const DERIVATION: usize = 128;

/// A byte in the console log.
const LOGGED: usize = 8;

/// The bytes that the state of `kernel` takes where it is kept, by how much it has of what grows; none where a `usize` is too small. An estimate:
/// nothing is measured.
pub(crate) fn bytes_of(kernel: &Kernel) -> Option<usize>
    ensures bytes { IfSome result (λ bytes. bytes ≡ size_of kernel.now.state) }
    ensures some { IfSome result (λ bytes. 0 < bytes) }
{
    let frames = kernel.ram() as usize * FRAME;
    let objects = kernel.objects().len() * OBJECT;
    let derivations = count_derivations(kernel) as usize * DERIVATION;
    let log = kernel.log().len().checked_mul(LOGGED)?;
    log.checked_add(STATE + frames + objects + derivations)
}

ghost use Rattle.std.specs.Prelude.{◌≡◌, slice_get};
ghost use Rattle.std.specs.List.{list_any};
ghost use Rattle.law_forest.specs.Turns.{is_passing};
ghost use Rattle.nova_recording.specs.Recordings.{IsAt};
ghost use Rattle.nova_recording.specs.Wants.{is_ready, is_met, wanted_in, next_of, next_by, access_by};
ghost use Rattle.nova_recording.specs.Accesses.{accessed};
ghost use Rattle.nova_recording.specs.Watches.{is_on, is_seen, is_seen_by, is_seen_in, overlaps};

use crate::preview::{Access, Preview, pd_of};
use crate::recording::Recording;
use nova_kernel::{EventKind, Kernel, State};

/// An instruction that an execution context is about to execute: its own number, its protection domain and the address.
#[derive(Clone, Copy)]
pub struct Next {
    pub ec: u32,
    pub pd: u32,
    pub pc: u32,
}

/// What a search looks for.
#[derive(Clone, Copy)]
pub enum Want {
    /// The instruction at an address of a protection domain.
    At { pd: u32, address: u32 },
    /// Any instruction of an execution context.
    By { ec: u32 },
}

/// All that a search looks for: instructions, and bytes that are loaded or stored.
#[derive(Drop)]
pub struct Search {
    pub wants: Vec<Want>,
    pub watches: Vec<Watch>,
}

impl Next {
    /// Whether the instruction is what `want` looks for.
    fn is_met(&self, want: Want) -> bool
        ensures { result ≡ is_met self.now want }
    {
        match want {
            Want::At { pd, address } => self.pd == pd && self.pc == address,
            Want::By { ec } => self.ec == ec,
        }
    }

    /// Whether the instruction is what one of `wants` looks for.
    fn is_any(&self, wants: &[Want]) -> bool
        ensures { result ≡ list_any (is_met self.now) wants.now }
    {
        wants.iter().any(|want| self.is_met(*want))
    }
}

fn is_ready(state: State) -> bool
    ensures { result ≡ is_ready state }
{
    matches!(state, State::Ready)
}

/// The instruction that the execution context `ec` is about to execute; none where it is about to do anything else.
pub fn next_of(kernel: &Kernel, ec: u32) -> Option<Next>
    ensures { result ≡ next_of kernel.now.state ec }
{
    let context = kernel.ec(ec)?;
    if !is_ready(context.state) || context.recall {
        return None;
    }
    Some(Next {
        ec,
        pd: pd_of(kernel, ec),
        pc: context.regs.pc(),
    })
}

/// Whether an event of `kind` is a deadline, an alarm or a tick, in whose turn none acts.
pub fn is_passing(kind: EventKind) -> bool
    ensures { result ≡ is_passing kind }
{
    matches!(kind, EventKind::Late | EventKind::Irq | EventKind::Tick)
}

impl Recording {
    /// The instruction that the next turn of the run is about to execute; none where it does anything else, and at the end.
    pub fn next(&self) -> Option<Next>
        ensures next { result ≡ next_by self.now.state (slice_get self.now.events self.now.turn) }
        ensures at { IsAt self.now.opening self.now.events self.now.turn self.now.state }
    {
        let event = self.events().get(self.turn())?;
        if is_passing(event.kind) {
            return None;
        }
        next_of(self.kernel(), event.ec)
    }

    /// Whether the next turn does something that `search` looks for.
    pub(crate) fn is_wanted(&mut self, search: &Search) -> bool
        ensures wanted { result ≡ wanted_in search.now self.old.state (slice_get self.old.events self.old.turn) }
        ensures kept { self.new ≡ self.old }
    {
        let Some(next) = self.next() else {
            return false;
        };
        next.is_any(&search.wants) || self.is_seen(next, &search.watches)
    }
}

/// Bytes of a frame, of which one looks for loads, stores or both.
#[derive(Clone, Copy)]
pub struct Watch {
    pub frame: u32,
    pub first: u32,
    pub last: u32,
    pub loads: bool,
    pub stores: bool,
}

impl Watch {
    /// Whether bytes of its frame from an offset on share one with those that are watched.
    fn overlaps(&self, offset: u32, width: u32) -> bool
        ensures { result ≡ overlaps offset width self.now }
    {
        let end = u64::from(offset) + u64::from(width);
        offset <= self.last && u64::from(self.first) < end
    }
}

impl Access {
    /// Whether it is of bytes that are watched.
    fn is_on(&self, watch: Watch) -> bool
        ensures { result ≡ is_on self.now watch self.now.frame }
    {
        match self.frame {
            Some(frame) => {
                frame == watch.frame && watch.overlaps(self.address % 4096, self.width)
            }
            None => false,
        }
    }

    /// Whether it is a load or a store as is looked for, of bytes that are watched.
    fn is_seen(&self, watch: Watch) -> bool
        ensures { result ≡ is_seen self.now watch }
    {
        let is_of_kind = if self.stored.is_some() {
            watch.stores
        } else {
            watch.loads
        };
        is_of_kind && self.is_on(watch)
    }

    /// Whether it is seen by some of what is watched.
    fn is_any(&self, watches: &[Watch]) -> bool
        ensures { result ≡ list_any (is_seen self.now) watches.now }
    {
        watches.iter().any(|watch| self.is_seen(*watch))
    }
}

/// Whether the next instruction of an execution context of a kernel loads or stores bytes that are watched, as is looked for.
pub fn is_next_seen(kernel: Kernel, ec: u32, watch: Watch) -> bool
    ensures { result ≡ is_seen_in (accessed kernel.state ec) watch }
{
    let mut preview = Preview::new(kernel);
    match preview.access(ec) {
        Some(access) => access.is_seen(watch),
        None => false,
    }
}

impl Recording {
    /// What an instruction that is next loads or stores.
    fn accessed(&mut self, next: Next) -> Option<Access>
        ensures access { result ≡ accessed self.old.state next.ec }
        ensures kept { self.new ≡ self.old }
    {
        self.preview.access(next.ec)
    }

    /// What the next turn of the run loads or stores; none where it does neither, and at the end.
    pub fn access(&mut self) -> Option<Access>
        ensures access { result ≡ access_by self.old.state (slice_get self.old.events self.old.turn) }
        ensures at { IsAt self.old.opening self.old.events self.old.turn self.old.state }
        ensures kept { self.new ≡ self.old }
    {
        let next = self.next()?;
        self.accessed(next)
    }

    /// Whether the next instruction loads or stores what is watched.
    #[tactic(auto, using(crate::proofs::Watched::nothing_seen))]
    pub(crate) fn is_seen(&mut self, next: Next, watches: &[Watch]) -> bool
        ensures seen { result ≡ is_seen_by watches.now (accessed self.old.state next.ec) }
        ensures kept { self.new ≡ self.old }
    {
        if watches.is_empty() {
            return false;
        }
        match self.accessed(next) {
            Some(access) => access.is_any(watches),
            None => false,
        }
    }
}

ghost use Rattle.std.specs.Prelude.{◌≡◌, ◌<◌, ◌%◌, ◌*◌, ◌^◌, slice_get, option_map};
ghost use Rattle.rv_model.specs.Step.{one};
ghost use Rattle.nova_deeds.specs.Acts.{outcome_of};
ghost use Rattle.nova_guest.specs.Conditions.{IsWidth};
ghost use Rattle.nova_guest.specs.Frames.{read_in};
ghost use Rattle.nova_model.specs.AddressSpaces.{frame_for, space, without_loads, words_at};
ghost use Rattle.nova_model.specs.State.{context, is_thread, message, pd_of};
ghost use Rattle.law_swaps.specs.Touches.{frame_missed};
ghost use Rattle.nova_touching.specs.Looking.{IsSight, LookState, begun, found, is_next, seen, stored_by};

use crate::leading::leads_to;
use bitflags::Flags;
use nova_guest::words::read_word;
use nova_kernel::{EcKind, Kernel, Object, Rights, Utcb};
use rv_core::bus::Bus;
use rv_core::outcome::{LOAD_FAULT, Outcome};
use rv_core::{Regs, hart};
use std::marker::Model;

/// The page of a thread's own message words, where no delegation leads.
const OWN_PAGE: u32 = 0xfffff;

/// How many bytes the message words of a thread have.
const MESSAGE_SIZE: u32 = 512;

/// What the next instruction of an execution context reaches: frames by number, also consoles.
#[derive(Clone, Copy)]
pub(crate) struct Sight {
    /// Whether it goes on; else it raises.
    pub(crate) goes_on: bool,
    /// The frame that it is fetched from.
    pub(crate) fetched: Option<u64>,
    /// The frame that it loads from; none where it loads message words, or nothing.
    pub(crate) loaded: Option<u64>,
    /// The frame that it stores to; none where it stores message words, or nothing.
    pub(crate) stored: Option<u64>,
}

/// A kernel of which the next instruction of an execution context is only looked at. A store is noted by its frame, and not made.
#[derive(Drop)]
struct Looking<'a> {
    kernel: &'a Kernel,
    ec: u32,
    hides_loads: bool,
    stored: Option<u64>,
}

impl<'a> Model for Looking<'a> {
    ghost use Rattle.nova_touching.specs.Looking.{LookState};

    ghost Value = { LookState };

    ghost view = { λ l. record { kernel = l.kernel.now.state; ec = l.ec; hides_loads = l.hides_loads; stored = l.stored } };
}

/// Whether an object is a thread, which has a page of its own.
fn is_thread(kernel: &Kernel, ec: u32) -> bool
    ensures { result ≡ is_thread kernel.now.state ec }
{
    match kernel.object(ec) {
        Some(Object::Ec { kind, .. }) => !matches!(kind, EcKind::Vcpu),
        _ => false,
    }
}

/// The protection domain of an execution context; a number that no domain has where it is none.
fn pd_of(kernel: &Kernel, ec: u32) -> u32
    ensures { result ≡ pd_of kernel.now.state ec }
{
    match kernel.object(ec) {
        Some(Object::Ec { pd, .. }) => *pd,
        _ => u32::MAX,
    }
}

/// The message words of a thread, which are all 0 where it has none.
fn message(kernel: &Kernel, ec: u32) -> Utcb
    ensures { result ≡ message kernel.now.state ec }
{
    match kernel.words(ec) {
        Some(words) => *words,
        None => Utcb::new(),
    }
}

impl<'a> Looking<'a> {
    /// Nothing of the next instruction of the execution context `ec` is looked at yet.
    fn new(kernel: &'a Kernel, ec: u32) -> Looking<'a>
        ensures kernel { result.kernel ≡ kernel.now.state }
        ensures ec { result.ec ≡ ec }
    {
        Looking {
            kernel,
            ec,
            hides_loads: false,
            stored: None,
        }
    }

    /// What a page leads to: a frame, and what is allowed there.
    fn page(&self, page: u32) -> Option<(u64, Rights)>
        ensures page { result ≡ option_map (λ p. (p.frame, p.rights)) ((seen self.now).page page) }
    {
        if page == OWN_PAGE && is_thread(self.kernel, self.ec) {
            return None;
        }
        leads_to(self.kernel, pd_of(self.kernel, self.ec), page)
    }

    /// The frame that an address leads to, where the right is there.
    fn frame_for(&self, right: Rights, address: u32) -> Option<u64>
        ensures frame { result ≡ frame_for (seen self.now) right.0 address }
    {
        let (frame, rights) = self.page(address / 4096)?;
        if rights.contains(right) {
            Some(frame)
        } else {
            None
        }
    }

    /// The number in a frame's bytes from an offset on; 0 where it is a console.
    fn number_in(&self, frame: u64, offset: u32, width: u32) -> u32
        requires width { IsWidth width }
        requires within { offset < 4096 }
        requires aligned { offset % width ≡ 0 }
        ensures number { result ≡ read_in (slice_get self.now.kernel.memory.ram frame) offset width }
        ensures fits { result < 2 ^ (8 * width) }
    {
        if frame >= u64::from(self.kernel.ram()) {
            return 0;
        }
        read_word(&self.kernel.frame(frame as u32)[offset as usize..], width)
    }

    /// The message words that an address is among.
    fn words_at(&self, address: u32) -> Option<Utcb>
        ensures { result ≡ words_at (seen self.now) address }
    {
        let is_own = address / 4096 == OWN_PAGE && address % 4096 < MESSAGE_SIZE;
        if is_own && is_thread(self.kernel, self.ec) {
            Some(message(self.kernel, self.ec))
        } else {
            None
        }
    }

    /// What the next instruction comes to. Its store is noted.
    #[tactic(auto, using(crate::proofs::Looked::ahead))]
    fn look(&mut self, regs: &Regs, hides_loads: bool) -> Outcome
        ensures outcome { result ≡ outcome_of (one regs.now (found (begun self.old hides_loads))) }
        ensures stored { self.new ≡ record (begun self.old hides_loads) { stored = stored_by (seen self.old) (one regs.now (found (begun self.old hides_loads))) } }
    {
        self.hides_loads = hides_loads;
        self.stored = None;
        let mut regs = *regs;
        hart::step(&mut regs, self)
    }

    /// The frame of the load for which the next instruction raises where nothing is found to load.
    fn frame_missed(&mut self, regs: &Regs) -> Option<u64>
        ensures { result ≡ frame_missed (seen self.old) (one regs.now (without_loads (space (seen self.old)))) }
    {
        match self.look(regs, true) {
            Outcome::Raise {
                reason: LOAD_FAULT,
                q0,
                ..
            } => self.frame_for(Rights::READ, q0),
            _ => None,
        }
    }
}

fn is_next(outcome: Outcome) -> bool
    ensures { result ≡ is_next outcome }
{
    matches!(outcome, Outcome::Next)
}

/// What the next instruction of the execution context `ec`, which has these registers, reaches.
pub(crate) fn sight_of(kernel: &Kernel, ec: u32, regs: &Regs) -> Sight
    requires { regs.now ≡ (context kernel.now.state ec).regs }
    ensures { IsSight kernel.now.state ec result }
{
    let mut looking = Looking::new(kernel, ec);
    let fetched = looking.frame_for(Rights::EXECUTE, regs.pc());
    let outcome = looking.look(regs, false);
    let goes_on = is_next(outcome);
    let stored = looking.stored;
    let loaded = looking.frame_missed(regs);
    Sight {
        goes_on,
        fetched,
        loaded,
        stored,
    }
}

impl<'a> Bus for Looking<'a> {
    ghost use Rattle.nova_touching.specs.Looking.{LookState, fetched, loaded, noted, takes};

    ghost State = { LookState };

    ghost state = { λ l. l };

    ghost fetched = { fetched };

    ghost loaded = { loaded };

    ghost takes = { takes };

    ghost stored = { noted };

    ghost room = { λ _. Unit {0} };

    fn fetch(&mut self, addr: u32) -> Option<u32> {
        let frame = self.frame_for(Rights::EXECUTE, addr)?;
        Some(self.number_in(frame, addr % 4096, 4))
    }

    fn load(&mut self, addr: u32, width: u32) -> Option<u32> {
        if self.hides_loads {
            return None;
        }
        if let Some(words) = self.words_at(addr) {
            return Some(words.load(addr % 4096, width));
        }
        let frame = self.frame_for(Rights::READ, addr)?;
        Some(self.number_in(frame, addr % 4096, width))
    }

    fn store(&mut self, addr: u32, _width: u32, _value: u32) -> bool {
        let frame = self.frame_for(Rights::WRITE, addr);
        if frame.is_none() && self.words_at(addr).is_none() {
            return false;
        }
        self.stored = frame;
        true
    }
}

ghost use Rattle.std.specs.Prelude.{◌≡◌, ◌<◌, ◌%◌, ◌*◌, ◌^◌, ◌==◌, slice_get, true, false, None, option_map, IfOk};
ghost use Rattle.rv_model.specs.Step.{one};
ghost use Rattle.nova_guest.specs.Frames.{frame_from, read_in};
ghost use Rattle.nova_guest.specs.Conditions.{IsWidth};
ghost use Rattle.nova_model.specs.AddressSpaces.{frame_for, space, words_at, without_loads};
ghost use Rattle.nova_model.specs.Deeds.{address_space};
ghost use Rattle.nova_kernel.specs.Views.{IsTurnTaken};
ghost use Rattle.nova_model.specs.State.{context_at, is_thread, message, pd_of};
ghost use Rattle.nova_recording.specs.Accesses.{PreviewState, access_by, accessed, begun, found, load_at, load_missed, outcome_of, seen, stored_by};

use bitflags::Flags;
use nova_guest::words::read_word;
use nova_kernel::{EcKind, Kernel, Object, Rights, Turn, Utcb};
use rv_core::bus::Bus;
use rv_core::outcome::{LOAD_FAULT, Outcome};
use rv_core::{Regs, hart};
use std::alloc::AllocError;
use std::marker::Model;
use std::mem;

/// The page of a thread's own message words, where no delegation leads.
const OWN_PAGE: u32 = 0xfffff;

/// How many bytes the message words of a thread have.
const MESSAGE_SIZE: u32 = 512;

/// What an instruction that goes on loads or stores.
#[derive(Clone, Copy)]
pub struct Access {
    /// The first byte.
    pub address: u32,
    /// How many bytes: 1, 2 or 4.
    pub width: u32,
    /// The number that is stored; none where it is a load.
    pub stored: Option<u32>,
    /// The frame that the address leads to; none where the bytes are message words.
    pub frame: Option<u32>,
}

/// A kernel of which the next instruction of an execution context is only looked at. A store is noted and not made.
#[derive(Drop)]
pub(crate) struct Preview {
    pub(crate) kernel: Kernel,
    ec: u32,
    hides_loads: bool,
    stored: Option<Access>,
}

impl Model for Preview {
    ghost use Rattle.nova_recording.specs.Accesses.{PreviewState};

    ghost Value = { PreviewState };

    ghost view = { λ p. record { kernel = p.kernel; ec = p.ec; hides_loads = p.hides_loads; stored = p.stored } };
}

/// Whether an object is a thread, which has a page of its own.
fn is_thread(kernel: &Kernel, ec: u32) -> bool
    ensures { result ≡ is_thread kernel.now.state ec }
{
    match kernel.object(ec) {
        Some(Object::Ec { kind, .. }) => !matches!(kind, EcKind::Vcpu),
        _ => false,
    }
}

/// The protection domain of an execution context; a number that no domain has where it is none.
pub(crate) fn pd_of(kernel: &Kernel, ec: u32) -> u32
    ensures { result ≡ pd_of kernel.now.state ec }
{
    match kernel.object(ec) {
        Some(Object::Ec { pd, .. }) => *pd,
        _ => u32::MAX,
    }
}

/// The message words of a thread, which are all 0 where it has none.
fn message(kernel: &Kernel, ec: u32) -> Utcb
    ensures { result ≡ message kernel.now.state ec }
{
    match kernel.words(ec) {
        Some(words) => *words,
        None => Utcb::new(),
    }
}

impl Preview {
    /// Nothing is looked at yet.
    pub(crate) fn new(kernel: Kernel) -> Preview
        ensures { result.kernel ≡ kernel }
    {
        Preview {
            kernel,
            ec: 0,
            hides_loads: false,
            stored: None,
        }
    }

    /// The kernel.
    pub(crate) fn kernel(&self) -> &Kernel
        ensures { result.now ≡ self.now.kernel }
    {
        &self.kernel
    }

    /// A copy of the kernel, which takes no turn until it has room.
    pub(crate) fn copy(&self) -> Result<Kernel, AllocError>
        ensures state { IfOk result (λ k. k.state ≡ self.now.kernel.state) }
        ensures room { IfOk result (λ k. k.room ≡ 0) }
    {
        self.kernel.copy()
    }

    /// A turn of the kernel.
    pub(crate) fn turn(&mut self, cpu: u32) -> Result<Turn, AllocError>
        requires cpu { cpu < self.old.kernel.state.cpus }
        requires room { 0 < self.old.kernel.room }
        requires turns { self.old.kernel.state.turns < 2 ^ 31 }
        ensures { IsTurnTaken self.old.kernel self.new.kernel cpu result }
    {
        self.kernel.turn(cpu)
    }

    /// Another kernel in place of this one, which it returns.
    pub(crate) fn replace(&mut self, kernel: Kernel) -> Kernel
        ensures { self.new.kernel ≡ kernel }
    {
        mem::replace(&mut self.kernel, kernel)
    }

    /// What a page leads to: a frame, and what is allowed there.
    fn page(&mut self, page: u32) -> Option<(u32, Rights)>
        ensures page { result ≡ option_map (λ p. (p.frame, p.rights)) ((seen self.old).page page) }
        ensures kept { self.new ≡ self.old }
    {
        if page == OWN_PAGE && is_thread(&self.kernel, self.ec) {
            return None;
        }
        let pd = pd_of(&self.kernel, self.ec);
        self.kernel.reach(pd, page)
    }

    /// The frame that an address leads to, where the right is there.
    fn frame_for(&mut self, right: Rights, address: u32) -> Option<u32>
        ensures frame { result ≡ frame_for (seen self.old) right.0 address }
        ensures kept { self.new ≡ self.old }
    {
        let (frame, rights) = self.page(address / 4096)?;
        if rights.contains(right) {
            Some(frame)
        } else {
            None
        }
    }

    /// The number in a frame's bytes from an offset on; 0 where it is a console.
    fn number_in(&self, frame: u32, offset: u32, width: u32) -> u32
        requires width { IsWidth width }
        requires within { offset < 4096 }
        requires aligned { offset % width ≡ 0 }
        ensures number { result ≡ read_in (slice_get self.now.kernel.state.memory.ram frame) offset width }
        ensures fits { result < 2 ^ (8 * width) }
    {
        if frame >= self.kernel.ram() {
            return 0;
        }
        read_word(&self.kernel.frame(frame)[offset as usize..], width)
    }

    /// The message words that an address is among.
    fn words_at(&self, address: u32) -> Option<Utcb>
        ensures { result ≡ words_at (seen self.now) address }
    {
        let is_own = address / 4096 == OWN_PAGE && address % 4096 < MESSAGE_SIZE;
        if is_own && is_thread(&self.kernel, self.ec) {
            Some(message(&self.kernel, self.ec))
        } else {
            None
        }
    }

    /// What the next instruction of an execution context comes to. Its store is noted.
    #[tactic(auto, using(crate::proofs::Looked::ahead))]
    fn look(&mut self, ec: u32, regs: &Regs, hides_loads: bool) -> Outcome
        ensures outcome { result ≡ outcome_of (one regs.now (found (begun self.old ec hides_loads))) }
        ensures stored { self.new ≡ record (begun self.old ec hides_loads) { stored = stored_by (address_space self.old.kernel.state ec) (one regs.now (found (begun self.old ec hides_loads))) } }
    {
        self.ec = ec;
        self.hides_loads = hides_loads;
        self.stored = None;
        let mut regs = *regs;
        hart::step(&mut regs, self)
    }

    /// The load for which the next instruction raises where nothing is found to load.
    fn load_missed(&mut self, ec: u32, regs: &Regs) -> Option<Access>
        ensures load { let a = address_space self.old.kernel.state ec in result ≡ load_missed a (one regs.now (without_loads (space a))) }
        ensures kept { self.new.kernel ≡ self.old.kernel }
    {
        match self.look(ec, regs, true) {
            Outcome::Raise {
                reason: LOAD_FAULT,
                q0,
                q1,
            } => Some(self.load_at(q0, q1)),
            _ => None,
        }
    }

    /// A load, with the frame that its address leads to.
    fn load_at(&mut self, address: u32, width: u32) -> Access
        ensures load { result ≡ load_at (seen self.old) address width }
        ensures kept { self.new ≡ self.old }
    {
        let frame = self.frame_for(Rights::READ, address);
        Access {
            address,
            width,
            stored: None,
            frame,
        }
    }

    /// What an instruction with these registers loads or stores; none where it does neither, or raises.
    #[tactic(auto, using(crate::proofs::Looked::raises, crate::proofs::Looked::stores, crate::proofs::Looked::loads))]
    fn access_by(&mut self, ec: u32, regs: &Regs) -> Option<Access>
        ensures access { let a = address_space self.old.kernel.state ec in result ≡ access_by a (one regs.now (space a)) (one regs.now (without_loads (space a))) }
        ensures kept { self.new.kernel ≡ self.old.kernel }
    {
        match self.look(ec, regs, false) {
            Outcome::Raise { .. } => None,
            Outcome::Next => match self.stored {
                Some(store) => Some(store),
                None => self.load_missed(ec, regs),
            },
        }
    }

    /// What the next instruction of an execution context loads or stores; none where it does neither, or raises.
    pub(crate) fn access(&mut self, ec: u32) -> Option<Access>
        ensures access { result ≡ accessed self.old.kernel.state ec }
        ensures kept { self.new.kernel ≡ self.old.kernel }
    {
        let regs = self.kernel.ec(ec)?.regs;
        self.access_by(ec, &regs)
    }
}

impl Bus for Preview {
    ghost use Rattle.nova_recording.specs.Accesses.{PreviewState, fetched, loaded, noted, takes};

    ghost State = { PreviewState };

    ghost state = { λ p. p };

    ghost fetched = { fetched };

    ghost loaded = { loaded };

    ghost takes = { takes };

    ghost stored = { noted };

    ghost room = { λ _. Unit {0} };

    fn fetch(&mut self, addr: u32) -> Option<u32> {
        let frame = self.frame_for(Rights::EXECUTE, addr)?;
        Some(self.number_in(frame, addr % 4096, 4))
    }

    fn load(&mut self, addr: u32, width: u32) -> Option<u32> {
        if self.hides_loads {
            return None;
        }
        if let Some(words) = self.words_at(addr) {
            return Some(words.load(addr % 4096, width));
        }
        let frame = self.frame_for(Rights::READ, addr)?;
        Some(self.number_in(frame, addr % 4096, width))
    }

    fn store(&mut self, addr: u32, width: u32, value: u32) -> bool {
        let frame = self.frame_for(Rights::WRITE, addr);
        if frame.is_none() && self.words_at(addr).is_none() {
            return false;
        }
        self.stored = Some(Access {
            address: addr,
            width,
            stored: Some(value),
            frame,
        });
        true
    }
}

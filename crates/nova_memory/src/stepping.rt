ghost use Rattle.std.specs.Prelude.{◌≡◌, ◌<◌, ◌≤◌, ◌+◌, ◌/◌, ◌%◌, ◌^◌, List, Some, IfSome, slice_get, true, ◌≢◌, length};
ghost use Rattle.nova_model.specs.Memory.{Memory};
ghost use Rattle.nova_model.specs.declared.delegation.Derivation.{Derivation};
ghost use Rattle.nova_memory.specs.Reach.{ReachState, fetched, loaded, reached, stored, takes};
ghost use Rattle.nova_memory.specs.Recalled.{AreLeft, AreRecalled, IsReadAt, LiesAt};
ghost use Rattle.rv_model.specs.Step.{one};
ghost use Rattle.rv_core.specs.Steps.{Follows, space_of};
ghost use Rattle.nova_utcb.specs.Pages.{IsWidth};
ghost use Rattle.nova_range.specs.Rights.{execute_right, write_right};
ghost use Rattle.nova_model.specs.AddressSpaces.{frame_for, own_page};

use crate::reach::{OWN_PAGE, Reach};
use nova_frames::laws::loads_give_what_was_stored;
use rv_core::{Outcome, Reading, Regs, step, step_known};

/// How many instructions are remembered: as many as a page has.
const PLACES: usize = 1024;

/// The scopes of one state of delegations and of memory: one for each protection domain.
const SCOPES: u64 = 1 << 32;

/// No state of delegations and of memory begins its scopes after this number.
const LAST: u64 = 0xffff_fffe_0000_0000;

/// What the word at an address reads as, and the frame in which it lies. The scope is that of the protection domain; 0 is that of none.
#[derive(Clone, Copy)]
pub(crate) struct Slot {
    pub scope: u64,
    pub address: u32,
    pub frame: u32,
    pub reading: Reading,
}

/// What was read at addresses of protection domains, each at the place of its address, until something is stored there. Whatever else
/// changes where addresses lead, or what lies there, begins other scopes, so that what has one of before is never found.
#[derive(Drop)]
pub(crate) struct Recalled {
    base: u64,
    slots: [Slot; PLACES],
}

/// The place of `address` in the table. All addresses of one word of a frame have the same place, whatever page leads to it.
#[inline(always)]
fn place_of(address: u32) -> usize
    ensures place { result ≡ address / 4 % 1024 }
    ensures there { result < PLACES }
{
    (address / 4 % 1024) as usize
}

/// What stands at the place of `address`.
#[inline(always)]
fn slot_at(slots: &[Slot; PLACES], address: u32) -> &Slot
    ensures { slice_get slots.now (address / 4 % 1024) ≡ Some result.now }
{
    &slots[place_of(address)]
}

/// Whether what stands in `slot` was read at `address`, in `scope`.
#[inline(always)]
fn is_at(slot: &Slot, scope: u64, address: u32) -> bool
    ensures { result ≡ true → (slot.now.address ≡ address) × (slot.now.scope ≡ scope) }
{
    slot.address == address && slot.scope == scope
}

/// What `word` reads as, which may be what was read before; nothing where it is no instruction.
fn reading_of(before: &Reading, word: u32) -> Option<Reading>
    ensures { IfSome result (λ r. r.word ≡ word) }
{
    if before.word == word {
        Some(*before)
    } else {
        Reading::of(word)
    }
}

impl Recalled {
    /// Nothing was read yet.
    #[inline(never)]
    pub(crate) fn none() -> Recalled
        ensures { (list : List Derivation) (memory : Memory) → AreRecalled list memory result }
    {
        let none = Slot {
            scope: 0,
            address: 0,
            frame: 0,
            reading: Reading::nothing(),
        };
        Recalled {
            base: SCOPES,
            slots: [none; PLACES],
        }
    }

    /// The scope of the protection domain `pd`.
    #[inline(always)]
    fn scope_of(&self, pd: u32) -> u64
        requires { self.now.base + 2 ^ 32 ≤ 2 ^ 64 }
        ensures { result ≡ self.now.base + pd }
    {
        self.base + u64::from(pd)
    }

    /// What the word at `address` of the protection domain `pd` reads as, where it is remembered.
    #[inline(always)]
    pub(crate) fn find(&self, pd: u32, address: u32) -> Option<Reading>
        requires { self.now.base + 2 ^ 32 ≤ 2 ^ 64 }
        ensures { (s : ReachState) → s.pd ≡ pd → AreRecalled s.nodes.delegations.list s.memory self.now → IfSome result (λ r. IsReadAt s address r.word) }
    {
        let slot = slot_at(&self.slots, address);
        if is_at(slot, self.scope_of(pd), address) {
            Some(slot.reading)
        } else {
            None
        }
    }

    /// What the word at `address` of the protection domain `pd`, which lies in `frame`, reads as, from now on remembered; nothing where it is no
    /// instruction.
    pub(crate) fn learn(&mut self, pd: u32, address: u32, frame: u32, word: u32) -> Option<Reading>
        requires { self.old.base + 2 ^ 32 ≤ 2 ^ 64 }
        ensures word { IfSome result (λ r. r.word ≡ word) }
        ensures recalled { (list : List Derivation) (memory : Memory) → AreRecalled list memory self.old → LiesAt list memory pd address frame word → AreRecalled list memory self.new }
    {
        let before = slot_at(&self.slots, address);
        let reading = reading_of(&before.reading, word)?;
        let scope = self.scope_of(pd);
        self.slots[place_of(address)] = Slot {
            scope,
            address,
            frame,
            reading,
        };
        Some(reading)
    }

    /// Forgets what the word at `address` reads as, where it lies in `frame`.
    #[inline(always)]
    pub(crate) fn forget_at(&mut self, frame: u32, address: u32)
        ensures { AreLeft self.old self.new frame (address / 4 % 1024) }
    {
        let slot = &mut self.slots[place_of(address)];
        if slot.frame == frame {
            slot.scope = 0;
        }
    }

    /// Nothing is remembered any more, since addresses lead elsewhere, or something else lies there.
    pub(crate) fn forget(&mut self)
        ensures { (list now : List Derivation) (memory is : Memory) → AreRecalled list memory self.old → AreRecalled now is self.new }
    {
        if self.base < LAST {
            self.base += SCOPES;
        } else {
            self.begin_anew();
        }
    }

    /// Nothing is remembered any more, and scopes begin with the first. This is seldom done, and stays out of the code of the rest, which
    /// would clear a place for all slots.
    #[inline(never)]
    fn begin_anew(&mut self)
        ensures { (list : List Derivation) (memory : Memory) → AreRecalled list memory self.new }
    {
        *self = Recalled::none();
    }
}

// Instructions on what they reach.
impl Reach {
    /// What the word at `address`, which leads to `frame`, reads as, from now on remembered; nothing where it is no instruction.
    fn remember(&mut self, address: u32, frame: u32) -> Option<Reading>
        requires aligned { address % 4 ≡ 0 }
        requires other { address / 4096 ≢ own_page }
        requires leads { frame_for (reached self.old) execute_right address ≡ Some frame }
        requires there { frame < length self.old.memory.ram + self.old.consoles }
        ensures same { self.new ≡ self.old }
        ensures read { IfSome result (λ r. IsReadAt self.old address r.word) }
    {
        let word = self.frames.load(frame, address % 4096, 4);
        self.recalled.learn(self.recents.pd, address, frame, word)
    }

    /// A store to the frame that `address` leads to. Of what was read there nothing is remembered any more.
    #[inline(always)]
    pub(crate) fn store_in(&mut self, frame: u32, address: u32, width: u32, value: u32)
        requires leads { frame_for (reached self.old) write_right address ≡ Some frame }
        requires there { frame < length self.old.memory.ram + self.old.consoles }
        requires width { IsWidth width }
        requires aligned { address % width ≡ 0 }
        requires room { 0 < self.old.room }
        ensures { self.new ≡ stored (record { address = address; width = width; value = value }) self.old }
    {
        // Stores leave other words, since each frame of RAM has all its bytes.
        loads_give_what_was_stored();
        self.frames.ram_frames();
        self.frames.store(frame, address % 4096, width, value);
        self.recalled.forget_at(frame, address);
        self.written = Some(frame);
    }

    /// Reads the word at `address` anew, where it may be fetched and is an instruction, and the address is a multiple of 4. From a page that may be a
    /// thread's own nothing is read.
    fn read_anew(&mut self, address: u32) -> Option<Reading>
        ensures same { self.new ≡ self.old }
        ensures read { IfSome result (λ r. IsReadAt self.old address r.word) }
    {
        if address % 4 != 0 || address / 4096 == OWN_PAGE {
            return None;
        }
        let frame = self.frame_to_fetch(address)?;
        self.remember(address, frame)
    }

    /// Executes one instruction whose word isn't remembered; it is from now on. Few instructions are, so that this stays out of the code of each.
    #[inline(never)]
    fn step_anew(&mut self, regs: &mut Regs) -> Outcome
        requires { 0 < self.old.room }
        ensures { Follows stored (one regs.old (space_of fetched loaded takes self.old)) regs.old self.old result regs.new self.new }
    {
        match self.read_anew(regs.pc()) {
            Some(reading) => step_known(regs, self, reading),
            None => step(regs, self),
        }
    }

    /// Executes one instruction on `regs`, as by `rv_core::step` over this bus. What the words at addresses read as is remembered.
    #[inline(always)]
    pub fn step(&mut self, regs: &mut Regs) -> Outcome
        requires { 0 < self.old.room }
        ensures { Follows stored (one regs.old (space_of fetched loaded takes self.old)) regs.old self.old result regs.new self.new }
    {
        match self.recalled.find(self.recents.pd, regs.pc()) {
            Some(reading) => step_known(regs, self, reading),
            None => self.step_anew(regs),
        }
    }
}

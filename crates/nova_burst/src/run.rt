ghost use Rattle.std.specs.Prelude.{◌≡◌, ◌≢◌, ◌<◌, ◌/◌, ◌%◌, ◌^◌, ℕ, true, false, IfSome, None, Some, length, slice_get, ◌+◌, ◌≤◌, ◌-◌};
ghost use Rattle.std.specs.List.{All};
ghost use Rattle.std.specs.Bool.{OnFalse, OnTrue};
ghost use Rattle.law_leases.specs.Paging.{AreOnce};
ghost use Rattle.nova_burst.specs.Grounds.{AreLeft, IsRead, IsReadAt, IsUnread};
ghost use Rattle.law_leases.specs.Leases.{lease_step, lease_steps};
ghost use Rattle.nova_burst.specs.Copies.{HasFewStores, HasRoom, known_in, lease_of};

use crate::copies::{Copies, Known};
use law_leases::Page;
use rv_core::{Bus, Outcome, Reading, Regs, step_known};
use std::marker::Model;

/// How many instructions are remembered.
const PLACES: usize = 256;

/// What the word at an address reads as, and the frame in which it lies. It stands at the place of the address; a reading that stands elsewhere says
/// nothing.
#[derive(Clone, Copy)]
pub(crate) struct Slot {
    pub address: u32,
    pub frame: u32,
    pub reading: Reading,
}

/// Copies of frames, as a virtual CPU steps on them: what was read at addresses is remembered, until something is stored there.
#[derive(Drop)]
pub struct Ground {
    copies: Copies,
    slots: [Slot; PLACES],
}

impl Model for Ground {
    ghost use Rattle.nova_burst.specs.Copies.{CopiesState};
    ghost use Rattle.nova_burst.specs.Grounds.{AreRead};

    ghost Value = { CopiesState };

    ghost view = { λ g. g.copies };

    ghost invariant = { λ g. AreRead g.copies g.slots };
}

/// The place of `address` in the table. All addresses of one word of a page have the same place, whatever page it is.
#[inline(always)]
fn place_of(address: u32) -> usize
    ensures place { result ≡ address / 4 % 256 }
    ensures there { result < PLACES }
{
    (address / 4 % 256) as usize
}

/// An address of another place than `address`.
#[inline(always)]
fn elsewhere(address: u32) -> u32
    ensures { result / 4 % 256 ≢ address / 4 % 256 }
{
    if address % 8 < 4 {
        address + 4
    } else {
        address - 4
    }
}

/// Forgets what the word at `address` reads as, where it lies in `frame`.
#[inline(always)]
fn forget(slots: &mut [Slot; PLACES], frame: u32, address: u32)
    ensures { AreLeft slots.old slots.new frame (address / 4 % 256) }
{
    let place = place_of(address);
    if slots[place].frame == frame {
        slots[place].address = elsewhere(address);
    }
}

/// Reads the word at `address` anew, where it lies in a copy and is an instruction, and the address is a multiple of 4; and whether it is so. Few
/// words are read anew, so that this stays out of the code of each.
#[inline(never)]
fn learn(copies: &mut Copies, slot: &mut Slot, address: u32) -> bool
    ensures same { copies.new ≡ copies.old }
    ensures read { result ≡ true → (slot.new.address ≡ address) × IsRead copies.old slot.new }
    ensures none { result ≡ false → (slot.new ≡ slot.old) × IsUnread copies.old address }
{
    if address % 4 != 0 {
        return false;
    }
    let Some((frame, word)) = copies.word_at(address) else {
        return false;
    };
    let Some(reading) = Reading::of(word) else {
        return false;
    };
    *slot = Slot {
        address,
        frame,
        reading,
    };
    true
}

/// Nothing is remembered at first.
fn no_slots() -> [Slot; PLACES]
    ensures { (i : ℕ) (x : Slot) → slice_get result i ≡ Some x → x.address / 4 % 256 ≢ i }
{
    let reading = Reading::nothing();
    let none = Slot {
        address: 0,
        frame: 0,
        reading,
    };
    let mut slots = [none; PLACES];
    slots[0] = Slot {
        address: 4,
        frame: 0,
        reading,
    };
    slots
}

impl Ground {
    /// The ground of `copies`, of which nothing was read yet.
    pub fn new(copies: Copies) -> Ground
        requires { All (λ p. length p.bytes ≡ 4096) copies.pages }
        ensures { result ≡ copies }
    {
        Ground {
            copies,
            slots: no_slots(),
        }
    }

    /// The pages that are known, and the copies.
    pub fn into_parts(self) -> (Vec<Known>, Vec<Page>)
        ensures known { result.0.items ≡ self.known }
        ensures pages { result.1.items ≡ self.pages }
        ensures whole { All (λ p. length p.bytes ≡ 4096) result.1.items }
        ensures once { AreOnce result.1.items }
    {
        self.copies.into_parts()
    }

    /// What the word at `address` reads as, where it lies in a copy and is an instruction, and the address is a multiple of 4. It is remembered.
    #[inline(always)]
    pub(crate) fn read(&mut self, address: u32) -> Option<Reading>
        ensures same { self.new ≡ self.old }
        ensures some { IfSome result (λ r. IsReadAt self.old address r.word) }
        ensures none { result ≡ None → IsUnread self.old address }
    {
        let slot = &mut self.slots[place_of(address)];
        if slot.address == address || learn(&mut self.copies, slot, address) {
            Some(slot.reading)
        } else {
            None
        }
    }
}

impl Bus for Ground {
    ghost use Rattle.nova_burst.specs.Copies.{CopiesState, HasRoom, fetched, loaded, takes, put};

    ghost State = { CopiesState };

    ghost state = { λ g. g };

    ghost fetched = { fetched };

    ghost loaded = { loaded };

    ghost takes = { takes };

    ghost stored = { put };

    ghost room = { HasRoom };

    #[inline(always)]
    fn fetch(&mut self, addr: u32) -> Option<u32> {
        self.copies.fetch(addr)
    }

    #[inline(always)]
    fn load(&mut self, addr: u32, width: u32) -> Option<u32> {
        self.copies.load(addr, width)
    }

    #[inline(always)]
    fn store(&mut self, addr: u32, width: u32, value: u32) -> bool {
        match self.copies.store_at(addr, width, value) {
            Some(frame) => {
                forget(&mut self.slots, frame, addr);
                true
            }
            None => false,
        }
    }
}

/// A virtual CPU that steps on copies.
#[derive(Drop)]
pub struct Burst {
    pub regs: Regs,
    pub copies: Ground,
}

/// Executes one instruction of `regs` on `copies`; or nothing, where it would raise or touches what isn't copied.
#[inline(always)]
fn step(regs: &mut Regs, copies: &mut Ground) -> bool
    requires room { HasRoom copies.old }
    ensures goes { OnTrue result (lease_step (known_in copies.old.known) (lease_of regs.old copies.old) ≡ Some (lease_of regs.new copies.new)) }
    ensures stops { OnFalse result (lease_step (known_in copies.old.known) (lease_of regs.old copies.old) ≡ None) }
    ensures stays { OnFalse result ((regs.new ≡ regs.old) × (copies.new ≡ copies.old)) }
    ensures known { copies.new.known ≡ copies.old.known }
    ensures few { (n : ℕ) → HasFewStores n copies.old → HasFewStores (n + 1) copies.new }
{
    let Some(reading) = copies.read(regs.pc()) else {
        return false;
    };
    match step_known(regs, copies, reading) {
        Outcome::Next => true,
        Outcome::Raise { .. } => false,
    }
}

impl Burst {
    /// Executes at most `most` instructions on the copies, and answers their number. It executes fewer only
    /// where the next one would raise or touches what isn't copied. The store counters can't overflow.
    pub fn run(&mut self, most: u64) -> u64
        requires few { HasFewStores (2 ^ 32) self.old.copies }
        requires most { most < 2 ^ 32 }
        ensures ran { lease_steps (known_in self.old.copies.known) result (lease_of self.old.regs self.old.copies) ≡ Some (lease_of self.new.regs self.new.copies) }
        ensures most { result ≤ most }
        ensures fewer { result < most → lease_step (known_in self.new.copies.known) (lease_of self.new.regs self.new.copies) ≡ None }
        ensures known { self.new.copies.known ≡ self.old.copies.known }
        ensures stores { (n : ℕ) → HasFewStores n self.old.copies → HasFewStores (n + result) self.new.copies }
    {
        let mut regs = self.regs;
        for i in 0..most {
            if !step(&mut regs, &mut self.copies) {
                self.regs = regs;
                return i;
            }
        }
        self.regs = regs;
        most
    }
}

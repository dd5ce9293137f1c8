ghost use Rattle.std.specs.Prelude.{true, false, ℕ, ◌≡◌, ◌≤◌, ◌+◌, ◌-◌, ◌*◌, ◌/◌, ◌%◌, ◌^◌, ◌<◌, ◌==◌, ◌&&◌, nat_lt, length, is_some, None, Some, IfSome, IfOk};
ghost use Rattle.std.specs.List.{find};
ghost use Rattle.std.specs.Bool.{OnTrue, OnFalse};
ghost use Rattle.nova_utcb.specs.Pages.{IsWidth};
ghost use Rattle.nova_range.specs.Rights.{execute_right, read_right, write_right};
ghost use Rattle.nova_guest.specs.Frames.{frame_with};
ghost use Rattle.nova_model.specs.AddressSpaces.{frame_for, words_at};
ghost use Rattle.nova_model.specs.Delegations.{covers, page_in, reach};
ghost use Rattle.nova_memory.specs.Previews.{entered};
ghost use Rattle.nova_memory.specs.Reach.{ReachState, loaded, reached, stored, takes};

use crate::delegations::covers;
use crate::recent::{Recent, Recents, frame_of};
use crate::sights::Sights;
use crate::stepping::Recalled;
use bitflags::Flags;
use nova_frames::Frames;
use nova_messages::Messages;
use nova_model::{Derivation, Kind, Page, Rights};
use nova_nodes::Nodes;
use nova_space::Space;
use rv_core::bus::Bus;
use std::alloc::AllocError;
use std::marker::Model;

/// The page of a thread that is its own, which begins with its message words: no delegation leads there.
pub(crate) const OWN_PAGE: u32 = 0xfffff;

/// How many bytes the message words of a thread have.
const MESSAGE_SIZE: u32 = 512;

/// What an instruction reaches: the frames, through the derivations of the protection domain of the execution context that acts, and the message
/// words of a thread. The domain's last page to fetch from, and some of those to load from and to store to, are looked at first, then the derivation
/// of the page that was looked up last, and the domains that see a frame that was stored to are remembered.
#[derive(Drop)]
pub struct Reach {
    pub(crate) frames: Frames,
    pub(crate) nodes: Nodes<Space>,
    pub(crate) messages: Messages,
    pub(crate) last: Option<Derivation>,
    pub(crate) sights: Sights,
    pub(crate) ec: u32,
    pub(crate) is_thread: bool,
    /// The frame that the last store went to; none after one to message words.
    pub(crate) written: Option<u32>,
    /// Pages and a capability of the protection domain of the execution context that acts.
    pub(crate) recents: Recents,
    /// Pages and a capability of the protection domain that was left last.
    pub(crate) others: Recents,
    /// What was read at addresses.
    pub(crate) recalled: Recalled,
}

impl Model for Reach {
    ghost use Rattle.std.specs.Prelude.{◌+◌, length, IfSome};
    ghost use Rattle.nova_range.specs.declared.range.Kind.TheVariants.{Mem};
    ghost use Rattle.nova_memory.specs.Reach.{ReachState, IsFound, LeadToFrames};
    ghost use Rattle.nova_memory.specs.Sights.{AreSeen};
    ghost use Rattle.nova_memory.specs.Recents.{AreRecent};
    ghost use Rattle.nova_memory.specs.Recalled.{AreRecalled};

    ghost Value = { ReachState };

    ghost view = { λ r. record {
      nodes = r.nodes;
      memory = r.frames.memory;
      messages = r.messages;
      ec = r.ec;
      pd = r.recents.pd;
      is_thread = r.is_thread;
      written = r.written;
      consoles = r.frames.consoles;
      room = r.frames.room;
    } };

    ghost invariant = { λ r. LeadToFrames (length r.frames.memory.ram + r.frames.consoles) r.nodes.delegations.list × (IfSome r.last (IsFound Mem r.nodes.delegations.list) × (AreSeen r.nodes.delegations.list r.sights × (AreRecent r.nodes.delegations.list r.recents × (AreRecent r.nodes.delegations.list r.others × AreRecalled r.nodes.delegations.list r.frames.memory r.recalled)))) };
}

/// What `page` leads to through `derivation`, which covers it.
pub(crate) fn page_in(derivation: &Derivation, page: u32) -> Page
    requires place { derivation.now.base ≤ page }
    requires frame { derivation.now.target + (page - derivation.now.base) < 2 ^ 32 }
    ensures { result ≡ page_in page derivation.now }
{
    Page {
        frame: derivation.target + (page - derivation.base),
        rights: derivation.rights,
    }
}

/// The frame that `page` leads to, where the right is there.
#[inline(always)]
pub(crate) fn frame_with(page: Page, right: Rights) -> Option<u32>
    ensures frame { result ≡ frame_with right.0 page }
    ensures same { IfSome result (λ frame. frame ≡ page.frame) }
{
    if page.rights.contains(right) {
        Some(page.frame)
    } else {
        None
    }
}

/// Whether `address` is among the message words of an execution context, which has some where it is a thread.
#[inline(always)]
pub(crate) fn is_own(is_thread: bool, address: u32) -> bool
    ensures { (s : ReachState) → s.is_thread ≡ is_thread → result ≡ is_some (words_at (reached s) address) }
{
    is_thread && address / 4096 == OWN_PAGE && address % 4096 < MESSAGE_SIZE
}

impl Reach {
    /// Makes `ec`, of the protection domain `pd`, and a thread where `is_thread`, the execution context that acts. Nothing is stored yet.
    pub fn enter(&mut self, ec: u32, pd: u32, is_thread: bool)
        ensures { self.new ≡ record self.old { ec = ec; pd = pd; is_thread = is_thread; written = None } }
    {
        self.ec = ec;
        self.is_thread = is_thread;
        self.written = None;
        if self.recents.pd != pd {
            self.change_domain(pd);
        }
    }

    /// Forgets the store that was seen to: nothing is stored.
    #[inline(always)]
    pub fn forget_store(&mut self)
        ensures { self.new ≡ record self.old { written = None } }
    {
        self.written = None;
    }

    /// Whether the present instruction stored to a frame.
    pub fn has_stored(&self) -> bool
        ensures { result ≡ is_some self.now.written }
    {
        self.written.is_some()
    }

    /// Copies frames, delegations and message words into memory of their own. The copy's log has no room for more bytes.
    pub fn copy(&self) -> Result<Reach, AllocError>
        ensures delegations { IfOk result (λ r. r.nodes.delegations ≡ self.now.nodes.delegations) }
        ensures memory { IfOk result (λ r. r.memory ≡ self.now.memory) }
        ensures messages { IfOk result (λ r. r.messages.items ≡ self.now.messages.items) }
        ensures consoles { IfOk result (λ r. r.consoles ≡ self.now.consoles) }
        ensures log { IfOk result (λ r. r.room ≡ 0) }
    {
        let sights = self.sights.copy()?;
        let messages = self.messages.copy()?;
        let frames = self.frames.copy()?;
        let nodes = self.nodes.copy()?;
        Ok(Reach {
            frames,
            nodes,
            messages,
            last: self.last,
            sights,
            ec: self.ec,
            is_thread: self.is_thread,
            written: self.written,
            recents: Recents::new(self.recents.pd),
            others: Recents::new(self.recents.pd),
            recalled: Recalled::none(),
        })
    }

    /// The frame that the present instruction stored to.
    pub fn stored_to(&self) -> Option<u32>
        ensures { result ≡ self.now.written }
    {
        self.written
    }

    /// What `page` leads to through the derivation of the last page, where that covers `page` too.
    fn last_page(&self, page: u32) -> Option<Page>
        ensures page { IfSome result (λ p. reach self.now.nodes.delegations.list self.now.pd page ≡ Some p) }
        ensures there { IfSome result (λ p. p.frame < length self.now.memory.ram + self.now.consoles) }
    {
        let last = self.last.as_ref()?;
        if covers(last, Kind::Mem, self.recents.pd, page) {
            Some(page_in(last, page))
        } else {
            None
        }
    }

    /// The derivation that covers `page` of the protection domain, or nothing. Few accesses need the search, so that it stays out of the code of
    /// each.
    #[inline(never)]
    fn memory_at(&mut self, page: u32) -> Option<Derivation>
        ensures found { result ≡ find (covers Kind.Mem self.old.pd page) self.old.nodes.delegations.list }
        ensures leads { IfSome result (λ d. (d.base ≤ page) × (d.target + (page - d.base) < length self.old.memory.ram + self.old.consoles)) }
        ensures few { length self.old.memory.ram + self.old.consoles ≤ 2 ^ 32 }
        ensures kept { self.new ≡ self.old }
    {
        self.last = self.nodes.at(self.recents.pd, Kind::Mem, page);
        self.last
    }

    /// What `page` leads to, through the derivation that covers it; nothing where none does.
    #[inline(always)]
    fn page_at(&mut self, page: u32) -> Option<Page>
        ensures page { result ≡ (reached self.old).page page }
        ensures there { IfSome result (λ p. p.frame < length self.old.memory.ram + self.old.consoles) }
        ensures kept { self.new ≡ self.old }
    {
        if self.is_thread && page == OWN_PAGE {
            return None;
        }
        if let Some(found) = self.last_page(page) {
            return Some(found);
        }
        let derivation = self.memory_at(page)?;
        Some(page_in(&derivation, page))
    }

    /// What `page` of the protection domain `pd` leads to, or nothing.
    pub fn page_of(&mut self, pd: u32, page: u32) -> Option<Page>
        ensures page { result ≡ reach self.old.nodes.delegations.list pd page }
        ensures kept { self.new ≡ record self.old { ec = 0; pd = pd; is_thread = false; written = None } }
    {
        self.enter(0, pd, false);
        self.page_at(page)
    }

    /// The frame that `address` leads to, where the right is there.
    #[inline(always)]
    fn frame_for(&mut self, right: Rights, address: u32) -> Option<u32>
        ensures frame { result ≡ frame_for (reached self.old) right.0 address }
        ensures there { IfSome result (λ frame. frame < length self.old.memory.ram + self.old.consoles) }
        ensures kept { self.new ≡ self.old }
    {
        let page = self.page_at(address / 4096)?;
        frame_with(page, right)
    }

    /// The frame to fetch `address` from, where its page isn't the last such page, which it becomes. Few accesses leave their page.
    #[inline(never)]
    fn fetch_elsewhere(&mut self, address: u32) -> Option<u32>
        ensures frame { result ≡ frame_for (reached self.old) execute_right address }
        ensures there { IfSome result (λ frame. frame < length self.old.memory.ram + self.old.consoles) }
        ensures kept { self.new ≡ self.old }
    {
        let frame = self.frame_for(Rights::EXECUTE, address)?;
        if address / 4096 != OWN_PAGE {
            self.recents.fetched = Recent {
                page: address / 4096,
                frame,
            };
        }
        Some(frame)
    }

    /// The frame to fetch `address` from.
    #[inline(always)]
    pub(crate) fn frame_to_fetch(&mut self, address: u32) -> Option<u32>
        ensures frame { result ≡ frame_for (reached self.old) execute_right address }
        ensures there { IfSome result (λ frame. frame < length self.old.memory.ram + self.old.consoles) }
        ensures kept { self.new ≡ self.old }
    {
        if let Some(frame) = frame_of(&self.recents.fetched, address) {
            return Some(frame);
        }
        self.fetch_elsewhere(address)
    }

    /// The frame to load `address` from, where its page isn't the last such page, which it becomes. Few accesses leave their page.
    #[inline(never)]
    fn load_elsewhere(&mut self, address: u32) -> Option<u32>
        ensures frame { result ≡ frame_for (reached self.old) read_right address }
        ensures there { IfSome result (λ frame. frame < length self.old.memory.ram + self.old.consoles) }
        ensures kept { self.new ≡ self.old }
    {
        let frame = self.frame_for(Rights::READ, address)?;
        if address / 4096 != OWN_PAGE {
            self.recents.loaded.learn(address, frame);
        }
        Some(frame)
    }

    /// The frame to load `address` from.
    #[inline(always)]
    fn frame_to_load(&mut self, address: u32) -> Option<u32>
        ensures frame { result ≡ frame_for (reached self.old) read_right address }
        ensures there { IfSome result (λ frame. frame < length self.old.memory.ram + self.old.consoles) }
        ensures kept { self.new ≡ self.old }
    {
        if let Some(frame) = frame_of(self.recents.loaded.at(address), address) {
            return Some(frame);
        }
        self.load_elsewhere(address)
    }

    /// The frame to store to at `address`, where its page isn't the last such page, which it becomes. Few accesses leave their page.
    #[inline(never)]
    fn store_elsewhere(&mut self, address: u32) -> Option<u32>
        ensures frame { result ≡ frame_for (reached self.old) write_right address }
        ensures there { IfSome result (λ frame. frame < length self.old.memory.ram + self.old.consoles) }
        ensures kept { self.new ≡ self.old }
    {
        let frame = self.frame_for(Rights::WRITE, address)?;
        if address / 4096 != OWN_PAGE {
            self.recents.stored.learn(address, frame);
        }
        Some(frame)
    }

    /// The frame to store to at `address`.
    #[inline(always)]
    fn frame_to_store(&mut self, address: u32) -> Option<u32>
        ensures frame { result ≡ frame_for (reached self.old) write_right address }
        ensures there { IfSome result (λ frame. frame < length self.old.memory.ram + self.old.consoles) }
        ensures kept { self.new ≡ self.old }
    {
        if let Some(frame) = frame_of(self.recents.stored.at(address), address) {
            return Some(frame);
        }
        self.store_elsewhere(address)
    }

    /// A load of the execution context `ec` that finds no frame: message words, or nothing.
    #[inline(always)]
    pub(crate) fn load_own(&self, ec: u32, is_thread: bool, address: u32, width: u32) -> Option<u32>
        requires width { IsWidth width }
        requires aligned { address % width ≡ 0 }
        ensures number { (pd : ℕ) → frame_for (reached (entered self.now ec pd is_thread)) read_right address ≡ None → result ≡ loaded (entered self.now ec pd is_thread) address width }
        ensures fits { IfSome result (λ n. n < 2 ^ (8 * width)) }
    {
        if !is_own(is_thread, address) {
            return None;
        }
        Some(self.messages.load(ec, address % 4096, width))
    }

    /// A store to `address` that finds no frame: to message words, or refused.
    fn store_own(&mut self, address: u32, width: u32, value: u32) -> bool
        requires frame { frame_for (reached self.old) write_right address ≡ None }
        requires width { IsWidth width }
        requires aligned { address % width ≡ 0 }
        ensures gives { result ≡ takes self.old address width }
        ensures taken { OnTrue result (self.new ≡ stored (record { address = address; width = width; value = value }) self.old) }
        ensures refused { OnFalse result (self.new ≡ self.old) }
    {
        if !is_own(self.is_thread, address) {
            return false;
        }
        self.messages.store(self.ec, address % 4096, width, value);
        self.written = None;
        true
    }
}

impl Bus for Reach {
    ghost use Rattle.std.specs.Prelude.{ℕ, ◌<◌};
    ghost use Rattle.nova_memory.specs.Reach.{ReachState, fetched, loaded, takes, stored};

    ghost State = { ReachState };

    ghost state = { λ r. r };

    ghost fetched = { fetched };

    ghost loaded = { loaded };

    ghost takes = { takes };

    ghost stored = { stored };

    ghost room = { λ s. 0 < s.room };

    #[inline(always)]
    fn fetch(&mut self, addr: u32) -> Option<u32> {
        let frame = self.frame_to_fetch(addr)?;
        Some(self.frames.load(frame, addr % 4096, 4))
    }

    #[inline(always)]
    fn load(&mut self, addr: u32, width: u32) -> Option<u32> {
        let Some(frame) = self.frame_to_load(addr) else {
            return self.load_own(self.ec, self.is_thread, addr, width);
        };
        Some(self.frames.load(frame, addr % 4096, width))
    }

    #[inline(always)]
    fn store(&mut self, addr: u32, width: u32, value: u32) -> bool {
        let Some(frame) = self.frame_to_store(addr) else {
            return self.store_own(addr, width, value);
        };
        self.store_in(frame, addr, width, value);
        true
    }
}

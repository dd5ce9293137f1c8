ghost use Rattle.std.specs.Prelude.{◌≡◌, ◌<◌, ◌+◌, ◌/◌, ◌%◌, ℕ, List, Some, IfSome, length, slice_get};
ghost use Rattle.nova_model.specs.AddressSpaces.{frame_for};
ghost use Rattle.nova_model.specs.declared.delegation.Derivation.{Derivation};
ghost use Rattle.nova_memory.specs.Reach.{LeadToFrames, ReachState, reached};
ghost use Rattle.nova_memory.specs.Recents.{AreRecent, AreRecentPages, IsRecent};

use crate::reach::Reach;
use nova_model::Derivation;

/// How many pages are remembered.
const PLACES: usize = 8;

/// A page that was looked up, and the frame that it leads to. Beyond all pages before any was.
#[derive(Clone, Copy)]
pub(crate) struct Recent {
    pub page: u32,
    pub frame: u32,
}

/// Pages that were looked up, each at the place of its number.
#[derive(Clone, Copy)]
pub(crate) struct Pages {
    places: [Recent; PLACES],
}

/// What is remembered of a protection domain: the page that was looked up last to fetch, pages that were looked up to load and to store,
/// and the capability that is at hand.
#[derive(Clone, Copy)]
pub(crate) struct Recents {
    pub pd: u32,
    pub fetched: Recent,
    pub loaded: Pages,
    pub stored: Pages,
    pub capability: Option<Derivation>,
}

/// No page was looked up.
const NOWHERE: Recent = Recent {
    page: 0x0010_0000,
    frame: 0,
};

/// The place of the page of `address`.
#[inline(always)]
fn place_of(address: u32) -> usize
    ensures place { result ≡ address / 4096 % 8 }
    ensures there { result < PLACES }
{
    (address / 4096 % 8) as usize
}

/// What stands at the place of the page of `address`.
#[inline(always)]
fn recent_at(places: &[Recent; PLACES], address: u32) -> &Recent
    ensures { slice_get places.now (address / 4096 % 8) ≡ Some result.now }
{
    &places[place_of(address)]
}

impl Pages {
    /// Pages of which none was looked up.
    fn none() -> Pages
        ensures { (list : List Derivation) (pd right : ℕ) → AreRecentPages list pd right result }
    {
        Pages {
            places: [NOWHERE; PLACES],
        }
    }

    /// What was looked up at the place of `address`.
    #[inline(always)]
    pub(crate) fn at(&self, address: u32) -> &Recent
        ensures { (list : List Derivation) (pd right : ℕ) → AreRecentPages list pd right self.now → IsRecent list pd right result.now }
    {
        recent_at(&self.places, address)
    }

    /// Remembers the page of `address`, with `frame`, which it leads to.
    pub(crate) fn learn(&mut self, address: u32, frame: u32)
        ensures { (list : List Derivation) (pd right : ℕ) → AreRecentPages list pd right self.old
            → IsRecent list pd right (record { page = address / 4096; frame = frame }) → AreRecentPages list pd right self.new }
    {
        self.places[place_of(address)] = Recent {
            page: address / 4096,
            frame,
        };
    }
}

impl Recents {
    /// The pages that were looked up of the protection domain `pd`: none yet.
    pub(crate) fn new(pd: u32) -> Recents
        ensures pd { result.pd ≡ pd }
        ensures none { (list : List Derivation) → AreRecent list result }
    {
        Recents {
            pd,
            fetched: NOWHERE,
            loaded: Pages::none(),
            stored: Pages::none(),
            capability: None,
        }
    }

    /// Nothing is remembered any more, since delegations change where pages and selectors lead.
    pub(crate) fn forget(&mut self)
        ensures pd { self.new.pd ≡ self.old.pd }
        ensures none { (list : List Derivation) → AreRecent list self.new }
    {
        *self = Recents::new(self.pd);
    }

    /// These, where they are of the protection domain `pd`, or else nothing of it.
    pub(crate) fn kept_for(&self, pd: u32) -> Recents
        ensures pd { result.pd ≡ pd }
        ensures recent { (list : List Derivation) → AreRecent list self.now → AreRecent list result }
    {
        if self.pd == pd {
            *self
        } else {
            Recents::new(pd)
        }
    }
}

impl Reach {
    /// Enters the protection domain `pd`. What is known of the domain that is left stays remembered, and of the domain before that only where it is
    /// the domain that is entered. Few turns leave their domain, so that this stays out of the code of each.
    #[inline(never)]
    pub(crate) fn change_domain(&mut self, pd: u32)
        ensures { self.new ≡ record self.old { pd = pd } }
    {
        let entered = self.others.kept_for(pd);
        self.others = self.recents;
        self.recents = entered;
    }
}

/// The frame of the page of `address`, where that was the last.
#[inline(always)]
pub(crate) fn frame_of(recent: &Recent, address: u32) -> Option<u32>
    ensures frame { (s : ReachState) (right : ℕ) → IsRecent s.nodes.delegations.list s.pd right recent.now → IfSome result (λ frame. frame_for (reached s) right address ≡ Some frame) }
    ensures there { (s : ReachState) (right : ℕ) → LeadToFrames (length s.memory.ram + s.consoles) s.nodes.delegations.list → IsRecent s.nodes.delegations.list s.pd right recent.now
        → IfSome result (λ frame. frame < length s.memory.ram + s.consoles) }
{
    if recent.page == address / 4096 {
        Some(recent.frame)
    } else {
        None
    }
}

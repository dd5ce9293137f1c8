ghost use Rattle.std.specs.Prelude.{◌≡◌, ◌≤◌, ◌||◌, ℕ, IfSome};
ghost use Rattle.std.specs.Bool.{OnTrue};
ghost use Rattle.std.specs.List.{list_any};
ghost use Rattle.nova_model.specs.Inputs.{leads_to};
ghost use Rattle.nova_memory.specs.Sights.{AreViewers, reaches, sees};

use crate::reach::Reach;
use crate::viewers::Viewers;
use nova_model::{Derivation, Kind};

/// Whether the derivation `d` is of memory, and leads to `frame`.
fn reaches(d: &Derivation, frame: u32) -> bool
    requires { d.now.order ≤ 20 }
    ensures { result ≡ reaches frame d.now }
{
    matches!(d.kind, Kind::Mem) && d.target <= frame && frame - d.target < 1 << d.order
}

/// Adds the domain of `d` to `viewers`, where `d` leads to `frame`. It answers false where there are too many.
fn join(viewers: &mut Viewers, d: &Derivation, frame: u32) -> bool
    requires { d.now.order ≤ 20 }
    ensures { OnTrue result ((pd : ℕ) → sees viewers.new pd ≡ (sees viewers.old pd || leads_to pd frame d.now)) }
{
    if reaches(d, frame) {
        viewers.add(d.pd)
    } else {
        true
    }
}

// The domains that see a frame.
impl Reach {
    /// Whether memory of the protection domain `pd` leads to `frame`.
    pub fn leads_to(&self, pd: u32, frame: u32) -> bool
        ensures { result ≡ list_any (leads_to pd frame) self.now.nodes.delegations.list }
    {
        match self.sights.get(frame) {
            Some(viewers) => viewers.contains(pd),
            None => self.nodes.leads_to(pd, frame),
        }
    }

    /// The protection domains whose memory leads to `frame`, where that is remembered.
    pub fn known_viewers(&self, frame: u32) -> Option<Viewers>
        ensures { IfSome result (AreViewers self.now.nodes.delegations.list frame) }
    {
        self.sights.get(frame)
    }

    /// The protection domains whose memory leads to `frame`; nothing where they are too many to keep.
    fn viewers_of(&self, frame: u32) -> Option<Viewers>
        ensures { IfSome result (AreViewers self.now.nodes.delegations.list frame) }
    {
        let mut viewers = Viewers::new();
        let mut id = 0;
        while let Some(d) = self.nodes.from_id(id) {
            if !join(&mut viewers, &d, frame) {
                return None;
            }
            let next = d.id.checked_add(1)?;
            id = next;
        }
        Some(viewers)
    }

    /// The RAM frame that the present instruction stored to, where the domains that see it were not looked up yet.
    fn fresh(&self) -> Option<u32> {
        let frame = self.written?;
        if self.sights.has_looked(frame) {
            None
        } else {
            Some(frame)
        }
    }

    /// Looks up the domains that see `frame`, and remembers them.
    fn learn(&mut self, frame: u32)
        ensures kept { self.new ≡ self.old }
    {
        let viewers = self.viewers_of(frame);
        self.sights.note(frame, viewers);
    }

    /// Looks up the domains that see the RAM frame that the present instruction stored to, where they are not remembered; what is kept stays.
    pub fn look(&mut self)
        ensures kept { self.new ≡ self.old }
    {
        if let Some(frame) = self.fresh() {
            self.learn(frame);
        }
    }
}

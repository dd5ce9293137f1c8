ghost use Rattle.std.specs.Prelude.{◌≡◌, ◌+◌, ◌-◌, ◌<◌, [], ◌∷◌, ◌++◌, max, IfOk, IsOk, OnOk, OnErr};

use std::alloc::{AllocError, Global};
use std::marker::Model;

/// The scheduling contexts of one processor, by rising number, with room that is reserved for more.
#[derive(Drop)]
pub(crate) struct Queue {
    members: Vec<u32>,
    spare: usize,
}

impl Model for Queue {
    ghost use Rattle.std.specs.Prelude.{◌+◌, ◌≤◌, vec_len, vec_capacity};
    ghost use Rattle.nova_sched.specs.Lists.{QueueState};

    ghost Value = { QueueState };

    ghost view = { λ q. record { members = q.members.items; spare = q.spare } };

    ghost invariant = { λ q. vec_len q.members + q.spare ≤ vec_capacity q.members };
}

impl Queue {
    /// A queue with no members, and room for none.
    pub(crate) fn new(alloc: Global) -> Queue
        ensures { result ≡ record { members = []; spare = 0 } }
    {
        Queue {
            members: Vec::new(alloc),
            spare: 0,
        }
    }

    /// Makes room for one more, counted from those that are there. Where there is room, this succeeds.
    pub(crate) fn reserve(&mut self) -> Result<(), AllocError>
        ensures ok { OnOk result (self.new ≡ record self.old { spare = max self.old.spare 1 }) }
        ensures enough { 0 < self.old.spare → IsOk result }
        ensures err { OnErr result (self.new ≡ self.old) }
    {
        self.members.reserve(1)?;
        self.spare = self.spare.max(1);
        Ok(())
    }

    /// Adds the scheduling context `sc` at the end, in reserved room.
    pub(crate) fn add(&mut self, sc: u32)
        requires { 0 < self.old.spare }
        ensures { self.new ≡ record { members = self.old.members ++ sc ∷ []; spare = self.old.spare - 1 } }
    {
        self.members.push_reserved(sc);
        self.spare -= 1;
    }

    /// The members by rising number.
    pub(crate) fn members(&self) -> &[u32]
        ensures { result.now ≡ self.now.members }
    {
        self.members.as_slice()
    }

    /// Copies the members, with room for no more.
    pub(crate) fn copy(&self, alloc: Global) -> Result<Queue, AllocError>
        ensures { IfOk result (λ q. q ≡ record { members = self.now.members; spare = 0 }) }
    {
        let members = Vec::from_slice(alloc, self.members.as_slice())?;
        Ok(Queue { members, spare: 0 })
    }
}

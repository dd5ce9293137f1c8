ghost use Rattle.std.specs.Prelude.{◌≡◌, ◌<◌, ◌≤◌, [], length, max, slice_get, IfOk, IsOk, OnOk, OnErr};
ghost use Rattle.std.specs.Bool.{OnTrue};
ghost use Rattle.std.specs.List.{insert, remove};
ghost use Rattle.nova_model.specs.Forest.{ArePairs};
ghost use Rattle.nova_sched.specs.Ready.{IsBehind, StaysFirst, placed, dropped};

use crate::choice::precedes;
use crate::queued::Runnable;
use std::alloc::{AllocError, Global};
use std::collections::VecDeque;
use std::marker::Model;

/// The scheduling contexts of one processor that are runnable, in the order in which they run: by falling priority, and of one priority by rising
/// stamp. There is room for all of the processor. The first to run mostly goes behind all of its priority next, so that both ends of the list are
/// near.
#[derive(Drop)]
pub(crate) struct Ready {
    items: VecDeque<Runnable>,
    room: usize,
}

impl Model for Ready {
    ghost use Rattle.std.specs.Prelude.{◌≤◌};
    ghost use Rattle.std.specs.VecDeque.{deque_capacity};
    ghost use Rattle.nova_sched.specs.Ready.{ReadyState};

    ghost Value = { ReadyState };

    ghost view = { λ r. record { items = r.items.items; room = r.room } };

    ghost invariant = { λ r. r.room ≤ deque_capacity r.items };
}

impl Ready {
    /// A list of none, with room for none.
    pub(crate) fn new(alloc: Global) -> Ready
        ensures { result ≡ record { items = []; room = 0 } }
    {
        Ready {
            items: VecDeque::new(alloc),
            room: 0,
        }
    }

    /// Makes room for `n` in all. Where it is there, this succeeds.
    pub(crate) fn reserve(&mut self, n: usize) -> Result<(), AllocError>
        ensures ok { OnOk result (self.new ≡ record self.old { room = max self.old.room n }) }
        ensures enough { n ≤ self.old.room → IsOk result }
        ensures err { OnErr result (self.new ≡ self.old) }
    {
        let room = self.room.max(n);
        self.items.reserve(room.saturating_sub(self.items.len()))?;
        self.room = room;
        Ok(())
    }

    /// The scheduling context that runs first.
    pub(crate) fn first(&self) -> Option<Runnable>
        ensures { result ≡ slice_get self.now.items 0 }
    {
        self.items.front().copied()
    }

    /// Puts `r` in behind those that run before it, in room that was made.
    pub(crate) fn insert(&mut self, r: Runnable)
        requires room { length self.old.items < self.old.room }
        requires order { ArePairs IsBehind self.old.items }
        ensures { self.new ≡ record self.old { items = placed r self.old.items } }
    {
        let at = self.items.partition_point(|q| precedes(q, &r));
        let Ok(()) = self.items.insert(at, r) else {
            unreachable!()
        };
    }

    /// Takes out the first that does not run before `r`.
    pub(crate) fn remove(&mut self, r: Runnable)
        requires order { ArePairs IsBehind self.old.items }
        ensures { self.new ≡ record self.old { items = dropped r self.old.items } }
    {
        let at = self.items.partition_point(|q| precedes(q, &r));
        if at < self.items.len() {
            self.items.remove(at);
        }
    }

    /// Whether the first to run stays first with a new stamp: `before` with its old one, `after` with the new.
    fn stays_first(&self, before: &Runnable, after: &Runnable) -> bool
        ensures { OnTrue result (StaysFirst before.now after.now self.now.items) }
    {
        let is_first = match self.items.front() {
            Some(first) => !precedes(first, before),
            None => false,
        };
        let none_passes = match self.items.get(1) {
            Some(second) => !precedes(second, after),
            None => true,
        };
        is_first && none_passes
    }

    /// Moves `before` to the place of `after`, as which it goes on.
    #[inline(never)]
    fn shift(&mut self, before: Runnable, after: Runnable)
        requires room { length (dropped before self.old.items) < self.old.room }
        requires order { ArePairs IsBehind self.old.items }
        ensures { self.new ≡ record self.old { items = placed after (dropped before self.old.items) } }
    {
        self.remove(before);
        self.insert(after);
    }

    /// Puts `after`, which is `before` with a new stamp, in its new place. Mostly it is first and stays so, and nothing moves.
    pub(crate) fn renew(&mut self, before: Runnable, after: Runnable)
        requires room { length (dropped before self.old.items) < self.old.room }
        requires order { ArePairs IsBehind self.old.items }
        ensures { self.new ≡ record self.old { items = placed after (dropped before self.old.items) } }
    {
        if self.stays_first(&before, &after) {
            self.items[0] = after;
        } else {
            self.shift(before, after);
        }
    }

    /// Copies the list, with as much room.
    pub(crate) fn copy(&self, alloc: Global) -> Result<Ready, AllocError>
        ensures { IfOk result (λ r. r ≡ self.now) }
    {
        let (front, back) = self.items.as_slices();
        let mut items = Vec::from_slice(alloc, front)?;
        items.extend_from_slice(back)?;
        items.reserve(self.room.saturating_sub(items.len()))?;
        Ok(Ready {
            items: VecDeque::from_vec(items),
            room: self.room,
        })
    }
}

ghost use Rattle.std.specs.Prelude.{◌≡◌, ◌+◌, ◌-◌, ◌^◌, ◌<◌, ◌≤◌, ℕ, true, [], ◌∷◌, ◌++◌, length, max, is_some, option_map, slice_index, slice_set, IfOk, IfSome, IsOk, OnOk, OnErr, if◌then◌else◌, ◌==◌};
ghost use Rattle.nova_model.specs.Creation.{idle_semaphore};
ghost use Rattle.nova_model.specs.Semaphores.{semaphore_at, semaphore, has, waits, woken, upped, answer_of, downed, left};
ghost use Rattle.nova_sem.specs.Sound.{IsFree};
ghost use Rattle.nova_sem.specs.Links.{before, counter_at, linked, new_counter};

use crate::counter::Counter;
use nova_model::{Down, Overflow};
use std::alloc::{AllocError, Global};
use std::marker::Model;

/// The table of semaphores, by number: an entry holds the semaphore of its number or nothing. At each semaphore execution contexts
/// wait in the order in which they came. There is room for an execution context of any number of the table to wait.
#[derive(Drop)]
pub struct Sems {
    pub(crate) counters: Vec<Option<Counter>>,
    spare: usize,
    pub(crate) links: Vec<u32>,
}

impl Model for Sems {
    ghost use Rattle.std.specs.Prelude.{◌+◌, ◌≤◌, length, vec_len, vec_capacity};
    ghost use Rattle.nova_sem.specs.Semaphores.{SemsState};
    ghost use Rattle.nova_sem.specs.Links.{all_with_queues, AreLinked};

    ghost Value = { SemsState };

    ghost view = { λ s. record {
      all = all_with_queues s.links.items s.counters.items;
      spare = s.spare;
      contexts = length s.links.items;
    } };

    ghost invariant = { λ s. AreLinked s.links.items s.counters.items × (vec_len s.counters + s.spare ≤ vec_capacity s.counters) };
}

/// The counter of the semaphore `sm`; none where no semaphore has the number.
pub(crate) fn counter_at(counters: &[Option<Counter>], sm: u32) -> Option<Counter>
    ensures counter { result ≡ counter_at counters.now sm }
    ensures number { IfSome result (λ counter. sm < length counters.now) }
{
    *counters.get(sm as usize)?
}

/// The counter of a new semaphore, at which none waits.
fn idle_counter(count: Option<u32>) -> Option<Counter>
    ensures { result ≡ option_map new_counter count }
{
    count.map(|count| Counter {
        count,
        waiting: 0,
        first: 0,
        last: 0,
    })
}

/// `counter` without the first that waits.
fn without_first(counter: Counter, links: &[u32]) -> Counter
    requires there { 0 < counter.waiting }
    requires within { counter.first < length links.now }
    ensures { result ≡ record counter { first = slice_index links.now counter.first; waiting = counter.waiting - 1 } }
{
    Counter {
        first: links[counter.first as usize],
        waiting: counter.waiting - 1,
        ..counter
    }
}

/// `counter` where `ec` waits too, last of all.
fn with_last(counter: Counter, ec: u32) -> Counter
    requires { counter.waiting < 2 ^ 32 - 1 }
    ensures { result ≡ record counter { waiting = counter.waiting + 1; first = if counter.waiting == 0 then ec else counter.first; last = ec } }
{
    Counter {
        waiting: counter.waiting + 1,
        first: if counter.waiting == 0 {
            ec
        } else {
            counter.first
        },
        last: ec,
        ..counter
    }
}

/// Links the execution context `ec` to the last that waits, if any does.
fn link(links: &mut Vec<u32>, counter: Counter, ec: u32)
    requires { 0 < counter.waiting → counter.last < length links.old.items }
    ensures { links.new.items ≡ (if counter.waiting == 0 then links.old.items else slice_set links.old.items counter.last ec) }
{
    if counter.waiting > 0 {
        links[counter.last as usize] = ec;
    }
}

/// The execution context that waits before `ec`, which is among the `waiting` ones from `first` on, but not the first.
fn before(links: &[u32], first: u32, waiting: u32, ec: u32) -> u32
    requires some { 0 < waiting }
    requires within { (x : ℕ) → has (linked links.now first waiting) x ≡ true → x < length links.now }
    ensures { result ≡ before links.now first ec (waiting - 1) }
{
    let mut at = first;
    for _ in 1..waiting {
        let next = links[at as usize];
        if next == ec {
            return at;
        }
        at = next;
    }
    at
}

/// Links `before`, which waits before `ec`, to what waits after `ec`, which leaves.
fn unlink(links: &mut Vec<u32>, before: u32, ec: u32)
    requires before { before < length links.old.items }
    requires leaves { ec < length links.old.items }
    ensures { links.new.items ≡ slice_set links.old.items before (slice_index links.old.items ec) }
{
    links[before as usize] = links[ec as usize];
}

/// `counter` where `ec` leaves, which is not the first: `before` waits before it.
fn without_later(counter: Counter, before: u32, ec: u32) -> Counter
    requires { 0 < counter.waiting }
    ensures { result ≡ record counter { waiting = counter.waiting - 1; last = if counter.last == ec then before else counter.last } }
{
    Counter {
        waiting: counter.waiting - 1,
        last: if counter.last == ec {
            before
        } else {
            counter.last
        },
        ..counter
    }
}

impl Sems {
    /// No semaphores, and room for none, nor for an execution context to wait.
    pub fn new(alloc: Global) -> Sems
        ensures { result ≡ record { all = []; spare = 0; contexts = 0 } }
    {
        Sems {
            counters: Vec::new(alloc),
            spare: 0,
            links: Vec::new(alloc),
        }
    }

    /// Makes room for `n` more entries, counted from those that are there. Room that was made before stays, and where it is enough,
    /// this succeeds.
    pub fn reserve(&mut self, n: usize) -> Result<(), AllocError>
        ensures ok { OnOk result (self.new ≡ record self.old { spare = max self.old.spare n }) }
        ensures enough { n ≤ self.old.spare → IsOk result }
        ensures err { OnErr result (self.new ≡ self.old) }
    {
        self.counters.reserve(n)?;
        self.spare = self.spare.max(n);
        Ok(())
    }

    /// Makes room for the execution context of the next number to wait. Where there is room, this succeeds.
    pub fn room_for_ec(&mut self) -> Result<(), AllocError>
        requires few { length self.old.all < 2 ^ 32 - 1 }
        ensures kept { self.new.all ≡ self.old.all }
        ensures spare { self.new.spare ≡ self.old.spare }
        ensures room { OnOk result (length self.new.all < self.new.contexts) }
        ensures keeps { self.old.contexts ≤ self.new.contexts }
        ensures enough { length self.old.all < self.old.contexts → IsOk result }
        ensures err { OnErr result (self.new ≡ self.old) }
    {
        let contexts = self.links.len().max(self.counters.len() + 1);
        self.links.resize(contexts, 0)
    }

    /// Adds the entry of the next number in reserved room: a semaphore of counter `count`, at which none waits, or nothing. There is room for the
    /// execution context of that number to wait.
    pub fn add(&mut self, count: Option<u32>)
        requires room { 0 < self.old.spare }
        requires waiting { length self.old.all < self.old.contexts }
        ensures { self.new ≡ record { all = self.old.all ++ option_map idle_semaphore count ∷ []; spare = self.old.spare - 1; contexts = self.old.contexts } }
    {
        self.counters.push_reserved(idle_counter(count));
        self.spare -= 1;
    }

    /// Tells that each number of an entry may wait.
    pub fn keeps_room(&self)
        ensures { length self.now.all ≤ self.now.contexts }
    {
        let _spare = self.spare;
    }

    /// Whether the semaphore `sm` is there.
    pub fn contains(&self, sm: u32) -> bool
        ensures { result ≡ is_some (semaphore_at self.now.all sm) }
    {
        matches!(self.counters.get(sm as usize), Some(Some(_)))
    }

    /// The counter of the semaphore `sm`; 0 where no semaphore has the number.
    pub fn count(&self, sm: u32) -> u32
        ensures { result ≡ (semaphore self.now.all sm).count }
    {
        match counter_at(&self.counters, sm) {
            Some(counter) => counter.count,
            None => 0,
        }
    }

    /// How many execution contexts wait at the semaphore `sm`; none where no semaphore has the number.
    pub fn waiting(&self, sm: u32) -> u32
        ensures { result ≡ length (semaphore self.now.all sm).waiting }
    {
        match counter_at(&self.counters, sm) {
            Some(counter) => counter.waiting,
            None => 0,
        }
    }

    /// What an up of the semaphore `sm` would come to, with nothing changed.
    pub fn peek_up(&self, sm: u32) -> Result<Option<u32>, Overflow>
        ensures { result ≡ woken (semaphore self.now.all sm) }
    {
        let Some(counter) = counter_at(&self.counters, sm) else {
            return Ok(None);
        };
        if counter.waiting > 0 {
            return Ok(Some(counter.first));
        }
        if counter.count == u32::MAX {
            return Err(Overflow);
        }
        Ok(None)
    }

    /// Ups the semaphore `sm`: the first execution context that waits there is woken. Where none waits the counter rises by one and none is woken. At
    /// 2^32 - 1 that is refused as an overflow, and then nothing has changed. Where no semaphore has the number none is woken, and nothing changes.
    /// It takes no memory.
    pub fn up(&mut self, sm: u32) -> Result<Option<u32>, Overflow>
        ensures woken { result ≡ woken (semaphore self.old.all sm) }
        ensures upped { self.new.all ≡ upped self.old.all sm }
        ensures spare { self.new.spare ≡ self.old.spare }
        ensures contexts { self.new.contexts ≡ self.old.contexts }
    {
        let Some(counter) = counter_at(&self.counters, sm) else {
            return Ok(None);
        };
        if counter.waiting == 0 {
            let Some(count) = counter.count.checked_add(1) else {
                return Err(Overflow);
            };
            self.counters[sm as usize] = Some(Counter { count, ..counter });
            return Ok(None);
        }
        self.counters[sm as usize] = Some(without_first(counter, &self.links));
        Ok(Some(counter.first))
    }

    /// What a down of the semaphore `sm` would come to, with nothing changed.
    pub fn peek_down(&self, sm: u32) -> Down
        ensures { result ≡ answer_of (semaphore self.now.all sm) }
    {
        if self.count(sm) == 0 {
            Down::Blocked
        } else {
            Down::Done
        }
    }

    /// Downs the semaphore `sm` for the execution context `ec`, which waits nowhere and for which room was made. A counter above 0 is lowered by one.
    /// At 0 the execution context waits, last of all. Where no semaphore has the number the answer is that of a counter at 0, and nothing changes. It
    /// takes no memory.
    pub fn down(&mut self, sm: u32, ec: u32) -> Down
        requires room { ec < self.old.contexts }
        requires free { IsFree self.old.all ec }
        ensures answer { result ≡ answer_of (semaphore self.old.all sm) }
        ensures downed { self.new.all ≡ downed self.old.all sm ec }
        ensures spare { self.new.spare ≡ self.old.spare }
        ensures contexts { self.new.contexts ≡ self.old.contexts }
    {
        let Some(counter) = counter_at(&self.counters, sm) else {
            return Down::Blocked;
        };
        if counter.count > 0 {
            self.counters[sm as usize] = Some(Counter {
                count: counter.count - 1,
                ..counter
            });
            return Down::Done;
        }
        link(&mut self.links, counter, ec);
        self.counters[sm as usize] = Some(with_last(counter, ec));
        Down::Blocked
    }

    /// Takes the execution context `ec` out of the queue of the semaphore `sm`, at which it waits; the others keep their order. It takes no memory.
    pub fn leave(&mut self, sm: u32, ec: u32)
        requires { waits self.old.all sm ec ≡ true }
        ensures left { self.new.all ≡ left self.old.all sm ec }
        ensures spare { self.new.spare ≡ self.old.spare }
        ensures contexts { self.new.contexts ≡ self.old.contexts }
    {
        let Some(counter) = counter_at(&self.counters, sm) else {
            return;
        };
        if counter.first == ec {
            self.counters[sm as usize] = Some(without_first(counter, &self.links));
            return;
        }
        let before = before(&self.links, counter.first, counter.waiting, ec);
        unlink(&mut self.links, before, ec);
        self.counters[sm as usize] = Some(without_later(counter, before, ec));
    }

    /// Copies the entries into memory of their own, with the same room to wait and no spare room.
    pub fn copy(&self) -> Result<Sems, AllocError>
        ensures { IfOk result (λ s. s ≡ record { all = self.now.all; spare = 0; contexts = self.now.contexts }) }
    {
        let counters = Vec::from_slice(*self.counters.allocator(), self.counters.as_slice())?;
        let links = Vec::from_slice(*self.links.allocator(), self.links.as_slice())?;
        Ok(Sems {
            counters,
            spare: 0,
            links,
        })
    }
}

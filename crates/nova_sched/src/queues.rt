ghost use Rattle.std.specs.Prelude.{◌≡◌, ℕ, true, false, ◌+◌, ◌^◌, ◌<◌, ◌≤◌, ◌-◌, [], length, max, is_some, replicate, vec_len, vec_capacity, IsSome, IfSome, IfOk, IsOk, OnOk, OnErr, Some, slice_get};
ghost use Rattle.nova_model.specs.Turn.{is_spent};
ghost use Rattle.nova_sched.specs.Queues.{HasRoom, queued_at, choose, members, padded, added, marked, charged_schedule, charged_schedules};
ghost use Rattle.nova_model.specs.Forest.{ArePairs};
ghost use Rattle.nova_sched.specs.Lists.{unroomed};
ghost use Rattle.nova_sched.specs.Ready.{IsBehind, as_runnable, dropped, items_at, placed, renewed, requeued, room_at};

use crate::charge::{is_spent, pay, use_up};
use crate::queue::Queue;
use crate::queued::{Queued, Runnable};
use crate::ready::Ready;
use nova_model::Budget;
use std::alloc::{AllocError, Global};
use std::marker::Model;

/// The scheduling contexts of a machine: for each processor the numbers of all, and in the order in which
/// they run those that are runnable.
#[derive(Drop)]
pub struct Queues {
    entries: Vec<Option<Queued>>,
    queues: Vec<Queue>,
    readies: Vec<Ready>,
    reserved: usize,
    next_stamp: u64,
    alloc: Global,
}

impl Model for Queues {
    ghost use Rattle.std.specs.Prelude.{◌≤◌, length, map, vec_capacity};
    ghost use Rattle.nova_sched.specs.Queues.{QueuesState};
    ghost use Rattle.nova_sched.specs.Lists.{AreQueues};
    ghost use Rattle.nova_sched.specs.Ready.{AreReady};

    ghost Value = { QueuesState };

    ghost view = { λ q. record {
      all = record { entries = q.entries.items; next_stamp = q.next_stamp; cpus = length q.queues.items };
      numbers = q.reserved;
      rooms = map (λ x. x.spare) q.queues.items;
    } };

    ghost invariant = { λ q. AreQueues q.queues.items q.entries.items × ((q.reserved ≤ vec_capacity q.entries) × AreReady q.queues.items q.readies.items (record { entries = q.entries.items; next_stamp = q.next_stamp; cpus = length q.queues.items })) };
}

/// Empty queues, one for each of `cpus` processors.
fn empty_queues(alloc: Global, cpus: u32) -> Result<Vec<Queue>, AllocError>
    ensures { IfOk result (λ v. v.items ≡ replicate cpus (record { members = []; spare = 0 })) }
{
    let mut queues = Vec::new(alloc);
    for _ in 0..cpus {
        queues.push(Queue::new(alloc))?;
    }
    Ok(queues)
}

/// A list for each of `cpus` processors, where none may run.
fn nobody(alloc: Global, cpus: u32) -> Result<Vec<Ready>, AllocError>
    ensures { IfOk result (λ v. v.items ≡ replicate cpus (record { items = []; room = 0 })) }
{
    let mut readies = Vec::new(alloc);
    for _ in 0..cpus {
        readies.push(Ready::new(alloc))?;
    }
    Ok(readies)
}

/// Puts `r` among the scheduling contexts of the processor `cpu` that may run.
fn admit(readies: &mut Vec<Ready>, cpu: u32, r: Runnable)
    requires cpu { cpu < length readies.old.items }
    requires room { length (items_at readies.old.items cpu) < room_at readies.old.items cpu }
    requires order { ArePairs IsBehind (items_at readies.old.items cpu) }
    ensures here { items_at readies.new.items cpu ≡ placed r (items_at readies.old.items cpu) }
    ensures others { (other : ℕ) → ¬ (other ≡ cpu) → items_at readies.new.items other ≡ items_at readies.old.items other }
    ensures rooms { (other : ℕ) → room_at readies.new.items other ≡ room_at readies.old.items other }
    ensures cpus { length readies.new.items ≡ length readies.old.items }
{
    readies[cpu as usize].insert(r);
}

/// Takes `r` out of the scheduling contexts of the processor `cpu` that may run.
fn dismiss(readies: &mut Vec<Ready>, cpu: u32, r: Runnable)
    requires cpu { cpu < length readies.old.items }
    requires order { ArePairs IsBehind (items_at readies.old.items cpu) }
    ensures here { items_at readies.new.items cpu ≡ dropped r (items_at readies.old.items cpu) }
    ensures others { (other : ℕ) → ¬ (other ≡ cpu) → items_at readies.new.items other ≡ items_at readies.old.items other }
    ensures rooms { (other : ℕ) → room_at readies.new.items other ≡ room_at readies.old.items other }
    ensures cpus { length readies.new.items ≡ length readies.old.items }
{
    readies[cpu as usize].remove(r);
}

/// Makes room for `n` scheduling contexts of the processor `cpu` in all. Where the room is there, this succeeds.
fn make_room(readies: &mut Vec<Ready>, cpu: u32, n: usize) -> Result<(), AllocError>
    requires { cpu < length readies.old.items }
    ensures items { (other : ℕ) → items_at readies.new.items other ≡ items_at readies.old.items other }
    ensures others { (other : ℕ) → ¬ (other ≡ cpu) → room_at readies.new.items other ≡ room_at readies.old.items other }
    ensures ok { OnOk result (room_at readies.new.items cpu ≡ max (room_at readies.old.items cpu) n) }
    ensures enough { n ≤ room_at readies.old.items cpu → IsOk result }
    ensures err { OnErr result (room_at readies.new.items cpu ≡ room_at readies.old.items cpu) }
    ensures cpus { length readies.new.items ≡ length readies.old.items }
{
    readies[cpu as usize].reserve(n)
}

/// The scheduling context of the processor `cpu` that runs first.
fn first(readies: &[Ready], cpu: u32) -> Option<Runnable>
    ensures { result ≡ slice_get (items_at readies.now cpu) 0 }
{
    match readies.get(cpu as usize) {
        Some(ready) => ready.first(),
        None => None,
    }
}

/// Copies `readies`, those that may run, with as much room.
fn ready_copies(alloc: Global, readies: &[Ready]) -> Result<Vec<Ready>, AllocError>
    ensures { IfOk result (λ v. v.items ≡ readies.now) }
{
    let mut copies = Vec::new(alloc);
    for ready in readies {
        copies.push(ready.copy(alloc)?)?;
    }
    Ok(copies)
}

/// The scheduling context `sc` as it waits for its turn.
fn runner(sc: u32, entry: &Queued) -> Runnable
    ensures { result ≡ as_runnable sc entry.now }
{
    Runnable {
        sc,
        priority: entry.priority,
        stamp: entry.budget.stamp,
    }
}

/// Puts `sc` among those that may run where `is_runnable`, and else takes it out.
fn requeue(readies: &mut Vec<Ready>, sc: u32, before: &Queued, is_runnable: bool)
    requires cpu { before.now.cpu < length readies.old.items }
    requires room { before.now.is_runnable ≡ false → length (items_at readies.old.items before.now.cpu) < room_at readies.old.items before.now.cpu }
    requires order { ArePairs IsBehind (items_at readies.old.items before.now.cpu) }
    ensures here { items_at readies.new.items before.now.cpu ≡ requeued before.now.is_runnable is_runnable (as_runnable sc before.now) (items_at readies.old.items before.now.cpu) }
    ensures others { (other : ℕ) → ¬ (other ≡ before.now.cpu) → items_at readies.new.items other ≡ items_at readies.old.items other }
    ensures rooms { (other : ℕ) → room_at readies.new.items other ≡ room_at readies.old.items other }
    ensures cpus { length readies.new.items ≡ length readies.old.items }
{
    match (before.is_runnable, is_runnable) {
        (false, true) => admit(readies, before.cpu, runner(sc, before)),
        (true, false) => dismiss(readies, before.cpu, runner(sc, before)),
        _ => {}
    }
}

/// Puts the scheduling context `sc`, which may run and took a new stamp, in its new place.
fn renew(readies: &mut Vec<Ready>, sc: u32, before: &Queued, after: &Queued)
    requires cpu { before.now.cpu < length readies.old.items }
    requires room { before.now.is_runnable ≡ true → length (dropped (as_runnable sc before.now) (items_at readies.old.items before.now.cpu)) < room_at readies.old.items before.now.cpu }
    requires order { ArePairs IsBehind (items_at readies.old.items before.now.cpu) }
    ensures here { items_at readies.new.items before.now.cpu ≡ renewed before.now.is_runnable (as_runnable sc before.now) (as_runnable sc after.now) (items_at readies.old.items before.now.cpu) }
    ensures others { (other : ℕ) → ¬ (other ≡ before.now.cpu) → items_at readies.new.items other ≡ items_at readies.old.items other }
    ensures rooms { (other : ℕ) → room_at readies.new.items other ≡ room_at readies.old.items other }
    ensures cpus { length readies.new.items ≡ length readies.old.items }
{
    if before.is_runnable {
        readies[before.cpu as usize].renew(runner(sc, before), runner(sc, after));
    }
}

/// Puts nothing at each number before `n` that the table hasn't reached, in room that was made.
fn pad(entries: &mut Vec<Option<Queued>>, n: usize)
    requires { n ≤ vec_capacity entries.old }
    ensures padded { entries.new.items ≡ padded n entries.old.items }
    ensures capacity { vec_capacity entries.new ≡ vec_capacity entries.old }
{
    for _ in entries.len()..n {
        entries.push_reserved(None);
    }
}

/// Copies `queues`, with the same members.
fn copies(alloc: Global, queues: &[Queue]) -> Result<Vec<Queue>, AllocError>
    ensures { IfOk result (λ v. v.items ≡ unroomed queues.now) }
{
    let mut copies = Vec::new(alloc);
    for queue in queues {
        copies.push(queue.copy(alloc)?)?;
    }
    Ok(copies)
}

impl Queues {
    /// No scheduling contexts, on `cpus` processors; the first stamp is 0.
    pub fn new(alloc: Global, cpus: u32) -> Result<Queues, AllocError>
        ensures { IfOk result (λ q. q.all ≡ record { entries = []; next_stamp = 0; cpus = cpus }) }
    {
        Ok(Queues {
            entries: Vec::new(alloc),
            queues: empty_queues(alloc, cpus)?,
            readies: nobody(alloc, cpus)?,
            reserved: 0,
            next_stamp: 0,
            alloc,
        })
    }

    /// Makes room for the scheduling context `sc` of the processor `cpu`, which is there. Room that was made before stays, and where there is room,
    /// this succeeds. Where memory runs out, nothing has changed but room.
    pub fn reserve(&mut self, sc: u32, cpu: u32) -> Result<(), AllocError>
        requires cpu { cpu < self.old.all.cpus }
        ensures kept { self.new.all ≡ self.old.all }
        ensures room { OnOk result (HasRoom self.new sc cpu) }
        ensures enough { HasRoom self.old sc cpu → IsOk result }
        ensures keeps { (number processor : ℕ) → HasRoom self.old number processor → HasRoom self.new number processor }
    {
        let numbers = sc as usize + 1;
        self.entries
            .reserve(numbers.saturating_sub(self.entries.len()))?;
        self.reserved = self.reserved.max(numbers);
        let all = self.queues[cpu as usize].members().len() + 1;
        make_room(&mut self.readies, cpu, all)?;
        self.queues[cpu as usize].reserve()
    }

    /// Adds the scheduling context `sc` in room that was made, with a full quantum and the next stamp. Its
    /// number is greater than those of all before. It isn't runnable until that is said.
    pub fn add(&mut self, sc: u32, cpu: u32, priority: u8, quantum: u32)
        requires number { length self.old.all.entries ≤ sc }
        requires cpu { cpu < self.old.all.cpus }
        requires room { HasRoom self.old sc cpu }
        requires stamp { self.old.all.next_stamp < 2 ^ 64 - 1 }
        ensures { self.new.all ≡ added self.old.all sc cpu priority quantum }
    {
        pad(&mut self.entries, sc as usize);
        self.entries.push_reserved(Some(Queued {
            cpu,
            priority,
            quantum,
            is_runnable: false,
            budget: Budget {
                left: quantum,
                stamp: self.next_stamp,
                ticks: 0,
            },
        }));
        self.queues[cpu as usize].add(sc);
        self.next_stamp += 1;
    }

    /// Whether the scheduling context `sc` is there.
    pub fn contains(&self, sc: u32) -> bool
        ensures { result ≡ is_some (queued_at self.now.all sc) }
    {
        matches!(self.entries.get(sc as usize), Some(Some(_)))
    }

    /// The scheduling context that has the next turn of the processor `cpu`: of those that are runnable that of
    /// greatest priority, then of least stamp. None exactly where none is runnable.
    pub fn choose(&self, cpu: u32) -> Option<u32>
        ensures choice { result ≡ choose self.now.all cpu }
        ensures there { IfSome result (λ sc. IsSome (queued_at self.now.all sc)) }
    {
        Some(first(&self.readies, cpu)?.sc)
    }

    /// The scheduling contexts of the processor `cpu` by rising number; none of a processor that isn't there.
    pub fn members(&self, cpu: u32) -> &[u32]
        ensures { result.now ≡ members self.now.all cpu }
    {
        match self.queues.get(cpu as usize) {
            Some(queue) => queue.members(),
            None => &[],
        }
    }

    /// The scheduling context of number `sc`, which there is.
    fn entry(&self, sc: u32) -> &Queued
        requires { IsSome (queued_at self.now.all sc) }
        ensures { queued_at self.now.all sc ≡ Some result.now }
    {
        let Some(entry) = &self.entries[sc as usize] else {
            unreachable!();
        };
        entry
    }

    /// Sets whether the turns of the scheduling context `sc` lead to an execution context that acts.
    pub fn set_runnable(&mut self, sc: u32, is_runnable: bool)
        requires { IsSome (queued_at self.old.all sc) }
        ensures marked { self.new.all ≡ marked self.old.all sc is_runnable }
        ensures numbers { self.new.numbers ≡ self.old.numbers }
        ensures rooms { self.new.rooms ≡ self.old.rooms }
    {
        let Some(entry) = &mut self.entries[sc as usize] else {
            unreachable!();
        };
        let before = *entry;
        entry.is_runnable = is_runnable;
        requeue(&mut self.readies, sc, &before, is_runnable);
    }

    /// Charges the last turn of its quantum to `sc`; few turns are such, so that this stays out of the code of each.
    #[inline(never)]
    fn charge_last(&mut self, sc: u32)
        requires there { IsSome (queued_at self.old.all sc) }
        requires ticks { IfSome (queued_at self.old.all sc) (λ e. e.budget.ticks < 2 ^ 64 - 1) }
        requires stamp { self.old.all.next_stamp < 2 ^ 64 - 1 }
        requires last { IfSome (queued_at self.old.all sc) (λ e. is_spent e.budget ≡ true) }
        ensures charged { self.new.all ≡ charged_schedule self.old.all sc }
        ensures numbers { self.new.numbers ≡ self.old.numbers }
        ensures rooms { self.new.rooms ≡ self.old.rooms }
    {
        let Some(payer) = &mut self.entries[sc as usize] else {
            unreachable!();
        };
        let before = *payer;
        pay(payer, self.next_stamp);
        let after = *payer;
        self.next_stamp += 1;
        renew(&mut self.readies, sc, &before, &after);
    }

    /// Charges `count` turns, fewer than are left of its quantum, to the scheduling context `sc` at once.
    #[inline(always)]
    pub fn spend(&mut self, sc: u32, count: u32)
        requires there { IsSome (queued_at self.old.all sc) }
        requires left { IfSome (queued_at self.old.all sc) (λ e. count < e.budget.left) }
        requires ticks { IfSome (queued_at self.old.all sc) (λ e. e.budget.ticks + count < 2 ^ 64) }
        ensures charged { self.new.all ≡ charged_schedules count self.old.all sc }
        ensures numbers { self.new.numbers ≡ self.old.numbers }
        ensures rooms { self.new.rooms ≡ self.old.rooms }
    {
        let Some(payer) = &mut self.entries[sc as usize] else {
            unreachable!();
        };
        use_up(payer, count);
    }

    /// Charges a turn to the scheduling context `sc`: one tick more, one turn less of what is left of its
    /// quantum. At 0 the quantum begins anew, with the next stamp.
    #[inline(always)]
    pub fn charge(&mut self, sc: u32)
        requires there { IsSome (queued_at self.old.all sc) }
        requires ticks { IfSome (queued_at self.old.all sc) (λ e. e.budget.ticks < 2 ^ 64 - 1) }
        requires stamp { self.old.all.next_stamp < 2 ^ 64 - 1 }
        ensures charged { self.new.all ≡ charged_schedule self.old.all sc }
        ensures numbers { self.new.numbers ≡ self.old.numbers }
        ensures rooms { self.new.rooms ≡ self.old.rooms }
    {
        if is_spent(&self.entry(sc).budget) {
            self.charge_last(sc);
        } else {
            self.spend(sc, 1);
        }
    }

    /// The turns that the scheduling context `sc` paid for.
    pub fn ticks(&self, sc: u32) -> u64
        requires { IsSome (queued_at self.now.all sc) }
        ensures { IfSome (queued_at self.now.all sc) (λ e. result ≡ e.budget.ticks) }
    {
        self.entry(sc).budget.ticks
    }

    /// The turns that are left of the quantum of the scheduling context `sc`.
    pub fn left(&self, sc: u32) -> u32
        requires { IsSome (queued_at self.now.all sc) }
        ensures { IfSome (queued_at self.now.all sc) (λ e. result ≡ e.budget.left) }
    {
        self.entry(sc).budget.left
    }

    /// Copies the scheduling contexts into memory of their own.
    pub fn copy(&self) -> Result<Queues, AllocError>
        ensures { IfOk result (λ q. q.all ≡ self.now.all) }
    {
        let entries = Vec::from_slice(self.alloc, &self.entries)?;
        let queues = copies(self.alloc, &self.queues)?;
        let readies = ready_copies(self.alloc, &self.readies)?;
        Ok(Queues {
            reserved: entries.len(),
            entries,
            queues,
            readies,
            next_stamp: self.next_stamp,
            alloc: self.alloc,
        })
    }
}

ghost use Rattle.std.specs.Prelude.{◌≡◌, ◌≢◌, ◌%◌, ◌^◌, ◌≤◌, ◌<◌, ◌+◌, List, ℕ, [], ◌∷◌, IfOk, IfErr, Some, vec_capacity, slice_index_or, vec_len, All, Contains, map, drop};
ghost use mathlib.Core.List.{IsPrefix};
ghost use mathlib.Core.Option.{none};
ghost use Rattle.atomic_table.specs.Table.{step};
ghost use Rattle.nova_lock.specs.Seats.{AreSeats, Ends, IsSeat, IsSeatOf, SeatView, note};
ghost use Rattle.nova_lock.specs.History.{Adds, entries, IsFrontOf};
ghost use Rattle.nova_lock.specs.Ticketed.{Gives, GaveBack, Took, Draws, Acted};
ghost use Rattle.nova_lock.specs.declared.view.Phase.TheVariants.{Idle, Passed, Waiting};

use crate::bell::{Bell, Waker};
use crate::called::{Historied, LockCall};
use crate::plays::{Draw, Heed, Leave, Look, Pass, Sit, Ticketed};
use crate::view::View;
use atomic_table::{Refused, Table};
use std::alloc::{AllocError, AllocFailed, Global};
use std::hint;
use std::marker::Model;
use std::snapshot::Snapshot;
use std::sync::Wait;

/// How often a seat looks whether it is served before it sleeps: a use is mostly over sooner than a sleeper wakes.
const LOOKS: u32 = 4096;

pub(crate) type Place<T> = atomic_table::Seat<T, View<T>>;

/// A value behind a ticket lock, which its seats use one at a time. Each use adds to the value's history, and adds entries of its seat alone.
///
/// The lock has to be closed: that gives the value back.
pub struct HistoryLock<T: Historied> {
    table: Table<T, View<T>, Snapshot<T>, Ticketed, Global>,
    seats: u32,
}

impl<T: Historied> Model for HistoryLock<T> {
    ghost use Rattle.std.specs.Prelude.{◌≡◌};
    ghost use Rattle.nova_lock.specs.Seats.{LockView};

    ghost Value = { LockView T };

    ghost view = { λ l. record { id = l.table.shared.table_id; opened = l.table.shared.key.value; seats = l.seats } };

    ghost invariant = { λ l. (l.table.shared.table_id.words ≡ 2) × (l.table.shared.table_id.slots ≡ 1) };
}

/// The right to use a lock. A seat has a number, and it knows its front: the history as its last use left it, which is empty before the
/// first use.
#[derive(Drop)]
pub struct Seat<T: Historied> {
    seat: Place<T>,
    number: u64,
    made: u64,
}

impl<T: Historied> Model for Seat<T> {
    ghost use Rattle.std.specs.Prelude.{◌≡◌, ◌<◌, ◌^◌, []};
    ghost use Rattle.nova_lock.specs.Seats.{SeatView};
    ghost use Rattle.nova_lock.specs.declared.view.Phase.TheVariants.{Idle};

    ghost Value = { SeatView T };

    ghost view = { λ s. record { lock = s.seat.table_id; opened = s.seat.me.0.opened; number = s.seat.me.0.number; front = s.seat.me.0.front; made = s.seat.me.0.made; kept = s.seat.me.0.kept } };

    ghost invariant = { λ s. (s.seat.me.1 ≡ []) × (s.seat.me.0.phase ≡ Idle) × (s.seat.me.0.number ≡ s.number) × (s.seat.me.0.made ≡ s.made) × (s.number < 2 ^ 32) };
}

impl<T: Historied> HistoryLock<T> {
    /// The lock of `value`, with seat 0. Where memory is refused the value comes back.
    fn open(
        alloc: Global,
        value: T,
        seats: u32,
    ) -> Result<(HistoryLock<T>, Seat<T>), (T, AllocError)>
        requires empty { T.history value ≡ [] }
        ensures ok { IfOk result (λ r. (r.0.opened ≡ value) × (r.0.seats ≡ seats) × (r.1 ≡ record { lock = r.0.id; opened = Some value; number = 0; front = []; made = 1; kept = [] })) }
        ensures err { IfErr result (λ e. e.0 ≡ value) }
    {
        let about = Snapshot::of(&value);
        let served = value.blocks();
        let mut slots = Vec::new(alloc);
        if let Err(AllocFailed { value }) = slots.push(value) {
            slots.destroy_empty();
            return Err((value, AllocError));
        }
        match Table::new(alloc, &[served, served], slots, &about) {
            Ok((table, seat)) => Ok((
                HistoryLock { table, seats },
                Seat {
                    seat,
                    number: 0,
                    made: 1,
                },
            )),
            Err(Refused { mut slots }) => {
                let Some(value) = slots.pop() else {
                    unreachable!()
                };
                slots.destroy_empty();
                Err((value, AllocError))
            }
        }
    }

    /// All seats in order, in the room of `list`.
    fn seat_all(&self, first: Seat<T>, mut list: Vec<Seat<T>>) -> Vec<Seat<T>>
        requires own { (first.lock ≡ self.now.id) × (first.opened ≡ Some self.now.opened) × (first.number ≡ 0) × (first.made ≡ 1) × (first.kept ≡ []) × (first.front ≡ []) }
        requires room { (list.items ≡ []) × (0 < self.now.seats) × (self.now.seats ≤ vec_capacity list) }
        ensures seats { AreSeats self.now result.items }
        ensures fronts { All (λ s. s.front ≡ []) result.items }
    {
        let mut first = first;
        for _i in 1..self.seats {
            let seat = self.sit(&mut first);
            let Ok(()) = list.push(seat) else {
                unreachable!()
            };
        }
        let Ok(()) = list.insert(0, first) else {
            unreachable!()
        };
        list
    }

    /// A lock of `value` with an empty history, and its `seats` seats in order: seat i has number i. There is at least one. Where memory is refused
    /// the value comes back.
    pub fn new(
        alloc: Global,
        value: T,
        seats: u32,
    ) -> Result<(HistoryLock<T>, Vec<Seat<T>>), (T, AllocError)>
        requires seats { 0 < seats }
        requires empty { T.history value ≡ [] }
        ensures lock { IfOk result (λ r. (r.0.opened ≡ value) × (r.0.seats ≡ seats)) }
        ensures seats { IfOk result (λ r. AreSeats r.0 r.1.items) }
        ensures fronts { IfOk result (λ r. All (λ s. s.front ≡ []) r.1.items) }
        ensures err { IfErr result (λ e. e.0 ≡ value) }
    {
        let list = match Vec::with_capacity(alloc, seats as usize) {
            Ok(list) => list,
            Err(failed) => return Err((value, failed)),
        };
        match HistoryLock::open(alloc, value, seats) {
            Ok((lock, first)) => {
                let list = lock.seat_all(first, list);
                Ok((lock, list))
            }
            Err(failed) => {
                list.destroy_empty();
                Err(failed)
            }
        }
    }

    /// Takes the next ticket for `seat`.
    fn draw(&self, seat: &mut Place<T>) -> u64
        requires own { seat.old.table_id ≡ self.now.id }
        requires idle { (seat.old.me.0.phase ≡ Idle) × (seat.old.me.1 ≡ []) }
        ensures same { seat.new.table_id ≡ seat.old.table_id }
        ensures drawn { Draws T.opening T.history T.uses (step 1 0 1 0 none) seat.old.me result seat.new.me }
    {
        self.table.shared.fetch_add::<Draw>(seat, 0, 1)
    }

    /// Looks whether `ticket` is served, until it is or `LOOKS` looks came to nothing.
    fn look(&self, ticket: u64) {
        for _look in 0..LOOKS {
            if self.table.shared.peek(1) == ticket {
                return;
            }
            hint::spin_loop();
        }
    }

    /// Waits until `ticket` is served, and takes the value.
    fn wait(&self, rt: &impl Wait, seat: &mut Place<T>, ticket: u64)
        requires own { seat.old.table_id ≡ self.now.id }
        requires waiting { (seat.old.me.0.phase ≡ Waiting) × (seat.old.me.0.ticket % 2 ^ 64 ≡ ticket) × (seat.old.me.1 ≡ []) }
        ensures same { seat.new.table_id ≡ seat.old.table_id }
        ensures took { Took T.opening T.history T.uses seat.old.me seat.new.me }
    {
        self.look(ticket);
        for _ in rt.forever() {
            let found = self.table.shared.load::<Look>(seat, 1);
            if found == ticket {
                return;
            }
            self.table.shared.park(rt, 1, (found & 0xffff_ffff) as u32);
        }
        unreachable!()
    }

    /// Does `call` on the value in hand.
    fn act<C: LockCall<T>>(&self, seat: &mut Place<T>, call: &mut C) -> C::Out
        requires own { seat.old.table_id ≡ self.now.id }
        requires hand { (x : T) × (seat.old.me.1 ≡ (0, x) ∷ []) }
        requires ready { (x : T) → seat.old.me.1 ≡ (0, x) ∷ [] → C.ready call.old (T.opening x) (T.history x) }
        ensures same { (seat.new.table_id ≡ seat.old.table_id) × (seat.new.me.0 ≡ seat.old.me.0) }
        ensures acted { (x : T) → (seat.old.me.1 ≡ (0, x) ∷ []) → (y : T) × (seat.new.me.1 ≡ (0, y) ∷ []) × Acted T.opening T.history T.uses C.number C.did x y call.old call.new result }
    {
        let value = seat.slot_mut(&self.table.shared, 0);
        call.act(value)
    }

    /// Wakes all that sleep.
    pub(crate) fn wake(&self) {
        self.table.shared.wake_all(1);
    }

    /// Gives the value back, and has the next ticket served, which it answers modulo 2^64. The seat then owes a look at `ticket`.
    fn pass(&self, seat: &mut Place<T>) -> u64
        requires own { seat.old.table_id ≡ self.now.id }
        requires gives { (x : T) × Gives T.opening T.history T.uses seat.old.me x }
        ensures same { seat.new.table_id ≡ seat.old.table_id }
        ensures passed { GaveBack T.opening T.history T.uses seat.old.me seat.new.me }
        ensures served { result ≡ (seat.old.me.0.ticket + 1) % 2 ^ 64 }
    {
        let passed = self.table.shared.fetch_add::<Pass>(seat, 1, 1);
        passed.wrapping_add(1)
    }

    /// Looks how many tickets were drawn, and where that is another number than that of the ticket which the seat has served, rings for it.
    fn heed<B: Bell>(&self, bell: &B, seat: &mut Place<T>, served: u64)
        requires own { seat.old.table_id ≡ self.now.id }
        requires owed { (seat.old.me.0.phase ≡ Passed) × (served ≡ (seat.old.me.0.ticket + 1) % 2 ^ 64) }
        ensures same { seat.new.table_id ≡ seat.old.table_id }
        ensures heeded { seat.new.me ≡ (record seat.old.me.0 { phase = Idle; drawn = seat.new.me.0.drawn }, seat.old.me.1) }
        ensures woken { seat.new.me.0.drawn ≢ (seat.old.me.0.ticket + 1) % 2 ^ 64 → B.rung bell.now ((seat.old.me.0.ticket + 1) % 2 ^ 64) }
    {
        // `serving` was stored before this load of `ticket`, and all these steps have one order (SeqCst): a thread that draws a ticket after the load
        // reads the new `serving` before it parks. A thread that drew one before it is seen here, since `ticket` then is not what is served now.
        let drawn = self.table.shared.load::<Heed>(seat, 0);
        if drawn != served {
            bell.ring(served, drawn);
        }
    }

    /// Does `call` on the value for `seat`, once all seats that asked before have had theirs. The history that it finds begins with the seat's front,
    /// and has all that the seat ever added; the history that it leaves is the seat's new front. The call acts for this seat, and may be done at the
    /// lock's opening and each history that begins with the seat's front.
    ///
    /// It may wait; what it promises holds if it returns. It takes no memory.
    pub fn with<C: LockCall<T>>(&self, rt: &impl Wait, seat: &mut Seat<T>, call: &mut C) -> C::Out
        requires own { IsSeatOf self.now seat.old }
        requires number { C.number call.old ≡ seat.old.number }
        requires ready { (h : List ℕ) → IsPrefix seat.old.front h → C.ready call.old (T.opening self.now.opened) h }
        ensures seat { seat.new ≡ record seat.old { front = seat.new.front } }
        ensures did { (found : List ℕ) × IsFrontOf seat.old.number seat.old.front found × Adds seat.old.number found seat.new.front
            × C.did (T.opening self.now.opened) call.old found seat.new.front call.new result }
    {
        let ticket = self.draw(&mut seat.seat);
        self.wait(rt, &mut seat.seat, ticket);
        let out = self.act(&mut seat.seat, call);
        let served = self.pass(&mut seat.seat);
        self.heed(&Waker { lock: self }, &mut seat.seat, served);
        out
    }

    /// A further seat, which seat 0 makes.
    fn sit(&self, first: &mut Seat<T>) -> Seat<T>
        requires own { first.old.lock ≡ self.now.id }
        requires first { (first.old.number ≡ 0) × (first.old.made < 2 ^ 32) }
        ensures first { first.new ≡ record first.old { made = first.old.made + 1 } }
        ensures result { result ≡ record { lock = first.old.lock; opened = first.old.opened; number = first.old.made; front = []; made = 0; kept = [] } }
    {
        let number = first.made;
        let seat = self.table.shared.split_seat::<Sit>(&mut first.seat);
        first.made = number + 1;
        Seat {
            seat,
            number,
            made: 0,
        }
    }

    /// Has seat 0, `first`, take in the seat `other`.
    fn take_in(&self, first: &mut Seat<T>, other: Seat<T>)
        requires own { (first.old.lock ≡ self.now.id) × (other.lock ≡ self.now.id) }
        requires first { first.old.number ≡ 0 }
        ensures { first.new ≡ record first.old { kept = note other ∷ first.old.kept } }
    {
        let Seat {
            seat,
            number: _,
            made: _,
        } = other;
        self.table.shared.join_seat::<Leave>(&mut first.seat, seat);
    }

    /// Seat 0, after it took in all others.
    fn take_all(&self, mut seats: Vec<Seat<T>>) -> Seat<T>
        requires count { (vec_len seats ≡ self.now.seats) × (0 < self.now.seats) }
        requires own { (i : ℕ) (d : SeatView T) → i < self.now.seats → IsSeat self.now i (slice_index_or seats.items i d) }
        ensures first { (d : SeatView T) → result ≡ record (slice_index_or seats.items 0 d) { kept = map note (drop 1 seats.items) } }
    {
        let mut first = seats.remove(0);
        while let Some(other) = seats.pop() {
            self.take_in(&mut first, other);
        }
        seats.destroy_empty();
        first
    }

    /// The value, after seat 0 took in all others.
    fn finish(self, first: Seat<T>) -> T
        requires own { (first.lock ≡ self.id) × (first.number ≡ 0) × (first.made ≡ self.seats) }
        requires all { (i : ℕ) → 0 < i → i < self.seats → (f : List ℕ) × Contains first.kept (i, f) }
        ensures { Ends T.opening T.history self first result }
    {
        let HistoryLock { table, seats: _ } = self;
        let Seat {
            seat,
            number: _,
            made: _,
        } = first;
        let mut closed = table.close_with(seat);
        let value = closed.take(0);
        closed.free();
        value
    }

    /// Gives the value back, from `seats`, all of this lock in order. Each seat's front begins its history, and has all entries of the seat; there is
    /// no entry of any other number. It takes no memory and doesn't wait.
    pub fn close(self, seats: Vec<Seat<T>>) -> T
        requires seats { AreSeats self seats.items }
        ensures opening { T.opening result ≡ T.opening self.opened }
        ensures fronts { (i : ℕ) (d : SeatView T) → i < self.seats → IsFrontOf i (slice_index_or seats.items i d).front (T.history result) }
        ensures others { (n : ℕ) → self.seats ≤ n → entries n (T.history result) ≡ 0 }
    {
        let first = self.take_all(seats);
        self.finish(first)
    }
}

impl<T: Historied> Seat<T> {
    /// The number that the entries of the seat have, from 0.
    pub fn number(&self) -> u32
        ensures { result ≡ self.now.number }
    {
        self.number as u32
    }
}

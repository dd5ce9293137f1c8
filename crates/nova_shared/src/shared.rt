ghost use Rattle.std.specs.Prelude.{◌≡◌, ◌≢◌, ◌+◌, ◌-◌, ◌^◌, ◌<◌, ◌≤◌, ◌++◌, List, [], ◌∷◌, ℕ, length, drop, replicate, vec_len, vec_capacity, slice_index_or, All, IfOk, IfErr, OnErr};
ghost use Rattle.std.specs.List.{AllByRecursion};
ghost use mathlib.Core.List.{IsPrefix};
ghost use Rattle.nova_lock.specs.History.{Adds, entries, IsFrontOf};
ghost use Rattle.nova_lock.specs.Seats.{SeatView};
ghost use Rattle.nova_model.specs.Runs.{IsFreeOfIdle, run};
ghost use Rattle.nova_order.specs.Blocks.{turns};
ghost use Rattle.nova_finished.specs.Finished.{IsFinished};
ghost use Rattle.nova_shared.specs.Ran.{Ran, IsCpuSeat, AreCpuSeats};
ghost use Rattle.nova_shared.specs.Seen.{Learns, LearnsOfBlock, LearnsOfOthers, mine};
ghost use Rattle.nova_shared.specs.Told.{HasNone, IsTold, IsRefused};
ghost use Rattle.nova_finished.specs.UnderWay.{IsReady, HasRoom};

use crate::shared_run::{BlockDone, Blocking, OneTurn, SharedRun, SharedTurn, Turns};
use nova_finished::{Block, Finished};
use nova_kernel::Kernel;
use nova_lock::{HistoryLock, Seat};
use std::alloc::{AllocError, Global};
use std::marker::Model;
use std::sync::Wait;

/// The right of one processor to take turns of a shared kernel. It knows the order of turns of all processors as its last turn left it, its front,
/// which is empty before its first turn.
#[derive(Drop)]
pub struct CpuSeat {
    seat: Seat<SharedRun>,
    seen: u64,
    mine: u64,

    // Of processor 0: the room in which all seats are handed back.
    spare: Vec<Seat<SharedRun>>,
}

impl Model for CpuSeat {
    ghost use Rattle.std.specs.Prelude.{◌≡◌, ◌≤◌, [], length, vec_capacity};
    ghost use Rattle.nova_lock.specs.History.{entries};
    ghost use Rattle.nova_lock.specs.Seats.{SeatView};
    ghost use Rattle.nova_shared.specs.Ran.{Ran};

    ghost Value = { SeatView Ran };

    ghost view = { λ s. s.seat };

    ghost invariant = { λ s. (s.seen ≡ length s.seat.front) × (s.mine ≡ entries s.seat.number s.seat.front) × (s.spare.items ≡ []) × (s.seat.number ≡ 0 → s.seat.made ≤ vec_capacity s.spare) };
}

impl CpuSeat {
    /// A seat that was not used yet, with room for the seats that are handed back with it.
    fn new(seat: Seat<SharedRun>, spare: Vec<Seat<SharedRun>>) -> CpuSeat
        requires front { seat.front ≡ [] }
        requires room { (spare.items ≡ []) × (seat.number ≡ 0 → seat.made ≤ vec_capacity spare) }
        ensures { result ≡ seat }
    {
        CpuSeat {
            seat,
            seen: 0,
            mine: 0,
            spare,
        }
    }

    /// The processor of the seat.
    pub fn cpu(&self) -> u32
        ensures { result ≡ self.now.number }
    {
        self.seat.number()
    }

    /// How many turns of all processors its last turn saw, its own included.
    pub fn seen(&self) -> u64
        ensures { result ≡ length self.now.front }
    {
        self.seen
    }

    /// How many turns of the seat's processor there were.
    pub fn mine(&self) -> u64
        ensures { result ≡ entries self.now.number self.now.front }
    {
        self.mine
    }
}

/// Adds the processor's seat that holds `seat`, in the room of `out`.
fn add(out: &mut Vec<CpuSeat>, seat: Seat<SharedRun>, spare: Vec<Seat<SharedRun>>)
    requires room { vec_len out.old < vec_capacity out.old }
    requires front { seat.front ≡ [] }
    requires spare { (spare.items ≡ []) × (seat.number ≡ 0 → seat.made ≤ vec_capacity spare) }
    ensures items { out.new.items ≡ out.old.items ++ seat ∷ [] }
    ensures len { vec_len out.new ≡ vec_len out.old + 1 }
    ensures room { vec_capacity out.old ≤ vec_capacity out.new }
{
    let Ok(()) = out.push(CpuSeat::new(seat, spare)) else {
        unreachable!()
    };
}

/// The processors' seats that hold `seats`, in the room of `out`. The first keeps the room in which all are handed back.
fn wrapped(
    alloc: Global,
    mut seats: Vec<Seat<SharedRun>>,
    mut out: Vec<CpuSeat>,
    spare: Vec<Seat<SharedRun>>,
) -> Vec<CpuSeat>
    requires room { (out.items ≡ []) × (0 < vec_len seats) × (vec_len seats ≤ vec_capacity out) × (spare.items ≡ []) }
    requires fresh { All (λ s. s.front ≡ []) seats.items }
    requires first { (d : SeatView Ran) → (slice_index_or seats.items 0 d).made ≤ vec_capacity spare }
    requires others { All (λ s. s.number ≢ 0) (drop 1 seats.items) }
    ensures { result.items ≡ seats.items }
{
    let first = seats.remove(0);
    add(&mut out, first, spare);
    for seat in seats {
        add(&mut out, seat, Vec::new(alloc));
    }
    out
}

/// The seats of the lock, in the room that the first processor's seat kept.
fn bare(mut seats: Vec<CpuSeat>) -> Vec<Seat<SharedRun>>
    requires { (0 < vec_len seats) × ((d : SeatView Ran) → ((slice_index_or seats.items 0 d).number ≡ 0) × (vec_len seats ≤ (slice_index_or seats.items 0 d).made)) }
    ensures { result.items ≡ seats.items }
{
    let CpuSeat {
        seat,
        seen: _,
        mine: _,
        spare: mut out,
    } = seats.remove(0);
    let Ok(()) = out.push(seat) else {
        unreachable!()
    };
    for seat in seats {
        let CpuSeat {
            seat,
            seen: _,
            mine: _,
            spare,
        } = seat;
        spare.destroy_empty();
        let Ok(()) = out.push(seat) else {
            unreachable!()
        };
    }
    out
}

/// A kernel whose processors take turns by their seats, in whatever order they come, one at a time. The turns of all have one order, which begins with
/// what each seat saw.
///
/// It has to be finished: that gives the kernel back.
pub struct Shared {
    lock: HistoryLock<SharedRun>,
}

impl Model for Shared {
    ghost use Rattle.nova_lock.specs.Seats.{LockView};
    ghost use Rattle.nova_shared.specs.Ran.{Ran};

    ghost Value = { LockView Ran };

    ghost view = { λ s. s.lock };
}

impl Shared {
    /// Shares `kernel` among its processors, of which there is one or more, for at most `limit` turns. The seats are in the order of their
    /// processors. The kernel has room in its log for as many turns; room for their order and events is made here. Where memory runs out, it gives
    /// the kernel back.
    pub fn new(
        alloc: Global,
        kernel: Kernel,
        limit: u64,
    ) -> Result<(Shared, Vec<CpuSeat>), (Kernel, AllocError)>
        requires cpus { 0 < kernel.state.cpus }
        requires room { limit ≤ kernel.room }
        requires turns { kernel.state.turns + limit ≤ 2 ^ 31 }
        ensures opening { IfOk result (λ r. (r.0.opened.opening.kernel.state ≡ kernel.state) × (r.0.opened.opening.limit ≡ limit)) }
        ensures seats { IfOk result (λ r. AreCpuSeats r.0 r.1.items) }
        ensures fronts { IfOk result (λ r. All (λ s. s.front ≡ []) r.1.items) }
        ensures kernel { IfErr result (λ e. e.0 ≡ kernel) }
    {
        let cpus = kernel.cpus();
        let Ok(spare) = Vec::with_capacity(alloc, cpus as usize) else {
            return Err((kernel, AllocError));
        };
        let Ok(room) = Vec::with_capacity(alloc, cpus as usize) else {
            return Err((kernel, AllocError));
        };
        let run = match Finished::begin(alloc, kernel, limit, limit, limit) {
            Ok(run) => run,
            Err(kernel) => return Err((kernel, AllocError)),
        };
        match HistoryLock::new(alloc, SharedRun::new(run), cpus) {
            Ok((lock, seats)) => Ok((Shared { lock }, wrapped(alloc, seats, room, spare))),
            Err((value, failed)) => Err((value.into_kernel(), failed)),
        }
    }

    /// One use of the lock, in which the processor of `seat` takes a turn.
    fn take(&self, rt: &impl Wait, seat: &mut Seat<SharedRun>) -> Result<SharedTurn, u64>
        requires own { IsCpuSeat self.now seat.old }
        ensures seat { seat.new ≡ record seat.old { front = seat.new.front } }
        ensures told { (found : List ℕ) × IsFrontOf seat.old.number seat.old.front found
            × IfOk result (IsTold self.now.opened.opening.kernel.state self.now.opened.opening.limit seat.old.number found seat.new.front)
            × IfErr result (λ taken. (taken ≡ length found) × IsRefused self.now.opened.opening.kernel.state self.now.opened.opening.limit seat.old.number found seat.new.front) }
        ensures added { (found : List ℕ) × IsPrefix seat.old.front found × Adds seat.old.number found seat.new.front }
        ensures learned { IfOk result (Learns seat.old seat.new) }
        ensures refused { OnErr result (LearnsOfOthers seat.old seat.new) }
    {
        let mut call = OneTurn { cpu: seat.number() };
        self.lock.with(rt, seat, &mut call)
    }

    /// Takes a turn of the processor of `seat`, where it is not idle and there are fewer turns of all processors than there may be. The order of
    /// turns that it finds begins with the seat's front and has all turns that the seat ever took; the order that it leaves is the seat's new front.
    /// Memory can run out only in a turn that makes an object or a derivation. It may wait for other processors; what it promises holds if it
    /// returns.
    #[tactic(auto, using(crate::proofs::Seats::stepped_mine, crate::proofs::Seats::mine_most))]
    pub fn turn(&self, rt: &impl Wait, seat: &mut CpuSeat) -> Result<SharedTurn, AllocError>
        requires own { IsCpuSeat self.now seat.old }
        ensures seat { seat.new ≡ record seat.old { front = seat.new.front } }
        ensures told { (found : List ℕ) × IsFrontOf seat.old.number seat.old.front found
            × IfOk result (IsTold self.now.opened.opening.kernel.state self.now.opened.opening.limit seat.old.number found seat.new.front)
            × OnErr result (IsRefused self.now.opened.opening.kernel.state self.now.opened.opening.limit seat.old.number found seat.new.front) }
        ensures added { (found : List ℕ) × IsPrefix seat.old.front found × Adds seat.old.number found seat.new.front }
        ensures learned { IfOk result (Learns seat.old seat.new) }
        ensures refused { OnErr result (LearnsOfOthers seat.old seat.new) }
    {
        let told = match self.take(rt, &mut seat.seat) {
            Ok(told) => told,
            Err(taken) => {
                seat.seen = taken;
                return Err(AllocError);
            }
        };
        match told {
            SharedTurn::Stepped(n) => {
                seat.seen = n;
                seat.mine += 1;
            }
            SharedTurn::Idle(n) | SharedTurn::AtLimit(n) => seat.seen = n,
        }
        Ok(told)
    }

    /// One use of the lock, in which a block is done on the processor of `seat`.
    fn act<B: Block>(&self, rt: &impl Wait, seat: &mut Seat<SharedRun>, call: &mut B) -> BlockDone
        requires own { IsCpuSeat self.now seat.old }
        requires fits { (h : List ℕ) → IsPrefix seat.old.front h → B.fits call.old seat.old.number (run self.now.opened.opening.kernel.state h) }
        ensures seat { seat.new ≡ record seat.old { front = seat.new.front } }
        ensures told { (found : List ℕ) × IsFrontOf seat.old.number seat.old.front found
            × (seat.new.front ≡ found ++ replicate result.taken seat.old.number) × (result.seen ≡ length found + result.taken) × (result.seen ≤ self.now.opened.opening.limit)
            × B.tells call.old seat.old.number (run self.now.opened.opening.kernel.state found) (self.now.opened.opening.limit - length found) call.new result.taken }
        ensures learned { LearnsOfBlock seat.old seat.new result.taken }
    {
        let mut blocking = Blocking {
            cpu: seat.number(),
            call,
        };
        self.lock.with(rt, seat, &mut blocking)
    }

    /// Does `call`, a block of turns of the processor of `seat`, in one use of the lock. The block takes as many turns as it likes, where it finds
    /// room for them, and their number is returned. It may be done on the processor after each order of turns that begins with the seat's front. The
    /// order of turns that it finds begins with the seat's front and has all turns that the seat ever took. The block may take as many turns as there
    /// may be after those of that order. The order that it leaves has these turns more, and is the seat's new front.
    ///
    /// It may wait for other processors; what it promises holds if it returns. It takes no memory but what the block takes.
    pub fn block<B: Block>(&self, rt: &impl Wait, seat: &mut CpuSeat, call: &mut B) -> u64
        requires own { IsCpuSeat self.now seat.old }
        requires fits { (h : List ℕ) → IsPrefix seat.old.front h → B.fits call.old seat.old.number (run self.now.opened.opening.kernel.state h) }
        ensures seat { seat.new ≡ record seat.old { front = seat.new.front } }
        ensures told { (found : List ℕ) × IsFrontOf seat.old.number seat.old.front found
            × (seat.new.front ≡ found ++ replicate result seat.old.number) × (length found + result ≤ self.now.opened.opening.limit)
            × B.tells call.old seat.old.number (run self.now.opened.opening.kernel.state found) (self.now.opened.opening.limit - length found) call.new result }
        ensures learned { LearnsOfBlock seat.old seat.new result }
    {
        let done = self.act(rt, &mut seat.seat, call);
        seat.seen = done.seen;
        seat.mine += done.taken;
        done.taken
    }

    /// One use of the lock, in which the processor of `seat` takes at most `most` turns.
    fn go(&self, rt: &impl Wait, seat: &mut Seat<SharedRun>, most: u64) -> BlockDone
        requires own { IsCpuSeat self.now seat.old }
        ensures seat { seat.new ≡ record seat.old { front = seat.new.front } }
        ensures told { (found : List ℕ) × IsFrontOf seat.old.number seat.old.front found
            × (seat.new.front ≡ found ++ replicate result.taken seat.old.number) × (result.seen ≡ length found + result.taken) × (result.seen ≤ self.now.opened.opening.limit)
            × (result.taken ≡ 0 → 0 < most → HasNone (run self.now.opened.opening.kernel.state found) (self.now.opened.opening.limit - length found) seat.old.number) }
        ensures most { result.taken ≤ most }
        ensures learned { LearnsOfBlock seat.old seat.new result.taken }
    {
        let mut call = Turns {
            cpu: seat.number(),
            most,
        };
        self.lock.with(rt, seat, &mut call)
    }

    /// Takes at most `most` turns of the processor of `seat` in one use of the lock, and returns how many: plain steps, and the turn behind them.
    /// Where there may be a turn, none is taken only where the processor is idle or memory is refused. The order of turns that it finds begins with
    /// the seat's front and has all turns that the seat ever took. The order that it leaves has these turns more, and is the seat's new front.
    ///
    /// It may wait for other processors; what it promises holds if it returns.
    pub fn turns(&self, rt: &impl Wait, seat: &mut CpuSeat, most: u64) -> u64
        requires own { IsCpuSeat self.now seat.old }
        ensures seat { seat.new ≡ record seat.old { front = seat.new.front } }
        ensures told { (found : List ℕ) × IsFrontOf seat.old.number seat.old.front found
            × (seat.new.front ≡ found ++ replicate result seat.old.number) × (length found + result ≤ self.now.opened.opening.limit)
            × (result ≡ 0 → 0 < most → HasNone (run self.now.opened.opening.kernel.state found) (self.now.opened.opening.limit - length found) seat.old.number) }
        ensures most { result ≤ most }
        ensures learned { LearnsOfBlock seat.old seat.new result }
    {
        let done = self.go(rt, &mut seat.seat, most);
        seat.seen = done.seen;
        seat.mine += done.taken;
        done.taken
    }

    /// The run that `seats` came to, all seats of this kernel in the order of their processors. Each seat's front begins the order of turns, which
    /// has no more turns of its processor. Order, trace and console log have room for the turns up to `limit`. It takes no memory and doesn't wait.
    pub fn finish(self, seats: Vec<CpuSeat>) -> Finished
        requires seats { AreCpuSeats self seats.items }
        ensures finished { IsFinished self.opened.opening.kernel.state (turns result.order.blocks) self.opened.opening.limit result }
        ensures no_idle { IsFreeOfIdle self.opened.opening.kernel.state (turns result.order.blocks) }
        ensures ready { IsReady result }
        ensures room { HasRoom result }
        ensures fronts { (i : ℕ) (d : SeatView Ran) → i < self.seats → IsFrontOf i (slice_index_or seats.items i d).front (turns result.order.blocks) }
        ensures counts { (i : ℕ) (d : SeatView Ran) → i < self.seats → entries i (turns result.order.blocks) ≡ mine (slice_index_or seats.items i d) }
        ensures processors { AllByRecursion (λ cpu. cpu < self.opened.opening.kernel.state.cpus) (turns result.order.blocks) }
    {
        let Shared { lock } = self;
        let value = lock.close(bare(seats));
        value.into_run()
    }
}

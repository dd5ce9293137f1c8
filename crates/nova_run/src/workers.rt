ghost use Rattle.std.specs.Prelude.{◌≡◌, ◌+◌, ◌^◌, ◌<◌, ◌≤◌, ℕ, length, slice_index_or, All, IfSome, IfOk, IfErr};
ghost use Rattle.std.specs.List.{AllByRecursion};
ghost use Rattle.law_turns.specs.Orders.{IsRunOut};
ghost use Rattle.nova_lock.specs.Seats.{SeatView};
ghost use Rattle.nova_order.specs.Blocks.{turns};
ghost use Rattle.nova_finished.specs.declared.fault.RunFault.TheVariants.{Memory};
ghost use Rattle.nova_finished.specs.Finished.{IsFinished};
ghost use Rattle.nova_finished.specs.UnderWay.{IsReady};
ghost use Rattle.nova_model.specs.Runs.{IsFreeOfIdle};
ghost use Rattle.nova_shared.specs.Ran.{Ran, IsCpuSeat, AreCpuSeats};

use crate::bursts::burst;
use crate::crew::Crew;
use crate::gate::{Gate, call, take, take_one};
use nova_finished::{Finished, RunFault};
use nova_kernel::{Kernel, let_go};
use nova_rounds::{kept, run_all};
use nova_shared::{CpuSeat, Shared, SharedTurn};
use std::alloc::Global;
use std::sync::Wait;
use std::thread;
use std::thread::Threads;

/// How many turns a worker takes in the first round, which ends with the step in which one took the last, and how many in each later one. A burst has
/// as many instructions at most, or `FIRST_TURNS` after a step of one turn, and then `GROWTH` times as many with each burst.
const FIRST_TURNS: u64 = 4096;

const MOST_TURNS: u64 = 4_194_304;

const GROWTH: u64 = 16;

/// How often a worker looks again at an idle processor in one round.
const LOOKS: u64 = 8192;

/// How long the pauses between the steps of a worker are in all in the first round, so that short runs come in many orders; and what each counts for
/// beside its length.
const PAUSES: u64 = 65_536;

const SHORTEST: u64 = 64;

/// How much longer a pause between looks is at most with each of them, and how much with all.
const LONGER: u64 = 8;

const LONGEST: u64 = 2048;

/// How much a worker takes in a step: instructions of a burst, and else turns in one use of the kernel.
#[derive(Clone, Copy)]
struct Most {
    burst: u64,
    turns: u64,
}

/// How many turns a step was, and whether it was a burst.
#[derive(Clone, Copy)]
struct Taken {
    turns: u64,
    by_burst: bool,
}

/// Takes one step of a worker: a burst, or where that came to nothing plain steps and the turn behind them. It tells how many turns were taken; none
/// where the processor is idle, there are as many turns as there may be, or memory is refused.
fn step<R: Wait, G: Gate>(
    rt: &R,
    alloc: Global,
    shared: &Shared,
    gate: &G,
    crew: &Crew,
    seat: &mut CpuSeat,
    most: Most,
) -> Option<Taken>
    requires { IsCpuSeat shared.now seat.old }
    ensures seat { seat.new ≡ record seat.old { front = seat.new.front } }
    ensures some { IfSome result (λ t. 0 < t.turns) }
{
    call(gate, seat);
    let turns = burst(rt, alloc, shared, gate, seat, crew, most.burst);
    if turns > 0 {
        return Some(Taken {
            turns,
            by_burst: true,
        });
    }
    let turns = take(rt, shared, gate, seat, most.turns);
    if turns == 0 {
        return None;
    }
    Some(Taken {
        turns,
        by_burst: false,
    })
}

/// Looks again at a processor that was idle, and says whether it took a turn; or none where it is not to be looked at again.
fn look<R: Wait, G: Gate>(rt: &R, shared: &Shared, gate: &G, seat: &mut CpuSeat) -> Option<bool>
    requires { IsCpuSeat shared.now seat.old }
    ensures { seat.new ≡ record seat.old { front = seat.new.front } }
{
    call(gate, seat);
    match take_one(rt, shared, gate, seat) {
        Ok(SharedTurn::Stepped(_)) => Some(true),
        Ok(SharedTurn::Idle(_)) => Some(false),
        Ok(SharedTurn::AtLimit(_)) | Err(_) => None,
    }
}

/// Looks again and again at an idle processor, with pauses that grow, while other workers of the round have something to do and the round isn't over.
/// It says whether it took a turn at last.
fn wake<R: Wait, G: Gate>(
    rt: &R,
    shared: &Shared,
    gate: &G,
    crew: &Crew,
    seat: &mut CpuSeat,
) -> bool
    requires { IsCpuSeat shared.now seat.old }
    ensures { seat.new ≡ record seat.old { front = seat.new.front } }
{
    for looks in 0..LOOKS {
        let last = crew.rests() || crew.is_over();
        match look(rt, shared, gate, seat) {
            Some(true) => return true,
            Some(false) if !last => {
                crew.pause(SHORTEST.saturating_add((looks * LONGER).min(LONGEST)));
            }
            Some(false) | None => return false,
        }
    }
    false
}

/// Takes a step of a worker, or where its processor is idle the turn that wakes it at last. It tells how many turns were taken, none where the worker
/// ends, as it does where the round is over.
fn go<R: Wait, G: Gate>(
    rt: &R,
    alloc: Global,
    shared: &Shared,
    gate: &G,
    crew: &Crew,
    seat: &mut CpuSeat,
    most: Most,
) -> Option<Taken>
    requires { IsCpuSeat shared.now seat.old }
    ensures seat { seat.new ≡ record seat.old { front = seat.new.front } }
    ensures some { IfSome result (λ t. 0 < t.turns) }
{
    if crew.is_over() {
        crew.rest();
        return None;
    }
    let taken = step(rt, alloc, shared, gate, crew, seat, most);
    if taken.is_some() {
        return taken;
    }
    crew.rest();
    if !wake(rt, shared, gate, crew, seat) {
        return None;
    }
    crew.resume();
    Some(Taken {
        turns: 1,
        by_burst: false,
    })
}

/// How many instructions the next burst has at most, after the step `taken`: `GROWTH` times `most`, up to `turns`, those of the round, where it was a
/// burst.
fn longer(most: u64, taken: Taken, turns: u64) -> u64 {
    if taken.by_burst {
        most.saturating_mul(GROWTH).min(turns)
    } else {
        FIRST_TURNS
    }
}

/// One worker's steps in a round, once all others have begun: until its processor is idle and no other worker has anything to do, there are as many
/// turns as there may be, memory is refused, or a worker took `turns` turns.
fn work<R: Wait, G: Gate>(
    rt: &R,
    alloc: Global,
    shared: &Shared,
    gate: &G,
    crew: &Crew,
    turns: u64,
    seat: &mut CpuSeat,
)
    requires { IsCpuSeat shared.now seat.old }
    ensures { seat.new ≡ record seat.old { front = seat.new.front } }
{
    crew.meet();
    let is_first = turns <= FIRST_TURNS;
    if is_first {
        crew.mingle();
    }
    let mut left = turns;
    let mut burst = turns;
    let mut pauses = if is_first { PAUSES } else { 0 };
    while left > 0 {
        if pauses > 0 {
            pauses = pauses
                .saturating_sub(SHORTEST)
                .saturating_sub(crew.pause(crew.pace()));
        }
        let most = Most {
            burst,
            turns: crew.portion(seat.seen()),
        };
        let Some(taken) = go(rt, alloc, shared, gate, crew, seat, most) else {
            return;
        };
        left = left.saturating_sub(taken.turns);
        burst = longer(burst, taken, turns);
    }
    crew.end();
    crew.rest();
}

/// A round: each processor has a worker, in a thread of its own, until one of them took `turns` turns, with those of its last step.
fn round<R: Threads + Wait + Sync, G: Gate + Sync>(
    rt: &R,
    alloc: Global,
    shared: &Shared,
    gate: &G,
    turns: u64,
    seats: &mut [CpuSeat],
)
    requires own { All (λ s. IsCpuSeat shared.now s) seats.old }
    requires some { 0 < length seats.old }
    ensures len { length seats.new ≡ length seats.old }
    ensures each { (i : ℕ) (d : SeatView Ran) → i < length seats.old → slice_index_or seats.new i d ≡ record (slice_index_or seats.old i d) { front = (slice_index_or seats.new i d).front } }
{
    let threads = seats.len();
    let crew = Crew::new(threads as u64);
    let crew = &crew;
    thread::for_each_mut(
        rt,
        seats,
        threads,
        &|_, seat| { work(rt, alloc, shared, gate, crew, turns, seat) },
    );
}

/// Takes a sweep, one turn of each processor in rising number where it is not idle, and says whether another round follows. It does not where no turn
/// was taken, where there are as many as there may be, or where memory was refused.
fn sweep<R: Wait>(rt: &R, shared: &Shared, seats: &mut [CpuSeat]) -> bool
    requires own { All (λ s. IsCpuSeat shared.now s) seats.old }
    ensures len { length seats.new ≡ length seats.old }
    ensures each { (i : ℕ) (d : SeatView Ran) → i < length seats.old → slice_index_or seats.new i d ≡ record (slice_index_or seats.old i d) { front = (slice_index_or seats.new i d).front } }
{
    let mut taken = false;
    for i in 0..seats.len() {
        match shared.turn(rt, &mut seats[i]) {
            Ok(SharedTurn::Stepped(_)) => taken = true,
            Ok(SharedTurn::Idle(_)) => {}
            Ok(SharedTurn::AtLimit(_)) | Err(_) => return false,
        }
    }
    taken
}

/// Takes a sweep, and a round after it unless it was the last, and says whether another sweep follows.
#[tactic(auto, using(crate::proofs::Seated::each_there, crate::proofs::Seated::still_seats))]
fn go_on<R: Threads + Wait + Sync, G: Gate + Sync>(
    rt: &R,
    alloc: Global,
    shared: &Shared,
    gate: &G,
    turns: u64,
    seats: &mut [CpuSeat],
) -> bool
    requires seats { AreCpuSeats shared.now seats.old }
    ensures seats { AreCpuSeats shared.now seats.new }
{
    if !sweep(rt, shared, seats) {
        return false;
    }
    round(rt, alloc, shared, gate, turns, seats);
    true
}

/// Takes sweeps and rounds until a sweep was the last, but at most `limit + 1` sweeps.
fn work_together<R: Threads + Wait + Sync, G: Gate + Sync>(
    rt: &R,
    alloc: Global,
    shared: &Shared,
    gate: &G,
    limit: u64,
    seats: &mut [CpuSeat],
)
    requires limit { limit ≤ 2 ^ 31 }
    requires seats { AreCpuSeats shared.now seats.old }
    ensures seats { AreCpuSeats shared.now seats.new }
{
    let mut turns = FIRST_TURNS;
    for _sweep in 0..limit + 1 {
        if !go_on(rt, alloc, shared, gate, turns, seats) {
            return;
        }
        turns = MOST_TURNS;
    }
}

/// What the workers make of `kernel`. The only error is `Memory`, where memory is refused. It may wait.
fn share<R: Threads + Wait + Sync, G: Gate + Sync>(
    rt: &R,
    alloc: Global,
    kernel: Kernel,
    limit: u64,
    gate: &G,
) -> Result<Finished, RunFault>
    requires cpus { 0 < kernel.state.cpus }
    requires room { limit ≤ kernel.room }
    requires turns { kernel.state.turns + limit ≤ 2 ^ 31 }
    ensures finished { IfOk result (λ run. IsFinished kernel.state (turns run.order.blocks) limit run) }
    ensures no_idle { IfOk result (λ run. IsFreeOfIdle kernel.state (turns run.order.blocks)) }
    ensures ready { IfOk result (λ run. IsReady run) }
    ensures processors { IfOk result (λ run. AllByRecursion (λ cpu. cpu < kernel.state.cpus) (turns run.order.blocks)) }
    ensures memory { IfErr result (λ fault. fault ≡ Memory) }
{
    let (shared, mut seats) = match Shared::new(alloc, kernel, limit) {
        Ok(made) => made,
        Err((kernel, _)) => {
            let_go(kernel);
            return Err(RunFault::Memory);
        }
    };
    work_together(rt, alloc, &shared, gate, limit, seats.as_mut_slice());
    Ok(shared.finish(seats))
}

/// Runs `kernel` with a thread for each of its processors, of which there is one or more, for at most `limit` turns. The kernel has room in its log
/// for as many. Sweeps (one turn of each processor that is not idle) alternate with rounds, until a sweep takes no turn or there are `limit` turns.
/// The workers of a round begin together. Each takes steps until one of them took 4,096 turns, in later rounds 4,194,304; while its processor is idle
/// it looks again and again, some thousand times at most, until no other worker has anything to do. A step is a burst where a virtual CPU acts, can
/// be leased, and has 256 turns of its quantum left, or 4,096 where there is one worker: instructions up to the end of its quantum, and no more than
/// its worker's share of the turns that may follow and are promised to no other burst. They run on copies of up to 16 frames beside the other
/// processors, and then count as that many turns. Otherwise, or if the burst commits nothing, a step is up to 4,096 turns, plain steps and the turn
/// behind them; where there are several workers at most an unpredictable number, few in the beginning. Before each step and each look the worker
/// calls the gate, with the processor and how many turns of it there were.
///
/// Whatever the workers did, there is one order of turns, and what comes is the run over it. It ends quiet or has `limit` turns. The only error is
/// `Memory`, where memory is refused. It may wait; what it promises holds if it returns.
pub fn run_workers<R: Threads + Wait + Sync, G: Gate + Sync>(
    rt: &R,
    alloc: Global,
    kernel: Kernel,
    limit: u64,
    gate: &G,
) -> Result<Finished, RunFault>
    requires cpus { 0 < kernel.state.cpus }
    requires room { limit ≤ kernel.room }
    requires turns { kernel.state.turns + limit ≤ 2 ^ 31 }
    ensures finished { IfOk result (λ run. IsFinished kernel.state (turns run.order.blocks) limit run) }
    ensures out { IfOk result (λ run. IsRunOut kernel.state limit (turns run.order.blocks)) }
    ensures memory { IfErr result (λ fault. fault ≡ Memory) }
{
    let mut run = share(rt, alloc, kernel, limit, gate)?;
    let went = run_all(&mut run);
    kept(run, went)
}

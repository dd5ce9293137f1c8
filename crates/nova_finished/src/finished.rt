ghost use Rattle.std.specs.Prelude.{◌≡◌, ◌+◌, ◌^◌, ◌<◌, ◌≤◌, ℕ, replicate, ◌++◌, [], length, is_some, false, IsOk, IfOk, IfErr, OnOk, OnErr};
ghost use Rattle.nova_model.specs.Choice.{choice};
ghost use Rattle.nova_model.specs.Runs.{run, trace};
ghost use Rattle.nova_model.specs.State.{KernelState};
ghost use Rattle.nova_finished.specs.Steps.{ArePlainSteps, last_events, repeated};
ghost use Rattle.nova_kernel.specs.Rides.{last_turns};
ghost use Rattle.nova_kernel.specs.Views.{IsMaking};
ghost use Rattle.nova_model.specs.Turn.{turn};
ghost use Rattle.nova_order.specs.Blocks.{turns, total};
ghost use Rattle.nova_finished.specs.Finished.{IsFinished};
ghost use Rattle.nova_finished.specs.UnderWay.{HasRoom, IsGone, IsReady, Passed, left, taken};

use nova_kernel::{Event, Kernel, StepsTaken, Turn, TurnsTaken, let_go};
use nova_order::Order;
use nova_trace::Trace;
use std::alloc::{AllocError, Global};

/// What is done in one use of the lock that takes turns of one processor by itself.
pub trait Block {
    /// Whether it may be done on this processor of a kernel in this state.
    ghost fits: { Self → ℕ → KernelState → Type 0 };

    /// What it tells of the block before, the processor, the state that it found, how many turns it might take, the block after, and the
    /// answer.
    ghost tells: { Self → ℕ → KernelState → ℕ → Self → ℕ → Type 0 };

    /// Takes at most `left` turns of the processor `cpu`, which is there, and answers how many it took. Each is a plain step of the execution context
    /// that acts on the processor before, paid by the scheduling context that is chosen there before. The kernel has room in its log for `left`
    /// turns, and each turn takes at most one place of it.
    fn act(&mut self, kernel: &mut Kernel, cpu: u32, left: u64) -> u64
        requires cpu { cpu < kernel.old.state.cpus }
        requires fits { fits self.old cpu kernel.old.state }
        requires room { left ≤ kernel.old.room }
        requires turns { kernel.old.state.turns + left ≤ 2 ^ 31 }
        ensures tells { tells self.old cpu kernel.old.state left self.new result }
        ensures most { result ≤ left }
        ensures room { kernel.old.room ≤ kernel.new.room + result }
        ensures state { kernel.new.state ≡ run kernel.old.state (replicate result cpu) }
        ensures steps { ArePlainSteps (choice kernel.old.state cpu) cpu result (trace kernel.old.state (replicate result cpu)) };
}

/// A run of a kernel under way: its opening, and what came of the turns that were taken.
#[derive(Drop)]
pub struct Finished {
    /// The kernel as it was at the beginning.
    pub opening: Kernel,

    /// The kernel after the turns that were taken.
    pub kernel: Kernel,

    /// The turns that were taken, in order.
    pub order: Order,

    /// The event of each turn, in order.
    pub trace: Trace,

    /// How many turns there may be.
    pub limit: u64,
}

/// Enters `steps`, plain steps that were taken at once. There are places for their events.
#[inline(always)]
fn enter_steps(trace: &mut Trace, steps: StepsTaken)
    requires places { length trace.old.items + steps.count ≤ trace.old.capacity }
    ensures items { trace.new.items ≡ trace.old.items ++ repeated steps.event steps.count }
    ensures places { trace.new.capacity ≡ trace.old.capacity }
{
    if let Some(event) = steps.event
        && steps.count > 0
    {
        trace.add(event, steps.count);
    }
}

/// An event, by its fields: what lies between them is not copied.
#[inline(always)]
fn by_fields(event: Event) -> Event
    ensures { result ≡ event }
{
    Event {
        cpu: event.cpu,
        sc: event.sc,
        ec: event.ec,
        kind: event.kind,
        a: event.a,
        b: event.b,
    }
}

/// Enters `last`, the turn that came after them, if one was tried, and returns how many turns it is. There is a place for its event.
#[inline(always)]
fn enter_last(trace: &mut Trace, last: Option<Result<Turn, AllocError>>) -> u64
    requires places { length trace.old.items + last_turns last ≤ trace.old.capacity }
    ensures turns { result ≡ last_turns last }
    ensures items { trace.new.items ≡ trace.old.items ++ last_events last }
    ensures places { trace.new.capacity ≡ trace.old.capacity }
{
    match last {
        Some(Ok(Turn::Stepped(event))) => {
            trace.add(by_fields(event), 1);
            1
        }
        Some(Ok(Turn::Idle)) | Some(Err(_)) | None => 0,
    }
}

impl Finished {
    /// Drops the run, its kernels by `nova_kernel::let_go`.
    pub fn let_go(self) {
        let Finished {
            opening,
            kernel,
            order: _order,
            trace: _trace,
            limit: _,
        } = self;
        let_go(opening);
        let_go(kernel);
    }

    /// A run of at most `limit` turns that has taken none, with room for `blocks` blocks of its order and for `events` events. Where memory runs out,
    /// it gives the kernel back.
    pub fn begin(
        alloc: Global,
        kernel: Kernel,
        limit: u64,
        blocks: u64,
        events: u64,
    ) -> Result<Finished, Kernel>
        requires room { limit ≤ kernel.room }
        requires turns { kernel.state.turns + limit ≤ 2 ^ 31 }
        ensures finished { IfOk result (IsFinished kernel.state [] limit) }
        ensures kernel { IfOk result (λ run. run.kernel ≡ kernel) }
        ensures ready { IfOk result (λ run. IsReady run) }
        ensures room { IfOk result (λ run. (blocks ≤ run.order.spare) × (events ≤ run.trace.capacity)) }
        ensures err { IfErr result (λ given. given ≡ kernel) }
    {
        let mut order = Order::new(alloc);
        let Ok(()) = order.reserve(blocks as usize) else {
            return Err(kernel);
        };
        let Ok(trace) = Trace::with_capacity(alloc, events as usize) else {
            return Err(kernel);
        };
        let Ok(opening) = kernel.copy() else {
            return Err(kernel);
        };
        Ok(Finished {
            opening,
            kernel,
            order,
            trace,
            limit,
        })
    }

    /// One turn of the processor `cpu`, and whether it was taken: it is not where the processor is idle. There is a place for its event. Where the
    /// order has room for as many turns as there may be, memory can run out only in a turn that makes an object or a derivation, and then the run is
    /// as before.
    #[inline(always)]
    pub fn turn(&mut self, cpu: u32) -> Result<bool, AllocError>
        requires ready { IsReady self.old }
        requires more { length self.old.trace.items < self.old.limit }
        requires place { length self.old.trace.items < self.old.trace.capacity }
        requires cpu { cpu < self.old.kernel.state.cpus }
        ensures took { IfOk result (λ took. took ≡ is_some (turn self.old.kernel.state cpu)) }
        ensures passed { OnOk result (Passed self.old (taken self.old.kernel.state cpu) self.new) }
        ensures places { self.new.trace.capacity ≡ self.old.trace.capacity }
        ensures room { HasRoom self.old → OnOk result (HasRoom self.new) }
        ensures memory { HasRoom self.old → OnErr result (self.new ≡ self.old) }
        ensures making { HasRoom self.old → OnErr result (IsMaking self.old.kernel.state cpu) }
    {
        match self.kernel.turn(cpu)? {
            Turn::Stepped(event) => {
                self.trace.add(event, 1);
                self.order.extend(cpu, 1)?;
                Ok(true)
            }
            Turn::Idle => Ok(false),
        }
    }

    /// Enters `taken`, the turns of the processor `cpu` that its kernel took in one call, and returns how many they are. There are places for their
    /// events. Memory can run out only where the order has no room for a block.
    #[inline(always)]
    fn enter(&mut self, cpu: u32, taken: &TurnsTaken) -> Result<u64, AllocError>
        requires places { length self.old.trace.items + (taken.now.steps.count + last_turns taken.now.last) ≤ self.old.trace.capacity }
        requires order { total self.old.order.blocks ≡ length self.old.trace.items }
        requires more { length self.old.trace.items + (taken.now.steps.count + last_turns taken.now.last) ≤ self.old.limit }
        ensures turns { IfOk result (λ n. n ≡ taken.now.steps.count + last_turns taken.now.last) }
        ensures same { (self.new.opening ≡ self.old.opening) × (self.new.kernel ≡ self.old.kernel) × (self.new.limit ≡ self.old.limit) }
        ensures order { IfOk result (λ n. turns self.new.order.blocks ≡ turns self.old.order.blocks ++ replicate n cpu) }
        ensures sum { IfOk result (λ n. total self.new.order.blocks ≡ total self.old.order.blocks + n) }
        ensures trace { OnOk result (self.new.trace.items ≡ (self.old.trace.items ++ repeated taken.now.steps.event taken.now.steps.count) ++ last_events taken.now.last) }
        ensures places { self.new.trace.capacity ≡ self.old.trace.capacity }
        ensures spare { IfOk result (λ n. self.old.order.spare ≤ self.new.order.spare + n) }
        ensures room { taken.now.steps.count + last_turns taken.now.last ≤ self.old.order.spare → IsOk result }
    {
        let _limit = self.limit;
        enter_steps(&mut self.trace, taken.steps);
        let count = taken.steps.count + enter_last(&mut self.trace, taken.last);
        if count > 0 {
            self.order.extend(cpu, count)?;
        }
        Ok(count)
    }

    /// Takes at most `most` turns of the processor `cpu` in one call of its kernel, and returns how many. Where there may be one, none is taken only
    /// where the processor is idle. There are places for their events. Where memory is refused and the order has room for as many turns as there may
    /// be, it returns how many were taken before, which are entered; and that comes only in a turn that makes an object or a derivation.
    #[inline(always)]
    pub fn go(&mut self, cpu: u32, most: u64) -> Result<u64, u64>
        requires ready { IsReady self.old }
        requires more { length self.old.trace.items + most ≤ self.old.limit }
        requires places { length self.old.trace.items + most ≤ self.old.trace.capacity }
        requires cpu { cpu < self.old.kernel.state.cpus }
        ensures gone { IfOk result (λ n. IsGone self.old cpu most n self.new) }
        ensures idle { IfOk result (λ n. n ≡ 0 → 0 < most → is_some (turn self.old.kernel.state cpu) ≡ false) }
        ensures places { self.new.trace.capacity ≡ self.old.trace.capacity }
        ensures room { HasRoom self.old → HasRoom self.new }
        ensures memory { HasRoom self.old → IfErr result (λ n. IsGone self.old cpu most n self.new) }
        ensures making { HasRoom self.old → OnErr result (IsMaking self.new.kernel.state cpu) }
    {
        if most == 0 {
            return Ok(0);
        }
        let taken = self.kernel.take_turns(cpu, most);
        let Ok(count) = self.enter(cpu, &taken) else {
            return Err(0);
        };
        match taken.last {
            Some(Err(_)) => Err(count),
            _ => Ok(count),
        }
    }

    /// Does `call`, a block of turns of the processor `cpu`, in the room that was made for them, and returns how many they are.
    pub fn block<B: Block>(&mut self, cpu: u32, call: &mut B) -> u64
        requires ready { IsReady self.old }
        requires room { HasRoom self.old }
        requires cpu { cpu < self.old.kernel.state.cpus }
        requires fits { B.fits call.old cpu self.old.kernel.state }
        ensures tells { B.tells call.old cpu self.old.kernel.state (left self.old) call.new result }
        ensures gone { IsGone self.old cpu (left self.old) result self.new }
        ensures room { HasRoom self.new }
    {
        let event = self.kernel.plain_step(cpu);
        let left = self.limit - self.trace.len();
        let count = call.act(&mut self.kernel, cpu, left);
        let steps = StepsTaken { event, count };
        let Ok(_) = self.enter(cpu, &TurnsTaken { steps, last: None }) else {
            unreachable!()
        };
        count
    }
}

ghost use Rattle.std.specs.Prelude.{◌≡◌, ◌<◌, length, IfOk, IfErr, ◌+◌, ◌-◌, ◌%◌, ◌^◌, ◌≤◌, ◌++◌, [], replicate};
ghost use Rattle.nova_shared.specs.Told.{IsTold, IsRefused, HasNone};
ghost use Rattle.nova_model.specs.Runs.{run};
ghost use Rattle.nova_order.specs.Blocks.{turns};
ghost use Rattle.nova_shared.specs.Runs.{IsSharedRun};
ghost use Rattle.nova_finished.specs.UnderWay.{HasRoom, IsGone, IsReady};

use nova_finished::{Block, Finished};
use nova_kernel::{Kernel, let_go};
use nova_lock::{Historied, LockCall};
use std::marker::Model;

/// What came of a turn of a shared kernel.
#[derive(Clone, Copy, Debug, PartialEq, Eq)]
pub enum SharedTurn {
    /// It was taken, and this is its place in the order of all turns, counted from 1.
    Stepped(u64),

    /// The processor is idle, after this many turns of all processors.
    Idle(u64),

    /// The run is at its limit; holds the number of turns of all processors.
    AtLimit(u64),
}

/// A use of the lock in which a processor takes a turn.
#[derive(Clone, Copy)]
pub struct OneTurn {
    pub cpu: u32,
}

impl LockCall<SharedRun> for OneTurn {
    ghost use Rattle.std.specs.Prelude.{◌≡◌, ◌<◌, length, IfOk, IfErr};
    ghost use Rattle.nova_shared.specs.Told.{IsTold, IsRefused};

    type Out = Result<SharedTurn, u64>;

    ghost number = { λ t. t.cpu };

    ghost ready = { λ t o h. t.cpu < o.kernel.state.cpus };

    ghost did = { λ o t found left next out. IfOk out (IsTold o.kernel.state o.limit t.cpu found left)
        × IfErr out (λ taken. (taken ≡ length found) × IsRefused o.kernel.state o.limit t.cpu found left) };

    fn act(&mut self, value: &mut SharedRun) -> Result<SharedTurn, u64> {
        let out = value.turn(self.cpu);
        value.count();
        out
    }
}

/// A use of the lock in which a processor takes at most `most` turns: plain steps, and the turn behind them.
#[derive(Clone, Copy)]
pub struct Turns {
    pub cpu: u32,
    pub most: u64,
}

impl LockCall<SharedRun> for Turns {
    ghost use Rattle.std.specs.Prelude.{◌≡◌, ◌+◌, ◌-◌, ◌<◌, ◌≤◌, ◌++◌, length, replicate};
    ghost use Rattle.nova_model.specs.Runs.{run};
    ghost use Rattle.nova_shared.specs.Told.{HasNone};

    type Out = BlockDone;

    ghost number = { λ t. t.cpu };

    ghost ready = { λ t o h. t.cpu < o.kernel.state.cpus };

    ghost did = { λ o t found left next out. (left ≡ found ++ replicate out.taken t.cpu) × (out.seen ≡ length found + out.taken) × (out.seen ≤ o.limit)
        × (out.taken ≤ t.most) × (out.taken ≡ 0 → 0 < t.most → HasNone (run o.kernel.state found) (o.limit - length found) t.cpu) };

    fn act(&mut self, value: &mut SharedRun) -> BlockDone {
        let out = value.turns(self.cpu, self.most);
        value.count();
        out
    }
}

/// What a block did in one use of the lock: how many turns it took, and how many turns of all processors there were after it.
#[derive(Clone, Copy)]
pub struct BlockDone {
    pub taken: u64,
    pub seen: u64,
}

/// A use of the lock in which a block is done on a processor.
#[derive(Drop)]
pub struct Blocking<'a, B: Block> {
    pub cpu: u32,
    pub call: &'a mut B,
}

impl<'a, B: Block> LockCall<SharedRun> for Blocking<'a, B> {
    ghost use Rattle.std.specs.Prelude.{◌≡◌, ◌+◌, ◌-◌, ◌<◌, ◌≤◌, ◌++◌, length, replicate};
    ghost use Rattle.nova_model.specs.Runs.{run};

    type Out = BlockDone;

    ghost number = { λ b. b.cpu };

    ghost ready = { λ b o h. (b.cpu < o.kernel.state.cpus) × B.fits b.call.now b.cpu (run o.kernel.state h) };

    ghost did = { λ o b found left next out. (left ≡ found ++ replicate out.taken b.cpu) × (out.seen ≡ length found + out.taken) × (out.seen ≤ o.limit)
        × B.tells b.call.now b.cpu (run o.kernel.state found) (o.limit - length found) next.call.now out.taken
        × (next.call.ghost_name ≡ b.call.ghost_name) };

    fn act(&mut self, value: &mut SharedRun) -> BlockDone {
        let done = value.block(self.cpu, self.call);
        value.count();
        done
    }
}

/// A run that is on its way, behind the lock. Its kernel is the run of its opening over its order, its trace is that run's, no turn of the
/// order is idle, and there is room for as many turns as there may be.
pub struct SharedRun {
    run: Finished,
    uses: u64,
}

/// What a run begins with. No value of it is made.
pub struct Opening {
    /// The kernel at the beginning.
    pub kernel: Kernel,

    /// How many turns there may be.
    pub limit: u64,
}

impl Model for SharedRun {
    ghost use Rattle.nova_order.specs.Blocks.{turns};
    ghost use Rattle.nova_shared.specs.Ran.{Ran};
    ghost use Rattle.nova_shared.specs.Runs.{IsSharedRun};

    ghost Value = { Ran };

    ghost view = { λ r. record { opening = record { kernel = r.run.opening; limit = r.run.limit }; kernel = r.run.kernel; order = turns r.run.order.blocks; uses = r.uses } };

    ghost invariant = { λ r. IsSharedRun r.run };
}

impl Historied for SharedRun {
    type Opening = Opening;

    ghost opening = { λ r. r.opening };

    ghost history = { λ r. r.order };

    ghost uses = { λ r. r.uses };

    fn blocks(&self) -> u64 {
        self.uses
    }
}

/// Takes at most `most` turns of the processor `cpu` by a run that is shared, and returns how many: those before memory was refused, where it was.
fn take(run: &mut Finished, cpu: u32, most: u64) -> u64
    requires ready { IsReady run.old }
    requires room { HasRoom run.old }
    requires more { length run.old.trace.items + most ≤ run.old.limit }
    requires cpu { cpu < run.old.kernel.state.cpus }
    ensures gone { IsGone run.old cpu most result run.new }
    ensures room { HasRoom run.new }
    ensures none { result ≡ 0 → HasNone run.old.kernel.state most cpu }
{
    match run.go(cpu, most) {
        Ok(taken) => taken,
        Err(taken) => taken,
    }
}

impl SharedRun {
    /// A run that is on its way.
    pub(crate) fn new(run: Finished) -> SharedRun
        requires { IsSharedRun run }
        ensures { result ≡ record { opening = record { kernel = run.opening; limit = run.limit }; kernel = run.kernel; order = turns run.order.blocks; uses = 0 } }
    {
        SharedRun { run, uses: 0 }
    }

    /// One turn of the processor `cpu`, or what it found instead. Where memory is refused it tells how many turns were taken.
    pub(crate) fn turn(&mut self, cpu: u32) -> Result<SharedTurn, u64>
        requires cpu { cpu < self.old.opening.kernel.state.cpus }
        ensures same { (self.new.opening ≡ self.old.opening) × (self.new.uses ≡ self.old.uses) }
        ensures told { IfOk result (IsTold self.old.opening.kernel.state self.old.opening.limit cpu self.old.order self.new.order) }
        ensures memory { IfErr result (λ taken. (taken ≡ length self.old.order) × IsRefused self.old.opening.kernel.state self.old.opening.limit cpu self.old.order self.new.order) }
    {
        let taken = self.run.trace.len();
        if taken == self.run.limit {
            return Ok(SharedTurn::AtLimit(taken));
        }
        let Ok(took) = self.run.turn(cpu) else {
            return Err(taken);
        };
        if !took {
            return Ok(SharedTurn::Idle(taken));
        }
        Ok(SharedTurn::Stepped(taken + 1))
    }

    /// Takes as many turns of the processor `cpu` as `call`, a block, takes.
    pub(crate) fn block<B: Block>(&mut self, cpu: u32, call: &mut B) -> BlockDone
        requires cpu { cpu < self.old.opening.kernel.state.cpus }
        requires fits { B.fits call.old cpu (run self.old.opening.kernel.state self.old.order) }
        ensures same { (self.new.opening ≡ self.old.opening) × (self.new.uses ≡ self.old.uses) }
        ensures order { self.new.order ≡ self.old.order ++ replicate result.taken cpu }
        ensures seen { (result.seen ≡ length self.old.order + result.taken) × (result.seen ≤ self.old.opening.limit) }
        ensures tells { B.tells call.old cpu (run self.old.opening.kernel.state self.old.order) (self.old.opening.limit - length self.old.order) call.new result.taken }
    {
        let taken = self.run.block(cpu, call);
        BlockDone {
            taken,
            seen: self.run.trace.len(),
        }
    }

    /// Takes at most `most` turns of the processor `cpu`: plain steps, and the turn behind them. Where there may be a turn, none is taken only where
    /// the processor is idle or memory is refused.
    pub(crate) fn turns(&mut self, cpu: u32, most: u64) -> BlockDone
        requires cpu { cpu < self.old.opening.kernel.state.cpus }
        ensures same { (self.new.opening ≡ self.old.opening) × (self.new.uses ≡ self.old.uses) }
        ensures order { self.new.order ≡ self.old.order ++ replicate result.taken cpu }
        ensures seen { (result.seen ≡ length self.old.order + result.taken) × (result.seen ≤ self.old.opening.limit) }
        ensures most { result.taken ≤ most }
        ensures none { result.taken ≡ 0 → 0 < most → HasNone (run self.old.opening.kernel.state self.old.order) (self.old.opening.limit - length self.old.order) cpu }
    {
        let left = self.run.limit - self.run.trace.len();
        let taken = take(&mut self.run, cpu, most.min(left));
        BlockDone {
            taken,
            seen: self.run.trace.len(),
        }
    }

    /// Counts a use.
    pub(crate) fn count(&mut self)
        ensures { self.new ≡ record self.old { uses = (self.old.uses + 1) % 2 ^ 64 } }
    {
        self.uses = self.uses.wrapping_add(1);
    }

    /// The kernel as it is.
    pub(crate) fn into_kernel(self) -> Kernel
        ensures { result ≡ self.kernel }
    {
        let Finished {
            opening,
            kernel,
            order: _order,
            trace: _trace,
            limit: _,
        } = self.into_run();
        let_go(opening);
        kernel
    }

    /// The run as it is.
    pub(crate) fn into_run(self) -> Finished
        ensures opening { (result.opening ≡ self.opening.kernel) × (result.limit ≡ self.opening.limit) }
        ensures kernel { result.kernel ≡ self.kernel }
        ensures order { turns result.order.blocks ≡ self.order }
        ensures run { IsSharedRun result }
    {
        let SharedRun { run, uses: _ } = self;
        run
    }
}

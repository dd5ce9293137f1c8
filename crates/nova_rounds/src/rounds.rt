ghost use Rattle.std.specs.Prelude.{[], ◌≡◌, ◌+◌, ◌^◌, ◌<◌, ◌≤◌, length, is_some, false, IsOk, IfOk, IfErr, OnOk, Err};
ghost use Rattle.nova_model.specs.Turn.{turn};
ghost use Rattle.nova_finished.specs.Finished.{IsFinished};
ghost use Rattle.nova_finished.specs.UnderWay.{IsGone, IsReady, Passed, left};
ghost use Rattle.nova_model.specs.Runs.{rounds, pass};
ghost use Rattle.nova_finished.specs.declared.fault.RunFault.TheVariants.{Memory};

use nova_finished::{Finished, RunFault};
use nova_kernel::{Kernel, let_go};
use std::alloc::{AllocError, Global};

/// A run of at most `limit` turns that has taken none, with room for `events` events.
pub(crate) fn begin(
    alloc: Global,
    kernel: Kernel,
    limit: u64,
    events: u64,
) -> Result<Finished, AllocError>
    requires room { limit ≤ kernel.room }
    requires turns { kernel.state.turns + limit ≤ 2 ^ 31 }
    ensures finished { IfOk result (IsFinished kernel.state [] limit) }
    ensures ready { IfOk result (λ run. IsReady run) }
    ensures places { IfOk result (λ run. events ≤ run.trace.capacity) }
{
    match Finished::begin(alloc, kernel, limit, 0, events) {
        Ok(run) => Ok(run),
        Err(kernel) => {
            let_go(kernel);
            Err(AllocError)
        }
    }
}

/// A run that went on, unless it failed: then it is let go.
pub fn kept(run: Finished, went: Result<(), RunFault>) -> Result<Finished, RunFault>
    ensures run { IfOk result (λ kept. kept ≡ run) }
    ensures went { OnOk result (IsOk went) }
    ensures fault { IfErr result (λ fault. went ≡ Err fault) }
{
    match went {
        Ok(()) => Ok(run),
        Err(fault) => {
            run.let_go();
            Err(fault)
        }
    }
}

/// Makes places for the events of `turns` turns more.
pub(crate) fn make_places(run: &mut Finished, turns: u64) -> Result<(), AllocError>
    requires ready { IsReady run.old }
    ensures none { OnOk result (Passed run.old [] run.new) }
    ensures places { OnOk result (length run.new.trace.items + turns ≤ run.new.trace.capacity) }
{
    run.trace.reserve(turns)?;
    Ok(())
}

/// Takes turns of the processor `cpu` until it is idle, at most `most`, and returns how many. There are places for their events.
pub(crate) fn take(run: &mut Finished, cpu: u32, most: u64) -> Result<u64, AllocError>
    requires ready { IsReady run.old }
    requires more { length run.old.trace.items + most ≤ run.old.limit }
    requires places { length run.old.trace.items + most ≤ run.old.trace.capacity }
    requires cpu { cpu < run.old.kernel.state.cpus }
    ensures gone { IfOk result (λ n. IsGone run.old cpu most n run.new) }
    ensures idle { IfOk result (λ n. n < most → is_some (turn run.new.kernel.state cpu) ≡ false) }
    ensures places { run.new.trace.capacity ≡ run.old.trace.capacity }
{
    let mut left = most;
    while left > 0 {
        let Ok(taken) = run.go(cpu, left) else {
            return Err(AllocError);
        };
        if taken == 0 {
            return Ok(most - left);
        }
        left -= taken;
    }
    Ok(most)
}

/// Takes a turn of the processor `cpu`, if it is not idle, where there may be one more. It is given how many more there may be, and tells how many
/// after it.
#[inline(always)]
fn turn_within(run: &mut Finished, cpu: u32, more: u64) -> Result<u64, AllocError>
    requires ready { IsReady run.old }
    requires places { run.old.limit ≤ run.old.trace.capacity }
    requires cpu { cpu < run.old.kernel.state.cpus }
    requires more { more ≡ left run.old }
    ensures passed { OnOk result (Passed run.old (pass run.old.kernel.state cpu 1 (left run.old)) run.new) }
    ensures more { IfOk result (λ more. more ≡ left run.new) }
    ensures places { run.new.trace.capacity ≡ run.old.trace.capacity }
{
    if more > 0 && run.turn(cpu)? {
        return Ok(more - 1);
    }
    Ok(more)
}

/// Takes one pass over `cpus` processors in rising number, one turn each where it is not idle, until there are
/// as many turns as there may be. It is given how many more there may be, and tells how many after it.
#[inline(always)]
fn pass(run: &mut Finished, cpus: u32, more: u64) -> Result<u64, AllocError>
    requires ready { IsReady run.old }
    requires places { run.old.limit ≤ run.old.trace.capacity }
    requires cpus { cpus ≡ run.old.kernel.state.cpus }
    requires more { more ≡ left run.old }
    ensures passed { OnOk result (Passed run.old (pass run.old.kernel.state 0 run.old.kernel.state.cpus (left run.old)) run.new) }
    ensures more { IfOk result (λ more. more ≡ left run.new) }
    ensures places { OnOk result (run.new.trace.capacity ≡ run.old.trace.capacity) }
{
    let mut more = more;
    for cpu in 0..cpus {
        more = turn_within(run, cpu, more)?;
    }
    Ok(more)
}

/// Takes passes until one takes no turn or there are as many turns as there may be.
fn run_out(run: &mut Finished) -> Result<(), AllocError>
    requires ready { IsReady run.old }
    requires places { run.old.limit ≤ run.old.trace.capacity }
    ensures { OnOk result (Passed run.old (rounds run.old.kernel.state (left run.old)) run.new) }
{
    let cpus = run.kernel.cpus();
    let mut more = run.limit - run.trace.len();
    while more > 0 {
        let before = more;
        more = pass(run, cpus, before)?;
        if more == before {
            return Ok(());
        }
    }
    Ok(())
}

/// Passes over the processors of a run. A pass over one processor is a turn, so that its turns are taken at once.
fn run_over(run: &mut Finished) -> Result<(), AllocError>
    requires ready { IsReady run.old }
    requires places { run.old.limit ≤ run.old.trace.capacity }
    ensures { OnOk result (Passed run.old (rounds run.old.kernel.state (left run.old)) run.new) }
{
    if run.kernel.cpus() == 1 {
        let more = run.limit - run.trace.len();
        take(run, 0, more)?;
        Ok(())
    } else {
        run_out(run)
    }
}

/// Passes until one takes no turn or there are as many turns as there may be. The only error is `Memory`.
pub fn run_all(run: &mut Finished) -> Result<(), RunFault>
    requires ready { IsReady run.old }
    ensures passed { OnOk result (Passed run.old (rounds run.old.kernel.state (left run.old)) run.new) }
    ensures memory { IfErr result (λ fault. fault ≡ Memory) }
{
    let more = run.limit - run.trace.len();
    make_places(run, more)?;
    Ok(run_over(run)?)
}

/// Runs `kernel` by passes over its processors in rising number, one turn each where it is not idle, until a
/// pass takes no turn or `limit` turns were taken. The kernel has room in its log for as many. The only error
/// is `Memory`, where memory is refused.
pub fn round_robin(alloc: Global, kernel: Kernel, limit: u64) -> Result<Finished, RunFault>
    requires room { limit ≤ kernel.room }
    requires turns { kernel.state.turns + limit ≤ 2 ^ 31 }
    ensures finished { IfOk result (IsFinished kernel.state (rounds kernel.state limit) limit) }
    ensures memory { IfErr result (λ fault. fault ≡ Memory) }
{
    let mut run = begin(alloc, kernel, limit, limit)?;
    let went = run_all(&mut run);
    kept(run, went)
}

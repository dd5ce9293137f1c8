ghost use Rattle.std.specs.Prelude.{◌≡◌, ◌+◌, IfSome};
ghost use Rattle.nova_burst.specs.Lending.{StemsFrom, turns_of};
ghost use Rattle.nova_shared.specs.Ran.{IsCpuSeat};
ghost use Rattle.nova_shared.specs.Seen.{mine};

use crate::crew::Crew;
use crate::gate::Gate;
use law_leases::CommitDone;
use nova_burst::{Lease, commit, lease};
use nova_finished::Block;
use nova_kernel::Kernel;
use nova_shared::{CpuSeat, Shared};
use std::alloc::Global;
use std::sync::Wait;

/// How many pages are copied for a burst at most.
const PAGES: usize = 16;

/// For how many instructions a lease is worth its cost at least; and where no other worker could use the kernel meanwhile.
const LEAST: u32 = 256;

const LEAST_ALONE: u32 = 4096;

/// The least number of instructions for which a lease is worth its cost, among `workers` workers.
fn least_among(workers: u64) -> u32 {
    if workers < 2 { LEAST_ALONE } else { LEAST }
}

/// Whether less than `least` is left of the quantum of the scheduling context that is chosen on the processor `cpu`.
fn has_little_left(kernel: &Kernel, cpu: u32, least: u32) -> bool {
    match kernel.choose(cpu) {
        Some(sc) => matches!(kernel.left(sc), Some(left) if left < least),
        None => false,
    }
}

/// A lease of the virtual CPU that acts on the processor `cpu`, where that can be had and at least `least` is left of its quantum. A lease for which
/// memory runs out is none.
fn leased(kernel: &mut Kernel, alloc: Global, cpu: u32, least: u32) -> Option<Lease>
    ensures stems { IfSome result (λ l. (l.run.cpu ≡ cpu) × StemsFrom l kernel.old.state) }
    ensures kept { kernel.new ≡ kernel.old }
{
    if has_little_left(kernel, cpu, least) {
        return None;
    }
    let Ok(leased) = lease(kernel, alloc, cpu, PAGES) else {
        return None;
    };
    leased
}

/// The turns that came of a commit that answered `done`.
fn turns_of(done: CommitDone) -> u64
    ensures { result ≡ turns_of done }
{
    match done {
        CommitDone::Committed(turns) => turns,
        CommitDone::Dropped { .. } | CommitDone::Away { .. } | CommitDone::NoRoom { .. } => 0,
    }
}

/// Leases the virtual CPU that acts on the processor, where that can be had, and takes no turn. It notes how many turns it might have taken.
#[derive(Drop)]
struct Leasing {
    alloc: Global,
    least: u32,
    lease: Option<Lease>,
    left: u64,
}

impl Block for Leasing {
    ghost use Rattle.std.specs.Prelude.{◌≡◌, IfSome};
    ghost use Rattle.nova_burst.specs.Lending.{StemsFrom};

    ghost fits = { λ b cpu k. Unit {0} };

    ghost tells = { λ b cpu k left next turns. (turns ≡ 0) × IfSome next.lease (λ l. (l.run.cpu ≡ cpu) × StemsFrom l k) };

    #[tactic(auto, using(nova_finished::proofs::Stepping::no_steps))]
    fn act(&mut self, kernel: &mut Kernel, cpu: u32, left: u64) -> u64 {
        self.lease = leased(kernel, self.alloc, cpu, self.least);
        self.left = left;
        0
    }
}

/// Commits a lease of the processor. It takes as many turns as the lease ran instructions, or none where they can't be committed.
#[derive(Drop)]
struct Committing {
    lease: Option<Lease>,
}

impl Block for Committing {
    ghost use Rattle.std.specs.Prelude.{◌≡◌, IfSome};
    ghost use Rattle.nova_burst.specs.Lending.{ComesAfter};

    ghost fits = { λ b cpu k. IfSome b.lease (λ l. (l.run.cpu ≡ cpu) × ComesAfter l k) };

    ghost tells = { λ b cpu k left next turns. Unit {0} };

    #[tactic(auto, using(nova_finished::proofs::Stepping::no_steps))]
    fn act(&mut self, kernel: &mut Kernel, _cpu: u32, left: u64) -> u64 {
        let Some(lease) = self.lease.take() else {
            return 0;
        };
        turns_of(commit(kernel, lease, left))
    }
}

/// Runs a burst of the processor of `seat`, of at most `most` instructions, beside other workers, and returns how many turns it was. It is leased in
/// one use of the kernel, runs on its copies while others use the kernel, and is committed in another use. It was none where nothing could be leased,
/// and where nothing was committed.
pub(crate) fn burst<R: Wait, G: Gate>(
    rt: &R,
    alloc: Global,
    shared: &Shared,
    gate: &G,
    seat: &mut CpuSeat,
    crew: &Crew,
    most: u64,
) -> u64
    requires own { IsCpuSeat shared.now seat.old }
    requires gate { G.called gate.now seat.old.number (mine seat.old) }
    ensures seat { seat.new ≡ record seat.old { front = seat.new.front } }
    ensures taken { mine seat.new ≡ mine seat.old + result }
{
    let mut leasing = Leasing {
        alloc,
        least: least_among(crew.workers()),
        lease: None,
        left: 0,
    };
    shared.block(rt, seat, &mut leasing);
    let left = leasing.left;
    let Some(mut lease) = leasing.lease else {
        return 0;
    };
    let promised = crew.promise(left, most);
    lease.run(promised);
    let mut committing = Committing { lease: Some(lease) };
    let taken = shared.block(rt, seat, &mut committing);
    crew.release(promised);
    taken
}

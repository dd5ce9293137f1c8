ghost use Rattle.std.specs.Prelude.{◌≡◌};
ghost use Rattle.nova_shared.specs.Ran.{IsCpuSeat};
ghost use Rattle.nova_shared.specs.Seen.{mine};

use nova_shared::{CpuSeat, Shared, SharedTurn};
use std::alloc::AllocError;
use std::sync::Wait;

/// What a worker passes before each of its steps. A gate can watch or hold workers; it can't change what they do.
pub trait Gate {
    ghost use Rattle.std.specs.Prelude.{ℕ};

    /// That it was called for a step of the processor `cpu`, after `turn` turns of it. A gate need not say what that means; to workers, which know no
    /// gate, nothing but its call says it.
    ghost called: { Self → ℕ → ℕ → Type 0 } = { λ _ _ _. Unit {0} };

    /// A worker is about to take a step of the processor `cpu`, after `turn` turns of it.
    fn at(&self, cpu: u32, turn: u64)
        ensures { called self.now cpu turn };
}

/// The gate that is always open: it does nothing.
#[derive(Clone, Copy)]
pub struct Open;

impl Gate for Open {
    fn at(&self, _cpu: u32, _turn: u64) {}
}

/// Calls a gate for the next step of the processor of `seat`.
pub(crate) fn call<G: Gate>(gate: &G, seat: &CpuSeat)
    ensures called { G.called gate.now seat.now.number (mine seat.now) }
{
    gate.at(seat.cpu(), seat.mine());
}

/// Takes at most `most` turns of the processor of `seat` in one use of the kernel, for which `gate` was called.
pub(crate) fn take<R: Wait, G: Gate>(
    rt: &R,
    shared: &Shared,
    gate: &G,
    seat: &mut CpuSeat,
    most: u64,
) -> u64
    requires own { IsCpuSeat shared.now seat.old }
    requires gate { G.called gate.now seat.old.number (mine seat.old) }
    ensures { seat.new ≡ record seat.old { front = seat.new.front } }
{
    shared.turns(rt, seat, most)
}

/// A turn of the processor of `seat`, for which the gate was called.
pub(crate) fn take_one<R: Wait, G: Gate>(
    rt: &R,
    shared: &Shared,
    gate: &G,
    seat: &mut CpuSeat,
) -> Result<SharedTurn, AllocError>
    requires own { IsCpuSeat shared.now seat.old }
    requires gate { G.called gate.now seat.old.number (mine seat.old) }
    ensures { seat.new ≡ record seat.old { front = seat.new.front } }
{
    shared.turn(rt, seat)
}

// Laws of orders of turns.
ghost use Rattle.std.specs.Prelude.{ℕ};
ghost use Rattle.nova_model.specs.Runs.{rounds};
ghost use Rattle.nova_model.specs.State.{KernelState};
ghost use Rattle.law_turns.specs.Orders.{IsRunOut};

/// Round robin takes no idle turn, gives turns to processors that are there alone, takes no more than it
/// may, and stops before that only where the kernel is quiet.
pub fn round_robin_runs_out()
    ensures { (k : KernelState) (most : ℕ) → IsRunOut k most (rounds k most) }
{}

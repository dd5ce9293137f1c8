// Laws of round robin.
ghost use Rattle.std.specs.Prelude.{ℕ};
ghost use Rattle.nova_model.specs.Runs.{pass, rounds};
ghost use Rattle.nova_model.specs.State.{KernelState};
ghost use Rattle.law_turns.specs.Rounds.{GoesRound, IsRound};

/// A pass gives turns in rising order of processors, so that none has two. A processor that it leaves out was
/// idle when its place came, unless the pass had taken its last turn before. Round robin is such passes, one
/// after another; that it stops only where the kernel is quiet or its turns are used up is
/// `round_robin_runs_out`.
pub fn round_robin_goes_round()
    ensures once { (k : KernelState) (most : ℕ) → IsRound k most (pass k 0 k.cpus most) }
    ensures again { (k : KernelState) (most : ℕ) → GoesRound k most (rounds k most) }
{}

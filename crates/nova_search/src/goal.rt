ghost use Rattle.std.specs.Prelude.{◌≡◌, Bool, false, IfOk};
ghost use Rattle.nova_model.specs.State.{KernelState};

use nova_kernel::Kernel;
use std::alloc::{AllocError, Global};

/// What a search looks for among states.
pub trait Goal {
    /// What a goal is to be, so that states can be tested.
    ghost apt: { Self → Type 0 } = { λ _. Unit {0} };

    /// Whether a state is looked for.
    ghost met: { Self → KernelState → Bool };

    /// Whether the state of `kernel` is looked for.
    fn is_met(&self, alloc: Global, kernel: &Kernel) -> Result<bool, AllocError>
        requires { apt self.now }
        ensures { IfOk result (λ is. is ≡ met self.now kernel.now.state) };
}

/// No goal: a search goes on through all states.
#[derive(Drop)]
pub struct NoGoal;

impl Goal for NoGoal {
    ghost use Rattle.std.specs.Prelude.{false};

    ghost met = { λ _ _. false };

    fn is_met(&self, _alloc: Global, _kernel: &Kernel) -> Result<bool, AllocError> {
        Ok(false)
    }
}

use nova_kernel::Kernel;
use nova_search::Goal;
use std::alloc::{AllocError, Global};

/// Looks for an execution context of a number.
#[derive(Clone, Copy)]
pub(crate) struct Presence {
    pub ec: u32,
}

impl Goal for Presence {
    ghost use Rattle.nova_asking.specs.Questions.{has_context};

    ghost met = { λ p s. has_context p.ec s };

    fn is_met(&self, _alloc: Global, kernel: &Kernel) -> Result<bool, AllocError> {
        Ok(kernel.ec(self.ec).is_some())
    }
}

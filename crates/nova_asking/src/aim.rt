ghost use Rattle.std.specs.Prelude.{◌≡◌};
ghost use Rattle.nova_asking.specs.Hangs.{acts, acts_on, is_number};
ghost use Rattle.nova_asking.specs.Questions.{is_sought, named_by};

use crate::contexts::is_left;
use crate::locations::next_actor;
use nova_kernel::Kernel;
use nova_search::Goal;
use std::alloc::{AllocError, Global};

/// What is to come, where a run doesn't hang.
#[derive(Clone, Copy)]
pub enum Aim {
    /// The end of the run.
    End,

    /// A turn in which the execution context of this number acts.
    Act { ec: u32 },
}

/// Whether an execution context acts in the next turn of a processor.
fn acts_on(kernel: &Kernel, ec: u32, cpu: u32) -> bool
    ensures { result ≡ acts_on ec kernel.now.state cpu }
{
    match next_actor(kernel, cpu) {
        Some(actor) => actor == ec,
        None => false,
    }
}

/// Whether an execution context acts in the next turn of some processor.
fn acts(kernel: &Kernel, ec: u32) -> bool
    ensures { result ≡ acts ec kernel.now.state }
{
    for cpu in 0..kernel.cpus() {
        if acts_on(kernel, ec, cpu) {
            return true;
        }
    }
    false
}

impl Goal for Aim {
    ghost use Rattle.nova_asking.specs.Hangs.{is_aim};

    ghost met = { is_aim };

    /// Whether what is aimed at has come.
    fn is_met(&self, _alloc: Global, kernel: &Kernel) -> Result<bool, AllocError> {
        match self {
            Aim::End => Ok(kernel.quiet()),
            Aim::Act { ec } => Ok(acts(kernel, *ec)),
        }
    }
}

impl Aim {
    /// Whether it may still come by what is there: the end of a run may, and a turn of an execution context that is there and not dead.
    pub(crate) fn is_sought(self, kernel: &Kernel) -> bool
        ensures { result ≡ is_sought self kernel.now.state }
    {
        match self {
            Aim::End => true,
            Aim::Act { ec } => is_left(kernel, ec),
        }
    }

    /// The execution context that it names.
    pub(crate) fn named(self) -> Option<u32>
        ensures { result ≡ named_by self }
    {
        match self {
            Aim::End => None,
            Aim::Act { ec } => Some(ec),
        }
    }
}

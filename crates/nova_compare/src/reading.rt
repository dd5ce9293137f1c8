ghost use Rattle.std.specs.Bool.{OnTrue};
ghost use Rattle.law_sameness.specs.States.{AreReadAlike, AreZero};

use crate::derivations::same_delegations;
use crate::entries::same_entries;
use crate::memory::{same_log, same_ram};
use crate::objects::same_objects;
use nova_kernel::Kernel;
use std::alloc::Global;

/// Whether all that calls of `a` and `b` read but for counts is seen to be the same. It isn't where memory is refused.
pub(crate) fn are_read_alike(alloc: Global, a: &Kernel, b: &Kernel) -> bool
    requires first { AreZero a.now.state }
    requires second { AreZero b.now.state }
    ensures { OnTrue result (AreReadAlike a.now.state b.now.state) }
{
    let objects = a.objects();
    a.cpus() == b.cpus()
        && a.consoles() == b.consoles()
        && same_objects(objects, b.objects())
        && same_entries(alloc, a, b, objects.len() as u32)
        && same_log(a.log(), b.log())
        && same_delegations(a, b)
        && same_ram(a, b)
}

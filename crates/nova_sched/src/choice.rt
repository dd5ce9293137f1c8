ghost use Rattle.std.specs.Prelude.{◌≡◌};
ghost use Rattle.nova_sched.specs.Queues.{runs_before};

use crate::queued::Runnable;

/// Whether `a` runs before `b`: a greater priority, or the same and a lesser stamp.
pub(crate) fn precedes(a: &Runnable, b: &Runnable) -> bool
    ensures { result ≡ runs_before a.now b.now }
{
    b.priority < a.priority || (a.priority == b.priority && a.stamp < b.stamp)
}

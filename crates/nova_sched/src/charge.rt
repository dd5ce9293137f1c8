ghost use Rattle.std.specs.Prelude.{◌≡◌, ◌+◌, ◌-◌, ◌^◌, ◌<◌};
ghost use Rattle.nova_model.specs.Turn.{is_spent, budget_after};
ghost use Rattle.nova_sched.specs.Lists.{paid, used_up};

use crate::queued::Queued;
use nova_model::Budget;

/// Whether this turn is the last of the quantum of `budget`.
pub(crate) fn is_spent(budget: &Budget) -> bool
    ensures { result ≡ is_spent budget.now }
{
    budget.left <= 1
}

/// What a turn leaves of `budget`: a used quantum begins anew, with a new stamp.
fn spend(budget: Budget, quantum: u32, stamp: u64) -> Budget
    requires { budget.ticks < 2 ^ 64 - 1 }
    ensures { result ≡ budget_after (is_spent budget) quantum stamp budget }
{
    let ticks = budget.ticks + 1;
    if is_spent(&budget) {
        Budget {
            left: quantum,
            stamp,
            ticks,
        }
    } else {
        Budget {
            left: budget.left - 1,
            stamp: budget.stamp,
            ticks,
        }
    }
}

/// Charges a turn to `entry`. Where that was the last of its quantum it takes the stamp.
pub(crate) fn pay(entry: &mut Queued, stamp: u64)
    requires { entry.old.budget.ticks < 2 ^ 64 - 1 }
    ensures { entry.new ≡ paid entry.old stamp }
{
    entry.budget = spend(entry.budget, entry.quantum, stamp);
}

/// Charges `count` turns to `entry`, fewer than are left of its quantum.
pub(crate) fn use_up(entry: &mut Queued, count: u32)
    requires left { count < entry.old.budget.left }
    requires ticks { entry.old.budget.ticks + count < 2 ^ 64 }
    ensures { entry.new ≡ used_up entry.old count }
{
    entry.budget.left -= count;
    entry.budget.ticks += u64::from(count);
}

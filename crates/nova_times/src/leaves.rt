ghost use Rattle.std.specs.Prelude.{◌≡◌, ◌≤◌, ◌^◌, length, Some};
ghost use Rattle.nova_model.specs.Times.{goes_on};
ghost use Rattle.nova_times.specs.Kept.{alarm_leaf, alarm_leaves, deadline_leaf, deadline_leaves};
ghost use Rattle.nova_times.specs.Trees.{least_of};

use crate::entry::{Entry, lesser};
use nova_model::{AlarmState, Deadline, Due};

/// Whether the alarm of `state` hasn't ended.
fn goes_on(state: &AlarmState) -> bool
    ensures { result ≡ goes_on state.now }
{
    state.rings < state.alarm.count
}

/// The entry on the processor `cpu` of an alarm that hasn't ended.
pub(crate) fn alarm_entry(cpu: u32, number: u32, state: &AlarmState) -> Option<Entry>
    ensures { result ≡ alarm_leaf cpu number (Some state.now) }
{
    if state.alarm.cpu == cpu && goes_on(state) {
        Some(Entry {
            at: state.next,
            due: Due::Alarm(number),
        })
    } else {
        None
    }
}

/// The entry on the processor `cpu` of the deadline of the execution context `ec`.
pub(crate) fn deadline_entry(cpu: u32, ec: u32, deadline: Option<Deadline>) -> Option<Entry>
    ensures { result ≡ deadline_leaf cpu ec deadline }
{
    let Deadline { cpu: its, at, .. } = deadline?;
    if its == cpu {
        Some(Entry {
            at,
            due: Due::Deadline(ec),
        })
    } else {
        None
    }
}

/// The first alarm of the processor `cpu`, by a search.
pub(crate) fn least_alarm(alarms: &[AlarmState], cpu: u32) -> Option<Entry>
    requires { length alarms.now ≤ 2 ^ 32 }
    ensures { result ≡ least_of (alarm_leaves cpu 0 alarms.now) }
{
    let mut least = None;
    let mut i = alarms.len();
    while i > 0 {
        i -= 1;
        least = lesser(alarm_entry(cpu, i as u32, &alarms[i]), least);
    }
    least
}

/// The first deadline of the processor `cpu`, by a search.
pub(crate) fn least_deadline(deadlines: &[Option<Deadline>], cpu: u32) -> Option<Entry>
    requires { length deadlines.now ≤ 2 ^ 32 }
    ensures { result ≡ least_of (deadline_leaves cpu 0 deadlines.now) }
{
    let mut least = None;
    let mut i = deadlines.len();
    while i > 0 {
        i -= 1;
        least = lesser(deadline_entry(cpu, i as u32, deadlines[i]), least);
    }
    least
}

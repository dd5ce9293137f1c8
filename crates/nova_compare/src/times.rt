ghost use Rattle.std.specs.Prelude.{◌≡◌, ◌+◌, ◌<◌, ℕ, true, Some, IfSome, length, slice_get};
ghost use Rattle.std.specs.Bool.{OnTrue};
ghost use Rattle.nova_model.specs.State.{deadline_of};
ghost use Rattle.nova_model.specs.Times.{clock, goes_on};
ghost use Rattle.law_alike.specs.Alike.{IsAlarmAlike, IsDeadlineAlike};
ghost use Rattle.law_sameness.specs.States.{AreMomentsAlike, AreMomentsSame};

use nova_kernel::{Alarm, AlarmState, Deadline, Kernel};

/// Whether the deadlines `a` and `b` are equal.
fn same_deadline(a: Deadline, b: Deadline) -> bool
    ensures { OnTrue result (a ≡ b) }
{
    a.cpu == b.cpu && a.sm == b.sm && a.at == b.at
}

/// Whether the execution context `ec` has the same deadline in `a` and `b`, or none.
fn same_deadline_at(a: &Kernel, b: &Kernel, ec: u32) -> bool
    ensures { OnTrue result (deadline_of a.now.state.times ec ≡ deadline_of b.now.state.times ec) }
{
    match a.deadline(ec) {
        None => b.deadline(ec).is_none(),
        Some(deadline) => match b.deadline(ec) {
            None => false,
            Some(other) => same_deadline(deadline, other),
        },
    }
}

/// Whether execution contexts of each number below `count` have the same deadline in `a` and `b`, or none.
fn same_deadlines(a: &Kernel, b: &Kernel, count: u32) -> bool
    ensures { OnTrue result ((ec : ℕ) → ec < count → deadline_of a.now.state.times ec ≡ deadline_of b.now.state.times ec) }
{
    for ec in 0..count {
        if !same_deadline_at(a, b, ec) {
            return false;
        }
    }
    true
}

/// Whether the alarms `a` and `b` are equal.
fn same_alarm(a: Alarm, b: Alarm) -> bool
    ensures { OnTrue result (a ≡ b) }
{
    a.cpu == b.cpu
        && a.sm == b.sm
        && a.first == b.first
        && a.period == b.period
        && a.count == b.count
}

/// Whether `a` and `b` are equal: an alarm, its next moment and how often it rang.
fn same_ringing(a: AlarmState, b: AlarmState) -> bool
    ensures { OnTrue result (a ≡ b) }
{
    same_alarm(a.alarm, b.alarm) && a.next == b.next && a.rings == b.rings
}

/// Whether the alarm `i` is the same in `a` and `b`, with its next moment, or none.
fn same_alarm_at(a: &Kernel, b: &Kernel, i: u32) -> bool
    ensures { OnTrue result (slice_get a.now.state.times.alarms i ≡ slice_get b.now.state.times.alarms i) }
{
    match a.alarm(i) {
        None => b.alarm(i).is_none(),
        Some(alarm) => match b.alarm(i) {
            None => false,
            Some(other) => same_ringing(alarm, other),
        },
    }
}

/// How many alarms there are in `a` and in `b`; none where there are more in one of them, or 2^32 and more.
#[tactic(auto, using(crate::proofs::Readings::count_alarms))]
fn alarms_in_both(a: &Kernel, b: &Kernel) -> Option<u32>
    ensures first { IfSome result (λ n. length a.now.state.times.alarms ≡ n) }
    ensures second { IfSome result (λ n. length b.now.state.times.alarms ≡ n) }
{
    let count = a.sources().len();
    if b.sources().len() != count {
        return None;
    }
    u32::try_from(count).ok()
}

/// Whether the alarms of `a` and `b`, of which there are `count`, are the same, with their next moments.
fn same_alarms(a: &Kernel, b: &Kernel, count: u32) -> bool
    requires first { length a.now.state.times.alarms ≡ count }
    requires second { length b.now.state.times.alarms ≡ count }
    ensures { OnTrue result (a.now.state.times.alarms ≡ b.now.state.times.alarms) }
{
    for i in 0..count {
        if !same_alarm_at(a, b, i) {
            return false;
        }
    }
    true
}

/// Whether the deadlines of each number below `count`, and the alarms, are the same in `a` and `b`.
pub(crate) fn same_moments(a: &Kernel, b: &Kernel, count: u32) -> bool
    ensures { OnTrue result (AreMomentsSame count a.now.state.times b.now.state.times) }
{
    match alarms_in_both(a, b) {
        None => false,
        Some(alarms) => same_alarms(a, b, alarms) && same_deadlines(a, b, count),
    }
}

/// Whether `moment` is as far from the clock `now` as `other` is from the clock `then`, before or after.
fn is_as_far(moment: u64, now: u64, other: u64, then: u64) -> bool
    ensures { OnTrue result (moment + then ≡ other + now) }
{
    if moment < now {
        other < then && now - moment == then - other
    } else {
        other >= then && moment - now == other - then
    }
}

/// Whether `deadline` in `a` and `other` in `b` are the same but for clocks.
fn is_as_late(a: &Kernel, b: &Kernel, deadline: Deadline, other: Deadline) -> bool
    ensures { OnTrue result (IsDeadlineAlike a.now.state.times b.now.state.times (Some deadline) (Some other)) }
{
    let cpu = deadline.cpu;
    cpu == other.cpu
        && deadline.sm == other.sm
        && is_as_far(deadline.at, a.clock(cpu), other.at, b.clock(cpu))
}

/// Whether the execution context `ec` has the same deadline in `a` and `b` but for clocks, or none.
fn is_deadline_alike(a: &Kernel, b: &Kernel, ec: u32) -> bool
    ensures { OnTrue result (IsDeadlineAlike a.now.state.times b.now.state.times (deadline_of a.now.state.times ec) (deadline_of b.now.state.times ec)) }
{
    match a.deadline(ec) {
        None => b.deadline(ec).is_none(),
        Some(deadline) => match b.deadline(ec) {
            None => false,
            Some(other) => is_as_late(a, b, deadline, other),
        },
    }
}

/// Whether execution contexts of each number below `count` have the same deadline in `a` and `b` but for clocks, or none.
fn are_deadlines_alike(a: &Kernel, b: &Kernel, count: u32) -> bool
    ensures { OnTrue result ((ec : ℕ) → ec < count → IsDeadlineAlike a.now.state.times b.now.state.times (deadline_of a.now.state.times ec) (deadline_of b.now.state.times ec)) }
{
    for ec in 0..count {
        if !is_deadline_alike(a, b, ec) {
            return false;
        }
    }
    true
}

/// Whether `alarm` rings again.
fn goes_on(alarm: AlarmState) -> bool
    ensures { result ≡ goes_on alarm }
{
    alarm.rings < alarm.alarm.count
}

/// Whether `alarm` in `a`, where it rings again, is as far from its clock as `other` in `b`.
fn rings_as_late(a: &Kernel, b: &Kernel, alarm: AlarmState, other: AlarmState) -> bool
    ensures { OnTrue result (goes_on alarm ≡ true → alarm.next + clock b.now.state.times alarm.alarm.cpu ≡ other.next + clock a.now.state.times alarm.alarm.cpu) }
{
    if !goes_on(alarm) {
        return true;
    }
    let cpu = alarm.alarm.cpu;
    is_as_far(alarm.next, a.clock(cpu), other.next, b.clock(cpu))
}

/// Whether `alarm` in `a` and `other` in `b` are the same but for clocks, and rang as often.
fn is_ringing_alike(a: &Kernel, b: &Kernel, alarm: AlarmState, other: AlarmState) -> bool
    ensures { OnTrue result (IsAlarmAlike a.now.state.times b.now.state.times (Some alarm) (Some other)) }
{
    same_alarm(alarm.alarm, other.alarm)
        && alarm.rings == other.rings
        && rings_as_late(a, b, alarm, other)
}

/// Whether the alarm `i` is the same in `a` and `b` but for clocks, and rang as often, or none.
fn is_alarm_alike(a: &Kernel, b: &Kernel, i: u32) -> bool
    ensures { OnTrue result (IsAlarmAlike a.now.state.times b.now.state.times (slice_get a.now.state.times.alarms i) (slice_get b.now.state.times.alarms i)) }
{
    match a.alarm(i) {
        None => b.alarm(i).is_none(),
        Some(alarm) => match b.alarm(i) {
            None => false,
            Some(other) => is_ringing_alike(a, b, alarm, other),
        },
    }
}

/// Whether each of the first `count` alarms is.
fn are_alarms_alike(a: &Kernel, b: &Kernel, count: u32) -> bool
    ensures { OnTrue result ((i : ℕ) → i < count → IsAlarmAlike a.now.state.times b.now.state.times (slice_get a.now.state.times.alarms i) (slice_get b.now.state.times.alarms i)) }
{
    for i in 0..count {
        if !is_alarm_alike(a, b, i) {
            return false;
        }
    }
    true
}

/// Whether the deadlines of each number below `count`, and the alarms, are as far from clocks in `a` and `b`.
pub(crate) fn are_moments_alike(a: &Kernel, b: &Kernel, count: u32) -> bool
    ensures { OnTrue result (AreMomentsAlike count a.now.state.times b.now.state.times) }
{
    match alarms_in_both(a, b) {
        None => false,
        Some(alarms) => are_alarms_alike(a, b, alarms) && are_deadlines_alike(a, b, count),
    }
}

ghost use Rattle.std.specs.Prelude.{◌≡◌, ◌+◌, ◌^◌, ◌≤◌, ◌<◌, length, replicate, IfOk};
ghost use Rattle.std.specs.List.{AllByRecursion};
ghost use Rattle.nova_gsi.specs.Firings.{IsSource, is_firing, is_irq, line, moment, table, worse};
ghost use Rattle.nova_gsi.specs.Passed.{seen, seen_all};

use crate::{Source, SourceLine};
use nova_model::{Event, EventKind};
use nova_trace::{Repeated, Trace};
use std::alloc::{AllocError, Global};

fn is_irq(kind: EventKind) -> bool
    ensures { result ≡ is_irq kind }
{
    matches!(kind, EventKind::Irq)
}

fn is_firing(number: usize, event: Event) -> bool
    ensures { result ≡ is_firing number event }
{
    is_irq(event.kind) && event.a as usize == number
}

fn moment(source: &Source, j: u64) -> u64
    requires within { j < source.now.count }
    requires numbers { IsSource source.now }
    ensures { result ≡ moment source.now j }
{
    source.first + j * source.period
}

fn worse(source: &Source, clock: u64, fired: u64, worst: u64) -> u64
    requires numbers { IsSource source.now }
    ensures { result ≡ worse source.now clock fired worst }
{
    if fired >= source.count {
        return worst;
    }
    let late = clock.saturating_sub(moment(source, fired));
    if worst < late { late } else { worst }
}

/// What a pass over a trace keeps of a source: the clock of its processor, how often it fired, and by how many ticks the latest of its firings
/// was late.
#[derive(Clone, Copy)]
struct Seen {
    clock: u64,
    fired: u64,
    worst: u64,
}

/// What is `before`, after `event`.
fn see(source: &Source, number: usize, event: Event, before: Seen) -> Seen
    requires numbers { IsSource source.now }
    requires clock { before.clock + 1 < 2 ^ 64 }
    requires fired { before.fired + 1 < 2 ^ 64 }
    ensures { result ≡ seen source.now number before event }
{
    let Seen {
        clock,
        fired,
        worst,
    } = before;
    let clock_then = if event.cpu == source.cpu {
        clock + 1
    } else {
        clock
    };
    if is_firing(number, event) {
        Seen {
            clock: clock_then,
            fired: fired + 1,
            worst: worse(source, clock, fired, worst),
        }
    } else {
        Seen {
            clock: clock_then,
            fired,
            worst,
        }
    }
}

/// What is `before`, after `event` has come `count` times.
fn see_times(source: &Source, number: usize, event: Event, count: u64, before: Seen) -> Seen
    requires numbers { IsSource source.now }
    requires clock { before.clock + count < 2 ^ 64 }
    requires fired { before.fired + count < 2 ^ 64 }
    ensures seen { result ≡ seen_all source.now number before (replicate count event) }
    ensures clock { result.clock ≤ before.clock + count }
    ensures fired { result.fired ≤ before.fired + count }
{
    let mut now = before;
    for i in 0..count {
        now = see(source, number, event, now);
    }
    now
}

/// What is `before`, after `entry`; an entry that is no firing is passed in one go.
fn see_entry(source: &Source, number: usize, entry: &Repeated, before: Seen) -> Seen
    requires numbers { IsSource source.now }
    requires clock { before.clock + entry.now.count < 2 ^ 64 }
    requires fired { before.fired + entry.now.count < 2 ^ 64 }
    ensures seen { result ≡ seen_all source.now number before (replicate entry.now.count entry.now.event) }
    ensures clock { result.clock ≤ before.clock + entry.now.count }
    ensures fired { result.fired ≤ before.fired + entry.now.count }
{
    if is_firing(number, entry.event) {
        return see_times(source, number, entry.event, entry.count, before);
    }
    let mut now = before;
    if entry.event.cpu == source.cpu {
        now.clock += entry.count;
    }
    now
}

/// What came of `source`, by its number `number`.
fn line(source: &Source, number: usize, trace: &Trace) -> SourceLine
    requires numbers { IsSource source.now }
    ensures { result ≡ line source.now trace.now.items number }
{
    let entries = trace.entries();
    let mut seen = Seen {
        clock: 0,
        fired: 0,
        worst: 0,
    };
    for entry in entries {
        seen = see_entry(source, number, entry, seen);
    }
    SourceLine {
        fired: seen.fired,
        worst: seen.worst,
    }
}

/// How often each of `sources` fired in `trace`, and how late. The only error is that memory ran out.
pub fn table(
    alloc: Global,
    sources: &[Source],
    trace: &Trace,
) -> Result<Vec<SourceLine>, AllocError>
    requires numbers { AllByRecursion IsSource sources.now }
    ensures lines { IfOk result (λ lines. lines.items ≡ table sources.now trace.now.items) }
    ensures length { IfOk result (λ lines. length lines.items ≡ length sources.now) }
{
    let mut lines = Vec::new(alloc);
    for i in 0..sources.len() {
        lines.push(line(&sources[i], i, trace))?;
    }
    Ok(lines)
}

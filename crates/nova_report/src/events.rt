ghost use Rattle.std.specs.Prelude.{◌≡◌, ◌+◌, ◌<◌, ◌≤◌, ◌^◌, ◌++◌, false, length, replicate, OnOk};
ghost use Rattle.nova_report.specs.Words.{event_word};
ghost use Rattle.nova_report.specs.Report.{event_lines, is_silent, lines_from};

use crate::told::{Told, none_told, write_line};
use nova_model::{Event, EventKind};
use nova_trace::{Repeated, Trace};
use std::alloc::AllocError;

fn is_silent(kind: EventKind) -> bool
    ensures { result ≡ is_silent kind }
{
    matches!(kind, EventKind::Step | EventKind::Tick)
}

/// The word of an event of `kind`.
pub fn event_word<'a>(kind: EventKind) -> &'a str
    ensures word { result.now ≡ event_word kind }
    ensures short { length result.now ≤ 6 }
{
    match kind {
        EventKind::Step => "step",
        EventKind::Raise => "raise",
        EventKind::Answer => "answer",
        EventKind::Begin => "begin",
        EventKind::Help => "help",
        EventKind::Sent => "sent",
        EventKind::Died => "died",
        EventKind::Abort => "abort",
        EventKind::Made => "made",
        EventKind::Skip => "skip",
        EventKind::Xlat => "xlat",
        EventKind::Ended => "ended",
        EventKind::Gone => "gone",
        EventKind::Late => "late",
        EventKind::Irq => "irq",
        EventKind::Tick => "tick",
    }
}

/// Writes the lines of `event`, which has one and comes `count` times, after `place`.
fn write_times(
    out: &mut Vec<u8>,
    told: &mut [Told; 4],
    place: u64,
    event: &Event,
    count: u64,
) -> Result<(), AllocError>
    requires told { is_silent event.now.kind ≡ false }
    requires few { place + count < 2 ^ 64 }
    ensures { OnOk result (out.new.items ≡ out.old.items ++ lines_from (place + 1) (replicate count event.now)) }
{
    for i in 0..count {
        write_line(out, told, place + i + 1, event)?;
    }
    Ok(())
}

/// Writes the lines of `entry`, after `place`: none where its event is silent.
fn write_entry(
    out: &mut Vec<u8>,
    told: &mut [Told; 4],
    place: u64,
    entry: &Repeated,
) -> Result<(), AllocError>
    requires few { place + entry.now.count < 2 ^ 64 }
    ensures { OnOk result (out.new.items ≡ out.old.items ++ lines_from (place + 1) (replicate entry.now.count entry.now.event)) }
{
    if is_silent(entry.event.kind) {
        return Ok(());
    }
    write_times(out, told, place, &entry.event, entry.count)
}

/// Writes to `out` a line for each event of `trace` but steps and ticks, with its place in the trace, from 1.
pub fn write_events(out: &mut Vec<u8>, trace: &Trace) -> Result<(), AllocError>
    ensures { OnOk result (out.new.items ≡ out.old.items ++ event_lines trace.now.items) }
{
    let entries = trace.entries();
    let mut told = none_told();
    let mut place = 0;
    for entry in entries {
        write_entry(out, &mut told, place, entry)?;
        place += entry.count;
    }
    Ok(())
}

ghost use Rattle.std.specs.Prelude.{◌≡◌, ◌≤◌, IfOk, length, replicate};
ghost use Rattle.nova_report.specs.Summary.{count, is_counted, summary};

use nova_kernel::Kernel;
use nova_model::{Event, EventKind};
use nova_trace::{Repeated, Trace};
use std::alloc::{AllocError, Global};

/// What is counted: events that a child was made, or that a derivation was removed.
#[derive(Clone, Copy)]
enum Counted {
    Children,
    Removals,
}

/// Whether `event` is counted.
fn is_counted(event: &Event, counted: Counted) -> bool
    ensures { result ≡ is_counted counted event.now }
{
    match counted {
        Counted::Children => matches!(event.kind, EventKind::Made),
        Counted::Removals => matches!(event.kind, EventKind::Gone),
    }
}

/// How many events of `entry` are counted.
fn count_in(entry: &Repeated, counted: Counted) -> u64
    ensures { result ≡ count (is_counted counted) (replicate entry.now.count entry.now.event) }
{
    if is_counted(&entry.event, counted) {
        entry.count
    } else {
        0
    }
}

/// How many events of `trace` are counted.
fn count_all(trace: &Trace, counted: Counted) -> u64
    ensures count { result ≡ count (is_counted counted) trace.now.items }
    ensures few { result ≤ length trace.now.items }
{
    let entries = trace.entries();
    let mut count = 0;
    for entry in entries {
        count += count_in(entry, counted);
    }
    count
}

/// How many derivations `kernel` has.
pub fn count_derivations(kernel: &Kernel) -> u32
    ensures { result ≡ length kernel.now.state.delegations.list }
{
    let mut count = 0;
    let mut id = 0;
    while let Some(derivation) = kernel.derivation_from(id) {
        count += 1;
        id = derivation.id + 1;
    }
    count
}

/// The summary of a run of the scenario of number `number`: its turns, how many children were made and how many
/// derivations removed, and how many there are at the end. The only error is that memory ran out.
#[tactic(auto, unfolding(crate::specs::Summary::summary))]
pub fn summary(
    alloc: Global,
    number: u32,
    kernel: &Kernel,
    trace: &Trace,
) -> Result<Vec<u8>, AllocError>
    ensures { IfOk result (λ text. text.items ≡ summary number kernel.now.state trace.now.items) }
{
    let mut out = String::new(alloc);
    let turns = kernel.turns();
    let made = count_all(trace, Counted::Children);
    let gone = count_all(trace, Counted::Removals);
    let caps = count_derivations(kernel);
    writeln!(
        out,
        "bench {number} turns {turns} made {made} gone {gone} caps {caps}"
    )?;
    Ok(out.into_bytes())
}

ghost use Rattle.std.specs.Prelude.{◌≡◌, ◌++◌, replicate, IfOk, OnOk};
ghost use Rattle.nova_trace.specs.Traces.{events_of};

use nova_model::Event;
use nova_trace::{Repeated, Trace};
use std::alloc::{AllocError, Global};

/// Adds the event of `entry` at the end, as many times as it comes.
#[tactic(auto, using(crate::proofs::Expanding::added_next))]
fn add_times(events: &mut Vec<Event>, entry: Repeated) -> Result<(), AllocError>
    ensures { OnOk result (events.new.items ≡ events.old.items ++ replicate entry.count entry.event) }
{
    for _added in 0..entry.count {
        events.push(entry.event)?;
    }
    Ok(())
}

/// The events of `trace` one by one, so that each is found by its turn.
#[tactic(auto, using(crate::proofs::Expanding::entry_next, crate::proofs::Expanding::all_listed))]
pub(crate) fn listed(alloc: Global, trace: &Trace) -> Result<Vec<Event>, AllocError>
    ensures { IfOk result (λ events. events.items ≡ trace.now.items) }
{
    let mut events = Vec::with_capacity(alloc, trace.len() as usize)?;
    for entry in trace.entries() {
        add_times(&mut events, *entry)?;
    }
    Ok(events)
}

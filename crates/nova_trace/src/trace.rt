ghost use Rattle.std.specs.Prelude.{◌≡◌, ◌+◌, ◌<◌, ◌≤◌, ◌^◌, ◌++◌, [], ◌∷◌, length, replicate, vec_len, vec_capacity, IfOk, OnOk};
ghost use Rattle.std.specs.Bool.{OnTrue};
ghost use Rattle.nova_trace.specs.Traces.{events_of, IsLast};

use nova_model::{Event, EventKind};
use std::alloc::{AllocError, Global};
use std::marker::Model;

/// An event that comes `count` times, one after another.
#[derive(Clone, Copy)]
pub struct Repeated {
    pub event: Event,
    pub count: u64,
}

/// Events in order, with room for more. A plain step that comes again and again is kept once, with how many times it comes.
#[derive(Drop)]
pub struct Trace {
    entries: Vec<Repeated>,
    len: u64,
}

impl Model for Trace {
    ghost use Rattle.std.specs.Prelude.{◌≡◌, ◌≤◌, ◌<◌, length, vec_len, vec_capacity};
    ghost use Rattle.nova_trace.specs.Traces.{TraceView, events_of};

    ghost Value = { TraceView };

    ghost view = { λ t. record { items = events_of t.entries.items; capacity = vec_capacity t.entries } };

    ghost invariant = { λ t. (t.len ≡ length (events_of t.entries.items)) × (vec_len t.entries ≤ t.len) };
}

/// Whether `a` and `b` are the same plain step.
fn is_same_step(a: &Event, b: &Event) -> bool
    ensures { OnTrue result (a.now ≡ b.now) }
{
    matches!(a.kind, EventKind::Step)
        && matches!(b.kind, EventKind::Step)
        && a.cpu == b.cpu
        && a.sc == b.sc
        && a.ec == b.ec
        && a.a == b.a
        && a.b == b.b
}

/// Whether the last of `entries` is of `event`, a plain step.
fn is_last(entries: &[Repeated], event: &Event) -> bool
    ensures { OnTrue result (IsLast entries.now event.now) }
{
    match entries.last() {
        Some(last) => is_same_step(&last.event, event),
        None => false,
    }
}

/// Adds `count` to the number of the last entry, whose event `event` is.
fn grow(entries: &mut Vec<Repeated>, event: Event, count: u64)
    requires last { IsLast entries.old.items event }
    requires fits { length (events_of entries.old.items) + count < 2 ^ 64 }
    ensures events { events_of entries.new.items ≡ events_of entries.old.items ++ replicate count event }
    ensures len { vec_len entries.new ≡ vec_len entries.old }
    ensures room { vec_capacity entries.new ≡ vec_capacity entries.old }
{
    if let Some(last) = entries.last_mut() {
        last.count += count;
    }
}

/// Adds an entry for `event`, which comes `count` times, in reserved room.
fn append(entries: &mut Vec<Repeated>, event: Event, count: u64)
    requires room { vec_len entries.old < vec_capacity entries.old }
    ensures events { events_of entries.new.items ≡ events_of entries.old.items ++ replicate count event }
    ensures len { vec_len entries.new ≡ vec_len entries.old + 1 }
    ensures room { vec_capacity entries.new ≡ vec_capacity entries.old }
{
    entries.push_reserved(Repeated { event, count });
}

impl Trace {
    /// No events, and room for `room` of them.
    pub fn with_capacity(alloc: Global, room: usize) -> Result<Trace, AllocError>
        ensures items { IfOk result (λ t. t.items ≡ []) }
        ensures room { IfOk result (λ t. room ≤ t.capacity) }
    {
        let entries = Vec::with_capacity(alloc, room)?;
        Ok(Trace { entries, len: 0 })
    }

    /// How many events there are.
    pub fn len(&self) -> u64
        ensures { result ≡ length self.now.items }
    {
        self.len
    }

    /// The events in order, each with the number of times that it comes.
    pub fn entries(&self) -> &[Repeated]
        ensures events { events_of result.now ≡ self.now.items }
        ensures few { length self.now.items < 2 ^ 64 }
    {
        let _few = self.len;
        self.entries.as_slice()
    }

    /// Makes room for `count` events more.
    pub fn reserve(&mut self, count: u64) -> Result<(), AllocError>
        ensures items { self.new.items ≡ self.old.items }
        ensures room { OnOk result (length self.new.items + count ≤ self.new.capacity) }
    {
        let more = (self.len - self.entries.len() as u64).saturating_add(count);
        self.entries.reserve(more as usize)
    }

    /// Adds `event` `count` times, at least once, in room that was made.
    #[inline(always)]
    pub fn add(&mut self, event: Event, count: u64)
        requires some { 0 < count }
        requires room { length self.old.items + count ≤ self.old.capacity }
        ensures items { self.new.items ≡ self.old.items ++ replicate count event }
        ensures room { self.new.capacity ≡ self.old.capacity }
        ensures few { length self.old.items + count < 2 ^ 64 }
    {
        if is_last(&self.entries, &event) {
            grow(&mut self.entries, event, count);
        } else {
            append(&mut self.entries, event, count);
        }
        self.len += count;
    }
}

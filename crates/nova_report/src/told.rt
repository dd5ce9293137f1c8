ghost use Rattle.std.specs.Prelude.{◌≡◌, ◌++◌, OnOk};
ghost use Rattle.std.specs.Bool.{OnTrue};
ghost use Rattle.nova_report.specs.Report.{event_line, event_rest};

use crate::events::event_word;
use crate::line::Line;
use nova_model::{Event, EventKind};
use std::alloc::AllocError;
use std::marker::Model;

/// The line of an event but for its place, as it was written last.
#[derive(Drop)]
pub(crate) struct Told {
    event: Event,
    rest: Line,
}

impl Model for Told {
    ghost use Rattle.std.specs.Prelude.{◌≡◌, ◌≤◌};
    ghost use Rattle.nova_model.specs.declared.event.Event.{Event};
    ghost use Rattle.nova_report.specs.Report.{event_rest};

    ghost Value = { Event };

    ghost view = { λ t. t.event };

    ghost invariant = { λ t. (t.rest.text ≡ event_rest t.event) × (23 ≤ t.rest.room) };
}

/// Whether two kinds are the same, of those that come most.
fn is_same_kind(a: EventKind, b: EventKind) -> bool
    ensures { OnTrue result (a ≡ b) }
{
    match a {
        EventKind::Begin => matches!(b, EventKind::Begin),
        EventKind::Answer => matches!(b, EventKind::Answer),
        EventKind::Sent => matches!(b, EventKind::Sent),
        _ => false,
    }
}

/// Whether two events have the same line but for its place.
fn is_alike(a: &Event, b: &Event) -> bool
    ensures { OnTrue result (event_rest a.now ≡ event_rest b.now) }
{
    is_same_kind(a.kind, b.kind) && a.cpu == b.cpu && a.ec == b.ec && a.a == b.a && a.b == b.b
}

impl Told {
    /// The line of an event but for its place.
    fn new(event: Event) -> Told
        ensures { result ≡ event }
    {
        let mut rest = Line::new();
        rest.put_number(u64::from(event.b));
        rest.put(b" ");
        rest.put_number(u64::from(event.a));
        rest.put(b" ");
        rest.put(event_word(event.kind).as_bytes());
        rest.put(b" ");
        rest.put_number(u64::from(event.ec));
        rest.put(b" ");
        rest.put_number(u64::from(event.cpu));
        rest.put(b" ");
        Told { event, rest }
    }

    /// Becomes the line of another event. Most are written again, so that this stays out of the code of each.
    #[inline(never)]
    fn tell(&mut self, event: &Event)
        ensures { self.new ≡ event.now }
    {
        *self = Told::new(*event);
    }

    /// Whether the line is that of an event, too.
    fn has_line_of(&self, event: &Event) -> bool
        ensures { OnTrue result (event_rest self.now ≡ event_rest event.now) }
    {
        is_alike(&self.event, event)
    }

    /// Writes the line with a place.
    fn write(&mut self, out: &mut Vec<u8>, place: u64) -> Result<(), AllocError>
        ensures { OnOk result (out.new.items ≡ out.old.items ++ event_line (place, self.old)) }
    {
        let room = self.rest.room();
        self.rest.put_number(place);
        self.rest.put(b"at ");
        let wrote = self.rest.add_to(out);
        self.rest.back_to(room);
        wrote
    }
}

/// Lines to begin with, of an event that has none.
pub(crate) fn none_told() -> [Told; 4] {
    let none = Event {
        cpu: 0,
        sc: 0,
        ec: 0,
        kind: EventKind::Step,
        a: 0,
        b: 0,
    };
    [
        Told::new(none),
        Told::new(none),
        Told::new(none),
        Told::new(none),
    ]
}

/// Writes the line of an event with its place. The rest of the line is made anew unless it is among those that were written last.
pub(crate) fn write_line(
    out: &mut Vec<u8>,
    lines: &mut [Told; 4],
    place: u64,
    event: &Event,
) -> Result<(), AllocError>
    ensures { OnOk result (out.new.items ≡ out.old.items ++ event_line (place, event.now)) }
{
    let told = &mut lines[(event.ec % 4) as usize];
    if !told.has_line_of(event) {
        told.tell(event);
    }
    told.write(out, place)
}

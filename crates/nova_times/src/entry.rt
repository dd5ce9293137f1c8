ghost use Rattle.std.specs.Prelude.{◌≡◌};
ghost use Rattle.nova_times.specs.Entries.{lesser, number, precedes, rank};

use nova_model::Due;

/// A moment of a processor, and what it is of.
#[derive(Clone, Copy)]
pub(crate) struct Entry {
    pub(crate) at: u64,
    pub(crate) due: Due,
}

/// The rank of what is due at a moment: an alarm comes before a deadline.
fn rank(due: Due) -> u32
    ensures { result ≡ rank due }
{
    match due {
        Due::Alarm(_) => 0,
        Due::Deadline(_) => 1,
    }
}

/// The number of the alarm or of the execution context of `due`.
fn number(due: Due) -> u32
    ensures { result ≡ number due }
{
    match due {
        Due::Alarm(alarm) => alarm,
        Due::Deadline(ec) => ec,
    }
}

/// Whether `a` comes before `b`: the lesser moment, then an alarm, then the lesser number.
fn precedes(a: &Entry, b: &Entry) -> bool
    ensures { result ≡ precedes a.now b.now }
{
    if a.at != b.at {
        return a.at < b.at;
    }
    let (first, second) = (rank(a.due), rank(b.due));
    if first != second {
        return first < second;
    }
    number(a.due) < number(b.due)
}

/// Which of `a` and `b` comes before the other; if only one is there, that one.
pub(crate) fn lesser(a: Option<Entry>, b: Option<Entry>) -> Option<Entry>
    ensures { result ≡ lesser a b }
{
    match (a, b) {
        (Some(first), Some(second)) => Some(if precedes(&second, &first) {
            second
        } else {
            first
        }),
        (Some(first), None) => Some(first),
        (None, _) => b,
    }
}

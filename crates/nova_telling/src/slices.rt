ghost use Rattle.std.specs.Prelude.{◌≡◌, ◌+◌, ◌++◌, ◌<◌, ◌≤◌, ◌^◌, count_by, find, length, option_map, position, reverse, take_while, OnOk, string_bytes};
ghost use Rattle.nova_telling.specs.Slices.{begins, goes_on, is_of, is_same, last_of, payer_text, slice_in, slice_line, slice_text_at, slices_text, who};

use nova_kernel::Event;
use nova_recording::is_passing;
use std::alloc::AllocError;

/// Turns of a processor, one after another, which the same scheduling context pays and in which the same execution context acts. It has the numbers
/// of the first and the last of them, how many they are, and what pays and acts.
#[derive(Clone, Copy)]
pub struct Slice {
    pub cpu: u32,
    pub first: usize,
    pub last: usize,
    pub turns: usize,
    pub payer: Option<(u32, u32)>,
}

/// The scheduling context that pays for the turn of `event`, and the execution context that acts in it; none where a deadline or an alarm comes, or
/// the clock alone goes on.
fn who(event: Event) -> Option<(u32, u32)>
    ensures { result ≡ who event }
{
    if is_passing(event.kind) {
        return None;
    }
    Some((event.sc, event.ec))
}

fn is_same(one: Option<(u32, u32)>, other: Option<(u32, u32)>) -> bool
    ensures { result ≡ is_same one other }
{
    match (one, other) {
        (Some((sc, ec)), Some((payer, actor))) => sc == payer && ec == actor,
        (None, None) => true,
        _ => false,
    }
}

/// Whether `turn` is not one of the processor of `event` in which another pays or acts.
fn goes_on(event: Event, turn: Event) -> bool
    ensures { result ≡ goes_on event turn }
{
    turn.cpu != event.cpu || is_same(who(event), who(turn))
}

/// The last of `before` that is of the processor of `event`.
fn previous(before: &[Event], event: Event) -> Option<&Event>
    ensures { option_map (λ e. e.now) result ≡ find (is_of event) (reverse before.now) }
{
    before.iter().rev().find(|turn| turn.cpu == event.cpu)
}

/// Whether a slice begins with the turn `event`, after `before`.
fn begins(before: &[Event], event: Event) -> bool
    ensures { result ≡ begins before.now event }
{
    match previous(before, event) {
        Some(turn) => !is_same(who(*turn), who(event)),
        None => true,
    }
}

/// How many of `turns` come before the next of the processor of `event` in which another pays or acts.
fn count_going_on(event: Event, turns: &[Event]) -> usize
    ensures { result ≡ length (take_while (goes_on event) turns.now) }
{
    turns
        .iter()
        .take_while(|turn| goes_on(event, **turn))
        .count()
}

/// The part of `turns` before the next of the processor of `event` in which another pays or acts.
fn going_on(event: Event, turns: &[Event]) -> &[Event]
    ensures { result.now ≡ take_while (goes_on event) turns.now }
{
    let end = count_going_on(event, turns).min(turns.len());
    turns.split_at(end).0
}

/// How many of `turns` are of the processor of `event`.
fn count_of(event: Event, turns: &[Event]) -> usize
    ensures { result ≡ count_by (is_of event) turns.now }
{
    turns.iter().filter(|turn| turn.cpu == event.cpu).count()
}

/// How many of `turns` come after the last of the processor of `event`.
fn after_last(event: Event, turns: &[Event]) -> Option<usize>
    ensures { result ≡ position (is_of event) (reverse turns.now) }
{
    turns.iter().rev().position(|turn| turn.cpu == event.cpu)
}

/// How far the last of `turns` of the processor of `event` is.
fn last_of(event: Event, turns: &[Event]) -> usize
    ensures within { result ≤ length turns.now }
    ensures last { result ≡ last_of event turns.now }
{
    let after = after_last(event, turns).unwrap_or(0);
    turns.len().saturating_sub(after + 1)
}

/// The slice of turns that go on from its first one.
fn slice_in(first: usize, event: Event, turns: &[Event]) -> Slice
    requires { first + length turns.now < 2 ^ 64 }
    ensures { result ≡ slice_in first event turns.now }
{
    Slice {
        cpu: event.cpu,
        first,
        last: first + last_of(event, turns),
        turns: count_of(event, turns),
        payer: who(event),
    }
}

fn write_payer(out: &mut String, payer: Option<(u32, u32)>) -> Result<(), AllocError>
    ensures { OnOk result (string_bytes out.new ≡ string_bytes out.old ++ payer_text payer) }
{
    match payer {
        Some((sc, ec)) => writeln!(out, " {sc} {ec}"),
        None => out.push_str(" - -\n"),
    }
}

fn write_slice(out: &mut String, slice: Slice) -> Result<(), AllocError>
    ensures { OnOk result (string_bytes out.new ≡ string_bytes out.old ++ slice_line slice) }
{
    let Slice {
        cpu,
        first,
        last,
        turns,
        payer,
    } = slice;
    write!(out, "slice {cpu} {first} {last} {turns}")?;
    write_payer(out, payer)
}

/// The slice that begins with the first of some turns, if one does.
fn write_slice_at(
    out: &mut String,
    first: usize,
    before: &[Event],
    event: Event,
    turns: &[Event],
) -> Result<(), AllocError>
    requires { first + length turns.now < 2 ^ 64 }
    ensures { OnOk result (string_bytes out.new ≡ string_bytes out.old ++ slice_text_at first before.now event turns.now) }
{
    if !begins(before, event) {
        return Ok(());
    }
    write_slice(out, slice_in(first, event, going_on(event, turns)))
}

/// The slices of some turns, the first of which has a number in the run.
pub(crate) fn write_slices(
    out: &mut String,
    first: usize,
    turns: &[Event],
) -> Result<(), AllocError>
    requires first { first < 2 ^ 32 }
    requires fits { length turns.now < 2 ^ 63 }
    ensures { OnOk result (string_bytes out.new ≡ string_bytes out.old ++ slices_text first turns.now) }
{
    for (i, event) in turns.iter().enumerate() {
        let (before, rest) = turns.split_at(i);
        write_slice_at(out, first + i, before, *event, rest)?;
    }
    Ok(())
}

ghost use Rattle.std.specs.Prelude.{◌≡◌, false, [], Some, None, IfOk, OnOk, OnErr};
ghost use Rattle.std.specs.List.{list_any};
ghost use Rattle.rv_model.specs.Step.{one};
ghost use Rattle.nova_guest.specs.Alone.{acted, applied, died, given, guest_space, raised, ran, replied, sent, stepped, taken, told};
ghost use Rattle.nova_guest.specs.Conditions.{IsGuest, IsInput, IsMap, ArePages, AreContents, WantsMemory};
ghost use Rattle.nova_guest.specs.Maps.{overlaps};

use crate::registers::write_back;
use crate::sight::Sight;
use nova_guest::{Guest, GuestState, Input, Map, Out};
use nova_range::Mtd;
use rv_core::Outcome;
use std::alloc::AllocError;
use std::mem;

/// The reason of an exit that a new guest raises first.
const STARTUP: u32 = 0;

/// The reason of an exit that answers a recall.
const RECALL: u32 = 8;

/// Applies `input` to `guest`, and returns what the guest puts out then. An input that the guest's state
/// doesn't admit changes nothing and puts out nothing. Memory can run out only where a map that is given
/// overlaps none. Of each map, and of one that is given, base and order are those of a range of pages, the
/// first frame is a multiple of `2^order`, and the last is below 2^32. Maps don't overlap. Each cell has 4,096
/// bytes. Base and order of a map that is taken are those of a range. The contents of a map that is given are
/// those of all its frames, or empty. What another stores has 1, 2 or 4 bytes and an offset that is a multiple
/// of that, below 4,096.
#[tactic(auto, unfolding(nova_guest::specs::Alone::applied))]
pub fn apply(guest: &mut Guest, input: &Input) -> Result<Option<Out>, AllocError>
    requires guest { IsGuest guest.old }
    requires input { IsInput input.now }
    ensures guest { OnOk result (guest.new ≡ (applied guest.old input.now).guest) }
    ensures out { IfOk result (λ o. o ≡ (applied guest.old input.now).out) }
    ensures refused { OnErr result (guest.new ≡ guest.old) }
    ensures wanted { OnErr result (WantsMemory guest.old input.now) }
    ensures kept { IsGuest guest.new }
{
    match input {
        Input::Own => return Ok(act(guest)),
        Input::Reply(mtd, words) => reply(guest, *mtd, words),
        Input::Recall => guest.recall = true,
        Input::Given {
            base,
            order,
            rights,
            frame,
            contents,
        } => {
            let map = Map {
                base: *base,
                order: *order,
                rights: *rights,
                frame: *frame,
            };
            give(guest, map, contents.as_slice())?;
        }
        Input::Taken { base, order } => take(guest, *base, *order),
        Input::Foreign {
            frame,
            offset,
            width,
            value,
        } => guest.cells.store(*frame, *offset, *width, *value),
        Input::Sent => send(guest),
        Input::Died => die(guest),
    }
    Ok(None)
}

/// Raises an exit of `guest`.
fn raise(guest: &mut Guest, reason: u32, q0: u32, q1: u32) -> Option<Out>
    ensures { told guest.new result ≡ raised guest.old reason q0 q1 }
{
    guest.state = GuestState::Exit { reason, q0, q1 };
    Some(Out::Exit { reason, q0, q1 })
}

/// Takes a turn of the guest's own.
fn act(guest: &mut Guest) -> Option<Out>
    requires { IsGuest guest.old }
    ensures acted { told guest.new result ≡ acted guest.old guest.old.state }
    ensures kept { IsGuest guest.new }
{
    match guest.state {
        GuestState::Fresh => raise(guest, STARTUP, 0, 0),
        GuestState::Ready => run(guest),
        _ => None,
    }
}

/// Lets the guest go on: a recall is answered by its exit before the next instruction.
fn run(guest: &mut Guest) -> Option<Out>
    requires { IsGuest guest.old }
    ensures ran { told guest.new result ≡ ran guest.old guest.old.recall }
    ensures kept { IsGuest guest.new }
{
    if guest.recall {
        guest.recall = false;
        raise(guest, RECALL, 0, 0)
    } else {
        step(guest)
    }
}

/// Executes the instruction at pc of `guest`.
fn step(guest: &mut Guest) -> Option<Out>
    requires { IsGuest guest.old }
    ensures stepped { told guest.new result ≡ stepped guest.old (one guest.old.regs (guest_space guest.old.maps guest.old.cells)) }
    ensures kept { IsGuest guest.new }
{
    let mut sight = lend(guest);
    let outcome = rv_core::step(&mut guest.regs, &mut sight);
    let Sight { maps, cells, out } = sight;
    guest.maps = maps;
    guest.cells = cells;
    match outcome {
        Outcome::Next => out,
        Outcome::Raise { reason, q0, q1 } => raise(guest, reason, q0, q1),
    }
}

/// Takes the maps and cells of `guest`, which are empty then.
fn lend(guest: &mut Guest) -> Sight
    requires { IsGuest guest.old }
    ensures sight { result ≡ record { maps = guest.old.maps; cells = guest.old.cells; out = None } }
    ensures rest { guest.new ≡ record guest.old { maps = []; cells = [] } }
{
    let no_maps = guest.maps.none();
    let no_cells = guest.cells.none();
    Sight {
        maps: mem::replace(&mut guest.maps, no_maps),
        cells: mem::replace(&mut guest.cells, no_cells),
        out: None,
    }
}

/// Sends the exit of `guest`.
fn send(guest: &mut Guest)
    ensures { guest.new ≡ sent guest.old guest.old.state }
{
    if let GuestState::Exit { .. } = guest.state {
        guest.state = GuestState::Waiting;
    }
}

/// Ends the guest: its exit finds no handler, or the handler ends.
fn die(guest: &mut Guest)
    ensures { guest.new ≡ died guest.old guest.old.state }
{
    match guest.state {
        GuestState::Exit { .. } | GuestState::Waiting => guest.state = GuestState::Dead,
        _ => {}
    }
}

/// Replies to the exit of `guest` with the groups `mtd` and their `words`.
fn reply(guest: &mut Guest, mtd: Mtd, words: &[u32; 33])
    ensures { guest.new ≡ replied guest.old mtd words.now guest.old.state }
{
    if let GuestState::Waiting = guest.state {
        guest.state = GuestState::Ready;
        write_back(&mut guest.regs, mtd, words);
    }
}

/// Gives `map`, with `contents`, to the guest.
fn give(guest: &mut Guest, map: Map, contents: &[u8]) -> Result<(), AllocError>
    requires guest { IsGuest guest.old }
    requires map { IsMap map }
    requires contents { AreContents map.order contents.now }
    ensures given { OnOk result (guest.new ≡ given guest.old map contents.now) }
    ensures refused { OnErr result (guest.new ≡ guest.old) }
    ensures wanted { OnErr result (list_any (overlaps map.base map.order) guest.old.maps ≡ false) }
    ensures kept { IsGuest guest.new }
{
    if guest.maps.overlap(map.base, map.order) {
        return Ok(());
    }
    let maps = guest.maps.with(map)?;
    guest.cells.add(map.frame, contents)?;
    guest.maps = maps;
    Ok(())
}

/// Takes the map of `base` and `order`, with each cell to which none that stays leads.
fn take(guest: &mut Guest, base: u32, order: u8)
    requires { IsGuest guest.old }
    ensures taken { guest.new ≡ taken guest.old base order }
    ensures kept { IsGuest guest.new }
{
    if guest.maps.has(base, order) {
        guest.maps.remove(base, order);
        guest.cells.keep(&guest.maps);
    }
}

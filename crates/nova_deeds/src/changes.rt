ghost use Rattle.std.specs.Prelude.{not, ◌≡◌, ◌==◌, ◌&&◌, true, IsSome};
ghost use Rattle.nova_model.specs.Deeds.{actor_after, recall, reason_number, skip_number, mark_number, parent_id, item_sign, sign_of};
ghost use Rattle.nova_ec.specs.Tables.{with_items};
ghost use Rattle.nova_model.specs.State.{ec_in, ec_of, with_ec};
ghost use Rattle.nova_deeds.specs.Acts.{changes_actor_only};

use nova_calls::numbers;
use nova_choice::Chosen;
use nova_ec::Ecs;
use nova_model::{Deed, EcState, Event, EventKind, ItemEnd, Mark, Reason, Skip, State};
use nova_range::Status;

/// The reason of a recall exit.
pub const RECALL: u32 = 8;

/// Whether the recall of `context` stays asked for after an exit of `reason`: a recall is answered by its own.
fn stays_recalled(context: &EcState, reason: u32) -> bool
    ensures { result ≡ (context.now.recall && not (reason == recall)) }
{
    context.recall && reason != RECALL
}

/// Raises an exit of `ec`; the registers stay.
fn raise(contexts: &mut Ecs, ec: u32, reason: u32, q0: u32, q1: u32)
    requires { IsSome (ec_in contexts.old.items ec) }
    ensures { contexts.new ≡ with_items contexts.old (with_ec contexts.old.items ec (actor_after (ec_of contexts.old.items ec) (Deed.Raises reason q0 q1))) }
{
    let is_recalled = stays_recalled(contexts.context(ec), reason);
    contexts.set_recall(ec, is_recalled);
    nova_ipc::exits::raise(contexts, ec, reason, q0, q1);
}

/// Changes the execution context `ec` as its `deed` does, where that tells others nothing.
#[tactic(auto, using(nova_ec::proofs::Steps::rests))]
pub fn change(contexts: &mut Ecs, ec: u32, deed: Deed)
    requires there { IsSome (ec_in contexts.old.items ec) }
    requires alone { changes_actor_only deed ≡ true }
    ensures { contexts.new ≡ with_items contexts.old (with_ec contexts.old.items ec (actor_after (ec_of contexts.old.items ec) deed)) }
{
    match deed {
        Deed::Raises { reason, q0, q1 } => raise(contexts, ec, reason, q0, q1),
        Deed::Dies { .. } => nova_ipc::exits::die(contexts, ec),
        Deed::Refuses { status, .. } => contexts.answer(ec, status, None),
        Deed::Tells { value, .. } => contexts.answer(ec, Status::Success, Some(value)),
        Deed::Makes { .. } | Deed::Recalls { .. } | Deed::Names { .. } => {
            contexts.answer(ec, Status::Success, None);
        }
        Deed::Opens { domain, .. } => contexts.set_state(ec, State::Granting(Some(domain))),
        Deed::Revokes { range, own } => contexts.set_state(ec, State::Revoking(range, own)),
        Deed::Returns => contexts.answer(ec, Status::Success, None),
        _ => {}
    }
}

/// Why a part is skipped, `reason`, as a number.
fn reason_number(reason: Reason) -> u32
    ensures { result ≡ reason_number reason }
{
    match reason {
        Reason::Rights => 3,
        Reason::Taken => 4,
        Reason::Busy => 5,
    }
}

/// Why an item is skipped as a whole, `skip`, as a number.
fn skip_number(skip: Skip) -> u32
    ensures { result ≡ skip_number skip }
{
    match skip {
        Skip::Empty => 1,
        Skip::Window => 2,
    }
}

/// The number of `mark`: a call is 0, and an exit 1.
fn mark_number(mark: Mark) -> u32
    ensures { result ≡ mark_number mark }
{
    match mark {
        Mark::Call => 0,
        Mark::Exit => 1,
    }
}

/// What the end of item `item` comes to in an event: the kind, and two numbers.
fn item_sign(item: u32, end: ItemEnd) -> (EventKind, u32, u32)
    ensures { result ≡ item_sign item end }
{
    match end {
        ItemEnd::Given(children) => (EventKind::Ended, item, children),
        ItemEnd::Skipped(skip) => (EventKind::Skip, skip_number(skip), item),
        ItemEnd::Translated(word) => (EventKind::Xlat, word, item),
    }
}

/// The id of `parent`, the parent of a child, as a number.
fn parent_id(parent: Option<u32>) -> u32
    ensures { result ≡ parent_id parent }
{
    parent.unwrap_or(0)
}

/// The sign of `deed`: the kind of its event, and two numbers.
#[inline(always)]
pub fn sign_of(deed: Deed) -> (EventKind, u32, u32)
    ensures { result ≡ sign_of deed }
{
    match deed {
        Deed::Rests | Deed::Steps => (EventKind::Step, 0, 0),
        Deed::Raises { reason, q0, .. } => (EventKind::Raise, reason, q0),
        Deed::Dies { reason, q0 } => (EventKind::Died, reason, q0),
        Deed::Waits { handler, .. } => (EventKind::Help, handler, 1),
        Deed::Sends {
            handler,
            reason,
            ..
        } => (EventKind::Sent, reason, handler),
        Deed::Refuses { call, status } => (EventKind::Answer, call, status.code()),
        Deed::Makes { call, .. } => (EventKind::Answer, call, 0),
        Deed::Recalls { .. } => (EventKind::Answer, numbers::EC_CTRL, 0),
        Deed::Tells { call, .. } => (EventKind::Answer, call, 0),
        Deed::Names { .. } => (EventKind::Answer, numbers::PT_CTRL, 0),
        Deed::Opens { domain, .. } => (EventKind::Begin, numbers::CREATE_PD, domain),
        Deed::Gives { child, .. } => (EventKind::Made, child.id, parent_id(child.parent)),
        Deed::Skips { reason, place, .. } => (EventKind::Skip, reason_number(reason), place),
        Deed::Finishes { item, end, .. } => item_sign(item, end),
        Deed::Calls { handler, .. } => (EventKind::Begin, numbers::CALL, handler),
        Deed::Helps { handler } => (EventKind::Help, handler, 0),
        Deed::Replies {
            caller,
            items: true,
            ..
        } => (EventKind::Begin, numbers::REPLY, caller),
        Deed::Replies { items: false, .. } => (EventKind::Answer, numbers::REPLY, 0),
        Deed::Aborts { handler, mark } => (EventKind::Abort, handler, mark_number(mark)),
        Deed::Revokes { range, .. } => (EventKind::Begin, numbers::REVOKE, range.base),
        Deed::Removes { leaf } => (EventKind::Gone, leaf.id, leaf.pd),
        Deed::Returns => (EventKind::Answer, numbers::REVOKE, 0),
        Deed::Ups { .. } | Deed::Downs { .. } => (EventKind::Answer, numbers::SM_CTRL, 0),
        Deed::Blocks { sm, .. } => (EventKind::Begin, numbers::SM_CTRL, sm),
    }
}

/// The event of a turn of the processor `cpu` by `chosen`, with the sign of its deed.
#[inline(always)]
pub fn event(cpu: u32, chosen: Chosen, sign: (EventKind, u32, u32)) -> Event
    ensures { result ≡ record { cpu = cpu; sc = chosen.sc; ec = chosen.actor; kind = sign.0; a = sign.1; b = sign.2 } }
{
    let (kind, a, b) = sign;
    Event {
        cpu,
        sc: chosen.sc,
        ec: chosen.actor,
        kind,
        a,
        b,
    }
}

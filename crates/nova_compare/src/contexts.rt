ghost use Rattle.std.specs.Prelude.{◌≡◌, length, slice_index};
ghost use Rattle.std.specs.Bool.{OnTrue};

use nova_model::{EcState, Mark, State};
use nova_range::{Kind, Range};
use rv_model::Regs;

/// That there are 32 registers.
fn count_registers(regs: &Regs)
    ensures count { length regs.now.x ≡ 32 }
{
    let mut copy = *regs;
    copy.put(1, &[]);
}

/// Whether the register files `a` and `b` are equal, of which x0 is equal.
fn same_registers(a: &Regs, b: &Regs) -> bool
    requires { slice_index a.now.x 0 ≡ slice_index b.now.x 0 }
    ensures { OnTrue result (a.now ≡ b.now) }
{
    count_registers(a);
    count_registers(b);
    if a.pc() != b.pc() {
        return false;
    }
    for i in 1..32 {
        if a.get(i) != b.get(i) {
            return false;
        }
    }
    true
}

/// Whether `a` and `b` are the same.
pub(crate) fn same_space(a: Kind, b: Kind) -> bool
    ensures { OnTrue result (a ≡ b) }
{
    match a {
        Kind::Mem => matches!(b, Kind::Mem),
        Kind::Obj => matches!(b, Kind::Obj),
    }
}

/// Whether `a` and `b` are equal.
fn same_range(a: Range, b: Range) -> bool
    ensures { OnTrue result (a ≡ b) }
{
    same_space(a.kind, b.kind) && a.base == b.base && a.order == b.order
}

/// Whether `a` and `b` are equal.
fn same_mark(a: Mark, b: Mark) -> bool
    ensures { OnTrue result (a ≡ b) }
{
    match a {
        Mark::Call => matches!(b, Mark::Call),
        Mark::Exit => matches!(b, Mark::Exit),
    }
}

/// Whether two handlers serve the same caller, or none.
fn same_caller(a: Option<(u32, Mark)>, b: Option<(u32, Mark)>) -> bool
    ensures { OnTrue result (a ≡ b) }
{
    match a {
        None => b.is_none(),
        Some((caller, mark)) => match b {
            None => false,
            Some((other, its)) => caller == other && same_mark(mark, its),
        },
    }
}

/// Whether `state` is that of an exit that was raised and isn't sent.
fn is_exiting(state: State, reason: u32, q0: u32, q1: u32) -> bool
    ensures { OnTrue result (state ≡ State.Exiting reason q0 q1) }
{
    match state {
        State::Exiting(r, a, b) => r == reason && a == q0 && b == q1,
        _ => false,
    }
}

/// Whether `state` is that of an exit that found this handler busy.
fn is_sending(state: State, reason: u32, q0: u32, q1: u32, handler: u32) -> bool
    ensures { OnTrue result (state ≡ State.Sending reason q0 q1 handler) }
{
    match state {
        State::Sending(r, a, b, h) => r == reason && a == q0 && b == q1 && h == handler,
        _ => false,
    }
}

/// Whether `state` is that of a context that gives to the protection domain `domain`, or, with none, takes the items of a call.
fn is_granting(state: State, domain: Option<u32>) -> bool
    ensures { OnTrue result (state ≡ State.Granting domain) }
{
    match state {
        State::Granting(None) => domain.is_none(),
        State::Granting(Some(new)) => match domain {
            None => false,
            Some(domain) => new == domain,
        },
        _ => false,
    }
}

/// Whether `state` is that of a context that revokes `range`.
fn is_revoking(state: State, range: Range, own: bool) -> bool
    ensures { OnTrue result (state ≡ State.Revoking range own) }
{
    match state {
        State::Revoking(its, owns) => same_range(its, range) && owns == own,
        _ => false,
    }
}

/// Whether `a` and `b` are equal.
fn same_state(a: State, b: State) -> bool
    ensures { OnTrue result (a ≡ b) }
{
    match a {
        State::Fresh => matches!(b, State::Fresh),
        State::Ready => matches!(b, State::Ready),
        State::Parked => matches!(b, State::Parked),
        State::Calling(handler) => matches!(b, State::Calling(h) if h == handler),
        State::Helping(handler) => matches!(b, State::Helping(h) if h == handler),
        State::Exiting(reason, q0, q1) => is_exiting(b, reason, q0, q1),
        State::Sending(reason, q0, q1, handler) => is_sending(b, reason, q0, q1, handler),
        State::Granting(domain) => is_granting(b, domain),
        State::Replying => matches!(b, State::Replying),
        State::Revoking(range, own) => is_revoking(b, range, own),
        State::Blocked(sm) => matches!(b, State::Blocked(s) if s == sm),
        State::Dead => matches!(b, State::Dead),
    }
}

/// Whether the execution contexts `a` and `b` are equal, of which x0 is equal.
pub(crate) fn same_context(a: &EcState, b: &EcState) -> bool
    requires { slice_index a.now.regs.x 0 ≡ slice_index b.now.regs.x 0 }
    ensures { OnTrue result (a.now ≡ b.now) }
{
    a.id == b.id
        && a.cpu == b.cpu
        && same_state(a.state, b.state)
        && same_registers(&a.regs, &b.regs)
        && same_caller(a.caller, b.caller)
        && a.recall == b.recall
}

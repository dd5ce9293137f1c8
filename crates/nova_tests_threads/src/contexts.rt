ghost use Rattle.std.specs.Prelude.{◌≡◌, false, None};

use nova_ec::{EcState, Ecs, Mark, State};
use nova_range::Status;
use rv_core::Regs;

/// A thread that is ready.
fn thread(id: u32) -> EcState
    ensures { result ≡ record { id = id; cpu = 0; state = State.Ready; regs = result.regs; caller = None; recall = false } }
{
    EcState {
        id,
        cpu: 0,
        state: State::Ready,
        regs: Regs::new(0, 0),
        caller: None,
        recall: false,
    }
}

/// The caller of an execution context as a test compares it, and whether it is of an exit.
fn caller_of(context: &EcState) -> Option<(u32, bool)> {
    let (caller, mark) = context.caller?;
    Some((caller, matches!(mark, Mark::Exit)))
}

#[test]
fn turns_go_along_edges(rt: HostRuntime) {
    let mut ecs = Ecs::new(rt.alloc());
    ecs.reserve(3).expect(&rt, "ample memory");
    ecs.add(Some(thread(0)));
    ecs.add(Some(thread(1)));
    ecs.add(Some(thread(2)));
    ecs.set_state(0, State::Calling(1));
    ecs.set_state(1, State::Helping(2));
    let end = ecs.chase(0);
    let circles = [ecs.circle(0, 2), ecs.circle(2, 0)];
    let copy = ecs.copy().expect(&rt, "ample memory");
    ecs.set_state(0, State::Parked);
    let ends = [end, copy.chase(0), ecs.chase(0)];
    assert!(rt; (ends, circles) == ([2, 2, 0], [true, false]));
}

/// The words of `handler` at its start, and of its caller after the answer: pc and x10 of both, and the caller's x11.
fn words(handler: &EcState, caller: &EcState) -> [u32; 5] {
    [
        handler.regs.pc(),
        handler.regs.get(10),
        caller.regs.pc(),
        caller.regs.get(10),
        caller.regs.get(11),
    ]
}

#[test]
fn a_call_is_served_and_answered(rt: HostRuntime) {
    let mut ecs = Ecs::new(rt.alloc());
    ecs.reserve(2).expect(&rt, "ample memory");
    ecs.add(Some(thread(0)));
    ecs.add(Some(thread(1)));
    ecs.park(1);
    ecs.set_state(0, State::Calling(1));
    ecs.serve(1, 0, Mark::Call, 64, 7, false);
    let served = (ecs.chase(0), ecs.acts(1));
    let handler = *ecs.context(1);
    ecs.park(1);
    ecs.answer(0, Status::BadHyp, Some(9));
    let answered = (ecs.chase(0), ecs.acts(0));
    let caller = *ecs.context(0);
    let words = words(&handler, &caller);
    let callers = [caller_of(&handler), caller_of(ecs.context(1))];
    let wanted = (
        [(1, true), (0, true)],
        [64, 7, 4, Status::BadHyp.code(), 9],
        [Some((0, false)), None],
    );
    assert!(rt; ([served, answered], words, callers) == wanted);
}

#[test]
fn a_call_with_items_takes_them_first(rt: HostRuntime) {
    let mut ecs = Ecs::new(rt.alloc());
    ecs.reserve(2).expect(&rt, "ample memory");
    ecs.add(Some(thread(0)));
    ecs.add(Some(thread(1)));
    ecs.serve(1, 0, Mark::Call, 64, 7, true);
    let takes_items = matches!(ecs.context(1).state, State::Granting(None));
    ecs.set_state(1, State::Replying);
    let acts = ecs.acts(1);
    ecs.set_caller(1, None);
    let alone = ecs.context(1).caller.is_none();
    assert!(rt; [takes_items, acts, alone] == [true; 3]);
}

/// Whether 1 and 0 share a processor, whether 1 is parked, and whether each is lost to the other.
fn seen(ecs: &Ecs) -> [bool; 4] {
    [
        ecs.share_processor(1, 0),
        ecs.is_parked(1),
        ecs.is_lost(1, 0),
        ecs.is_lost(0, 1),
    ]
}

#[test]
fn an_exit_is_served_and_resumed(rt: HostRuntime) {
    let mut ecs = Ecs::new(rt.alloc());
    ecs.reserve(2).expect(&rt, "ample memory");
    ecs.add(Some(thread(0)));
    ecs.add(Some(thread(1)));
    ecs.park(1);
    let parked = seen(&ecs);
    ecs.set_state(0, State::Calling(1));
    ecs.serve(1, 0, Mark::Exit, 64, 7, false);
    let served = seen(&ecs);
    let caller = caller_of(ecs.context(1));
    ecs.resume(0, &Regs::new(12, 16));
    let resumed = (ecs.acts(0), ecs.context(0).regs.pc());
    ecs.set_state(0, State::Blocked(5));
    let blocked = (ecs.actor(0), ecs.chase(0));
    assert!(rt; (parked, served) == ([true, true, false, false], [true, false, false, true]));
    assert!(rt; (caller, resumed, blocked) == (Some((0, true)), (true, 12), (None, 0)));
}

ghost use Rattle.std.specs.Prelude.{◌≡◌, None, IsTrue, false};
ghost use Rattle.nova_utcb.specs.Messages.{has_counts};

use nova_ec::{EcState, Ecs, Mark, State};
use nova_ipc::calls::laws::the_flag_says_not_to_wait;
use nova_ipc::calls::{abort, admit, answer, complete, help, send};
use nova_model::Admit;
use nova_utcb::Utcb;
use rv_model::Regs;
use std::alloc::{AllocError, Global};
use std::process::Abort;

/// Two threads, two handlers, a dead one, and a handler on another processor.
const ROOT: u32 = 0;

const OTHER: u32 = 1;

const HANDLER: u32 = 2;

const SECOND: u32 = 3;

const GONE: u32 = 4;

const FAR: u32 = 5;

const NOBODY: u32 = 6;

/// What comes of a call: a refusal's code, or one of these.
const HELPS: u32 = 100;

const SENT: u32 = 101;

fn context(id: u32, cpu: u32, state: State) -> EcState
    ensures { result ≡ record { id = id; cpu = cpu; state = state; regs = result.regs; caller = None; recall = false } }
{
    EcState {
        id,
        cpu,
        state,
        regs: Regs::new(64, 0),
        caller: None,
        recall: false,
    }
}

fn table(alloc: Global) -> Result<Ecs, AllocError> {
    let mut ecs = Ecs::new(alloc);
    ecs.reserve(6)?;
    ecs.add(Some(context(0, 0, State::Ready)));
    ecs.add(Some(context(1, 0, State::Ready)));
    ecs.add(Some(context(2, 0, State::Parked)));
    ecs.add(Some(context(3, 0, State::Parked)));
    ecs.add(Some(context(4, 0, State::Dead)));
    ecs.add(Some(context(5, 1, State::Parked)));
    Ok(ecs)
}

/// Words that are all different, with their counts.
fn numbered(base: u16, counts: u32) -> Utcb {
    let mut utcb = Utcb::new();
    for i in 1..128 {
        utcb.set(i, u32::from(base) + i as u32);
    }
    utcb.set(0, counts);
    utcb
}

/// A call, as far as it comes, to a portal that begins at 128 and has identifier 7.
fn call(ecs: &mut Ecs, from: &Utcb, to: &mut Utcb, caller: u32, handler: u32, flag: bool) -> u32
    requires { IsTrue (has_counts from.now) }
{
    the_flag_says_not_to_wait();
    match admit(ecs, caller, handler, flag) {
        Admit::Refused(status) => status.code(),
        Admit::Help => {
            help(ecs, caller, handler);
            HELPS
        }
        Admit::Send => {
            send(ecs, from, to, caller, handler, 128, 7);
            SENT
        }
    }
}

/// A reply without items to a call.
fn reply(rt: &impl Abort, ecs: &mut Ecs, handler: u32) {
    let caller = ecs.get(handler).expect(rt, "a handler").caller;
    assert!(rt; matches!(caller, Some((_, Mark::Call))));
    complete(ecs, handler);
}

/// What the execution context `ec` is about to do, as a number, its pc, and x10.
fn shown(rt: &impl Abort, ecs: &Ecs, ec: u32) -> (u32, u32, u32) {
    let context = ecs.get(ec).expect(rt, "an execution context");
    let state = match context.state {
        State::Ready => 1,
        State::Parked => 2,
        State::Calling(_) => 3,
        State::Helping(_) => 4,
        State::Granting(_) => 5,
        _ => 0,
    };
    (state, context.regs.pc(), context.regs.get(10))
}

/// Caller, handler and flag of a call, and what comes of it.
static CALLS: [(u32, u32, bool, u32); 9] = [
    (ROOT, HANDLER, false, SENT),
    // A busy handler.
    (OTHER, HANDLER, true, 1),
    (OTHER, HANDLER, false, HELPS),
    (HANDLER, SECOND, true, SENT),
    // A circle, with the flag and without it.
    (SECOND, HANDLER, true, 2),
    (SECOND, ROOT, false, 2),
    // A dead handler, one on another processor, and none.
    (SECOND, GONE, true, 2),
    (SECOND, FAR, false, 7),
    (SECOND, NOBODY, true, 7),
];

#[test]
fn calls_go_to_handlers_and_come_back(rt: HostRuntime) -> Result<(), AllocError> {
    let mut ecs = table(rt.alloc())?;
    let (from, mut to) = (numbered(1000, 2), numbered(5000, 0));
    for &(caller, handler, flag, wanted) in &CALLS {
        assert!(rt; from.has_counts());
        let came = call(&mut ecs, &from, &mut to, caller, handler, flag);
        assert!(rt; came == wanted, "{caller} {handler}");
    }
    let ends = [ecs.chase(ROOT), ecs.chase(OTHER)];
    let sent = [shown(&rt, &ecs, ROOT), shown(&rt, &ecs, SECOND)];
    reply(&rt, &mut ecs, SECOND);
    let first = (shown(&rt, &ecs, HANDLER), ecs.chase(OTHER));
    reply(&rt, &mut ecs, HANDLER);
    let second = (
        shown(&rt, &ecs, ROOT),
        shown(&rt, &ecs, HANDLER),
        ecs.chase(OTHER),
    );
    let wanted = (
        ([SECOND, SECOND], [(3, 64, 0), (1, 128, 7)]),
        ((1, 132, 0), HANDLER),
        ((1, 68, 0), (2, 132, 0), OTHER),
    );
    assert!(rt; ((ends, sent), first, second) == wanted);
    Ok(())
}

/// Words 0, 3, 4, 5 and 6.
fn copied(utcb: &Utcb) -> [u32; 5] {
    [
        utcb.word(0),
        utcb.word(3),
        utcb.word(4),
        utcb.word(5),
        utcb.word(6),
    ]
}

#[test]
fn words_are_copied_by_their_count(rt: HostRuntime) -> Result<(), AllocError> {
    let mut ecs = table(rt.alloc())?;
    let (from, mut to) = (numbered(1000, 0x0001_0002), numbered(5000, 0));
    assert!(rt; from.has_counts());
    let came = call(&mut ecs, &from, &mut to, ROOT, HANDLER, false);
    let mut back = numbered(9000, 0);
    answer(&from, &mut back);
    let answers = (
        came,
        shown(&rt, &ecs, HANDLER),
        [copied(&to), copied(&back)],
    );
    let words = [
        [0x0001_0002, 5003, 1004, 1005, 5006],
        [0x0001_0002, 9003, 1004, 1005, 9006],
    ];
    // It takes an item first.
    assert!(rt; answers == (SENT, (5, 128, 7), words));
    Ok(())
}

#[test]
fn callers_of_the_dead_are_answered(rt: HostRuntime) -> Result<(), AllocError> {
    let mut ecs = table(rt.alloc())?;
    let (from, mut to) = (Utcb::new(), Utcb::new());
    assert!(rt; from.has_counts());
    let came = call(&mut ecs, &from, &mut to, ROOT, HANDLER, false);
    ecs.get(HANDLER).expect(&rt, "a handler");
    ecs.set_state(HANDLER, State::Dead);
    assert!(rt; ecs.get(ROOT).is_some() && ecs.acts(ROOT));
    abort(&mut ecs, ROOT);
    let handler = ecs.get(HANDLER).expect(&rt, "a handler");
    let serves_root = matches!(handler.caller, Some((ROOT, Mark::Call)));
    assert!(rt; (came, shown(&rt, &ecs, ROOT), serves_root) == (SENT, (1, 68, 2), true));
    Ok(())
}

ghost use Rattle.std.specs.Prelude.{◌≡◌, None, false};

use nova_ec::{EcState, Ecs, Mark, State};
use nova_ipc::exits::{ExitAdmit, admit, die, raise, send, wait, write_back};
use nova_range::{Flags, Mtd};
use nova_utcb::Utcb;
use rv_model::Regs;
use std::alloc::{AllocError, Global};
use std::process::Abort;

/// Four threads, two handlers, a handler that is dead, and one on another processor.
const ROOT: u32 = 0;

const OTHER: u32 = 1;

const HANDLER: u32 = 2;

const SECOND: u32 = 3;

const GONE: u32 = 4;

const FAR: u32 = 5;

const THIRD: u32 = 6;

const FOURTH: u32 = 7;

const NOBODY: u32 = 8;

/// What comes of an exit.
const DIES: u32 = 0;

const WAITS: u32 = 1;

const SENT: u32 = 2;

/// Registers that are all different: pc is 64, and register `i` is `1000 + i`.
fn registers() -> Regs {
    let mut regs = Regs::new(64, 0);
    for i in 1..32 {
        regs.set(i, 1000 + i);
    }
    regs
}

fn context(id: u32, cpu: u32, state: State) -> EcState
    ensures { result ≡ record { id = id; cpu = cpu; state = state; regs = result.regs; caller = None; recall = false } }
{
    EcState {
        id,
        cpu,
        state,
        regs: registers(),
        caller: None,
        recall: false,
    }
}

fn table(alloc: Global) -> Result<Ecs, AllocError> {
    let mut ecs = Ecs::new(alloc);
    ecs.reserve(8)?;
    ecs.add(Some(context(0, 0, State::Ready)));
    ecs.add(Some(context(1, 0, State::Ready)));
    ecs.add(Some(context(2, 0, State::Parked)));
    ecs.add(Some(context(3, 0, State::Parked)));
    ecs.add(Some(context(4, 0, State::Dead)));
    ecs.add(Some(context(5, 1, State::Parked)));
    ecs.add(Some(context(6, 0, State::Ready)));
    ecs.add(Some(context(7, 0, State::Ready)));
    Ok(ecs)
}

/// Words that are all different.
fn numbered(base: u16) -> Utcb {
    let mut utcb = Utcb::new();
    for i in 0..128 {
        utcb.set(i, u32::from(base) + i as u32);
    }
    utcb
}

/// An exit that is raised, or waits, to a portal that begins at 128 and has identifier 7: what comes of
/// it.
fn exit(ecs: &mut Ecs, to: &mut Utcb, ec: u32, handler: u32, mtd: Mtd) -> Option<u32> {
    let (State::Exiting(reason, q0, q1) | State::Sending(reason, q0, q1, _)) = ecs.get(ec)?.state
    else {
        return None;
    };
    match admit(ecs, ec, handler) {
        ExitAdmit::Dies => {
            die(ecs, ec);
            Some(DIES)
        }
        ExitAdmit::Waits => {
            wait(ecs, ec, handler, reason, q0, q1);
            Some(WAITS)
        }
        ExitAdmit::Sends => {
            send(ecs, to, ec, handler, 128, 7, mtd);
            Some(SENT)
        }
    }
}

/// A reply to an exit, with these words.
fn reply(rt: &impl Abort, ecs: &mut Ecs, message: &Utcb, handler: u32) {
    let caller = ecs.get(handler).expect(rt, "a handler").caller;
    assert!(rt; matches!(caller, Some((_, Mark::Exit))));
    write_back(ecs, message, handler);
}

/// What the execution context `ec` is about to do, as a number, and its pc, x1 and x10.
fn shown(rt: &impl Abort, ecs: &Ecs, ec: u32) -> (u32, u32, u32, u32) {
    let context = ecs.get(ec).expect(rt, "an execution context");
    let state = match context.state {
        State::Ready => 1,
        State::Parked => 2,
        State::Calling(_) => 3,
        State::Sending(..) => 4,
        State::Dead => 5,
        _ => 0,
    };
    let regs = context.regs;
    (state, regs.pc(), regs.get(1), regs.get(10))
}

/// Which context raises an exit, to which handler, and what comes of it.
static EXITS: [(u32, u32, u32); 7] = [
    (ROOT, HANDLER, SENT),
    // A busy handler.
    (OTHER, HANDLER, WAITS),
    (HANDLER, SECOND, SENT),
    // A circle.
    (SECOND, ROOT, DIES),
    // A dead handler, one on another processor, and none.
    (THIRD, GONE, DIES),
    (FOURTH, FAR, DIES),
    (FAR, NOBODY, DIES),
];

/// An exit of the execution context `ec`, which is there, with all groups: what comes of it.
fn come(rt: &impl Abort, ecs: &mut Ecs, to: &mut Utcb, ec: u32, handler: u32) -> Option<u32> {
    ecs.get(ec).expect(rt, "an execution context");
    raise(ecs, ec, 3, 77, 88);
    exit(ecs, to, ec, handler, Mtd::from_bits_retain(15))
}

/// The root and its neighbour, and two handlers.
fn first_four(rt: &impl Abort, ecs: &Ecs) -> [(u32, u32, u32, u32); 4] {
    [
        shown(rt, ecs, ROOT),
        shown(rt, ecs, OTHER),
        shown(rt, ecs, HANDLER),
        shown(rt, ecs, SECOND),
    ]
}

#[test]
fn exits_come_to_their_handlers(rt: HostRuntime) -> Result<(), AllocError> {
    let mut ecs = table(rt.alloc())?;
    let mut to = numbered(5000);
    for &(ec, handler, wanted) in &EXITS {
        let came = come(&rt, &mut ecs, &mut to, ec, handler);
        assert!(rt; came == Some(wanted), "{ec} {handler}");
    }
    let wanted = [
        (3, 64, 1001, 1010),
        (4, 64, 1001, 1010),
        (3, 128, 1001, 7),
        (5, 128, 1001, 7),
    ];
    assert!(rt; first_four(&rt, &ecs) == wanted);
    Ok(())
}

/// Words 0 to 10, 23, 24, 39 and 40.
fn message(utcb: &Utcb) -> [u32; 15] {
    let mut words = [0; 15];
    for i in 0..11 {
        words[i] = utcb.word(i);
    }
    words[11] = utcb.word(23);
    words[12] = utcb.word(24);
    words[13] = utcb.word(39);
    words[14] = utcb.word(40);
    words
}

/// What such a message has where it names qualifications and x1 to x15.
static MESSAGE: [u32; 15] = [
    36, 5001, 5002, 5003, 5, 77, 88, 0, 0, 1001, 1002, 1015, 0, 0, 5040,
];

#[test]
fn messages_have_the_groups_of_the_descriptor(rt: HostRuntime) -> Result<(), AllocError> {
    let mut ecs = table(rt.alloc())?;
    let mut to = numbered(5000);
    ecs.get(ROOT).expect(&rt, "a thread");
    raise(&mut ecs, ROOT, 3, 77, 88);
    let groups = Mtd::from_bits_retain(1 + 4);
    let came = exit(&mut ecs, &mut to, ROOT, HANDLER, groups);
    assert!(rt; (came, message(&to)) == (Some(SENT), MESSAGE));
    Ok(())
}

#[test]
fn exits_that_wait_are_sent_after_a_reply(rt: HostRuntime) -> Result<(), AllocError> {
    let mut ecs = table(rt.alloc())?;
    let mut to = numbered(5000);
    let all = Mtd::from_bits_retain(15);
    for (ec, q0, wanted) in [(ROOT, 77, SENT), (OTHER, 99, WAITS)] {
        ecs.get(ec).expect(&rt, "a thread");
        raise(&mut ecs, ec, 3, q0, q0 + 1);
        assert!(rt; exit(&mut ecs, &mut to, ec, HANDLER, all) == Some(wanted));
    }
    let end = ecs.chase(OTHER);
    reply(&rt, &mut ecs, &to, HANDLER);
    let replied = [shown(&rt, &ecs, ROOT), shown(&rt, &ecs, HANDLER)];
    let came = exit(&mut ecs, &mut to, OTHER, HANDLER, all);
    let sent = (came, to.word(5), to.word(6));
    let contexts = [(1, 64, 1001, 1010), (2, 128, 1001, 7)];
    assert!(rt; (end, replied, sent) == (HANDLER, contexts, (Some(SENT), 99, 100)));
    Ok(())
}

/// Registers pc, x0, x1, x15, x16 and x31.
fn named(regs: &Regs) -> [u32; 6] {
    [
        regs.pc(),
        regs.get(0),
        regs.get(1),
        regs.get(15),
        regs.get(16),
        regs.get(31),
    ]
}

/// What word 4 names, and pc, x0, x1, x15, x16 and x31 after the reply.
static BACK: [(u32, [u32; 6]); 4] = [
    (0, [64, 0, 1001, 1015, 1016, 1031]),
    (2, [5007, 0, 1001, 1015, 1016, 1031]),
    (1 + 4, [64, 0, 5009, 5023, 1016, 1031]),
    (8 + 16, [64, 0, 1001, 1015, 5024, 5039]),
];

/// A thread's exit with no group is sent, and its handler replies with words of which word 4 names these
/// groups: what came of the exit, whether the handler serves none, and the thread's registers.
fn replied(rt: &impl Abort, ecs: &mut Ecs, groups: u32) -> (Option<u32>, bool, [u32; 6]) {
    ecs.get(ROOT).expect(rt, "a thread");
    ecs.resume(ROOT, &registers());
    raise(ecs, ROOT, 3, 77, 88);
    let mut words = numbered(5000);
    let came = exit(ecs, &mut words, ROOT, HANDLER, Mtd::from_bits_retain(0));
    words = numbered(5000);
    words.set(4, groups);
    reply(rt, ecs, &words, HANDLER);
    let handler = ecs.get(HANDLER).expect(rt, "a handler");
    let thread = ecs.get(ROOT).expect(rt, "a thread");
    (came, handler.caller.is_none(), named(&thread.regs))
}

#[test]
fn replies_write_back_what_word_4_names(rt: HostRuntime) -> Result<(), AllocError> {
    let mut ecs = table(rt.alloc())?;
    for &(groups, wanted) in &BACK {
        let answer = replied(&rt, &mut ecs, groups);
        assert!(rt; answer == (Some(SENT), true, wanted), "{groups}");
    }
    Ok(())
}

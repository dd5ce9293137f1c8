use crate::merging::Merging;
use nova_compare::Vertex;
use nova_kernel::{AlarmState, EcState, Kernel, LogByte, State};

/// The hash of no words.
const FIRST: u64 = 0xcbf2_9ce4_8422_2325;

/// What a hash is multiplied by at each word.
const FACTOR: u64 = 0x9e37_79b9_7f4a_7c15;

/// `hash` with `word`.
fn with(hash: u64, word: u64) -> u64 {
    (hash ^ word).wrapping_mul(FACTOR).rotate_left(29)
}

/// What `state` is, as a number.
fn number_of(state: State) -> u64 {
    match state {
        State::Fresh => 0,
        State::Ready => 1,
        State::Parked => 2,
        State::Calling(handler) => 16 + u64::from(handler),
        State::Helping(_) => 3,
        State::Exiting(..) => 4,
        State::Sending(..) => 5,
        State::Granting(_) => 6,
        State::Replying => 7,
        State::Revoking(..) => 8,
        State::Blocked(_) => 9,
        State::Dead => 10,
    }
}

/// `hash` with `context`: its state, its program counter and its registers.
fn with_context(hash: u64, context: &EcState) -> u64 {
    let mut hash = with(hash, number_of(context.state));
    hash = with(hash, u64::from(context.regs.pc()));
    for i in 1..32 {
        hash = with(hash, u64::from(context.regs.get(i)));
    }
    hash
}

/// `hash` with how far the deadline of the execution context `ec` is from its clock, before or after, where it waits to one.
fn with_deadline(hash: u64, kernel: &Kernel, ec: u32) -> u64 {
    match kernel.deadline(ec) {
        Some(deadline) => with(hash, deadline.at.wrapping_sub(kernel.clock(deadline.cpu))),
        None => hash,
    }
}

/// `hash` with how often `alarm` rang, and how far its next moment is from its clock, where it goes on.
fn with_alarm(hash: u64, kernel: &Kernel, alarm: &AlarmState) -> u64 {
    let hash = with(hash, alarm.rings);
    if alarm.rings < alarm.alarm.count {
        with(hash, alarm.next.wrapping_sub(kernel.clock(alarm.alarm.cpu)))
    } else {
        hash
    }
}

/// `hash` with the alarms.
fn with_alarms(hash: u64, kernel: &Kernel) -> u64 {
    let mut hash = hash;
    let count = u32::try_from(kernel.sources().len()).unwrap_or(u32::MAX);
    for number in 0..count {
        if let Some(alarm) = kernel.alarm(number) {
            hash = with_alarm(hash, kernel, &alarm);
        }
    }
    hash
}

/// `hash` with the object of number `n`: an execution context, a scheduling context or a semaphore.
fn with_object(hash: u64, kernel: &Kernel, n: u32) -> u64 {
    if let Some(context) = kernel.ec(n) {
        return with_deadline(with_context(hash, context), kernel, n);
    }
    if let Some(left) = kernel.left(n) {
        return with(hash, u64::from(left));
    }
    match kernel.semaphore(n) {
        Some((count, waiting)) => with(with(hash, u64::from(count)), u64::from(waiting)),
        None => hash,
    }
}

/// `hash` with `frame`, of whose bytes each eight are a word. Every fourth word goes into one of four hashes, so that none waits for another.
fn with_frame(hash: u64, frame: &[u8]) -> u64 {
    let (words, _rest) = frame.as_chunks::<8>();
    let (rows, _rest) = words.as_chunks::<4>();
    let mut hashes = [hash, FIRST, FIRST, FIRST];
    for row in rows {
        hashes[0] = with(hashes[0], u64::from_le_bytes(row[0]));
        hashes[1] = with(hashes[1], u64::from_le_bytes(row[1]));
        hashes[2] = with(hashes[2], u64::from_le_bytes(row[2]));
        hashes[3] = with(hashes[3], u64::from_le_bytes(row[3]));
    }
    with(with(with(hashes[0], hashes[1]), hashes[2]), hashes[3])
}

/// `hash` with what consoles show, `log`.
fn with_log(hash: u64, log: &[LogByte]) -> u64 {
    let mut hash = hash;
    for byte in log {
        hash = with(hash, u64::from(byte.console) << 8 | u64::from(byte.value));
    }
    hash
}

/// The hash of the state of `vertex`, the same for states that are one. States of one hash may differ.
pub(crate) fn hash_of(vertex: &Vertex, merging: Merging) -> u64 {
    let kernel = vertex.kernel();
    let mut hash = match merging {
        Merging::Same => with(FIRST, kernel.turns()),
        Merging::Alike => FIRST,
    };
    for n in 0..kernel.objects().len() as u32 {
        hash = with_object(hash, kernel, n);
    }
    for frame in 0..kernel.ram() {
        hash = with_frame(hash, kernel.frame(frame));
    }
    with_log(with_alarms(hash, kernel), kernel.log())
}

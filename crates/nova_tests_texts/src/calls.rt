use nova_calls::{Call, SmAction, read_call};
use nova_range::{Flags, Kind, Range, Rights};
use rv_model::Regs;

/// The greatest selector.
const LAST: u32 = 0xf_ffff;

/// The first number after the selectors.
const BEYOND: u32 = 0x10_0000;

/// `range` in numbers: the type of its words, its base and its order.
fn place(range: Range) -> [u32; 3] {
    let kind = match range.kind {
        Kind::Mem => 1,
        Kind::Obj => 3,
    };
    [kind, range.base, u32::from(range.order)]
}

/// A first range in numbers: those of the range, and the rights; zeros for none.
fn first_range(first: Option<(Range, Rights)>) -> [u32; 4] {
    let Some((range, rights)) = first else {
        return [0; 4];
    };
    let [kind, base, order] = place(range);
    [kind, base, order, u32::from(rights.bits())]
}

/// What is done to a semaphore in numbers: its own, and the ticks of a deadline, 0 for none.
fn action_numbers(action: SmAction) -> [u32; 2] {
    match action {
        SmAction::Up => [0, 0],
        SmAction::Down => [1, 0],
        SmAction::DownWithin(ticks) => [2, ticks],
    }
}

/// A call in numbers: its own, and its arguments in order.
fn numbers(call: Call) -> [u32; 7] {
    match call {
        Call::Call { portal, flag } => [0, portal, u32::from(flag), 0, 0, 0, 0],
        Call::Reply => [1, 0, 0, 0, 0, 0, 0],
        Call::Revoke { range, own } => {
            let [kind, base, order] = place(range);
            [7, kind, base, order, u32::from(own), 0, 0]
        }
        Call::Lookup { range } => {
            let [kind, base, order] = place(range);
            [8, kind, base, order, 0, 0, 0]
        }
        Call::EcCtrl { ec } => [9, ec, 0, 0, 0, 0, 0],
        Call::ScCtrl { sc } => [10, sc, 0, 0, 0, 0, 0],
        Call::PtCtrl { pt, identifier } => [11, pt, identifier, 0, 0, 0, 0],
        Call::SmCtrl { sm, action } => {
            let [code, ticks] = action_numbers(action);
            [12, sm, code, ticks, 0, 0, 0]
        }
        creation => creation_numbers(creation),
    }
}

/// A call that makes an object, in numbers; all ones for another call.
fn creation_numbers(call: Call) -> [u32; 7] {
    match call {
        Call::CreatePd { target, pd, first } => {
            let [kind, base, order, rights] = first_range(first);
            [2, target, pd, kind, base, order, rights]
        }
        Call::CreateEc {
            target,
            pd,
            cpu,
            kind,
            sp,
            event,
        } => [3, target, pd, cpu, kind as u32, sp, event],
        Call::CreateSc {
            target,
            pd,
            ec,
            quantum,
            priority,
        } => [4, target, pd, ec, quantum, u32::from(priority), 0],
        Call::CreatePt {
            target,
            pd,
            ec,
            mtd,
            ip,
        } => [5, target, pd, ec, mtd.bits(), ip, 0],
        Call::CreateSm { target, pd, count } => [6, target, pd, count, 0, 0, 0],
        _ => [u32::MAX; 7],
    }
}

/// What is read with `number` in x17 and arguments from x10 on: the call in numbers, or the status.
fn reading(number: u32, arguments: [u32; 5]) -> Result<[u32; 7], u32> {
    let mut regs = Regs::new(0, 0);
    regs.set(17, number);
    let [x10, x11, x12, x13, x14] = arguments;
    regs.set(10, x10);
    regs.set(11, x11);
    regs.set(12, x12);
    regs.set(13, x13);
    regs.set(14, x14);
    match read_call(&regs) {
        Ok(call) => Ok(numbers(call)),
        Err(status) => Err(status.code()),
    }
}

/// Arguments in x10 to x14, and the call that they are read as.
static READ: [([u32; 5], [u32; 7]); 23] = [
    ([LAST, 0, 0, 0, 0], [0, LAST, 0, 0, 0, 0, 0]),
    ([0, 1, 0, 0, 0], [0, 0, 1, 0, 0, 0, 0]),
    ([BEYOND, BEYOND, BEYOND, 0, BEYOND], [1, 0, 0, 0, 0, 0, 0]),
    ([LAST, LAST, 639, 0, 0], [2, LAST, LAST, 3, 0, 4, 31]),
    ([32, 0, 0, 0, 0], [2, 32, 0, 0, 0, 0, 0]),
    ([32, 0, 0xffff_fffc, 0, 0], [2, 32, 0, 0, 0, 0, 0]),
    (
        [LAST, LAST, 0x1ff, 7, 0xf_fff7],
        [3, LAST, LAST, 255, 1, 7, 0xf_fff7],
    ),
    ([32, 0, 1, 0, 64], [3, 32, 0, 1, 0, 0, 64]),
    ([32, 0, 0x203, 0, 0], [3, 32, 0, 3, 2, 0, 0]),
    (
        [LAST, LAST, LAST, 0x1ff, 0],
        [4, LAST, LAST, LAST, 1, 255, 0],
    ),
    ([33, 0, 32, 0xffff_ff00, 0], [4, 33, 0, 32, 0xff_ffff, 0, 0]),
    (
        [LAST, LAST, LAST, 15, 0xffff_fffc],
        [5, LAST, LAST, LAST, 15, 0xffff_fffc, 0],
    ),
    ([33, 0, 32, 0, 256], [5, 33, 0, 32, 0, 256, 0]),
    (
        [LAST, LAST, 0xffff_ffff, 0, 0],
        [6, LAST, LAST, 0xffff_ffff, 0, 0, 0],
    ),
    ([1, 0, 0, 0, 0], [7, 1, 0, 0, 0, 0, 0]),
    ([0x0004_0213, 1, 0, 0, 0], [7, 3, 64, 4, 1, 0, 0]),
    ([0x0000_0a01, 0, 0, 0, 0], [8, 1, 0, 20, 0, 0, 0]),
    ([LAST, 0, 0, 0, 0], [9, LAST, 0, 0, 0, 0, 0]),
    ([LAST, 0, 0, 0, 0], [10, LAST, 0, 0, 0, 0, 0]),
    (
        [LAST, 0xffff_ffff, 0, 0, 0],
        [11, LAST, 0xffff_ffff, 0, 0, 0, 0],
    ),
    ([LAST, 0, 0, 0, 0], [12, LAST, 0, 0, 0, 0, 0]),
    ([32, 1, 0, 0, 0], [12, 32, 1, 0, 0, 0, 0]),
    ([32, 2, 3, 0, 0], [12, 32, 2, 3, 0, 0, 0]),
];

#[test]
fn calls_are_read(rt: HostRuntime) {
    for &(arguments, wanted) in &READ {
        let [number, ..] = wanted;
        let read = reading(number, arguments);
        assert!(rt; read == Ok(wanted), "{number}: {arguments:?}");
    }
}

/// Numbers of calls with arguments in x10 to x14 that are outside their ranges, so that the call is refused as BAD_PAR.
static REFUSED: [(u32, [u32; 5]); 32] = [
    (0, [BEYOND, 0, 0, 0, 0]),
    (0, [0, 2, 0, 0, 0]),
    (2, [BEYOND, 0, 0, 0, 0]),
    (2, [0, BEYOND, 0, 0, 0]),
    (2, [32, 0, 2, 0, 0]), // type 2
    (2, [32, 0, 0x0000_1081, 0, 0]), // base 1, order 1
    (3, [BEYOND, 0, 0, 0, 0]),
    (3, [0, BEYOND, 0, 0, 0]),
    (3, [32, 0, 0x300, 0, 0]),
    (3, [32, 0, 0x8000_0000, 0, 0]),
    (3, [32, 0, 0, 0, 0xf_fff8]),
    (4, [BEYOND, 0, 0, 0x100, 0]),
    (4, [0, BEYOND, 0, 0x100, 0]),
    (4, [0, 0, BEYOND, 0x100, 0]),
    (4, [33, 0, 32, 0xff, 0]),
    (5, [BEYOND, 0, 0, 0, 0]),
    (5, [0, BEYOND, 0, 0, 0]),
    (5, [0, 0, BEYOND, 0, 0]),
    (5, [33, 0, 32, 16, 0]),
    (5, [33, 0, 32, 0, 2]),
    (6, [BEYOND, 0, 0, 0, 0]),
    (6, [0, BEYOND, 0, 0, 0]),
    (7, [0, 0, 0, 0, 0]),
    (7, [4, 0, 0, 0, 0]), // null with other bits
    (7, [1, 2, 0, 0, 0]),
    (8, [0, 0, 0, 0, 0]),
    (8, [0x0000_0a81, 0, 0, 0, 0]), // order 21
    (9, [BEYOND, 0, 0, 0, 0]),
    (10, [BEYOND, 0, 0, 0, 0]),
    (11, [BEYOND, 0, 0, 0, 0]),
    (12, [BEYOND, 0, 0, 0, 0]),
    (12, [32, 3, 0, 0, 0]),
];

#[test]
fn arguments_outside_the_table_are_refused(rt: HostRuntime) {
    for &(number, arguments) in &REFUSED {
        let read = reading(number, arguments);
        assert!(rt; read == Err(6), "{number}: {arguments:?}");
    }
}

#[test]
fn numbers_above_12_are_unknown(rt: HostRuntime) {
    for number in [13, 99, 256, 0xffff_ffff] {
        let read = [reading(number, [BEYOND; 5]), reading(number, [0; 5])];
        assert!(rt; read == [Err(4), Err(4)], "{number}");
    }
}

ghost use Rattle.std.specs.Prelude.{◌≡◌, [], length};
ghost use Rattle.nova_guest.specs.Conditions.{AreContents, IsGuest, IsInput};

use bitflags::Flags;
use nova_alone::alone;
use nova_guest::{Bytes, Cells, Guest, GuestState, Input, Maps, Out};
use nova_range::{Mtd, Rights};
use rv_core::Regs;
use std::alloc::Global;
use std::process::Abort;

/// A guest at birth that reaches nothing. Its pc is 0, and register `i` is `1000 + i`.
fn newborn(alloc: Global) -> Guest
    ensures { IsGuest result }
{
    let mut regs = Regs::new(0, 0);
    for i in 1..32 {
        regs.set(i, 1000 + i);
    }
    Guest {
        regs,
        state: GuestState::Fresh,
        recall: false,
        maps: Maps::new(Vec::new(alloc)),
        cells: Cells::new(Vec::new(alloc)),
    }
}

/// An output as four numbers: 0, a reason and two qualifications, or 1, a frame, a byte and 0.
fn numbers(out: &Out) -> [u32; 4] {
    match out {
        Out::Exit { reason, q0, q1 } => [0, *reason, *q0, *q1],
        Out::Byte { frame, value } => [1, *frame, u32::from(*value), 0],
    }
}

/// An input comes, and memory is there for it.
fn apply(rt: &impl Abort, guest: &mut Guest, input: Input) -> Option<Out>
    requires guest { IsGuest guest.old }
    requires input { IsInput input }
    ensures { IsGuest guest.new }
{
    nova_alone::apply(guest, &input).expect(rt, "ample memory")
}

/// A page that begins with these words.
fn page(rt: &impl Abort, alloc: Global, words: &[u32]) -> Bytes
    ensures { length result ≡ 4096 }
{
    let mut bytes = Vec::new(alloc);
    for word in words {
        bytes
            .extend_from_slice(&word.to_le_bytes())
            .expect(rt, "ample memory");
    }
    bytes.resize(4096, 0).expect(rt, "ample memory");
    Bytes::new(bytes)
}

/// A map of all rights is given.
fn give(rt: &impl Abort, guest: &mut Guest, base: u32, order: u8, frame: u32, contents: Bytes)
    requires guest { IsGuest guest.old }
    requires contents { AreContents order contents }
    ensures { IsGuest guest.new }
{
    assert!(rt; order <= 20 && base < 1 << 20 && frame < 1 << 20);
    assert!(rt; base % (1 << order) == 0 && frame % (1 << order) == 0);
    let rights = Rights::from_bits_retain(7);
    let given = Input::Given {
        base,
        order,
        rights,
        frame,
        contents,
    };
    apply(rt, guest, given);
}

/// A map is taken.
fn take(rt: &impl Abort, guest: &mut Guest, base: u32, order: u8)
    requires { IsGuest guest.old }
    ensures { IsGuest guest.new }
{
    assert!(rt; order <= 20 && base < 1 << 20 && base % (1 << order) == 0);
    apply(rt, guest, Input::Taken { base, order });
}

/// Another stores a byte.
fn store(rt: &impl Abort, guest: &mut Guest, frame: u32)
    requires { IsGuest guest.old }
    ensures { IsGuest guest.new }
{
    let stored = Input::Foreign {
        frame,
        offset: 7,
        width: 1,
        value: 0x1ff,
    };
    apply(rt, guest, stored);
}

/// Takes `turns` turns of the guest's own, and notes what they put out in `outs`.
fn run(rt: &impl Abort, guest: &mut Guest, turns: u32, outs: &mut Vec<[u32; 4]>)
    requires { IsGuest guest.old }
    ensures { IsGuest guest.new }
{
    for _turn in 0..turns {
        if let Some(out) = apply(rt, guest, Input::Own) {
            outs.push(numbers(&out)).expect(rt, "ample memory");
        }
    }
}

/// How many maps and cells it has.
fn counts(guest: &Guest) -> (usize, usize) {
    (guest.maps.as_slice().len(), guest.cells.as_slice().len())
}

/// `state` as four numbers: all 0 at birth; 1, a reason and two qualifications of an exit that is raised; 2 for each other.
fn told(state: &GuestState) -> [u32; 4] {
    match state {
        GuestState::Fresh => [0; 4],
        GuestState::Exit { reason, q0, q1 } => [1, *reason, *q0, *q1],
        _ => [2; 4],
    }
}

#[test]
fn newborn_raises_its_startup_exit(rt: HostRuntime) {
    let born = alone(rt.alloc(), newborn(rt.alloc()), &[]);
    let (guest, outs) = born.expect(&rt, "ample memory");
    let before = (told(&guest.state), outs.len());
    let turned = alone(rt.alloc(), guest, &[Input::Own]);
    let (guest, outs) = turned.expect(&rt, "ample memory");
    let out = match outs.as_slice() {
        [out] => Some(numbers(out)),
        _ => None,
    };
    let after = (told(&guest.state), out);
    assert!(rt; (before, after) == (([0; 4], 0), ([1, 0, 0, 0], Some([0; 4]))));
}

/// lui x1, 1; addi x2, x0, 0x69; sw x2, 0x100(x1); lw x3, 0x100(x0); lui x4, 2; sb x3, 0(x4); ecall.
static PROGRAM: [u32; 7] = [
    0x0000_10b7,
    0x0690_0113,
    0x1020_a023,
    0x1000_2183,
    0x0000_2237,
    0x0032_0023,
    0x0000_0073,
];

/// Its startup exit, the byte on the console, and the exit of its call.
static OUTS: [[u32; 4]; 3] = [[0, 0, 0, 0], [1, 16, 0x69, 0], [0, 6, 0, 0]];

/// A guest with the program in a frame under pages 0 and 1, and a console under page 2.
fn programmed(rt: &impl Abort, alloc: Global) -> Guest
    ensures { IsGuest result }
{
    let mut guest = newborn(alloc);
    give(rt, &mut guest, 0, 0, 4, page(rt, alloc, &PROGRAM));
    give(rt, &mut guest, 1, 0, 4, page(rt, alloc, &PROGRAM));
    give(rt, &mut guest, 2, 0, 16, Bytes::new(Vec::new(alloc)));
    guest
}

/// Its first exit is sent, and the reply names no group.
fn answer(rt: &impl Abort, guest: &mut Guest)
    requires { IsGuest guest.old }
    ensures { IsGuest guest.new }
{
    apply(rt, guest, Input::Sent);
    apply(rt, guest, Input::Reply(Mtd::from_bits_retain(0), [0; 33]));
}

#[test]
fn two_pages_are_one_frame(rt: HostRuntime) {
    let mut guest = programmed(&rt, rt.alloc());
    let held = counts(&guest);
    let mut outs = Vec::new(rt.alloc());
    run(&rt, &mut guest, 1, &mut outs);
    answer(&rt, &mut guest);
    run(&rt, &mut guest, 8, &mut outs);
    let regs = (guest.regs.get(3), guest.regs.pc());
    assert!(rt; (held, regs) == ((3, 1), (0x69, 24)));
    assert!(rt; outs.as_slice() == OUTS.as_slice());
}

/// Which groups a reply names, and pc, and x0, x1, x15, x16 and x31 after it, where word `i` is
/// `5000 + i`.
static REPLIES: [(u32, u32, [u32; 5]); 5] = [
    (0, 0, [0, 1001, 1015, 1016, 1031]),
    (1, 0, [0, 1001, 1015, 1016, 1031]),
    (2, 5000, [0, 1001, 1015, 1016, 1031]),
    (4, 0, [0, 5002, 5016, 1016, 1031]),
    (8, 0, [0, 1001, 1015, 5017, 5032]),
];

/// Whether a newborn that waits for such a reply is ready after it, and its registers.
fn replied(rt: &impl Abort, alloc: Global, groups: u32) -> (bool, u32, [u32; 5]) {
    let mut words = [0; 33];
    for i in 0..33 {
        words[i] = 5000 + i as u32;
    }
    let mut guest = newborn(alloc);
    guest.state = GuestState::Waiting;
    apply(
        rt,
        &mut guest,
        Input::Reply(Mtd::from_bits_retain(groups), words),
    );
    let regs = guest.regs;
    let named = [
        regs.get(0),
        regs.get(1),
        regs.get(15),
        regs.get(16),
        regs.get(31),
    ];
    (matches!(guest.state, GuestState::Ready), regs.pc(), named)
}

#[test]
fn replies_write_the_groups_that_they_name(rt: HostRuntime) {
    for &(groups, pc, wanted) in &REPLIES {
        let answer = replied(&rt, rt.alloc(), groups);
        assert!(rt; answer == (true, pc, wanted), "{groups}");
    }
}

/// A page leads to frame 4, consoles are given, a map is taken, or another stores to a frame.
const PAGE: u32 = 0;

const CONSOLES: u32 = 1;

const TAKEN: u32 = 2;

const STORED: u32 = 3;

/// What comes, its base or frame, its order, and how many maps and cells there are after it.
static STEPS: [(u32, u32, u8, usize, usize); 8] = [
    (PAGE, 0, 0, 1, 1),
    (PAGE, 1, 0, 2, 1),
    (CONSOLES, 0, 1, 2, 1),
    (TAKEN, 0, 1, 2, 1),
    (STORED, 5, 0, 2, 1),
    (TAKEN, 0, 0, 1, 1),
    (TAKEN, 1, 0, 0, 0),
    (STORED, 4, 0, 0, 0),
];

/// A step of the table.
fn step(rt: &impl Abort, alloc: Global, guest: &mut Guest, kind: u32, at: u32, order: u8)
    requires { IsGuest guest.old }
    ensures { IsGuest guest.new }
{
    match kind {
        PAGE => give(rt, guest, at, 0, 4, page(rt, alloc, &[1])),
        CONSOLES => give(rt, guest, at, order, 16, Bytes::new(Vec::new(alloc))),
        TAKEN => take(rt, guest, at, order),
        _ => store(rt, guest, at),
    }
}

#[test]
fn cells_come_and_go_with_maps(rt: HostRuntime) {
    let mut guest = newborn(rt.alloc());
    for &(kind, at, order, maps, cells) in &STEPS {
        step(&rt, rt.alloc(), &mut guest, kind, at, order);
        assert!(rt; counts(&guest) == (maps, cells), "{kind} {at}");
    }
}

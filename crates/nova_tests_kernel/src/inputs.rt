// What turns are for a guest, as the kernel tells it before they are taken.
ghost use Rattle.std.specs.Prelude.{◌≡◌, ◌+◌, ◌^◌, ◌<◌, ◌≤◌};

use crate::machines::booted;
use crate::scenarios::{busy, served};
use bitflags::Flags;
use nova_guest::{Cell, Guest, GuestState, Input, Map};
use nova_kernel::{EcKind, Kernel, Object};
use nova_tests_bursts::drops::let_go;
use nova_tests_bursts::scenarios::GUEST;
use std::alloc::Global;
use std::process::Abort;

/// What a turn is for the guest, as a test compares it.
#[derive(Clone, Copy, PartialEq)]
enum Told {
    Own,
    Sent,
    Died,
    Recall,
    /// The groups, the word of pc, and the sum of all words.
    Reply(u32, u32, u32),
    /// Base, order, rights and frame, and whether the bytes are those of the frame.
    Given(u32, u8, u8, u32, bool),
    Taken(u32, u8),
    /// Frame, offset, width and value.
    Foreign(u32, u32, u32, u32),
}

/// Whether `bytes` are those of the RAM frame `frame`.
fn is_frame(kernel: &Kernel, frame: u32, bytes: &[u8]) -> bool {
    frame < kernel.ram() && bytes == kernel.frame(frame)
}

/// The sum of words.
fn sum(words: &[u32]) -> u32 {
    let mut sum: u32 = 0;
    for word in words {
        sum = sum.wrapping_add(*word);
    }
    sum
}

/// An input as a test compares it.
fn tell(kernel: &Kernel, input: &Input) -> Told {
    match input {
        Input::Own => Told::Own,
        Input::Sent => Told::Sent,
        Input::Died => Told::Died,
        Input::Recall => Told::Recall,
        Input::Reply(mtd, words) => Told::Reply(mtd.bits(), words[0], sum(words)),
        Input::Given {
            base,
            order,
            rights,
            frame,
            contents,
        } => {
            let is_frame = is_frame(kernel, *frame, contents.as_slice());
            Told::Given(*base, *order, rights.bits(), *frame, is_frame)
        }
        Input::Taken { base, order } => Told::Taken(*base, *order),
        Input::Foreign {
            frame,
            offset,
            width,
            value,
        } => Told::Foreign(*frame, *offset, *width, *value),
    }
}

/// What the next turn of the processor `cpu` is for the guest, if it is there.
fn next(rt: &impl Abort, alloc: Global, kernel: &mut Kernel, cpu: u32) -> Option<Told>
    requires { cpu < kernel.old.state.cpus }
    ensures { kernel.new ≡ kernel.old }
{
    let Some(
        Object::Ec {
            kind: EcKind::Vcpu,
            ..
        },
    ) = kernel.object(GUEST)
    else {
        return None;
    };
    let input = kernel.input(alloc, cpu, GUEST).expect(rt, "ample memory")?;
    let told = tell(kernel, &input);
    let_go(input);
    Some(told)
}

/// Which processor takes which turn.
#[derive(Clone, Copy)]
enum Order {
    /// All turns are of one processor.
    Alone,
    /// The guest and its monitor take all their turns after the 38 in which the root makes them; then the root goes on.
    Before,
    /// After those 38 turns each turn of the guest and its monitor is followed by two of the root.
    Mixed,
    /// The root goes on when the guest has its page, and stores to it before the guest loads from it.
    Stored,
}

/// The processor of a turn.
fn processor(order: Order, turn: u32) -> u32 {
    let is_second = match order {
        Order::Alone => false,
        Order::Before => (38..73).contains(&turn),
        Order::Mixed => (38..143).contains(&turn) && turn % 3 == 2,
        Order::Stored => (38..57).contains(&turn) || turn >= 139,
    };
    u32::from(is_second)
}

/// Takes `turns` turns in `order`, and returns those that are something for the guest, each by its number from 1 on, with what it is.
fn inputs(
    rt: &impl Abort,
    alloc: Global,
    kernel: &mut Kernel,
    order: Order,
    turns: u32,
) -> Vec<(u32, Told)>
    requires room { turns ≤ kernel.old.room }
    requires turns { kernel.old.state.turns + turns ≤ 2 ^ 31 }
{
    let mut all = Vec::new(alloc);
    for turn in 0..turns {
        let cpu = processor(order, turn);
        assert!(rt; cpu < kernel.cpus());
        if let Some(told) = next(rt, alloc, kernel, cpu) {
            all.push((turn + 1, told)).expect(rt, "ample memory");
        }
        kernel.turn(cpu).expect(rt, "ample memory");
    }
    all
}

/// The guest.
fn guest(rt: &impl Abort, alloc: Global, kernel: &Kernel) -> Guest {
    let Some(
        Object::Ec {
            kind: EcKind::Vcpu,
            ..
        },
    ) = kernel.object(GUEST)
    else {
        panic!(rt; "the guest is there");
    };
    kernel.view(alloc, GUEST).expect(rt, "ample memory")
}

/// What the turns of a run were for the guest, and the guest at the end.
#[derive(Drop)]
struct GuestRun {
    inputs: Vec<(u32, Told)>,
    guest: Guest,
}

/// A run of a scenario.
fn run(rt: &impl Abort, alloc: Global, text: &str, order: Order, turns: u32) -> GuestRun
    requires { turns ≤ 200 }
{
    let mut kernel = booted(rt, alloc, text);
    let inputs = inputs(rt, alloc, &mut kernel, order, turns);
    let guest = guest(rt, alloc, &kernel);
    let_go(kernel);
    GuestRun { inputs, guest }
}

/// A run in which the root goes on.
fn busy_run(rt: &impl Abort, alloc: Global, order: Order, turns: u32) -> GuestRun
    requires { turns ≤ 200 }
{
    let text = busy(alloc).expect(rt, "ample memory");
    let run = run(rt, alloc, text.as_str(), order, turns);
    let_go(text);
    run
}

/// Whether turns were the same for the guest, whatever their numbers.
fn have_same_inputs(a: &[(u32, Told)], b: &[(u32, Told)]) -> bool {
    for (a, b) in a.iter().zip(b) {
        if a.1 != b.1 {
            return false;
        }
    }
    a.len() == b.len()
}

/// `map` as a test compares it.
fn map_of(map: &Map) -> (u32, u8, u8, u32) {
    (map.base, map.order, map.rights.bits(), map.frame)
}

/// Whether the guests `a` and `b` have the same maps.
fn have_same_maps(a: &[Map], b: &[Map]) -> bool {
    for (a, b) in a.iter().zip(b) {
        if map_of(a) != map_of(b) {
            return false;
        }
    }
    a.len() == b.len()
}

/// Whether they have cells with the same bytes.
fn have_same_cells(a: &[Cell], b: &[Cell]) -> bool {
    for (a, b) in a.iter().zip(b) {
        if a.frame != b.frame || a.contents.as_slice() != b.contents.as_slice() {
            return false;
        }
    }
    a.len() == b.len()
}

/// Whether the guests `a` and `b` have the same registers, and either both have ended or none.
fn have_same_registers(a: &Guest, b: &Guest) -> bool {
    for n in 0..32 {
        if a.regs.get(n) != b.regs.get(n) {
            return false;
        }
    }
    a.regs.pc() == b.regs.pc()
        && a.recall == b.recall
        && matches!(a.state, GuestState::Dead) == matches!(b.state, GuestState::Dead)
}

/// Whether the guests `a` and `b` have the same maps, bytes and registers.
fn are_alike(a: &Guest, b: &Guest) -> bool {
    have_same_maps(a.maps.as_slice(), b.maps.as_slice())
        && have_same_cells(a.cells.as_slice(), b.cells.as_slice())
        && have_same_registers(a, b)
}

/// What the turns are for a guest from its startup to its end. Its monitor says where it begins, gives it a page and writes its byte.
static SERVED_INPUTS: [(u32, Told); 14] = [
    (38, Told::Own),
    (39, Told::Sent),
    (44, Told::Reply(2, 0, 0)),
    (45, Told::Own),
    (46, Told::Sent),
    (55, Told::Given(0, 0, 7, 1, true)),
    (56, Told::Reply(0, 0, 0)),
    (57, Told::Own),
    (58, Told::Own),
    (59, Told::Sent),
    (68, Told::Reply(2, 8, 8)),
    (69, Told::Own),
    (70, Told::Own),
    (71, Told::Died),
];

#[test]
fn each_turn_is_one_input_of_a_guest_or_nothing(rt: HostRuntime) {
    let text = served(rt.alloc()).expect(&rt, "ample memory");
    let run = run(&rt, rt.alloc(), text.as_str(), Order::Alone, 73);
    let is_so = run.inputs.as_slice() == SERVED_INPUTS.as_slice();
    let_go(run);
    assert!(rt; is_so);
}

/// Whether a run has 15 inputs, after which register 11 is 0, and `other` has the same.
fn are_equal(run: &GuestRun, other: &GuestRun) -> bool {
    run.inputs.len() == 15
        && run.guest.regs.get(11) == 0
        && have_same_inputs(&run.inputs, &other.inputs)
        && are_alike(&run.guest, &other.guest)
}

#[test]
fn others_may_revoke_delegate_help_and_store_between_equal_inputs(rt: HostRuntime) {
    let before = busy_run(&rt, rt.alloc(), Order::Before, 154);
    let mixed = busy_run(&rt, rt.alloc(), Order::Mixed, 154);
    let are_equal = are_equal(&before, &mixed);
    let_go(before);
    let_go(mixed);
    assert!(rt; are_equal);
}

/// Whether a run has 15 inputs, after which register 11 is 0, and `other` has a store of 7 more, which the guest then loads.
fn shows_the_store(run: &GuestRun, other: &GuestRun) -> bool {
    run.inputs.len() == 15
        && run.guest.regs.get(11) == 0
        && other.inputs.len() == 16
        && other.guest.regs.get(11) == 7
        && other.inputs.contains(&(139, Told::Foreign(1, 32, 4, 7)))
}

#[test]
fn a_guest_shows_the_one_input_that_differs(rt: HostRuntime) {
    let before = busy_run(&rt, rt.alloc(), Order::Before, 154);
    let stored = busy_run(&rt, rt.alloc(), Order::Stored, 155);
    let shows_the_store = shows_the_store(&before, &stored);
    let_go(before);
    let_go(stored);
    assert!(rt; shows_the_store);
}

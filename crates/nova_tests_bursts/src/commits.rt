// Leases of a guest, and what becomes of them when they are committed.
ghost use Rattle.std.specs.Prelude.{◌≡◌, ◌+◌, ◌^◌, ◌<◌, ◌≤◌};
ghost use Rattle.nova_burst.specs.Lending.{ComesAfter};

use crate::drops::let_go;
use crate::scenarios::{GUEST, LOOPS, apart};
use crate::turns::take;
use bitflags::Flags;
use law_leases::CommitDone;
use nova_boot::boot;
use nova_burst::{Lease, commit, lease};
use nova_guest::{Guest, GuestState};
use nova_kernel::{EcKind, Kernel, Object};
use nova_report::report;
use nova_scenario::read;
use nova_trace::Trace;
use std::alloc::Global;
use std::process::Abort;

/// A root that goes on to make a thread on the second processor that comes before the guest, object 10, in 11 turns, and loops.
const OVERTAKES: &str = "\
addi x17, x0, 3
addi x10, x0, 36
addi x11, x0, 0
addi x12, x0, 257
addi x14, x0, 80
ecall
addi x17, x0, 4
addi x10, x0, 37
addi x12, x0, 36
addi x13, x0, 259
ecall
jal x0, 0
";

/// A root that dies in its second turn.
const ALONE: &str = "cpus 1\nram 0\nconsoles 0\nroot 0 0 1 10\nimage 0 hex\n00100073\nend\n";

/// What became of a burst, as a test compares it.
#[derive(Clone, Copy, PartialEq)]
enum Told {
    Dropped { kept: (u64, u64), now: (u64, u64) },
    Away { actor: u32 },
    NoRoom { left: u64 },
    Committed(u64),
}

/// What became of a burst.
fn tell(done: CommitDone) -> Told {
    match done {
        CommitDone::Dropped { kept, now } => Told::Dropped { kept, now },
        CommitDone::Away { actor } => Told::Away { actor },
        CommitDone::NoRoom { left } => Told::NoRoom { left },
        CommitDone::Committed(turns) => Told::Committed(turns),
    }
}

/// The machine of `text`, in which the root makes the guest on the second processor, as it boots.
fn booted(rt: &impl Abort, alloc: Global, text: &str) -> Kernel
    ensures cpus { result.state.cpus ≡ 2 }
    ensures room { result.room ≡ 200 }
    ensures turns { result.state.turns ≡ 0 }
{
    let scenario = read(alloc, text.as_bytes()).expect(rt, "a scenario");
    let kernel = boot(alloc, &scenario, 200).expect(rt, "ample memory");
    let_go(scenario);
    assert!(rt; kernel.turns() == 0 && kernel.cpus() == 2);
    kernel
}

/// That machine after the 38 turns in which the root makes the guest, and 19 of the guest and its monitor, in which it gets its page.
pub(crate) fn prepared_from(rt: &impl Abort, alloc: Global, text: &str) -> Kernel
    ensures cpus { result.state.cpus ≡ 2 }
    ensures room { 100 ≤ result.room }
    ensures turns { result.state.turns ≤ 100 }
{
    let mut kernel = booted(rt, alloc, text);
    take(&mut kernel, 0, 38).expect(rt, "ample memory");
    take(&mut kernel, 1, 19).expect(rt, "ample memory");
    kernel
}

/// The machine whose root then goes on with `rest`, after those turns.
fn prepared(rt: &impl Abort, alloc: Global, rest: &str) -> Kernel
    ensures cpus { result.state.cpus ≡ 2 }
    ensures room { 100 ≤ result.room }
    ensures turns { result.state.turns ≤ 100 }
{
    let text = apart(alloc, rest).expect(rt, "ample memory");
    let kernel = prepared_from(rt, alloc, text.as_str());
    let_go(text);
    kernel
}

/// Whether a guest has the page of frame 1 alone.
fn has_its_page(guest: &Guest) -> bool {
    let ([map], [cell]) = (guest.maps.as_slice(), guest.cells.as_slice()) else {
        return false;
    };
    (map.base, map.order, map.rights.bits(), map.frame) == (0, 0, 7, 1) && cell.frame == 1
}

/// Whether a guest is Ready without recall flag, with all registers 0.
fn is_at_its_beginning(guest: &Guest) -> bool {
    for n in 0..32 {
        if guest.regs.get(n) != 0 {
            return false;
        }
    }
    guest.regs.pc() == 0 && !guest.recall && matches!(guest.state, GuestState::Ready)
}

/// Whether the guest is at its beginning, and has its page.
fn is_prepared(rt: &impl Abort, alloc: Global, kernel: &Kernel) -> bool {
    let Some(
        Object::Ec {
            kind: EcKind::Vcpu,
            ..
        },
    ) = kernel.object(GUEST)
    else {
        return false;
    };
    let guest = kernel.view(alloc, GUEST).expect(rt, "ample memory");
    let is_prepared = has_its_page(&guest) && is_at_its_beginning(&guest);
    let_go(guest);
    is_prepared
}

/// A lease of the guest, which has executed the only instruction that it can.
#[tactic(auto, using(crate::proofs::Stems::at_once))]
fn lent(rt: &impl Abort, alloc: Global, kernel: &mut Kernel) -> Lease
    ensures kept { kernel.new ≡ kernel.old }
    ensures after { ComesAfter result kernel.old.state }
{
    let Some(mut lent) = lease(kernel, alloc, 1, 4).expect(rt, "ample memory") else {
        panic!(rt; "the guest is about to step");
    };
    let ran = lent.run(4096);
    assert!(rt; ran == 1);
    lent
}

/// A lease, `turns` turns of the processor `cpu`, and a commit with room for `left` turns.
fn burst(
    rt: &impl Abort,
    alloc: Global,
    kernel: &mut Kernel,
    cpu: u32,
    turns: u64,
    left: u64,
) -> Told
    requires cpu { cpu < kernel.old.state.cpus }
    requires room { turns ≤ kernel.old.room }
    requires turns { kernel.old.state.turns + turns + left ≤ 2 ^ 31 }
{
    let lent = lent(rt, alloc, kernel);
    take(kernel, cpu, turns).expect(rt, "ample memory");
    tell(commit(kernel, lent, left))
}

/// The report of a machine, without its events.
fn eventless(rt: &impl Abort, alloc: Global, kernel: &Kernel) -> Vec<u8> {
    let none = Trace::with_capacity(alloc, 0).expect(rt, "ample memory");
    let text = report(alloc, kernel, &none).expect(rt, "ample memory");
    let_go(none);
    text
}

/// The report of that machine after those turns and `turns` more of the processor `cpu`, without its events.
fn after(rt: &impl Abort, alloc: Global, rest: &str, cpu: u32, turns: u64) -> Vec<u8>
    requires cpu { cpu < 2 }
    requires turns { turns ≤ 100 }
{
    let mut kernel = prepared(rt, alloc, rest);
    take(&mut kernel, cpu, turns).expect(rt, "ample memory");
    let text = eventless(rt, alloc, &kernel);
    let_go(kernel);
    text
}

/// A burst of the guest: what it shows, what the root goes on with, the turns that come between its lease and its commit, how many turns there
/// is room for, what becomes of it, and which turns then were taken in all since the guest got its page.
#[derive(Clone, Copy)]
struct Row {
    shows: &'static str,
    rest: &'static str,
    between: (u32, u64),
    left: u64,
    told: Told,
    taken: (u32, u64),
}

static ROWS: [Row; 4] = [
    Row {
        shows: "what was run is as many turns",
        rest: LOOPS,
        between: (0, 0),
        left: 5,
        told: Told::Committed(1),
        taken: (1, 1),
    },
    Row {
        shows: "a turn of its processor came between",
        rest: LOOPS,
        between: (1, 1),
        left: 5,
        told: Told::Dropped {
            kept: (5, 19),
            now: (5, 20),
        },
        taken: (1, 1),
    },
    Row {
        shows: "there is no room for another turn",
        rest: LOOPS,
        between: (0, 0),
        left: 0,
        told: Told::NoRoom { left: 0 },
        taken: (0, 0),
    },
    Row {
        shows: "another, of greater priority, would act",
        rest: OVERTAKES,
        between: (0, 11),
        left: 5,
        told: Told::Away { actor: 10 },
        taken: (0, 11),
    },
];

/// Whether a burst ends as its row says, and leaves the kernel as after the turns that its row says.
fn ends(rt: &impl Abort, alloc: Global, kernel: &mut Kernel, row: &Row) -> bool
    requires cpus { kernel.old.state.cpus ≡ 2 }
    requires room { 100 ≤ kernel.old.room }
    requires turns { kernel.old.state.turns ≤ 100 }
{
    let (cpu, turns) = row.between;
    let (other, taken) = row.taken;
    assert!(rt; cpu < 2 && other < 2 && turns <= 100 && taken <= 100 && row.left <= 100);
    let told = burst(rt, alloc, kernel, cpu, turns, row.left);
    let text = eventless(rt, alloc, kernel);
    let wanted = after(rt, alloc, row.rest, other, taken);
    told == row.told && text.as_slice() == wanted.as_slice()
}

/// Whether the guest of `row` is prepared, and its burst ends so.
fn is_so(rt: &impl Abort, alloc: Global, row: &Row) -> bool {
    let mut kernel = prepared(rt, alloc, row.rest);
    let is_so = is_prepared(rt, alloc, &kernel) && ends(rt, alloc, &mut kernel, row);
    let_go(kernel);
    is_so
}

#[test]
fn a_burst_is_committed_dropped_away_or_without_room(rt: HostRuntime) {
    for row in &ROWS {
        assert!(rt; is_so(&rt, rt.alloc(), row), "{}", row.shows);
    }
}

/// Whether anything is leased of the first processor.
fn is_leased(rt: &impl Abort, alloc: Global, kernel: &mut Kernel) -> bool {
    let lent = lease(kernel, alloc, 0, 16).expect(rt, "ample memory");
    let is_leased = lent.is_some();
    let_go(lent);
    is_leased
}

#[test]
fn what_is_no_guest_is_not_leased(rt: HostRuntime) {
    let scenario = read(rt.alloc(), ALONE.as_bytes()).expect(&rt, "a scenario");
    let mut kernel = boot(rt.alloc(), &scenario, 200).expect(&rt, "ample memory");
    let_go(scenario);
    let is_leased = is_leased(&rt, rt.alloc(), &mut kernel);
    let_go(kernel);
    assert!(rt; !is_leased);
}

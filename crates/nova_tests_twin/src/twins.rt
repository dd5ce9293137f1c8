// Two guests compared: a guest with its monitor against such as differ from them in one place.
ghost use Rattle.std.specs.Prelude.{◌≡◌, IfOk, IfSome};
ghost use Rattle.nova_scenario.specs.Sound.{IsSound};
ghost use Rattle.nova_twin.specs.Sides.{IsBeginning, IsSide};

use nova_boot::boot;
use nova_finished::RunFault;
use nova_following::collect;
use nova_kernel::Kernel;
use nova_order::Order;
use nova_scenario::{Scenario, read};
use nova_twin::{Side, Verdict, compare};
use std::alloc::Global;
use std::process::Abort;

/// The number of the guest that the root makes.
const GUEST: u32 = 8;

/// A guest that its monitor begins, gives a page and serves a call, up to the page that it gives, ..
static FRONT: &str =
    "cpus 1\nram 2\nconsoles 1\nroot 0 0 1 10\nimage 0 asm\naddi x17, x0, 3\naddi x10, x0, 32\naddi x14, x0, 48\necall\naddi x17, x0, 5\naddi x10, x0, 64\naddi x12, x0, 32\naddi x14, x0, 0x100\necall\naddi x10, x0, 66\naddi x14, x0, 0x140\necall\naddi x10, x0, 70\naddi x13, x0, 6\naddi x14, x0, 0x180\necall\naddi x17, x0, 2\naddi x10, x0, 33\nlui x12, 0x40\naddi x12, x12, 531\necall\naddi x17, x0, 3\naddi x10, x0, 34\naddi x11, x0, 33\naddi x12, x0, 512\naddi x13, x0, 0\naddi x14, x0, 64\necall\naddi x17, x0, 4\naddi x10, x0, 35\naddi x12, x0, 34\naddi x13, x0, 1794\necall\nebreak\nend\nimage 0x100 asm\nlui x5, 0xfffff\naddi x6, x0, 2\nsw x6, 16(x5)\naddi x17, x0, 1\necall\nend\nimage 0x140 asm\nlui x6, 16\nsw x6, 0(x5)\nlui x6, ";

/// .. from there to that page's image, ..
static MIDDLE: &str =
    "\naddi x6, x6, 29\nsw x6, 504(x5)\naddi x6, x0, 1\nsw x6, 508(x5)\necall\nend\nimage 0x180 asm\nlui x7, 4\nlw x6, 72(x5)\nsb x6, 0(x7)\nlw x6, 28(x5)\naddi x6, x6, 4\nsw x6, 28(x5)\naddi x6, x0, 2\nsw x6, 16(x5)\necall\nend\nimage 0x";

/// .. and after the guest's first instruction.
static LAST: &str = "\necall\naddi x10, x10, 1\nebreak\nend\n";

/// A run: the page that the guest is given, the number that it begins with, the order of its turns, and
/// whose side is collected.
#[derive(Clone, Copy)]
struct Run {
    page: &'static str,
    first: &'static str,
    order: &'static str,
    guest: u32,
}

/// The guest with its monitor, to its end.
static WHOLE: Run = Run {
    page: "1",
    first: "65",
    order: "0 73\n",
    guest: GUEST,
};

/// What is found of the whole run and another.
#[derive(Clone, Copy, PartialEq)]
enum Found {
    /// After this many inputs, with this many pairs, of which this is the first.
    Equal(u64, usize, Option<(u32, u32)>),
    Views,
    Differ(u64),
    None,
    Fault(RunFault),
}

/// What the other run is, and what is found.
#[derive(Clone, Copy)]
struct Row {
    shows: &'static str,
    other: Run,
    found: Found,
}

static ROWS: [Row; 6] = [
    Row {
        shows: "the same run: one frame is named",
        other: Run {
            page: "1",
            first: "65",
            order: "0 73\n",
            guest: GUEST,
        },
        found: Found::Equal(14, 1, Some((1, 1))),
    },
    Row {
        shows: "the guest's page is another frame",
        other: Run {
            page: "2",
            first: "65",
            order: "0 73\n",
            guest: GUEST,
        },
        found: Found::Equal(14, 1, Some((1, 2))),
    },
    Row {
        shows: "another number: the page that comes as the sixth input has other bytes",
        other: Run {
            page: "1",
            first: "66",
            order: "0 73\n",
            guest: GUEST,
        },
        found: Found::Differ(5),
    },
    Row {
        shows: "a run that ends a turn before",
        other: Run {
            page: "1",
            first: "65",
            order: "0 70\n",
            guest: GUEST,
        },
        found: Found::Differ(13),
    },
    Row {
        shows: "a thread is no guest",
        other: Run {
            page: "1",
            first: "65",
            order: "0 73\n",
            guest: 3,
        },
        found: Found::None,
    },
    Row {
        shows: "the processor is idle after the end",
        other: Run {
            page: "1",
            first: "65",
            order: "0 74\n",
            guest: GUEST,
        },
        found: Found::Fault(RunFault::OrderIdle(1)),
    },
];

/// The text of a run's scenario.
fn text_of(rt: &impl Abort, alloc: Global, run: &Run) -> String {
    let mut text = String::new(alloc);
    for part in [
        FRONT,
        run.page,
        MIDDLE,
        run.page,
        "000 asm\naddi x10, x0, ",
        run.first,
        LAST,
    ] {
        text.push_str(part).expect(rt, "ample memory");
    }
    text
}

/// The kernel that `scenario` begins with.
fn begin(rt: &impl Abort, alloc: Global, scenario: &Scenario) -> Kernel
    requires { IsSound scenario.now }
    ensures begins { IsBeginning result.state }
    ensures room { result.room ≡ 80 }
{
    match boot(alloc, scenario, 80) {
        Ok(kernel) => kernel,
        Err(_) => panic!(rt; "ample memory"),
    }
}

/// The side of a run's guest.
fn side_of(rt: &impl Abort, alloc: Global, run: &Run) -> Result<Option<Side>, RunFault>
    ensures { IfOk result (λ found. IfSome found IsSide) }
{
    let text = text_of(rt, alloc, run);
    let scenario = read(alloc, text.as_bytes()).expect(rt, "a scenario");
    let kernel = begin(rt, alloc, &scenario);
    assert!(rt; kernel.turns() == 0);
    let order = Order::read(alloc, run.order.as_bytes(), kernel.cpus(), 80).expect(rt, "an order");
    collect(alloc, kernel, &order, 80, run.guest)
}

/// What a verdict says.
fn told(verdict: &Verdict) -> Found {
    match verdict {
        Verdict::Equal { inputs, pairs } => Found::Equal(
            *inputs,
            pairs.len(),
            pairs.first().copied(),
        ),
        Verdict::Views => Found::Views,
        Verdict::Differ(inputs) => Found::Differ(*inputs),
    }
}

/// What is found of a side and another run.
fn found_of(rt: &impl Abort, alloc: Global, whole: &Side, other: &Run) -> Found
    requires { IsSide whole.now }
{
    match side_of(rt, alloc, other) {
        Ok(Some(side)) => told(&compare(whole, &side).expect(rt, "ample memory")),
        Ok(None) => Found::None,
        Err(fault) => Found::Fault(fault),
    }
}

#[test]
fn guests_are_the_same_but_for_frames_or_differ(rt: HostRuntime) {
    let alloc = rt.alloc();
    let Ok(Some(whole)) = side_of(&rt, alloc, &WHOLE) else {
        panic!(&rt; "the guest is there");
    };
    for row in &ROWS {
        assert!(rt;
            found_of(&rt, alloc, &whole, &row.other) == row.found,
            "{}",
            row.shows
        );
    }
}

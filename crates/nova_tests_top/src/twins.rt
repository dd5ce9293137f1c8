// Two guests compared.
use crate::rows::{call, file};
use nova_io::{MemDepot, MemFile, MemSink};
use nova_scenario::Why;
use nova_top::{Exit, OrderWhy, ScenarioWhy, TwinWhy};
use std::alloc::Global;
use std::process::Abort;
use std::sync::Wait;
use std::thread::Threads;

/// A guest and its monitor, which gives it a page and writes a byte for it.
const MONITOR: &str =
    "cpus 1\nram 2\nconsoles 1\nroot 0 0 1 10\nimage 0 asm\naddi x17, x0, 3\naddi x10, x0, 32\naddi x14, x0, 48\necall\naddi x17, x0, 5\naddi x10, x0, 64\naddi x12, x0, 32\naddi x14, x0, 0x100\necall\naddi x10, x0, 66\naddi x14, x0, 0x140\necall\naddi x10, x0, 70\naddi x13, x0, 6\naddi x14, x0, 0x180\necall\naddi x17, x0, 2\naddi x10, x0, 33\nlui x12, 0x40\naddi x12, x12, 531\necall\naddi x17, x0, 3\naddi x10, x0, 34\naddi x11, x0, 33\naddi x12, x0, 512\naddi x13, x0, 0\naddi x14, x0, 64\necall\naddi x17, x0, 4\naddi x10, x0, 35\naddi x12, x0, 34\naddi x13, x0, 1794\necall\nebreak\nend\nimage 0x100 asm\nlui x5, 0xfffff\naddi x6, x0, 2\nsw x6, 16(x5)\naddi x17, x0, 1\necall\nend\nimage 0x140 asm\nlui x6, 16\nsw x6, 0(x5)\nlui x6, 1\naddi x6, x6, 29\nsw x6, 504(x5)\naddi x6, x0, 1\nsw x6, 508(x5)\necall\nend\nimage 0x180 asm\nlui x7, 4\nlw x6, 72(x5)\nsb x6, 0(x7)\nlw x6, 28(x5)\naddi x6, x6, 4\nsw x6, 28(x5)\naddi x6, x0, 2\nsw x6, 16(x5)\necall\nend\nimage 0x1000 asm\naddi x10, x0, 65\necall\naddi x10, x10, 1\nebreak\nend\n";

/// The guest's page lies in another frame.
const ELSEWHERE: &str =
    "cpus 1\nram 2\nconsoles 1\nroot 0 0 1 10\nimage 0 asm\naddi x17, x0, 3\naddi x10, x0, 32\naddi x14, x0, 48\necall\naddi x17, x0, 5\naddi x10, x0, 64\naddi x12, x0, 32\naddi x14, x0, 0x100\necall\naddi x10, x0, 66\naddi x14, x0, 0x140\necall\naddi x10, x0, 70\naddi x13, x0, 6\naddi x14, x0, 0x180\necall\naddi x17, x0, 2\naddi x10, x0, 33\nlui x12, 0x40\naddi x12, x12, 531\necall\naddi x17, x0, 3\naddi x10, x0, 34\naddi x11, x0, 33\naddi x12, x0, 512\naddi x13, x0, 0\naddi x14, x0, 64\necall\naddi x17, x0, 4\naddi x10, x0, 35\naddi x12, x0, 34\naddi x13, x0, 1794\necall\nebreak\nend\nimage 0x100 asm\nlui x5, 0xfffff\naddi x6, x0, 2\nsw x6, 16(x5)\naddi x17, x0, 1\necall\nend\nimage 0x140 asm\nlui x6, 16\nsw x6, 0(x5)\nlui x6, 2\naddi x6, x6, 29\nsw x6, 504(x5)\naddi x6, x0, 1\nsw x6, 508(x5)\necall\nend\nimage 0x180 asm\nlui x7, 4\nlw x6, 72(x5)\nsb x6, 0(x7)\nlw x6, 28(x5)\naddi x6, x6, 4\nsw x6, 28(x5)\naddi x6, x0, 2\nsw x6, 16(x5)\necall\nend\nimage 0x2000 asm\naddi x10, x0, 65\necall\naddi x10, x10, 1\nebreak\nend\n";

/// The guest writes another byte.
const ANOTHER: &str =
    "cpus 1\nram 2\nconsoles 1\nroot 0 0 1 10\nimage 0 asm\naddi x17, x0, 3\naddi x10, x0, 32\naddi x14, x0, 48\necall\naddi x17, x0, 5\naddi x10, x0, 64\naddi x12, x0, 32\naddi x14, x0, 0x100\necall\naddi x10, x0, 66\naddi x14, x0, 0x140\necall\naddi x10, x0, 70\naddi x13, x0, 6\naddi x14, x0, 0x180\necall\naddi x17, x0, 2\naddi x10, x0, 33\nlui x12, 0x40\naddi x12, x12, 531\necall\naddi x17, x0, 3\naddi x10, x0, 34\naddi x11, x0, 33\naddi x12, x0, 512\naddi x13, x0, 0\naddi x14, x0, 64\necall\naddi x17, x0, 4\naddi x10, x0, 35\naddi x12, x0, 34\naddi x13, x0, 1794\necall\nebreak\nend\nimage 0x100 asm\nlui x5, 0xfffff\naddi x6, x0, 2\nsw x6, 16(x5)\naddi x17, x0, 1\necall\nend\nimage 0x140 asm\nlui x6, 16\nsw x6, 0(x5)\nlui x6, 1\naddi x6, x6, 29\nsw x6, 504(x5)\naddi x6, x0, 1\nsw x6, 508(x5)\necall\nend\nimage 0x180 asm\nlui x7, 4\nlw x6, 72(x5)\nsb x6, 0(x7)\nlw x6, 28(x5)\naddi x6, x6, 4\nsw x6, 28(x5)\naddi x6, x0, 2\nsw x6, 16(x5)\necall\nend\nimage 0x1000 asm\naddi x10, x0, 66\necall\naddi x10, x10, 1\nebreak\nend\n";

/// The guest begins with another stack pointer.
const STACK: &str =
    "cpus 1\nram 2\nconsoles 1\nroot 0 0 1 10\nimage 0 asm\naddi x17, x0, 3\naddi x10, x0, 32\naddi x14, x0, 48\necall\naddi x17, x0, 5\naddi x10, x0, 64\naddi x12, x0, 32\naddi x14, x0, 0x100\necall\naddi x10, x0, 66\naddi x14, x0, 0x140\necall\naddi x10, x0, 70\naddi x13, x0, 6\naddi x14, x0, 0x180\necall\naddi x17, x0, 2\naddi x10, x0, 33\nlui x12, 0x40\naddi x12, x12, 531\necall\naddi x17, x0, 3\naddi x10, x0, 34\naddi x11, x0, 33\naddi x12, x0, 512\naddi x13, x0, 4\naddi x14, x0, 64\necall\naddi x17, x0, 4\naddi x10, x0, 35\naddi x12, x0, 34\naddi x13, x0, 1794\necall\nebreak\nend\nimage 0x100 asm\nlui x5, 0xfffff\naddi x6, x0, 2\nsw x6, 16(x5)\naddi x17, x0, 1\necall\nend\nimage 0x140 asm\nlui x6, 16\nsw x6, 0(x5)\nlui x6, 1\naddi x6, x6, 29\nsw x6, 504(x5)\naddi x6, x0, 1\nsw x6, 508(x5)\necall\nend\nimage 0x180 asm\nlui x7, 4\nlw x6, 72(x5)\nsb x6, 0(x7)\nlw x6, 28(x5)\naddi x6, x6, 4\nsw x6, 28(x5)\naddi x6, x0, 2\nsw x6, 16(x5)\necall\nend\nimage 0x1000 asm\naddi x10, x0, 65\necall\naddi x10, x10, 1\nebreak\nend\n";

/// The files of each call, by name. The text of two guests is `pair`.
static FILES: [(&str, &str); 8] = [
    ("monitor", MONITOR),
    ("elsewhere", ELSEWHERE),
    ("another", ANOTHER),
    ("stack", STACK),
    ("faulty", "cpus 9\n"),
    ("order", "0 73\n"),
    ("idle", "0 74\n"),
    ("unmerged", "0 1\n0 72\n"),
];

/// A call of `twin pair`: what it shows, the text of two guests, its end, and what it writes.
type Twin = (&'static str, &'static str, Exit, &'static str);

static VERDICTS: [Twin; 6] = [
    (
        "a guest is like itself",
        "monitor order 8\nmonitor order 8\n",
        Exit::Done,
        "equal 14 frames 1\n",
    ),
    (
        "and like one whose page lies in another frame",
        "monitor order 8\nelsewhere order 0x8\n",
        Exit::Done,
        "equal 14 frames 1\n",
    ),
    (
        "the page of a guest that is given first differs in a byte",
        "monitor order 8\nanother order 8\n",
        Exit::Done,
        "differ 5\n",
    ),
    (
        "and the other way round",
        "another order 008\nmonitor order 8\n",
        Exit::Done,
        "differ 5\n",
    ),
    (
        "guests that are born unlike",
        "monitor order 8\nstack order 8\n",
        Exit::Done,
        "views\n",
    ),
    (
        "no virtual CPU has the number of the second line",
        "monitor order 8\nmonitor order 3\n",
        Exit::Twin {
            line: 2,
            why: TwinWhy::Guest,
        },
        "",
    ),
];

/// The first line is at fault, or the second or the third is.
const FIRST: Exit = Exit::Twin {
    line: 1,
    why: TwinWhy::Syntax,
};

const SECOND: Exit = Exit::Twin {
    line: 2,
    why: TwinWhy::Syntax,
};

const THIRD: Exit = Exit::Twin {
    line: 3,
    why: TwinWhy::Syntax,
};

static TEXTS: [Twin; 9] = [
    ("no line", "", FIRST, ""),
    ("one line", "monitor order 8\n", SECOND, ""),
    (
        "a first line without its line feed",
        "monitor order 8",
        FIRST,
        "",
    ),
    (
        "a second line without its line feed",
        "monitor order 8\nmonitor order 8",
        SECOND,
        "",
    ),
    (
        "a third line, if an empty one",
        "monitor order 8\nmonitor order 8\n\n",
        THIRD,
        "",
    ),
    ("two spaces", "monitor  order 8\nmonitor order\n", FIRST, ""),
    (
        "a guest that is no number",
        "monitor order 8\nmonitor order x\nmore",
        SECOND,
        "",
    ),
    (
        "a byte that no name has",
        "monitor order 8\nmonitor \torder 8\n",
        SECOND,
        "",
    ),
    (
        "the text comes before its names",
        "nobody order 8\nmonitor\n",
        SECOND,
        "",
    ),
];

static CAUSES: [Twin; 9] = [
    (
        "a scenario at fault",
        "faulty order 8\nmonitor order 8\n",
        Exit::Twin {
            line: 1,
            why: TwinWhy::Scenario {
                line: 1,
                why: ScenarioWhy::Text(Why::Range),
            },
        },
        "",
    ),
    (
        "an order at fault comes after its scenario",
        "faulty unmerged 8\nmonitor order 8\n",
        Exit::Twin {
            line: 1,
            why: TwinWhy::Scenario {
                line: 1,
                why: ScenarioWhy::Text(Why::Range),
            },
        },
        "",
    ),
    (
        "an order at fault",
        "monitor order 8\nmonitor unmerged 3\n",
        Exit::Twin {
            line: 2,
            why: TwinWhy::Order {
                line: 2,
                why: OrderWhy::NotMerged,
            },
        },
        "",
    ),
    (
        "an idle turn comes before the guest",
        "monitor idle 3\nmonitor order 8\n",
        Exit::Twin {
            line: 1,
            why: TwinWhy::Order {
                line: 1,
                why: OrderWhy::Idle,
            },
        },
        "",
    ),
    (
        "the first guest comes before the second scenario",
        "monitor order 3\nfaulty order 8\n",
        Exit::Twin {
            line: 1,
            why: TwinWhy::Guest,
        },
        "",
    ),
    (
        "a number of 2^32 or more is no virtual CPU's",
        "monitor order 4294967304\nmonitor order 8\n",
        Exit::Twin {
            line: 1,
            why: TwinWhy::Guest,
        },
        "",
    ),
    (
        "a name without a file",
        "monitor order 8\nnobody order 8\n",
        Exit::ReadFault,
        "",
    ),
    (
        "and of an order",
        "monitor nobody 8\nfaulty order 8\n",
        Exit::ReadFault,
        "",
    ),
    (
        "the first guest comes before a name without a file",
        "monitor order 3\nnobody order 8\n",
        Exit::Twin {
            line: 1,
            why: TwinWhy::Guest,
        },
        "",
    ),
];

/// A depot with the files and a text of two guests.
fn depot_with(rt: &impl Abort, alloc: Global, pair: &str) -> MemDepot {
    let mut files: Vec<MemFile> = Vec::new(alloc);
    for &(name, text) in &FILES {
        let file = file(rt, alloc, name, text, 0);
        files.push(file).expect(rt, "ample memory");
    }
    let file = file(rt, alloc, "pair", pair, 0);
    files.push(file).expect(rt, "ample memory");
    MemDepot::new(alloc, files, Vec::new(alloc), Vec::new(alloc)).expect(rt, "ample memory")
}

/// Makes a call over a text of two guests and a sink of `room` bytes, and tells whether its end and what is written are these.
fn ends_so<R: Abort + Threads + Wait + Sync>(
    rt: &R,
    alloc: Global,
    line: &str,
    twin: &Twin,
    room: u64,
) -> bool {
    let &(_, pair, wanted, text) = twin;
    let mut depot = depot_with(rt, alloc, pair);
    let mut out = MemSink::new(alloc, room, Vec::new(alloc)).expect(rt, "ample memory");
    let exit = call(rt, alloc, line, &mut depot, &mut out);
    exit == wanted && out.bytes() == text.as_bytes()
}

/// Makes the calls of these rows.
fn compare<R: Abort + Threads + Wait + Sync>(rt: &R, alloc: Global, twins: &[Twin]) {
    for twin in twins {
        let is_so = ends_so(rt, alloc, "twin pair", twin, 4096);
        assert!(rt; is_so, "{}", twin.0);
    }
}

#[test]
fn guests_are_equal_but_for_their_frames_or_differ(rt: HostRuntime) {
    compare(&rt, rt.alloc(), &VERDICTS);
}

#[test]
fn texts_name_two_guests(rt: HostRuntime) {
    compare(&rt, rt.alloc(), &TEXTS);
}

#[test]
fn lines_are_refused_at_their_first_fault(rt: HostRuntime) {
    compare(&rt, rt.alloc(), &CAUSES);
}

/// Calls with other words or another sink: the words, the room of the sink, and the rest of the row.
static CALLS: [(&str, u64, Twin); 3] = [
    (
        "twin pair --limit 72",
        4096,
        (
            "an order of more turns than the limit",
            "monitor order 8\nmonitor order 8\n",
            Exit::Twin {
                line: 1,
                why: TwinWhy::Order {
                    line: 1,
                    why: OrderWhy::TooMany,
                },
            },
            "",
        ),
    ),
    (
        "twin nobody",
        4096,
        (
            "no text",
            "monitor order 8\nmonitor order 8\n",
            Exit::ReadFault,
            "",
        ),
    ),
    (
        "twin pair",
        17,
        (
            "a sink without room for the line",
            "monitor order 8\nmonitor order 8\n",
            Exit::WriteFault,
            "",
        ),
    ),
];

#[test]
fn other_calls_end_so(rt: HostRuntime) {
    for (line, room, twin) in &CALLS {
        let is_so = ends_so(&rt, rt.alloc(), line, twin, *room);
        assert!(rt; is_so, "{}", twin.0);
    }
}

/// How a call ends whose text of two guests has `count` bytes of one line.
fn end_of_long<R: Abort + Threads + Wait + Sync>(rt: &R, alloc: Global, count: u64) -> Exit {
    let mut pair = String::new(alloc);
    for _ in 0..count {
        pair.push('a').expect(rt, "ample memory");
    }
    let mut depot = depot_with(rt, alloc, pair.as_str());
    let mut out = MemSink::new(alloc, 4096, Vec::new(alloc)).expect(rt, "ample memory");
    call(rt, alloc, "twin pair", &mut depot, &mut out)
}

#[test]
fn a_text_has_at_most_4096_bytes(rt: HostRuntime) {
    let too_long = Exit::Twin {
        line: 0,
        why: TwinWhy::TooLong,
    };
    assert!(rt; end_of_long(&rt, rt.alloc(), 4096) == FIRST);
    assert!(rt; end_of_long(&rt, rt.alloc(), 4097) == too_long);
}

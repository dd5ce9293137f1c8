// Bytes that are no text, and a word that is no instruction.
use crate::rows::{Run, call, run_all};
use nova_io::{MemDepot, MemFile, MemSink};
use nova_scenario::Why;
use nova_top::{Exit, ScenarioWhy};
use std::alloc::Global;
use std::process::Abort;
use std::sync::Wait;
use std::thread::Threads;

/// Scenarios with a byte 0x80 in their second line, and what `check` ends with and writes.
static SCENARIOS: [(&[u8], Exit, &[u8]); 2] = [
    (
        b"cpus 1\nram \x800\nconsoles 0\nroot 0 0 1 10\n",
        Exit::Scenario {
            line: 2,
            why: ScenarioWhy::Text(Why::Syntax),
        },
        b"",
    ),
    (
        b"cpus 1\nram 0 #\x80\nconsoles 0\nroot 0 0 1 10\n",
        Exit::Done,
        b"ok\n",
    ),
];

/// A depot of one scenario.
fn depot_of(rt: &impl Abort, alloc: Global, bytes: &[u8]) -> MemDepot {
    let scenario = MemFile {
        name: String::from_str(alloc, "scenario").expect(rt, "ample memory"),
        bytes: Vec::from_slice(alloc, bytes).expect(rt, "ample memory"),
        room: 0,
    };
    let mut files = Vec::with_capacity(alloc, 1).expect(rt, "ample memory");
    files.push_reserved(scenario);
    MemDepot::new(alloc, files, Vec::new(alloc), Vec::new(alloc)).expect(rt, "ample memory")
}

/// Whether `check` of a scenario ends and writes so.
fn checks_so<R: Abort + Threads + Wait + Sync>(
    rt: &R,
    alloc: Global,
    &(scenario, wanted, text): &(&[u8], Exit, &[u8]),
) -> bool {
    let mut depot = depot_of(rt, alloc, scenario);
    let mut out = MemSink::new(alloc, 3, Vec::new(alloc)).expect(rt, "ample memory");
    let exit = call(rt, alloc, "check scenario", &mut depot, &mut out);
    exit == wanted && out.bytes() == text
}

#[test]
fn a_byte_that_is_no_text_may_stand_in_a_comment_alone(rt: HostRuntime) {
    for row in &SCENARIOS {
        assert!(rt; checks_so(&rt, rt.alloc(), row));
    }
}

static OVERWRITTEN: [Run; 1] = [[
    "a word that a program stores over its next instruction is the one that is fetched",
    "cpus 1\nram 0\nconsoles 0\nroot 0 0 1 10\nimage 0 asm\naddi x5, x0, -1\nsw x5, 8(x0)\nnop\nend\n",
    "",
    "run quiet 4\nat 3 0 1 raise 1 4294967295\nat 4 0 1 died 1 4294967295\nec 1 global dead 00000008 x5=ffffffff\nsc 2 0 4\ncap 0 - 0 mem 0 0 7 0\ncap 1 - 0 obj 0 0 1 0\ncap 2 - 0 obj 1 0 7 1\ncap 3 - 0 obj 2 0 1 2\n",
]];

#[test]
fn a_program_that_overwrites_its_next_word_raises(rt: HostRuntime) {
    run_all(&rt, rt.alloc(), &OVERWRITTEN);
}

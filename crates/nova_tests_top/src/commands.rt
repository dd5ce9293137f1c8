// Commands: what they write, their exits, and the limit of turns.
use crate::rows::{ENDS, Row, run_rows};
use nova_scenario::Why;
use nova_top::{Exit, ScenarioWhy};

static ROWS: [Row; 9] = [
    Row {
        shows: "a valid scenario is ok",
        words: "check scenario",
        scenario: "root 0 0 1 10\nconsoles 0\nram 0\ncpus 1\n",
        order: None,
        room: 3,
        exit: Exit::Done,
        text: "ok\n",
    },
    Row {
        shows: "a sink without room gets nothing",
        words: "check scenario",
        scenario: "root 0 0 1 10\nconsoles 0\nram 0\ncpus 1\n",
        order: None,
        room: 2,
        exit: Exit::WriteFault,
        text: "",
    },
    Row {
        shows: "an empty text has no settings",
        words: "check scenario",
        scenario: "",
        order: None,
        room: 4096,
        exit: Exit::Scenario {
            line: 1,
            why: ScenarioWhy::Text(Why::Missing),
        },
        text: "",
    },
    Row {
        shows: "a name without a file",
        words: "solo other",
        scenario: "",
        order: None,
        room: 4096,
        exit: Exit::ReadFault,
        text: "",
    },
    Row {
        shows: "no command",
        words: "solo scenario --limit 0",
        scenario: "",
        order: None,
        room: 4096,
        exit: Exit::Usage,
        text: "",
    },
    Row {
        shows: "an order for a command that takes none",
        words: "check scenario order",
        scenario: ENDS,
        order: Some("0 2\n"),
        room: 4096,
        exit: Exit::Usage,
        text: "",
    },
    Row {
        shows: "an endless loop ends at the limit",
        words: "--limit 5 solo scenario",
        scenario: "cpus 1\nram 0\nconsoles 0\nroot 0 0 1 10\nimage 0 hex\n0000006f\nend\n",
        order: None,
        room: 4096,
        exit: Exit::Limit,
        text: "run open 5\nec 1 global ready 00000000\nsc 2 0 5\ncap 0 - 0 mem 0 0 7 0\ncap 1 - 0 obj 0 0 1 0\ncap 2 - 0 obj 1 0 7 1\ncap 3 - 0 obj 2 0 1 2\n",
    },
    Row {
        shows: "the limit comes while a first range is given",
        words: "solo scenario --limit 5",
        scenario: "cpus 1\nram 0\nconsoles 0\nroot 0 0 1 10\nimage 0 asm\naddi x17, x0, 2\naddi x10, x0, 32\naddi x12, x0, 639\necall\nebreak\nend\n",
        order: None,
        room: 4096,
        exit: Exit::Limit,
        text: "run open 5\nat 4 0 1 begin 2 3\nat 5 0 1 made 5 1\nec 1 global granting 0000000c x10=00000020 x12=0000027f x17=00000002\nsc 2 0 5\ncap 0 - 0 mem 0 0 7 0\ncap 1 - 0 obj 0 0 1 0\ncap 2 - 0 obj 1 0 7 1\ncap 3 - 0 obj 2 0 1 2\ncap 4 - 0 obj 32 0 1 3\ncap 5 1 3 obj 0 0 1 0\n",
    },
    Row {
        shows: "the limit comes while the items of a reply are given",
        words: "solo scenario --limit 69",
        scenario: "cpus 1\nram 2\nconsoles 0\nroot 0 0 1 10\nimage 0 asm\naddi x17, x0, 2\naddi x10, x0, 32\naddi x12, x0, 0x115\necall\naddi x17, x0, 3\naddi x10, x0, 33\naddi x11, x0, 32\naddi x12, x0, 0\necall\naddi x17, x0, 5\naddi x10, x0, 34\naddi x11, x0, 0\naddi x12, x0, 33\nli x14, 0x1000\necall\naddi x10, x0, 35\nli x14, 0x1100\necall\naddi x17, x0, 0\naddi x10, x0, 34\naddi x11, x0, 0\necall\nlui x5, 0xfffff\nlui x6, 0x20\nsw x6, 0(x5)\nli x6, 0x200d\nsw x6, 0x1f8(x5)\nli x6, 0x1001\nsw x6, 0x1fc(x5)\nli x6, 0x3005\nsw x6, 0x1f0(x5)\nsw x0, 0x1f4(x5)\nli x6, 0x101\nsw x6, 4(x5)\naddi x17, x0, 0\naddi x10, x0, 35\naddi x11, x0, 0\necall\nlw x7, 0x1f8(x5)\nebreak\nend\nimage 0x1000 asm\nlui x5, 0xfffff\nli x6, 0x40081\nsw x6, 8(x5)\nli x6, 0x101\nsw x6, 4(x5)\naddi x17, x0, 1\necall\nend\nimage 0x1100 asm\nlui x5, 0xfffff\nlw x6, 0x1f8(x5)\nlw x7, 0x1f0(x5)\nlui x8, 0x41\nsw x6, 0(x8)\nlui x9, 0x10\nsw x9, 0(x5)\nsw x6, 0x1f8(x5)\nsw x0, 0x1fc(x5)\naddi x17, x0, 1\necall\nend\n",
        order: None,
        room: 4096,
        exit: Exit::Limit,
        text: "run open 69\nat 4 0 1 begin 2 3\nat 5 0 1 made 5 0\nat 6 0 1 ended 0 1\nat 11 0 1 answer 3 0\nat 18 0 1 answer 5 0\nat 22 0 1 answer 5 0\nat 26 0 1 begin 0 4\nat 35 0 4 answer 1 0\nat 55 0 1 begin 0 4\nat 56 0 4 made 9 0\nat 57 0 4 ended 0 1\nat 58 0 4 xlat 0 1\nat 69 0 4 begin 1 1\nec 1 global calling 000000ac x5=fffff000 x6=00000101 x10=00000023 x12=00000021 x14=00001100\nec 4 local replying 00001128 x5=fffff000 x6=0004100d x8=00041000 x9=00010000 x17=00000001\nsc 2 0 69\ncap 0 - 0 mem 0 2 7 0\ncap 1 - 0 obj 0 0 1 0\ncap 2 - 0 obj 1 0 7 1\ncap 3 - 0 obj 2 0 1 2\ncap 4 - 0 obj 32 0 1 3\ncap 5 0 3 mem 0 2 5 0\ncap 6 - 0 obj 33 0 7 4\ncap 7 - 0 obj 34 0 7 5\ncap 8 - 0 obj 35 0 7 6\ncap 9 0 3 mem 65 0 3 2\n",
    },
];

#[test]
fn commands_end_in_their_exits(rt: HostRuntime) {
    run_rows(&rt, rt.alloc(), &ROWS);
}

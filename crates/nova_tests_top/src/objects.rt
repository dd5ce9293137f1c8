// Consoles, objects that are made, and ranges of selectors and of memory that are delegated.
use crate::rows::{Run, run_all};

static RUNS: [Run; 6] = [
    [
        "the root writes to a console",
        "cpus 1\nram 0\nconsoles 1\nroot 0 0 1 10\nimage 0 hex\n000012b7 04800313 00628023 06900313 00628023 00100073\nend\n",
        "",
        "run quiet 7\nat 6 0 1 raise 7 0\nat 7 0 1 died 7 0\nec 1 global dead 00000014 x5=00001000 x6=00000069\nsc 2 0 7\nconsole 0 4869\ncap 0 - 0 mem 0 0 7 0\ncap 1 - 0 mem 1 0 3 1\ncap 2 - 0 obj 0 0 1 0\ncap 3 - 0 obj 1 0 7 1\ncap 4 - 0 obj 2 0 1 2\n",
    ],
    [
        "an unknown number, a held selector, and a scheduling context for a handler",
        "cpus 1\nram 0\nconsoles 0\nroot 0 0 1 10\nimage 0 asm\naddi x17, x0, 99\necall\naddi x17, x0, 6\naddi x10, x0, 0\necall\naddi x17, x0, 3\naddi x10, x0, 32\naddi x14, x0, 64\necall\naddi x17, x0, 4\naddi x10, x0, 33\naddi x12, x0, 32\naddi x13, x0, 257\necall\nebreak\nend\n",
        "",
        "run quiet 16\nat 2 0 1 answer 99 4\nat 5 0 1 answer 6 5\nat 9 0 1 answer 3 0\nat 14 0 1 answer 4 5\nat 15 0 1 raise 7 0\nat 16 0 1 died 7 0\nec 1 global dead 00000038 x10=00000005 x12=00000020 x13=00000101 x14=00000040 x17=00000004\nec 3 local parked 00000000\nsc 2 0 16\ncap 0 - 0 mem 0 0 7 0\ncap 1 - 0 obj 0 0 1 0\ncap 2 - 0 obj 1 0 7 1\ncap 3 - 0 obj 2 0 1 2\ncap 4 - 0 obj 32 0 7 3\n",
    ],
    [
        "a selector out of range, and a thread for a processor that is not there",
        "cpus 1\nram 0\nconsoles 0\nroot 0 0 1 10\nimage 0 asm\nli x17, 6\nlui x10, 256\necall\nli x17, 3\nli x10, 32\nli x12, 1\necall\nebreak\nend\n",
        "",
        "run quiet 13\nat 4 0 1 answer 6 6\nat 11 0 1 answer 3 7\nat 12 0 1 raise 7 0\nat 13 0 1 died 7 0\nec 1 global dead 0000002c x10=00000007 x12=00000001 x17=00000003\nsc 2 0 13\ncap 0 - 0 mem 0 0 7 0\ncap 1 - 0 obj 0 0 1 0\ncap 2 - 0 obj 1 0 7 1\ncap 3 - 0 obj 2 0 1 2\n",
    ],
    [
        "lookup",
        "cpus 1\nram 2\nconsoles 0\nroot 0 0 1 10\nimage 0 asm\naddi x17, x0, 8\naddi x10, x0, 1\necall\nebreak\nend\n",
        "",
        "run quiet 5\nat 3 0 1 answer 8 0\nat 4 0 1 raise 7 0\nat 5 0 1 died 7 0\nec 1 global dead 0000000c x11=0000011d x17=00000008\nsc 2 0 5\ncap 0 - 0 mem 0 2 7 0\ncap 1 - 0 obj 0 0 1 0\ncap 2 - 0 obj 1 0 7 1\ncap 3 - 0 obj 2 0 1 2\n",
    ],
    [
        "a first range of selectors",
        "cpus 1\nram 0\nconsoles 0\nroot 0 0 1 10\nimage 0 asm\naddi x17, x0, 2\naddi x10, x0, 32\naddi x12, x0, 639\necall\nebreak\nend\n",
        "",
        "run quiet 10\nat 4 0 1 begin 2 3\nat 5 0 1 made 5 1\nat 6 0 1 made 6 2\nat 7 0 1 made 7 3\nat 8 0 1 ended 0 3\nat 9 0 1 raise 7 0\nat 10 0 1 died 7 0\nec 1 global dead 00000010 x12=0000027f x17=00000002\nsc 2 0 10\ncap 0 - 0 mem 0 0 7 0\ncap 1 - 0 obj 0 0 1 0\ncap 2 - 0 obj 1 0 7 1\ncap 3 - 0 obj 2 0 1 2\ncap 4 - 0 obj 32 0 1 3\ncap 5 1 3 obj 0 0 1 0\ncap 6 2 3 obj 1 0 7 1\ncap 7 3 3 obj 2 0 1 2\n",
    ],
    [
        "a first range of memory, and one of which parts are skipped",
        "cpus 1\nram 2\nconsoles 0\nroot 0 0 1 10\nimage 0 asm\naddi x17, x0, 2\naddi x10, x0, 32\naddi x12, x0, 133\necall\naddi x10, x0, 33\naddi x12, x0, 283\necall\nebreak\nend\n",
        "",
        "run quiet 15\nat 4 0 1 begin 2 3\nat 5 0 1 made 5 0\nat 6 0 1 ended 0 1\nat 9 0 1 begin 2 4\nat 10 0 1 skip 3 0\nat 11 0 1 made 7 2\nat 12 0 1 skip 3 2\nat 13 0 1 ended 0 1\nat 14 0 1 raise 7 0\nat 15 0 1 died 7 0\nec 1 global dead 0000001c x12=0000011b x17=00000002\nsc 2 0 15\ncap 0 - 0 mem 0 2 7 0\ncap 1 - 0 obj 0 0 1 0\ncap 2 - 0 obj 1 0 7 1\ncap 3 - 0 obj 2 0 1 2\ncap 4 - 0 obj 32 0 1 3\ncap 5 0 3 mem 0 1 1 0\ncap 6 - 0 obj 33 0 1 4\ncap 7 2 4 obj 1 0 6 1\n",
    ],
];

#[test]
fn objects_are_made_and_ranges_delegated(rt: HostRuntime) {
    run_all(&rt, rt.alloc(), &RUNS);
}

// Scheduling contexts: priorities and quanta.
use crate::rows::{Run, run_all};

static RUNS: [Run; 4] = [
    [
        "the end of a quantum lets an equal priority go first",
        "cpus 1\nram 0\nconsoles 0\nroot 0 0 1 10\nimage 0 asm\naddi x17, x0, 3\naddi x10, x0, 32\naddi x12, x0, 256\necall\naddi x17, x0, 4\naddi x10, x0, 33\naddi x12, x0, 32\naddi x13, x0, 257\necall\nebreak\nend\n",
        "",
        "run quiet 13\nat 4 0 1 answer 3 0\nat 9 0 1 answer 4 0\nat 10 0 1 raise 7 0\nat 11 0 3 raise 0 0\nat 12 0 1 died 7 0\nat 13 0 3 died 0 0\nec 1 global dead 00000024 x12=00000020 x13=00000101 x17=00000004\nec 3 global dead 00000000\nsc 2 0 11\nsc 4 0 2\ncap 0 - 0 mem 0 0 7 0\ncap 1 - 0 obj 0 0 1 0\ncap 2 - 0 obj 1 0 7 1\ncap 3 - 0 obj 2 0 1 2\ncap 4 - 0 obj 32 0 7 3\ncap 5 - 0 obj 33 0 1 4\n",
    ],
    [
        "a quantum of two turns has both before an equal goes on",
        "cpus 1\nram 0\nconsoles 0\nroot 0 0 1 10\nimage 0 asm\naddi x17, x0, 3\naddi x10, x0, 32\naddi x12, x0, 256\necall\naddi x17, x0, 4\naddi x10, x0, 33\naddi x12, x0, 32\naddi x13, x0, 513\necall\nebreak\nend\n",
        "",
        "run quiet 13\nat 4 0 1 answer 3 0\nat 9 0 1 answer 4 0\nat 10 0 1 raise 7 0\nat 11 0 3 raise 0 0\nat 12 0 3 died 0 0\nat 13 0 1 died 7 0\nec 1 global dead 00000024 x12=00000020 x13=00000201 x17=00000004\nec 3 global dead 00000000\nsc 2 0 11\nsc 4 0 2\ncap 0 - 0 mem 0 0 7 0\ncap 1 - 0 obj 0 0 1 0\ncap 2 - 0 obj 1 0 7 1\ncap 3 - 0 obj 2 0 1 2\ncap 4 - 0 obj 32 0 7 3\ncap 5 - 0 obj 33 0 1 4\n",
    ],
    [
        "a greater priority goes first, and its turns are told",
        "cpus 1\nram 0\nconsoles 0\nroot 0 0 1 10\nimage 0 asm\naddi x17, x0, 3\naddi x10, x0, 32\naddi x12, x0, 256\necall\naddi x17, x0, 4\naddi x10, x0, 33\naddi x12, x0, 32\naddi x13, x0, 258\necall\naddi x17, x0, 10\naddi x10, x0, 33\necall\nebreak\nend\n",
        "",
        "run quiet 16\nat 4 0 1 answer 3 0\nat 9 0 1 answer 4 0\nat 10 0 3 raise 0 0\nat 11 0 3 died 0 0\nat 14 0 1 answer 10 0\nat 15 0 1 raise 7 0\nat 16 0 1 died 7 0\nec 1 global dead 00000030 x11=00000002 x12=00000020 x13=00000102 x17=0000000a\nec 3 global dead 00000000\nsc 2 0 14\nsc 4 0 2\ncap 0 - 0 mem 0 0 7 0\ncap 1 - 0 obj 0 0 1 0\ncap 2 - 0 obj 1 0 7 1\ncap 3 - 0 obj 2 0 1 2\ncap 4 - 0 obj 32 0 7 3\ncap 5 - 0 obj 33 0 1 4\n",
    ],
    [
        "no scheduling context without a quantum, for one that has one, for none, at a held selector",
        "cpus 1\nram 0\nconsoles 0\nroot 0 0 1 10\nimage 0 asm\naddi x17, x0, 3\naddi x10, x0, 32\naddi x12, x0, 256\necall\naddi x17, x0, 4\naddi x10, x0, 33\naddi x12, x0, 32\necall\naddi x13, x0, 256\naddi x12, x0, 1\necall\naddi x12, x0, 40\necall\naddi x12, x0, 32\naddi x10, x0, 32\necall\naddi x10, x0, 33\necall\naddi x10, x0, 34\necall\nebreak\nend\n",
        "",
        "run quiet 24\nat 4 0 1 answer 3 0\nat 8 0 1 answer 4 6\nat 11 0 1 answer 4 5\nat 13 0 1 answer 4 5\nat 16 0 1 answer 4 5\nat 18 0 1 answer 4 0\nat 20 0 1 answer 4 5\nat 21 0 1 raise 7 0\nat 22 0 1 died 7 0\nat 23 0 3 raise 0 0\nat 24 0 3 died 0 0\nec 1 global dead 00000050 x10=00000005 x12=00000020 x13=00000100 x17=00000004\nec 3 global dead 00000000\nsc 2 0 22\nsc 4 0 2\ncap 0 - 0 mem 0 0 7 0\ncap 1 - 0 obj 0 0 1 0\ncap 2 - 0 obj 1 0 7 1\ncap 3 - 0 obj 2 0 1 2\ncap 4 - 0 obj 32 0 7 3\ncap 5 - 0 obj 33 0 1 4\n",
    ],
];

#[test]
fn the_foremost_has_its_turns(rt: HostRuntime) {
    run_all(&rt, rt.alloc(), &RUNS);
}

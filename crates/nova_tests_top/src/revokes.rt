// Revokes: what they take, what they leave, and what is refused meanwhile.
use crate::rows::{Run, run_all};

static RUNS: [Run; 3] = [
    [
        "a revoke of a page takes it from one of two domains, and leaves the other its pages",
        "cpus 1\nram 2\nconsoles 0\nroot 0 0 1 10\nimage 0 asm\naddi x17, x0, 2\naddi x10, x0, 32\naddi x12, x0, 133\necall\naddi x10, x0, 33\nlui x12, 2\naddi x12, x12, 141\necall\naddi x17, x0, 7\naddi x10, x0, 1\necall\nebreak\nend\n",
        "",
        "run quiet 19\nat 4 0 1 begin 2 3\nat 5 0 1 made 5 0\nat 6 0 1 ended 0 1\nat 10 0 1 begin 2 4\nat 11 0 1 made 7 0\nat 12 0 1 ended 0 1\nat 15 0 1 begin 7 0\nat 16 0 1 gone 5 3\nat 17 0 1 answer 7 0\nat 18 0 1 raise 7 0\nat 19 0 1 died 7 0\nec 1 global dead 0000002c x12=0000208d x17=00000007\nsc 2 0 19\ncap 0 - 0 mem 0 2 7 0\ncap 1 - 0 obj 0 0 1 0\ncap 2 - 0 obj 1 0 7 1\ncap 3 - 0 obj 2 0 1 2\ncap 4 - 0 obj 32 0 1 3\ncap 6 - 0 obj 33 0 1 4\ncap 7 0 4 mem 2 1 3 2\n",
    ],
    [
        "a revoke and a creation on two processors: BUSY while it runs, and no more when it has returned",
        "cpus 2\nram 0\nconsoles 0\nroot 0 0 1 10\nimage 0 asm\naddi x17, x0, 3\naddi x10, x0, 32\naddi x12, x0, 1\naddi x14, x0, 64\necall\naddi x17, x0, 5\naddi x10, x0, 48\naddi x12, x0, 32\naddi x14, x0, 256\necall\naddi x17, x0, 3\naddi x10, x0, 33\naddi x12, x0, 257\naddi x14, x0, 48\necall\naddi x17, x0, 4\naddi x10, x0, 34\naddi x12, x0, 33\naddi x13, x0, 257\necall\naddi x17, x0, 2\naddi x10, x0, 35\nlui x12, 0x20\naddi x12, x12, 127\necall\naddi x17, x0, 7\nlui x10, 0x20\naddi x10, x10, 387\necall\nebreak\nend\nimage 0x100 asm\nlui x5, 0xFFFFF\naddi x6, x0, 2\nsw x6, 16(x5)\naddi x6, x0, 0x140\nsw x6, 28(x5)\naddi x17, x0, 1\necall\nend\nimage 0x140 asm\naddi x17, x0, 6\naddi x10, x0, 36\necall\naddi x10, x0, 36\necall\nebreak\nend\n",
        "0 31\n1 12\n0 4\n1 4\n",
        "run quiet 51\nat 5 0 1 answer 3 0\nat 10 0 1 answer 5 0\nat 15 0 1 answer 3 0\nat 20 0 1 answer 4 0\nat 25 0 1 begin 2 7\nat 26 0 1 made 9 4\nat 27 0 1 ended 0 1\nat 31 0 1 begin 7 32\nat 32 1 5 raise 0 0\nat 33 1 5 sent 0 3\nat 40 1 3 answer 1 0\nat 43 1 5 answer 6 8\nat 44 0 1 gone 9 7\nat 45 0 1 answer 7 0\nat 46 0 1 raise 7 0\nat 47 0 1 died 7 0\nat 49 1 5 answer 6 0\nat 50 1 5 raise 7 0\nat 51 1 5 died 7 0\nec 1 global dead 00000074 x12=0002007f x13=00000101 x14=00000030 x17=00000007\nec 3 local parked 00000118 x5=fffff000 x6=00000140 x17=00000001\nec 5 global dead 00000154 x17=00000006\nsc 2 0 35\nsc 6 1 16\nsm 8 0 0\ncap 0 - 0 mem 0 0 7 0\ncap 1 - 0 obj 0 0 1 0\ncap 2 - 0 obj 1 0 7 1\ncap 3 - 0 obj 2 0 1 2\ncap 4 - 0 obj 32 0 7 3\ncap 5 - 0 obj 48 0 7 4\ncap 6 - 0 obj 33 0 7 5\ncap 7 - 0 obj 34 0 1 6\ncap 8 - 0 obj 35 0 1 7\ncap 10 - 0 obj 36 0 3 8\n",
    ],
    [
        "own ranges go where the flag says so and they lie inside; nothing to take, and arguments that are none",
        "cpus 1\nram 1\nconsoles 2\nroot 0 0 1 10\nimage 0 asm\naddi x17, x0, 2\naddi x10, x0, 32\nli x12, 0x200d\necall\naddi x17, x0, 7\naddi x10, x0, 0x1\naddi x11, x0, 1\necall\nli x10, 0x2081\necall\naddi x10, x0, 0\necall\naddi x10, x0, 1\naddi x11, x0, 2\necall\nli x10, 0x40001\naddi x11, x0, 1\necall\nebreak\nend\n",
        "",
        "run quiet 31\nat 5 0 1 begin 2 3\nat 6 0 1 made 7 1\nat 7 0 1 ended 0 1\nat 11 0 1 begin 7 0\nat 12 0 1 answer 7 0\nat 15 0 1 begin 7 2\nat 16 0 1 gone 7 3\nat 17 0 1 gone 1 0\nat 18 0 1 gone 2 0\nat 19 0 1 answer 7 0\nat 21 0 1 answer 7 6\nat 24 0 1 answer 7 6\nat 28 0 1 begin 7 64\nat 29 0 1 answer 7 0\nat 30 0 1 raise 7 0\nat 31 0 1 died 7 0\nec 1 global dead 00000054 x11=00000001 x12=0000200d x17=00000007\nsc 2 0 31\nconsole 0 -\nconsole 1 -\ncap 0 - 0 mem 0 1 7 0\ncap 3 - 0 obj 0 0 1 0\ncap 4 - 0 obj 1 0 7 1\ncap 5 - 0 obj 2 0 1 2\ncap 6 - 0 obj 32 0 1 3\n",
    ],
];

#[test]
fn revokes_take_leaf_by_leaf(rt: HostRuntime) {
    run_all(&rt, rt.alloc(), &RUNS);
}

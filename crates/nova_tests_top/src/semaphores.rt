// Semaphores: which contexts wait, and which is woken.
use crate::rows::{Run, run_all};

static RUNS: [Run; 2] = [
    [
        "an up wakes the first that waits, on another processor; the second is blocked for good",
        "cpus 2\nram 1\nconsoles 0\nroot 0 0 1 10\nimage 0 asm\naddi x17, x0, 6\naddi x10, x0, 34\necall\naddi x17, x0, 3\naddi x10, x0, 32\naddi x12, x0, 1\naddi x14, x0, 64\necall\naddi x17, x0, 5\naddi x10, x0, 48\naddi x12, x0, 32\naddi x14, x0, 0x200\necall\naddi x17, x0, 3\naddi x10, x0, 35\naddi x12, x0, 257\naddi x13, x0, 7\naddi x14, x0, 48\necall\naddi x10, x0, 36\necall\naddi x17, x0, 4\naddi x10, x0, 37\naddi x12, x0, 35\naddi x13, x0, 513\necall\naddi x10, x0, 38\naddi x12, x0, 36\necall\naddi x17, x0, 12\naddi x10, x0, 34\naddi x11, x0, 0\necall\naddi x10, x0, 35\necall\nebreak\nend\nimage 0x200 asm\nlui x5, 0xfffff\naddi x6, x0, 2\nsw x6, 16(x5)\naddi x6, x0, 0x280\nsw x6, 28(x5)\naddi x17, x0, 1\necall\nend\nimage 0x280 asm\naddi x17, x0, 12\naddi x10, x0, 34\naddi x11, x0, 1\necall\naddi x18, x2, 1\nebreak\nend\n",
        "0 29\n1 27\n0 4\n1 3\n0 4\n",
        "run quiet 67\nat 3 0 1 answer 6 0\nat 8 0 1 answer 3 0\nat 13 0 1 answer 5 0\nat 19 0 1 answer 3 0\nat 21 0 1 answer 3 0\nat 26 0 1 answer 4 0\nat 29 0 1 answer 4 0\nat 30 1 6 raise 0 0\nat 31 1 6 sent 0 4\nat 32 1 7 raise 0 0\nat 33 1 7 help 4 1\nat 40 1 4 answer 1 0\nat 41 1 7 sent 0 4\nat 47 1 6 begin 12 3\nat 52 1 4 answer 1 0\nat 56 1 7 begin 12 3\nat 60 0 1 answer 12 0\nat 62 1 6 raise 7 0\nat 63 1 6 died 7 0\nat 65 0 1 answer 12 5\nat 66 0 1 raise 7 0\nat 67 0 1 died 7 0\nec 1 global dead 0000008c x10=00000005 x12=00000024 x13=00000201 x14=00000030 x17=0000000c\nec 4 local parked 00000218 x5=fffff000 x6=00000280 x17=00000001\nec 6 global dead 00000294 x2=00000007 x11=00000001 x17=0000000c x18=00000008\nec 7 global blocked 0000028c x2=00000007 x10=00000022 x11=00000001 x17=0000000c\nsc 2 0 37\nsc 8 1 13\nsc 9 1 17\nsm 3 0 1\ncap 0 - 0 mem 0 1 7 0\ncap 1 - 0 obj 0 0 1 0\ncap 2 - 0 obj 1 0 7 1\ncap 3 - 0 obj 2 0 1 2\ncap 4 - 0 obj 34 0 3 3\ncap 5 - 0 obj 32 0 7 4\ncap 6 - 0 obj 48 0 7 5\ncap 7 - 0 obj 35 0 7 6\ncap 8 - 0 obj 36 0 7 7\ncap 9 - 0 obj 37 0 1 8\ncap 10 - 0 obj 38 0 1 9\n",
    ],
    [
        "an up at the greatest counter",
        "cpus 1\nram 0\nconsoles 0\nroot 0 0 1 10\nimage 0 asm\naddi x17, x0, 6\naddi x10, x0, 32\naddi x12, x0, -1\necall\naddi x17, x0, 12\naddi x10, x0, 32\necall\nebreak\nend\n",
        "",
        "run quiet 9\nat 4 0 1 answer 6 0\nat 7 0 1 answer 12 3\nat 8 0 1 raise 7 0\nat 9 0 1 died 7 0\nec 1 global dead 0000001c x10=00000003 x12=ffffffff x17=0000000c\nsc 2 0 9\nsm 3 4294967295 0\ncap 0 - 0 mem 0 0 7 0\ncap 1 - 0 obj 0 0 1 0\ncap 2 - 0 obj 1 0 7 1\ncap 3 - 0 obj 2 0 1 2\ncap 4 - 0 obj 32 0 3 3\n",
    ],
];

#[test]
fn semaphores_block_and_wake(rt: HostRuntime) {
    run_all(&rt, rt.alloc(), &RUNS);
}

// Exits of threads: their messages, their handlers, and what comes of those.
use crate::rows::{Run, run_all};

static RUNS: [Run; 7] = [
    [
        "the message of an exit, and what a reply writes back",
        "cpus 1\nram 1\nconsoles 0\nroot 0 0 1 10\nimage 0 asm\naddi x17, x0, 3\naddi x10, x0, 32\necall\naddi x17, x0, 5\naddi x10, x0, 23\naddi x12, x0, 32\naddi x13, x0, 15\naddi x14, x0, 0x100\necall\naddi x10, x0, 17\naddi x13, x0, 9\naddi x14, x0, 0x180\necall\naddi x17, x0, 11\naddi x10, x0, 23\naddi x11, x0, 5\necall\naddi x20, x0, 77\naddi x21, x0, 11\nebreak\n.word 0x0000007f\nnop\nlw x22, 0(x21)\nend\nimage 0x100 asm\nlui x5, 0xfffff\nlw x6, 0(x5)\nlw x7, 16(x5)\nlw x8, 28(x5)\nlw x9, 112(x5)\naddi x8, x8, 4\nsw x8, 28(x5)\naddi x11, x0, 99\nsw x11, 112(x5)\nsw x11, 76(x5)\nsw x11, 32(x5)\naddi x12, x0, 7\nsw x12, 16(x5)\naddi x17, x0, 1\necall\nend\nimage 0x180 asm\nlui x5, 0xfffff\nlw x6, 20(x5)\nlw x7, 28(x5)\nlw x8, 36(x5)\nlw x9, 112(x5)\naddi x9, x9, 1\nsw x9, 112(x5)\naddi x11, x0, 88\nsw x11, 28(x5)\naddi x12, x0, 10\nsw x12, 16(x5)\naddi x17, x0, 1\necall\nend\n",
        "",
        "run quiet 53\nat 3 0 1 answer 3 0\nat 9 0 1 answer 5 0\nat 13 0 1 answer 5 0\nat 17 0 1 answer 11 0\nat 20 0 1 raise 7 0\nat 21 0 1 sent 7 3\nat 36 0 3 answer 1 0\nat 37 0 1 raise 1 127\nat 38 0 1 sent 1 3\nat 51 0 3 answer 1 0\nat 52 0 1 raise 5 11\nat 53 0 1 died 5 11\nec 1 global dead 00000058 x11=00000063 x12=00000020 x13=00000009 x14=00000180 x17=0000000b x20=0000004e x21=0000000b\nec 3 local parked 000001b0 x5=fffff000 x6=0000007f x9=0000004e x11=00000058 x12=0000000a x17=00000001\nsc 2 0 53\ncap 0 - 0 mem 0 1 7 0\ncap 1 - 0 obj 0 0 1 0\ncap 2 - 0 obj 1 0 7 1\ncap 3 - 0 obj 2 0 1 2\ncap 4 - 0 obj 32 0 7 3\ncap 5 - 0 obj 23 0 7 4\ncap 6 - 0 obj 17 0 7 5\n",
    ],
    [
        "the handler of an exit dies, and so does who raised it",
        "cpus 1\nram 1\nconsoles 0\nroot 0 0 1 10\nimage 0 asm\naddi x17, x0, 3\naddi x10, x0, 32\naddi x14, x0, 64\necall\naddi x17, x0, 5\naddi x10, x0, 48\naddi x12, x0, 32\naddi x14, x0, 0x200\necall\naddi x17, x0, 3\naddi x10, x0, 35\naddi x12, x0, 256\naddi x14, x0, 48\necall\naddi x17, x0, 4\naddi x10, x0, 36\naddi x12, x0, 35\naddi x13, x0, 513\necall\nebreak\nend\nimage 0x200 asm\naddi x5, x10, 1\nebreak\nend\n",
        "",
        "run quiet 27\nat 4 0 1 answer 3 0\nat 9 0 1 answer 5 0\nat 14 0 1 answer 3 0\nat 19 0 1 answer 4 0\nat 20 0 1 raise 7 0\nat 21 0 5 raise 0 0\nat 22 0 5 sent 0 3\nat 23 0 1 died 7 0\nat 25 0 3 raise 7 0\nat 26 0 3 died 7 0\nat 27 0 5 abort 3 1\nec 1 global dead 0000004c x12=00000023 x13=00000201 x14=00000030 x17=00000004\nec 3 local dead 00000204 x5=00000001\nec 5 global dead 00000000\nsc 2 0 21\nsc 6 0 6\ncap 0 - 0 mem 0 1 7 0\ncap 1 - 0 obj 0 0 1 0\ncap 2 - 0 obj 1 0 7 1\ncap 3 - 0 obj 2 0 1 2\ncap 4 - 0 obj 32 0 7 3\ncap 5 - 0 obj 48 0 7 4\ncap 6 - 0 obj 35 0 7 5\ncap 7 - 0 obj 36 0 1 6\n",
    ],
    [
        "an exit waits for a handler that is at work, and is sent then",
        "cpus 1\nram 1\nconsoles 0\nroot 0 0 1 10\nimage 0 asm\naddi x17, x0, 3\naddi x10, x0, 32\naddi x14, x0, 64\necall\naddi x17, x0, 5\naddi x10, x0, 48\naddi x12, x0, 32\naddi x14, x0, 0x200\necall\naddi x10, x0, 33\naddi x14, x0, 0x240\necall\naddi x17, x0, 3\naddi x10, x0, 35\naddi x12, x0, 256\naddi x14, x0, 48\necall\naddi x17, x0, 0\naddi x10, x0, 33\necall\nebreak\nend\nimage 0x200 asm\nlui x5, 0xfffff\naddi x6, x0, 2\nsw x6, 16(x5)\naddi x6, x0, 0x280\nsw x6, 28(x5)\naddi x17, x0, 1\necall\nend\nimage 0x240 asm\naddi x17, x0, 4\naddi x10, x0, 36\naddi x12, x0, 35\naddi x13, x0, 1794\necall\naddi x7, x0, 9\naddi x17, x0, 1\necall\nend\nimage 0x280 asm\naddi x8, x0, 8\nebreak\nend\n",
        "",
        "run quiet 43\nat 4 0 1 answer 3 0\nat 9 0 1 answer 5 0\nat 12 0 1 answer 5 0\nat 17 0 1 answer 3 0\nat 20 0 1 begin 0 3\nat 25 0 3 answer 4 0\nat 26 0 6 raise 0 0\nat 27 0 6 help 3 1\nat 30 0 3 answer 1 0\nat 31 0 6 sent 0 3\nat 38 0 3 answer 1 0\nat 40 0 6 raise 7 0\nat 41 0 6 died 7 0\nat 42 0 1 raise 7 0\nat 43 0 1 died 7 0\nec 1 global dead 00000050 x12=00000100 x14=00000030\nec 3 local parked 00000218 x5=fffff000 x6=00000280 x7=00000009 x12=00000023 x13=00000702 x17=00000001\nec 6 global dead 00000284 x8=00000008\nsc 2 0 27\nsc 7 0 16\ncap 0 - 0 mem 0 1 7 0\ncap 1 - 0 obj 0 0 1 0\ncap 2 - 0 obj 1 0 7 1\ncap 3 - 0 obj 2 0 1 2\ncap 4 - 0 obj 32 0 7 3\ncap 5 - 0 obj 48 0 7 4\ncap 6 - 0 obj 33 0 7 5\ncap 7 - 0 obj 35 0 7 6\ncap 8 - 0 obj 36 0 1 7\n",
    ],
    [
        "an exit waits for a handler that dies, and so does who raised it",
        "cpus 1\nram 1\nconsoles 0\nroot 0 0 1 10\nimage 0 asm\naddi x17, x0, 3\naddi x10, x0, 32\naddi x14, x0, 64\necall\naddi x17, x0, 5\naddi x10, x0, 48\naddi x12, x0, 32\naddi x14, x0, 0x200\necall\naddi x10, x0, 33\naddi x14, x0, 0x240\necall\naddi x17, x0, 3\naddi x10, x0, 35\naddi x12, x0, 256\naddi x14, x0, 48\necall\naddi x17, x0, 0\naddi x10, x0, 33\necall\nebreak\nend\nimage 0x200 asm\nebreak\nend\nimage 0x240 asm\naddi x17, x0, 4\naddi x10, x0, 36\naddi x12, x0, 35\naddi x13, x0, 1794\necall\nebreak\nend\n",
        "",
        "run quiet 33\nat 4 0 1 answer 3 0\nat 9 0 1 answer 5 0\nat 12 0 1 answer 5 0\nat 17 0 1 answer 3 0\nat 20 0 1 begin 0 3\nat 25 0 3 answer 4 0\nat 26 0 6 raise 0 0\nat 27 0 6 help 3 1\nat 28 0 3 raise 7 0\nat 29 0 3 died 7 0\nat 30 0 6 died 0 0\nat 31 0 1 abort 3 0\nat 32 0 1 raise 7 0\nat 33 0 1 died 7 0\nec 1 global dead 00000050 x10=00000002 x12=00000100 x14=00000030\nec 3 local dead 00000254 x12=00000023 x13=00000702 x17=00000004\nec 6 global dead 00000000\nsc 2 0 28\nsc 7 0 5\ncap 0 - 0 mem 0 1 7 0\ncap 1 - 0 obj 0 0 1 0\ncap 2 - 0 obj 1 0 7 1\ncap 3 - 0 obj 2 0 1 2\ncap 4 - 0 obj 32 0 7 3\ncap 5 - 0 obj 48 0 7 4\ncap 6 - 0 obj 33 0 7 5\ncap 7 - 0 obj 35 0 7 6\ncap 8 - 0 obj 36 0 1 7\n",
    ],
    [
        "a fault of a handler that leads to itself ends it, and its caller",
        "cpus 1\nram 1\nconsoles 0\nroot 0 0 1 10\nimage 0 asm\naddi x17, x0, 3\naddi x10, x0, 32\naddi x14, x0, 41\necall\naddi x17, x0, 5\naddi x10, x0, 48\naddi x12, x0, 32\naddi x14, x0, 0x200\necall\naddi x10, x0, 23\necall\nebreak\nend\nimage 0x200 asm\naddi x5, x0, 1\nebreak\nend\n",
        "",
        "run quiet 17\nat 4 0 1 answer 3 0\nat 9 0 1 answer 5 0\nat 11 0 1 answer 5 0\nat 12 0 1 raise 7 0\nat 13 0 1 sent 7 3\nat 15 0 3 raise 7 0\nat 16 0 3 died 7 0\nat 17 0 1 abort 3 1\nec 1 global dead 0000002c x12=00000020 x14=00000200 x17=00000005\nec 3 local dead 00000204 x5=00000001\nsc 2 0 17\ncap 0 - 0 mem 0 1 7 0\ncap 1 - 0 obj 0 0 1 0\ncap 2 - 0 obj 1 0 7 1\ncap 3 - 0 obj 2 0 1 2\ncap 4 - 0 obj 32 0 7 3\ncap 5 - 0 obj 48 0 7 4\ncap 6 - 0 obj 23 0 7 5\n",
    ],
    [
        "exits to another processor, and without the event right",
        "cpus 2\nram 1\nconsoles 0\nroot 0 0 1 10\nimage 0 asm\naddi x17, x0, 3\naddi x10, x0, 32\naddi x12, x0, 1\necall\naddi x17, x0, 5\naddi x10, x0, 23\naddi x12, x0, 32\naddi x14, x0, 0x200\necall\nebreak\nend\n",
        "0 11\n",
        "run quiet 11\nat 4 0 1 answer 3 0\nat 9 0 1 answer 5 0\nat 10 0 1 raise 7 0\nat 11 0 1 died 7 0\nec 1 global dead 00000024 x12=00000020 x14=00000200 x17=00000005\nec 3 local parked 00000000\nsc 2 0 11\ncap 0 - 0 mem 0 1 7 0\ncap 1 - 0 obj 0 0 1 0\ncap 2 - 0 obj 1 0 7 1\ncap 3 - 0 obj 2 0 1 2\ncap 4 - 0 obj 32 0 7 3\ncap 5 - 0 obj 23 0 7 4\n",
    ],
    [
        "items of a reply to an exit go to windows that are null, and tell nobody",
        "cpus 1\nram 1\nconsoles 0\nroot 0 0 1 10\nimage 0 asm\naddi x17, x0, 3\naddi x10, x0, 32\naddi x14, x0, 64\necall\naddi x17, x0, 5\naddi x10, x0, 48\naddi x12, x0, 32\naddi x14, x0, 0x200\necall\naddi x17, x0, 3\naddi x10, x0, 35\naddi x12, x0, 256\naddi x14, x0, 48\necall\naddi x17, x0, 4\naddi x10, x0, 36\naddi x12, x0, 35\naddi x13, x0, 513\necall\nebreak\nend\nimage 0x200 asm\nlui x5, 0xfffff\naddi x6, x0, 2\nsw x6, 16(x5)\naddi x6, x0, 0x280\nsw x6, 28(x5)\nlui x6, 0x20\nsw x6, 0(x5)\naddi x6, x0, 133\nsw x6, 504(x5)\naddi x7, x0, 1\nsw x7, 508(x5)\nsw x6, 496(x5)\nsw x0, 500(x5)\naddi x17, x0, 1\necall\nend\nimage 0x280 asm\nlui x5, 0xfffff\nlw x6, 504(x5)\nlw x7, 496(x5)\nebreak\nend\n",
        "",
        "run quiet 45\nat 4 0 1 answer 3 0\nat 9 0 1 answer 5 0\nat 14 0 1 answer 3 0\nat 19 0 1 answer 4 0\nat 20 0 1 raise 7 0\nat 21 0 5 raise 0 0\nat 22 0 5 sent 0 3\nat 23 0 1 died 7 0\nat 38 0 3 begin 1 5\nat 39 0 3 skip 1 0\nat 40 0 3 xlat 0 1\nat 44 0 5 raise 7 0\nat 45 0 5 died 7 0\nec 1 global dead 0000004c x12=00000023 x13=00000201 x14=00000030 x17=00000004\nec 3 local parked 00000238 x5=fffff000 x6=00000085 x7=00000001 x17=00000001\nec 5 global dead 0000028c x5=fffff000\nsc 2 0 21\nsc 6 0 24\ncap 0 - 0 mem 0 1 7 0\ncap 1 - 0 obj 0 0 1 0\ncap 2 - 0 obj 1 0 7 1\ncap 3 - 0 obj 2 0 1 2\ncap 4 - 0 obj 32 0 7 3\ncap 5 - 0 obj 48 0 7 4\ncap 6 - 0 obj 35 0 7 5\ncap 7 - 0 obj 36 0 1 6\n",
    ],
];

#[test]
fn exits_are_sent_to_their_handlers(rt: HostRuntime) {
    run_all(&rt, rt.alloc(), &RUNS);
}

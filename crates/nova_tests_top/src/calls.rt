// Message words, calls and replies with their items, and a caller that helps a handler.
use crate::rows::{Run, run_all};

/// Message words as memory, and what is refused or aborted.
static REFUSALS: [Run; 5] = [
    [
        "loads and stores of message words",
        "cpus 1\nram 0\nconsoles 0\nroot 0 0 1 10\nimage 0 asm\nlui x5, 0xfffff\nlui x6, 0x12345\naddi x6, x6, 0x678\nsw x6, 508(x5)\nlhu x7, 510(x5)\nlbu x8, 509(x5)\nsb x7, 508(x5)\nlw x9, 508(x5)\nsh x8, 510(x5)\nlw x10, 508(x5)\nlb x11, 512(x5)\nend\n",
        "",
        "run quiet 12\nat 11 0 1 raise 3 4294963712\nat 12 0 1 died 3 4294963712\nec 1 global dead 00000028 x5=fffff000 x6=12345678 x7=00001234 x8=00000056 x9=12345634 x10=00565634\nsc 2 0 12\ncap 0 - 0 mem 0 0 7 0\ncap 1 - 0 obj 0 0 1 0\ncap 2 - 0 obj 1 0 7 1\ncap 3 - 0 obj 2 0 1 2\n",
    ],
    [
        "message words are not executed",
        "cpus 1\nram 0\nconsoles 0\nroot 0 0 1 10\nimage 0 asm\nlui x5, 0xfffff\njalr x1, 16(x5)\nend\n",
        "",
        "run quiet 4\nat 3 0 1 raise 2 4294963216\nat 4 0 1 died 2 4294963216\nec 1 global dead fffff010 x1=00000008 x5=fffff000\nsc 2 0 4\ncap 0 - 0 mem 0 0 7 0\ncap 1 - 0 obj 0 0 1 0\ncap 2 - 0 obj 1 0 7 1\ncap 3 - 0 obj 2 0 1 2\n",
    ],
    [
        "counts over their bound, and a handler on another processor",
        "cpus 2\nram 0\nconsoles 0\nroot 0 0 1 10\nimage 0 asm\naddi x17, x0, 3\naddi x10, x0, 32\naddi x12, x0, 1\naddi x14, x0, 64\necall\naddi x17, x0, 5\naddi x10, x0, 33\naddi x12, x0, 32\naddi x14, x0, 256\necall\nlui x5, 0xFFFFF\naddi x6, x0, 125\nsw x6, 0(x5)\naddi x17, x0, 0\naddi x10, x0, 33\necall\naddi x6, x0, 124\nsw x6, 0(x5)\naddi x10, x0, 33\necall\nebreak\nend\n",
        "0 22\n",
        "run quiet 22\nat 5 0 1 answer 3 0\nat 10 0 1 answer 5 0\nat 16 0 1 answer 0 6\nat 20 0 1 answer 0 7\nat 21 0 1 raise 7 0\nat 22 0 1 died 7 0\nec 1 global dead 00000050 x5=fffff000 x6=0000007c x10=00000007 x12=00000020 x14=00000100\nec 3 local parked 00000000\nsc 2 0 22\ncap 0 - 0 mem 0 0 7 0\ncap 1 - 0 obj 0 0 1 0\ncap 2 - 0 obj 1 0 7 1\ncap 3 - 0 obj 2 0 1 2\ncap 4 - 0 obj 32 0 7 3\ncap 5 - 0 obj 33 0 7 4\n",
    ],
    [
        "a circle and a dead handler",
        "cpus 1\nram 0\nconsoles 0\nroot 0 0 1 10\nimage 0 asm\naddi x17, x0, 3\naddi x10, x0, 32\naddi x14, x0, 64\necall\naddi x17, x0, 5\naddi x10, x0, 33\naddi x12, x0, 32\naddi x14, x0, 0x100\necall\naddi x17, x0, 0\naddi x10, x0, 33\necall\nebreak\nend\nimage 0x100 asm\naddi x10, x0, 33\necall\nebreak\nend\n",
        "",
        "run quiet 19\nat 4 0 1 answer 3 0\nat 9 0 1 answer 5 0\nat 12 0 1 begin 0 3\nat 14 0 3 answer 0 2\nat 15 0 3 raise 7 0\nat 16 0 3 died 7 0\nat 17 0 1 abort 3 0\nat 18 0 1 raise 7 0\nat 19 0 1 died 7 0\nec 1 global dead 00000030 x10=00000002 x12=00000020 x14=00000100\nec 3 local dead 00000108 x10=00000002\nsc 2 0 19\ncap 0 - 0 mem 0 0 7 0\ncap 1 - 0 obj 0 0 1 0\ncap 2 - 0 obj 1 0 7 1\ncap 3 - 0 obj 2 0 1 2\ncap 4 - 0 obj 32 0 7 3\ncap 5 - 0 obj 33 0 7 4\n",
    ],
    [
        "replies and a call that are refused",
        "cpus 1\nram 0\nconsoles 0\nroot 0 0 1 10\nimage 0 asm\naddi x17, x0, 1\necall\naddi x17, x0, 3\naddi x10, x0, 32\necall\naddi x17, x0, 5\naddi x10, x0, 33\naddi x12, x0, 32\naddi x14, x0, 0x100\necall\naddi x17, x0, 0\naddi x10, x0, 33\naddi x11, x0, 2\necall\naddi x10, x0, 33\naddi x11, x0, 1\necall\nebreak\nend\nimage 0x100 asm\nlui x5, 0xfffff\naddi x6, x0, 125\nsw x6, 0(x5)\naddi x17, x0, 1\necall\nsw x0, 0(x5)\necall\nend\n",
        "",
        "run quiet 26\nat 2 0 1 answer 1 6\nat 5 0 1 answer 3 0\nat 10 0 1 answer 5 0\nat 14 0 1 answer 0 6\nat 17 0 1 begin 0 3\nat 22 0 3 answer 1 6\nat 24 0 3 answer 1 0\nat 25 0 1 raise 7 0\nat 26 0 1 died 7 0\nec 1 global dead 00000044 x11=00000001 x12=00000020 x14=00000100\nec 3 local parked 00000118 x5=fffff000 x6=0000007d x10=00000006 x17=00000001\nsc 2 0 26\ncap 0 - 0 mem 0 0 7 0\ncap 1 - 0 obj 0 0 1 0\ncap 2 - 0 obj 1 0 7 1\ncap 3 - 0 obj 2 0 1 2\ncap 4 - 0 obj 32 0 7 3\ncap 5 - 0 obj 33 0 7 4\n",
    ],
];

/// What calls and replies carry, and which callers help.
static TRANSFERS: [Run; 3] = [
    [
        "a call with a delegation and a translation, and a reply with a translation",
        "cpus 1\nram 2\nconsoles 0\nroot 0 0 1 10\nimage 0 asm\naddi x17, x0, 2\naddi x10, x0, 32\naddi x12, x0, 0x115\necall\naddi x17, x0, 3\naddi x10, x0, 33\naddi x11, x0, 32\naddi x12, x0, 0\necall\naddi x17, x0, 5\naddi x10, x0, 34\naddi x11, x0, 0\naddi x12, x0, 33\nli x14, 0x1000\necall\naddi x10, x0, 35\nli x14, 0x1100\necall\naddi x17, x0, 0\naddi x10, x0, 34\naddi x11, x0, 0\necall\nlui x5, 0xfffff\nlui x6, 0x20\nsw x6, 0(x5)\nli x6, 0x200d\nsw x6, 0x1f8(x5)\nli x6, 0x1001\nsw x6, 0x1fc(x5)\nli x6, 0x3005\nsw x6, 0x1f0(x5)\nsw x0, 0x1f4(x5)\nli x6, 0x101\nsw x6, 4(x5)\naddi x17, x0, 0\naddi x10, x0, 35\naddi x11, x0, 0\necall\nlw x7, 0x1f8(x5)\nebreak\nend\nimage 0x1000 asm\nlui x5, 0xfffff\nli x6, 0x40081\nsw x6, 8(x5)\nli x6, 0x101\nsw x6, 4(x5)\naddi x17, x0, 1\necall\nend\nimage 0x1100 asm\nlui x5, 0xfffff\nlw x6, 0x1f8(x5)\nlw x7, 0x1f0(x5)\nlui x8, 0x41\nsw x6, 0(x8)\nlui x9, 0x10\nsw x9, 0(x5)\nsw x6, 0x1f8(x5)\nsw x0, 0x1fc(x5)\naddi x17, x0, 1\necall\nend\n",
        "",
        "run quiet 73\nat 4 0 1 begin 2 3\nat 5 0 1 made 5 0\nat 6 0 1 ended 0 1\nat 11 0 1 answer 3 0\nat 18 0 1 answer 5 0\nat 22 0 1 answer 5 0\nat 26 0 1 begin 0 4\nat 35 0 4 answer 1 0\nat 55 0 1 begin 0 4\nat 56 0 4 made 9 0\nat 57 0 4 ended 0 1\nat 58 0 4 xlat 0 1\nat 69 0 4 begin 1 1\nat 70 0 4 xlat 8205 0\nat 72 0 1 raise 7 0\nat 73 0 1 died 7 0\nec 1 global dead 000000b4 x5=fffff000 x6=00000101 x7=0000200d x12=00000021 x14=00001100\nec 4 local parked 00001128 x5=fffff000 x6=0004100d x8=00041000 x9=00010000 x17=00000001\nsc 2 0 73\ncap 0 - 0 mem 0 2 7 0\ncap 1 - 0 obj 0 0 1 0\ncap 2 - 0 obj 1 0 7 1\ncap 3 - 0 obj 2 0 1 2\ncap 4 - 0 obj 32 0 1 3\ncap 5 0 3 mem 0 2 5 0\ncap 6 - 0 obj 33 0 7 4\ncap 7 - 0 obj 34 0 7 5\ncap 8 - 0 obj 35 0 7 6\ncap 9 0 3 mem 65 0 3 2\n",
    ],
    [
        "a handler calls on: a call with a translation and a delegation, items that are skipped, and a chain that aborts",
        "cpus 1\nram 2\nconsoles 0\nroot 0 0 1 10\nimage 0 asm\naddi x17, x0, 2\naddi x10, x0, 32\naddi x12, x0, 0x11d\necall\naddi x17, x0, 3\naddi x10, x0, 33\naddi x11, x0, 32\naddi x12, x0, 0\necall\naddi x10, x0, 34\naddi x11, x0, 0\necall\naddi x17, x0, 5\naddi x10, x0, 35\naddi x12, x0, 33\nli x14, 0x1000\necall\naddi x10, x0, 36\naddi x12, x0, 34\nli x14, 0x2000\necall\naddi x10, x0, 37\naddi x12, x0, 34\nli x14, 0x2020\necall\naddi x10, x0, 38\naddi x12, x0, 33\nli x14, 0x1080\necall\naddi x17, x0, 0\naddi x10, x0, 37\necall\naddi x10, x0, 38\necall\nlui x5, 0xfffff\nlui x6, 0x40\nsw x6, 0(x5)\nli x6, 0x2400b\nsw x6, 0x1f8(x5)\naddi x6, x0, 1\nsw x6, 0x1fc(x5)\nli x6, 0x2001\nsw x6, 0x1f0(x5)\naddi x6, x0, 1\nsw x6, 0x1f4(x5)\nli x6, 0x2400b\nsw x6, 0x1e8(x5)\naddi x6, x0, 1\nsw x6, 0x1ec(x5)\naddi x6, x0, 1\nsw x6, 0x1e4(x5)\naddi x10, x0, 35\necall\nebreak\nend\nimage 0x1000 asm\nlui x5, 0xfffff\nlui x6, 0x20\nsw x6, 0(x5)\nli x6, 0x2005\nsw x6, 0x1f8(x5)\naddi x6, x0, 0\nsw x6, 0x1fc(x5)\nli x6, 0x300d\nsw x6, 0x1f0(x5)\naddi x6, x0, 1\nsw x6, 0x1f4(x5)\naddi x17, x0, 0\naddi x10, x0, 40\naddi x11, x0, 0\necall\nebreak\nend\nimage 0x1080 asm\nlui x5, 0xfffff\nli x6, 0x28003\nsw x6, 8(x5)\naddi x17, x0, 1\necall\nend\nimage 0x2000 asm\nlui x5, 0xfffff\nlw x6, 0x1f8(x5)\nlw x7, 0x1f0(x5)\nebreak\nend\nimage 0x2020 asm\nlui x5, 0xfffff\nli x6, 0x40001\nsw x6, 8(x5)\nli x6, 0x101\nsw x6, 4(x5)\naddi x17, x0, 1\necall\nend\n",
        "",
        "run quiet 114\nat 4 0 1 begin 2 3\nat 5 0 1 made 5 0\nat 6 0 1 ended 0 1\nat 11 0 1 answer 3 0\nat 14 0 1 answer 3 0\nat 20 0 1 answer 5 0\nat 25 0 1 answer 5 0\nat 30 0 1 answer 5 0\nat 35 0 1 answer 5 0\nat 38 0 1 begin 0 5\nat 47 0 5 answer 1 0\nat 49 0 1 begin 0 4\nat 55 0 4 answer 1 0\nat 77 0 1 begin 0 4\nat 78 0 4 made 12 9\nat 79 0 4 ended 0 1\nat 80 0 4 skip 2 1\nat 81 0 4 skip 4 36\nat 82 0 4 ended 2 0\nat 83 0 4 skip 1 3\nat 100 0 4 begin 0 5\nat 101 0 5 xlat 8197 0\nat 102 0 5 made 13 5\nat 103 0 5 ended 1 1\nat 107 0 5 raise 7 0\nat 108 0 5 died 7 0\nat 109 0 4 abort 5 0\nat 110 0 4 raise 7 0\nat 111 0 4 died 7 0\nat 112 0 1 abort 4 0\nat 113 0 1 raise 7 0\nat 114 0 1 died 7 0\nec 1 global dead 000000f0 x5=fffff000 x6=00000001 x10=00000002 x12=00000021 x14=00001080\nec 4 local dead 00001044 x5=fffff000 x6=00000001 x10=00000002\nec 5 local dead 0000200c x5=fffff000 x6=00002005 x7=0004000d x17=00000001\nsc 2 0 114\ncap 0 - 0 mem 0 2 7 0\ncap 1 - 0 obj 0 0 1 0\ncap 2 - 0 obj 1 0 7 1\ncap 3 - 0 obj 2 0 1 2\ncap 4 - 0 obj 32 0 1 3\ncap 5 0 3 mem 0 2 7 0\ncap 6 - 0 obj 33 0 7 4\ncap 7 - 0 obj 34 0 7 5\ncap 8 - 0 obj 35 0 7 6\ncap 9 - 0 obj 36 0 7 7\ncap 10 - 0 obj 37 0 7 8\ncap 11 - 0 obj 38 0 7 9\ncap 12 9 3 obj 40 0 2 7\ncap 13 5 0 mem 64 0 3 3\n",
    ],
    [
        "one that helps pays for the handler, and makes its call again",
        "cpus 1\nram 1\nconsoles 0\nroot 0 0 1 10\nimage 0 asm\naddi x17, x0, 3\naddi x10, x0, 32\naddi x14, x0, 64\necall\naddi x17, x0, 5\naddi x10, x0, 48\naddi x12, x0, 32\naddi x14, x0, 0x200\necall\naddi x10, x0, 33\naddi x14, x0, 0x240\necall\naddi x17, x0, 6\naddi x10, x0, 34\naddi x12, x0, 0\necall\naddi x17, x0, 3\naddi x10, x0, 35\naddi x12, x0, 256\naddi x14, x0, 48\necall\naddi x17, x0, 4\naddi x10, x0, 36\naddi x12, x0, 35\naddi x13, x0, 1794\necall\naddi x17, x0, 0\naddi x10, x0, 33\necall\nebreak\nend\nimage 0x200 asm\nlui x5, 0xfffff\naddi x6, x0, 2\nsw x6, 16(x5)\naddi x6, x0, 0x280\nsw x6, 28(x5)\naddi x17, x0, 1\necall\nend\nimage 0x240 asm\naddi x17, x0, 12\naddi x10, x0, 34\naddi x11, x0, 0\necall\naddi x17, x0, 1\necall\nend\nimage 0x280 asm\naddi x17, x0, 12\naddi x10, x0, 34\naddi x11, x0, 1\necall\naddi x17, x0, 0\naddi x10, x0, 33\naddi x11, x0, 0\necall\nebreak\nend\n",
        "",
        "run quiet 63\nat 4 0 1 answer 3 0\nat 9 0 1 answer 5 0\nat 12 0 1 answer 5 0\nat 16 0 1 answer 6 0\nat 21 0 1 answer 3 0\nat 26 0 1 answer 4 0\nat 27 0 7 raise 0 0\nat 28 0 7 sent 0 3\nat 35 0 3 answer 1 0\nat 39 0 7 begin 12 6\nat 42 0 1 begin 0 3\nat 46 0 3 answer 12 0\nat 50 0 7 help 3 0\nat 52 0 3 answer 1 0\nat 53 0 7 begin 0 3\nat 57 0 3 answer 12 0\nat 59 0 3 answer 1 0\nat 60 0 7 raise 7 0\nat 61 0 7 died 7 0\nat 62 0 1 raise 7 0\nat 63 0 1 died 7 0\nec 1 global dead 00000074 x12=00000023 x13=00000702 x14=00000030\nec 3 local parked 00000254 x5=fffff000 x6=00000280 x17=00000001\nec 7 global dead 000002a0\nsc 2 0 35\nsc 8 0 28\nsm 6 1 0\ncap 0 - 0 mem 0 1 7 0\ncap 1 - 0 obj 0 0 1 0\ncap 2 - 0 obj 1 0 7 1\ncap 3 - 0 obj 2 0 1 2\ncap 4 - 0 obj 32 0 7 3\ncap 5 - 0 obj 48 0 7 4\ncap 6 - 0 obj 33 0 7 5\ncap 7 - 0 obj 34 0 3 6\ncap 8 - 0 obj 35 0 7 7\ncap 9 - 0 obj 36 0 1 8\n",
    ],
];

#[test]
fn message_words_stay_words_and_calls_are_refused(rt: HostRuntime) {
    run_all(&rt, rt.alloc(), &REFUSALS);
}

#[test]
fn calls_and_replies_carry_words_and_items(rt: HostRuntime) {
    run_all(&rt, rt.alloc(), &TRANSFERS);
}

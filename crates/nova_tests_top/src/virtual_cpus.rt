// Virtual CPUs and their monitors: what guests raise, what monitors reply, and how guests end.
use crate::rows::{Run, run_all};

/// What monitors reply.
static REPLIES: [Run; 5] = [
    [
        "a guest and its monitor: where it begins, its page, a byte that it has written, and its end",
        "cpus 1\nram 2\nconsoles 1\nroot 0 0 1 10\nimage 0 asm\naddi x17, x0, 3\naddi x10, x0, 32\naddi x14, x0, 48\necall\naddi x17, x0, 5\naddi x10, x0, 64\naddi x12, x0, 32\naddi x14, x0, 0x100\necall\naddi x10, x0, 66\naddi x14, x0, 0x140\necall\naddi x10, x0, 70\naddi x13, x0, 6\naddi x14, x0, 0x180\necall\naddi x17, x0, 2\naddi x10, x0, 33\nlui x12, 0x40\naddi x12, x12, 531\necall\naddi x17, x0, 3\naddi x10, x0, 34\naddi x11, x0, 33\naddi x12, x0, 512\naddi x13, x0, 0\naddi x14, x0, 64\necall\naddi x17, x0, 4\naddi x10, x0, 35\naddi x12, x0, 34\naddi x13, x0, 1794\necall\nebreak\nend\nimage 0x100 asm\nlui x5, 0xfffff\naddi x6, x0, 2\nsw x6, 16(x5)\naddi x17, x0, 1\necall\nend\nimage 0x140 asm\nlui x6, 16\nsw x6, 0(x5)\nlui x6, 1\naddi x6, x6, 29\nsw x6, 504(x5)\naddi x6, x0, 1\nsw x6, 508(x5)\necall\nend\nimage 0x180 asm\nlui x7, 4\nlw x6, 72(x5)\nsb x6, 0(x7)\nlw x6, 28(x5)\naddi x6, x6, 4\nsw x6, 28(x5)\naddi x6, x0, 2\nsw x6, 16(x5)\necall\nend\nimage 0x1000 asm\naddi x10, x0, 65\necall\naddi x10, x10, 1\nebreak\nend\n",
        "",
        "run quiet 73\nat 4 0 1 answer 3 0\nat 9 0 1 answer 5 0\nat 12 0 1 answer 5 0\nat 16 0 1 answer 5 0\nat 21 0 1 begin 2 7\nat 22 0 1 made 10 6\nat 23 0 1 made 11 7\nat 24 0 1 made 12 8\nat 25 0 1 ended 0 3\nat 32 0 1 answer 3 0\nat 37 0 1 answer 4 0\nat 38 0 8 raise 0 0\nat 39 0 8 sent 0 3\nat 44 0 3 answer 1 0\nat 45 0 8 raise 2 0\nat 46 0 8 sent 2 3\nat 54 0 3 begin 1 8\nat 55 0 3 made 15 0\nat 56 0 3 ended 0 1\nat 58 0 8 raise 6 0\nat 59 0 8 sent 6 3\nat 68 0 3 answer 1 0\nat 70 0 8 raise 7 0\nat 71 0 8 died 7 0\nat 72 0 1 raise 7 0\nat 73 0 1 died 7 0\nec 1 global dead 00000084 x11=00000021 x12=00000022 x13=00000702 x14=00000040 x17=00000004\nec 3 local parked 000001a0 x5=fffff000 x6=00000002 x7=00004000 x17=00000001\nec 8 vcpu dead 0000000c x10=00000042\nsc 2 0 39\nsc 9 0 34\nconsole 0 41\ncap 0 - 0 mem 0 2 7 0\ncap 1 - 0 mem 4 0 3 4\ncap 2 - 0 obj 0 0 1 0\ncap 3 - 0 obj 1 0 7 1\ncap 4 - 0 obj 2 0 1 2\ncap 5 - 0 obj 32 0 7 3\ncap 6 - 0 obj 64 0 7 4\ncap 7 - 0 obj 66 0 7 5\ncap 8 - 0 obj 70 0 7 6\ncap 9 - 0 obj 33 0 1 7\ncap 10 6 7 obj 64 0 4 4\ncap 11 7 7 obj 66 0 4 5\ncap 12 8 7 obj 70 0 4 6\ncap 13 - 0 obj 34 0 7 8\ncap 14 - 0 obj 35 0 1 9\ncap 15 0 7 mem 0 0 7 1\n",
    ],
    [
        "a reply of two items gives a guest a page by each",
        "cpus 1\nram 1\nconsoles 0\nroot 0x200 0 1 10\nimage 0 asm\nlui x5, 8\nlui x6, 9\naddi x7, x0, 5\nsw x7, 0(x6)\nlw x8, 0(x5)\nebreak\nend\nimage 64 asm\nlui x5, 0xfffff\nlui x6, 32\nsw x6, 0(x5)\nlui x6, 1\naddi x6, x6, 5\nsw x6, 504(x5)\nlui x6, 8\naddi x6, x6, 1\nsw x6, 508(x5)\nlui x6, 1\naddi x6, x6, 13\nsw x6, 496(x5)\nlui x6, 9\naddi x6, x6, 1\nsw x6, 500(x5)\naddi x17, x0, 1\necall\nend\nimage 0x200 asm\naddi x17, x0, 3\naddi x10, x0, 32\naddi x14, x0, 64\necall\naddi x17, x0, 5\naddi x10, x0, 64\naddi x12, x0, 32\necall\naddi x17, x0, 3\naddi x10, x0, 33\naddi x12, x0, 512\necall\naddi x17, x0, 4\naddi x10, x0, 34\naddi x12, x0, 33\naddi x13, x0, 258\necall\nebreak\nend\n",
        "",
        "run quiet 49\nat 4 0 1 answer 3 0\nat 8 0 1 answer 5 0\nat 12 0 1 answer 3 0\nat 17 0 1 answer 4 0\nat 18 0 5 raise 0 0\nat 19 0 5 sent 0 3\nat 36 0 3 begin 1 5\nat 37 0 3 made 8 0\nat 38 0 3 ended 0 1\nat 39 0 3 made 9 0\nat 40 0 3 ended 1 1\nat 46 0 5 raise 7 0\nat 47 0 5 died 7 0\nat 48 0 1 raise 7 0\nat 49 0 1 died 7 0\nec 1 global dead 00000244 x12=00000021 x13=00000102 x14=00000040 x17=00000004\nec 3 local parked 00000080 x5=fffff000 x6=00009001 x17=00000001\nec 5 vcpu dead 00000014 x5=00008000 x6=00009000 x7=00000005 x8=00000005\nsc 2 0 19\nsc 6 0 30\ncap 0 - 0 mem 0 1 7 0\ncap 1 - 0 obj 0 0 1 0\ncap 2 - 0 obj 1 0 7 1\ncap 3 - 0 obj 2 0 1 2\ncap 4 - 0 obj 32 0 7 3\ncap 5 - 0 obj 64 0 7 4\ncap 6 - 0 obj 33 0 7 5\ncap 7 - 0 obj 34 0 1 6\ncap 8 0 0 mem 8 0 1 1\ncap 9 0 0 mem 9 0 3 1\n",
    ],
    [
        "the window of an item to a guest is the whole space of the item's type",
        "cpus 1\nram 1\nconsoles 0\nroot 0x200 0 1 10\nimage 0 asm\nlui x5, 8\nlw x6, 4(x5)\nebreak\nend\nimage 64 asm\nlui x5, 0xfffff\nlui x6, 32\nsw x6, 0(x5)\naddi x6, x0, 133\nsw x6, 504(x5)\nlui x6, 8\naddi x6, x6, 1\nsw x6, 508(x5)\nlui x6, 32\naddi x6, x6, 7\nsw x6, 496(x5)\nlui x6, 40\naddi x6, x6, 1\nsw x6, 500(x5)\naddi x17, x0, 1\necall\nend\nimage 0x200 asm\naddi x17, x0, 3\naddi x10, x0, 32\naddi x14, x0, 64\necall\naddi x17, x0, 5\naddi x10, x0, 64\naddi x12, x0, 32\necall\naddi x17, x0, 3\naddi x10, x0, 33\naddi x12, x0, 512\necall\naddi x17, x0, 4\naddi x10, x0, 34\naddi x12, x0, 33\naddi x13, x0, 258\necall\nebreak\nend\n",
        "",
        "run quiet 45\nat 4 0 1 answer 3 0\nat 8 0 1 answer 5 0\nat 12 0 1 answer 3 0\nat 17 0 1 answer 4 0\nat 18 0 5 raise 0 0\nat 19 0 5 sent 0 3\nat 35 0 3 begin 1 5\nat 36 0 3 made 8 0\nat 37 0 3 ended 0 1\nat 38 0 3 made 9 4\nat 39 0 3 ended 1 1\nat 42 0 5 raise 7 0\nat 43 0 5 died 7 0\nat 44 0 1 raise 7 0\nat 45 0 1 died 7 0\nec 1 global dead 00000244 x12=00000021 x13=00000102 x14=00000040 x17=00000004\nec 3 local parked 0000007c x5=fffff000 x6=00028001 x17=00000001\nec 5 vcpu dead 00000008 x5=00008000 x6=0042a303\nsc 2 0 19\nsc 6 0 26\ncap 0 - 0 mem 0 1 7 0\ncap 1 - 0 obj 0 0 1 0\ncap 2 - 0 obj 1 0 7 1\ncap 3 - 0 obj 2 0 1 2\ncap 4 - 0 obj 32 0 7 3\ncap 5 - 0 obj 64 0 7 4\ncap 6 - 0 obj 33 0 7 5\ncap 7 - 0 obj 34 0 1 6\ncap 8 0 0 mem 8 1 1 0\ncap 9 4 0 obj 40 0 1 3\n",
    ],
    [
        "a reply that names one group writes no other",
        "cpus 1\nram 1\nconsoles 0\nroot 0x200 0 1 10\nimage 0 asm\nlui x5, 8\naddi x20, x0, 7\nlw x6, 0(x5)\nebreak\nend\nimage 64 asm\naddi x17, x0, 1\necall\nend\nimage 0x100 asm\nlui x5, 0xfffff\naddi x6, x0, 0x300\nsw x6, 28(x5)\nsw x6, 52(x5)\nsw x6, 112(x5)\naddi x7, x0, 4\nsw x7, 16(x5)\necall\nend\nimage 0x200 asm\naddi x17, x0, 3\naddi x10, x0, 32\naddi x14, x0, 64\necall\naddi x17, x0, 5\naddi x10, x0, 64\naddi x12, x0, 32\necall\naddi x10, x0, 67\naddi x13, x0, 15\naddi x14, x0, 0x100\necall\naddi x17, x0, 3\naddi x10, x0, 33\naddi x12, x0, 512\naddi x13, x0, 0\naddi x14, x0, 64\necall\naddi x17, x0, 4\naddi x10, x0, 34\naddi x12, x0, 33\naddi x13, x0, 258\necall\nebreak\nend\nimage 0x300 hex\n0000002a\nend\n",
        "",
        "run quiet 44\nat 4 0 1 answer 3 0\nat 8 0 1 answer 5 0\nat 12 0 1 answer 5 0\nat 18 0 1 answer 3 0\nat 23 0 1 answer 4 0\nat 24 0 6 raise 0 0\nat 25 0 6 sent 0 3\nat 27 0 3 answer 1 0\nat 30 0 6 raise 3 32768\nat 31 0 6 sent 3 3\nat 39 0 3 answer 1 0\nat 41 0 6 raise 7 0\nat 42 0 6 died 7 0\nat 43 0 1 raise 7 0\nat 44 0 1 died 7 0\nec 1 global dead 0000025c x12=00000021 x13=00000102 x14=00000040 x17=00000004\nec 3 local parked 0000011c x5=fffff000 x6=00000300 x7=00000004 x17=00000001\nec 6 vcpu dead 0000000c x5=00000300 x6=0000002a x20=00000007\nsc 2 0 25\nsc 7 0 19\ncap 0 - 0 mem 0 1 7 0\ncap 1 - 0 obj 0 0 1 0\ncap 2 - 0 obj 1 0 7 1\ncap 3 - 0 obj 2 0 1 2\ncap 4 - 0 obj 32 0 7 3\ncap 5 - 0 obj 64 0 7 4\ncap 6 - 0 obj 67 0 7 5\ncap 7 - 0 obj 33 0 7 6\ncap 8 - 0 obj 34 0 1 7\n",
    ],
    [
        "a translation to a guest is answered with nothing",
        "cpus 1\nram 1\nconsoles 0\nroot 0x200 0 1 10\nimage 0 asm\nebreak\nend\nimage 64 asm\nlui x5, 0xfffff\nlui x6, 16\nsw x6, 0(x5)\naddi x6, x0, 133\nsw x6, 504(x5)\naddi x17, x0, 1\necall\nend\nimage 0x200 asm\naddi x17, x0, 3\naddi x10, x0, 32\naddi x14, x0, 64\necall\naddi x17, x0, 5\naddi x10, x0, 64\naddi x12, x0, 32\necall\naddi x17, x0, 3\naddi x10, x0, 33\naddi x12, x0, 512\necall\naddi x17, x0, 4\naddi x10, x0, 34\naddi x12, x0, 33\naddi x13, x0, 258\necall\nebreak\nend\n",
        "",
        "run quiet 31\nat 4 0 1 answer 3 0\nat 8 0 1 answer 5 0\nat 12 0 1 answer 3 0\nat 17 0 1 answer 4 0\nat 18 0 5 raise 0 0\nat 19 0 5 sent 0 3\nat 26 0 3 begin 1 5\nat 27 0 3 xlat 0 0\nat 28 0 5 raise 7 0\nat 29 0 5 died 7 0\nat 30 0 1 raise 7 0\nat 31 0 1 died 7 0\nec 1 global dead 00000244 x12=00000021 x13=00000102 x14=00000040 x17=00000004\nec 3 local parked 00000058 x5=fffff000 x6=00000085 x17=00000001\nec 5 vcpu dead 00000000\nsc 2 0 19\nsc 6 0 12\ncap 0 - 0 mem 0 1 7 0\ncap 1 - 0 obj 0 0 1 0\ncap 2 - 0 obj 1 0 7 1\ncap 3 - 0 obj 2 0 1 2\ncap 4 - 0 obj 32 0 7 3\ncap 5 - 0 obj 64 0 7 4\ncap 6 - 0 obj 33 0 7 5\ncap 7 - 0 obj 34 0 1 6\n",
    ],
];

/// What guests raise, and when it is sent.
static EXITS: [Run; 5] = [
    [
        "a guest that is recalled raises it before its next instruction, once",
        "cpus 1\nram 1\nconsoles 0\nroot 0x200 0 1 10\nimage 0 asm\naddi x5, x0, 1\nebreak\nend\nimage 64 asm\naddi x17, x0, 1\necall\nend\nimage 0x200 asm\naddi x17, x0, 3\naddi x10, x0, 32\naddi x14, x0, 64\necall\naddi x17, x0, 5\naddi x10, x0, 64\naddi x12, x0, 32\necall\naddi x10, x0, 72\necall\naddi x17, x0, 3\naddi x10, x0, 33\naddi x12, x0, 512\necall\naddi x17, x0, 4\naddi x10, x0, 34\naddi x12, x0, 33\naddi x13, x0, 256\necall\naddi x17, x0, 9\naddi x10, x0, 33\necall\nebreak\nend\n",
        "",
        "run quiet 35\nat 4 0 1 answer 3 0\nat 8 0 1 answer 5 0\nat 10 0 1 answer 5 0\nat 14 0 1 answer 3 0\nat 19 0 1 answer 4 0\nat 22 0 1 answer 9 0\nat 23 0 1 raise 7 0\nat 24 0 1 died 7 0\nat 25 0 6 raise 0 0\nat 26 0 6 sent 0 3\nat 28 0 3 answer 1 0\nat 29 0 6 raise 8 0\nat 30 0 6 sent 8 3\nat 32 0 3 answer 1 0\nat 34 0 6 raise 7 0\nat 35 0 6 died 7 0\nec 1 global dead 00000258 x12=00000021 x13=00000100 x14=00000040 x17=00000009\nec 3 local parked 00000044 x17=00000001\nec 6 vcpu dead 00000004 x5=00000001\nsc 2 0 24\nsc 7 0 11\ncap 0 - 0 mem 0 1 7 0\ncap 1 - 0 obj 0 0 1 0\ncap 2 - 0 obj 1 0 7 1\ncap 3 - 0 obj 2 0 1 2\ncap 4 - 0 obj 32 0 7 3\ncap 5 - 0 obj 64 0 7 4\ncap 6 - 0 obj 72 0 7 5\ncap 7 - 0 obj 33 0 7 6\ncap 8 - 0 obj 34 0 1 7\n",
    ],
    [
        "ecall of a guest is an exit, of which it dies without a portal, and no hypercall",
        "cpus 1\nram 1\nconsoles 0\nroot 0x200 0 1 10\nimage 0 asm\naddi x17, x0, 6\naddi x10, x0, 48\necall\nend\nimage 64 asm\naddi x17, x0, 1\necall\nend\nimage 0x200 asm\naddi x17, x0, 3\naddi x10, x0, 32\naddi x14, x0, 64\necall\naddi x17, x0, 5\naddi x10, x0, 64\naddi x12, x0, 32\necall\naddi x17, x0, 3\naddi x10, x0, 33\naddi x12, x0, 512\necall\naddi x17, x0, 4\naddi x10, x0, 34\naddi x12, x0, 33\naddi x13, x0, 258\necall\nebreak\nend\n",
        "",
        "run quiet 27\nat 4 0 1 answer 3 0\nat 8 0 1 answer 5 0\nat 12 0 1 answer 3 0\nat 17 0 1 answer 4 0\nat 18 0 5 raise 0 0\nat 19 0 5 sent 0 3\nat 21 0 3 answer 1 0\nat 24 0 5 raise 6 0\nat 25 0 5 died 6 0\nat 26 0 1 raise 7 0\nat 27 0 1 died 7 0\nec 1 global dead 00000244 x12=00000021 x13=00000102 x14=00000040 x17=00000004\nec 3 local parked 00000044 x17=00000001\nec 5 vcpu dead 00000008 x10=00000030 x17=00000006\nsc 2 0 19\nsc 6 0 8\ncap 0 - 0 mem 0 1 7 0\ncap 1 - 0 obj 0 0 1 0\ncap 2 - 0 obj 1 0 7 1\ncap 3 - 0 obj 2 0 1 2\ncap 4 - 0 obj 32 0 7 3\ncap 5 - 0 obj 64 0 7 4\ncap 6 - 0 obj 33 0 7 5\ncap 7 - 0 obj 34 0 1 6\n",
    ],
    [
        "a guest has no message words: the page that has a thread's is any other",
        "cpus 1\nram 1\nconsoles 0\nroot 0x200 0 1 10\nimage 0 asm\nlui x5, 0xfffff\nsw x5, 32(x5)\njalr x0, 0(x5)\nend\nimage 64 asm\naddi x17, x0, 1\necall\nend\nimage 0x100 asm\nlui x5, 0xfffff\nlui x6, 16\nsw x6, 0(x5)\nlui x6, 1\naddi x6, x6, 29\nsw x6, 504(x5)\nlui x6, 0xfffff\naddi x6, x6, 1\nsw x6, 508(x5)\necall\nend\nimage 0x200 asm\naddi x17, x0, 3\naddi x10, x0, 32\naddi x14, x0, 64\necall\naddi x17, x0, 5\naddi x10, x0, 64\naddi x12, x0, 32\necall\naddi x10, x0, 68\naddi x14, x0, 0x100\necall\naddi x17, x0, 3\naddi x10, x0, 33\naddi x12, x0, 512\naddi x14, x0, 64\necall\naddi x17, x0, 4\naddi x10, x0, 34\naddi x12, x0, 33\naddi x13, x0, 258\necall\nlui x6, 1\nlw x7, 32(x6)\nebreak\nend\nimage 0x1000 asm\naddi x6, x0, 9\nsw x6, 0x600(x5)\nlbu x7, 0x600(x5)\nebreak\nend\n",
        "",
        "run quiet 51\nat 4 0 1 answer 3 0\nat 8 0 1 answer 5 0\nat 11 0 1 answer 5 0\nat 16 0 1 answer 3 0\nat 21 0 1 answer 4 0\nat 22 0 6 raise 0 0\nat 23 0 6 sent 0 3\nat 25 0 3 answer 1 0\nat 27 0 6 raise 4 4294963232\nat 28 0 6 sent 4 3\nat 38 0 3 begin 1 6\nat 39 0 3 made 9 0\nat 40 0 3 ended 0 1\nat 46 0 6 raise 7 0\nat 47 0 6 died 7 0\nat 50 0 1 raise 7 0\nat 51 0 1 died 7 0\nec 1 global dead 0000025c x6=00001000 x7=fffff000 x12=00000021 x13=00000102 x14=00000040 x17=00000004\nec 3 local parked 00000124 x5=fffff000 x6=fffff001 x17=00000001\nec 6 vcpu dead fffff00c x5=fffff000 x6=00000009 x7=00000009\nsc 2 0 25\nsc 7 0 26\ncap 0 - 0 mem 0 1 7 0\ncap 1 - 0 obj 0 0 1 0\ncap 2 - 0 obj 1 0 7 1\ncap 3 - 0 obj 2 0 1 2\ncap 4 - 0 obj 32 0 7 3\ncap 5 - 0 obj 64 0 7 4\ncap 6 - 0 obj 68 0 7 5\ncap 7 - 0 obj 33 0 7 6\ncap 8 - 0 obj 34 0 1 7\ncap 9 0 0 mem 1048575 0 7 1\n",
    ],
    [
        "an exit of a guest waits for its monitor, who is at work, and is sent then",
        "cpus 1\nram 1\nconsoles 0\nroot 0x200 0 1 10\nimage 0 asm\naddi x8, x0, 8\nebreak\nend\nimage 64 asm\naddi x17, x0, 1\necall\nend\nimage 0x100 asm\naddi x17, x0, 4\naddi x10, x0, 36\naddi x12, x0, 33\naddi x13, x0, 1794\necall\naddi x7, x0, 9\naddi x17, x0, 1\necall\nend\nimage 0x200 asm\naddi x17, x0, 3\naddi x10, x0, 32\naddi x14, x0, 64\necall\naddi x17, x0, 5\naddi x10, x0, 64\naddi x12, x0, 32\necall\naddi x10, x0, 35\naddi x14, x0, 0x100\necall\naddi x17, x0, 3\naddi x10, x0, 33\naddi x12, x0, 512\naddi x14, x0, 64\necall\naddi x17, x0, 0\naddi x10, x0, 35\necall\nebreak\nend\n",
        "",
        "run quiet 37\nat 4 0 1 answer 3 0\nat 8 0 1 answer 5 0\nat 11 0 1 answer 5 0\nat 16 0 1 answer 3 0\nat 19 0 1 begin 0 3\nat 24 0 3 answer 4 0\nat 25 0 6 raise 0 0\nat 26 0 6 help 3 1\nat 29 0 3 answer 1 0\nat 30 0 6 sent 0 3\nat 32 0 3 answer 1 0\nat 34 0 6 raise 7 0\nat 35 0 6 died 7 0\nat 36 0 1 raise 7 0\nat 37 0 1 died 7 0\nec 1 global dead 0000024c x12=00000200 x14=00000040\nec 3 local parked 00000044 x7=00000009 x12=00000021 x13=00000702 x17=00000001\nec 6 vcpu dead 00000004 x8=00000008\nsc 2 0 26\nsc 7 0 11\ncap 0 - 0 mem 0 1 7 0\ncap 1 - 0 obj 0 0 1 0\ncap 2 - 0 obj 1 0 7 1\ncap 3 - 0 obj 2 0 1 2\ncap 4 - 0 obj 32 0 7 3\ncap 5 - 0 obj 64 0 7 4\ncap 6 - 0 obj 35 0 7 5\ncap 7 - 0 obj 33 0 7 6\ncap 8 - 0 obj 36 0 1 7\n",
    ],
    [
        "a guest on a second processor, whose memory the root writes, and whom it recalls",
        "cpus 2\nram 1\nconsoles 0\nroot 0x200 0 1 10\nimage 0 asm\nloop: lw x5, 0x400(x0)\nbeq x5, x0, loop\naddi x6, x0, 1\nebreak\nend\nimage 64 asm\naddi x17, x0, 1\necall\nend\nimage 0x200 asm\naddi x17, x0, 3\naddi x10, x0, 32\naddi x12, x0, 1\naddi x14, x0, 64\necall\naddi x17, x0, 5\naddi x10, x0, 64\naddi x12, x0, 32\necall\naddi x10, x0, 72\necall\naddi x17, x0, 3\naddi x10, x0, 33\naddi x12, x0, 513\necall\naddi x17, x0, 4\naddi x10, x0, 34\naddi x12, x0, 33\naddi x13, x0, 258\necall\nsw x13, 0x400(x0)\naddi x17, x0, 9\naddi x10, x0, 33\necall\nebreak\nend\n",
        "0 20\n1 7\n0 1\n1 2\n0 3\n1 8\n0 2\n",
        "run quiet 43\nat 5 0 1 answer 3 0\nat 9 0 1 answer 5 0\nat 11 0 1 answer 5 0\nat 15 0 1 answer 3 0\nat 20 0 1 answer 4 0\nat 21 1 6 raise 0 0\nat 22 1 6 sent 0 3\nat 24 1 3 answer 1 0\nat 33 0 1 answer 9 0\nat 34 1 6 raise 8 0\nat 35 1 6 sent 8 3\nat 37 1 3 answer 1 0\nat 40 1 6 raise 7 0\nat 41 1 6 died 7 0\nat 42 0 1 raise 7 0\nat 43 0 1 died 7 0\nec 1 global dead 00000260 x12=00000021 x13=00000102 x14=00000040 x17=00000009\nec 3 local parked 00000044 x17=00000001\nec 6 vcpu dead 0000000c x5=00000102 x6=00000001\nsc 2 0 26\nsc 7 1 17\ncap 0 - 0 mem 0 1 7 0\ncap 1 - 0 obj 0 0 1 0\ncap 2 - 0 obj 1 0 7 1\ncap 3 - 0 obj 2 0 1 2\ncap 4 - 0 obj 32 0 7 3\ncap 5 - 0 obj 64 0 7 4\ncap 6 - 0 obj 72 0 7 5\ncap 7 - 0 obj 33 0 7 6\ncap 8 - 0 obj 34 0 1 7\n",
    ],
];

/// Virtual CPUs that are refused, and guests that die.
static ENDS: [Run; 4] = [
    [
        "a guest without a portal for its startup",
        "cpus 1\nram 1\nconsoles 0\nroot 0x200 0 1 10\nimage 0x200 asm\naddi x17, x0, 3\naddi x10, x0, 33\naddi x12, x0, 512\naddi x14, x0, 64\necall\naddi x17, x0, 4\naddi x10, x0, 34\naddi x12, x0, 33\naddi x13, x0, 258\necall\nebreak\nend\n",
        "",
        "run quiet 14\nat 5 0 1 answer 3 0\nat 10 0 1 answer 4 0\nat 11 0 3 raise 0 0\nat 12 0 3 died 0 0\nat 13 0 1 raise 7 0\nat 14 0 1 died 7 0\nec 1 global dead 00000228 x12=00000021 x13=00000102 x14=00000040 x17=00000004\nec 3 vcpu dead 00000000\nsc 2 0 12\nsc 4 0 2\ncap 0 - 0 mem 0 1 7 0\ncap 1 - 0 obj 0 0 1 0\ncap 2 - 0 obj 1 0 7 1\ncap 3 - 0 obj 2 0 1 2\ncap 4 - 0 obj 33 0 7 3\ncap 5 - 0 obj 34 0 1 4\n",
    ],
    [
        "a virtual CPU on a processor that isn't there, of a kind that isn't there, with an event base too great, in no domain",
        "cpus 1\nram 1\nconsoles 0\nroot 0x200 0 1 10\nimage 0x200 asm\naddi x17, x0, 3\naddi x10, x0, 32\naddi x12, x0, 0x201\necall\naddi x10, x0, 32\naddi x12, x0, 0x300\necall\naddi x10, x0, 32\naddi x12, x0, 0x200\nlui x14, 256\necall\naddi x10, x0, 32\naddi x14, x0, 64\naddi x11, x0, 1\necall\naddi x10, x0, 32\naddi x11, x0, 0\naddi x13, x0, 0x700\necall\nebreak\nend\n",
        "",
        "run quiet 21\nat 4 0 1 answer 3 7\nat 7 0 1 answer 3 6\nat 11 0 1 answer 3 6\nat 15 0 1 answer 3 5\nat 19 0 1 answer 3 0\nat 20 0 1 raise 7 0\nat 21 0 1 died 7 0\nec 1 global dead 0000024c x12=00000200 x13=00000700 x14=00000040 x17=00000003\nec 3 vcpu fresh 00000000 x2=00000700\nsc 2 0 21\ncap 0 - 0 mem 0 1 7 0\ncap 1 - 0 obj 0 0 1 0\ncap 2 - 0 obj 1 0 7 1\ncap 3 - 0 obj 2 0 1 2\ncap 4 - 0 obj 32 0 7 3\n",
    ],
    [
        "a virtual CPU handles no portal, and has one scheduling context",
        "cpus 1\nram 1\nconsoles 0\nroot 0x200 0 1 10\nimage 0x200 asm\naddi x17, x0, 3\naddi x10, x0, 32\naddi x12, x0, 0x200\necall\naddi x17, x0, 5\naddi x10, x0, 33\naddi x12, x0, 32\necall\naddi x17, x0, 4\naddi x10, x0, 33\naddi x13, x0, 256\necall\naddi x10, x0, 34\necall\nebreak\nend\n",
        "",
        "run quiet 18\nat 4 0 1 answer 3 0\nat 8 0 1 answer 5 5\nat 12 0 1 answer 4 0\nat 14 0 1 answer 4 5\nat 15 0 1 raise 7 0\nat 16 0 1 died 7 0\nat 17 0 3 raise 0 0\nat 18 0 3 died 0 0\nec 1 global dead 00000238 x10=00000005 x12=00000020 x13=00000100 x17=00000004\nec 3 vcpu dead 00000000\nsc 2 0 16\nsc 4 0 2\ncap 0 - 0 mem 0 1 7 0\ncap 1 - 0 obj 0 0 1 0\ncap 2 - 0 obj 1 0 7 1\ncap 3 - 0 obj 2 0 1 2\ncap 4 - 0 obj 32 0 7 3\ncap 5 - 0 obj 33 0 1 4\n",
    ],
    [
        "the monitor dies, and so does its guest",
        "cpus 1\nram 1\nconsoles 0\nroot 0x200 0 1 10\nimage 64 asm\nebreak\nend\nimage 0x200 asm\naddi x17, x0, 3\naddi x10, x0, 32\naddi x14, x0, 64\necall\naddi x17, x0, 5\naddi x10, x0, 64\naddi x12, x0, 32\necall\naddi x17, x0, 3\naddi x10, x0, 33\naddi x12, x0, 512\necall\naddi x17, x0, 4\naddi x10, x0, 34\naddi x12, x0, 33\naddi x13, x0, 258\necall\nebreak\nend\n",
        "",
        "run quiet 24\nat 4 0 1 answer 3 0\nat 8 0 1 answer 5 0\nat 12 0 1 answer 3 0\nat 17 0 1 answer 4 0\nat 18 0 5 raise 0 0\nat 19 0 5 sent 0 3\nat 20 0 3 raise 7 0\nat 21 0 3 died 7 0\nat 22 0 5 abort 3 1\nat 23 0 1 raise 7 0\nat 24 0 1 died 7 0\nec 1 global dead 00000244 x12=00000021 x13=00000102 x14=00000040 x17=00000004\nec 3 local dead 00000040\nec 5 vcpu dead 00000000\nsc 2 0 19\nsc 6 0 5\ncap 0 - 0 mem 0 1 7 0\ncap 1 - 0 obj 0 0 1 0\ncap 2 - 0 obj 1 0 7 1\ncap 3 - 0 obj 2 0 1 2\ncap 4 - 0 obj 32 0 7 3\ncap 5 - 0 obj 64 0 7 4\ncap 6 - 0 obj 33 0 7 5\ncap 7 - 0 obj 34 0 1 6\n",
    ],
];

#[test]
fn monitors_reply_with_registers_and_memory(rt: HostRuntime) {
    run_all(&rt, rt.alloc(), &REPLIES);
}

#[test]
fn guests_run_under_their_monitors(rt: HostRuntime) {
    run_all(&rt, rt.alloc(), &EXITS);
}

#[test]
fn guests_are_refused_and_end(rt: HostRuntime) {
    run_all(&rt, rt.alloc(), &ENDS);
}

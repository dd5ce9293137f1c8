// Sources: which turns are theirs, and how late they are.
use crate::rows::{Run, run_all};

static FEW: [Run; 6] = [
    [
        "a source wakes who waits",
        "cpus 1\nram 0\nconsoles 0\nroot 0 0 1 10\nsource 0 6 1 1\nimage 0 asm\naddi x17, x0, 12\naddi x10, x0, 3\naddi x11, x0, 1\necall\nebreak\nend\n",
        "",
        "run quiet 9\nat 4 0 1 begin 12 3\nat 7 0 1 irq 0 0\nat 8 0 1 raise 7 0\nat 9 0 1 died 7 0\nec 1 global dead 00000010 x11=00000001 x17=0000000c\nsc 2 0 6\nsm 3 0 0\nsource 0 0 3 1 0\ncap 0 - 0 mem 0 0 7 0\ncap 1 - 0 obj 0 0 1 0\ncap 2 - 0 obj 1 0 7 1\ncap 3 - 0 obj 2 0 1 2\ncap 4 - 0 obj 3 0 3 3\n",
    ],
    [
        "two sources at one moment, of which the second is late",
        "cpus 1\nram 0\nconsoles 0\nroot 0 0 1 10\nsource 0 6 1 1\nsource 0 6 1 1\nimage 0 asm\naddi x17, x0, 12\naddi x10, x0, 3\naddi x11, x0, 1\necall\nebreak\nend\n",
        "",
        "run quiet 10\nat 4 0 1 begin 12 3\nat 7 0 1 irq 0 0\nat 8 0 0 irq 1 0\nat 9 0 1 raise 7 0\nat 10 0 1 died 7 0\nec 1 global dead 00000010 x11=00000001 x17=0000000c\nsc 2 0 6\nsm 3 0 0\nsm 4 1 0\nsource 0 0 3 1 0\nsource 1 0 4 1 1\ncap 0 - 0 mem 0 0 7 0\ncap 1 - 0 obj 0 0 1 0\ncap 2 - 0 obj 1 0 7 1\ncap 3 - 0 obj 2 0 1 2\ncap 4 - 0 obj 3 0 3 3\ncap 5 - 0 obj 4 0 3 4\n",
    ],
    [
        "a processor that only ticks comes to its source",
        "cpus 2\nram 0\nconsoles 0\nroot 0 0 1 10\nsource 1 5 1 1\nimage 0 asm\nebreak\nend\n",
        "",
        "run quiet 8\nat 1 0 1 raise 7 0\nat 3 0 1 died 7 0\nat 8 1 0 irq 0 0\nec 1 global dead 00000000\nsc 2 0 2\nsm 3 1 0\nsource 0 1 3 1 0\ncap 0 - 0 mem 0 0 7 0\ncap 1 - 0 obj 0 0 1 0\ncap 2 - 0 obj 1 0 7 1\ncap 3 - 0 obj 2 0 1 2\ncap 4 - 0 obj 3 0 3 3\n",
    ],
    [
        "a source wakes who waits on another processor",
        "cpus 2\nram 0\nconsoles 0\nroot 0 0 1 10\nsource 1 6 1 1\nimage 0 asm\naddi x17, x0, 12\naddi x10, x0, 3\naddi x11, x0, 1\necall\nebreak\nend\n",
        "",
        "run quiet 13\nat 7 0 1 begin 12 3\nat 11 1 1 irq 0 0\nat 12 0 1 raise 7 0\nat 13 0 1 died 7 0\nec 1 global dead 00000010 x11=00000001 x17=0000000c\nsc 2 0 6\nsm 3 0 0\nsource 0 1 3 1 0\ncap 0 - 0 mem 0 0 7 0\ncap 1 - 0 obj 0 0 1 0\ncap 2 - 0 obj 1 0 7 1\ncap 3 - 0 obj 2 0 1 2\ncap 4 - 0 obj 3 0 3 3\n",
    ],
    [
        "a source comes between the instructions of who computes, and goes on after the end",
        "cpus 1\nram 0\nconsoles 0\nroot 0 0 1 10\nsource 0 2 4 3\nimage 0 asm\naddi x5, x0, 3\naddi x5, x5, -1\nbne x5, x0, -4\nebreak\nend\n",
        "",
        "run quiet 12\nat 3 0 0 irq 0 0\nat 7 0 0 irq 0 0\nat 10 0 1 raise 7 0\nat 11 0 0 irq 0 0\nat 12 0 1 died 7 0\nec 1 global dead 0000000c\nsc 2 0 9\nsm 3 3 0\nsource 0 0 3 3 0\ncap 0 - 0 mem 0 0 7 0\ncap 1 - 0 obj 0 0 1 0\ncap 2 - 0 obj 1 0 7 1\ncap 3 - 0 obj 2 0 1 2\ncap 4 - 0 obj 3 0 3 3\n",
    ],
    [
        "two sources that leave their processor no turn are later each time",
        "cpus 1\nram 0\nconsoles 0\nroot 0 0 1 10\nsource 0 2 1 4\nsource 0 2 1 4\nimage 0 asm\naddi x5, x0, 1\naddi x5, x5, 1\naddi x5, x5, 1\nebreak\nend\n",
        "",
        "run quiet 13\nat 3 0 0 irq 0 0\nat 4 0 0 irq 1 0\nat 5 0 0 irq 0 0\nat 6 0 0 irq 1 0\nat 7 0 0 irq 0 0\nat 8 0 0 irq 1 0\nat 9 0 0 irq 0 0\nat 10 0 0 irq 1 0\nat 12 0 1 raise 7 0\nat 13 0 1 died 7 0\nec 1 global dead 0000000c x5=00000003\nsc 2 0 5\nsm 3 4 0\nsm 4 4 0\nsource 0 0 3 4 3\nsource 1 0 4 4 4\ncap 0 - 0 mem 0 0 7 0\ncap 1 - 0 obj 0 0 1 0\ncap 2 - 0 obj 1 0 7 1\ncap 3 - 0 obj 2 0 1 2\ncap 4 - 0 obj 3 0 3 3\ncap 5 - 0 obj 4 0 3 4\n",
    ],
];

static MANY: [Run; 1] = [[
    "thirty-two sources on eight processors; from the fourteenth on their semaphores are at the root's event selectors",
    "cpus 8\nram 0\nconsoles 0\nroot 0 0 1 10\nsource 0 0 1 1\nsource 1 0 2 2\nsource 2 0 3 1\nsource 3 0 1 2\nsource 4 0 2 1\nsource 5 0 3 2\nsource 6 0 1 1\nsource 7 0 2 2\nsource 0 1 3 1\nsource 1 1 1 2\nsource 2 1 2 1\nsource 3 1 3 2\nsource 4 1 1 1\nsource 5 1 2 2\nsource 6 1 3 1\nsource 7 1 1 2\nsource 0 2 2 1\nsource 1 2 3 2\nsource 2 2 1 1\nsource 3 2 2 2\nsource 4 2 3 1\nsource 5 2 1 2\nsource 6 2 2 1\nsource 7 2 3 2\nsource 0 3 1 1\nsource 1 3 2 2\nsource 2 3 3 1\nsource 3 3 1 2\nsource 4 3 2 1\nsource 5 3 3 2\nsource 6 3 1 1\nsource 7 3 2 2\nimage 0 asm\naddi x17, x0, 6\naddi x10, x0, 16\necall\naddi x10, x0, 35\necall\nebreak\nend\n",
    "",
    "run quiet 55\nat 1 0 0 irq 0 0\nat 2 1 0 irq 1 0\nat 3 2 0 irq 2 0\nat 4 3 0 irq 3 0\nat 5 4 0 irq 4 0\nat 6 5 0 irq 5 0\nat 7 6 0 irq 6 0\nat 8 7 0 irq 7 0\nat 9 0 0 irq 8 0\nat 10 1 0 irq 9 0\nat 11 2 0 irq 10 0\nat 12 3 0 irq 3 0\nat 13 4 0 irq 12 0\nat 14 5 0 irq 13 0\nat 15 6 0 irq 14 0\nat 16 7 0 irq 15 0\nat 17 0 0 irq 16 0\nat 18 1 0 irq 1 0\nat 19 2 0 irq 18 0\nat 20 3 0 irq 11 0\nat 21 4 0 irq 20 0\nat 22 5 0 irq 21 0\nat 23 6 0 irq 22 0\nat 24 7 0 irq 7 0\nat 25 0 0 irq 24 0\nat 26 1 0 irq 9 0\nat 27 2 0 irq 26 0\nat 28 3 0 irq 19 0\nat 29 4 0 irq 28 0\nat 30 5 0 irq 5 0\nat 31 6 0 irq 30 0\nat 32 7 0 irq 15 0\nat 34 1 0 irq 17 0\nat 35 3 0 irq 27 0\nat 36 5 0 irq 13 0\nat 37 7 0 irq 23 0\nat 39 1 0 irq 25 0\nat 40 3 0 irq 11 0\nat 41 5 0 irq 21 0\nat 42 7 0 irq 31 0\nat 43 0 1 answer 6 5\nat 44 1 0 irq 17 0\nat 45 3 0 irq 19 0\nat 46 5 0 irq 29 0\nat 47 7 0 irq 23 0\nat 49 1 0 irq 25 0\nat 50 3 0 irq 27 0\nat 51 5 0 irq 29 0\nat 52 7 0 irq 31 0\nat 53 0 1 answer 6 0\nat 54 0 1 raise 7 0\nat 55 0 1 died 7 0\nec 1 global dead 00000014 x17=00000006\nsc 2 0 7\nsm 3 1 0\nsm 4 2 0\nsm 5 1 0\nsm 6 2 0\nsm 7 1 0\nsm 8 2 0\nsm 9 1 0\nsm 10 2 0\nsm 11 1 0\nsm 12 2 0\nsm 13 1 0\nsm 14 2 0\nsm 15 1 0\nsm 16 2 0\nsm 17 1 0\nsm 18 2 0\nsm 19 1 0\nsm 20 2 0\nsm 21 1 0\nsm 22 2 0\nsm 23 1 0\nsm 24 2 0\nsm 25 1 0\nsm 26 2 0\nsm 27 1 0\nsm 28 2 0\nsm 29 1 0\nsm 30 2 0\nsm 31 1 0\nsm 32 2 0\nsm 33 1 0\nsm 34 2 0\nsm 35 0 0\nsource 0 0 3 1 0\nsource 1 1 4 2 0\nsource 2 2 5 1 0\nsource 3 3 6 2 0\nsource 4 4 7 1 0\nsource 5 5 8 2 0\nsource 6 6 9 1 0\nsource 7 7 10 2 0\nsource 8 0 11 1 0\nsource 9 1 12 2 1\nsource 10 2 13 1 0\nsource 11 3 14 2 1\nsource 12 4 15 1 0\nsource 13 5 16 2 1\nsource 14 6 17 1 0\nsource 15 7 18 2 1\nsource 16 0 19 1 0\nsource 17 1 20 2 2\nsource 18 2 21 1 0\nsource 19 3 22 2 2\nsource 20 4 23 1 0\nsource 21 5 24 2 2\nsource 22 6 25 1 0\nsource 23 7 26 2 2\nsource 24 0 27 1 0\nsource 25 1 28 2 2\nsource 26 2 29 1 0\nsource 27 3 30 2 3\nsource 28 4 31 1 0\nsource 29 5 32 2 3\nsource 30 6 33 1 0\nsource 31 7 34 2 2\ncap 0 - 0 mem 0 0 7 0\ncap 1 - 0 obj 0 0 1 0\ncap 2 - 0 obj 1 0 7 1\ncap 3 - 0 obj 2 0 1 2\ncap 4 - 0 obj 3 0 3 3\ncap 5 - 0 obj 4 0 3 4\ncap 6 - 0 obj 5 0 3 5\ncap 7 - 0 obj 6 0 3 6\ncap 8 - 0 obj 7 0 3 7\ncap 9 - 0 obj 8 0 3 8\ncap 10 - 0 obj 9 0 3 9\ncap 11 - 0 obj 10 0 3 10\ncap 12 - 0 obj 11 0 3 11\ncap 13 - 0 obj 12 0 3 12\ncap 14 - 0 obj 13 0 3 13\ncap 15 - 0 obj 14 0 3 14\ncap 16 - 0 obj 15 0 3 15\ncap 17 - 0 obj 16 0 3 16\ncap 18 - 0 obj 17 0 3 17\ncap 19 - 0 obj 18 0 3 18\ncap 20 - 0 obj 19 0 3 19\ncap 21 - 0 obj 20 0 3 20\ncap 22 - 0 obj 21 0 3 21\ncap 23 - 0 obj 22 0 3 22\ncap 24 - 0 obj 23 0 3 23\ncap 25 - 0 obj 24 0 3 24\ncap 26 - 0 obj 25 0 3 25\ncap 27 - 0 obj 26 0 3 26\ncap 28 - 0 obj 27 0 3 27\ncap 29 - 0 obj 28 0 3 28\ncap 30 - 0 obj 29 0 3 29\ncap 31 - 0 obj 30 0 3 30\ncap 32 - 0 obj 31 0 3 31\ncap 33 - 0 obj 32 0 3 32\ncap 34 - 0 obj 33 0 3 33\ncap 35 - 0 obj 34 0 3 34\ncap 36 - 0 obj 35 0 3 35\n",
]];

#[test]
fn sources_fire(rt: HostRuntime) {
    run_all(&rt, rt.alloc(), &FEW);
}

#[test]
fn the_most_sources_fire(rt: HostRuntime) {
    run_all(&rt, rt.alloc(), &MANY);
}

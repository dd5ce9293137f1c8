// Deadlines: which contexts wait to a moment, and what comes first.
use crate::rows::{Row, Run, run_all, run_rows};
use nova_top::Exit;

/// One thread that waits.
static ALONE: [Run; 5] = [
    [
        "a down with a deadline ends late",
        "cpus 1\nram 0\nconsoles 0\nroot 0 0 1 10\nimage 0 asm\naddi x17, x0, 6\naddi x10, x0, 32\necall\naddi x17, x0, 12\naddi x10, x0, 32\naddi x11, x0, 2\naddi x12, x0, 3\necall\nebreak\nend\n",
        "",
        "run quiet 14\nat 3 0 1 answer 6 0\nat 8 0 1 begin 12 3\nat 12 0 1 late 3 1\nat 13 0 1 raise 7 0\nat 14 0 1 died 7 0\nec 1 global dead 00000020 x10=00000001 x11=00000002 x12=00000003 x17=0000000c\nsc 2 0 10\nsm 3 0 0\ncap 0 - 0 mem 0 0 7 0\ncap 1 - 0 obj 0 0 1 0\ncap 2 - 0 obj 1 0 7 1\ncap 3 - 0 obj 2 0 1 2\ncap 4 - 0 obj 32 0 3 3\n",
    ],
    [
        "a down with a deadline of no ticks does not wait",
        "cpus 1\nram 0\nconsoles 0\nroot 0 0 1 10\nimage 0 asm\naddi x17, x0, 6\naddi x10, x0, 32\necall\naddi x17, x0, 12\naddi x10, x0, 32\naddi x11, x0, 2\naddi x12, x0, 0\necall\nebreak\nend\n",
        "",
        "run quiet 10\nat 3 0 1 answer 6 0\nat 8 0 1 answer 12 1\nat 9 0 1 raise 7 0\nat 10 0 1 died 7 0\nec 1 global dead 00000020 x10=00000001 x11=00000002 x17=0000000c\nsc 2 0 10\nsm 3 0 0\ncap 0 - 0 mem 0 0 7 0\ncap 1 - 0 obj 0 0 1 0\ncap 2 - 0 obj 1 0 7 1\ncap 3 - 0 obj 2 0 1 2\ncap 4 - 0 obj 32 0 3 3\n",
    ],
    [
        "an alarm rings before the deadline of its moment, which then is late",
        "cpus 1\nram 0\nconsoles 0\nroot 0 0 1 10\nsource 0 8 1 1\nsource 0 20 1 1\nimage 0 asm\naddi x17, x0, 12\naddi x10, x0, 4\naddi x11, x0, 2\naddi x12, x0, 3\necall\nebreak\nend\n",
        "",
        "run quiet 21\nat 5 0 1 begin 12 4\nat 9 0 0 irq 0 0\nat 10 0 1 late 4 1\nat 11 0 1 raise 7 0\nat 12 0 1 died 7 0\nat 21 0 0 irq 1 0\nec 1 global dead 00000014 x10=00000001 x11=00000002 x12=00000003 x17=0000000c\nsc 2 0 7\nsm 3 1 0\nsm 4 1 0\nsource 0 0 3 1 0\nsource 1 0 4 1 0\ncap 0 - 0 mem 0 0 7 0\ncap 1 - 0 obj 0 0 1 0\ncap 2 - 0 obj 1 0 7 1\ncap 3 - 0 obj 2 0 1 2\ncap 4 - 0 obj 3 0 3 3\ncap 5 - 0 obj 4 0 3 4\n",
    ],
    [
        "an alarm wakes who waits at the moment of the deadline, which is gone",
        "cpus 1\nram 0\nconsoles 0\nroot 0 0 1 10\nsource 0 8 1 1\nimage 0 asm\naddi x17, x0, 12\naddi x10, x0, 3\naddi x11, x0, 2\naddi x12, x0, 3\necall\nebreak\nend\n",
        "",
        "run quiet 11\nat 5 0 1 begin 12 3\nat 9 0 1 irq 0 0\nat 10 0 1 raise 7 0\nat 11 0 1 died 7 0\nec 1 global dead 00000014 x11=00000002 x12=00000003 x17=0000000c\nsc 2 0 7\nsm 3 0 0\nsource 0 0 3 1 0\ncap 0 - 0 mem 0 0 7 0\ncap 1 - 0 obj 0 0 1 0\ncap 2 - 0 obj 1 0 7 1\ncap 3 - 0 obj 2 0 1 2\ncap 4 - 0 obj 3 0 3 3\n",
    ],
    [
        "an alarm wakes who waits in the turn before the deadline",
        "cpus 1\nram 0\nconsoles 0\nroot 0 0 1 10\nsource 0 7 1 1\nimage 0 asm\naddi x17, x0, 12\naddi x10, x0, 3\naddi x11, x0, 2\naddi x12, x0, 3\necall\nebreak\nend\n",
        "",
        "run quiet 10\nat 5 0 1 begin 12 3\nat 8 0 1 irq 0 0\nat 9 0 1 raise 7 0\nat 10 0 1 died 7 0\nec 1 global dead 00000014 x11=00000002 x12=00000003 x17=0000000c\nsc 2 0 7\nsm 3 0 0\nsource 0 0 3 1 0\ncap 0 - 0 mem 0 0 7 0\ncap 1 - 0 obj 0 0 1 0\ncap 2 - 0 obj 1 0 7 1\ncap 3 - 0 obj 2 0 1 2\ncap 4 - 0 obj 3 0 3 3\n",
    ],
];

/// A thread that waits beside the root: on another processor, and on its own.
static BESIDE: [Run; 3] = [
    [
        "an up in the very turn before a deadline wakes who waits",
        "cpus 2\nram 1\nconsoles 0\nroot 0 0 1 10\nimage 0 asm\naddi x17, x0, 6\naddi x10, x0, 34\necall\naddi x17, x0, 3\naddi x10, x0, 32\naddi x12, x0, 1\naddi x14, x0, 64\necall\naddi x17, x0, 5\naddi x10, x0, 48\naddi x12, x0, 32\naddi x14, x0, 0x200\necall\naddi x17, x0, 3\naddi x10, x0, 35\naddi x12, x0, 257\naddi x14, x0, 48\necall\naddi x17, x0, 4\naddi x10, x0, 37\naddi x12, x0, 35\naddi x13, x0, 513\necall\naddi x17, x0, 12\naddi x10, x0, 34\naddi x11, x0, 0\necall\nebreak\nend\nimage 0x200 asm\nlui x5, 0xfffff\naddi x6, x0, 2\nsw x6, 16(x5)\naddi x6, x0, 0x280\nsw x6, 28(x5)\naddi x17, x0, 1\necall\nend\nimage 0x280 asm\naddi x17, x0, 12\naddi x10, x0, 34\naddi x11, x0, 2\naddi x12, x0, 3\necall\nebreak\nend\n",
        "0 26\n1 17\n0 1\n1 2\n0 2\n",
        "run quiet 48\nat 3 0 1 answer 6 0\nat 8 0 1 answer 3 0\nat 13 0 1 answer 5 0\nat 18 0 1 answer 3 0\nat 23 0 1 answer 4 0\nat 27 1 6 raise 0 0\nat 28 1 6 sent 0 4\nat 35 1 4 answer 1 0\nat 40 1 6 begin 12 3\nat 44 0 1 answer 12 0\nat 45 1 6 raise 7 0\nat 46 1 6 died 7 0\nat 47 0 1 raise 7 0\nat 48 0 1 died 7 0\nec 1 global dead 0000006c x12=00000023 x13=00000201 x14=00000030 x17=0000000c\nec 4 local parked 00000218 x5=fffff000 x6=00000280 x17=00000001\nec 6 global dead 00000294 x11=00000002 x12=00000003 x17=0000000c\nsc 2 0 29\nsc 7 1 16\nsm 3 0 0\ncap 0 - 0 mem 0 1 7 0\ncap 1 - 0 obj 0 0 1 0\ncap 2 - 0 obj 1 0 7 1\ncap 3 - 0 obj 2 0 1 2\ncap 4 - 0 obj 34 0 3 3\ncap 5 - 0 obj 32 0 7 4\ncap 6 - 0 obj 48 0 7 5\ncap 7 - 0 obj 35 0 7 6\ncap 8 - 0 obj 37 0 1 7\n",
    ],
    [
        "an up in the turn after a deadline finds nobody",
        "cpus 2\nram 1\nconsoles 0\nroot 0 0 1 10\nimage 0 asm\naddi x17, x0, 6\naddi x10, x0, 34\necall\naddi x17, x0, 3\naddi x10, x0, 32\naddi x12, x0, 1\naddi x14, x0, 64\necall\naddi x17, x0, 5\naddi x10, x0, 48\naddi x12, x0, 32\naddi x14, x0, 0x200\necall\naddi x17, x0, 3\naddi x10, x0, 35\naddi x12, x0, 257\naddi x14, x0, 48\necall\naddi x17, x0, 4\naddi x10, x0, 37\naddi x12, x0, 35\naddi x13, x0, 513\necall\naddi x17, x0, 12\naddi x10, x0, 34\naddi x11, x0, 0\necall\nebreak\nend\nimage 0x200 asm\nlui x5, 0xfffff\naddi x6, x0, 2\nsw x6, 16(x5)\naddi x6, x0, 0x280\nsw x6, 28(x5)\naddi x17, x0, 1\necall\nend\nimage 0x280 asm\naddi x17, x0, 12\naddi x10, x0, 34\naddi x11, x0, 2\naddi x12, x0, 3\necall\nebreak\nend\n",
        "0 26\n1 18\n0 1\n1 2\n0 2\n",
        "run quiet 49\nat 3 0 1 answer 6 0\nat 8 0 1 answer 3 0\nat 13 0 1 answer 5 0\nat 18 0 1 answer 3 0\nat 23 0 1 answer 4 0\nat 27 1 6 raise 0 0\nat 28 1 6 sent 0 4\nat 35 1 4 answer 1 0\nat 40 1 6 begin 12 3\nat 44 1 6 late 3 1\nat 45 0 1 answer 12 0\nat 46 1 6 raise 7 0\nat 47 1 6 died 7 0\nat 48 0 1 raise 7 0\nat 49 0 1 died 7 0\nec 1 global dead 0000006c x12=00000023 x13=00000201 x14=00000030 x17=0000000c\nec 4 local parked 00000218 x5=fffff000 x6=00000280 x17=00000001\nec 6 global dead 00000294 x10=00000001 x11=00000002 x12=00000003 x17=0000000c\nsc 2 0 29\nsc 7 1 16\nsm 3 1 0\ncap 0 - 0 mem 0 1 7 0\ncap 1 - 0 obj 0 0 1 0\ncap 2 - 0 obj 1 0 7 1\ncap 3 - 0 obj 2 0 1 2\ncap 4 - 0 obj 34 0 3 3\ncap 5 - 0 obj 32 0 7 4\ncap 6 - 0 obj 48 0 7 5\ncap 7 - 0 obj 35 0 7 6\ncap 8 - 0 obj 37 0 1 7\n",
    ],
    [
        "of two deadlines of one moment that of the lesser number is first, whoever waited first",
        "cpus 1\nram 1\nconsoles 0\nroot 0 0 1 10\nimage 0 asm\naddi x17, x0, 6\naddi x10, x0, 34\necall\naddi x17, x0, 3\naddi x10, x0, 32\naddi x12, x0, 0\naddi x14, x0, 64\necall\naddi x17, x0, 5\naddi x10, x0, 48\naddi x12, x0, 32\naddi x14, x0, 0x200\necall\naddi x17, x0, 3\naddi x10, x0, 35\naddi x12, x0, 256\naddi x14, x0, 48\necall\naddi x17, x0, 4\naddi x10, x0, 37\naddi x12, x0, 35\naddi x13, x0, 514\necall\naddi x17, x0, 12\naddi x10, x0, 34\naddi x11, x0, 2\naddi x12, x0, 3\necall\nebreak\nend\nimage 0x200 asm\nlui x5, 0xfffff\naddi x6, x0, 2\nsw x6, 16(x5)\naddi x6, x0, 0x280\nsw x6, 28(x5)\naddi x17, x0, 1\necall\nend\nimage 0x280 asm\naddi x17, x0, 12\naddi x10, x0, 34\naddi x11, x0, 2\naddi x12, x0, 8\necall\nebreak\nend\n",
        "",
        "run quiet 51\nat 3 0 1 answer 6 0\nat 8 0 1 answer 3 0\nat 13 0 1 answer 5 0\nat 18 0 1 answer 3 0\nat 23 0 1 answer 4 0\nat 24 0 6 raise 0 0\nat 25 0 6 sent 0 4\nat 32 0 4 answer 1 0\nat 37 0 6 begin 12 3\nat 42 0 1 begin 12 3\nat 46 0 1 late 3 1\nat 47 0 6 late 3 1\nat 48 0 6 raise 7 0\nat 49 0 6 died 7 0\nat 50 0 1 raise 7 0\nat 51 0 1 died 7 0\nec 1 global dead 00000070 x10=00000001 x11=00000002 x12=00000003 x13=00000202 x14=00000030 x17=0000000c\nec 4 local parked 00000218 x5=fffff000 x6=00000280 x17=00000001\nec 6 global dead 00000294 x10=00000001 x11=00000002 x12=00000008 x17=0000000c\nsc 2 0 30\nsc 7 0 16\nsm 3 0 0\ncap 0 - 0 mem 0 1 7 0\ncap 1 - 0 obj 0 0 1 0\ncap 2 - 0 obj 1 0 7 1\ncap 3 - 0 obj 2 0 1 2\ncap 4 - 0 obj 34 0 3 3\ncap 5 - 0 obj 32 0 7 4\ncap 6 - 0 obj 48 0 7 5\ncap 7 - 0 obj 35 0 7 6\ncap 8 - 0 obj 37 0 1 7\n",
    ],
];

/// Runs of 20 turns, at whose end something is still to come.
static LIMITED: [Row; 2] = [
    Row {
        shows: "a down with the most ticks waits to the limit",
        words: "solo scenario --limit 20",
        scenario: "cpus 1\nram 0\nconsoles 0\nroot 0 0 1 10\nimage 0 asm\naddi x17, x0, 6\naddi x10, x0, 32\necall\naddi x17, x0, 12\naddi x10, x0, 32\naddi x11, x0, 2\naddi x12, x0, -1\necall\nebreak\nend\n",
        order: None,
        room: 4096,
        exit: Exit::Limit,
        text: "run open 20\nat 3 0 1 answer 6 0\nat 8 0 1 begin 12 3\nec 1 global blocked 0000001c x10=00000020 x11=00000002 x12=ffffffff x17=0000000c\nsc 2 0 8\nsm 3 0 1\ncap 0 - 0 mem 0 0 7 0\ncap 1 - 0 obj 0 0 1 0\ncap 2 - 0 obj 1 0 7 1\ncap 3 - 0 obj 2 0 1 2\ncap 4 - 0 obj 32 0 3 3\n",
    },
    Row {
        shows: "what is due behind the limit does not come",
        words: "solo scenario --limit 20",
        scenario: "cpus 1\nram 0\nconsoles 0\nroot 0 0 1 10\nsource 0 6 50 3\nsource 0 19 1 1\nsource 0 20 1 1\nimage 0 asm\nebreak\nend\n",
        order: None,
        room: 4096,
        exit: Exit::Limit,
        text: "run open 20\nat 1 0 1 raise 7 0\nat 2 0 1 died 7 0\nat 7 0 0 irq 0 0\nat 20 0 0 irq 1 0\nec 1 global dead 00000000\nsc 2 0 2\nsm 3 1 0\nsm 4 1 0\nsm 5 0 0\nsource 0 0 3 1 0\nsource 1 0 4 1 0\nsource 2 0 5 0 0\ncap 0 - 0 mem 0 0 7 0\ncap 1 - 0 obj 0 0 1 0\ncap 2 - 0 obj 1 0 7 1\ncap 3 - 0 obj 2 0 1 2\ncap 4 - 0 obj 3 0 3 3\ncap 5 - 0 obj 4 0 3 4\ncap 6 - 0 obj 5 0 3 5\n",
    },
];

#[test]
fn a_wait_ends_at_its_deadline(rt: HostRuntime) {
    run_all(&rt, rt.alloc(), &ALONE);
}

#[test]
fn deadlines_come_in_order(rt: HostRuntime) {
    run_all(&rt, rt.alloc(), &BESIDE);
}

#[test]
fn what_is_to_come_stays_open(rt: HostRuntime) {
    run_rows(&rt, rt.alloc(), &LIMITED);
}

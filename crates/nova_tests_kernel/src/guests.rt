// A guest as its kernel tells it: as it is made, and with its first page.
ghost use Rattle.std.specs.Prelude.{◌≡◌, ◌<◌, ◌≤◌, length};

use crate::machines::{ROOT, lay};
use bitflags::Flags;
use nova_guest::{Guest, GuestState};
use nova_kernel::{EcKind, Kernel, Object};
use nova_tests_bursts::drops::let_go;
use nova_tests_bursts::turns::take;
use std::alloc::Global;
use std::process::Abort;

/// The number of the guest that the root makes.
const GUEST: u32 = 6;

/// What the root executes: it makes a monitor, and a guest with a domain of its own.
static ROOT_WORDS: [u32; 26] = [
    0x0030_0893, // addi x17, x0, 3: create_ec
    0x0200_0513, // addi x10, x0, 32
    0x0300_0713, // addi x14, x0, 48
    0x0000_0073, // ecall: object 3, a local thread, the monitor
    0x0050_0893, // addi x17, x0, 5: create_pt
    0x0400_0513, // addi x10, x0, 64
    0x0200_0613, // addi x12, x0, 32
    0x1000_0713, // addi x14, x0, 0x100
    0x0000_0073, // ecall: object 4, the portal of startup exits, at which the monitor begins at 0x100
    0x0020_0893, // addi x17, x0, 2: create_pd
    0x0210_0513, // addi x10, x0, 33
    0x0004_0637, // lui x12, 0x40
    0x0136_0613, // addi x12, x12, 19: selector 64, with the right to send
    0x0000_0073, // ecall: object 5, the guest's domain, which is given the portal
    0x0030_0893, // addi x17, x0, 3: create_ec
    0x0220_0513, // addi x10, x0, 34
    0x0210_0593, // addi x11, x0, 33
    0x2000_0613, // addi x12, x0, 512: a virtual CPU of processor 0
    0x7f00_0693, // addi x13, x0, 0x7f0
    0x0400_0713, // addi x14, x0, 64
    0x0000_0073, // ecall: object 6, the guest, whose exits go to selectors from 64 on
    0x0040_0893, // addi x17, x0, 4: create_sc
    0x0230_0513, // addi x10, x0, 35
    0x0220_0613, // addi x12, x0, 34
    0x7020_0693, // addi x13, x0, 1794: quantum 7, and priority 2, which is more than the root's
    0x0000_0073, // ecall: object 7, the guest's scheduling context
];

/// What the monitor executes: it replies with the page of frame 1.
static MONITOR_WORDS: [u32; 10] = [
    0xffff_f2b7, // lui x5, 0xfffff: its message words
    0x0001_0337, // lui x6, 16
    0x0062_a023, // sw x6, 0(x5): one item, and no group of registers
    0x0000_1337, // lui x6, 1
    0x01d3_0313, // addi x6, x6, 29: page 1, with all rights
    0x1e62_ac23, // sw x6, 504(x5)
    0x0010_0313, // addi x6, x0, 1
    0x1e62_ae23, // sw x6, 508(x5): it delegates
    0x0010_0893, // addi x17, x0, 1: reply
    0x0000_0073, // ecall
];

/// Whether a guest has the registers of its birth.
fn is_as_born(guest: &Guest) -> bool {
    for n in 0..32 {
        let born = if n == 2 { 0x7f0 } else { 0 };
        if guest.regs.get(n) != born {
            return false;
        }
    }
    guest.regs.pc() == 0 && !guest.recall
}

/// The only map of a guest: base, order, rights and frame.
fn only_map(guest: &Guest) -> Option<(u32, u8, u8, u32)> {
    match guest.maps.as_slice() {
        [map] => Some((map.base, map.order, map.rights.bits(), map.frame)),
        _ => None,
    }
}

/// The only cell of a guest: its frame and its first byte.
fn only_cell(guest: &Guest) -> Option<(u32, Option<u8>)> {
    match guest.cells.as_slice() {
        [cell] => Some((cell.frame, cell.contents.as_slice().first().copied())),
        _ => None,
    }
}

/// What a kernel tells of the guest, and which scheduling context it charges next.
#[derive(Clone, Copy, PartialEq)]
struct Told {
    is_fresh: bool,
    is_ready: bool,
    is_as_born: bool,
    /// How many maps and cells.
    places: (usize, usize),
    map: Option<(u32, u8, u8, u32)>,
    cell: Option<(u32, Option<u8>)>,
    /// The stir counts of the guest and of processor 0.
    stirs: (u64, u64),
    chosen: Option<u32>,
    /// The turns that it paid for, and those left of its quantum.
    ticks: Option<u64>,
    left: Option<u32>,
}

/// The guest and its stir counts.
fn seen(rt: &impl Abort, alloc: Global, kernel: &Kernel) -> (Guest, (u64, u64))
    requires { 0 < kernel.now.state.cpus }
{
    let Some(
        Object::Ec {
            kind: EcKind::Vcpu,
            ..
        },
    ) = kernel.object(GUEST)
    else {
        panic!(rt; "the guest is there");
    };
    let stirs = kernel.stir(GUEST, 0);
    let guest = kernel.view(alloc, GUEST).expect(rt, "ample memory");
    (guest, stirs)
}

/// What `kernel` tells, where it charges this scheduling context next.
fn tell(rt: &impl Abort, alloc: Global, kernel: &Kernel, sc: u32) -> Told
    requires { 0 < kernel.now.state.cpus }
{
    let (guest, stirs) = seen(rt, alloc, kernel);
    let told = Told {
        is_fresh: matches!(guest.state, GuestState::Fresh),
        is_ready: matches!(guest.state, GuestState::Ready),
        is_as_born: is_as_born(&guest),
        places: (guest.maps.as_slice().len(), guest.cells.as_slice().len()),
        map: only_map(&guest),
        cell: only_cell(&guest),
        stirs,
        chosen: kernel.choose(0),
        ticks: kernel.ticks(sc),
        left: kernel.left(sc),
    };
    let_go(guest);
    told
}

/// Right after the root has made the guest, and after the reply to its startup exit, which has brought a page.
static WANTED: [Told; 2] = [
    Told {
        is_fresh: true,
        is_ready: false,
        is_as_born: true,
        places: (0, 0),
        map: None,
        cell: None,
        stirs: (0, 23),
        chosen: Some(2),
        ticks: Some(23),
        left: Some(7),
    },
    Told {
        is_fresh: false,
        is_ready: true,
        is_as_born: true,
        places: (1, 1),
        map: Some((0, 0, 7, 1)),
        cell: Some((1, Some(7))),
        stirs: (3, 42),
        chosen: Some(7),
        ticks: Some(14),
        left: Some(7),
    },
];

/// What a copy of the kernel tells: which scheduling context it charges next, and what is left of the quantum of the root's.
fn copied(rt: &impl Abort, kernel: &Kernel) -> (Option<u32>, Option<u32>) {
    let copy = kernel.copy().expect(rt, "ample memory");
    let told = (copy.choose(0), copy.left(2));
    let_go(copy);
    told
}

/// Whether a machine tells so when its root has made the guest, and when the guest has its page.
fn is_told(rt: &impl Abort, alloc: Global, kernel: &mut Kernel) -> bool
    requires ram { length kernel.old.state.memory.ram ≡ 2 }
    requires cpus { 0 < kernel.old.state.cpus }
    requires room { 42 ≤ kernel.old.room }
    requires turns { kernel.old.state.turns ≡ 0 }
{
    lay(kernel, 0, &ROOT_WORDS);
    lay(kernel, 256, &MONITOR_WORDS);
    kernel.put(4096, &[7]);
    take(kernel, 0, 23).expect(rt, "ample memory");
    let made = tell(rt, alloc, kernel, 2);
    let same = copied(rt, kernel);
    take(kernel, 0, 19).expect(rt, "ample memory");
    let with_page = tell(rt, alloc, kernel, 7);
    [made, with_page] == WANTED && same == (Some(2), Some(7))
}

#[test]
fn a_guest_is_seen_when_it_is_made_and_with_its_page(rt: HostRuntime) {
    let mut kernel = Kernel::new(rt.alloc(), 1, 1, 0, ROOT, 64).expect(&rt, "ample memory");
    let is_told = is_told(&rt, rt.alloc(), &mut kernel);
    let_go(kernel);
    assert!(rt; is_told);
}

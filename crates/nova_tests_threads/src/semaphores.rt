ghost use Rattle.std.specs.Prelude.{◌≡◌, ◌<◌, ◌≤◌, ◌-◌, ◌^◌, [], ◌∷◌, ◌++◌, length, option_map};
ghost use Rattle.nova_model.specs.Creation.{idle_semaphore};

use nova_sem::{Down, Overflow, Sems};
use std::process::Abort;

/// Adds the entry of the next number, with room for an execution context of that number to wait.
fn add(rt: &impl Abort, sems: &mut Sems, count: Option<u32>)
    requires few { length sems.old.all < 2 ^ 32 - 1 }
    ensures added { sems.new.all ≡ sems.old.all ++ option_map idle_semaphore count ∷ [] }
    ensures room { length sems.new.all ≤ sems.new.contexts }
{
    sems.reserve(1).expect(rt, "ample memory");
    sems.room_for_ec().expect(rt, "ample memory");
    sems.add(count);
}

/// What an up came to, as a number: the context that is woken, 100 for none, 200 for an overflow.
fn woken_by(up: Result<Option<u32>, Overflow>) -> u32 {
    match up {
        Ok(Some(ec)) => ec,
        Ok(None) => 100,
        Err(Overflow) => 200,
    }
}

/// Whether a down blocks.
fn blocks(down: Down) -> bool {
    matches!(down, Down::Blocked)
}

#[test]
fn the_first_that_waits_is_woken_first(rt: HostRuntime) {
    let mut sems = Sems::new(rt.alloc());
    add(&rt, &mut sems, None);
    add(&rt, &mut sems, None);
    add(&rt, &mut sems, Some(0));
    let downs = [blocks(sems.down(2, 1)), blocks(sems.down(2, 0))];
    let waiting = sems.waiting(2);
    let ups = [
        woken_by(sems.peek_up(2)),
        woken_by(sems.up(2)),
        woken_by(sems.up(2)),
    ];
    let empty = sems.count(2);
    let last = woken_by(sems.up(2));
    let after = [waiting, empty, last, sems.count(2), sems.waiting(2)];
    let wanted = ([true, true], [1, 1, 0], [2, 0, 100, 1, 0]);
    assert!(rt; (downs, ups, after) == wanted);
}

#[test]
fn the_greatest_counter_overflows(rt: HostRuntime) {
    let mut sems = Sems::new(rt.alloc());
    add(&rt, &mut sems, Some(u32::MAX));
    add(&rt, &mut sems, None);
    let overflows = [woken_by(sems.peek_up(0)), woken_by(sems.up(0))];
    let full = sems.count(0);
    let downs = [blocks(sems.peek_down(0)), blocks(sems.down(0, 1))];
    let up = woken_by(sems.up(0));
    let after = [full, up, sems.count(0)];
    let wanted = ([200, 200], [false, false], [u32::MAX, 100, u32::MAX]);
    assert!(rt; (overflows, downs, after) == wanted);
}

/// Whether semaphores 1, 2 and 5 are there.
fn there(sems: &Sems) -> [bool; 3] {
    [sems.contains(1), sems.contains(2), sems.contains(5)]
}

#[test]
fn queues_do_not_mix(rt: HostRuntime) {
    let mut sems = Sems::new(rt.alloc());
    add(&rt, &mut sems, Some(0));
    add(&rt, &mut sems, Some(1));
    add(&rt, &mut sems, None);
    add(&rt, &mut sems, None);
    add(&rt, &mut sems, None);
    let there = there(&sems);
    let first = woken_by(sems.up(2));
    let downs = [
        blocks(sems.down(5, 3)),
        blocks(sems.down(0, 3)),
        blocks(sems.down(1, 4)),
        blocks(sems.down(1, 4)),
        blocks(sems.down(0, 2)),
    ];
    let mut copy = sems.copy().expect(&rt, "ample memory");
    let fourth = woken_by(sems.up(1));
    let fifth = blocks(sems.down(0, 4));
    let ups = [
        first,
        fourth,
        woken_by(sems.up(0)),
        woken_by(sems.up(0)),
        woken_by(sems.up(0)),
        copy.waiting(0),
        woken_by(copy.up(1)),
        woken_by(copy.up(0)),
    ];
    let wanted = [true, true, false, true, true];
    assert!(rt; (there, downs, fifth) == ([true, false, false], wanted, true));
    assert!(rt; ups == [100, 4, 3, 2, 4, 2, 4, 3]);
}

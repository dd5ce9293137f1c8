ghost use Rattle.std.specs.Prelude.{◌≡◌, ◌<◌, ◌≤◌, ◌^◌, ◌-◌, true, length};
ghost use Rattle.nova_sched.specs.Queues.{added, marked};

use nova_sched::Queues;
use std::process::Abort;

/// Adds the scheduling context `sc`, which is runnable.
fn add(rt: &impl Abort, queues: &mut Queues, sc: u32, cpu: u32, priority: u8, quantum: u32)
    requires number { length queues.old.all.entries ≤ sc }
    requires cpu { cpu < queues.old.all.cpus }
    requires stamp { queues.old.all.next_stamp < 2 ^ 64 - 1 }
    ensures { queues.new.all ≡ marked (added queues.old.all sc cpu priority quantum) sc true }
{
    queues.reserve(sc, cpu).expect(rt, "ample memory");
    queues.add(sc, cpu, priority, quantum);
    queues.set_runnable(sc, true);
}

/// Whether scheduling contexts 3, 2 and 5 are there.
fn there(queues: &Queues) -> [bool; 3] {
    [queues.contains(3), queues.contains(2), queues.contains(5)]
}

#[test]
fn greatest_priority_runs(rt: HostRuntime) {
    let mut queues = Queues::new(rt.alloc(), 1).expect(&rt, "ample memory");
    let none = queues.choose(0);
    add(&rt, &mut queues, 1, 0, 5, 3);
    add(&rt, &mut queues, 3, 0, 9, 3);
    add(&rt, &mut queues, 4, 0, 7, 3);
    let greatest = queues.choose(0);
    let there = there(&queues);
    queues.set_runnable(3, false);
    let next = queues.choose(0);
    queues.set_runnable(4, false);
    queues.set_runnable(1, false);
    let chosen = [none, greatest, next, queues.choose(0)];
    let wanted = ([None, Some(3), Some(4), None], [true, false, false]);
    assert!(rt; (chosen, there) == wanted);
}

#[test]
fn a_new_one_waits_until_it_is_runnable(rt: HostRuntime) {
    let mut queues = Queues::new(rt.alloc(), 1).expect(&rt, "ample memory");
    queues.reserve(0, 0).expect(&rt, "ample memory");
    queues.add(0, 0, 255, 1);
    let before = queues.choose(0);
    queues.set_runnable(0, true);
    assert!(rt; [before, queues.choose(0)] == [None, Some(0)]);
}

#[test]
fn a_renewed_quantum_goes_behind_its_equals(rt: HostRuntime) {
    let mut queues = Queues::new(rt.alloc(), 1).expect(&rt, "ample memory");
    add(&rt, &mut queues, 0, 0, 4, 2);
    add(&rt, &mut queues, 1, 0, 4, 1);
    let first = queues.choose(0);
    queues.charge(0);
    let left = queues.left(0);
    let second = queues.choose(0);
    queues.charge(0);
    let renewed = queues.left(0);
    let third = queues.choose(0);
    queues.charge(1);
    let chosen = [first, second, third, queues.choose(0)];
    let turns = ([left, renewed], [queues.ticks(0), queues.ticks(1)]);
    let wanted = [Some(0), Some(0), Some(1), Some(0)];
    assert!(rt; (chosen, turns) == (wanted, ([1, 2], [2, 1])));
}

#[test]
fn processors_do_not_mix(rt: HostRuntime) {
    let mut queues = Queues::new(rt.alloc(), 2).expect(&rt, "ample memory");
    add(&rt, &mut queues, 0, 1, 9, 3);
    add(&rt, &mut queues, 1, 0, 2, 3);
    add(&rt, &mut queues, 2, 1, 9, 3);
    let chosen = [queues.choose(0), queues.choose(1), queues.choose(2)];
    let members = [queues.members(0), queues.members(1), queues.members(2)];
    let wanted = [[1].as_slice(), [0, 2].as_slice(), [].as_slice()];
    assert!(rt; chosen == [Some(1), Some(0), None]);
    assert!(rt; members == wanted);
}

#[test]
fn a_copy_is_equal(rt: HostRuntime) {
    let mut queues = Queues::new(rt.alloc(), 2).expect(&rt, "ample memory");
    add(&rt, &mut queues, 1, 0, 6, 2);
    add(&rt, &mut queues, 3, 1, 6, 1);
    queues.charge(1);
    let copy = queues.copy().expect(&rt, "ample memory");
    queues.charge(1);
    queues.set_runnable(3, false);
    let chosen = [copy.choose(0), copy.choose(1), queues.choose(1)];
    let turns = ([copy.ticks(1), queues.ticks(1)], copy.left(1));
    assert!(rt; (chosen, turns) == ([Some(1), Some(3), None], ([1, 2], 1)));
    assert!(rt; copy.members(1) == [3].as_slice());
}

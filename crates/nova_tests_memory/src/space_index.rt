use nova_range::{Index, Kind, Range};
use nova_space::Space;
use std::alloc::Global;
use std::process::Abort;

/// The base and the key of the first range from `place` on.
fn first_from(space: &Space, place: u32) -> Option<(u32, u32)> {
    let (range, key) = space.first_from(place)?;
    Some((range.base, key))
}

/// Four places from 16 on have key 7, and place 5 has key 8.
fn space(rt: &impl Abort, alloc: Global) -> Space {
    let mut space = Space::empty(alloc);
    space.reserve(2).expect(rt, "ample memory");
    let four = Range {
        kind: Kind::Mem,
        base: 16,
        order: 2,
    };
    space.insert(four, 7);
    let one = Range {
        kind: Kind::Mem,
        base: 5,
        order: 0,
    };
    space.insert(one, 8);
    space
}

/// What is found at 18, 19, 5 and 6.
fn found(space: &mut Space) -> [Option<u32>; 4] {
    [space.find(18), space.find(19), space.find(5), space.find(6)]
}

#[test]
fn what_was_taken_out_is_not_found_again(rt: HostRuntime) {
    let mut space = space(&rt, rt.alloc());
    let before = (found(&mut space), first_from(&space, 6));
    let removed = [space.remove(18), space.remove(16)];
    let after = (found(&mut space), first_from(&space, 6));
    let wanted = (
        ([Some(7), Some(7), Some(8), None], Some((16, 7))),
        [None, Some(7)],
        ([None, None, Some(8), None], None),
    );
    assert!(rt; (before, removed, after) == wanted);
}

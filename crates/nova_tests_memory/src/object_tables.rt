use nova_objects::{EcKind, Object, Objects};
use std::alloc::Global;
use std::process::Abort;

/// `object` as a test compares it: 0 for none, 1 for a protection domain, 2 and the base of its event selectors
/// for an execution context, 3 for any other.
fn told(object: Option<&Object>) -> (u8, u32) {
    match object {
        None => (0, 0),
        Some(Object::Pd) => (1, 0),
        Some(Object::Ec { event, .. }) => (2, *event),
        Some(_) => (3, 0),
    }
}

/// The first three of a list of objects.
fn first_three(objects: &[Object]) -> [(u8, u32); 3] {
    [
        told(objects.get(0)),
        told(objects.get(1)),
        told(objects.get(2)),
    ]
}

/// Objects 0 to 2.
fn by_number(objects: &Objects) -> [(u8, u32); 3] {
    [
        told(objects.get(0)),
        told(objects.get(1)),
        told(objects.get(2)),
    ]
}

/// A protection domain and an execution context, with the numbers that they were given.
fn made(rt: &impl Abort, alloc: Global) -> (Objects, [u32; 2]) {
    let mut objects = Objects::new(alloc);
    objects.reserve(2).expect(rt, "ample memory");
    let root = Object::Ec {
        pd: 0,
        cpu: 0,
        kind: EcKind::Global,
        event: 16,
    };
    let numbers = [objects.add(Object::Pd), objects.add(root)];
    (objects, numbers)
}

#[test]
fn objects_are_numbered_as_they_are_made(rt: HostRuntime) {
    let none = by_number(&Objects::new(rt.alloc()));
    let (objects, numbers) = made(&rt, rt.alloc());
    let copy = objects.copy().expect(&rt, "ample memory");
    let all = [
        none,
        by_number(&objects),
        first_three(objects.as_slice()),
        first_three(copy.as_slice()),
    ];
    let two = [(1, 0), (2, 16), (0, 0)];
    let wanted = ([0, 1], 2, [[(0, 0); 3], two, two, two]);
    assert!(rt; (numbers, objects.len(), all) == wanted);
}

#[test]
fn thousands_of_objects_are_made(rt: HostRuntime) {
    let mut objects = Objects::new(rt.alloc());
    objects.reserve(4096).expect(&rt, "ample memory");
    for number in 0..4096 {
        objects.reserve(1).expect(&rt, "room that is there");
        assert!(rt; objects.len() == number);
        assert!(rt; objects.add(Object::Pd) as usize == number);
    }
}

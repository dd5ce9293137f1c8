ghost use Rattle.std.specs.Prelude.{◌≡◌, ◌<◌, ℕ, length};
ghost use Rattle.std.specs.Bool.{OnTrue};
ghost use Rattle.law_sameness.specs.States.{IsInStep, stamp_at};
ghost use Rattle.nova_compare.specs.Peers.{are_peers, is_peer, is_schedule};

use nova_objects::Object;

/// Whether `object` is a scheduling context of the processor `cpu` and the priority `priority`.
fn is_peer(object: &Object, cpu: u32, priority: u8) -> bool
    ensures { result ≡ is_peer object.now cpu priority }
{
    match object {
        Object::Sc {
            cpu: its_cpu,
            priority: its_priority,
            ..
        } => *its_cpu == cpu && *its_priority == priority,
        _ => false,
    }
}

/// Whether `a` and `b` are scheduling contexts of one processor and one priority.
fn are_peers(a: &Object, b: &Object) -> bool
    ensures { result ≡ are_peers a.now b.now }
{
    match *a {
        Object::Sc { cpu, priority, .. } => is_peer(b, cpu, priority),
        _ => false,
    }
}

/// Whether `object` is a scheduling context.
fn is_schedule(object: &Object) -> bool
    ensures { result ≡ is_schedule object.now }
{
    matches!(object, Object::Sc { .. })
}

/// The stamp of the scheduling context of number `n`, 0 where there is none.
fn stamp_at(stamps: &[Option<u64>], n: usize) -> u64
    ensures { result ≡ stamp_at stamps.now n }
{
    match stamps.get(n).copied() {
        Some(Some(stamp)) => stamp,
        _ => 0,
    }
}

/// Whether of the objects of numbers `m` and `n`, where they are peers, the same one has the lesser stamp in `a` and in `b`.
#[tactic(auto, using(crate::proofs::Peers::no_peers))]
fn is_in_step(objects: &[Object], a: &[Option<u64>], b: &[Option<u64>], m: usize, n: usize) -> bool
    requires first { m < length objects.now }
    requires second { n < length objects.now }
    ensures { OnTrue result (IsInStep objects.now a.now b.now m n) }
{
    if !are_peers(&objects[m], &objects[n]) {
        return true;
    }
    let first = stamp_at(a, m) < stamp_at(a, n);
    let second = stamp_at(b, m) < stamp_at(b, n);
    first == second
}

/// Whether it is so of the object of number `m` and each other.
fn is_in_step_with_each(objects: &[Object], a: &[Option<u64>], b: &[Option<u64>], m: usize) -> bool
    requires { m < length objects.now }
    ensures { OnTrue result ((n : ℕ) → n < length objects.now → IsInStep objects.now a.now b.now m n) }
{
    for n in 0..objects.len() {
        if !is_in_step(objects, a, b, m, n) {
            return false;
        }
    }
    true
}

/// Whether it is so of the object of number `m`, where it is a scheduling context, and each other.
#[tactic(auto, using(crate::proofs::Peers::no_schedule, crate::proofs::Peers::with_any))]
fn is_in_step_with_any(objects: &[Object], a: &[Option<u64>], b: &[Option<u64>], m: usize) -> bool
    requires { m < length objects.now }
    ensures { OnTrue result ((n : ℕ) → IsInStep objects.now a.now b.now m n) }
{
    if !is_schedule(&objects[m]) {
        return true;
    }
    is_in_step_with_each(objects, a, b, m)
}

/// Whether it is so of each two of `objects`.
pub(crate) fn are_in_step(objects: &[Object], a: &[Option<u64>], b: &[Option<u64>]) -> bool
    ensures { OnTrue result ((m n : ℕ) → IsInStep objects.now a.now b.now m n) }
{
    for m in 0..objects.len() {
        if !is_in_step_with_any(objects, a, b, m) {
            return false;
        }
    }
    true
}

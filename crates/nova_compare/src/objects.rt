ghost use Rattle.std.specs.Prelude.{◌≡◌};
ghost use Rattle.std.specs.Bool.{OnTrue};

use nova_objects::{EcKind, Object};

/// Whether the kinds `a` and `b` of execution contexts are equal.
fn same_kind(a: EcKind, b: EcKind) -> bool
    ensures { OnTrue result (a ≡ b) }
{
    match a {
        EcKind::Local => matches!(b, EcKind::Local),
        EcKind::Global => matches!(b, EcKind::Global),
        EcKind::Vcpu => matches!(b, EcKind::Vcpu),
    }
}

/// Whether `object` is this execution context.
fn is_context(object: &Object, pd: u32, cpu: u32, kind: EcKind, event: u32) -> bool
    ensures { OnTrue result (object.now ≡ Object.Ec pd cpu kind event) }
{
    match object {
        Object::Ec {
            pd: its_pd,
            cpu: its_cpu,
            kind: its_kind,
            event: its_event,
        } => {
            *its_pd == pd && *its_cpu == cpu && same_kind(*its_kind, kind) && *its_event == event
        }
        _ => false,
    }
}

/// Whether `object` is this scheduling context.
fn is_schedule(object: &Object, ec: u32, cpu: u32, priority: u8, quantum: u32) -> bool
    ensures { OnTrue result (object.now ≡ Object.Sc ec cpu priority quantum) }
{
    match object {
        Object::Sc {
            ec: its_ec,
            cpu: its_cpu,
            priority: its_priority,
            quantum: its_quantum,
        } => {
            *its_ec == ec && *its_cpu == cpu && *its_priority == priority && *its_quantum == quantum
        }
        _ => false,
    }
}

/// Whether `object` is this portal.
fn is_portal(object: &Object, ec: u32, mtd: u32, ip: u32) -> bool
    ensures { OnTrue result (object.now ≡ Object.Pt ec mtd ip) }
{
    match object {
        Object::Pt {
            ec: its_ec,
            mtd: its_mtd,
            ip: its_ip,
        } => *its_ec == ec && *its_mtd == mtd && *its_ip == ip,
        _ => false,
    }
}

/// Whether `a` and `b` are equal.
fn same_object(a: &Object, b: &Object) -> bool
    ensures { OnTrue result (a.now ≡ b.now) }
{
    match *a {
        Object::Pd => matches!(b, Object::Pd),
        Object::Ec {
            pd,
            cpu,
            kind,
            event,
        } => is_context(b, pd, cpu, kind, event),
        Object::Sc {
            ec,
            cpu,
            priority,
            quantum,
        } => is_schedule(b, ec, cpu, priority, quantum),
        Object::Pt { ec, mtd, ip } => is_portal(b, ec, mtd, ip),
        Object::Sm => matches!(b, Object::Sm),
    }
}

/// Whether the lists of objects `a` and `b` are equal.
pub(crate) fn same_objects(a: &[Object], b: &[Object]) -> bool
    ensures { OnTrue result (a.now ≡ b.now) }
{
    if a.len() != b.len() {
        return false;
    }
    for i in 0..a.len() {
        if !same_object(&a[i], &b[i]) {
            return false;
        }
    }
    true
}

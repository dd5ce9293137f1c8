ghost use Rattle.std.specs.Prelude.{◌≡◌, ◌<◌, not, option_copied, slice_get, ℕ};
ghost use Rattle.nova_model.specs.Delegations.{is_memory};
ghost use Rattle.nova_objects.specs.ObjectTables.{is_domain};
ghost use Rattle.nova_flowing.specs.Tests.{is_held, is_in, is_member, is_of, is_owned};

use nova_kernel::{Derivation, Kernel, Kind, Object};

/// What `table` has of `n`.
pub(crate) fn is_in(table: &[bool], n: u32) -> bool
    ensures { result ≡ is_in table.now n }
{
    match table.get(n as usize) {
        Some(is) => *is,
        None => false,
    }
}

pub(crate) fn is_memory(kind: Kind) -> bool
    ensures { result ≡ is_memory kind }
{
    matches!(kind, Kind::Mem)
}

/// Whether `object` is an execution context of some domains.
pub(crate) fn is_of(set: &[bool], object: Object) -> bool
    ensures { result ≡ is_of (is_in set.now) (Some object) }
{
    match object {
        Object::Ec { pd, .. } => is_in(set, pd),
        _ => false,
    }
}

/// Whether `n` is the number of an execution context of the domains `set`.
pub(crate) fn is_member(kernel: &Kernel, set: &[bool], n: u32) -> bool
    ensures { result ≡ is_member kernel.now.state (is_in set.now) n }
{
    match kernel.object(n) {
        Some(object) => is_of(set, *object),
        None => false,
    }
}

/// Whether `object`, of number `n`, is the own of a set of domains. A semaphore is.
pub(crate) fn is_own(kernel: &Kernel, set: &[bool], n: u32, object: Object) -> bool
    ensures { result ≡ is_owned kernel.now.state (is_in set.now) n (Some object) }
{
    match object {
        Object::Pd => is_in(set, n),
        Object::Ec { pd, .. } => is_in(set, pd),
        Object::Sc { ec, .. } | Object::Pt { ec, .. } => is_member(kernel, set, ec),
        Object::Sm => true,
    }
}

/// Whether the object of number `n` is the own of `set`.
pub(crate) fn is_owned(kernel: &Kernel, set: &[bool], n: u32) -> bool
    ensures { result ≡ is_owned kernel.now.state (is_in set.now) n (slice_get kernel.now.state.objects n) }
{
    match kernel.object(n) {
        Some(object) => is_own(kernel, set, n, *object),
        None => true,
    }
}

/// Whether the object of number `n` is a protection domain.
pub(crate) fn is_domain(kernel: &Kernel, n: u32) -> bool
    ensures { result ≡ is_domain (slice_get kernel.now.state.objects n) }
{
    matches!(kernel.object(n), Some(Object::Pd))
}

/// Whether a domain of a set holds the derivation `d`, of an object.
pub(crate) fn is_held(set: &[bool], d: Derivation) -> bool
    ensures { result ≡ is_held (is_in set.now) d }
{
    is_in(set, d.pd) && !is_memory(d.kind)
}

ghost use Rattle.std.specs.Prelude.{◌≡◌, ◌<◌, ℕ, true, slice_get};
ghost use Rattle.std.specs.Bool.{OnTrue};
ghost use Rattle.nova_model.specs.Capabilities.{is_vcpu};
ghost use Rattle.law_turns.specs.Tables.{IsOf};
ghost use Rattle.law_sameness.specs.States.{IsCountedAt, is_guest_in, stirs_at};

use nova_kernel::{EcKind, Kernel, Object};

/// Whether the counts `a` and `b` are equal, or both are none.
pub(crate) fn same_count(a: Option<u64>, b: Option<u64>) -> bool
    ensures { OnTrue result (a ≡ b) }
{
    match a {
        None => b.is_none(),
        Some(count) => match b {
            None => false,
            Some(other) => count == other,
        },
    }
}

/// Whether the object of number `n` is a virtual CPU.
fn is_guest(kernel: &Kernel, n: u32) -> bool
    ensures test { result ≡ is_guest_in (slice_get kernel.now.state.objects n) }
    ensures there { result ≡ true → IsOf kernel.now.state.objects is_vcpu n }
{
    match kernel.object(n).copied() {
        Some(Object::Ec { kind, .. }) => matches!(kind, EcKind::Vcpu),
        _ => false,
    }
}

/// Whether `a` and `b` have the same stir count of the virtual CPU of number `n`, where it is one.
fn same_stirs_at(a: &Kernel, b: &Kernel, n: u32) -> bool
    ensures { OnTrue result (is_guest_in (slice_get a.now.state.objects n) ≡ true → stirs_at a.now.state n ≡ stirs_at b.now.state n) }
{
    if !is_guest(a, n) {
        return true;
    }
    if !is_guest(b, n) || a.cpus() == 0 || b.cpus() == 0 {
        return false;
    }
    a.stir(n, 0).0 == b.stir(n, 0).0
}

/// Whether the same is counted at number `n` of `a` and `b`.
fn same_counts_at(a: &Kernel, b: &Kernel, n: u32) -> bool
    ensures { OnTrue result (IsCountedAt a.now.state b.now.state n) }
{
    same_stirs_at(a, b, n) && same_count(a.ticks(n), b.ticks(n))
}

/// Whether the same is counted at each number below `count` of `a` and `b`.
pub(crate) fn same_counts(a: &Kernel, b: &Kernel, count: u32) -> bool
    ensures { OnTrue result ((n : ℕ) → n < count → IsCountedAt a.now.state b.now.state n) }
{
    for n in 0..count {
        if !same_counts_at(a, b, n) {
            return false;
        }
    }
    true
}

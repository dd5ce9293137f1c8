ghost use Rattle.std.specs.Prelude.{◌≡◌, None, Some};
ghost use Rattle.std.specs.Bool.{OnTrue};
ghost use Rattle.nova_model.specs.Forest.{IsForest};
ghost use Rattle.nova_kernel.specs.Views.{derivation_from};

use crate::contexts::same_space;
use nova_kernel::{Derivation, Kernel};
use nova_range::Flags;

/// Whether the parents `a` and `b` are the same, or both are none.
fn same_parent(a: Option<u32>, b: Option<u32>) -> bool
    ensures { OnTrue result (a ≡ b) }
{
    match a {
        None => b.is_none(),
        Some(parent) => match b {
            None => false,
            Some(other) => parent == other,
        },
    }
}

/// Whether the derivations `a` and `b` are equal.
fn same_derivation(a: &Derivation, b: &Derivation) -> bool
    ensures { OnTrue result (a.now ≡ b.now) }
{
    a.id == b.id
        && a.pd == b.pd
        && same_space(a.kind, b.kind)
        && a.base == b.base
        && a.order == b.order
        && a.rights.bits() == b.rights.bits()
        && a.target == b.target
        && same_parent(a.parent, b.parent)
}

/// Whether `kernel` has `derivation`, as that of least id at or after `id`.
fn has_derivation(kernel: &Kernel, id: u32, derivation: &Derivation) -> bool
    ensures same { OnTrue result (derivation_from kernel.now.state id ≡ Some derivation.now) }
    ensures forest { IsForest kernel.now.state.delegations }
{
    match kernel.derivation_from(id) {
        None => false,
        Some(other) => same_derivation(&other, derivation),
    }
}

/// Whether `kernel` has no derivation at or after `id`.
fn has_none_from(kernel: &Kernel, id: u32) -> bool
    ensures none { OnTrue result (derivation_from kernel.now.state id ≡ None) }
    ensures forest { IsForest kernel.now.state.delegations }
{
    match kernel.derivation_from(id) {
        None => true,
        Some(_) => false,
    }
}

/// Whether the delegations of `a` and `b` are equal.
pub(crate) fn same_delegations(a: &Kernel, b: &Kernel) -> bool
    ensures { OnTrue result (a.now.state.delegations.list ≡ b.now.state.delegations.list) }
{
    let mut id = 0;
    while let Some(derivation) = a.derivation_from(id) {
        if !has_derivation(b, id, &derivation) {
            return false;
        }
        id = derivation.id + 1;
    }
    has_none_from(b, id)
}

ghost use Rattle.std.specs.Prelude.{◌≡◌, ◌<◌, ◌≤◌, ◌^◌, IfOk, length};
ghost use Rattle.std.specs.List.{list_any};
ghost use Rattle.nova_ties.specs.Ties.{is_another};
ghost use Rattle.nova_judging.specs.Labelled.{are_two, has_another, labelled, labels_of};

use nova_kernel::{Kernel, Object};
use nova_naming::Policy;
use std::alloc::{AllocError, Global};

/// The label of `object`.
fn labelled(policy: &Policy, n: u32, object: Object) -> u32
    requires { n < 2 ^ 31 }
    ensures { result ≡ labelled policy.now (n, object) }
{
    match object {
        Object::Pd => policy.label_of(n),
        _ => 0,
    }
}

/// The labels that `policy` gives to the objects of `kernel`, of which there are at most 2^31, by number: 0 to what is no protection domain. The only
/// error is that memory ran out.
#[tactic(auto, unfolding(crate::specs::Labelled::labels_of))]
pub fn labels_of(alloc: Global, policy: &Policy, kernel: &Kernel) -> Result<Vec<u32>, AllocError>
    requires few { length kernel.now.state.objects ≤ 2 ^ 31 }
    ensures labels { IfOk result (λ labels. labels.items ≡ labels_of policy.now kernel.now.state) }
    ensures few { IfOk result (λ labels. length labels.items ≤ 2 ^ 31) }
{
    let mut labels = Vec::new(alloc);
    for (i, object) in kernel.objects().iter().enumerate() {
        labels.push(labelled(policy, i as u32, *object))?;
    }
    Ok(labels)
}

/// Whether `label` is of another side.
fn is_another(label: u32, other: u32) -> bool
    ensures { result ≡ is_another label other }
{
    other != 0 && other != label
}

/// Whether one of `labels` is of another side than `label`.
fn is_other_in(labels: &[u32], label: u32) -> bool
    ensures { result ≡ list_any (is_another label) labels.now }
{
    labels.iter().any(|&other| is_another(label, other))
}

/// Whether `label` is of a side, and one of `labels` is of another.
fn has_another(labels: &[u32], label: u32) -> bool
    ensures { result ≡ has_another labels.now label }
{
    label != 0 && is_other_in(labels, label)
}

/// Whether there are two sides.
pub(crate) fn are_two(labels: &[u32]) -> bool
    ensures { result ≡ are_two labels.now }
{
    labels.iter().any(|&label| has_another(labels, label))
}

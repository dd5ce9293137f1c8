// Lines that tell of each side whether the premises of noninterference on divided processors hold, and until when it is at work.
ghost use Rattle.std.specs.Prelude.{◌≡◌, ◌≤◌, ◌^◌, [], IfOk, length, string_bytes};
ghost use Rattle.nova_judging.specs.Answers.{ties_beside};
ghost use Rattle.nova_judging.specs.Labelled.{labels_of};
ghost use Rattle.nova_flowing.specs.Lines.{flow_lines};
ghost use Rattle.nova_watching.specs.Watched.{trusted_root};
ghost use Rattle.nova_policy.specs.Flows.{AreFinestFlows, AreFlows};

use nova_flowing::{Lapse, write_flows};
use nova_judging::{labels_of, settle_in};
use nova_kernel::Kernel;
use nova_naming::Policy;
use nova_sides::{derivations_of, ties};
use nova_ties::Tie;
use std::alloc::{AllocError, Global};

/// The most objects of a state that is judged.
const MOST: usize = 1 << 31;

/// The lines of the sides of some labels.
fn flows_by(
    alloc: Global,
    policy: &Policy,
    kernel: &Kernel,
    lapses: &[Lapse],
    labels: &[u32],
) -> Result<String, AllocError>
    ensures { IfOk result (λ text. string_bytes text ≡ flow_lines policy.now kernel.now.state lapses.now labels.now) }
{
    if labels.len() > kernel.objects().len() {
        return Err(AllocError);
    }
    let list = derivations_of(alloc, kernel)?;
    let mut text = String::new(alloc);
    write_flows(alloc, &mut text, policy, kernel, &list, lapses, labels)?;
    Ok(text)
}

/// The lines of the sides of a policy, as it names them.
fn flows_named(
    alloc: Global,
    policy: &Policy,
    kernel: &Kernel,
    lapses: &[Lapse],
) -> Result<String, AllocError>
    requires few { length kernel.now.state.objects ≤ 2 ^ 31 }
    ensures { IfOk result (λ text. string_bytes text ≡ flow_lines policy.now kernel.now.state lapses.now (labels_of policy.now kernel.now.state)) }
{
    let labels = labels_of(alloc, policy, kernel)?;
    flows_by(alloc, policy, kernel, lapses, &labels)
}

/// The lines of the finest sides to which those of `policy` can be joined, or none.
fn flows_settled(
    alloc: Global,
    policy: &Policy,
    kernel: &Kernel,
    lapses: &[Lapse],
    tied: &[Tie],
    labels: &mut [u32],
) -> Result<String, AllocError>
    requires ties { tied.now ≡ ties_beside [] policy.now kernel.now.state }
    requires labels { labels.old ≡ labels_of policy.now kernel.now.state }
    ensures { IfOk result (λ text. AreFinestFlows policy.now kernel.now.state lapses.now (string_bytes text)) }
{
    match settle_in(labels, tied) {
        Some(_) => Ok(String::new(alloc)),
        None => flows_by(alloc, policy, kernel, lapses, labels),
    }
}

/// The lines of the finest sides beside a trusted root, or none.
fn flows_finest(alloc: Global, kernel: &Kernel, lapses: &[Lapse]) -> Result<String, AllocError>
    requires few { length kernel.now.state.objects ≤ 2 ^ 31 }
    ensures { IfOk result (λ text. AreFinestFlows trusted_root kernel.now.state lapses.now (string_bytes text)) }
{
    let policy = Policy::trusting(alloc, 0)?;
    let shared = policy.semaphores(alloc)?;
    let flows = Vec::new(alloc);
    let mut labels = labels_of(alloc, &policy, kernel)?;
    let tied = ties(alloc, kernel, &labels, &shared, &flows)?;
    flows_settled(alloc, &policy, kernel, lapses, &tied, &mut labels)
}

/// The lines of the sides of a policy, or of the finest where there is no policy, with until when they are at work.
pub fn flows_of(
    alloc: Global,
    policy: &Option<Policy>,
    kernel: &Kernel,
    lapses: &[Lapse],
) -> Result<String, AllocError>
    ensures { IfOk result (λ text. AreFlows policy.now kernel.now.state lapses.now (string_bytes text)) }
{
    if kernel.objects().len() > MOST {
        return Err(AllocError);
    }
    match policy {
        Some(policy) => flows_named(alloc, policy, kernel, lapses),
        None => flows_finest(alloc, kernel, lapses),
    }
}

ghost use Rattle.std.specs.Prelude.{◌≡◌, ◌<◌, IfOk};
ghost use Rattle.law_sides.specs.Tied.{ties};
ghost use Rattle.nova_sides.specs.Among.{flows_in, is_among};

use crate::derivations::derivations_of;
use crate::holding::push_all_by;
use crate::waiting::push_all_at;
use nova_kernel::Kernel;
use nova_ties::Tie;
use std::alloc::{AllocError, Global};

/// What ties the protection domains of `kernel` to one another, beside the semaphores whose objects' numbers are in `shared`, which sides share on
/// purpose, and the memory that flows from one side of `labels` to another by `flows`, pairs of labels.
#[tactic(auto, unfolding(law_sides::specs::Tied::ties))]
pub fn ties(
    alloc: Global,
    kernel: &Kernel,
    labels: &[u32],
    shared: &[u32],
    flows: &[(u32, u32)],
) -> Result<Vec<Tie>, AllocError>
    ensures { IfOk result (λ list. list.items ≡ ties (is_among shared.now) (flows_in flows.now labels.now) kernel.now.state) }
{
    kernel.actor(0);
    let list = derivations_of(alloc, kernel)?;
    let mut out = Vec::new(alloc);
    push_all_by(&mut out, kernel, labels, shared, flows, &list)?;
    push_all_at(&mut out, kernel, shared)?;
    Ok(out)
}

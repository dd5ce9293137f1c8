ghost use Rattle.std.specs.Prelude.{◌≡◌, ◌<◌, ◌^◌, length, IfOk, IfSome, IfNone};
ghost use Rattle.law_turns.specs.Tables.{HasTables};
ghost use Rattle.nova_ties.specs.Ties.{label_in};
ghost use Rattle.law_sides.specs.Resting.{IsAtRest};
ghost use Rattle.nova_sides.specs.Among.{is_among, is_flow};
ghost use Rattle.nova_sides.specs.Verdicts.{IsJudged, IsRestless};

use crate::derivations::derivations_of;
use crate::resting::{first_astray, first_leading, first_stirring};
use crate::tied::ties;
use nova_kernel::{Derivation, Kernel};
use nova_ties::{Tie, first_broken};
use std::alloc::{AllocError, Global};

/// Why not all that is trusted is at rest.
#[derive(Clone, Copy)]
pub enum Restless {
    /// This number has a side, and is of no domain.
    Astray(u32),
    /// This capability of a side leads to what is trusted.
    Leads(Derivation),
    /// This execution context is of what is trusted, and is neither parked nor dead, nor does it wait for good.
    Stirs(u32),
}

/// What sides are in a state.
#[derive(Clone, Copy)]
pub enum Verdict {
    /// The sides are isolated, but for what they share and what flows between them on purpose, and all that is trusted is at rest: they are apart for good.
    Apart,
    /// The sides are isolated, and this is why not all that is trusted is at rest: they are apart for as long as what is trusted is careful.
    Served(Restless),
    /// The sides aren't isolated: the first tie that the labels don't respect.
    Breach(Tie),
}

/// Why not all that is trusted is at rest, if not.
fn first_restless(kernel: &Kernel, labels: &[u32], list: &[Derivation]) -> Option<Restless>
    requires few { length labels.now < 2 ^ 32 }
    requires tables { HasTables kernel.now.state }
    requires list { list.now ≡ kernel.now.state.delegations.list }
    ensures rest { IfNone result (IsAtRest kernel.now.state (label_in labels.now)) }
    ensures why { IfSome result (λ r. IsRestless kernel.now.state (label_in labels.now) r) }
{
    match first_astray(kernel, labels) {
        Some(n) => Some(Restless::Astray(n)),
        None => match first_leading(kernel, labels, list) {
            Some(d) => Some(Restless::Leads(d)),
            None => match first_stirring(kernel, labels, list) {
                Some(n) => Some(Restless::Stirs(n)),
                None => None,
            },
        },
    }
}

/// What the sides of `labels` are in the present state of `kernel`, where they share the semaphores of the numbers `shared` on purpose, and memory flows
/// by `flows`, from the first to the second label of each pair: isolated but for these or not, exactly, with the first tie that they don't respect;
/// and beside what is at rest or not, exactly.
pub fn judge(
    alloc: Global,
    kernel: &Kernel,
    labels: &[u32],
    shared: &[u32],
    flows: &[(u32, u32)],
) -> Result<Verdict, AllocError>
    requires few { length labels.now < 2 ^ 32 }
    ensures judged { IfOk result (λ v. IsJudged (is_among shared.now) (is_flow flows.now) kernel.now.state (label_in labels.now) v) }
{
    kernel.actor(0);
    let tied = ties(alloc, kernel, labels, shared, flows)?;
    match first_broken(labels, &tied) {
        Some(tie) => Ok(Verdict::Breach(tie)),
        None => {
            let list = derivations_of(alloc, kernel)?;
            match first_restless(kernel, labels, &list) {
                Some(why) => Ok(Verdict::Served(why)),
                None => Ok(Verdict::Apart),
            }
        }
    }
}

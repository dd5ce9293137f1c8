ghost use Rattle.std.specs.Prelude.{◌≡◌, ◌+◌, ◌<◌, length, map, IfOk};
ghost use Rattle.nova_model.specs.State.{KernelState};
ghost use Rattle.nova_search.specs.Edges.{AreAhead, AreEdges};
ghost use Rattle.nova_search.specs.Searches.{AreLinked, state_at, states_of};
ghost use Rattle.nova_asking.specs.Least.{AreLeast, is_within, nearer, passed_on, turns_if};
ghost use Rattle.nova_asking.specs.Searched.{BeginsIn};

use nova_compare::Vertex;
use nova_kernel::Kernel;
use nova_search::{Edge, Found, Goal, kernel_at};
use std::alloc::{AllocError, Global};

/// The turns that were taken in the state of a kernel, where it is looked for.
fn turns_if<G: Goal>(alloc: Global, kernel: &Kernel, goal: &G) -> Result<Option<u64>, AllocError>
    requires { G.apt goal.now }
    ensures { IfOk result (λ turns. turns ≡ turns_if (G.met goal.now) kernel.now.state) }
{
    if goal.is_met(alloc, kernel)? {
        Ok(Some(kernel.turns()))
    } else {
        Ok(None)
    }
}

/// The turns that were taken in the state at a place of what was found from `opening`, where it is looked for.
fn turns_at<G: Goal>(
    alloc: Global,
    opening: &Vertex,
    found: &[Found],
    place: usize,
    goal: &G,
) -> Result<Option<u64>, AllocError>
    requires apt { G.apt goal.now }
    requires place { place < length found.now }
    requires linked { AreLinked found.now }
    requires first { BeginsIn opening.now found.now }
    ensures { IfOk result (λ turns. (d : KernelState) → turns ≡ turns_if (G.met goal.now) (state_at found.now place d)) }
{
    let kernel = kernel_at(alloc, opening, found, place)?;
    turns_if(alloc, &kernel, goal)
}

/// For each state that was found from `opening` its turns, where it is looked for. The kernel of each is made again.
fn all_turns<G: Goal>(
    alloc: Global,
    opening: &Vertex,
    found: &[Found],
    goal: &G,
) -> Result<Vec<Option<u64>>, AllocError>
    requires apt { G.apt goal.now }
    requires linked { AreLinked found.now }
    requires first { BeginsIn opening.now found.now }
    ensures { IfOk result (λ least. least.items ≡ map (turns_if (G.met goal.now)) (states_of found.now)) }
{
    let mut least = Vec::new(alloc);
    for place in 0..found.len() {
        least.push(turns_at(alloc, opening, found, place, goal)?)?;
    }
    Ok(least)
}

/// The lesser of two numbers, where they are there.
fn nearer(a: Option<u64>, b: Option<u64>) -> Option<u64>
    ensures { result ≡ nearer a b }
{
    match (a, b) {
        (None, b) => b,
        (Some(n), None) => Some(n),
        (Some(n), Some(m)) => Some(n.min(m)),
    }
}

/// Passes the turns of the place to which an edge leads on to that from which it leads.
fn pass_on(least: &mut Vec<Option<u64>>, edge: Edge)
    requires from { edge.from < length least.old.items }
    requires to { edge.to < length least.old.items }
    ensures { least.new.items ≡ passed_on least.old.items edge }
{
    least[edge.from] = nearer(least[edge.from], least[edge.to]);
}

/// For each state that was found from `opening` the least turns of a state that is looked for and that edges lead to, itself included; none where
/// they lead to none.
pub(crate) fn least_turns<G: Goal>(
    alloc: Global,
    opening: &Vertex,
    found: &[Found],
    edges: &[Edge],
    goal: &G,
) -> Result<Vec<Option<u64>>, AllocError>
    requires apt { G.apt goal.now }
    requires linked { AreLinked found.now }
    requires first { BeginsIn opening.now found.now }
    requires edges { AreEdges (states_of found.now) edges.now }
    requires ahead { AreAhead edges.now }
    ensures { IfOk result (λ least. AreLeast (G.met goal.now) (states_of found.now) edges.now 0 least.items) }
{
    let mut least = all_turns(alloc, opening, found, goal)?;
    let mut left = edges.len();
    while left > 0 {
        left -= 1;
        pass_on(&mut least, edges[left]);
    }
    Ok(least)
}

/// Whether turns are there, and at most `turns` more than those that were taken.
pub(crate) fn is_within(least: Option<u64>, taken: u64, turns: u32) -> bool
    ensures { result ≡ is_within least (taken + turns) }
{
    match least {
        Some(n) => n.saturating_sub(taken) <= u64::from(turns),
        None => false,
    }
}

ghost use Rattle.std.specs.Prelude.{◌≡◌, ◌+◌, ◌^◌, ◌<◌, ◌≤◌, ℕ, false, length, IfOk, IfSome, OnOk};
ghost use Rattle.std.specs.Bool.{OnTrue};
ghost use Rattle.nova_model.specs.Runs.{run};
ghost use Rattle.nova_model.specs.State.{KernelState};
ghost use Rattle.nova_search.specs.Merged.{IsOneAt};
ghost use Rattle.nova_search.specs.Searches.{AreLinked, AreProcessors, IsFirst, state_at, states_of};

use crate::following::retake;
use crate::found::Found;
use crate::goal::Goal;
use crate::merging::Merging;
use crate::path::path_to;
use nova_compare::{Spares, Vertex};
use nova_kernel::Kernel;
use std::alloc::{AllocError, Global};

/// Takes the turns of an order.
fn take_turns(kernel: &mut Kernel, order: &[u32]) -> Result<(), AllocError>
    requires processors { AreProcessors kernel.old.state.cpus order.now }
    requires turns { 0 < length order.now → kernel.old.state.turns + length order.now ≤ 2 ^ 31 }
    requires room { length order.now ≤ kernel.old.room }
    ensures { OnOk result (kernel.new.state ≡ run kernel.old.state order.now) }
{
    for cpu in order {
        kernel.turn(*cpu)?;
    }
    Ok(())
}

/// The kernel in the state at a place of what was found from `opening`, made again: the turns that led there are taken once more.
pub fn kernel_at(
    alloc: Global,
    opening: &Vertex,
    found: &[Found],
    place: usize,
) -> Result<Kernel, AllocError>
    requires place { place < length found.now }
    requires linked { AreLinked found.now }
    requires first { (d : KernelState) → state_at found.now 0 d ≡ opening.now }
    ensures { IfOk result (λ kernel. (d : KernelState) → state_at found.now place d ≡ kernel.state) }
{
    let path = path_to(alloc, found, place)?;
    let mut kernel = opening.kernel().copy()?;
    kernel.reserve_log(path.len())?;
    take_turns(&mut kernel, &path)?;
    Ok(kernel)
}

/// The vertex at a place of what was found from `opening`, made again in kernels of `spares` where there are some.
pub(crate) fn vertex_at(
    alloc: Global,
    opening: &Vertex,
    spares: &mut Spares,
    found: &[Found],
    place: usize,
) -> Result<Option<Vertex>, AllocError>
    requires place { place < length found.now }
    requires linked { AreLinked found.now }
    requires first { (d : KernelState) → state_at found.now 0 d ≡ opening.now }
    ensures { IfOk result (λ o. IfSome o (λ vertex. (d : KernelState) → state_at found.now place d ≡ vertex)) }
{
    let path = path_to(alloc, found, place)?;
    retake(opening, spares, &path)
}

/// Whether the state at a place of what was found from `opening` is seen to be one with that of a vertex. It is made again.
pub(crate) fn is_one_again(
    alloc: Global,
    opening: &Vertex,
    merging: Merging,
    spares: &mut Spares,
    found: &[Found],
    place: usize,
    vertex: &Vertex,
) -> bool
    requires place { place < length found.now }
    requires linked { AreLinked found.now }
    requires first { (d : KernelState) → state_at found.now 0 d ≡ opening.now }
    ensures { OnTrue result (IsOneAt merging (states_of found.now) place vertex.now) }
{
    let Ok(again) = vertex_at(alloc, opening, spares, found, place) else {
        return false;
    };
    let Some(again) = again else {
        return false;
    };
    let is = merging.is_one(&again, vertex);
    spares.keep(again);
    is
}

/// Whether the state at a place of what was found from `opening` is looked for.
fn is_goal<G: Goal>(
    alloc: Global,
    opening: &Vertex,
    found: &[Found],
    place: usize,
    goal: &G,
) -> Result<bool, AllocError>
    requires apt { G.apt goal.now }
    requires place { place < length found.now }
    requires linked { AreLinked found.now }
    requires first { (d : KernelState) → state_at found.now 0 d ≡ opening.now }
    ensures { IfOk result (λ is. (d : KernelState) → is ≡ G.met goal.now (state_at found.now place d)) }
{
    let kernel = kernel_at(alloc, opening, found, place)?;
    goal.is_met(alloc, &kernel)
}

/// The first place of what was found from `opening` whose state is looked for. The kernel of each is made again.
pub fn first_goal<G: Goal>(
    alloc: Global,
    opening: &Vertex,
    found: &[Found],
    goal: &G,
) -> Result<Option<usize>, AllocError>
    requires apt { G.apt goal.now }
    requires linked { AreLinked found.now }
    requires first { (d : KernelState) → state_at found.now 0 d ≡ opening.now }
    ensures { IfOk result (IsFirst (G.met goal.now) (states_of found.now)) }
{
    for i in 0..found.len() {
        if is_goal(alloc, opening, found, i, goal)? {
            return Ok(Some(i));
        }
    }
    Ok(None)
}

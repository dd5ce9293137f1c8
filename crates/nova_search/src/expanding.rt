ghost use Rattle.std.specs.Prelude.{◌≡◌, ◌+◌, ◌^◌, ◌<◌, ℕ, [], ◌∷◌, ◌++◌, length, IfOk, OnOk};
ghost use Rattle.nova_model.specs.State.{KernelState};
ghost use Rattle.nova_search.specs.Edges.{AreTurnsDrawn, IsTurnDrawn};
ghost use Rattle.nova_search.specs.Merged.{IsOneAt, StaysOne};
ghost use Rattle.nova_search.specs.Searches.{AreLinked, AreOfTurnsBefore, AreOpen, AreVisited, IsFoundAfter, IsMore, IsVisited, state_at, states_of};
ghost use Rattle.nova_search.specs.declared.merging.Merging.TheVariants.{Same};

use crate::edges::Edge;
use crate::found::Found;
use crate::frontier::Frontier;
use crate::hash::hash_of;
use crate::merging::{Merging, is_apt, states_are_one};
use nova_compare::Vertex;
use std::alloc::AllocError;
use std::snapshot::Snapshot;

/// What is let go here is dropped apart from all else.
pub(crate) fn let_go<T: Drop>(_value: T) {}

/// What is kept of a vertex that was found after a turn of a processor in the state at a place.
pub(crate) fn found_after(vertex: &Vertex, from: usize, cpu: u32) -> Found
    ensures { IsFoundAfter result from cpu vertex.now }
{
    Found {
        vertex: Snapshot::of(vertex),
        from,
        cpu,
        has_ended: vertex.kernel().quiet(),
    }
}

/// Enters a state that was found after a turn of a processor in the state at a place, unless one that is one with it is there, and answers the place: one
/// behind all others where it was entered. States behind `from` are open.
pub(crate) fn enter(
    opening: &Vertex,
    merging: Merging,
    found: &mut Vec<Found>,
    frontier: &mut Frontier,
    vertex: Vertex,
    from: usize,
    cpu: u32,
) -> Result<usize, AllocError>
    requires place { from < length found.old.items }
    requires linked { AreLinked found.old.items }
    requires first { (d : KernelState) → state_at found.old.items 0 d ≡ opening.now }
    requires frontier { AreOpen (states_of found.old.items) (from + 1) frontier.old }
    ensures more { OnOk result (IsMore found.old.items from cpu vertex found.new.items) }
    ensures frontier { OnOk result (AreOpen (states_of found.new.items) (from + 1) frontier.new) }
    ensures there { IfOk result (λ place. IsOneAt merging (states_of found.new.items) place vertex) }
    ensures known { IfOk result (λ place. place < length found.old.items → found.new.items ≡ found.old.items) }
{
    states_are_one();
    let hash = hash_of(&vertex, merging);
    if let Some(place) = frontier.find(opening, merging, found, from + 1, &vertex, hash) {
        frontier.let_go(vertex);
        return Ok(place);
    }
    let place = found.len();
    let one = found_after(&vertex, from, cpu);
    frontier.push(vertex, hash)?;
    found.push(one)?;
    Ok(place)
}

/// Enters an edge, where edges are entered.
fn draw(merging: Merging, edges: &mut Vec<Edge>, edge: Edge) -> Result<(), AllocError>
    ensures { OnOk result (merging ≡ Same → edges.new.items ≡ edges.old.items ++ edge ∷ []) }
{
    if merging.draws() {
        edges.push(edge)?;
    }
    Ok(())
}

/// Tries a turn of a processor in the state of a vertex, at a place of what was found: enters the state after it, and the edge to that.
/// States behind that place are open.
fn visit(
    opening: &Vertex,
    merging: Merging,
    vertex: &Vertex,
    found: &mut Vec<Found>,
    frontier: &mut Frontier,
    edges: &mut Vec<Edge>,
    place: usize,
    cpu: u32,
) -> Result<(), AllocError>
    requires place { place < length found.old.items }
    requires here { (d : KernelState) → state_at found.old.items place d ≡ vertex.now }
    requires cpu { cpu < vertex.now.cpus }
    requires turns { vertex.now.turns < 2 ^ 31 }
    requires stay { StaysOne merging vertex.now cpu }
    requires linked { AreLinked found.old.items }
    requires own { AreOfTurnsBefore found.old.items place cpu }
    requires first { (d : KernelState) → state_at found.old.items 0 d ≡ opening.now }
    requires frontier { AreOpen (states_of found.old.items) (place + 1) frontier.old }
    ensures visited { OnOk result (IsVisited merging (states_of found.old.items) (states_of found.new.items) vertex.now cpu) }
    ensures frontier { OnOk result (AreOpen (states_of found.new.items) (place + 1) frontier.new) }
    ensures linked { OnOk result (AreLinked found.new.items) }
    ensures own { OnOk result (AreOfTurnsBefore found.new.items place (cpu + 1)) }
    ensures drawn { OnOk result (merging ≡ Same → IsTurnDrawn (states_of found.old.items) edges.old.items (states_of found.new.items) edges.new.items place cpu) }
{
    states_are_one();
    is_apt(vertex);
    let Some(next) = frontier.next(vertex, cpu)? else {
        return Ok(());
    };
    let to = enter(opening, merging, found, frontier, next, place, cpu)?;
    draw(merging, edges, Edge { from: place, to })?;
    Ok(())
}

/// Expands the state of a vertex, at a place of what was found: tries a turn of each processor in it. States behind that place are open.
pub(crate) fn expand(
    opening: &Vertex,
    merging: Merging,
    vertex: &Vertex,
    found: &mut Vec<Found>,
    frontier: &mut Frontier,
    edges: &mut Vec<Edge>,
    place: usize,
) -> Result<(), AllocError>
    requires place { place < length found.old.items }
    requires here { (d : KernelState) → state_at found.old.items place d ≡ vertex.now }
    requires turns { vertex.now.turns < 2 ^ 31 }
    requires stay { (cpu : ℕ) → cpu < vertex.now.cpus → StaysOne merging vertex.now cpu }
    requires linked { AreLinked found.old.items }
    requires own { AreOfTurnsBefore found.old.items place 0 }
    requires first { (d : KernelState) → state_at found.old.items 0 d ≡ opening.now }
    requires frontier { AreOpen (states_of found.old.items) (place + 1) frontier.old }
    ensures visited { OnOk result (AreVisited merging (states_of found.old.items) (states_of found.new.items) vertex.now vertex.now.cpus) }
    ensures frontier { OnOk result (AreOpen (states_of found.new.items) (place + 1) frontier.new) }
    ensures linked { OnOk result (AreLinked found.new.items) }
    ensures own { OnOk result (AreOfTurnsBefore found.new.items place vertex.now.cpus) }
    ensures drawn { OnOk result (merging ≡ Same → AreTurnsDrawn (states_of found.old.items) edges.old.items (states_of found.new.items) edges.new.items place vertex.now.cpus) }
{
    let cpus = vertex.cpus();
    for cpu in 0..cpus {
        visit(opening, merging, vertex, found, frontier, edges, place, cpu)?;
    }
    Ok(())
}

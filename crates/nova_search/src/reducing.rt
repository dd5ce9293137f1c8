ghost use Rattle.std.specs.Prelude.{◌≡◌, ◌+◌, ◌^◌, ◌<◌, ◌≤◌, ℕ, true, false, [], length, Some, None, IfOk, OnOk};
ghost use Rattle.nova_model.specs.State.{KernelState};
ghost use Rattle.nova_search.specs.Merged.{StaysOne};
ghost use Rattle.nova_search.specs.Notes.{AreFoundFrom, AreGoneThrough, IsGoneThrough, IsMarked, StayNoted};
ghost use Rattle.nova_search.specs.Reductions.{AreApart, IsReduction};
ghost use Rattle.nova_search.specs.Searches.{AreLinked, AreOfTurnsBefore, AreOpen, state_at, states_of};
ghost use Rattle.nova_search.specs.declared.reducing.Ending.{Ending};
ghost use Rattle.nova_search.specs.declared.reducing.Ending.TheVariants.{Over};

use crate::edges::Edge;
use crate::expanding::{enter, expand, let_go};
use crate::exploring::begin;
use crate::found::Found;
use crate::frontier::Frontier;
use crate::merging::{Merging, is_apt, states_are_one};
use crate::notes::Notes;
use nova_compare::Vertex;
use std::alloc::{AllocError, Global};

/// How a reduced search ended.
#[derive(Clone, Copy)]
pub enum Ending {
    /// Each state was expanded, and what was taken alone is apart from all that was noted of other processors.
    Over,

    /// Each state was expanded, but some turn that was taken alone isn't seen to be apart from one of another processor.
    Met,

    /// There are more states than may be expanded, or one that has taken as many turns as may be.
    Cut,

    /// A turn tells ticks, where states that are alike are one.
    Ticks,
}

/// The states that a reduced search found, and how it ended.
#[derive(Drop)]
pub struct Reduced {
    pub found: Vec<Found>,
    pub ending: Ending,
}

/// Expands the state of a vertex, at a place of what was found from `opening`, by the turn of the processor `cpu` alone, and says whether it did: the notes
/// allow it, and the turn leads to a state behind that place. States behind it are open.
fn expand_alone<N: Notes>(
    opening: &Vertex,
    merging: Merging,
    vertex: &Vertex,
    found: &mut Vec<Found>,
    frontier: &mut Frontier,
    notes: &mut N,
    place: usize,
    cpu: u32,
) -> Result<bool, AllocError>
    requires place { place < length found.old.items }
    requires here { (d : KernelState) → state_at found.old.items place d ≡ vertex.now }
    requires cpu { cpu < vertex.now.cpus }
    requires turns { vertex.now.turns < 2 ^ 31 }
    requires stay { StaysOne merging vertex.now cpu }
    requires linked { AreLinked found.old.items }
    requires own { AreOfTurnsBefore found.old.items place 0 }
    requires first { (d : KernelState) → state_at found.old.items 0 d ≡ opening.now }
    requires frontier { AreOpen (states_of found.old.items) (place + 1) frontier.old }
    ensures taken { IfOk result (λ did. did ≡ true
        → IsGoneThrough N.Touch N.touched (N.noted notes.new) (N.lone notes.new) merging found.old.items found.new.items place vertex.now) }
    ensures left { IfOk result (λ did. did ≡ false → (found.new.items ≡ found.old.items) × (notes.new ≡ notes.old)) }
    ensures frontier { OnOk result (AreOpen (states_of found.new.items) (place + 1) frontier.new) }
    ensures stay { IfOk result (λ did. did ≡ true → StayNoted N.Touch (N.noted notes.old) (N.lone notes.old) (N.noted notes.new) (N.lone notes.new)) }
{
    if !notes.may_be_alone(vertex, cpu)? {
        return Ok(false);
    }
    let Some(next) = frontier.next(vertex, cpu)? else {
        return Ok(false);
    };
    let to = enter(opening, merging, found, frontier, next, place, cpu)?;
    if to <= place {
        return Ok(false);
    }
    notes.note_lone(vertex, cpu)?;
    Ok(true)
}

/// Expands the state of a vertex by the turn of one processor alone, the first by which that may be, and says whether there is one.
fn expand_by_one<N: Notes>(
    opening: &Vertex,
    merging: Merging,
    vertex: &Vertex,
    found: &mut Vec<Found>,
    frontier: &mut Frontier,
    notes: &mut N,
    place: usize,
) -> Result<bool, AllocError>
    requires place { place < length found.old.items }
    requires here { (d : KernelState) → state_at found.old.items place d ≡ vertex.now }
    requires turns { vertex.now.turns < 2 ^ 31 }
    requires stay { (cpu : ℕ) → cpu < vertex.now.cpus → StaysOne merging vertex.now cpu }
    requires linked { AreLinked found.old.items }
    requires own { AreOfTurnsBefore found.old.items place 0 }
    requires first { (d : KernelState) → state_at found.old.items 0 d ≡ opening.now }
    requires frontier { AreOpen (states_of found.old.items) (place + 1) frontier.old }
    ensures taken { IfOk result (λ did. did ≡ true
        → IsGoneThrough N.Touch N.touched (N.noted notes.new) (N.lone notes.new) merging found.old.items found.new.items place vertex.now) }
    ensures left { IfOk result (λ did. did ≡ false → (found.new.items ≡ found.old.items) × (notes.new ≡ notes.old)) }
    ensures frontier { OnOk result (AreOpen (states_of found.new.items) (place + 1) frontier.new) }
    ensures stay { IfOk result (λ did. did ≡ true → StayNoted N.Touch (N.noted notes.old) (N.lone notes.old) (N.noted notes.new) (N.lone notes.new)) }
{
    let cpus = vertex.cpus();
    for cpu in 0..cpus {
        if expand_alone(opening, merging, vertex, found, frontier, notes, place, cpu)? {
            return Ok(true);
        }
    }
    Ok(false)
}

/// Notes what the turn of each processor in the state of a vertex touches.
fn note_all<N: Notes>(vertex: &Vertex, notes: &mut N) -> Result<(), AllocError>
    ensures noted { OnOk result ((cpu : ℕ) → cpu < vertex.now.cpus → IsMarked N.Touch (N.touched vertex.now cpu) (N.noted notes.new cpu)) }
    ensures stay { OnOk result (StayNoted N.Touch (N.noted notes.old) (N.lone notes.old) (N.noted notes.new) (N.lone notes.new)) }
{
    let cpus = vertex.cpus();
    for cpu in 0..cpus {
        notes.note(vertex, cpu)?;
    }
    Ok(())
}

/// Expands the state of a vertex, at a place of what was found from `opening`, by the turns of all processors. States behind that place are open.
fn expand_by_all<N: Notes>(
    opening: &Vertex,
    merging: Merging,
    vertex: &Vertex,
    found: &mut Vec<Found>,
    frontier: &mut Frontier,
    edges: &mut Vec<Edge>,
    notes: &mut N,
    place: usize,
) -> Result<(), AllocError>
    requires place { place < length found.old.items }
    requires here { (d : KernelState) → state_at found.old.items place d ≡ vertex.now }
    requires turns { vertex.now.turns < 2 ^ 31 }
    requires stay { (cpu : ℕ) → cpu < vertex.now.cpus → StaysOne merging vertex.now cpu }
    requires linked { AreLinked found.old.items }
    requires own { AreOfTurnsBefore found.old.items place 0 }
    requires first { (d : KernelState) → state_at found.old.items 0 d ≡ opening.now }
    requires frontier { AreOpen (states_of found.old.items) (place + 1) frontier.old }
    ensures taken { OnOk result (IsGoneThrough N.Touch N.touched (N.noted notes.new) (N.lone notes.new) merging found.old.items found.new.items place vertex.now) }
    ensures frontier { OnOk result (AreOpen (states_of found.new.items) (place + 1) frontier.new) }
    ensures stay { OnOk result (StayNoted N.Touch (N.noted notes.old) (N.lone notes.old) (N.noted notes.new) (N.lone notes.new)) }
{
    states_are_one();
    is_apt(vertex);
    note_all(vertex, notes)?;
    expand(opening, merging, vertex, found, frontier, edges, place)?;
    Ok(())
}

/// Expands the state of a vertex, at a place of what was found from `opening`: by the turn of one processor alone where that may be, else by those of all.
/// States behind that place are open.
fn expand_state<N: Notes>(
    opening: &Vertex,
    merging: Merging,
    vertex: &Vertex,
    found: &mut Vec<Found>,
    frontier: &mut Frontier,
    edges: &mut Vec<Edge>,
    notes: &mut N,
    place: usize,
) -> Result<(), AllocError>
    requires place { place < length found.old.items }
    requires here { (d : KernelState) → state_at found.old.items place d ≡ vertex.now }
    requires turns { vertex.now.turns < 2 ^ 31 }
    requires stay { (cpu : ℕ) → cpu < vertex.now.cpus → StaysOne merging vertex.now cpu }
    requires going { AreGoneThrough N.Touch N.touched (N.noted notes.old) (N.lone notes.old) merging opening.now found.old.items place }
    requires frontier { AreOpen (states_of found.old.items) (place + 1) frontier.old }
    ensures going { OnOk result (AreGoneThrough N.Touch N.touched (N.noted notes.new) (N.lone notes.new) merging opening.now found.new.items (place + 1)) }
    ensures frontier { OnOk result (AreOpen (states_of found.new.items) (place + 1) frontier.new) }
{
    if expand_by_one(opening, merging, vertex, found, frontier, notes, place)? {
        return Ok(());
    }
    expand_by_all(
        opening, merging, vertex, found, frontier, edges, notes, place,
    )?;
    Ok(())
}

/// Expands the state of a vertex, at a place of what was found from `opening`, unless the search ends with it, and says how it then ends. States behind that
/// place are open.
fn expand_or_end<N: Notes>(
    opening: &Vertex,
    merging: Merging,
    vertex: &Vertex,
    limit: u64,
    found: &mut Vec<Found>,
    frontier: &mut Frontier,
    edges: &mut Vec<Edge>,
    notes: &mut N,
    place: usize,
) -> Result<Option<Ending>, AllocError>
    requires limit { limit ≤ 2 ^ 31 }
    requires place { place < length found.old.items }
    requires here { (d : KernelState) → state_at found.old.items place d ≡ vertex.now }
    requires going { AreGoneThrough N.Touch N.touched (N.noted notes.old) (N.lone notes.old) merging opening.now found.old.items place }
    requires frontier { AreOpen (states_of found.old.items) (place + 1) frontier.old }
    ensures over { IfOk result (λ ending. ending ≡ Some Over → ⊥) }
    ensures found { OnOk result (AreFoundFrom opening.now found.new.items) }
    ensures going { IfOk result (λ ending. ending ≡ None
        → AreGoneThrough N.Touch N.touched (N.noted notes.new) (N.lone notes.new) merging opening.now found.new.items (place + 1)) }
    ensures frontier { OnOk result (AreOpen (states_of found.new.items) (place + 1) frontier.new) }
{
    if vertex.turns() >= limit {
        return Ok(Some(Ending::Cut));
    }
    if merging.may_part(vertex) {
        return Ok(Some(Ending::Ticks));
    }
    expand_state(
        opening, merging, vertex, found, frontier, edges, notes, place,
    )?;
    Ok(None)
}

/// How a search ends that expanded all that it found: it is over where what was taken alone is apart from the rest.
fn ending_of<N: Notes>(notes: &N) -> Result<Ending, AllocError>
    ensures { IfOk result (λ ending. ending ≡ Over → AreApart N.Touch N.apart (N.noted notes.now) (N.lone notes.now)) }
{
    if notes.are_apart()? {
        Ok(Ending::Over)
    } else {
        Ok(Ending::Met)
    }
}

/// Goes through the states that `opening` comes to, from nothing that was found.
fn go_through<N: Notes>(
    opening: &Vertex,
    merging: Merging,
    limit: u64,
    most: usize,
    found: &mut Vec<Found>,
    frontier: &mut Frontier,
    edges: &mut Vec<Edge>,
    notes: &mut N,
) -> Result<Ending, AllocError>
    requires limit { limit ≤ 2 ^ 31 }
    requires found { found.old.items ≡ [] }
    requires frontier { frontier.old ≡ [] }
    ensures found { OnOk result (AreFoundFrom opening.now found.new.items) }
    ensures over { IfOk result (λ ending. ending ≡ Over
        → IsReduction N.Touch N.touched N.apart (N.noted notes.new) (N.lone notes.new) merging opening.now (states_of found.new.items)) }
{
    begin(opening, merging, found, frontier)?;
    for place in 0..most {
        let Some(vertex) = frontier.take(merging) else {
            let ending = ending_of(notes)?;
            return Ok(ending);
        };
        let ended = expand_or_end(
            opening, merging, &vertex, limit, found, frontier, edges, notes, place,
        );
        frontier.let_go(vertex);
        if let Some(ending) = ended? {
            return Ok(ending);
        }
    }
    Ok(Ending::Cut)
}

/// One round of a reduced search from `opening`, with what is known to be shared.
fn explore_round<N: Notes>(
    alloc: Global,
    opening: &Vertex,
    merging: Merging,
    limit: u64,
    most: usize,
    notes: &mut N,
) -> Result<Reduced, AllocError>
    requires { limit ≤ 2 ^ 31 }
    ensures found { IfOk result (λ r. AreFoundFrom opening.now r.found.items) }
    ensures over { IfOk result (λ r. r.ending ≡ Over
        → IsReduction N.Touch N.touched N.apart (N.noted notes.new) (N.lone notes.new) merging opening.now (states_of r.found.items)) }
{
    let mut found = Vec::new(alloc);
    let mut edges = Vec::new(alloc);
    let mut frontier = Frontier::new(alloc);
    let ending = go_through(
        opening,
        merging,
        limit,
        most,
        &mut found,
        &mut frontier,
        &mut edges,
        notes,
    );
    let_go(frontier);
    let ending = ending?;
    Ok(Reduced { found, ending })
}

/// The states that a reduced search finds from `opening`: it expands a state by the turn of one processor alone where `notes` allow it and that turn leads to a
/// state behind it. Where turns that were taken alone meet turns of other processors, what they meet in is entered as shared, and the search begins again, at most
/// `rounds` times. It expands at most `most` states, and none that has taken `limit` turns, counted from its boot. Two states that are seen to be the same, or
/// alike, as `merging` says, are one. The limit is at most 2^31.
pub fn explore_reduced<N: Notes>(
    alloc: Global,
    opening: &Vertex,
    merging: Merging,
    limit: u64,
    most: usize,
    rounds: u32,
    notes: &mut N,
) -> Result<Reduced, AllocError>
    requires { limit ≤ 2 ^ 31 }
    // Each state that was found is one that an order leads to. From the first, each other one was found after a turn in one before it.
    ensures found { IfOk result (λ r. AreFoundFrom opening.now r.found.items) }
    // Where it is over, each state was expanded, and what was taken alone is apart from the rest.
    ensures over { IfOk result (λ r. r.ending ≡ Over
        → IsReduction N.Touch N.touched N.apart (N.noted notes.new) (N.lone notes.new) merging opening.now (states_of r.found.items)) }
{
    for _ in 0..rounds {
        let reduced = explore_round(alloc, opening, merging, limit, most, notes)?;
        if !matches!(reduced.ending, Ending::Met) {
            return Ok(reduced);
        }
        notes.share()?;
    }
    explore_round(alloc, opening, merging, limit, most, notes)
}

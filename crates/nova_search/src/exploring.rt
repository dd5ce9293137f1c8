ghost use Rattle.std.specs.Prelude.{◌≡◌, ◌+◌, ◌^◌, ◌<◌, ◌≤◌, ℕ, true, false, [], ◌∷◌, length, None, All, IfOk, List, OnOk};
ghost use Rattle.std.specs.Bool.{OnTrue};
ghost use Rattle.nova_model.specs.Choice.{is_quiet};
ghost use Rattle.nova_model.specs.State.{KernelState};
ghost use Rattle.nova_search.specs.Reductions.{IsStill};
ghost use Rattle.nova_search.specs.Edges.{AreAhead, AreEdges, AreTried};
ghost use Rattle.nova_search.specs.Going.{IsEnded, IsGoing, IsSeen, course_of};
ghost use Rattle.nova_search.specs.Merged.{IsApt, IsOne};
ghost use Rattle.nova_search.specs.Searches.{AreAll, AreAllWithin, AreLinked, AreNearest, AreOfOwnTurns, AreOpen, GoesBeyond, IsFirst, IsReached, state_at, states_of};
ghost use Rattle.nova_search.specs.declared.merging.Merging.TheVariants.{Same};

use crate::edges::Edge;
use crate::expanding::{expand, found_after, let_go};
use crate::found::Found;
use crate::frontier::Frontier;
use crate::goal::Goal;
use crate::hash::hash_of;
use crate::merging::{Merging, is_apt, states_are_one};
use nova_compare::Vertex;
use std::alloc::{AllocError, Global};

/// The states that a search found, the turns between them, and the first place of one that is looked for. The search is over where each of them was expanded but
/// those that had taken as many turns as the limit allows, and whole where in each of these no processor has a turn to take. Where states that are alike
/// are one, there are no edges, and the search ends before a state some of whose turns tell ticks: nothing is said then of what orders lead to.
#[derive(Drop)]
pub struct Explored {
    pub found: Vec<Found>,
    pub edges: Vec<Edge>,
    pub goal: Option<usize>,
    pub is_over: bool,
    pub is_whole: bool,
    pub tells_ticks: bool,
}

/// What a search came to: the first place of a state that is looked for, whether it is over, whether it is whole, and whether it ended where ticks are told.
#[derive(Clone, Copy)]
pub(crate) struct Course {
    pub goal: Option<usize>,
    pub is_over: bool,
    pub is_whole: bool,
    pub tells_ticks: bool,
}

/// What came of going through a state.
#[derive(Clone, Copy)]
pub(crate) enum Passage {
    /// It is looked for.
    Met,

    /// Some turn in it tells ticks, where states that are alike are one.
    Ticks,

    /// It was gone through, and the search is whole or isn't.
    Passed(bool),
}

/// Whether a search that was whole or wasn't is whole where it doesn't expand a state: if no processor has a turn to take in it.
fn stays_whole(merging: Merging, is_whole: bool, vertex: &Vertex) -> bool
    ensures quiet { is_whole ≡ true → result ≡ is_quiet vertex.now }
    ensures still { OnTrue result ((is_whole ≡ true) × ((t : KernelState) → IsOne merging vertex.now t → IsStill vertex.now.cpus t)) }
{
    states_are_one();
    is_whole && vertex.kernel().quiet()
}

/// Enters the state in which a search begins.
pub(crate) fn begin(
    opening: &Vertex,
    merging: Merging,
    found: &mut Vec<Found>,
    frontier: &mut Frontier,
) -> Result<(), AllocError>
    requires found { found.old.items ≡ [] }
    requires frontier { frontier.old ≡ [] }
    ensures found { OnOk result (states_of found.new.items ≡ opening.now ∷ []) }
    ensures frontier { OnOk result (AreOpen (states_of found.new.items) 0 frontier.new) }
{
    found.push(found_after(opening, 0, 0))?;
    let hash = hash_of(opening, merging);
    frontier.push(opening.copy()?, hash)
}

/// Goes through the state of a vertex, at a place of what was found from `opening`, behind which states are open: tests it, and expands it if it is not
/// looked for, has taken fewer turns than the limit, and has no turn after which states that were one may part.
fn see<G: Goal>(
    alloc: Global,
    opening: &Vertex,
    merging: Merging,
    vertex: &Vertex,
    limit: u64,
    is_whole: bool,
    goal: &G,
    found: &mut Vec<Found>,
    frontier: &mut Frontier,
    edges: &mut Vec<Edge>,
    place: usize,
) -> Result<Passage, AllocError>
    requires limit { limit ≤ 2 ^ 31 }
    requires apt { G.apt goal.now }
    requires place { place < length found.old.items }
    requires here { (d : KernelState) → state_at found.old.items place d ≡ vertex.now }
    requires going { IsGoing merging (G.met goal.now) opening.now limit found.old.items edges.old.items place is_whole }
    requires frontier { AreOpen (states_of found.old.items) (place + 1) frontier.old }
    ensures seen { IfOk result (IsSeen merging (G.met goal.now) opening.now limit found.new.items edges.new.items place is_whole) }
    ensures frontier { OnOk result (AreOpen (states_of found.new.items) (place + 1) frontier.new) }
{
    if goal.is_met(alloc, vertex.kernel())? {
        return Ok(Passage::Met);
    }
    if vertex.turns() >= limit {
        return Ok(Passage::Passed(stays_whole(merging, is_whole, vertex)));
    }
    if merging.may_part(vertex) {
        return Ok(Passage::Ticks);
    }
    expand(opening, merging, vertex, found, frontier, edges, place)?;
    Ok(Passage::Passed(is_whole))
}

/// The first state that is looked for, where it is none of those before `most`. Those from there on are open.
fn first_open<G: Goal>(
    alloc: Global,
    most: usize,
    goal: &G,
    found: &[Found],
    frontier: &Frontier,
) -> Result<Option<usize>, AllocError>
    requires apt { G.apt goal.now }
    requires frontier { AreOpen (states_of found.now) most frontier.now }
    ensures { IfOk result (λ o. ((i : ℕ) (d : KernelState) → i < most → G.met goal.now (state_at found.now i d) ≡ false) → IsFirst (G.met goal.now) (states_of found.now) o) }
{
    for i in 0..frontier.len() {
        if goal.is_met(alloc, frontier.vertex(i).kernel())? {
            return Ok(Some(most + i));
        }
    }
    Ok(None)
}

/// What a search comes to behind the places that it goes through. The states from `most` on are open.
fn ended<G: Goal>(
    alloc: Global,
    most: usize,
    is_whole: bool,
    goal: &G,
    found: &[Found],
    frontier: &Frontier,
) -> Result<Course, AllocError>
    requires apt { G.apt goal.now }
    requires frontier { AreOpen (states_of found.now) most frontier.now }
    ensures { IfOk result (λ c. (m : Merging) (k : KernelState) (limit : ℕ) (edges : List Edge) → IsApt k → IsGoing m (G.met goal.now) k limit found.now edges most is_whole
        → IsEnded m (G.met goal.now) k limit most found.now edges c) }
{
    states_are_one();
    let first = first_open(alloc, most, goal, found, frontier)?;
    Ok(Course {
        goal: first,
        is_over: found.len() <= most,
        is_whole,
        tells_ticks: false,
    })
}

/// What a search comes to that ends at a place with what came of the state there: it is over where the last one was passed.
fn course_of(passage: Passage, is_whole: bool, place: usize) -> Course
    ensures { result ≡ course_of passage is_whole place }
{
    let (goal, is_over, is_whole, tells_ticks) = match passage {
        Passage::Met => (Some(place), false, is_whole, false),
        Passage::Ticks => (None, false, is_whole, true),
        Passage::Passed(stays) => (None, true, stays, false),
    };
    Course {
        goal,
        is_over,
        is_whole,
        tells_ticks,
    }
}

/// Goes through the states that `opening` comes to, from nothing that was found.
fn go_through<G: Goal>(
    alloc: Global,
    opening: &Vertex,
    merging: Merging,
    limit: u64,
    most: usize,
    goal: &G,
    found: &mut Vec<Found>,
    frontier: &mut Frontier,
    edges: &mut Vec<Edge>,
) -> Result<Course, AllocError>
    requires limit { limit ≤ 2 ^ 31 }
    requires apt { G.apt goal.now }
    requires found { found.old.items ≡ [] }
    requires frontier { frontier.old ≡ [] }
    requires edges { edges.old.items ≡ [] }
    ensures { IfOk result (IsEnded merging (G.met goal.now) opening.now limit most found.new.items edges.new.items) }
{
    states_are_one();
    is_apt(opening);
    begin(opening, merging, found, frontier)?;
    let mut is_whole = true;
    for place in 0..most {
        let Some(vertex) = frontier.take(merging) else {
            return Ok(course_of(Passage::Passed(is_whole), is_whole, place));
        };
        let seen = see(
            alloc, opening, merging, &vertex, limit, is_whole, goal, found, frontier, edges, place,
        );
        frontier.let_go(vertex);
        match seen? {
            Passage::Passed(stays) => is_whole = stays,
            Passage::Ticks => return Ok(course_of(Passage::Ticks, is_whole, place)),
            Passage::Met => return Ok(course_of(Passage::Met, is_whole, place)),
        }
    }
    ended(alloc, most, is_whole, goal, found, frontier)
}

/// The states that `opening` comes to, in whatever order its processors take turns: those after at most `limit` turns, counted from
/// its boot, of which at most `most` are expanded, until the first that is looked for. Two that are seen to be the same, or alike, as `merging` says, are
/// one. The limit is at most 2^31.
pub fn explore<G: Goal>(
    alloc: Global,
    opening: &Vertex,
    merging: Merging,
    limit: u64,
    most: usize,
    goal: &G,
) -> Result<Explored, AllocError>
    requires limit { limit ≤ 2 ^ 31 }
    requires apt { G.apt goal.now }
    // Each state that was found is one that an order leads to.
    ensures reached { IfOk result (λ s. All (IsReached opening.now) (states_of s.found.items)) }
    // Each order of fewer turns than a state has taken leads to one that is one with a state that was found before it.
    ensures nearest { IfOk result (λ s. AreNearest merging opening.now (states_of s.found.items)) }
    // The first of them that is looked for is the goal.
    ensures goal { IfOk result (λ s. s.tells_ticks ≡ false → IsFirst (G.met goal.now) (states_of s.found.items) s.goal) }
    // Each order within the limit leads to a state that is one with one that was found.
    ensures within { IfOk result (λ s. s.is_over ≡ true → AreAllWithin merging opening.now limit (states_of s.found.items)) }
    // Where none was cut, each order does.
    ensures all { IfOk result (λ s. s.is_over ≡ true → s.is_whole ≡ true → AreAll merging opening.now (states_of s.found.items)) }
    // Where one was cut, runs go on beyond the limit.
    ensures beyond { IfOk result (λ s. s.is_whole ≡ false → GoesBeyond opening.now limit) }
    // Without a goal there are more of them than may be expanded, or it is over.
    ensures more { IfOk result (λ s. s.tells_ticks ≡ false → s.goal ≡ None → s.is_over ≡ false → most < length s.found.items) }
    // Where states that are the same are one, it goes on where ticks are told.
    ensures same { IfOk result (λ s. merging ≡ Same → s.tells_ticks ≡ false) }
    // From the first, each other one was found after a turn in one before it, and no turn found two.
    ensures first { IfOk result (λ s. (d : KernelState) → state_at s.found.items 0 d ≡ opening.now) }
    ensures linked { IfOk result (λ s. AreLinked s.found.items) }
    ensures own { IfOk result (λ s. AreOfOwnTurns s.found.items) }
    // No state but the first has taken more turns than the limit allows.
    ensures few { IfOk result (λ s. (place : ℕ) (d : KernelState) → 0 < place → place < length s.found.items → (state_at s.found.items place d).turns ≤ limit) }
    // Where states that are the same are one, the edges are turns between them, to later ones; where it is over, each turn of a state that the limit allows to expand.
    ensures edges { IfOk result (λ s. merging ≡ Same → AreEdges (states_of s.found.items) s.edges.items) }
    ensures ahead { IfOk result (λ s. merging ≡ Same → AreAhead s.edges.items) }
    ensures tried { IfOk result (λ s. merging ≡ Same → s.is_over ≡ true → (place : ℕ) (d : KernelState) → place < length s.found.items
        → (state_at s.found.items place d).turns < limit → AreTried opening.now.cpus (states_of s.found.items) s.edges.items place) }
{
    let mut found = Vec::new(alloc);
    let mut edges = Vec::new(alloc);
    let mut frontier = Frontier::new(alloc);
    let course = go_through(
        alloc,
        opening,
        merging,
        limit,
        most,
        goal,
        &mut found,
        &mut frontier,
        &mut edges,
    );
    let_go(frontier);
    let course = course?;
    Ok(Explored {
        found,
        edges,
        goal: course.goal,
        is_over: course.is_over,
        is_whole: course.is_whole,
        tells_ticks: course.tells_ticks,
    })
}

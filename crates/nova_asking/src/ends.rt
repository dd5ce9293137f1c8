ghost use Rattle.std.specs.Prelude.{◌≡◌, ◌+◌, ◌^◌, ◌<◌, ◌≤◌, ℕ, true, false, length, slice_index_or, slice_set, take, IfOk, OnOk, Contains};
ghost use Rattle.std.specs.Bool.{Decides};
ghost use Rattle.std.specs.List.{AllByRecursion};
ghost use Rattle.nova_model.specs.Choice.{is_quiet};
ghost use Rattle.nova_model.specs.State.{KernelState};
ghost use Rattle.nova_search.specs.Searches.{AreLinked, state_at, states_of};
ghost use Rattle.nova_search.specs.declared.merging.Merging.TheVariants.{Alike};
ghost use Rattle.nova_asking.specs.Answers.{AreCounted, AreCounts, AreDistinct, AreEnds, IsEnd, outcomes};
ghost use Rattle.nova_asking.specs.Outcomes.{outcome};
ghost use Rattle.nova_asking.specs.Searched.{AreFrom, BeginsIn, HaveOutcomes, HaveSoFar, IsPlaceOf, IsSearch, KeepEnds, LeadThere, one_more};
ghost use Rattle.nova_asking.specs.declared.ends.End.{End};

use crate::extent::Extent;
use crate::laws::alike_states_answer_alike;
use crate::outcome::outcome_of;
use crate::path::order_to;
use crate::search::{let_go, search};
use nova_compare::Vertex;
use nova_order::Order;
use nova_search::{Explored, Found, NoGoal, kernel_at};
use std::alloc::{AllocError, Global};

/// An outcome of a run, an order that ends in it, and in how many of the states that were found a run ends so.
#[derive(Drop)]
pub struct End {
    pub outcome: Vec<u8>,
    pub order: Order,
    pub states: u64,
}

/// The outcomes that a search found, each once.
#[derive(Drop)]
pub struct Ends {
    pub ends: Vec<End>,
    pub extent: Extent,
    pub states: usize,
}

/// Whether two texts are equal.
#[tactic(auto, using(crate::proofs::Equal::same_when))]
fn same_bytes(a: &[u8], b: &[u8]) -> bool
    ensures { Decides result (a.now ≡ b.now) }
{
    a == b
}

/// Whether an end has this outcome.
fn has_outcome(end: &End, outcome: &[u8]) -> bool
    ensures { Decides result (end.now.outcome.items ≡ outcome.now) }
{
    same_bytes(&end.outcome, outcome)
}

/// The place of an outcome among ends.
fn place_of(ends: &[End], outcome: &[u8]) -> Option<usize>
    ensures { IsPlaceOf ends.now outcome.now result }
{
    for i in 0..ends.len() {
        if has_outcome(&ends[i], outcome) {
            return Some(i);
        }
    }
    None
}

/// One state more of an end.
fn count(ends: &mut Vec<End>, at: usize)
    requires { at < length ends.old.items }
    ensures outcomes { outcomes ends.new.items ≡ outcomes ends.old.items }
    ensures lead { (k : KernelState) (limit : ℕ) → LeadThere k limit ends.old.items ends.new.items }
    ensures more { (d : End) → (slice_index_or ends.old.items at d).states + 1 < 2 ^ 64 → ends.new.items ≡ slice_set ends.old.items at (one_more (slice_index_or ends.old.items at d)) }
{
    ends[at].states = ends[at].states.saturating_add(1);
}

/// The outcome of the state at a place of what was found from `opening`.
fn outcome_at(
    alloc: Global,
    opening: &Vertex,
    found: &[Found],
    place: usize,
) -> Result<Vec<u8>, AllocError>
    requires place { place < length found.now }
    requires linked { AreLinked found.now }
    requires first { BeginsIn opening.now found.now }
    ensures { IfOk result (λ text. (d : KernelState) → text.items ≡ outcome (state_at found.now place d)) }
{
    let kernel = kernel_at(alloc, opening, found, place)?;
    outcome_of(alloc, &kernel)
}

/// Enters the outcome of the state at a place, in which a run has ended, among ends, unless it is there.
fn enter(
    alloc: Global,
    opening: &Vertex,
    found: &[Found],
    place: usize,
    ends: &mut Vec<End>,
) -> Result<(), AllocError>
    requires place { place < length found.now }
    requires linked { AreLinked found.now }
    requires first { BeginsIn opening.now found.now }
    requires have { HaveSoFar (states_of found.now) place (outcomes ends.old.items) }
    requires quiet { (d : KernelState) → is_quiet (state_at found.now place d) ≡ true }
    requires counted { AreCounted (take place (states_of found.now)) ends.old.items }
    requires once { AreDistinct (outcomes ends.old.items) }
    requires few { length found.now < 2 ^ 64 }
    ensures counted { OnOk result (AreCounted (take (place + 1) (states_of found.now)) ends.new.items) }
    ensures kept { OnOk result (KeepEnds ends.old.items ends.new.items) }
    ensures lead { OnOk result ((k : KernelState) (limit : ℕ) → AreFrom k limit found.now → LeadThere k limit ends.old.items ends.new.items) }
    ensures there { OnOk result ((d : KernelState) → Contains (outcomes ends.new.items) (outcome (state_at found.now place d))) }
{
    alike_states_answer_alike();
    law_alike::alike_states_are_as_one();
    let outcome = outcome_at(alloc, opening, found, place)?;
    if let Some(at) = place_of(ends, &outcome) {
        count(ends, at);
        return Ok(());
    }
    let order = order_to(alloc, found, place)?;
    ends.push(End {
        outcome,
        order,
        states: 1,
    })?;
    Ok(())
}

/// Enters the outcome of the state at a place among ends, where a run has ended in it.
fn see(
    alloc: Global,
    opening: &Vertex,
    found: &[Found],
    place: usize,
    ends: &mut Vec<End>,
) -> Result<(), AllocError>
    requires place { place < length found.now }
    requires linked { AreLinked found.now }
    requires first { BeginsIn opening.now found.now }
    requires have { HaveSoFar (states_of found.now) place (outcomes ends.old.items) }
    requires counted { AreCounted (take place (states_of found.now)) ends.old.items }
    requires once { AreDistinct (outcomes ends.old.items) }
    requires few { length found.now < 2 ^ 64 }
    ensures counted { OnOk result (AreCounted (take (place + 1) (states_of found.now)) ends.new.items) }
    ensures kept { OnOk result (KeepEnds ends.old.items ends.new.items) }
    ensures lead { OnOk result ((k : KernelState) (limit : ℕ) → AreFrom k limit found.now → LeadThere k limit ends.old.items ends.new.items) }
    ensures there { OnOk result ((d : KernelState) → is_quiet (state_at found.now place d) ≡ true → Contains (outcomes ends.new.items) (outcome (state_at found.now place d))) }
{
    if !found[place].has_ended {
        return Ok(());
    }
    enter(alloc, opening, found, place, ends)
}

/// The outcomes of the states that were found from `opening`.
fn gather(alloc: Global, opening: &Vertex, found: &[Found]) -> Result<Vec<End>, AllocError>
    requires linked { AreLinked found.now }
    requires first { BeginsIn opening.now found.now }
    ensures each { IfOk result (λ ends. (k : KernelState) (limit : ℕ) → AreFrom k limit found.now → AllByRecursion (IsEnd k limit) ends.items) }
    ensures all { IfOk result (λ ends. HaveOutcomes (states_of found.now) (outcomes ends.items)) }
    ensures once { IfOk result (λ ends. AreDistinct (outcomes ends.items)) }
    ensures counted { IfOk result (λ ends. AreCounted (states_of found.now) ends.items) }
{
    let mut ends = Vec::new(alloc);
    for place in 0..found.len() {
        see(alloc, opening, found, place, &mut ends)?;
    }
    Ok(ends)
}

/// The outcomes of the states that a search from `opening` found.
fn ends_of(alloc: Global, opening: &Vertex, explored: &Explored) -> Result<Ends, AllocError>
    requires linked { AreLinked explored.now.found.items }
    requires first { BeginsIn opening.now explored.now.found.items }
    ensures each { (k : KernelState) (limit most : ℕ) → IsSearch Alike (λ _. false) k limit most explored.now → IfOk result (λ e. AllByRecursion (IsEnd k limit) e.ends.items) }
    ensures all { (k : KernelState) (limit most : ℕ) → IsSearch Alike (λ _. false) k limit most explored.now → IfOk result (λ e. AreEnds k limit e.extent (outcomes e.ends.items)) }
    ensures once { IfOk result (λ e. AreDistinct (outcomes e.ends.items)) }
    ensures states { (k : KernelState) (limit most : ℕ) → IsSearch Alike (λ _. false) k limit most explored.now → IfOk result (λ e. AreCounts k limit most e.extent e.states e.ends.items) }
{
    alike_states_answer_alike();
    law_alike::alike_states_are_as_one();
    law_alike::alikeness_is_an_equivalence();
    let found = explored.found.as_slice();
    let extent = Extent::of(explored.is_over, explored.is_whole);
    let states = found.len();
    let ends = gather(alloc, opening, found)?;
    Ok(Ends {
        ends,
        extent,
        states,
    })
}

/// The outcomes of the runs from `opening`: along orders after which at most `limit` turns were taken, counted from its boot, and
/// with at most `most` states expanded. The limit is at most 2^31.
pub fn list_ends(
    alloc: Global,
    opening: &Vertex,
    limit: u64,
    most: usize,
) -> Result<Ends, AllocError>
    requires { limit ≤ 2 ^ 31 }
    ensures each { IfOk result (λ e. AllByRecursion (IsEnd opening.now limit) e.ends.items) }
    ensures all { IfOk result (λ e. AreEnds opening.now limit e.extent (outcomes e.ends.items)) }
    ensures once { IfOk result (λ e. AreDistinct (outcomes e.ends.items)) }
    ensures states { IfOk result (λ e. AreCounts opening.now limit most e.extent e.states e.ends.items) }
{
    let explored = search(alloc, opening, limit, most, &NoGoal)?;
    let ends = ends_of(alloc, opening, &explored);
    let_go(explored);
    ends
}

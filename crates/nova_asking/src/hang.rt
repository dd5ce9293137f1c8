ghost use Rattle.std.specs.Prelude.{◌≡◌, ◌+◌, ◌^◌, ◌<◌, ◌≤◌, ℕ, false, length, nat_lt, IfOk};
ghost use Rattle.nova_model.specs.State.{KernelState};
ghost use Rattle.nova_search.specs.Edges.{AreAhead, AreEdges};
ghost use Rattle.nova_search.specs.Searches.{AreLinked, state_at, states_of};
ghost use Rattle.nova_search.specs.declared.merging.Merging.TheVariants.{Same};
ghost use Rattle.nova_asking.specs.Answers.{IsAnswer};
ghost use Rattle.nova_asking.specs.Hangs.{is_aim};
ghost use Rattle.nova_asking.specs.Least.{AreDrawn, IsPlace, IsSeen, seems};
ghost use Rattle.nova_asking.specs.Searched.{BeginsIn, IsSearch};
ghost use Rattle.nova_asking.specs.declared.question.Question.TheVariants.{Hangs};

use crate::aim::Aim;
use crate::answer::{Answer, unfound};
use crate::extent::Extent;
use crate::laws::alike_states_answer_alike;
use crate::least::{is_within, least_turns};
use crate::path::order_to;
use crate::question::Question;
use crate::search::let_go;
use nova_compare::Vertex;
use nova_kernel::Kernel;
use nova_search::{Explored, Found, Merging, NoGoal, explore, kernel_at};
use std::alloc::{AllocError, Global};

/// Whether the state of a kernel seems to hang: what is aimed at comes in no state that edges lead to, of at most so many turns more.
fn seems(kernel: &Kernel, least: Option<u64>, turns: u32, aim: Aim) -> bool
    ensures { result ≡ seems turns aim kernel.now.state least }
{
    aim.is_sought(kernel) && !is_within(least, kernel.turns(), turns)
}

/// Whether the state at a place of what was found from `opening` does.
fn seems_at(
    alloc: Global,
    opening: &Vertex,
    found: &[Found],
    place: usize,
    least: Option<u64>,
    turns: u32,
    aim: Aim,
) -> Result<bool, AllocError>
    requires place { place < length found.now }
    requires linked { AreLinked found.now }
    requires first { BeginsIn opening.now found.now }
    ensures { IfOk result (λ is. (d : KernelState) → is ≡ seems turns aim (state_at found.now place d) least) }
{
    let kernel = kernel_at(alloc, opening, found, place)?;
    Ok(seems(&kernel, least, turns, aim))
}

/// The first place of a state that seems to hang. The kernel of each is made again.
fn first_place(
    alloc: Global,
    opening: &Vertex,
    found: &[Found],
    least: &[Option<u64>],
    turns: u32,
    aim: Aim,
) -> Result<Option<usize>, AllocError>
    requires long { length least.now ≡ length found.now }
    requires linked { AreLinked found.now }
    requires first { BeginsIn opening.now found.now }
    ensures { IfOk result (IsPlace turns aim (states_of found.now) least.now) }
{
    for place in 0..found.len() {
        if seems_at(alloc, opening, found, place, least[place], turns, aim)? {
            return Ok(Some(place));
        }
    }
    Ok(None)
}

/// The first place of a state that seems to hang, by what edges lead to.
fn place_in(
    alloc: Global,
    opening: &Vertex,
    explored: &Explored,
    turns: u32,
    aim: Aim,
) -> Result<Option<usize>, AllocError>
    requires linked { AreLinked explored.now.found.items }
    requires first { BeginsIn opening.now explored.now.found.items }
    requires edges { AreEdges (states_of explored.now.found.items) explored.now.edges.items }
    requires ahead { AreAhead explored.now.edges.items }
    ensures { IfOk result (IsSeen turns aim (is_aim aim) explored.now) }
{
    let found = explored.found.as_slice();
    let least = least_turns(alloc, opening, found, &explored.edges, &aim)?;
    first_place(alloc, opening, found, &least, turns, aim)
}

/// Whether more turns than `limit` were taken in the state at a place of what was found from `opening`.
fn is_late(
    alloc: Global,
    opening: &Vertex,
    found: &[Found],
    place: usize,
    limit: u64,
) -> Result<bool, AllocError>
    requires place { place < length found.now }
    requires linked { AreLinked found.now }
    requires first { BeginsIn opening.now found.now }
    ensures { IfOk result (λ is. (d : KernelState) → is ≡ nat_lt limit (state_at found.now place d).turns) }
{
    let kernel = kernel_at(alloc, opening, found, place)?;
    Ok(kernel.turns() > limit)
}

/// What is answered by the states that a search from `opening` found, which went on for `turns` turns behind the limit.
fn hanging(
    alloc: Global,
    opening: &Vertex,
    explored: &Explored,
    limit: u64,
    question: &Question,
    turns: u32,
    aim: Aim,
) -> Result<Answer, AllocError>
    requires is { question.now ≡ Hangs turns aim }
    requires linked { AreLinked explored.now.found.items }
    requires first { BeginsIn opening.now explored.now.found.items }
    requires edges { AreEdges (states_of explored.now.found.items) explored.now.edges.items }
    requires ahead { AreAhead explored.now.edges.items }
    ensures { (k : KernelState) (most : ℕ) → IsSearch Same (λ _. false) k (limit + turns) most explored.now → AreDrawn k (limit + turns) explored.now
        → IfOk result (IsAnswer (Hangs turns aim) k limit most) }
{
    alike_states_answer_alike();
    law_alike::alikeness_is_an_equivalence();
    let found = explored.found.as_slice();
    if !explored.is_over {
        return unfound(alloc, opening, question, found, Extent::Cut);
    }
    let Some(place) = place_in(alloc, opening, explored, turns, aim)? else {
        return unfound(
            alloc,
            opening,
            question,
            found,
            Extent::of(true, explored.is_whole),
        );
    };
    let late = is_late(alloc, opening, found, place, limit)?;
    if late {
        return unfound(alloc, opening, question, found, Extent::Within);
    }
    let order = order_to(alloc, found, place)?;
    Ok(Answer::Found {
        order,
        states: found.len(),
    })
}

/// What a search from `opening` answers to whether a run hangs: along orders after which at most `limit` turns were taken, counted from
/// its boot, and for `turns` turns behind each.
pub(crate) fn judge_hang(
    alloc: Global,
    opening: &Vertex,
    limit: u64,
    most: usize,
    question: &Question,
    turns: u32,
    aim: Aim,
) -> Result<Answer, AllocError>
    requires is { question.now ≡ Hangs turns aim }
    requires limit { limit + turns ≤ 2 ^ 31 }
    ensures { IfOk result (IsAnswer (Hangs turns aim) opening.now limit most) }
{
    let reach = limit + u64::from(turns);
    let explored = explore(alloc, opening, Merging::Same, reach, most, &NoGoal)?;
    let answer = hanging(alloc, opening, &explored, limit, question, turns, aim);
    let_go(explored);
    answer
}

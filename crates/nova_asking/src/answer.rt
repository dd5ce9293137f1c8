ghost use Rattle.std.specs.Prelude.{◌≡◌, ◌+◌, ◌^◌, ◌<◌, ◌≤◌, ℕ, length, IfOk, IfSome};
ghost use Rattle.nova_model.specs.State.{KernelState};
ghost use Rattle.nova_search.specs.Searches.{AreLinked, states_of};
ghost use Rattle.nova_search.specs.declared.merging.Merging.TheVariants.{Alike};
ghost use Rattle.nova_asking.specs.Answers.{IsAnswer};
ghost use Rattle.nova_asking.specs.Questions.{IsApt, IsOfState, ahead, is_so};
ghost use Rattle.nova_asking.specs.Searched.{BeginsIn, IsMissing, IsSearch, IsUnfound, unless_at};

use crate::extent::Extent;
use crate::hang::judge_hang;
use crate::laws::alike_states_answer_alike;
use crate::path::order_to;
use crate::presence::Presence;
use crate::question::Question;
use crate::search::{let_go, search};
use nova_compare::Vertex;
use nova_order::Order;
use nova_search::{Explored, Found, first_goal};
use std::alloc::{AllocError, Global};

/// What a search answers to a question.
#[derive(Drop)]
pub enum Answer {
    /// This order leads to a state that is so. So many states were found.
    Found {
        order: Order,
        states: usize,
    },

    /// None of the orders that it went along does: how far it went, how many states it found, and the execution context that is asked about where
    /// it is in none of them.
    Never {
        extent: Extent,
        states: usize,
        absent: Option<u32>,
    },
}

/// An execution context, where there is no place at which it is.
fn unless_at(place: Option<usize>, ec: u32) -> Option<u32>
    ensures { result ≡ unless_at place ec }
{
    match place {
        Some(_) => None,
        None => Some(ec),
    }
}

/// The execution context that a question names, where it is in none of the states that were found from `opening`.
fn absent_in(
    alloc: Global,
    opening: &Vertex,
    question: &Question,
    found: &[Found],
) -> Result<Option<u32>, AllocError>
    requires linked { AreLinked found.now }
    requires first { BeginsIn opening.now found.now }
    ensures { IfOk result (IsMissing question.now (states_of found.now)) }
{
    let Some(ec) = question.named() else {
        return Ok(None);
    };
    let place = first_goal(alloc, opening, found, &Presence { ec })?;
    Ok(unless_at(place, ec))
}

/// What is answered where no order that a search of this extent from `opening` went along leads to what was asked for.
pub(crate) fn unfound(
    alloc: Global,
    opening: &Vertex,
    question: &Question,
    found: &[Found],
    extent: Extent,
) -> Result<Answer, AllocError>
    requires linked { AreLinked found.now }
    requires first { BeginsIn opening.now found.now }
    ensures { IfOk result (IsUnfound question.now found.now extent) }
{
    let absent = absent_in(alloc, opening, question, found)?;
    Ok(Answer::Never {
        extent,
        states: found.len(),
        absent,
    })
}

/// What is answered to a question by the states that a search for it from `opening` found.
fn answered(
    alloc: Global,
    opening: &Vertex,
    question: &Question,
    explored: &Explored,
) -> Result<Answer, AllocError>
    requires linked { AreLinked explored.now.found.items }
    requires first { BeginsIn opening.now explored.now.found.items }
    requires there { IfSome explored.now.goal (λ place. place < length explored.now.found.items) }
    requires is { IsOfState question.now }
    ensures { (k : KernelState) (limit most : ℕ) → IsSearch Alike (is_so question.now) k limit most explored.now → IfOk result (IsAnswer question.now k limit most) }
{
    alike_states_answer_alike();
    law_alike::alikeness_is_an_equivalence();
    let found = explored.found.as_slice();
    let Some(place) = explored.goal else {
        let extent = Extent::of(explored.is_over, explored.is_whole);
        return unfound(alloc, opening, question, found, extent);
    };
    let order = order_to(alloc, found, place)?;
    Ok(Answer::Found {
        order,
        states: found.len(),
    })
}

/// What a search answers to a question on states. It ends at the first state that is so.
fn judge_states(
    alloc: Global,
    opening: &Vertex,
    limit: u64,
    most: usize,
    question: &Question,
) -> Result<Answer, AllocError>
    requires limit { limit ≤ 2 ^ 31 }
    requires is { IsOfState question.now }
    ensures { IfOk result (IsAnswer question.now opening.now limit most) }
{
    let explored = search(alloc, opening, limit, most, question)?;
    let answer = answered(alloc, opening, question, &explored);
    let_go(explored);
    answer
}

/// What a search from `opening` answers to a question: along orders after which at most `limit` turns were taken, counted from its
/// boot, and with at most `most` states expanded. The limit, with the turns that the question looks ahead, is at most 2^31.
pub fn judge(
    alloc: Global,
    opening: &Vertex,
    limit: u64,
    most: usize,
    question: &Question,
) -> Result<Answer, AllocError>
    requires limit { limit + ahead question.now ≤ 2 ^ 31 }
    requires apt { IsApt question.now }
    ensures { IfOk result (IsAnswer question.now opening.now limit most) }
{
    match question {
        Question::Hangs { turns, aim } => {
            judge_hang(alloc, opening, limit, most, question, *turns, *aim)
        }
        _ => judge_states(alloc, opening, limit, most, question),
    }
}

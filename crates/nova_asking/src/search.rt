ghost use Rattle.std.specs.Prelude.{◌^◌, ◌≤◌, IfOk};
ghost use Rattle.nova_search.specs.Searches.{AreLinked};
ghost use Rattle.nova_search.specs.declared.merging.Merging.TheVariants.{Alike};
ghost use Rattle.nova_asking.specs.Searched.{IsSearch};

use crate::laws::alike_states_answer_alike;
use nova_compare::Vertex;
use nova_search::{Explored, Goal, Merging, explore};
use std::alloc::{AllocError, Global};

/// What is let go here is dropped apart from all else.
pub(crate) fn let_go<T: Drop>(_value: T) {}

/// What a search from `opening` finds, up to the first state that is looked for, where states that are the same are one.
fn search_same<G: Goal>(
    alloc: Global,
    opening: &Vertex,
    limit: u64,
    most: usize,
    goal: &G,
) -> Result<Explored, AllocError>
    requires limit { limit ≤ 2 ^ 31 }
    requires apt { G.apt goal.now }
    ensures searched { IfOk result (IsSearch Alike (G.met goal.now) opening.now limit most) }
    ensures linked { IfOk result (λ e. AreLinked e.found.items) }
{
    law_alike::alikeness_is_an_equivalence();
    alike_states_answer_alike();
    let explored = explore(alloc, opening, Merging::Same, limit, most, goal)?;
    Ok(explored)
}

/// What a search from `opening` finds, up to the first state that is looked for. States that are alike are one; where ticks are told, it begins again, and
/// states that are the same are.
pub(crate) fn search<G: Goal>(
    alloc: Global,
    opening: &Vertex,
    limit: u64,
    most: usize,
    goal: &G,
) -> Result<Explored, AllocError>
    requires limit { limit ≤ 2 ^ 31 }
    requires apt { G.apt goal.now }
    ensures searched { IfOk result (IsSearch Alike (G.met goal.now) opening.now limit most) }
    ensures linked { IfOk result (λ e. AreLinked e.found.items) }
{
    let explored = explore(alloc, opening, Merging::Alike, limit, most, goal)?;
    if explored.tells_ticks {
        let_go(explored);
        return search_same(alloc, opening, limit, most, goal);
    }
    Ok(explored)
}

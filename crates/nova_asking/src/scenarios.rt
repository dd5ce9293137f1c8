ghost use Rattle.std.specs.Prelude.{◌≡◌, ◌+◌, ◌^◌, ◌≤◌, IfOk};
ghost use Rattle.std.specs.List.{AllByRecursion};
ghost use Rattle.nova_asking.specs.Answers.{AreCounts, AreDistinct, AreEnds, IsAnswer, IsEnd, outcomes};
ghost use Rattle.nova_asking.specs.Questions.{IsApt, ahead};
ghost use Rattle.nova_boot.specs.Boot.{scenario_of};
ghost use Rattle.nova_model.specs.Boot.{boot};
ghost use Rattle.nova_scenario.specs.Sound.{IsSound};

use crate::answer::{Answer, judge};
use crate::ends::{Ends, list_ends};
use crate::question::Question;
use crate::search::let_go;
use nova_boot::boot;
use nova_compare::Vertex;
use nova_scenario::Scenario;
use std::alloc::{AllocError, Global};

/// The vertex in which a scenario begins.
fn opening(alloc: Global, scenario: &Scenario) -> Result<Vertex, AllocError>
    requires { IsSound scenario.now }
    ensures { IfOk result (λ v. v ≡ boot (scenario_of scenario.now)) }
{
    let kernel = boot(alloc, scenario, 0)?;
    let vertex = Vertex::begin(alloc, &kernel);
    let_go(kernel);
    vertex
}

/// What a search from the boot of a scenario answers to a question: along orders of at most `limit` turns, and with at most `most` states
/// expanded. The limit, with the turns that the question looks ahead, is at most 2^31.
pub fn judge_scenario(
    alloc: Global,
    scenario: &Scenario,
    limit: u64,
    most: usize,
    question: &Question,
) -> Result<Answer, AllocError>
    requires sound { IsSound scenario.now }
    requires limit { limit + ahead question.now ≤ 2 ^ 31 }
    requires apt { IsApt question.now }
    ensures { IfOk result (IsAnswer question.now (boot (scenario_of scenario.now)) limit most) }
{
    let opening = opening(alloc, scenario)?;
    let answer = judge(alloc, &opening, limit, most, question);
    let_go(opening);
    answer
}

/// The outcomes of a scenario: along orders of at most `limit` turns, and with at most `most` states expanded. The limit
/// is at most 2^31.
pub fn list_scenario_ends(
    alloc: Global,
    scenario: &Scenario,
    limit: u64,
    most: usize,
) -> Result<Ends, AllocError>
    requires sound { IsSound scenario.now }
    requires limit { limit ≤ 2 ^ 31 }
    ensures each { IfOk result (λ e. AllByRecursion (IsEnd (boot (scenario_of scenario.now)) limit) e.ends.items) }
    ensures all { IfOk result (λ e. AreEnds (boot (scenario_of scenario.now)) limit e.extent (outcomes e.ends.items)) }
    ensures once { IfOk result (λ e. AreDistinct (outcomes e.ends.items)) }
    ensures states { IfOk result (λ e. AreCounts (boot (scenario_of scenario.now)) limit most e.extent e.states e.ends.items) }
{
    let opening = opening(alloc, scenario)?;
    let ends = list_ends(alloc, &opening, limit, most);
    let_go(opening);
    ends
}

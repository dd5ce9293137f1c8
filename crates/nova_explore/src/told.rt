ghost use Rattle.std.specs.Prelude.{◌≡◌, ◌≤◌, IfOk};
ghost use Rattle.nova_boot.specs.Boot.{scenario_of};
ghost use Rattle.nova_model.specs.Boot.{boot};
ghost use Rattle.nova_scenario.specs.Sound.{IsSound};
ghost use Rattle.nova_explore.specs.Main.{IsExplored};
ghost use Rattle.nova_explore.specs.Numbers.{HasBounds};
ghost use Rattle.nova_explore.specs.Tellings.{AreEndsTold, IsAnswered, IsTold, has_place, verdict_of};

use crate::exit::Exit;
use crate::request::Request;
use crate::telling::{tell_answer, tell_ends};
use crate::verdict::Verdict;
use nova_asking::{Answer, Question, judge_scenario, list_scenario_ends};
use nova_scenario::Scenario;
use std::alloc::{AllocError, Global};

/// What is told of a request: the verdict, and the text.
#[derive(Drop)]
pub(crate) struct Told {
    pub verdict: Verdict,
    pub text: Vec<u8>,
}

/// The verdict of `answer`.
fn verdict_of(answer: &Answer) -> Verdict
    ensures { result ≡ verdict_of answer.now }
{
    match answer {
        Answer::Found { .. } => Verdict::Found,
        Answer::Never { extent, .. } => Verdict::of_extent(*extent),
    }
}

/// What is told of `request`, a question on states.
fn tell_question(alloc: Global, scenario: &Scenario, request: &Request) -> Result<Told, AllocError>
    requires sound { IsSound scenario.now }
    requires bounds { HasBounds request.now }
    ensures { IfOk result (λ t. IsAnswered request.now.question (boot (scenario_of scenario.now)) scenario.now.cpus request.now.turns request.now.states t.verdict t.text.items) }
{
    let answer = judge_scenario(
        alloc,
        scenario,
        u64::from(request.turns),
        request.states as usize,
        &request.question,
    )?;
    let text = tell_answer(alloc, scenario.cpus, request.turns, &answer)?;
    let verdict = verdict_of(&answer);
    Ok(Told { verdict, text })
}

/// What is told of `request`, on the outcomes of runs.
fn tell_outcomes(alloc: Global, scenario: &Scenario, request: &Request) -> Result<Told, AllocError>
    requires sound { IsSound scenario.now }
    requires bounds { HasBounds request.now }
    ensures { IfOk result (λ t. AreEndsTold (boot (scenario_of scenario.now)) scenario.now.cpus request.now.turns request.now.states t.verdict t.text.items) }
{
    let ends = list_scenario_ends(
        alloc,
        scenario,
        u64::from(request.turns),
        request.states as usize,
    )?;
    let text = tell_ends(alloc, scenario.cpus, request.turns, &ends)?;
    let verdict = Verdict::of_extent(ends.extent);
    Ok(Told { verdict, text })
}

/// What is told of `request`, whose console or frame is there.
fn tell_from(alloc: Global, scenario: &Scenario, request: &Request) -> Result<Told, AllocError>
    requires sound { IsSound scenario.now }
    requires bounds { HasBounds request.now }
    ensures { IfOk result (λ t. IsTold request.now.question (boot (scenario_of scenario.now)) scenario.now.cpus request.now.turns request.now.states t.verdict t.text.items) }
{
    match request.question {
        Question::Ends => tell_outcomes(alloc, scenario, request),
        _ => tell_question(alloc, scenario, request),
    }
}

/// Whether `scenario` has the console or the frame that a question is about.
fn has_place(scenario: &Scenario, question: &Question) -> bool
    requires { scenario.now.ram ≤ 14 }
    ensures { result ≡ has_place scenario.now question.now }
{
    match question {
        Question::Console { console, .. } => *console < scenario.consoles,
        Question::Word { frame, .. } | Question::Stores { frame, .. } => {
            *frame < 1 << scenario.ram
        }
        Question::Blocked
        | Question::At { .. }
        | Question::AtBoth { .. }
        | Question::Dies
        | Question::DiesOf { .. }
        | Question::DiesBut { .. }
        | Question::Stuck { .. }
        | Question::Hangs { .. }
        | Question::Ends => true,
    }
}

/// What is told of `request` over its scenario, or why nothing is.
pub(crate) fn tell(alloc: Global, scenario: &Scenario, request: &Request) -> Result<Told, Exit>
    requires sound { IsSound scenario.now }
    requires bounds { HasBounds request.now }
    ensures { IsExplored scenario.now request.now result }
{
    if !has_place(scenario, &request.question) {
        return Err(Exit::Absent);
    }
    Ok(tell_from(alloc, scenario, request)?)
}

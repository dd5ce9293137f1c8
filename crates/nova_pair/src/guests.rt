// Two guests, followed and compared.
ghost use Rattle.std.specs.Prelude.{◌≡◌, ◌++◌, ℕ, List, [], IfOk, IfErr, IfSome, IsTrue, OnOk, Some};
ghost use Rattle.nova_boot.specs.Boot.{scenario_of};
ghost use Rattle.nova_command.specs.Limit.{IsLimit};
ghost use Rattle.nova_command.specs.declared.command.Command.TheVariants.{Solo, Twin};
ghost use Rattle.nova_io.specs.Faults.{NeverFalls, Stay};
ghost use Rattle.nova_model.specs.Boot.{boot};
ghost use Rattle.nova_model.specs.Runs.{IsFreeOfIdle};
ghost use Rattle.nova_order.specs.Blocks.{turns, is_within};
ghost use Rattle.law_renaming.specs.Verdicts.{IsVerdict};
ghost use Rattle.nova_scenario.specs.Sound.{IsSound};
ghost use Rattle.nova_answers.specs.Came.{IsFoundBy, SubjectsCame};
ghost use Rattle.nova_answers.specs.Compared.{line_of};
ghost use Rattle.nova_answers.specs.Fetches.{Fetches, FetchesOf};
ghost use Rattle.nova_answers.specs.Names.{most_of_subjects};
ghost use Rattle.nova_io.specs.Outside.{depots};
ghost use Rattle.nova_answers.specs.Prepared.{IsComparison, IsFollowed, IsFollowedAt, IsIdleFault, IsPrepared, exit_of};
ghost use Rattle.nova_answers.specs.declared.exit.Exit.TheVariants.{Done, Memory};
ghost use Rattle.nova_twin.specs.Comparison.{said, ram_of, Holds, EndsSo};
ghost use Rattle.nova_twin.specs.Sides.{IsAlone, IsFound, IsSide};

use nova_answers::{
    Exit, Outcome, Subject, Subjects, TwinWhy, booted, fetch_order, fetch_scenario, fetch_subjects,
};
use nova_command::Name;
use nova_following::collect;
use nova_io::Depot;
use nova_order::Order;
use nova_scenario::Scenario;
use nova_twin::{Side, Verdict, compare};
use std::alloc::{AllocError, Global};

/// Boots `scenario`, runs it over `order`, of at most `limit` turns, and follows the virtual CPU `guest` from its birth. `None` comes where no
/// virtual CPU has the number at the end.
fn collected(
    alloc: Global,
    scenario: &Scenario,
    order: &Order,
    limit: u32,
    guest: u32,
) -> Result<Option<Side>, Exit>
    requires sound { IsSound scenario.now }
    requires limit { IsLimit limit }
    requires within { IsTrue (is_within scenario.now.cpus limit order.now.blocks) }
    ensures found { IfOk result (IsFound (boot (scenario_of scenario.now)) (turns order.now.blocks) guest) }
    ensures alone { IfOk result (λ found. IfSome found IsAlone) }
    ensures no_idle { OnOk result (IsFreeOfIdle (boot (scenario_of scenario.now)) (turns order.now.blocks)) }
    ensures idle { IfErr result (IsIdleFault (boot (scenario_of scenario.now)) order.now) }
{
    let most = u64::from(limit);
    let kernel = booted(alloc, scenario, limit)?;
    Ok(collect(alloc, kernel, order, most, guest)?)
}

/// Follows the guest of number `guest`, as `collected` does. No virtual CPU has a number of 2^32 or more.
fn found(
    alloc: Global,
    scenario: &Scenario,
    order: &Order,
    limit: u32,
    guest: Option<u32>,
) -> Result<Option<Side>, Exit>
    requires sound { IsSound scenario.now }
    requires limit { IsLimit limit }
    requires within { IsTrue (is_within scenario.now.cpus limit order.now.blocks) }
    ensures found { IfOk result (IsFoundBy (boot (scenario_of scenario.now)) (turns order.now.blocks) guest) }
    ensures alone { IfOk result (λ found. IfSome found IsAlone) }
    ensures no_idle { OnOk result (IsFreeOfIdle (boot (scenario_of scenario.now)) (turns order.now.blocks)) }
    ensures idle { IfErr result (IsIdleFault (boot (scenario_of scenario.now)) order.now) }
{
    match guest {
        Some(guest) => collected(alloc, scenario, order, limit, guest),
        None => {
            let _root = collected(alloc, scenario, order, limit, 0)?;
            Ok(None)
        }
    }
}

/// Fetches the scenario and then the order of `subject`, and follows its guest.
fn follow<D: Depot>(
    alloc: Global,
    depot: &mut D,
    subject: &Subject,
    limit: u32,
) -> Result<Option<Side>, Exit>
    requires limit { IsLimit limit }
    ensures followed { IsFollowed (depots D.files D.gave D.fetch_failed D.fetch_faults D.took D.append_failed D.append_faults) subject.now limit depot.old depot.new result }
    ensures fetches { Fetches (depots D.files D.gave D.fetch_failed D.fetch_faults D.took D.append_failed D.append_faults) (Solo subject.now.scenario (Some subject.now.order) limit) (exit_of result) depot.old depot.new }
    ensures counts { NeverFalls (D.fetch_faults depot.old) (D.fetch_faults depot.new) }
    ensures appends { Stay (D.append_faults depot.old) (D.append_faults depot.new) }
    ensures files { D.files depot.new ≡ D.files depot.old }
{
    let scenario = fetch_scenario(alloc, depot, &subject.scenario)?;
    let order = fetch_order(
        alloc,
        depot,
        &subject.order,
        scenario.cpus,
        u64::from(limit),
    )?;
    found(alloc, &scenario, &order, limit, subject.guest)
}

/// Follows the guest that line `line` of the text names.
fn follow_at<D: Depot>(
    alloc: Global,
    depot: &mut D,
    subject: &Subject,
    line: u64,
    limit: u32,
) -> Result<Side, Exit>
    requires limit { IsLimit limit }
    ensures followed { IsFollowedAt (depots D.files D.gave D.fetch_failed D.fetch_faults D.took D.append_failed D.append_faults) line subject.now limit depot.old depot.new result }
    ensures side { IfOk result IsSide }
    ensures fetches { Fetches (depots D.files D.gave D.fetch_failed D.fetch_faults D.took D.append_failed D.append_faults) (Solo subject.now.scenario (Some subject.now.order) limit) (exit_of result) depot.old depot.new }
    ensures counts { NeverFalls (D.fetch_faults depot.old) (D.fetch_faults depot.new) }
    ensures appends { Stay (D.append_faults depot.old) (D.append_faults depot.new) }
    ensures files { D.files depot.new ≡ D.files depot.old }
{
    match follow(alloc, depot, subject, limit) {
        Ok(Some(side)) => Ok(side),
        Ok(None) => Err(Exit::Twin {
            line,
            why: TwinWhy::Guest,
        }),
        Err(exit) => Err(exit.at_line(line)),
    }
}

/// The line of `verdict`.
#[tactic(auto, unfolding(nova_answers::specs::Compared::line_of))]
fn line(alloc: Global, verdict: &Verdict) -> Result<Vec<u8>, AllocError>
    ensures { IfOk result (λ text. text.items ≡ line_of verdict.now) }
{
    let line = match verdict {
        Verdict::Equal { inputs, pairs } => {
            let frames = pairs.len();
            format!(in alloc; "equal {inputs} frames {frames}\n")?
        }
        Verdict::Views => format!(in alloc; "views\n")?,
        Verdict::Differ(inputs) => format!(in alloc; "differ {inputs}\n")?,
    };
    Ok(line.into_bytes())
}

/// Compares the guests `first` and `second`, which were followed.
fn compared(alloc: Global, first: &Side, second: &Side) -> Result<Outcome, Exit>
    requires first { IsSide first.now }
    requires second { IsSide second.now }
    ensures verdict { IfOk result (IsComparison (λ v. ((x : IsSide first.now) (y : IsSide second.now) → Holds (ram_of first.now x) (ram_of second.now y) first.now second.now v)
        × IsVerdict first.now.start second.now.start first.now.inputs.items second.now.inputs.items (said v) × EndsSo first.now second.now v)) }
    ensures memory { IfErr result (λ exit. exit ≡ Memory) }
{
    let verdict = compare(first, second)?;
    let text = line(alloc, &verdict)?;
    Ok(Outcome {
        is_complete: true,
        order: Vec::new(alloc),
        text,
    })
}

/// Follows the two guests of `subjects`, a text that came, one after the other, and compares them.
fn both<D: Depot>(
    alloc: Global,
    depot: &mut D,
    subjects: &Subjects,
    limit: u32,
) -> Result<Outcome, Exit>
    requires limit { IsLimit limit }
    ensures prepared { (name : List ℕ) (before : D) → SubjectsCame (depots D.files D.gave D.fetch_failed D.fetch_faults D.took D.append_failed D.append_faults) name before subjects.now depot.old → NeverFalls (D.fetch_faults before) (D.fetch_faults depot.old)
        → IsPrepared (depots D.files D.gave D.fetch_failed D.fetch_faults D.took D.append_failed D.append_faults) (Twin name limit) before depot.new result }
    ensures fetches { (name : List ℕ) (before : D) → SubjectsCame (depots D.files D.gave D.fetch_failed D.fetch_faults D.took D.append_failed D.append_faults) name before subjects.now depot.old
        → FetchesOf (depots D.files D.gave D.fetch_failed D.fetch_faults D.took D.append_failed D.append_faults) most_of_subjects name Done before depot.old
        → Fetches (depots D.files D.gave D.fetch_failed D.fetch_faults D.took D.append_failed D.append_faults) (Twin name limit) (exit_of result) before depot.new }
    ensures appends { Stay (D.append_faults depot.old) (D.append_faults depot.new) }
    ensures files { D.files depot.new ≡ D.files depot.old }
{
    let first = follow_at(alloc, depot, &subjects.first, 1, limit)?;
    let second = follow_at(alloc, depot, &subjects.second, 2, limit)?;
    compared(alloc, &first, &second)
}

/// Does `twin`: fetches the text `name`, which names two guests, follows one after the other, and compares them.
pub fn twin<D: Depot>(
    alloc: Global,
    depot: &mut D,
    name: &Name,
    limit: u32,
) -> Result<Outcome, Exit>
    requires limit { IsLimit limit }
    ensures prepared { IsPrepared (depots D.files D.gave D.fetch_failed D.fetch_faults D.took D.append_failed D.append_faults) (Twin name.now limit) depot.old depot.new result }
    ensures fetches { Fetches (depots D.files D.gave D.fetch_failed D.fetch_faults D.took D.append_failed D.append_faults) (Twin name.now limit) (exit_of result) depot.old depot.new }
    ensures appends { Stay (D.append_faults depot.old) (D.append_faults depot.new) }
    ensures files { D.files depot.new ≡ D.files depot.old }
{
    let subjects = fetch_subjects(alloc, depot, name)?;
    both(alloc, depot, &subjects, limit)
}

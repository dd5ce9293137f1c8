ghost use Rattle.std.specs.Prelude.{◌≡◌, ◌++◌, ◌≤◌, ◌^◌, [], IfOk, OnOk, length, string_bytes};
ghost use Rattle.nova_ties.specs.Ties.{IsStuck, label_in};
ghost use Rattle.nova_naming.specs.Labels.{flows_of};
ghost use Rattle.nova_judging.specs.Answers.{AreFinest, AreSettled, IsFinestAnswer, IsGathered, IsNamedAnswer, answer_if, answer_of, between_lines, finest_lines, finest_text, named_text, stuck_text, ties_beside, turn_line};
ghost use Rattle.nova_judging.specs.Labelled.{labels_of};

use crate::labels::{are_two, labels_of};
use crate::lines::{write_judged, write_stuck, write_ties};
use crate::memory::{write_flowing, write_reading};
use crate::processors::write_processors;
use crate::sharing::write_shared;
use crate::sides::write_sides;
use nova_kernel::{Derivation, Kernel};
use nova_naming::Policy;
use nova_sides::{Verdict, derivations_of, judge, ties};
use nova_ties::{Tie, settle};
use std::alloc::{AllocError, Global};

/// What sides are in a state.
#[derive(Clone, Copy, Debug, PartialEq, Eq)]
pub enum Answer {
    /// They are isolated, and all that is trusted is at rest: they are apart for good.
    Apart,

    /// They are isolated, and not all that is trusted is at rest: they are apart for as long as what is trusted is careful.
    Served,

    /// They aren't two.
    Single,

    /// They aren't isolated.
    Breach,

    /// There are none that are isolated from what is trusted.
    Stuck,
}

/// An answer, and the text that tells it.
#[derive(Drop)]
pub struct Told {
    pub answer: Answer,
    pub text: String,
}

/// The most objects of a state that is judged.
const MOST: usize = 1 << 31;

/// What is asked of a state: its ties, its derivations, the labels that a policy gives, the semaphores that sides share, and what flows between them.
#[derive(Drop)]
pub struct Facts {
    pub ties: Vec<Tie>,
    pub list: Vec<Derivation>,
    pub labels: Vec<u32>,
    pub shared: Vec<u32>,
    pub flows: Vec<(u32, u32)>,
}

fn gather(
    alloc: Global,
    policy: &Policy,
    kernel: &Kernel,
    flows: Vec<(u32, u32)>,
) -> Result<Facts, AllocError>
    requires few { length kernel.now.state.objects ≤ 2 ^ 31 }
    ensures gathered { IfOk result (IsGathered flows.items policy.now kernel.now.state) }
{
    let shared = policy.semaphores(alloc)?;
    let labels = labels_of(alloc, policy, kernel)?;
    let ties = ties(alloc, kernel, &labels, &shared, &flows)?;
    let list = derivations_of(alloc, kernel)?;
    Ok(Facts {
        ties,
        list,
        labels,
        shared,
        flows,
    })
}

fn answer_if(two: bool, answer: Answer) -> Answer
    ensures { result ≡ answer_if two answer }
{
    if two { answer } else { Answer::Single }
}

/// The answer of `verdict`, where there are two sides or not.
fn answer_of(two: bool, verdict: Verdict) -> Answer
    ensures { result ≡ answer_of two verdict }
{
    match verdict {
        Verdict::Breach(_) => Answer::Breach,
        Verdict::Apart => answer_if(two, Answer::Apart),
        Verdict::Served(_) => answer_if(two, Answer::Served),
    }
}

/// Joins sides in `labels` to the finest that respect the ties `tied`, or answers the tie for which there are none: then `labels` tell nothing.
pub fn settle_in(labels: &mut [u32], tied: &[Tie]) -> Option<Tie>
    ensures { AreSettled tied.now labels.old labels.new result }
{
    settle(labels, tied)
}

fn write_turn(out: &mut String, kernel: &Kernel) -> Result<(), AllocError>
    ensures { OnOk result (string_bytes out.new ≡ string_bytes out.old ++ turn_line kernel.now.state) }
{
    let turns = kernel.turns();
    writeln!(out, "turn {turns}")
}

/// The finest sides, or the tie for which there are none.
fn write_finest(
    out: &mut String,
    policy: &Policy,
    kernel: &Kernel,
    facts: &Facts,
    new: &[u32],
    stuck: Option<Tie>,
) -> Result<(), AllocError>
    requires few { length kernel.now.state.objects ≤ 2 ^ 31 }
    requires facts { IsGathered (flows_of policy.now) policy.now kernel.now.state facts.now }
    ensures { OnOk result (string_bytes out.new ≡ string_bytes out.old ++ finest_lines policy.now kernel.now.state (labels_of policy.now kernel.now.state) new.now stuck) }
{
    match stuck {
        None => write_sides(out, policy, new, kernel.objects()),
        Some(tie) => write_stuck(out, policy, &facts.labels, &facts.list, tie),
    }
}

/// What is told of what sides share, of what flows between them and of what they read.
fn write_between(
    out: &mut String,
    alloc: Global,
    policy: &Policy,
    kernel: &Kernel,
    facts: &Facts,
) -> Result<(), AllocError>
    requires few { length kernel.now.state.objects ≤ 2 ^ 31 }
    requires facts { IsGathered (flows_of policy.now) policy.now kernel.now.state facts.now }
    ensures { OnOk result (string_bytes out.new ≡ string_bytes out.old ++ between_lines policy.now kernel.now.state (labels_of policy.now kernel.now.state)) }
{
    write_shared(
        out,
        alloc,
        policy,
        kernel,
        &facts.labels,
        &facts.list,
        &facts.shared,
    )?;
    write_flowing(
        out,
        alloc,
        policy,
        kernel,
        &facts.labels,
        &facts.list,
        &facts.flows,
    )?;
    write_reading(out, alloc, policy, kernel, &facts.labels, &facts.list)
}

/// What is told of the sides as a policy names them.
fn write_named(
    out: &mut String,
    alloc: Global,
    policy: &Policy,
    kernel: &Kernel,
    facts: &Facts,
    verdict: Verdict,
    new: &[u32],
    stuck: Option<Tie>,
) -> Result<(), AllocError>
    requires few { length kernel.now.state.objects ≤ 2 ^ 31 }
    requires facts { IsGathered (flows_of policy.now) policy.now kernel.now.state facts.now }
    ensures { OnOk result (string_bytes out.new ≡ string_bytes out.old
        ++ named_text policy.now kernel.now.state (labels_of policy.now kernel.now.state) new.now stuck verdict) }
{
    write_turn(out, kernel)?;
    write_judged(out, policy, &facts.labels, kernel, &facts.list, verdict)?;
    write_finest(out, policy, kernel, facts, new, stuck)?;
    write_between(out, alloc, policy, kernel, facts)?;
    write_processors(out, policy, kernel, &facts.labels, &facts.list)?;
    write_ties(out, policy, &facts.labels, &facts.ties)
}

/// What is told of the finest sides.
fn write_found(
    out: &mut String,
    alloc: Global,
    policy: &Policy,
    kernel: &Kernel,
    facts: &Facts,
    verdict: Verdict,
    new: &[u32],
) -> Result<(), AllocError>
    requires few { length kernel.now.state.objects ≤ 2 ^ 31 }
    requires facts { IsGathered [] policy.now kernel.now.state facts.now }
    ensures { OnOk result (string_bytes out.new ≡ string_bytes out.old
        ++ finest_text policy.now kernel.now.state (labels_of policy.now kernel.now.state) new.now verdict) }
{
    write_turn(out, kernel)?;
    write_judged(out, policy, new, kernel, &facts.list, verdict)?;
    write_sides(out, policy, new, kernel.objects())?;
    write_reading(out, alloc, policy, kernel, new, &facts.list)?;
    write_processors(out, policy, kernel, new, &facts.list)?;
    write_ties(out, policy, &facts.labels, &facts.ties)
}

/// What is told where there are no sides.
fn write_none(
    out: &mut String,
    policy: &Policy,
    kernel: &Kernel,
    facts: &Facts,
    tie: Tie,
) -> Result<(), AllocError>
    requires facts { IsGathered [] policy.now kernel.now.state facts.now }
    ensures { OnOk result (string_bytes out.new ≡ string_bytes out.old
        ++ stuck_text policy.now kernel.now.state (labels_of policy.now kernel.now.state) tie) }
{
    write_turn(out, kernel)?;
    write_stuck(out, policy, &facts.labels, &facts.list, tie)?;
    write_ties(out, policy, &facts.labels, &facts.ties)
}

fn tell_settled(
    alloc: Global,
    policy: &Policy,
    kernel: &Kernel,
    facts: &Facts,
    new: &[u32],
    stuck: Option<Tie>,
) -> Result<Told, AllocError>
    requires few { length kernel.now.state.objects ≤ 2 ^ 31 }
    requires facts { IsGathered (flows_of policy.now) policy.now kernel.now.state facts.now }
    requires settled { AreSettled (ties_beside (flows_of policy.now) policy.now kernel.now.state) (labels_of policy.now kernel.now.state) new.now stuck }
    ensures { IfOk result (λ t. IsNamedAnswer policy.now kernel.now.state t.answer (string_bytes t.text)) }
{
    let verdict = judge(alloc, kernel, &facts.labels, &facts.shared, &facts.flows)?;
    let mut text = String::new(alloc);
    write_named(&mut text, alloc, policy, kernel, facts, verdict, new, stuck)?;
    Ok(Told {
        answer: answer_of(are_two(&facts.labels), verdict),
        text,
    })
}

fn tell_named_by(
    alloc: Global,
    policy: &Policy,
    kernel: &Kernel,
    facts: &Facts,
    new: &mut [u32],
) -> Result<Told, AllocError>
    requires few { length kernel.now.state.objects ≤ 2 ^ 31 }
    requires facts { IsGathered (flows_of policy.now) policy.now kernel.now.state facts.now }
    requires labels { new.old ≡ labels_of policy.now kernel.now.state }
    ensures { IfOk result (λ t. IsNamedAnswer policy.now kernel.now.state t.answer (string_bytes t.text)) }
{
    let stuck = settle_in(new, &facts.ties);
    tell_settled(alloc, policy, kernel, facts, new, stuck)
}

fn tell_named(
    alloc: Global,
    policy: &Policy,
    kernel: &Kernel,
    facts: &Facts,
) -> Result<Told, AllocError>
    requires few { length kernel.now.state.objects ≤ 2 ^ 31 }
    requires facts { IsGathered (flows_of policy.now) policy.now kernel.now.state facts.now }
    ensures { IfOk result (λ t. IsNamedAnswer policy.now kernel.now.state t.answer (string_bytes t.text)) }
{
    let mut new = Vec::from_slice(alloc, &facts.labels)?;
    tell_named_by(alloc, policy, kernel, facts, &mut new)
}

fn tell_found(
    alloc: Global,
    policy: &Policy,
    kernel: &Kernel,
    facts: &Facts,
    new: &[u32],
) -> Result<Told, AllocError>
    requires few { length kernel.now.state.objects ≤ 2 ^ 31 }
    requires labels { length new.now ≤ 2 ^ 31 }
    requires facts { IsGathered [] policy.now kernel.now.state facts.now }
    requires finest { AreFinest (ties_beside [] policy.now kernel.now.state) (labels_of policy.now kernel.now.state) new.now }
    ensures { IfOk result (λ t. IsFinestAnswer policy.now kernel.now.state t.answer (string_bytes t.text)) }
{
    let verdict = judge(alloc, kernel, new, &facts.shared, &facts.flows)?;
    let mut text = String::new(alloc);
    write_found(&mut text, alloc, policy, kernel, facts, verdict, new)?;
    Ok(Told {
        answer: answer_of(are_two(new), verdict),
        text,
    })
}

fn tell_none(
    alloc: Global,
    policy: &Policy,
    kernel: &Kernel,
    facts: &Facts,
    tie: Tie,
) -> Result<Told, AllocError>
    requires facts { IsGathered [] policy.now kernel.now.state facts.now }
    requires stuck { IsStuck (ties_beside [] policy.now kernel.now.state) (label_in (labels_of policy.now kernel.now.state)) tie }
    ensures { IfOk result (λ t. IsFinestAnswer policy.now kernel.now.state t.answer (string_bytes t.text)) }
{
    let mut text = String::new(alloc);
    write_none(&mut text, policy, kernel, facts, tie)?;
    Ok(Told {
        answer: Answer::Stuck,
        text,
    })
}

fn tell_finest_by(
    alloc: Global,
    policy: &Policy,
    kernel: &Kernel,
    facts: &Facts,
    new: &mut [u32],
) -> Result<Told, AllocError>
    requires few { length kernel.now.state.objects ≤ 2 ^ 31 }
    requires facts { IsGathered [] policy.now kernel.now.state facts.now }
    requires labels { new.old ≡ labels_of policy.now kernel.now.state }
    ensures { IfOk result (λ t. IsFinestAnswer policy.now kernel.now.state t.answer (string_bytes t.text)) }
{
    let stuck = settle_in(new, &facts.ties);
    if new.len() > MOST {
        return Err(AllocError);
    }
    match stuck {
        Some(tie) => tell_none(alloc, policy, kernel, facts, tie),
        None => tell_found(alloc, policy, kernel, facts, new),
    }
}

fn tell_finest(
    alloc: Global,
    policy: &Policy,
    kernel: &Kernel,
    facts: &Facts,
) -> Result<Told, AllocError>
    requires few { length kernel.now.state.objects ≤ 2 ^ 31 }
    requires facts { IsGathered [] policy.now kernel.now.state facts.now }
    ensures { IfOk result (λ t. IsFinestAnswer policy.now kernel.now.state t.answer (string_bytes t.text)) }
{
    let mut new = Vec::from_slice(alloc, &facts.labels)?;
    tell_finest_by(alloc, policy, kernel, facts, &mut new)
}

/// What the sides of `policy` are in the present state of `kernel`, as it names them: whether they are isolated, but for semaphores that they share and
/// memory that flows between them by the policy, exactly, and whether what is trusted is at rest, exactly; with the finest sides to which they can be
/// joined, these semaphores, this memory and what two sides may read alone, with rights, which sides may take turns of which processor, and the ties of
/// sides to other domains. A number that the policy names, and that is no domain, counts for nothing. The only refusal is of memory.
pub fn answer_named(alloc: Global, policy: &Policy, kernel: &Kernel) -> Result<Told, AllocError>
    ensures { IfOk result (λ t. IsNamedAnswer policy.now kernel.now.state t.answer (string_bytes t.text)) }
{
    if kernel.objects().len() > MOST {
        return Err(AllocError);
    }
    let flows = policy.flows(alloc)?;
    let facts = gather(alloc, policy, kernel, flows)?;
    tell_named(alloc, policy, kernel, &facts)
}

/// What the finest sides are to which those of `policy` can be joined, in the present state of `kernel`, or the tie for which there are none. Between
/// them nothing flows: of the flows that the policy permits nothing is taken.
pub fn answer_finest(alloc: Global, policy: &Policy, kernel: &Kernel) -> Result<Told, AllocError>
    ensures { IfOk result (λ t. IsFinestAnswer policy.now kernel.now.state t.answer (string_bytes t.text)) }
{
    if kernel.objects().len() > MOST {
        return Err(AllocError);
    }
    let facts = gather(alloc, policy, kernel, Vec::new(alloc))?;
    tell_finest(alloc, policy, kernel, &facts)
}

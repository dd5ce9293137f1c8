// Lines that tell of each side whether the premises hold.
ghost use Rattle.std.specs.Prelude.{◌≡◌, ◌++◌, ◌&&◌, ◌≤◌, ◌^◌, ◌<◌, OnOk, not, codes, flat_map, length, option_map, string_bytes};
ghost use Rattle.std.specs.List.{enumerate_from, position, range_with_len};
ghost use Rattle.nova_ties.specs.Ties.{has_label, is_place};
ghost use Rattle.nova_flowing.specs.Lines.{begins_side, flow_line, flow_lines, flow_text, home_text, homes_text, doing_text, end_text, field_word, is_before, leak_text, place_text, revokes_from, verdict_text, within_text, work_text};
ghost use Rattle.nova_flowing.specs.Tests.{is_in};
ghost use Rattle.nova_flowing.specs.Working.{first_lapse, is_of_side, is_revoke, may_revoke, work_by};

use crate::deciding::{Verdict, decide};
use crate::lapse::{Lapse, LapseKind, Work};
use crate::leak::{Field, Leak, Place};
use crate::made::first_made;
use crate::sides::division_of;
use crate::tables::is_in;
use nova_kernel::{Derivation, Kernel};
use nova_naming::Policy;
use std::alloc::{AllocError, Global};

/// A field of the law's conditions.
fn field_word<'a>(field: Field) -> &'a str
    ensures { result.now ≡ field_word field }
{
    match field {
        Field::There => "IsClosed.there",
        Field::Disjoint => "AreSeparate.disjoint",
        Field::Capabilities => "IsClosed.capabilities",
        Field::Waiters => "IsClosed.edges",
        Field::Firsts => "IsClosed.firsts",
        Field::Rest => "AreSeparate.rest",
        Field::Objects => "AreSetsApart.objects",
        Field::Waits => "AreSetsApart.first",
        Field::Queues => "AreSetsApart.queues",
        Field::Holds => "IsSide.holds",
        Field::Handlers => "IsSide.handlers",
        Field::Edges => "IsSide.edges",
        Field::Callers => "IsSide.callers",
        Field::Queued => "IsSide.queues",
        Field::Blocked => "IsSide.blocked",
        Field::Members => "IsSide.members",
        Field::Owned => "IsGuarded.owned",
        Field::Semaphores => "IsGuarded.semaphores",
        Field::Lines => "IsGuarded.lines",
        Field::Memory => "IsGuarded.memory",
        Field::Contexts => "HasHome.contexts",
        Field::Schedules => "HasHome.schedules",
        Field::Rings => "HasHome.rings",
        Field::Others => "IsDivided.others",
        Field::Creates => "IsDivided.creates",
        Field::Derives => "DerivesWithin",
    }
}

/// What a premise fails of.
fn write_place(out: &mut String, place: Place) -> Result<(), AllocError>
    ensures { OnOk result (string_bytes out.new ≡ string_bytes out.old ++ place_text place) }
{
    match place {
        Place::Capability { cap, target } => writeln!(out, " cap {cap} target {target}"),
        Place::Object { object } => writeln!(out, " object {object}"),
        Place::Context { ec, cpu } => writeln!(out, " ec {ec} processor {cpu}"),
        Place::Source { source, cpu, sm } => {
            writeln!(out, " source {source} processor {cpu} sm {sm}")
        }
    }
}

fn write_home(out: &mut String, home: &[bool], cpu: u32) -> Result<(), AllocError>
    ensures { OnOk result (string_bytes out.new ≡ string_bytes out.old ++ home_text (is_in home.now) cpu) }
{
    if is_in(home, cpu) {
        write!(out, " {cpu}")
    } else {
        Ok(())
    }
}

/// The processors of a side.
fn write_homes(out: &mut String, home: &[bool], cpus: u32) -> Result<(), AllocError>
    ensures { OnOk result (string_bytes out.new ≡ string_bytes out.old ++ homes_text (is_in home.now) cpus) }
{
    for cpu in 0..cpus {
        write_home(out, home, cpu)?;
    }
    Ok(())
}

fn write_failing(out: &mut String, field: Field, place: Place) -> Result<(), AllocError>
    ensures { OnOk result (string_bytes out.new ≡ string_bytes out.old ++ (codes " " ++ (field_word field ++ place_text place))) }
{
    let word = field_word(field);
    write!(out, " {word}")?;
    write_place(out, place)
}

/// Why a side may not revoke.
fn write_leak(out: &mut String, leak: Option<Leak>) -> Result<(), AllocError>
    ensures { OnOk result (string_bytes out.new ≡ string_bytes out.old ++ leak_text leak) }
{
    match leak {
        Some(leak) => write_failing(out, leak.field, leak.place),
        None => out.push_str("\n"),
    }
}

/// Whether a turn comes before the one in which a side is no longer at work.
fn is_before(turn: u64, lapse: Option<Lapse>) -> bool
    ensures { result ≡ is_before turn lapse }
{
    match lapse {
        Some(lapse) => turn < lapse.turn,
        None => true,
    }
}

/// From which turn on a side at work revokes, by the turns in which it no longer is and in which it isn't without revokes.
fn revokes_from(lapse: Option<Lapse>, calm: Option<Lapse>) -> Option<u64>
    ensures { result ≡ revokes_from lapse calm }
{
    let turn = calm?.turn;
    if is_before(turn, lapse) {
        Some(turn)
    } else {
        None
    }
}

/// Something said before, and from which turn on a side revokes, if it does.
fn write_within(out: &mut String, said: &str, from: Option<u64>) -> Result<(), AllocError>
    ensures { OnOk result (string_bytes out.new ≡ string_bytes out.old ++ (said.now ++ within_text from)) }
{
    match from {
        Some(turn) => writeln!(out, "{said}, revokes within from turn {turn}"),
        None => writeln!(out, "{said}"),
    }
}

fn write_revoke(out: &mut String, leak: Option<Leak>) -> Result<(), AllocError>
    ensures { OnOk result (string_bytes out.new ≡ string_bytes out.old ++ (codes " revokes" ++ leak_text leak)) }
{
    out.push_str(" revokes")?;
    write_leak(out, leak)
}

/// What is done in the turn in which a side is no longer at work.
fn write_doing(
    out: &mut String,
    leak: Option<Leak>,
    from: Option<u64>,
    kind: LapseKind,
) -> Result<(), AllocError>
    ensures { OnOk result (string_bytes out.new ≡ string_bytes out.old ++ doing_text leak from kind) }
{
    match kind {
        LapseKind::Creates => write_within(out, " creates", from),
        LapseKind::Gives => write_within(out, " gives", from),
        LapseKind::Revokes => write_revoke(out, leak),
    }
}

fn write_lapse(
    out: &mut String,
    leak: Option<Leak>,
    from: Option<u64>,
    lapse: Lapse,
) -> Result<(), AllocError>
    ensures { OnOk result (string_bytes out.new ≡ string_bytes out.old ++ end_text leak from (Some lapse)) }
{
    let turn = lapse.turn;
    let ec = lapse.ec;
    write!(out, " at work until turn {turn}: ec {ec}")?;
    write_doing(out, leak, from, lapse.kind)
}

/// Until when a side is at work.
fn write_work(out: &mut String, work: Work) -> Result<(), AllocError>
    ensures { OnOk result (string_bytes out.new ≡ string_bytes out.old ++ work_text work) }
{
    let from = revokes_from(work.lapse, work.calm);
    match work.lapse {
        Some(lapse) => write_lapse(out, work.leak, from, lapse),
        None => write_within(out, " at work to the end", from),
    }
}

fn write_own(out: &mut String, home: &[bool], cpus: u32, work: Work) -> Result<(), AllocError>
    ensures { OnOk result (string_bytes out.new ≡ string_bytes out.old ++ verdict_text (is_in home.now) cpus work Verdict.Own) }
{
    out.push_str(" own")?;
    write_homes(out, home, cpus)?;
    write_work(out, work)
}

/// Whether the premises hold, in words.
fn write_verdict(
    out: &mut String,
    home: &[bool],
    cpus: u32,
    work: Work,
    verdict: Verdict,
) -> Result<(), AllocError>
    ensures { OnOk result (string_bytes out.new ≡ string_bytes out.old ++ verdict_text (is_in home.now) cpus work verdict) }
{
    match verdict {
        Verdict::Own => write_own(out, home, cpus, work),
        Verdict::Waits { ec } => writeln!(out, " waits ec {ec}"),
        Verdict::Fails { leak, .. } => write_failing(out, leak.field, leak.place),
    }
}

fn is_revoke(kind: LapseKind) -> bool
    ensures { result ≡ is_revoke kind }
{
    matches!(kind, LapseKind::Revokes)
}

/// Whether a lapse is one of a side's domains, where these may revoke or not.
fn is_of_side(revokes: bool, own: &[bool], l: Lapse) -> bool
    ensures { result ≡ is_of_side revokes (is_in own.now) l }
{
    is_in(own, l.pd) && is_in(own, l.amid) && !(revokes && is_revoke(l.kind))
}

fn lapse_in<'a>(revokes: bool, own: &[bool], lapses: &'a [Lapse]) -> Option<&'a Lapse>
    ensures { option_map (λ l. l.now) result ≡ first_lapse revokes (is_in own.now) lapses.now }
{
    lapses.iter().find(|&&l| is_of_side(revokes, own, l))
}

/// The first of some lapses that is of a side's domains.
fn first_lapse(revokes: bool, own: &[bool], lapses: &[Lapse]) -> Option<Lapse>
    ensures { result ≡ first_lapse revokes (is_in own.now) lapses.now }
{
    Some(*lapse_in(revokes, own, lapses)?)
}

/// Whether a side may revoke, by what others hold that was made of what it holds.
fn may_revoke(leak: Option<Leak>) -> bool
    ensures { result ≡ may_revoke leak }
{
    leak.is_none()
}

/// Until when a side is at work, by the lapses of a run. It may revoke where others hold nothing that was made of what it holds.
fn work_of(list: &[Derivation], own: &[bool], lapses: &[Lapse]) -> Work
    ensures { result ≡ work_by list.now (is_in own.now) lapses.now }
{
    let leak = first_made(list, own);
    Work {
        lapse: first_lapse(may_revoke(leak), own, lapses),
        calm: first_lapse(false, own, lapses),
        leak,
    }
}

/// A side in a line.
fn write_flow(
    alloc: Global,
    out: &mut String,
    policy: &Policy,
    kernel: &Kernel,
    list: &[Derivation],
    lapses: &[Lapse],
    labels: &[u32],
    label: u32,
) -> Result<(), AllocError>
    requires list { list.now ≡ kernel.now.state.delegations.list }
    requires labels { length labels.now ≤ length kernel.now.state.objects }
    ensures { OnOk result (string_bytes out.new ≡ string_bytes out.old ++ flow_text policy.now kernel.now.state lapses.now labels.now label) }
{
    let v = division_of(alloc, kernel, list, labels, label)?;
    let verdict = decide(kernel, list, &v);
    let work = work_of(list, &v.own, lapses);
    let cpus = kernel.cpus();
    out.push_str("flow ")?;
    policy.write_side(out, label)?;
    write_verdict(out, &v.home, cpus, work, verdict)
}

/// The first number with a label.
fn place_of(labels: &[u32], label: u32) -> Option<usize>
    ensures { result ≡ position (has_label label) labels.now }
{
    labels.iter().position(|&other| other == label)
}

fn is_place(n: usize, place: Option<usize>) -> bool
    ensures { result ≡ is_place n place }
{
    match place {
        Some(place) => place == n,
        None => false,
    }
}

/// Whether a number is the first of a side.
fn begins_side(labels: &[u32], n: usize, label: u32) -> bool
    ensures { result ≡ begins_side labels.now n label }
{
    label != 0 && is_place(n, place_of(labels, label))
}

fn write_flow_at(
    alloc: Global,
    out: &mut String,
    policy: &Policy,
    kernel: &Kernel,
    list: &[Derivation],
    lapses: &[Lapse],
    labels: &[u32],
    n: usize,
    label: u32,
) -> Result<(), AllocError>
    requires list { list.now ≡ kernel.now.state.delegations.list }
    requires labels { length labels.now ≤ length kernel.now.state.objects }
    ensures { OnOk result (string_bytes out.new ≡ string_bytes out.old ++ flow_line policy.now kernel.now.state lapses.now labels.now (n, label)) }
{
    if begins_side(labels, n, label) {
        write_flow(alloc, out, policy, kernel, list, lapses, labels, label)
    } else {
        Ok(())
    }
}

/// Writes of each side of `labels`, the labels of the domains of `kernel` by number, whether the premises of noninterference on divided processors hold
/// in its present state, of which `list` has all derivations. Where they hold: `own` with the side's processors; the first of `lapses` by which it is no
/// longer at work, where a revoke counts only if others hold what was made of what the side holds, of which the first is named; and, where it doesn't
/// count, from which turn on the side revokes. Else the first that fails, by the field of the law's conditions, with the capability, object, execution
/// context or source of which it does; or `waits` with an execution context of no side that is blocked, where only a deadline of such may be against it.
/// The only refusal is of memory.
pub fn write_flows(
    alloc: Global,
    out: &mut String,
    policy: &Policy,
    kernel: &Kernel,
    list: &[Derivation],
    lapses: &[Lapse],
    labels: &[u32],
) -> Result<(), AllocError>
    requires list { list.now ≡ kernel.now.state.delegations.list }
    requires labels { length labels.now ≤ length kernel.now.state.objects }
    ensures { OnOk result (string_bytes out.new ≡ string_bytes out.old ++ flow_lines policy.now kernel.now.state lapses.now labels.now) }
{
    for (n, label) in labels.iter().enumerate() {
        write_flow_at(alloc, out, policy, kernel, list, lapses, labels, n, *label)?;
    }
    Ok(())
}

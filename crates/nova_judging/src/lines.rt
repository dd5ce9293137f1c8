ghost use Rattle.std.specs.Prelude.{◌≡◌, ◌++◌, OnOk, codes, decimal, false, string_bytes, true};
ghost use Rattle.nova_model.specs.State.{pd_of};
ghost use Rattle.nova_report.specs.Words.{line_feed};
ghost use Rattle.nova_judging.specs.Lines.{breach_lines, cause_text, domain_text, is_untold, judged_lines, restless_lines, strict_text, stuck_lines, tie_line, tie_lines, tie_text, verdict_lines};
ghost use Rattle.nova_judging.specs.Roles.{role_lines};
ghost use Rattle.nova_judging.specs.Trails.{trail_lines};

use crate::labels::are_two;
use crate::roles::write_roles;
use crate::trails::{write_cause_trails, write_trail};
use nova_kernel::{Derivation, Kernel, Object};
use nova_naming::Policy;
use nova_sides::{Restless, Verdict};
use nova_ties::{Cause, Tie, label_of};
use std::alloc::AllocError;

/// The protection domain of the execution context `ec`.
pub(crate) fn domain_of(kernel: &Kernel, ec: u32) -> u32
    ensures { result ≡ pd_of kernel.now.state ec }
{
    match kernel.object(ec) {
        Some(Object::Ec { pd, .. }) => *pd,
        _ => u32::MAX,
    }
}

/// Writes `domain`, behind what its side is called.
pub(crate) fn write_domain(
    out: &mut String,
    policy: &Policy,
    labels: &[u32],
    domain: u32,
) -> Result<(), AllocError>
    ensures { OnOk result (string_bytes out.new ≡ string_bytes out.old ++ domain_text policy.now labels.now domain) }
{
    policy.write_side(out, label_of(labels, domain))?;
    write!(out, ":{domain}")
}

pub(crate) fn write_cause(out: &mut String, cause: Cause) -> Result<(), AllocError>
    ensures { OnOk result (string_bytes out.new ≡ string_bytes out.old ++ cause_text cause) }
{
    match cause {
        Cause::Domain(cap) => write!(out, "domain cap {cap}"),
        Cause::Context(cap) => write!(out, "context cap {cap}"),
        Cause::Portal(cap) => write!(out, "portal cap {cap}"),
        Cause::Scheduling(cap) => write!(out, "scheduling cap {cap}"),
        Cause::Frames(cap, other) => write!(out, "frames cap {cap} cap {other}"),
        Cause::Shared(cap, other) => write!(out, "shared cap {cap} cap {other}"),
        Cause::Waits(cap, ec) => write!(out, "waits cap {cap} ec {ec}"),
        Cause::Queue(ec, other) => write!(out, "queue ec {ec} ec {other}"),
        Cause::Serves(handler, ec) => write!(out, "serves ec {handler} ec {ec}"),
        Cause::Takes(handler, ec) => write!(out, "takes ec {handler} ec {ec}"),
        Cause::Gives(ec) => write!(out, "gives ec {ec}"),
    }
}

fn write_strict(out: &mut String, strict: bool) -> Result<(), AllocError>
    ensures { OnOk result (string_bytes out.new ≡ string_bytes out.old ++ strict_text strict) }
{
    out.push_str(if strict { " strict\n" } else { "\n" })
}

/// Writes the two domains of `tie`, and why they are tied.
fn write_tie(out: &mut String, policy: &Policy, labels: &[u32], tie: Tie) -> Result<(), AllocError>
    ensures { OnOk result (string_bytes out.new ≡ string_bytes out.old ++ tie_text policy.now labels.now tie) }
{
    write_domain(out, policy, labels, tie.from)?;
    out.push_str(" ")?;
    write_domain(out, policy, labels, tie.to)?;
    out.push_str(" ")?;
    write_cause(out, tie.cause)?;
    write_strict(out, tie.strict)
}

/// Whether `tie` is of what is trusted, or of a domain to itself.
fn is_untold(labels: &[u32], tie: Tie) -> bool
    ensures { result ≡ is_untold labels.now tie }
{
    label_of(labels, tie.from) == 0 || tie.to == tie.from
}

fn write_tie_line(
    out: &mut String,
    policy: &Policy,
    labels: &[u32],
    tie: Tie,
) -> Result<(), AllocError>
    ensures { OnOk result (string_bytes out.new ≡ string_bytes out.old ++ tie_line policy.now labels.now tie) }
{
    if is_untold(labels, tie) {
        return Ok(());
    }
    out.push_str("tie ")?;
    write_tie(out, policy, labels, tie)
}

/// Writes the ties of sides to other domains.
pub(crate) fn write_ties(
    out: &mut String,
    policy: &Policy,
    labels: &[u32],
    ties: &[Tie],
) -> Result<(), AllocError>
    ensures { OnOk result (string_bytes out.new ≡ string_bytes out.old ++ tie_lines policy.now labels.now ties.now) }
{
    for tie in ties {
        write_tie_line(out, policy, labels, *tie)?;
    }
    Ok(())
}

/// Writes `tie`, which sides don't respect, with where its capabilities came from.
fn write_breach(
    out: &mut String,
    policy: &Policy,
    labels: &[u32],
    list: &[Derivation],
    tie: Tie,
) -> Result<(), AllocError>
    ensures { OnOk result (string_bytes out.new ≡ string_bytes out.old ++ breach_lines policy.now labels.now list.now tie) }
{
    out.push_str("breach ")?;
    write_tie(out, policy, labels, tie)?;
    write_cause_trails(out, list, tie.cause)
}

/// Writes `tie`, which no sides respect, with where its capabilities came from.
pub(crate) fn write_stuck(
    out: &mut String,
    policy: &Policy,
    labels: &[u32],
    list: &[Derivation],
    tie: Tie,
) -> Result<(), AllocError>
    ensures { OnOk result (string_bytes out.new ≡ string_bytes out.old ++ stuck_lines policy.now labels.now list.now tie) }
{
    out.push_str("stuck ")?;
    write_tie(out, policy, labels, tie)?;
    write_cause_trails(out, list, tie.cause)
}

/// Writes `derivation`, a capability that leads to what is trusted, with where it came from.
fn write_leading(
    out: &mut String,
    policy: &Policy,
    labels: &[u32],
    list: &[Derivation],
    derivation: Derivation,
) -> Result<(), AllocError>
    ensures { OnOk result (string_bytes out.new ≡ string_bytes out.old ++ (codes "served leads " ++ (domain_text policy.now labels.now derivation.pd
        ++ (codes " cap " ++ (decimal derivation.id ++ (line_feed ++ trail_lines list.now derivation.id)))))) }
{
    let cap = derivation.id;
    out.push_str("served leads ")?;
    write_domain(out, policy, labels, derivation.pd)?;
    writeln!(out, " cap {cap}")?;
    write_trail(out, list, cap)
}

/// What is at work of what is trusted, or leads there.
fn write_restless(
    out: &mut String,
    policy: &Policy,
    labels: &[u32],
    kernel: &Kernel,
    list: &[Derivation],
    why: Restless,
) -> Result<(), AllocError>
    ensures { OnOk result (string_bytes out.new ≡ string_bytes out.old ++ restless_lines policy.now labels.now kernel.now.state list.now why) }
{
    match why {
        Restless::Astray(n) => writeln!(out, "served astray {n}"),
        Restless::Leads(derivation) => write_leading(out, policy, labels, list, derivation),
        Restless::Stirs(ec) => {
            let domain = domain_of(kernel, ec);
            writeln!(out, "served stirs ec {ec} domain {domain}")
        }
    }
}

/// Why not all that is trusted is at rest, and what each trusted domain is.
fn write_served(
    out: &mut String,
    policy: &Policy,
    labels: &[u32],
    kernel: &Kernel,
    list: &[Derivation],
    why: Restless,
) -> Result<(), AllocError>
    requires list { list.now ≡ kernel.now.state.delegations.list }
    ensures { OnOk result (string_bytes out.new ≡ string_bytes out.old
        ++ (restless_lines policy.now labels.now kernel.now.state list.now why ++ role_lines kernel.now.state labels.now)) }
{
    write_restless(out, policy, labels, kernel, list, why)?;
    write_roles(out, labels, kernel, list)
}

/// Writes `verdict`, on two sides.
fn write_verdict(
    out: &mut String,
    policy: &Policy,
    labels: &[u32],
    kernel: &Kernel,
    list: &[Derivation],
    verdict: Verdict,
) -> Result<(), AllocError>
    requires list { list.now ≡ kernel.now.state.delegations.list }
    ensures { OnOk result (string_bytes out.new ≡ string_bytes out.old ++ verdict_lines policy.now labels.now kernel.now.state list.now true verdict) }
{
    match verdict {
        Verdict::Apart => out.push_str("apart\n"),
        Verdict::Served(why) => write_served(out, policy, labels, kernel, list, why),
        Verdict::Breach(tie) => write_breach(out, policy, labels, list, tie),
    }
}

/// Writes `verdict`, where there are no two sides.
fn write_single(
    out: &mut String,
    policy: &Policy,
    labels: &[u32],
    kernel: &Kernel,
    list: &[Derivation],
    verdict: Verdict,
) -> Result<(), AllocError>
    ensures { OnOk result (string_bytes out.new ≡ string_bytes out.old ++ verdict_lines policy.now labels.now kernel.now.state list.now false verdict) }
{
    match verdict {
        Verdict::Breach(tie) => write_breach(out, policy, labels, list, tie),
        Verdict::Apart | Verdict::Served(_) => out.push_str("single\n"),
    }
}

/// Writes what the sides of labels are.
pub(crate) fn write_judged(
    out: &mut String,
    policy: &Policy,
    labels: &[u32],
    kernel: &Kernel,
    list: &[Derivation],
    verdict: Verdict,
) -> Result<(), AllocError>
    requires list { list.now ≡ kernel.now.state.delegations.list }
    ensures { OnOk result (string_bytes out.new ≡ string_bytes out.old ++ judged_lines policy.now labels.now kernel.now.state list.now verdict) }
{
    if are_two(labels) {
        write_verdict(out, policy, labels, kernel, list, verdict)
    } else {
        write_single(out, policy, labels, kernel, list, verdict)
    }
}

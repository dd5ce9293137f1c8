ghost use Rattle.std.specs.Prelude.{◌≡◌, ◌&&◌, ◌<◌, find, not, option_map};
ghost use Rattle.std.specs.List.{enumerate_from};
ghost use Rattle.nova_model.specs.State.{context_at};
ghost use Rattle.nova_model.specs.Times.{until_due};
ghost use Rattle.law_sides.specs.Resting.{is_nothing};
ghost use Rattle.nova_flowing.specs.Premises.{IsDecided, IsOf, fails, first_failing, first_waiting, is_blocked, is_waiting, unless_waiting, verdict_of, waits_in};

use crate::contexts::{blocked_at, is_of_neither};
use crate::division::Division;
use crate::leak::{Leak, Premise};
use crate::leaks::leak_in;
use nova_kernel::{Derivation, Kernel, Object};

/// Whether the premises hold of a side.
#[derive(Clone, Copy)]
pub enum Verdict {
    /// They do.
    Own,
    /// They do, if no deadline ends the wait of an execution context of neither. This is the first of these that is blocked where something is to come on
    /// its processor; whether that is its deadline, nothing that is read tells.
    Waits { ec: u32 },
    /// This is the first that doesn't hold, and why.
    Fails { premise: Premise, leak: Leak },
}

fn is_blocked(sm: Option<u32>) -> bool
    ensures { result ≡ is_blocked sm }
{
    sm.is_some()
}

fn comes(kernel: &Kernel, cpu: u32) -> bool
    ensures { result ≡ not (is_nothing (until_due kernel.now.state.times cpu)) }
{
    kernel.until_due(cpu).is_some()
}

/// Whether an execution context is of neither, and blocked, and something is to come on its processor.
fn waits_in(kernel: &Kernel, v: &Division, n: u32) -> bool
    ensures { result ≡ waits_in kernel.now.state v.now n (context_at kernel.now.state n) }
{
    match kernel.ec(n) {
        Some(context) => {
            is_of_neither(kernel, &v.own, &v.others, n)
                && is_blocked(blocked_at(context.state))
                && comes(kernel, context.cpu)
        }
        None => false,
    }
}

fn is_waiting(kernel: &Kernel, v: &Division, n: u32, object: Object) -> bool
    ensures { result ≡ is_waiting kernel.now.state v.now (n, object) }
{
    match object {
        Object::Ec { .. } => waits_in(kernel, v, n),
        _ => false,
    }
}

/// The first of these.
fn first_waiting(kernel: &Kernel, v: &Division) -> Option<u32>
    ensures { result ≡ first_waiting kernel.now.state v.now }
{
    for (i, object) in kernel.objects().iter().enumerate() {
        if is_waiting(kernel, v, i as u32, *object) {
            return Some(i as u32);
        }
    }
    None
}

fn fails(kernel: &Kernel, list: &[Derivation], v: &Division, premise: Premise) -> Option<Verdict>
    requires list { list.now ≡ kernel.now.state.delegations.list }
    ensures { result ≡ fails kernel.now.state v.now premise }
{
    match leak_in(kernel, list, v, premise) {
        Some(leak) => Some(Verdict::Fails { premise, leak }),
        None => None,
    }
}

/// The first premise that doesn't hold.
fn first_failing(kernel: &Kernel, list: &[Derivation], v: &Division) -> Option<Verdict>
    requires list { list.now ≡ kernel.now.state.delegations.list }
    ensures { result ≡ first_failing kernel.now.state v.now }
{
    fails(kernel, list, v, Premise::Apart).or(fails(kernel, list, v, Premise::Side).or(fails(
        kernel,
        list,
        v,
        Premise::Guarded,
    ).or(fails(kernel, list, v, Premise::Divided))))
}

fn unless_waiting(ec: Option<u32>) -> Verdict
    ensures { result ≡ unless_waiting ec }
{
    match ec {
        Some(ec) => Verdict::Waits { ec },
        None => Verdict::Own,
    }
}

/// Whether the premises of noninterference on divided processors hold of the side of `v` in the present state of `kernel`, of which `list` has all
/// derivations: exactly, but where an execution context of neither is blocked, and a deadline may end that. The first that doesn't hold is answered,
/// in the order of `Premise`, with its first field that fails.
pub fn decide(kernel: &Kernel, list: &[Derivation], v: &Division) -> Verdict
    requires list { list.now ≡ kernel.now.state.delegations.list }
    requires of { IsOf kernel.now.state v.now }
    ensures exact { result ≡ verdict_of kernel.now.state v.now }
    ensures decided { IsDecided kernel.now.state v.now result }
{
    kernel.actor(0);
    match first_failing(kernel, list, v) {
        Some(verdict) => verdict,
        None => unless_waiting(first_waiting(kernel, v)),
    }
}

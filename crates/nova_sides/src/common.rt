ghost use Rattle.std.specs.Prelude.{◌≡◌, ◌++◌, ◌<◌, not, option_to_list, OnOk, Some};
ghost use Rattle.nova_model.specs.Delegations.{is_memory};
ghost use Rattle.nova_model.specs.State.{pd_of};
ghost use Rattle.law_sides.specs.Tied.{is_blocked_at, strict, weak};
ghost use Rattle.nova_sides.specs.Among.{is_among};

use nova_kernel::{EcState, Kernel, Kind, Object, State};
use nova_ties::{Cause, Tie};
use std::alloc::AllocError;

pub(crate) fn weak(from: u32, to: u32, cause: Cause) -> Tie
    ensures { result ≡ weak from to cause }
{
    Tie {
        from,
        to,
        strict: false,
        cause,
    }
}

pub(crate) fn strict(from: u32, to: u32, cause: Cause) -> Tie
    ensures { result ≡ strict from to cause }
{
    Tie {
        from,
        to,
        strict: true,
        cause,
    }
}

pub(crate) fn push(out: &mut Vec<Tie>, tie: Option<Tie>) -> Result<(), AllocError>
    ensures { OnOk result (out.new.items ≡ out.old.items ++ option_to_list tie) }
{
    if let Some(tie) = tie {
        out.push(tie)?;
    }
    Ok(())
}

/// The protection domain of an execution context.
pub(crate) fn domain_of(kernel: &Kernel, ec: u32) -> u32
    ensures { result ≡ pd_of kernel.now.state ec }
{
    match kernel.object(ec) {
        Some(Object::Ec { pd, .. }) => *pd,
        _ => u32::MAX,
    }
}

/// Whether a number is among some.
pub(crate) fn is_among(list: &[u32], n: u32) -> bool
    ensures { result ≡ is_among list.now n }
{
    list.iter().any(|&other| other == n)
}

pub(crate) fn is_memory(kind: Kind) -> bool
    ensures { result ≡ is_memory kind }
{
    matches!(kind, Kind::Mem)
}

pub(crate) fn is_object(kind: Kind) -> bool
    ensures { result ≡ not (is_memory kind) }
{
    matches!(kind, Kind::Obj)
}

pub(crate) fn is_blocked_at(sm: u32, context: &EcState) -> bool
    ensures { result ≡ is_blocked_at sm context.now }
{
    match context.state {
        State::Blocked(other) => other == sm,
        _ => false,
    }
}

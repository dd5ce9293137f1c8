ghost use Rattle.std.specs.Prelude.{◌≡◌};
ghost use Rattle.nova_model.specs.Edges.{is_asking};
ghost use Rattle.nova_touching.specs.Whom.{is_among, is_moving, whom_asked, whom_of};

use nova_calls::{Call, SmAction, read_call};
use nova_kernel::{EcState, State};

/// Whom a turn may change, beside execution contexts of its own processor.
#[derive(Clone, Copy)]
pub(crate) enum Whom {
    Nobody,
    /// Contexts that are blocked at a semaphore.
    TheBlocked,
    Anybody,
}

impl Whom {
    /// Whether a context in this state is among them.
    pub(crate) fn has(self, state: State) -> bool
        ensures { result ≡ is_among self state }
    {
        match self {
            Whom::Nobody => false,
            Whom::TheBlocked => matches!(state, State::Blocked(_)),
            Whom::Anybody => true,
        }
    }
}

/// Whom the deed that `call` asks for may change.
fn whom_asked(call: &Call) -> Whom
    ensures { result ≡ whom_asked call.now }
{
    match call {
        Call::SmCtrl {
            action: SmAction::Up,
            ..
        } => Whom::TheBlocked,
        Call::EcCtrl { .. } | Call::CreateSc { .. } => Whom::Anybody,
        _ => Whom::Nobody,
    }
}

/// Whether a context in this state makes a hypercall, or is before an instruction that may be one.
fn is_asking(state: State) -> bool
    ensures { result ≡ is_asking state }
{
    matches!(state, State::Ready | State::Helping(_))
}

/// Whom the next deed of an execution context may change.
pub(crate) fn whom_of(context: &EcState) -> Whom
    ensures { result ≡ whom_of context.now }
{
    if !is_asking(context.state) {
        return Whom::Nobody;
    }
    match read_call(&context.regs) {
        Ok(call) => whom_asked(&call),
        Err(_) => Whom::Nobody,
    }
}

/// Whether the next deed of a context in this state may change where pages of memory lead.
pub(crate) fn is_moving(state: State) -> bool
    ensures { result ≡ is_moving state }
{
    matches!(
        state,
        State::Granting(_) | State::Replying | State::Revoking(..)
    )
}

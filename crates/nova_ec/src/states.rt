ghost use Rattle.std.specs.Prelude.{◌≡◌, None, if◌then◌else◌};
ghost use Rattle.nova_model.specs.Edges.{edge_of, acts_by};
ghost use Rattle.nova_model.specs.declared.context.State.TheVariants.{Granting, Ready};

use nova_model::State;

/// The handler that an execution context in `state` waits for.
#[inline(always)]
pub(crate) fn edge_of(state: State) -> Option<u32>
    ensures { result ≡ edge_of state }
{
    match state {
        State::Calling(handler) | State::Helping(handler) | State::Sending(_, _, _, handler) => {
            Some(handler)
        }
        State::Fresh
        | State::Ready
        | State::Parked
        | State::Exiting(..)
        | State::Granting(_)
        | State::Replying
        | State::Revoking(..)
        | State::Blocked(_)
        | State::Dead => None,
    }
}

/// Whether an execution context in `state` acts, where its handler is in the state `handler`.
pub(crate) fn acts_by(state: State, handler: Option<State>) -> bool
    ensures { result ≡ acts_by state handler }
{
    match state {
        State::Fresh
        | State::Ready
        | State::Exiting(..)
        | State::Granting(_)
        | State::Replying
        | State::Revoking(..) => true,
        State::Parked | State::Blocked(_) | State::Dead => false,
        State::Calling(_) => matches!(handler, Some(State::Dead)),
        State::Helping(_) | State::Sending(..) => {
            matches!(handler, Some(State::Parked | State::Dead))
        }
    }
}

/// What a handler is about to do at the beginning of a call or an exit: it takes the items first, where
/// there are any.
#[inline(always)]
pub(crate) fn entry_state(items: bool) -> State
    ensures { result ≡ (if items then Granting None else Ready) }
{
    if items {
        State::Granting(None)
    } else {
        State::Ready
    }
}

ghost use Rattle.std.specs.Prelude.{◌≡◌, IfOk, IsSome};
ghost use Rattle.nova_model.specs.State.{context_at};
ghost use Rattle.nova_model.specs.Views.{guest_state, view};
ghost use Rattle.nova_turn.specs.Parts.{state_of};

use nova_guest::{Cells, Guest, GuestState, Maps};
use nova_model::State;
use nova_turn::Parts;
use std::alloc::{AllocError, Global};

/// The state of a virtual CPU in `state`, as a guest has it: an exit that is raised and not sent is the same whether it waits for its handler or not.
fn guest_state(state: State) -> GuestState
    ensures { result ≡ guest_state state }
{
    match state {
        State::Fresh => GuestState::Fresh,
        State::Ready => GuestState::Ready,
        State::Exiting(reason, q0, q1) | State::Sending(reason, q0, q1, _) => {
            GuestState::Exit { reason, q0, q1 }
        }
        State::Calling(_) => GuestState::Waiting,
        _ => GuestState::Dead,
    }
}

/// The view of the execution context `ec`: the guest that the state has in it.
#[tactic(auto, unfolding(nova_model::specs::Views::view))]
pub fn guest_of(parts: &Parts, alloc: Global, ec: u32) -> Result<Guest, AllocError>
    requires { IsSome (context_at (state_of parts.now) ec) }
    ensures { IfOk result (λ guest. guest ≡ view (state_of parts.now) ec) }
{
    let maps = parts.reach.maps(alloc, parts.pd(ec))?;
    let cells = parts.reach.cells(alloc, &maps)?;
    let context = parts.contexts.context(ec);
    Ok(Guest {
        regs: context.regs,
        state: guest_state(context.state),
        recall: context.recall,
        maps: Maps::new(maps),
        cells: Cells::new(cells),
    })
}

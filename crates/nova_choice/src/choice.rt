ghost use Rattle.std.specs.Prelude.{◌≡◌, slice_get, IsSome, IfSome};
ghost use Rattle.nova_model.specs.State.{ec_in};
ghost use Rattle.nova_ec.specs.Tables.{actor_in};
ghost use Rattle.nova_choice.specs.Schedules.{actor_of, called_at, is_ready_at};

use nova_ec::Ecs;
use nova_model::{Object, State};
use nova_objects::Objects;

/// A scheduling context that has a turn, and the execution context that acts in it.
#[derive(Clone, Copy)]
pub struct Chosen {
    pub sc: u32,
    pub actor: u32,
}

/// Whether the execution context `ec` is ready, so that it acts in its own turns.
fn is_ready(contexts: &Ecs, ec: u32) -> bool
    ensures { result ≡ is_ready_at (ec_in contexts.now.items ec) }
{
    match contexts.get(ec) {
        Some(context) => matches!(context.state, State::Ready),
        None => false,
    }
}

/// The handler that the execution context `ec` called, where it waits for a reply.
fn called(contexts: &Ecs, ec: u32) -> Option<u32>
    ensures { result ≡ called_at (ec_in contexts.now.items ec) }
{
    match contexts.get(ec)?.state {
        State::Calling(handler) => Some(handler),
        _ => None,
    }
}

/// The execution context that acts in the turns of `ec`, which is not ready: the end of its chase, where that acts. Most wait for the reply of a
/// handler that is ready. Few turns need it, so that it stays out of the code of each choice.
#[inline(never)]
#[tactic(auto, using(crate::proofs::Handlers::handler_acts))]
fn chased_actor(contexts: &Ecs, ec: u32) -> Option<u32>
    ensures actor { result ≡ actor_in contexts.now.items ec }
    ensures there { IfSome result (λ actor. IsSome (ec_in contexts.now.items actor)) }
{
    contexts.keeps_edges();
    if let Some(handler) = called(contexts, ec)
        && is_ready(contexts, handler)
    {
        return Some(handler);
    }
    contexts.actor(ec)
}

/// The execution context that acts in the turns of the scheduling context `sc`; none where none acts, and of another object.
#[inline(always)]
pub fn actor_of(objects: &Objects, contexts: &Ecs, sc: u32) -> Option<u32>
    ensures actor { result ≡ actor_of contexts.now.items (slice_get objects.now.items sc) }
    ensures there { IfSome result (λ actor. IsSome (ec_in contexts.now.items actor)) }
{
    match objects.get(sc) {
        Some(Object::Sc { ec, .. }) if is_ready(contexts, *ec) => Some(*ec),
        Some(Object::Sc { ec, .. }) => chased_actor(contexts, *ec),
        _ => None,
    }
}

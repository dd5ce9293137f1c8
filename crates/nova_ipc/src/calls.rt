//! Calls, and the replies to them.

ghost use Rattle.std.specs.Prelude.{◌≡◌, false, IsTrue};
ghost use Rattle.nova_utcb.specs.Messages.{copied, has_counts, has_items};
ghost use Rattle.nova_model.specs.Calls.{admitted};
ghost use Rattle.nova_model.specs.declared.admit.Admit.TheVariants.{Help, Send};
ghost use Rattle.nova_ec.specs.Tables.{with_items};
ghost use Rattle.nova_ipc.specs.CallEffects.{sent_among, helped_among};

pub mod laws;
mod replies;

use nova_ec::{Ecs, Mark, State};
pub use nova_model::Admit;
use nova_range::Status;
use nova_utcb::Utcb;
pub use replies::{abort, answer, complete};

/// What comes of a call to a handler, with or without its flag, which says not to wait. The first of
/// these holds: `BadCpu` where one of both isn't there, or they are on two processors; `Aborted` where
/// the handler is dead, or following edges from it meets the caller; `Send` where it is parked;
/// `Timeout` with the flag; `Help` without it.
#[inline(always)]
pub fn admit(ecs: &Ecs, caller: u32, handler: u32, flag: bool) -> Admit
    ensures { result ≡ admitted ecs.now.items caller handler flag }
{
    if !ecs.share_processor(handler, caller) {
        return Admit::Refused(Status::BadCpu);
    }
    if ecs.is_lost(handler, caller) {
        return Admit::Refused(Status::Aborted);
    }
    if ecs.is_parked(handler) {
        return Admit::Send;
    }
    if flag {
        return Admit::Refused(Status::Timeout);
    }
    Admit::Help
}

/// A call begins at a handler that takes it, once its message is copied. The caller is then `Calling` the
/// handler. The handler serves the caller: it begins at `ip` with the portal's identifier in x10, and takes
/// the items first, where there are any.
#[tactic(auto, using(crate::proofs::CallAdmits::send_edge, crate::proofs::CallAdmits::handler_stays, crate::proofs::CallAdmits::may_serve))]
pub fn begin(ecs: &mut Ecs, caller: u32, handler: u32, ip: u32, id: u32, items: bool)
    requires { admitted ecs.old.items caller handler false ≡ Send }
    ensures { ecs.new ≡ with_items ecs.old (sent_among ecs.old.items caller handler ip id items) }
{
    ecs.set_state(caller, State::Calling(handler));
    ecs.serve(handler, caller, Mark::Call, ip, id, items);
}

/// Sends a call to a handler that takes it. The message is copied: word 0, and the untyped words that
/// it counts. The caller is then `Calling` the handler. The handler serves the caller: it begins at
/// `ip` with the portal's identifier in x10, and takes the items first, where there are any.
pub fn send(ecs: &mut Ecs, from: &Utcb, to: &mut Utcb, caller: u32, handler: u32, ip: u32, id: u32)
    requires taken { admitted ecs.old.items caller handler false ≡ Send }
    requires counts { IsTrue (has_counts from.now) }
    ensures contexts { ecs.new ≡ with_items ecs.old (sent_among ecs.old.items caller handler ip id (has_items from.now)) }
    ensures message { to.new ≡ copied from.now to.old }
{
    to.copy_words(from);
    begin(ecs, caller, handler, ip, id, from.has_items());
}

/// A call without the flag found its handler busy: the caller is then `Helping` it, and nothing else
/// changes.
#[tactic(auto, using(crate::proofs::CallAdmits::help_edge))]
pub fn help(ecs: &mut Ecs, caller: u32, handler: u32)
    requires { admitted ecs.old.items caller handler false ≡ Help }
    ensures { ecs.new ≡ with_items ecs.old (helped_among ecs.old.items caller handler) }
{
    ecs.set_state(caller, State::Helping(handler));
}

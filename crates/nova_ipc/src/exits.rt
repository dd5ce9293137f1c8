//! Exits, and the replies to them.

ghost use Rattle.std.specs.Prelude.{◌≡◌, IsSome, Some, option_map};
ghost use Rattle.nova_utcb.specs.Messages.{exited};
ghost use Rattle.nova_model.specs.Calls.{exit_admitted};
ghost use Rattle.nova_model.specs.Exits.{raised_exit};
ghost use Rattle.nova_model.specs.State.{ec_in, ec_of};
ghost use Rattle.nova_model.specs.declared.admit.ExitAdmit.TheVariants.{Sends, Waits};
ghost use Rattle.nova_ec.specs.Tables.{with_items};
ghost use Rattle.nova_ipc.specs.ExitEffects.{raised_among, waiting_among, exit_sent_among, dead_among};

pub mod laws;
mod replies;

use nova_ec::{Ecs, Mark, State};
pub use nova_model::ExitAdmit;
use nova_range::Mtd;
use nova_utcb::Utcb;
pub use replies::write_back;

/// Raises an exit of the execution context `ec`, by `reason` and two qualifications: it is then `Exiting`, and its registers stay.
pub fn raise(ecs: &mut Ecs, ec: u32, reason: u32, q0: u32, q1: u32)
    requires { IsSome (ec_in ecs.old.items ec) }
    ensures { ecs.new ≡ with_items ecs.old (raised_among ecs.old.items ec reason q0 q1) }
{
    ecs.set_state(ec, State::Exiting(reason, q0, q1));
}

/// What comes of an exit of `ec` at `handler`, that of the portal that was found for it. The first of these
/// holds: `Dies` where either isn't there, they are on two processors, the handler is dead, or following edges
/// from it meets `ec`; `Sends` where it is parked; else `Waits`.
pub fn admit(ecs: &Ecs, ec: u32, handler: u32) -> ExitAdmit
    ensures { result ≡ exit_admitted ecs.now.items ec handler }
{
    if !ecs.share_processor(handler, ec) || ecs.is_lost(handler, ec) {
        return ExitAdmit::Dies;
    }
    if ecs.is_parked(handler) {
        ExitAdmit::Sends
    } else {
        ExitAdmit::Waits
    }
}

/// Makes `ec`, whose exit found `handler` busy, `Sending`, with the exit's reason and qualifications; nothing else changes.
#[tactic(auto, using(crate::proofs::ExitAdmits::wait_edge))]
pub fn wait(ecs: &mut Ecs, ec: u32, handler: u32, reason: u32, q0: u32, q1: u32)
    requires { exit_admitted ecs.old.items ec handler ≡ Waits }
    ensures { ecs.new ≡ with_items ecs.old (waiting_among ecs.old.items ec handler reason q0 q1) }
{
    ecs.set_state(ec, State::Sending(reason, q0, q1, handler));
}

/// Sends the exit that `ec` raised to `handler`, which takes it. The handler finds its message: the groups that
/// the descriptor names, of the exit's qualifications and of the registers of `ec`, which is then `Calling` the
/// handler. The handler serves it by an exit: it begins at `ip` with the portal's identifier in x10.
#[tactic(auto, using(crate::proofs::ExitAdmits::send_edge, crate::proofs::ExitAdmits::handler_stays, crate::proofs::ExitAdmits::may_serve))]
pub fn send(ecs: &mut Ecs, to: &mut Utcb, ec: u32, handler: u32, ip: u32, id: u32, mtd: Mtd)
    requires taken { exit_admitted ecs.old.items ec handler ≡ Sends }
    requires raised { IsSome (raised_exit (ec_of ecs.old.items ec).state) }
    ensures contexts { ecs.new ≡ with_items ecs.old (exit_sent_among ecs.old.items ec handler ip id) }
    ensures message { Some to.new ≡ option_map (λ e. exited mtd e.1 e.2 (ec_of ecs.old.items ec).regs to.old) (raised_exit (ec_of ecs.old.items ec).state) }
{
    let (State::Exiting(_, q0, q1) | State::Sending(_, q0, q1, _)) = ecs.context(ec).state else {
        unreachable!();
    };
    to.put_state(mtd, q0, q1, &ecs.context(ec).regs);
    ecs.set_state(ec, State::Calling(handler));
    ecs.serve(handler, ec, Mark::Exit, ip, id, false);
}

/// Ends the execution context `ec`: it is then `Dead`, and all else of it stays.
pub fn die(ecs: &mut Ecs, ec: u32)
    requires { IsSome (ec_in ecs.old.items ec) }
    ensures { ecs.new ≡ with_items ecs.old (dead_among ecs.old.items ec) }
{
    ecs.set_state(ec, State::Dead);
}

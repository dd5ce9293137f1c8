ghost use Rattle.std.specs.Prelude.{◌≡◌, IsSome, IsTrue};
ghost use Rattle.nova_utcb.specs.Messages.{copied, has_counts};
ghost use Rattle.nova_model.specs.State.{ec_in};
ghost use Rattle.nova_ec.specs.Tables.{with_items};
ghost use Rattle.nova_ipc.specs.CallEffects.{served_call, replied_among, aborted_among};

use nova_ec::Ecs;
use nova_range::Status;
use nova_utcb::Utcb;

/// Copies the message `from` of a reply into `to`: word 0, and the untyped words that it counts. All other words of the caller stay.
pub fn answer(from: &Utcb, to: &mut Utcb)
    requires { IsTrue (has_counts from.now) }
    ensures { to.new ≡ copied from.now to.old }
{
    to.copy_words(from);
}

/// Completes the reply of `handler` to a call. The handler, which serves one, is parked, without a caller and
/// with its registers. Its caller's call ends with `Success`: it is `Ready`, the status is in its x10, and its
/// pc is after the call.
pub fn complete(ecs: &mut Ecs, handler: u32)
    requires { IsSome (served_call ecs.old.items handler) }
    ensures { ecs.new ≡ with_items ecs.old (replied_among ecs.old.items handler (served_call ecs.old.items handler)) }
{
    ecs.keeps_callers();
    let Some((caller, _)) = ecs.context(handler).caller else {
        unreachable!();
    };
    ecs.park(handler);
    ecs.answer(caller, Status::Success, None);
}

/// Ends the call of `caller`, whose handler is dead, with `Aborted`. The caller, which is there, is `Ready`,
/// the status is in its x10, and its pc is after the call. The handler's record stays.
pub fn abort(ecs: &mut Ecs, caller: u32)
    requires { IsSome (ec_in ecs.old.items caller) }
    ensures { ecs.new ≡ with_items ecs.old (aborted_among ecs.old.items caller) }
{
    ecs.answer(caller, Status::Aborted, None);
}

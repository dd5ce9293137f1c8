ghost use Rattle.std.specs.Prelude.{◌≡◌, IsSome};
ghost use Rattle.nova_ec.specs.Tables.{with_items};
ghost use Rattle.nova_ipc.specs.ExitEffects.{served_exit, exit_replied_among};

use nova_ec::Ecs;
use nova_utcb::Utcb;

/// Completes the reply of `handler` to an exit, whose words are `message`. The handler, which serves one, is
/// parked, without a caller and with its registers. Of its caller's registers those groups are written back
/// that the handler's message names, and the caller is `Ready`.
pub fn write_back(ecs: &mut Ecs, message: &Utcb, handler: u32)
    requires { IsSome (served_exit ecs.old.items handler) }
    ensures { ecs.new ≡ with_items ecs.old (exit_replied_among ecs.old.items handler message.now (served_exit ecs.old.items handler)) }
{
    ecs.keeps_callers();
    let Some((caller, _)) = ecs.context(handler).caller else {
        unreachable!();
    };
    ecs.park(handler);
    let mut regs = ecs.context(caller).regs;
    message.take_state(&mut regs);
    ecs.resume(caller, &regs);
}

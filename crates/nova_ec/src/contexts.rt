ghost use Rattle.std.specs.Prelude.{◌≡◌};
ghost use Rattle.nova_model.specs.Deeds.{answered, answered_registers, entered, serving};

use crate::states::entry_state;
use nova_model::{EcState, Mark, State};
use nova_range::Status;
use rv_core::Regs;

/// Ends a hypercall in `regs`: `status` in x10, `value` in x11, and pc after the instruction.
fn answer_registers(regs: &mut Regs, status: Status, value: Option<u32>)
    ensures { regs.new ≡ answered_registers regs.old status value }
{
    regs.set(10, status.code());
    if let Some(value) = value {
        regs.set(11, value);
    }
    let next = regs.pc().wrapping_add(4);
    regs.set_pc(next);
}

/// Lets a handler begin a call or an exit in `regs`: its portal's `identifier` in x10, and pc at `ip`.
fn enter(regs: &mut Regs, ip: u32, identifier: u32)
    ensures { regs.new ≡ entered regs.old ip identifier }
{
    regs.set(10, identifier);
    regs.set_pc(ip);
}

/// Ends the hypercall of `context` with `status`, and perhaps `value`.
#[inline(always)]
pub(crate) fn end_hypercall(context: &mut EcState, status: Status, value: Option<u32>)
    ensures { context.new ≡ answered context.old status value }
{
    answer_registers(&mut context.regs, status, value);
    context.state = State::Ready;
}

/// Lets the handler `context` begin the call or the exit of `caller`. Where a call has items it takes them first.
#[inline(always)]
pub(crate) fn begin(
    context: &mut EcState,
    caller: u32,
    mark: Mark,
    ip: u32,
    identifier: u32,
    items: bool,
)
    ensures { context.new ≡ serving context.old caller mark ip identifier items }
{
    enter(&mut context.regs, ip, identifier);
    context.state = entry_state(items);
    context.caller = Some((caller, mark));
}

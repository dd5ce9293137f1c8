ghost use Rattle.std.specs.Prelude.{◌<◌};

use crate::rows::Row;
use nova_calls::{Call, SmAction, numbers, read_call};
use nova_objects::EcKind;
use nova_range::Status;
use rv_model::Regs;

/// What is read of a call with one of its arguments, the others being such as each call takes.
pub(crate) fn read_with(number: u32, register: u32, argument: u32) -> Result<Call, Status>
    requires { register < 32 }
{
    let mut regs = Regs::new(0, 0);
    regs.set(10, 1);
    regs.set(13, 1 << 8);
    regs.set(17, number);
    regs.set(register, argument);
    read_call(&regs)
}

/// The name of what a call is read as, by its kind, its operation or its flag.
fn name_of(call: Result<Call, Status>) -> &'static str {
    match call {
        Ok(Call::CreateEc { kind, .. }) => match kind {
            EcKind::Local => "NOVA_LOCAL",
            EcKind::Global => "NOVA_GLOBAL",
            EcKind::Vcpu => "NOVA_VCPU",
        },
        Ok(Call::SmCtrl { action, .. }) => match action {
            SmAction::Up => "NOVA_UP",
            SmAction::Down => "NOVA_DOWN",
            SmAction::DownWithin(_) => "NOVA_DOWN_WITH_DEADLINE",
        },
        Ok(Call::Call { flag: true, .. }) => "NOVA_DONT_WAIT",
        Ok(Call::Call { flag: false, .. }) => "NOVA_WAIT",
        Ok(Call::Revoke { own: true, .. }) => "NOVA_SELF",
        Ok(Call::Revoke { own: false, .. }) => "NOVA_OTHERS",
        _ => "",
    }
}

/// `number` as that which four calls are read by.
fn read_as(number: u32) -> [Row; 4] {
    [
        (
            name_of(read_with(numbers::CREATE_EC, 12, number << 8)),
            number,
        ),
        (name_of(read_with(numbers::SM_CTRL, 11, number)), number),
        (name_of(read_with(numbers::CALL, 11, number)), number),
        (name_of(read_with(numbers::REVOKE, 11, number)), number),
    ]
}

/// What numbers are read as arguments of calls.
pub(crate) fn arguments() -> [[Row; 4]; 4] {
    [read_as(0), read_as(1), read_as(2), read_as(3)]
}

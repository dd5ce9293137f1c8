ghost use Rattle.std.specs.Prelude.{OnOk, OnErr};
ghost use Rattle.nova_io.specs.Faults.{Stay, NeverFalls};
ghost use Rattle.nova_answers.specs.Fetches.{AllOthersStay};
ghost use Rattle.nova_answers.specs.Main.{IsOrderOut, IsOrderCut, HasOrderFailed};
ghost use Rattle.nova_answers.specs.Names.{appended_names};
ghost use Rattle.nova_io.specs.Outside.{depots, sinks};
ghost use Rattle.nova_answers.specs.Sent.{IsSent};

use crate::exit::Exit;
use crate::outcome::Outcome;
use nova_command::Command;
use nova_io::{Depot, Failed, Sink, append_all, write_all};

/// Appends `order`, the text of an order, to the file that `command` names for it. Only `run` names one.
fn send_order<D: Depot>(command: &Command, depot: &mut D, order: &[u8]) -> Result<(), Failed>
    ensures whole { OnOk result (IsOrderOut (depots D.files D.gave D.fetch_failed D.fetch_faults D.took D.append_failed D.append_faults) command.now order.now depot.old depot.new) }
    ensures part { OnErr result (IsOrderCut (depots D.files D.gave D.fetch_failed D.fetch_faults D.took D.append_failed D.append_faults) command.now order.now depot.old depot.new) }
    ensures failed { OnErr result (HasOrderFailed (depots D.files D.gave D.fetch_failed D.fetch_faults D.took D.append_failed D.append_faults) command.now depot.old depot.new) }
    ensures fetches { Stay (D.fetch_faults depot.old) (D.fetch_faults depot.new) }
    ensures others { AllOthersStay D.append_faults (appended_names command.now) depot.old depot.new }
{
    match command {
        Command::Run {
            scenario: _,
            order: name,
            limit: _,
        } => append_all(depot, name.as_str(), order),
        Command::Solo { .. }
        | Command::Check { .. }
        | Command::Bench { .. }
        | Command::Twin { .. } => Ok(()),
    }
}

/// Appends the order of `outcome`, which `command` made, and then writes its text to `out`.
pub fn send<D: Depot, O: Sink>(
    command: &Command,
    outcome: &Outcome,
    depot: &mut D,
    out: &mut O,
) -> Exit
    ensures sent { IsSent (depots D.files D.gave D.fetch_failed D.fetch_faults D.took D.append_failed D.append_faults) (sinks O.written O.took O.write_failed O.faults) command.now outcome.now result depot.old depot.new out.old out.new }
    ensures fetches { Stay (D.fetch_faults depot.old) (D.fetch_faults depot.new) }
    ensures others { AllOthersStay D.append_faults (appended_names command.now) depot.old depot.new }
{
    let Ok(()) = send_order(command, depot, &outcome.order) else {
        return Exit::WriteFault;
    };
    match write_all(out, &outcome.text) {
        Ok(()) if outcome.is_complete => Exit::Done,
        Ok(()) => Exit::Limit,
        Err(_) => Exit::WriteFault,
    }
}

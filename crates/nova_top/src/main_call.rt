ghost use Rattle.std.specs.Prelude.{◌≡◌, ◌⊎◌, map, string_bytes, None, IfSome};
ghost use Rattle.nova_command.specs.Command.{command, HasBounds};
ghost use Rattle.nova_answers.specs.Exit.{IsUnwritten};
ghost use Rattle.nova_answers.specs.Fetches.{Calls, HasFiles, AllOthersStay, OtherFetchesStay, appended_before};
ghost use Rattle.nova_answers.specs.Main.{IsAnswer};
ghost use Rattle.nova_io.specs.Outside.{depots, sinks};
ghost use Rattle.nova_answers.specs.Servable.{IsServable, IsDoneOrStopped};

use crate::prepared::prepare;
use nova_answers::{Exit, send};
use nova_command::{Command, read_command};
use nova_io::{Depot, Sink};
use nova_run::Gate;
use std::alloc::Global;
use std::sync::Wait;
use std::thread::Threads;

/// Makes what `command` asks for, and sends it out.
fn serve<R: Threads + Wait + Sync, D: Depot, O: Sink, G: Gate + Sync>(
    rt: &R,
    alloc: Global,
    command: &Command,
    depot: &mut D,
    out: &mut O,
    gate: &G,
) -> Exit
    requires { HasBounds command.now }
    ensures answer { IsAnswer (depots D.files D.gave D.fetch_failed D.fetch_faults D.took D.append_failed D.append_faults) (sinks O.written O.took O.write_failed O.faults) command.now result depot.old depot.new out.old out.new }
    ensures complete { IsServable (depots D.files D.gave D.fetch_failed D.fetch_faults D.took D.append_failed D.append_faults) (sinks O.written O.took O.write_failed O.faults) command.now depot.old depot.new out.old out.new
        → IsDoneOrStopped result }
    ensures unwritten { IsUnwritten result → out.new ≡ out.old }
    ensures calls { Calls (depots D.files D.gave D.fetch_failed D.fetch_faults D.took D.append_failed D.append_faults) command.now result depot.old depot.new }
    ensures others { OtherFetchesStay (depots D.files D.gave D.fetch_failed D.fetch_faults D.took D.append_failed D.append_faults) command.now depot.old depot.new }
    ensures appends { AllOthersStay D.append_faults (appended_before result command.now) depot.old depot.new }
    ensures files { HasFiles (depots D.files D.gave D.fetch_failed D.fetch_faults D.took D.append_failed D.append_faults) command.now result depot.old depot.new }
{
    match prepare(rt, alloc, command, depot, gate) {
        Ok(outcome) => send(command, &outcome, depot, out),
        Err(exit) => exit,
    }
}

/// The top call: does the command that the words ask for, over the depot's files, and writes its text
/// to `out`. The words are those after the program's own name: `run SCENARIO ORDER`, `solo SCENARIO`, `solo SCENARIO ORDER`,
/// `check SCENARIO`, `bench NUMBER` or `twin NAME`, with `--limit N` anywhere among them, from 1 to 10,000,000 turns, 1,000,000
/// where it isn't given. NUMBER is from 1 to 90,000.
///
/// `run` runs the scenario from its boot state with a thread for each processor. Whatever the threads did, there is one order of turns: its text is
/// appended to ORDER, and the text that is written is the report of the run over it with its trace. `solo` runs the scenario over round robin of at
/// most N turns, or over the order that was read from ORDER, and appends nothing. `bench` runs the scenario that `generated` gives, which is valid
/// and of one processor, so that its order is round robin; it writes a line that sums the run up, and does nothing to the depot. None of a run's
/// turns is idle, and it has at most N turns. Delegations are a sound forest after each part of it. Where the event of a turn answers SUCCESS to a
/// revoke, the turn ends the revoke that its caller began in an earlier turn, of the range and with the flag that its registers had then, and has run
/// ever since. Nothing of that revoke's scope is left: no derivation leads to what an ancestor of it, of the revoker's, leads to from a place of the
/// range; nor, where the revoker's own go too, has the revoker one that lies in the range. From the turn that made it on each virtual CPU is a guest
/// alone: its view at the end, its exits and the bytes that it stores to consoles are what its view then and its inputs since come to. The answer is
/// Done exactly where the run ends quiet, and Limit exactly where it doesn't; it has then taken N turns, unless the order was read. `check` writes
/// `ok` and answers Done.
///
/// `twin` fetches NAME, a text of two lines `SCENARIO ORDER GUEST`, runs the scenario of each over its order, of at most N turns, and follows
/// the virtual CPU of that number from the turn that made it on. It writes one line, appends nothing, and answers Done: `equal I frames F`
/// exactly where some renaming of frames, RAM for RAM and a console for a console, makes the two views at birth and all inputs agree, I on each
/// side and F pairs of frames in all; `views` exactly where none makes the views agree; `differ I` exactly where one makes the views and the first I
/// inputs agree, and none does so for one more, or one side has no more and the other has. Where they are equal, the two views at the end agree
/// under those pairs of frames, the exits are equal, and the bytes that go to consoles are equal but for the consoles' frames.
///
/// Other answers, in this order: Usage exactly where the words are no command. ReadFault only where the
/// count of failed fetches of SCENARIO rose in this call, or, after a valid scenario, that of the ORDER of `solo`; or that of NAME, or of a name in it
/// in its line's turn.
/// Scenario exactly where the bytes that came are no scenario, with the first line at fault and why, or
/// are more than 16 MiB, with line 0. OrderFault exactly where the order's bytes are no order of the
/// scenario's processors and of at most N turns, with the first line at fault and why; or the first
/// idle turn is one of that line; or they are more than 64 MiB, with line 0. Twin exactly where the text that came does not name two guests, with the
/// first line at fault; or is of more than 4,096 bytes, with line 0; or else a line's scenario is refused, or its order, or no virtual CPU has its number at the end of its
/// run: the first line where one of these is so, and the first of them. WriteFault only where the
/// sink's count of faults rose in this call, or that of failed appends to the ORDER of `run`. Memory may come in place of each.
///
/// With Done or Limit order and text are out whole. With WriteFault the order is, and a part of the text from its first byte on; or a part of the
/// order is, from its first byte on, and the sink is as before; both are those of one run. Else nothing is appended, and the sink is as before.
/// Writes of the text are all that is done to the sink, each of all that is left, and a write that fails is the last. SCENARIO is fetched first, and
/// the ORDER of `solo` only after a valid scenario; NAME before the scenario and the order of its first line, and these before those of the second,
/// which are fetched only once the first guest is followed; each up to the fetch that failed where the answer is ReadFault; nothing else is fetched.
/// Where the words are no command, the depot is as before. Its files stay but for what `run` appends to ORDER, and the counts of other names always
/// stay.
///
/// `gate` is told of each step of the threads. With `run` and `bench` the call may wait; what it promises holds if it returns.
pub fn nova_main<R: Threads + Wait + Sync, D: Depot, O: Sink, G: Gate + Sync>(
    rt: &R,
    alloc: Global,
    words: &[String],
    depot: &mut D,
    out: &mut O,
    gate: &G,
) -> Exit
    ensures usage { result ≡ Exit.Usage → command (map string_bytes words.now) ≡ None }
    ensures no_command { command (map string_bytes words.now) ≡ None → (result ≡ Exit.Usage) ⊎ (result ≡ Exit.Memory) }
    ensures untouched { command (map string_bytes words.now) ≡ None → (depot.new ≡ depot.old) × (out.new ≡ out.old) }
    ensures unwritten { IsUnwritten result → out.new ≡ out.old }
    ensures answer { IfSome (command (map string_bytes words.now)) (λ command.
        IsAnswer (depots D.files D.gave D.fetch_failed D.fetch_faults D.took D.append_failed D.append_faults) (sinks O.written O.took O.write_failed O.faults) command result depot.old depot.new out.old out.new) }
    ensures complete { IfSome (command (map string_bytes words.now)) (λ command.
        IsServable (depots D.files D.gave D.fetch_failed D.fetch_faults D.took D.append_failed D.append_faults) (sinks O.written O.took O.write_failed O.faults) command depot.old depot.new out.old out.new
        → IsDoneOrStopped result) }
    ensures calls { IfSome (command (map string_bytes words.now)) (λ command.
        Calls (depots D.files D.gave D.fetch_failed D.fetch_faults D.took D.append_failed D.append_faults) command result depot.old depot.new) }
    ensures others { IfSome (command (map string_bytes words.now)) (λ command.
        OtherFetchesStay (depots D.files D.gave D.fetch_failed D.fetch_faults D.took D.append_failed D.append_faults) command depot.old depot.new) }
    ensures appends { IfSome (command (map string_bytes words.now)) (λ command.
        AllOthersStay D.append_faults (appended_before result command) depot.old depot.new) }
    ensures files { IfSome (command (map string_bytes words.now)) (λ command.
        HasFiles (depots D.files D.gave D.fetch_failed D.fetch_faults D.took D.append_failed D.append_faults) command result depot.old depot.new) }
{
    match read_command(alloc, words) {
        Ok(command) => serve(rt, alloc, &command, depot, out, gate),
        Err(fault) => Exit::from(fault),
    }
}

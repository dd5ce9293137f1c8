ghost use Rattle.std.specs.Prelude.{◌≡◌, ◌≤◌, ◌⊎◌, IfSome, None, map, string_bytes};
ghost use Rattle.nova_policy.specs.Exit.{IsUnwritten};
ghost use Rattle.nova_policy.specs.Main.{IsAnswer, IsPrepared, IsSent};
ghost use Rattle.nova_io.specs.Outside.{depots, sinks};
ghost use Rattle.nova_policy.specs.Words.{asked};

use crate::decided::decide;
use crate::exit::Exit;
use crate::fetched::{fetch_order_if_named, fetch_policy_if_named};
use crate::request::{Request, read_request};
use nova_io::{Depot, Sink, write_all};
use nova_judging::Told;
use nova_loading::load_scenario;
use std::alloc::Global;

/// Reads what `request` asks for, and decides it.
fn prepare<D: Depot>(alloc: Global, request: &Request, depot: &mut D) -> Result<Told, Exit>
    requires last { request.now.span.until ≤ 10000000 }
    ensures { IsPrepared (depots D.files D.gave D.fetch_failed D.fetch_faults D.took D.append_failed D.append_faults) request.now depot.old depot.new result }
{
    let scenario = load_scenario(alloc, depot, request.scenario.as_str())?;
    let order = fetch_order_if_named(alloc, depot, &request.order, scenario.cpus)?;
    let policy = fetch_policy_if_named(alloc, depot, &request.policy)?;
    decide(
        alloc,
        &scenario,
        &order,
        &policy,
        request.span,
        request.flow,
    )
}

/// Writes `told` to `out`.
fn send<O: Sink>(out: &mut O, told: &Told) -> Exit
    ensures sent { IsSent (sinks O.written O.took O.write_failed O.faults) told.now result out.old out.new }
    ensures unwritten { IsUnwritten result → out.new ≡ out.old }
{
    match write_all(out, told.text.as_bytes()) {
        Ok(()) => Exit::Told(told.answer),
        Err(_) => Exit::WriteFault,
    }
}

/// Decides what `request` asks for, and writes it.
fn serve<D: Depot, O: Sink>(alloc: Global, request: &Request, depot: &mut D, out: &mut O) -> Exit
    requires last { request.now.span.until ≤ 10000000 }
    ensures answer { IsAnswer (depots D.files D.gave D.fetch_failed D.fetch_faults D.took D.append_failed D.append_faults) (sinks O.written O.took O.write_failed O.faults) request.now result depot.old depot.new out.old out.new }
    ensures unwritten { IsUnwritten result → out.new ≡ out.old }
{
    match prepare(alloc, request, depot) {
        Ok(told) => send(out, &told),
        Err(exit) => exit,
    }
}

/// The top call: what the words ask for is decided over the depot's files, and the text that tells it is written to `out`. The words are
/// those after the program's own name: `SCENARIO [--order ORDER] [--at TURN] [--until TURN] [--policy POLICY] [--flow TURN]`, each
/// TURN from 0 to 10,000,000.
///
/// SCENARIO is fetched and read, of at most 16 MiB; then ORDER, of its processors, of at most 10,000,000 turns and 64 MiB; then POLICY, of at
/// most 1 MiB. The scenario's run is taken from its boot state over the first turns of the order, or of round robin. Of a state is told what the
/// sides of the policy are, as it names them; or, where no policy is named, the finest sides beside a trusted root. Without `--until` it is the
/// state after the TURN of `--at`, or after 1,000,000. With it, it is the first state from that of `--at`, or from the boot, until that of
/// `--until`, in which the sides aren't isolated; or the last, where they are in each. A run that ends before has its last state there.
/// The answer is `Told` with what they are: isolated or not, and what is trusted at rest or not, both exactly. The text is then written, whole: the
/// turns, the verdict with where its capabilities came from, the finest sides, what they share and what flows between them on purpose, the sides of
/// each processor, and the ties of sides to other domains. `--flow` stands in place of `--at`: what is told is of the state after its TURN, and
/// after it of each side whether the premises of noninterference on divided processors hold of it there, or which one fails first; and of a side of
/// which they hold, until which turn of the run it is at work, up to that of `--until`, or to 1,000,000: it may revoke where no other domain holds what
/// was made of what it holds, of which else the first is named; and in which turn it revokes first, if it may.
///
/// Other answers, each with its cause: Usage exactly where the words ask for nothing. ReadFault only where the count of failed fetches of one of
/// the names rose. TooLong where more bytes came than may; Scenario, Order and Policy where the bytes that came are none, with the first line
/// at fault. Idle where one of the turns meets an idle processor, with the line of the order that has the first such turn. Misnamed where the
/// policy names as a protection domain or as a semaphore what is none in the last state, with the first such number and its line. WriteFault only where a write of the
/// text failed; a part of it, from its first byte on, is then written. Memory may come in place of each. But for Told and WriteFault the sink is
/// as before.
pub fn policy_main<D: Depot, O: Sink>(
    alloc: Global,
    words: &[String],
    depot: &mut D,
    out: &mut O,
) -> Exit
    ensures usage { result ≡ Exit.Usage → asked (map string_bytes words.now) ≡ None }
    ensures no_request { asked (map string_bytes words.now) ≡ None → (result ≡ Exit.Usage) ⊎ (result ≡ Exit.Memory) }
    ensures untouched { asked (map string_bytes words.now) ≡ None → (depot.new ≡ depot.old) × (out.new ≡ out.old) }
    ensures unwritten { IsUnwritten result → out.new ≡ out.old }
    ensures answer { IfSome (asked (map string_bytes words.now)) (λ request.
        IsAnswer (depots D.files D.gave D.fetch_failed D.fetch_faults D.took D.append_failed D.append_faults) (sinks O.written O.took O.write_failed O.faults) request result depot.old depot.new out.old out.new) }
{
    match read_request(alloc, words) {
        Ok(request) => serve(alloc, &request, depot, out),
        Err(fault) => Exit::from(fault),
    }
}

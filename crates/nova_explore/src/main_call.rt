ghost use Rattle.std.specs.Prelude.{◌≡◌, ◌⊎◌, IfSome, None, map, string_bytes};
ghost use Rattle.nova_explore.specs.Exit.{IsUnwritten};
ghost use Rattle.nova_explore.specs.Main.{IsAnswer, IsPrepared, IsSent};
ghost use Rattle.nova_explore.specs.Numbers.{HasBounds};
ghost use Rattle.nova_io.specs.Outside.{depots, sinks};
ghost use Rattle.nova_explore.specs.Requests.{request};

use crate::exit::Exit;
use crate::reader::read_request;
use crate::request::Request;
use crate::told::{Told, tell};
use nova_io::{Depot, Sink, write_all};
use nova_loading::load_scenario;
use std::alloc::Global;

/// Reads the scenario of `request`, and answers it.
fn prepare<D: Depot>(alloc: Global, request: &Request, depot: &mut D) -> Result<Told, Exit>
    requires { HasBounds request.now }
    ensures prepared { IsPrepared (depots D.files D.gave D.fetch_failed D.fetch_faults D.took D.append_failed D.append_faults) request.now depot.old depot.new result }
    ensures files { D.files depot.new ≡ D.files depot.old }
{
    let scenario = load_scenario(alloc, depot, request.scenario.as_str())?;
    tell(alloc, &scenario, request)
}

/// Writes `told` to `out`.
fn send<O: Sink>(out: &mut O, told: &Told) -> Exit
    ensures sent { IsSent (sinks O.written O.took O.write_failed O.faults) told.now result out.old out.new }
    ensures unwritten { IsUnwritten result → out.new ≡ out.old }
{
    match write_all(out, &told.text) {
        Ok(()) => Exit::Told(told.verdict),
        Err(_) => Exit::WriteFault,
    }
}

/// Answers `request`, and writes it.
fn serve<D: Depot, O: Sink>(alloc: Global, request: &Request, depot: &mut D, out: &mut O) -> Exit
    requires { HasBounds request.now }
    ensures answer { IsAnswer (depots D.files D.gave D.fetch_failed D.fetch_faults D.took D.append_failed D.append_faults) (sinks O.written O.took O.write_failed O.faults) request.now result depot.old depot.new out.old out.new }
    ensures unwritten { IsUnwritten result → out.new ≡ out.old }
    ensures files { D.files depot.new ≡ D.files depot.old }
{
    match prepare(alloc, request, depot) {
        Ok(told) => send(out, &told),
        Err(exit) => exit,
    }
}

/// The top call: what the words ask about the orders of turns of a scenario is answered, and the text that tells it is written to `out`. The words are
/// those after the program's own name: `SCENARIO [--turns N] [--states N] QUESTION [WORD ..]`, the options anywhere among them; 1 to 10,000,000
/// turns, and 1,000,000 where none are given; 1 to 100,000,000 states, and 20,000.
///
/// SCENARIO is fetched and read, of at most 16 MiB. An order of turns leads from its boot to the state after them. A question is whether an order leads
/// to a state in which something is so:
///
/// | `console N HEX` | console N shows these bytes first, two hexadecimal digits each |
/// | `text N TEXT` | the same, with the bytes of the word TEXT |
/// | `word FRAME OFFSET VALUE` | the word at OFFSET of a frame of RAM, from 0 to 4,092, is VALUE, its lowest byte first |
/// | `at PD ADDRESS` | the next turn of a processor is the instruction at ADDRESS of the domain PD |
/// | `at PD ADDRESS PD ADDRESS` | that of a processor is the instruction at the first, and that of another one that at the second |
/// | `stores FRAME FIRST LAST` | the next turn of a processor is an instruction that stores to one of the bytes FIRST to LAST of a frame of RAM, from 0 to 4,095 |
/// | `blocked` | no processor has a turn, and an execution context waits at a semaphore |
/// | `dies`, `dies EC` | an execution context is dead, or that of this number |
/// | `dies but EC` | one of another number is dead |
/// | `stuck EC` | no processor has a turn, and the execution context of this number is there and not dead |
/// | `hangs TURNS` | no order of at most TURNS turns more, from 1 to 10,000,000, ends the run |
/// | `hangs TURNS EC` | the execution context of this number is there and not dead, and after no such order its turn is next |
///
/// Or it is `ends`: with which outcomes orders end, after which no processor has a turn. The answer is `Told` with one of these, and its text is then
/// written, whole:
///
/// - `Found`: an order of at most N turns, none of them idle, leads there, and none of fewer turns does. Its lines are told.
/// - `All`: no order of the scenario's processors does, of whatever length. For `ends`: each order that ends the run does so with one of the outcomes
///   that are told, each with an order of at most N turns, none of them idle, that ends so; none of fewer turns does.
/// - `Within`: the same of orders of at most N turns. An order goes on beyond them: one without idle turns takes more, or N, and a processor has a turn to take
///   after it.
/// - `Cut`: more states were found than may be expanded, and nothing is said of orders but of those that are told.
///
/// Where the question names an execution context, and none of the orders of `All` or `Within`, for `hangs` of TURNS more, leads to a state with it, the text
/// says so.
///
/// The text also has how many states were found. To each an order of at most N turns leads, for `hangs` of TURNS more, and to each but the first by a turn
/// in one of them after which no other was found; each order that was gone along leads to one that is alike to one of them, for `hangs` to one of
/// them. States that are not seen to be alike count apart. For each outcome it has in how many of them a run ends so.
///
/// Other answers, each with its cause: Usage exactly where the words are no request. ReadFault only where the count of failed fetches of the name rose.
/// TooLong where more bytes came than may, Scenario where those that came are none, with the first line at fault, and Absent where the scenario has no
/// console or frame of the question's number. WriteFault only where a write of the text failed; a part of it, from its first byte on, is then written.
/// Memory may come in place of each. But for Told and WriteFault the sink is as before. Files of the depot stay as they are.
pub fn explore_main<D: Depot, O: Sink>(
    alloc: Global,
    words: &[String],
    depot: &mut D,
    out: &mut O,
) -> Exit
    ensures usage { result ≡ Exit.Usage → request (map string_bytes words.now) ≡ None }
    ensures no_request { request (map string_bytes words.now) ≡ None → (result ≡ Exit.Usage) ⊎ (result ≡ Exit.Memory) }
    ensures untouched { request (map string_bytes words.now) ≡ None → (depot.new ≡ depot.old) × (out.new ≡ out.old) }
    ensures unwritten { IsUnwritten result → out.new ≡ out.old }
    ensures answer { IfSome (request (map string_bytes words.now)) (λ request.
        IsAnswer (depots D.files D.gave D.fetch_failed D.fetch_faults D.took D.append_failed D.append_faults) (sinks O.written O.took O.write_failed O.faults) request result depot.old depot.new out.old out.new) }
    ensures files { D.files depot.new ≡ D.files depot.old }
{
    match read_request(alloc, words) {
        Ok(request) => serve(alloc, &request, depot, out),
        Err(fault) => Exit::from(fault),
    }
}

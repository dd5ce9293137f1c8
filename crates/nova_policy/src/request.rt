// Words to a request.
ghost use Rattle.std.specs.Prelude.{◌≡◌, ◌≤◌, IfOk, IfSome, None, Some, is_some, map, option_map, string_bytes};
ghost use Rattle.clap.specs.Walk.{rows_of};
ghost use Rattle.clap.specs.Matches.{found_of};
ghost use Rattle.nova_command.specs.CommandFault.{Answers};
ghost use Rattle.nova_policy.specs.Form.{given_in};
ghost use Rattle.nova_policy.specs.Words.{asked, asked_of, between, flowed, flowed_on, span_of, spanned, turn_of, turn_or};

use crate::form::form;
use clap::ArgMatches;
use nova_command::{CommandFault, Name, number_within, parse, text_of, with_program_name};
use std::alloc::{AllocError, Global};

/// Turns of a run: the last, and the first whose state is asked for, from 0 to 10,000,000 and not after it.
#[derive(Clone, Copy, Debug)]
pub struct Span {
    pub from: u32,
    pub until: u32,
}

/// What the program is asked: which files, and after which turns of the scenario's run.
#[derive(Debug, Drop)]
pub struct Request {
    /// The file of the scenario.
    pub scenario: Name,

    /// The file of the order of turns. Where none is named, they go round robin.
    pub order: Option<Name>,

    /// The turns.
    pub span: Span,

    /// The file of the policy. Where none is named, the root's domain is trusted, and the finest sides of all others are looked for.
    pub policy: Option<Name>,

    /// Whether is told of each side if the premises of noninterference on divided processors hold of it after the first of the turns, and until which one
    /// it is at work.
    pub flow: bool,
}

/// The last turn that may be asked for.
const LAST_TURN: u32 = 10_000_000;

/// The turn that `text` writes.
fn read_turn(text: &str) -> Option<u32>
    ensures exact { result ≡ turn_of text.now }
    ensures last { IfSome result (λ turn. turn ≤ 10000000) }
{
    number_within(text, 0, LAST_TURN)
}

/// The turn that `text` writes, or `turn` where there is no text.
fn turn_or(turn: u32, text: Option<&str>) -> Option<u32>
    requires { turn ≤ 10000000 }
    ensures exact { result ≡ turn_or turn (option_map (λ t. t.now) text.entry) }
    ensures last { IfSome result (λ t. t ≤ 10000000) }
{
    match text {
        Some(text) => read_turn(text),
        None => Some(turn),
    }
}

/// The turns from `from` on, until `until`, which isn't before it.
fn between(from: u32, until: u32) -> Option<Span>
    ensures exact { result ≡ between from until }
    ensures last { IfSome result (λ span. span.until ≡ until) }
{
    if from <= until {
        Some(Span { from, until })
    } else {
        None
    }
}

/// The turns from `at`, or from the boot, until `until`.
fn span_until(at: Option<&str>, until: &str) -> Option<Span>
    ensures exact { result ≡ spanned (option_map (λ t. t.now) at.entry) (Some until.now) }
    ensures last { IfSome result (λ span. span.until ≤ 10000000) }
{
    let until = read_turn(until)?;
    let from = turn_or(0, at)?;
    between(from, until)
}

/// The single turn `at`.
fn span_at(at: Option<&str>) -> Option<Span>
    ensures exact { result ≡ spanned (option_map (λ t. t.now) at.entry) None }
    ensures last { IfSome result (λ span. span.until ≤ 10000000) }
{
    let turn = turn_or(1_000_000, at)?;
    between(turn, turn)
}

/// The turns that are given.
fn spanned(at: Option<&str>, until: Option<&str>) -> Option<Span>
    ensures exact { result ≡ spanned (option_map (λ t. t.now) at.entry) (option_map (λ t. t.now) until.entry) }
    ensures last { IfSome result (λ span. span.until ≤ 10000000) }
{
    match until {
        Some(until) => span_until(at, until),
        None => span_at(at),
    }
}

/// The turns from one on, until 1,000,000, or that one alone where it is later.
fn flowed_on(flow: &str) -> Option<Span>
    ensures exact { result ≡ flowed_on flow.now }
    ensures last { IfSome result (λ span. span.until ≤ 10000000) }
{
    let turn = read_turn(flow)?;
    between(turn, turn.max(1_000_000))
}

fn flowed_until(until: Option<&str>, flow: &str) -> Option<Span>
    ensures exact { result ≡ flowed None (option_map (λ t. t.now) until.entry) flow.now }
    ensures last { IfSome result (λ span. span.until ≤ 10000000) }
{
    match until {
        Some(until) => span_until(Some(flow), until),
        None => flowed_on(flow),
    }
}

/// The turns that are given for flows, where none is given otherwise.
fn flowed(at: Option<&str>, until: Option<&str>, flow: &str) -> Option<Span>
    ensures exact { result ≡ flowed (option_map (λ t. t.now) at.entry) (option_map (λ t. t.now) until.entry) flow.now }
    ensures last { IfSome result (λ span. span.until ≤ 10000000) }
{
    match at {
        Some(_) => None,
        None => flowed_until(until, flow),
    }
}

/// The turns that are asked for.
fn span_of(at: Option<&str>, until: Option<&str>, flow: Option<&str>) -> Option<Span>
    ensures exact { result ≡ span_of (option_map (λ t. t.now) at.entry) (option_map (λ t. t.now) until.entry) (option_map (λ t. t.now) flow.entry) }
    ensures last { IfSome result (λ span. span.until ≤ 10000000) }
{
    match flow {
        Some(flow) => flowed(at, until, flow),
        None => spanned(at, until),
    }
}

/// Whether `text` is given.
fn is_given(text: Option<&str>) -> bool
    ensures { result ≡ is_some (option_map (λ t. t.now) text.entry) }
{
    text.is_some()
}

/// The name that a text is, where there is a text.
fn name_if_any(alloc: Global, text: Option<&str>) -> Result<Option<Name>, AllocError>
    ensures { IfOk result (λ name. name ≡ option_map (λ t. t.now) text.entry) }
{
    match text {
        Some(text) => Ok(Some(Name::from_text(alloc, text)?)),
        None => Ok(None),
    }
}

/// The request for `scenario` and some turns.
fn request_for(
    alloc: Global,
    matches: &ArgMatches,
    scenario: &str,
    span: Span,
) -> Result<Request, AllocError>
    ensures { IfOk result (λ request. request ≡ record {
      scenario = scenario.now;
      order = (given_in (rows_of (found_of matches.now))).order;
      span = span;
      policy = (given_in (rows_of (found_of matches.now))).policy;
      flow = is_some (given_in (rows_of (found_of matches.now))).flow;
    }) }
{
    let scenario = Name::from_text(alloc, scenario)?;
    let order = name_if_any(alloc, text_of(matches, "order"))?;
    let policy = name_if_any(alloc, text_of(matches, "policy"))?;
    Ok(Request {
        scenario,
        order,
        span,
        policy,
        flow: is_given(text_of(matches, "flow")),
    })
}

/// The request that was given.
fn request_of(alloc: Global, matches: &ArgMatches) -> Result<Request, CommandFault>
    ensures exact { Answers (asked_of (given_in (rows_of (found_of matches.now)))) result }
    ensures last { IfOk result (λ request. request.span.until ≤ 10000000) }
{
    let Some(scenario) = text_of(matches, "scenario") else {
        return Err(CommandFault::Usage);
    };
    let Some(span) = span_of(
        text_of(matches, "at"),
        text_of(matches, "until"),
        text_of(matches, "flow"),
    ) else {
        return Err(CommandFault::Usage);
    };
    Ok(request_for(alloc, matches, scenario, span)?)
}

/// Reads `words`, those after the program's own name: `SCENARIO [--order ORDER] [--at TURN] [--until TURN] [--policy POLICY] [--flow TURN]`, the
/// options anywhere among them.
///
/// TURN is decimal digits, or `0x` and hexadecimal digits, of a number from 0 to 10,000,000. Without `--until` the one turn is that of `--at`, or
/// 1,000,000; with it the first turn is that of `--at`, or 0, and not after the last. `--flow` stands in place of `--at`, and without `--until` the last
/// turn is 1,000,000, or the first, where that is later. `Usage` comes exactly where the words are no request, and asking for help or for the version is none. `Memory` says nothing of the words.
#[tactic(auto, unfolding(crate::specs::Words::asked, crate::specs::Form::given), using(crate::proofs::Plain::plain))]
pub fn read_request(alloc: Global, words: &[String]) -> Result<Request, CommandFault>
    ensures exact { Answers (asked (map string_bytes words.now)) result }
    ensures last { IfOk result (λ request. request.span.until ≤ 10000000) }
{
    let named = with_program_name(alloc, "nova_policy", words)?;
    let matches = parse(form(alloc)?, named.as_slice())?;
    request_of(alloc, &matches)
}

// Words to a request.
ghost use Rattle.std.specs.Prelude.{◌≡◌, map, string_bytes, IfOk, Some, None};
ghost use Rattle.clap.specs.Walk.{rows_of};
ghost use Rattle.clap.specs.Matches.{found_of};
ghost use Rattle.nova_command.specs.CommandFault.{Answers, AnswersBy};
ghost use Rattle.nova_explore.specs.Form.{given_in};
ghost use Rattle.nova_explore.specs.Numbers.{HasBounds, IsAsked, byte_of, number_of, offset_of, turns_of};
ghost use Rattle.nova_explore.specs.Requests.{act_hangs, at_both, at_one, bytes_of, dies_but, end_hangs, location_of, of_four, of_none, of_one, of_three, of_two, of_word, on_bytes, on_console, on_context, question_in, request, request_of, request_with, word_of};

use crate::form::form;
use crate::numbers::{read_byte, read_number, read_offset, read_states, read_turns};
use crate::request::Request;
use crate::word::Word;
use clap::ArgMatches;
use hex::FromHexError;
use nova_asking::{Aim, Bytes, Location, Question};
use nova_command::{CommandFault, Name, parse, text_of, with_program_name};
use std::alloc::Global;

/// Bytes of the console `console`, as a question.
fn on_console(console: &str, bytes: Vec<u8>) -> Result<Question, CommandFault>
    ensures exact { Answers (on_console (number_of console.now) (Some bytes.items)) result }
    ensures apt { IfOk result IsAsked }
{
    match read_number(console) {
        Some(console) => Ok(Question::Console {
            console,
            bytes: Bytes::from(bytes),
        }),
        None => Err(CommandFault::Usage),
    }
}

/// The bytes that `digits`, hexadecimal ones, write.
#[tactic(auto, unfolding(crate::specs::Requests::bytes_of))]
fn bytes_of(alloc: Global, digits: &str) -> Result<Vec<u8>, CommandFault>
    ensures { AnswersBy (λ bytes. bytes.items) (bytes_of digits.now) result }
{
    match hex::decode(alloc, digits) {
        Ok(bytes) => Ok(bytes),
        Err(FromHexError::OutOfMemory) => Err(CommandFault::Memory),
        Err(_) => Err(CommandFault::Usage),
    }
}

/// The location of `address` in the protection domain `pd`.
fn location_of(pd: &str, address: &str) -> Option<Location>
    ensures { result ≡ location_of (number_of pd.now) (number_of address.now) }
{
    match (read_number(pd), read_number(address)) {
        (Some(pd), Some(address)) => Some(Location { pd, address }),
        _ => None,
    }
}

/// A question on `address` of the protection domain `pd`.
fn at_one(pd: &str, address: &str) -> Result<Question, CommandFault>
    ensures exact { Answers (at_one (location_of (number_of pd.now) (number_of address.now))) result }
    ensures apt { IfOk result IsAsked }
{
    match location_of(pd, address) {
        Some(location) => Ok(Question::At { location }),
        None => Err(CommandFault::Usage),
    }
}

/// A question on the addresses `first` and `second`.
fn at_both(first: Option<Location>, second: Option<Location>) -> Result<Question, CommandFault>
    ensures exact { Answers (at_both first second) result }
    ensures apt { IfOk result IsAsked }
{
    match (first, second) {
        (Some(first), Some(second)) => Ok(Question::AtBoth { first, second }),
        _ => Err(CommandFault::Usage),
    }
}

/// A question on execution contexts but one.
fn dies_but(but: &str, ec: &str) -> Result<Question, CommandFault>
    ensures exact { Answers (dies_but (word_of but.now) (number_of ec.now)) result }
    ensures apt { IfOk result IsAsked }
{
    match (Word::from_text(but), read_number(ec)) {
        (Some(Word::But), Some(ec)) => Ok(Question::DiesBut { ec }),
        _ => Err(CommandFault::Usage),
    }
}

/// A question of `word` alone.
fn of_none(word: Word) -> Result<Question, CommandFault>
    ensures exact { Answers (of_none word) result }
    ensures apt { IfOk result IsAsked }
{
    match word {
        Word::Blocked => Ok(Question::Blocked),
        Word::Dies => Ok(Question::Dies),
        Word::Ends => Ok(Question::Ends),
        Word::Console
        | Word::Text
        | Word::Word
        | Word::At
        | Word::Stores
        | Word::But
        | Word::Stuck
        | Word::Hangs => Err(CommandFault::Usage),
    }
}

/// A question on the execution context `ec`.
fn on_context(word: Word, ec: &str) -> Result<Question, CommandFault>
    ensures exact { Answers (on_context word (number_of ec.now)) result }
    ensures apt { IfOk result IsAsked }
{
    let Some(ec) = read_number(ec) else {
        return Err(CommandFault::Usage);
    };
    match word {
        Word::Dies => Ok(Question::DiesOf { ec }),
        Word::Stuck => Ok(Question::Stuck { ec }),
        Word::Blocked
        | Word::Ends
        | Word::Hangs
        | Word::Console
        | Word::Text
        | Word::Word
        | Word::At
        | Word::Stores
        | Word::But => Err(CommandFault::Usage),
    }
}

/// The question whether a run can hang, so that it doesn't end.
fn end_hangs(turns: &str) -> Result<Question, CommandFault>
    ensures exact { Answers (end_hangs (turns_of turns.now)) result }
    ensures apt { IfOk result IsAsked }
{
    match read_turns(turns) {
        Some(turns) => Ok(Question::Hangs {
            turns,
            aim: Aim::End,
        }),
        None => Err(CommandFault::Usage),
    }
}

/// The question whether a run can hang, so that an execution context doesn't act again.
fn act_hangs(turns: &str, ec: &str) -> Result<Question, CommandFault>
    ensures exact { Answers (act_hangs (turns_of turns.now) (number_of ec.now)) result }
    ensures apt { IfOk result IsAsked }
{
    match (read_turns(turns), read_number(ec)) {
        (Some(turns), Some(ec)) => Ok(Question::Hangs {
            turns,
            aim: Aim::Act { ec },
        }),
        _ => Err(CommandFault::Usage),
    }
}

/// A question of `word` and one more.
fn of_one(word: Word, first: &str) -> Result<Question, CommandFault>
    ensures exact { Answers (of_one word first.now) result }
    ensures apt { IfOk result IsAsked }
{
    match word {
        Word::Hangs => end_hangs(first),
        _ => on_context(word, first),
    }
}

/// A question of `word` and two more.
fn of_two(alloc: Global, word: Word, first: &str, second: &str) -> Result<Question, CommandFault>
    ensures exact { Answers (of_two word first.now second.now) result }
    ensures apt { IfOk result IsAsked }
{
    match word {
        Word::Console => on_console(first, bytes_of(alloc, second)?),
        Word::Text => on_console(first, Vec::from_slice(alloc, second.as_bytes())?),
        Word::At => at_one(first, second),
        Word::Dies => dies_but(first, second),
        Word::Hangs => act_hangs(first, second),
        Word::Blocked | Word::But | Word::Ends | Word::Stuck | Word::Stores | Word::Word => Err(
            CommandFault::Usage,
        ),
    }
}

/// A question on a word of memory.
fn of_word(frame: &str, offset: &str, value: &str) -> Result<Question, CommandFault>
    ensures exact { Answers (of_word (number_of frame.now) (offset_of offset.now) (number_of value.now)) result }
    ensures apt { IfOk result IsAsked }
{
    match (read_number(frame), read_offset(offset), read_number(value)) {
        (Some(frame), Some(offset), Some(value)) => Ok(Question::Word {
            frame,
            offset,
            value,
        }),
        _ => Err(CommandFault::Usage),
    }
}

/// A question on bytes of a frame.
fn on_bytes(frame: &str, first: &str, last: &str) -> Result<Question, CommandFault>
    ensures exact { Answers (on_bytes (number_of frame.now) (byte_of first.now) (byte_of last.now)) result }
    ensures apt { IfOk result IsAsked }
{
    match (read_number(frame), read_byte(first), read_byte(last)) {
        (Some(frame), Some(first), Some(last)) => {
            if first <= last {
                Ok(Question::Stores { frame, first, last })
            } else {
                Err(CommandFault::Usage)
            }
        }
        _ => Err(CommandFault::Usage),
    }
}

/// A question of `word` and three more.
fn of_three(word: Word, first: &str, second: &str, third: &str) -> Result<Question, CommandFault>
    ensures exact { Answers (of_three word first.now second.now third.now) result }
    ensures apt { IfOk result IsAsked }
{
    match word {
        Word::Word => of_word(first, second, third),
        Word::Stores => on_bytes(first, second, third),
        Word::Blocked
        | Word::Dies
        | Word::Hangs
        | Word::But
        | Word::Ends
        | Word::Stuck
        | Word::Console
        | Word::Text
        | Word::At => Err(CommandFault::Usage),
    }
}

/// A question of `word` and four more.
fn of_four(
    word: Word,
    first: &str,
    second: &str,
    third: &str,
    fourth: &str,
) -> Result<Question, CommandFault>
    ensures exact { Answers (of_four word first.now second.now third.now fourth.now) result }
    ensures apt { IfOk result IsAsked }
{
    match word {
        Word::At => at_both(location_of(first, second), location_of(third, fourth)),
        Word::Blocked
        | Word::Stores
        | Word::Hangs
        | Word::Dies
        | Word::But
        | Word::Ends
        | Word::Stuck
        | Word::Console
        | Word::Text
        | Word::Word => Err(CommandFault::Usage),
    }
}

/// The question that was given, of its word and the words after it.
fn question_of(alloc: Global, matches: &ArgMatches) -> Result<Question, CommandFault>
    ensures exact { Answers (question_in (given_in (rows_of (found_of matches.now)))) result }
    ensures apt { IfOk result IsAsked }
{
    let word = text_of(matches, "question").and_then(Word::from_text);
    let first = text_of(matches, "first");
    let second = text_of(matches, "second");
    let third = text_of(matches, "third");
    let fourth = text_of(matches, "fourth");
    let Some(word) = word else {
        return Err(CommandFault::Usage);
    };
    let Some(first) = first else {
        return of_none(word);
    };
    let Some(second) = second else {
        return of_one(word, first);
    };
    let Some(third) = third else {
        return of_two(alloc, word, first, second);
    };
    match fourth {
        None => of_three(word, first, second, third),
        Some(fourth) => of_four(word, first, second, third, fourth),
    }
}

/// The request that was given.
fn request_of(
    alloc: Global,
    matches: &ArgMatches,
    question: Question,
) -> Result<Request, CommandFault>
    requires { IsAsked question }
    ensures exact { Answers (request_with (given_in (rows_of (found_of matches.now))) (Some question)) result }
    ensures bounds { IfOk result HasBounds }
{
    let scenario = text_of(matches, "scenario");
    let turns = text_of(matches, "turns").and_then(read_turns);
    let states = text_of(matches, "states").and_then(read_states);
    match (scenario, turns, states) {
        (Some(scenario), Some(turns), Some(states)) => Ok(Request {
            scenario: Name::from_text(alloc, scenario)?,
            turns,
            states,
            question,
        }),
        _ => Err(CommandFault::Usage),
    }
}

/// The question that was given, and the request with it.
fn request_in(alloc: Global, matches: &ArgMatches) -> Result<Request, CommandFault>
    ensures exact { Answers (request_of (given_in (rows_of (found_of matches.now)))) result }
    ensures bounds { IfOk result HasBounds }
{
    let question = question_of(alloc, matches)?;
    request_of(alloc, matches, question)
}

/// Reads the words after the program's own name as a request: SCENARIO and a question, with the options `--turns N` and `--states N`
/// anywhere among them.
#[tactic(auto, unfolding(crate::specs::Requests::request, crate::specs::Form::given), using(crate::proofs::Plain::plain))]
pub(crate) fn read_request(alloc: Global, words: &[String]) -> Result<Request, CommandFault>
    ensures exact { Answers (request (map string_bytes words.now)) result }
    ensures bounds { IfOk result HasBounds }
{
    let named = with_program_name(alloc, "nova_explore", words)?;
    let matches = parse(form(alloc)?, named.as_slice())?;
    request_in(alloc, &matches)
}

// Words against the form of a command line.
ghost use Rattle.std.specs.Prelude.{◌≡◌, ◌∷◌, map, IfOk, string_bytes, option_map};
ghost use Rattle.clap.specs.Simple.{app_of};
ghost use Rattle.clap.specs.Walk.{rows_of, first_of};
ghost use Rattle.clap.specs.Matches.{found_of};
ghost use Rattle.nova_command.specs.CommandFault.{AnswersBy, IsFaultOf};
ghost use Rattle.nova_command.specs.Parsing.{IsPlainForm, rows_given};

use crate::fault::CommandFault;
use clap::error::ErrorKind;
use clap::{ArgMatches, Command, Error};
use std::alloc::{AllocError, Global};

/// The name `program` and then `words`, the words after it.
pub fn with_program_name<'a>(
    alloc: Global,
    program: &'a str,
    words: &'a [String],
) -> Result<Vec<&'a str>, AllocError>
    ensures { IfOk result (λ named. map (λ word. word.now) named.items ≡ program.now ∷ map string_bytes words.now) }
{
    let mut named = vec![in alloc; program]?;
    for word in words {
        named.push(word.as_str())?;
    }
    Ok(named)
}

/// What failed in a parse, by `error`: memory, or else the words.
fn fault_of(error: &Error) -> CommandFault
    ensures { IsFaultOf error.now result }
{
    match error.kind() {
        ErrorKind::OutOfMemory => CommandFault::Memory,
        _ => CommandFault::Usage,
    }
}

/// What `words` give to `form`, where the first of them is the program's name. `Usage` comes exactly where they don't fit, and a call for help or for
/// the version doesn't. `Memory` says nothing of the words.
#[tactic(auto, unfolding(crate::specs::Parsing::rows_given))]
pub fn parse<'a>(form: Command<'a>, words: &'a [&'a str]) -> Result<ArgMatches<'a>, CommandFault>
    requires { IsPlainForm (app_of form) }
    ensures { AnswersBy (λ matches. rows_of (found_of matches)) (rows_given (app_of form.entry) (map (λ word. word.now) words.now)) result }
{
    match form.try_get_matches_from(words) {
        Ok(matches) => Ok(matches),
        Err(error) => Err(fault_of(&error)),
    }
}

/// The first text that `matches` have of `argument`.
pub fn text_of<'a>(matches: &ArgMatches<'a>, argument: &str) -> Option<&'a str>
    ensures { option_map (λ text. text.now) result ≡ first_of argument.now (rows_of (found_of matches.now)) }
{
    matches.get_str(argument)
}

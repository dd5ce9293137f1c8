// Words to a command.
ghost use Rattle.std.specs.Prelude.{◌≡◌, map, string_bytes, IfOk, Some, None};
ghost use Rattle.clap.specs.Walk.{rows_of};
ghost use Rattle.clap.specs.Matches.{found_of};
ghost use Rattle.nova_command.specs.Form.{given_in};
ghost use Rattle.nova_command.specs.Limit.{size_of, IsLimit};
ghost use Rattle.nova_command.specs.Command.{command, command_of, asked, benched, HasBounds};
ghost use Rattle.nova_command.specs.CommandFault.{Answers};

use crate::command::Command;
use crate::fault::CommandFault;
use crate::form::form;
use crate::limit::{read_limit, read_size};
use crate::name::Name;
use crate::parsing::{parse, text_of, with_program_name};
use crate::verb::Verb;
use clap::ArgMatches;
use std::alloc::Global;

/// Reads `words`, those after the program's own name, as a command. It is `run SCENARIO ORDER`, `solo SCENARIO`, `solo SCENARIO ORDER`, `check
/// SCENARIO`, `bench NUMBER` or `twin NAME`, with the option `--limit N` anywhere among them.
///
/// N and NUMBER are decimal digits, or `0x` and hexadecimal digits. N is a number from 1 to 10,000,000, for `check` too, which
/// has no use for it; where it is not given, the limit is 1,000,000. NUMBER is one from 1 to 90,000. `Usage` comes exactly where the words are no command, and
/// asking for help or for the version is none. `Memory` says nothing of the words.
#[tactic(auto, unfolding(crate::specs::Command::command, crate::specs::Form::given), using(crate::proofs::Plain::plain))]
pub fn read_command(alloc: Global, words: &[String]) -> Result<Command, CommandFault>
    ensures exact { Answers (command (map string_bytes words.now)) result }
    ensures bounds { IfOk result HasBounds }
{
    let named = with_program_name(alloc, "nova", words)?;
    let matches = parse(form(alloc)?, named.as_slice())?;
    command_of(alloc, &matches)
}

/// The command that was given, of its verb, its names and its limit.
fn command_of(alloc: Global, matches: &ArgMatches) -> Result<Command, CommandFault>
    ensures exact { Answers (command_of (given_in (rows_of (found_of matches.now)))) result }
    ensures bounds { IfOk result HasBounds }
{
    let verb = text_of(matches, "command").and_then(Verb::from_word);
    let first = text_of(matches, "first");
    let second = text_of(matches, "second");
    let limit = text_of(matches, "limit").and_then(read_limit);
    match (verb, first, second, limit) {
        (Some(verb), Some(name), None, Some(limit)) => of_name(alloc, verb, name, limit),
        (Some(verb), Some(first), Some(second), Some(limit)) => {
            of_names(alloc, verb, first, second, limit)
        }
        _ => Err(CommandFault::Usage),
    }
}

/// The command of `verb` and the name `name`.
fn of_name(alloc: Global, verb: Verb, name: &str, limit: u32) -> Result<Command, CommandFault>
    requires { IsLimit limit }
    ensures exact { Answers (asked (Some verb) (Some name.now) None (Some limit)) result }
    ensures bounds { IfOk result HasBounds }
{
    match verb {
        Verb::Run => Err(CommandFault::Usage),
        Verb::Solo => Ok(Command::Solo {
            scenario: Name::from_text(alloc, name)?,
            order: None,
            limit,
        }),
        Verb::Check => Ok(Command::Check {
            scenario: Name::from_text(alloc, name)?,
        }),
        Verb::Bench => bench_of(name, limit),
        Verb::Twin => Ok(Command::Twin {
            subjects: Name::from_text(alloc, name)?,
            limit,
        }),
    }
}

/// The command of `verb` and the names `first` and `second`.
fn of_names(
    alloc: Global,
    verb: Verb,
    first: &str,
    second: &str,
    limit: u32,
) -> Result<Command, CommandFault>
    requires { IsLimit limit }
    ensures exact { Answers (asked (Some verb) (Some first.now) (Some second.now) (Some limit)) result }
    ensures bounds { IfOk result HasBounds }
{
    match verb {
        Verb::Run => Ok(Command::Run {
            scenario: Name::from_text(alloc, first)?,
            order: Name::from_text(alloc, second)?,
            limit,
        }),
        Verb::Solo => Ok(Command::Solo {
            scenario: Name::from_text(alloc, first)?,
            order: Some(Name::from_text(alloc, second)?),
            limit,
        }),
        Verb::Check | Verb::Bench | Verb::Twin => Err(CommandFault::Usage),
    }
}

/// A bench of the number of domains that `number` writes.
fn bench_of(number: &str, limit: u32) -> Result<Command, CommandFault>
    requires limit { IsLimit limit }
    ensures exact { Answers (benched (size_of number.now) limit) result }
    ensures bounds { IfOk result HasBounds }
{
    match read_size(number) {
        Some(number) => Ok(Command::Bench { number, limit }),
        None => Err(CommandFault::Usage),
    }
}

// The form of the command line.
ghost use Rattle.std.specs.Prelude.{◌≡◌, false, IfOk};
ghost use Rattle.clap.specs.Simple.{app_of};
ghost use Rattle.clap.specs.Walk.{rule_of};
ghost use Rattle.nova_explore.specs.Form.{form, named, worded, turns_option, states_option};

use clap::{Arg, Command};
use std::alloc::{AllocError, Global};

/// The limit of turns, which is one million where none is given.
fn turns<'a>(alloc: Global) -> Arg<'a>
    ensures rule { rule_of result ≡ turns_option }
    ensures local { result.global ≡ false }
{
    Arg::new(alloc, "turns")
        .long("turns")
        .default_value("1000000")
}

/// The limit of states, which is 20,000 where none is given.
fn states<'a>(alloc: Global) -> Arg<'a>
    ensures rule { rule_of result ≡ states_option }
    ensures local { result.global ≡ false }
{
    Arg::new(alloc, "states")
        .long("states")
        .default_value("20000")
}

/// The scenario, and the word of the question.
fn named<'a>(alloc: Global) -> Result<Command<'a>, AllocError>
    ensures { IfOk result (λ command. app_of command ≡ named) }
{
    Command::new(alloc, "nova_explore")
        .arg(Arg::new(alloc, "scenario"))?
        .arg(Arg::new(alloc, "question"))
}

/// The scenario, the word of the question, and up to four words more.
fn worded<'a>(alloc: Global) -> Result<Command<'a>, AllocError>
    ensures { IfOk result (λ command. app_of command ≡ worded) }
{
    named(alloc)?
        .arg(Arg::new(alloc, "first"))?
        .arg(Arg::new(alloc, "second"))?
        .arg(Arg::new(alloc, "third"))?
        .arg(Arg::new(alloc, "fourth"))
}

/// The scenario, the words of the question, and the limits.
pub(crate) fn form<'a>(alloc: Global) -> Result<Command<'a>, AllocError>
    ensures { IfOk result (λ command. app_of command ≡ form) }
{
    worded(alloc)?.arg(turns(alloc))?.arg(states(alloc))
}

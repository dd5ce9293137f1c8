// The form of the command line.
ghost use Rattle.std.specs.Prelude.{◌≡◌, false, IfOk};
ghost use Rattle.clap.specs.Simple.{app_of};
ghost use Rattle.clap.specs.Walk.{rule_of};
ghost use Rattle.nova_command.specs.Form.{form, named, limit_option};

use clap::{Arg, Command};
use std::alloc::{AllocError, Global};

/// The limit of turns, which is one million where none is given.
fn limit<'a>(alloc: Global) -> Arg<'a>
    ensures rule { rule_of result ≡ limit_option }
    ensures local { result.global ≡ false }
{
    Arg::new(alloc, "limit")
        .long("limit")
        .default_value("1000000")
}

/// The word of the command, and up to two names.
fn named<'a>(alloc: Global) -> Result<Command<'a>, AllocError>
    ensures { IfOk result (λ command. app_of command ≡ named) }
{
    Command::new(alloc, "nova")
        .arg(Arg::new(alloc, "command"))?
        .arg(Arg::new(alloc, "first"))?
        .arg(Arg::new(alloc, "second"))
}

/// The word of the command, up to two names, and the limit.
pub(crate) fn form<'a>(alloc: Global) -> Result<Command<'a>, AllocError>
    ensures { IfOk result (λ command. app_of command ≡ form) }
{
    named(alloc)?.arg(limit(alloc))
}

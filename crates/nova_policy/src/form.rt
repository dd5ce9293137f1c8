// The form of the command line.
ghost use Rattle.std.specs.Prelude.{◌≡◌, false, IfOk};
ghost use Rattle.clap.specs.Simple.{app_of};
ghost use Rattle.clap.specs.Walk.{rule_of};
ghost use Rattle.nova_policy.specs.Form.{at_option, flow_option, form, order_option, policy_option, until_option};

use clap::{Arg, Command};
use std::alloc::{AllocError, Global};

fn order_option<'a>(alloc: Global) -> Arg<'a>
    ensures rule { rule_of result ≡ order_option }
    ensures local { result.global ≡ false }
{
    Arg::new(alloc, "order").long("order")
}

fn at_option<'a>(alloc: Global) -> Arg<'a>
    ensures rule { rule_of result ≡ at_option }
    ensures local { result.global ≡ false }
{
    Arg::new(alloc, "at").long("at")
}

fn until_option<'a>(alloc: Global) -> Arg<'a>
    ensures rule { rule_of result ≡ until_option }
    ensures local { result.global ≡ false }
{
    Arg::new(alloc, "until").long("until")
}

fn policy_option<'a>(alloc: Global) -> Arg<'a>
    ensures rule { rule_of result ≡ policy_option }
    ensures local { result.global ≡ false }
{
    Arg::new(alloc, "policy").long("policy")
}

fn flow_option<'a>(alloc: Global) -> Arg<'a>
    ensures rule { rule_of result ≡ flow_option }
    ensures local { result.global ≡ false }
{
    Arg::new(alloc, "flow").long("flow")
}

/// The name of the scenario, and the options.
pub(crate) fn form<'a>(alloc: Global) -> Result<Command<'a>, AllocError>
    ensures { IfOk result (λ command. app_of command ≡ form) }
{
    Command::new(alloc, "nova_policy")
        .arg(Arg::new(alloc, "scenario"))?
        .arg(order_option(alloc))?
        .arg(at_option(alloc))?
        .arg(until_option(alloc))?
        .arg(policy_option(alloc))?
        .arg(flow_option(alloc))
}

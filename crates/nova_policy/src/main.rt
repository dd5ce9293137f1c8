//! `nova_policy`: which protection domains of a scenario are isolated from which, after a turn of its run.
#![tactic(auto)]

mod decided;
mod exit;
mod fetched;
mod flows;
mod form;
mod main_call;
mod request;
mod running;

use exit::Exit;
use main_call::policy_main;
use nova_command::CommandFault;
use nova_io::{FileDepot, StdSink};
use std::env;
use std::process::ExitCode;

/// The words after the program's own name, or the end that it makes where they can't be read.
fn words(rt: HostRuntime) -> Result<Vec<String>, Exit> {
    let words = env::args(&rt).map_err(|error| CommandFault::of_words(error.kind()))?;
    Ok(words.skip(1).collect(rt.alloc())?)
}

fn main(rt: HostRuntime) -> ExitCode {
    let exit = match words(rt) {
        Ok(words) => {
            let mut depot = FileDepot::new(rt);
            let mut out = StdSink::new(rt);
            policy_main(rt.alloc(), &words, &mut depot, &mut out)
        }
        Err(exit) => exit,
    };
    if !matches!(exit, Exit::Told(_)) {
        // Where standard error takes nothing, the status alone tells the end.
        let _ = eprintln!(rt; "nova_policy: {exit}");
    }
    ExitCode::from(exit.status())
}

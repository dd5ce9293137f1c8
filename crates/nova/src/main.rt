//! `nova`: runs scenarios on the proved kernel of a microhypervisor.
#![tactic(auto)]

use nova_io::{FileDepot, StdSink};
use nova_top::{CommandFault, Exit, Open, nova_main};
use std::env;
use std::process::ExitCode;

/// The words after the program's own name, or the end that it makes where they can't be read.
fn words(rt: HostRuntime) -> Result<Vec<String>, Exit> {
    let words = env::args(&rt).map_err(|error| CommandFault::of_words(error.kind()))?;
    Ok(words.skip(1).collect(rt.alloc())?)
}

fn main(rt: HostRuntime) -> ExitCode {
    let exit = match words(rt) {
        Ok(words) => {
            let mut depot = FileDepot::new(rt);
            let mut out = StdSink::new(rt);
            nova_main(&rt, rt.alloc(), &words, &mut depot, &mut out, &Open)
        }
        Err(exit) => exit,
    };
    if exit != Exit::Done {
        // Where standard error takes nothing, the status alone tells the end.
        let _ = eprintln!(rt; "nova: {exit}");
    }
    ExitCode::from(exit.status())
}

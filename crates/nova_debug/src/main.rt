//! `nova_debug SCENARIO LIMIT [ORDER]`: makes the run of a scenario and goes through it in both directions, as lines on standard input
//! ask, and answers in lines.
#![tactic(auto)]

mod beginning;
mod command;
mod conversing;
pub mod laws;
mod making;
mod orders;
mod refusal;
mod serving;
mod verb;

use beginning::begin;
use conversing::converse;
use nova_io::FileDepot;
use refusal::Refusal;
use serving::Session;
use std::io::{BufReader, BufWriter};
use std::{env, io};

/// Answers the lines of standard input on standard output.
fn answer_input(rt: HostRuntime, session: &mut Session) -> io::Result<()> {
    let alloc = rt.alloc();
    let mut out = BufWriter::new(alloc, io::writer(&rt))?;
    let input = BufReader::new(alloc, rt.reader())?;
    converse(alloc, input, &mut out, session)
}

/// Goes through the run of `session`.
fn go_through(rt: HostRuntime, session: Session) -> io::Result<()> {
    let mut session = session;
    answer_input(rt, &mut session)
}

/// Begins by `words`, those of the command line, of which the first is the program's own.
fn begin_by(rt: HostRuntime, words: &[String]) -> Result<Session, Refusal> {
    let mut depot = FileDepot::new(rt);
    let alloc = rt.alloc();
    match words {
        [_, name, limit] => begin(alloc, &mut depot, name, limit.as_bytes(), None),
        [_, name, limit, order] => {
            let order = Some(order.as_str());
            begin(alloc, &mut depot, name, limit.as_bytes(), order)
        }
        _ => Err(Refusal::Usage),
    }
}

fn main(rt: HostRuntime) -> io::Result<()> {
    let words: Vec<String> = env::args(&rt)?.collect(rt.alloc())?;
    match begin_by(rt, words.as_slice()) {
        Ok(session) => go_through(rt, session),
        Err(refusal) => println!(rt; "{refusal}"),
    }
}

//! Prints the numbers by which programs speak to the hypervisor, a line each: its name in `tools/c/include/nova.h`, and the number that
//! the code has for it. Where no constant of the code has it, it is what the code reads or writes.
#![tactic(auto)]

mod calls;
mod limits;
mod machine;
mod messages;
mod names;
mod ranges;
mod rows;

use crate::rows::write_rows;
use std::io;
use std::io::{BufWriter, Write};

fn main(rt: HostRuntime) -> io::Result<()> {
    let alloc = rt.alloc();
    let mut out = BufWriter::new(alloc, io::writer(&rt))?;
    write_rows(&mut out, &names::makers())?;
    write_rows(&mut out, &names::controls())?;
    write_rows(&mut out, &names::statuses())?;
    write_rows(&mut out, &names::rights())?;
    write_rows(&mut out, &names::all_rights())?;
    write_rows(&mut out, &names::groups())?;
    for rows in &calls::arguments() {
        write_rows(&mut out, rows)?;
    }
    write_rows(&mut out, &ranges::words())?;
    write_rows(&mut out, &messages::places())?;
    write_rows(&mut out, &messages::exits())?;
    write_rows(&mut out, &limits::limits())?;
    write_rows(&mut out, &machine::reasons())?;
    write_rows(&mut out, &machine::root(&machine::objects(alloc)?))?;
    out.flush()
}

//! Reads programs of RV32I, one a line as words in hexadecimal, runs each until it raises, and prints
//! the registers that it ends with. For the programs in `stdin` those of QEMU stand in `stdout`.
#![tactic(auto)]

ghost use Rattle.std.specs.Prelude.{◌≤◌, length, vec_len, IfOk};

mod memory;
mod registers;
mod run;

use memory::{Memory, START, WORDS};
use registers::NonZeroRegisters;
use rv_core::outcome::BREAKPOINT;
use rv_core::{Outcome, Regs};
use std::alloc::Global;
use std::io;
use std::io::{BufRead, BufReader, BufWriter, Write};

/// How many instructions a program may take.
const STEPS: u32 = 10_000;

/// Reads the program `line`: words in hexadecimal with one space between, no more than memory holds.
fn parse_program(alloc: Global, line: &str) -> io::Result<Vec<u32>>
    ensures { IfOk result (λ program. vec_len program ≤ WORDS) }
{
    let mut program = Vec::new(alloc);
    for text in line.split(' ') {
        let Ok(word) = u32::from_str_radix(text, 16) else {
            let message = format!(in alloc; "not a word in hexadecimal: {text:?}")?;
            return Err(io::Error::new(io::ErrorKind::InvalidData, &message));
        };
        program.push(word)?;
    }
    if program.len() > WORDS {
        let message = "the program is larger than memory";
        return Err(io::Error::new(io::ErrorKind::InvalidData, message));
    }
    Ok(program)
}

/// Runs `program` and writes the registers that it ends with, or how it ended if not at a breakpoint.
fn write_run(out: &mut impl Write, alloc: Global, program: &[u32]) -> io::Result<()>
    requires { length program.now ≤ WORDS }
{
    let mut memory = Memory::new(alloc, program)?;
    let mut regs = Regs::new(START, 0);
    match run::run(&mut regs, &mut memory, STEPS) {
        Outcome::Raise {
            reason: BREAKPOINT,
            ..
        } => writeln!(out, "{}", NonZeroRegisters(&regs)),
        Outcome::Raise { reason, q0, q1 } => {
            writeln!(out, "raise of reason {reason} with {q0:08x} and {q1:08x}")
        }
        Outcome::Next => writeln!(out, "no raise in {STEPS} instructions"),
    }
}

fn main(rt: HostRuntime) -> io::Result<()> {
    let alloc = rt.alloc();
    let mut out = BufWriter::new(alloc, io::writer(&rt))?;
    for line in BufReader::new(alloc, rt.reader())?.lines(alloc) {
        let program = parse_program(alloc, &line?)?;
        write_run(&mut out, alloc, &program)?;
    }
    out.flush()
}

//! Reads assembler texts with an empty line between each and the next, and prints for each its words, one a line in eight
//! hexadecimal digits, or its fault, and then an empty line. For the texts in `stdin` the words that GNU's assembler makes of them
//! stand in `stdout`.
#![tactic(auto)]

use rv_asm::assemble;
use std::alloc::Global;
use std::io;
use std::io::{BufWriter, Write};

/// Writes the words of `text`, or its fault.
fn write_words(alloc: Global, out: &mut impl Write, text: &str) -> io::Result<()> {
    match assemble(alloc, text.as_bytes()) {
        Ok(words) => {
            for word in &words {
                writeln!(out, "{word:08x}")?;
            }
        }
        Err(fault) => writeln!(out, "{fault}")?,
    }
    writeln!(out)
}

fn main(rt: HostRuntime) -> io::Result<()> {
    let alloc = rt.alloc();
    let mut out = BufWriter::new(alloc, io::writer(&rt))?;
    let texts = io::read_to_string(alloc, rt.reader())?;
    for text in texts.split("\n\n") {
        write_words(alloc, &mut out, text)?;
    }
    out.flush()
}

//! Reads words, one a line in eight hexadecimal digits, and prints each with the instruction of RV32I
//! that it is, or `illegal`. For the words in `stdin` what GNU's disassembler says stands in `stdout`.
#![tactic(auto)]

mod word;

use rv_asm::print;
use rv_core::{Instr, decode, encode};
use std::alloc::Global;
use std::io;
use std::io::{BufRead, BufReader, BufWriter, Write};

/// Writes `word` with its reading, and a line more where the instruction is encoded as another word. A fence may be: it has many words.
fn write_reading(out: &mut impl Write, alloc: Global, word: u32) -> io::Result<()> {
    let Some(instr) = decode(word) else {
        return writeln!(out, "{word:08x} illegal");
    };
    let text = print(alloc, &instr)?;
    writeln!(out, "{word:08x} {text}")?;
    let encoded = encode(&instr);
    if encoded != word && !matches!(instr, Instr::Fence) {
        writeln!(out, "{word:08x} encoded {encoded:08x}")?;
    }
    Ok(())
}

fn main(rt: HostRuntime) -> io::Result<()> {
    let alloc = rt.alloc();
    let mut out = BufWriter::new(alloc, io::writer(&rt))?;
    for line in BufReader::new(alloc, rt.reader())?.lines(alloc) {
        let line = line?;
        let Some(word) = word::parse(&line) else {
            let message = format!(in alloc; "not eight hexadecimal digits: {line:?}")?;
            return Err(io::Error::new(io::ErrorKind::InvalidData, &message));
        };
        write_reading(&mut out, alloc, word)?;
    }
    out.flush()
}

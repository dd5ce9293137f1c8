ghost use Rattle.std.specs.Prelude.{◌≡◌, [], ◌∷◌, ◌+◌, ◌<◌, ◌^◌, length, option_map, IfOk, OnOk};
ghost use Rattle.std.specs.List.{before_first, after_first, find};
ghost use Rattle.nova_text.specs.Line.{row_of};
ghost use Rattle.rv_asm.specs.Assembled.{OrMemory};
ghost use Rattle.rv_asm.specs.Program.{assembled};
ghost use Rattle.nova_scenario.specs.Blocks.{GivesBlock, IsFaultOfAsm};
ghost use Rattle.nova_scenario.specs.Items.{is_end, block};
ghost use Rattle.nova_scenario.specs.Read.{IsFault, Gives};
ghost use Rattle.nova_scenario.specs.Words.{place_of_end, forbidden_in, line_of, lesser, asm_by, asm_words, bytes_of, in_bytes};

use crate::block::Block;
use crate::fault::{ScenarioFault, Why};
use crate::slices::between;
use crate::statement::is_end;
use nova_text::{Line, Lines, has_forbidden};
use rv_asm::{AsmFault, assemble};
use std::alloc::{AllocError, Global};

/// How far an asm block reaches.
#[derive(Clone, Copy)]
struct Extent {
    /// The number of its first line with a forbidden byte.
    forbidden: Option<u64>,

    /// The number of its line `end`, if it is there.
    end: Option<u64>,

    /// The place after its text.
    stop: u64,
}

/// The number of `line`, where it has a forbidden byte.
fn forbidden_in(line: Line) -> Option<u64>
    ensures { result ≡ forbidden_in (row_of line.entry ∷ []) }
{
    if has_forbidden(line.text) {
        Some(line.number)
    } else {
        None
    }
}

/// Passes over an asm block in a text of `len` bytes, up to its line `end` or the end of `lines`.
fn extent_of(lines: &mut Lines, len: u64) -> Extent
    ensures forbidden { result.forbidden ≡ forbidden_in (before_first is_end lines.old) }
    ensures end { result.end ≡ option_map (λ row. row.number) (find is_end lines.old) }
    ensures stop { result.stop ≡ place_of_end len (find is_end lines.old) }
    ensures lines { lines.new ≡ after_first is_end lines.old }
{
    let mut forbidden = None;
    while let Some(line) = lines.next() {
        if is_end(line) {
            return Extent {
                forbidden,
                end: Some(line.number),
                stop: line.start,
            };
        }
        forbidden = forbidden.or(forbidden_in(line));
    }
    Extent {
        forbidden,
        end: None,
        stop: len,
    }
}

/// The number of the line with `place` of the block's `text`, whose first line has the number `first`.
fn line_of(first: u64, text: &[u8], place: u64) -> u64
    requires { first + 1 + length text.now < 2 ^ 64 }
    ensures { result ≡ line_of first text.now place }
{
    let (before, _) = text.split_at(text.len().min(place as usize));
    let feeds = before.iter().filter(|byte| **byte == b'\n').count();
    first + 1 + feeds as u64
}

/// Of `forbidden`, the first line with a forbidden byte, and `fault`, one of the assembler at line `line`, the fault of least line.
fn lesser(forbidden: Option<u64>, line: u64, fault: AsmFault) -> ScenarioFault
    ensures { IsFault (lesser forbidden line fault) result }
{
    match forbidden {
        Some(number) if number <= line => Why::Syntax.at(number),
        _ => Why::Asm(fault).at(line),
    }
}

/// The fault of a block that the assembler refuses.
fn refused(first: u64, text: &[u8], forbidden: Option<u64>, fault: AsmFault) -> ScenarioFault
    requires { first + 1 + length text.now < 2 ^ 64 }
    ensures { IsFaultOfAsm first text.now forbidden fault result }
{
    match fault {
        AsmFault::UnknownName(span)
        | AsmFault::BadOperand(span)
        | AsmFault::OutOfRange(span)
        | AsmFault::TwiceLabel(span)
        | AsmFault::NoLabel(span) => lesser(forbidden, line_of(first, text, span.start), fault),
        AsmFault::Memory => ScenarioFault::Memory,
    }
}

/// `words` as bytes, of each the lowest first.
fn bytes_of(alloc: Global, words: &[u32]) -> Result<Vec<u8>, AllocError>
    ensures { IfOk result (λ bytes. bytes.items ≡ bytes_of words.now) }
{
    let mut bytes = Vec::new(alloc);
    for word in words {
        bytes.extend_from_slice(&word.to_le_bytes())?;
    }
    Ok(bytes)
}

/// The bytes of the words of a block's text, which stands after the line `first`. Its first forbidden byte is on the line `forbidden`.
fn asm_bytes(
    alloc: Global,
    first: u64,
    text: &[u8],
    forbidden: Option<u64>,
) -> Result<Vec<u8>, ScenarioFault>
    requires { first + 1 + length text.now < 2 ^ 64 }
    ensures { Gives (λ bytes. bytes.items) (in_bytes (asm_by first text.now forbidden (assembled text.now))) result }
{
    let words = match assemble(alloc, text) {
        Ok(words) => words,
        Err(fault) => return Err(refused(first, text, forbidden, fault)),
    };
    match forbidden {
        Some(number) => Err(Why::Syntax.at(number)),
        None => Ok(bytes_of(alloc, &words)?),
    }
}

/// Reads the asm block after its first line `first`, up to its line `end` or the end of `bytes`.
pub fn asm_block(
    alloc: Global,
    bytes: &[u8],
    first: Line,
    lines: &mut Lines,
) -> Result<Block, ScenarioFault>
    ensures block { GivesBlock (in_bytes (asm_words bytes.now (block (row_of first.entry) lines.old))) (find is_end lines.old) result }
    ensures lines { OnOk result (lines.new ≡ after_first is_end lines.old) }
{
    let extent = extent_of(lines, bytes.len() as u64);
    let start = first.start + first.text.len() as u64 + 1;
    let text = between(bytes, start, extent.stop);
    Ok(Block {
        bytes: asm_bytes(alloc, first.number, text, extent.forbidden)?,
        end: extent.end,
    })
}

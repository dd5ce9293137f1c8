ghost use Rattle.std.specs.Prelude.{◌≡◌, OnOk};
ghost use Rattle.std.specs.List.{before_first, after_first, find};
ghost use Rattle.nova_text.specs.Line.{row_of};
ghost use Rattle.nova_scenario.specs.Blocks.{token_at, with_digits, GivesBlock};
ghost use Rattle.nova_scenario.specs.Digits.{elf_bytes};
ghost use Rattle.nova_scenario.specs.Items.{is_end};
ghost use Rattle.nova_scenario.specs.Read.{Gives, BecomesAt};

use crate::block::Block;
use crate::fault::{ScenarioFault, Why};
use crate::statement::is_end;
use hex::FromHexError;
use nova_text::{Line, Lines, has_forbidden};
use std::alloc::Global;

/// The bytes that `text`, a token of line `line`, writes.
fn bytes_of(alloc: Global, text: &[u8], line: u64) -> Result<Vec<u8>, ScenarioFault>
    ensures { Gives (λ bytes. bytes.items) (token_at line text.now) result }
{
    match hex::decode(alloc, text) {
        Ok(bytes) => Ok(bytes),
        Err(FromHexError::OutOfMemory) => Err(ScenarioFault::Memory),
        Err(_) => Err(Why::Syntax.at(line)),
    }
}

/// Appends the bytes that the tokens of `line` write.
fn push_bytes(alloc: Global, bytes: &mut Vec<u8>, mut line: Line) -> Result<(), ScenarioFault>
    ensures { BecomesAt (with_digits bytes.old.items (row_of line.entry)) bytes.new.items result }
{
    let number = line.number;
    if has_forbidden(line.text) {
        return Err(Why::Syntax.at(number));
    }
    while let Some(token) = line.next_token() {
        let more = bytes_of(alloc, token.text, number)?;
        bytes.extend_from_slice(&more)?;
    }
    Ok(())
}

/// Reads the bytes of an executable from `lines`, up to its line `end` or the end of the lines.
pub fn elf_block(alloc: Global, lines: &mut Lines) -> Result<Block, ScenarioFault>
    ensures block { GivesBlock (elf_bytes (before_first is_end lines.old)) (find is_end lines.old) result }
    ensures lines { OnOk result (lines.new ≡ after_first is_end lines.old) }
{
    let mut bytes = Vec::new(alloc);
    while let Some(line) = lines.next() {
        if is_end(line) {
            return Ok(Block {
                bytes,
                end: Some(line.number),
            });
        }
        push_bytes(alloc, &mut bytes, line)?;
    }
    Ok(Block { bytes, end: None })
}

ghost use Rattle.std.specs.Prelude.{◌≡◌, OnOk};
ghost use Rattle.std.specs.List.{before_first, after_first, find};
ghost use Rattle.nova_text.specs.Line.{row_of};
ghost use Rattle.nova_scenario.specs.Blocks.{word_of, with_line, GivesBlock};
ghost use Rattle.nova_scenario.specs.Items.{is_end};
ghost use Rattle.nova_scenario.specs.Read.{BecomesAt};
ghost use Rattle.nova_scenario.specs.Words.{hex_words, in_bytes};

use crate::block::Block;
use crate::fault::{ScenarioFault, Why};
use crate::statement::is_end;
use nova_text::{Line, Lines, has_forbidden, parse_digits};
use std::alloc::Global;

/// How many digits a word has.
const WORD_DIGITS: usize = 8;

/// The word of the token `text`, which is exactly eight hexadecimal digits.
fn word_of(text: &[u8]) -> Option<u32>
    ensures { result ≡ word_of text.now }
{
    if text.len() != WORD_DIGITS {
        return None;
    }
    parse_digits(text, 16).ok()
}

/// Appends the bytes of the words of `line`.
fn push_words(bytes: &mut Vec<u8>, mut line: Line) -> Result<(), ScenarioFault>
    ensures { BecomesAt (with_line bytes.old.items (row_of line.entry)) bytes.new.items result }
{
    let number = line.number;
    if has_forbidden(line.text) {
        return Err(Why::Syntax.at(number));
    }
    while let Some(token) = line.next_token() {
        let Some(word) = word_of(token.text) else {
            return Err(Why::Syntax.at(number));
        };
        bytes.extend_from_slice(&word.to_le_bytes())?;
    }
    Ok(())
}

/// Reads a hex block from `lines`, up to its line `end` or the end of the lines.
pub fn hex_block(alloc: Global, lines: &mut Lines) -> Result<Block, ScenarioFault>
    ensures block { GivesBlock (in_bytes (hex_words (before_first is_end lines.old))) (find is_end lines.old) result }
    ensures lines { OnOk result (lines.new ≡ after_first is_end lines.old) }
{
    let mut bytes = Vec::new(alloc);
    while let Some(line) = lines.next() {
        if is_end(line) {
            return Ok(Block {
                bytes,
                end: Some(line.number),
            });
        }
        push_words(&mut bytes, line)?;
    }
    Ok(Block { bytes, end: None })
}

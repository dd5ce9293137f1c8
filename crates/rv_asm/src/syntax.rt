ghost use Rattle.std.specs.Prelude.{◌≡◌, ◌≤◌, ◌<◌, ◌^◌, ◌+◌, not, ◌==◌, length, map, option_map, Option, Some, ◌∷◌, is_some, true, IfOk, IfErr, IfSome};
ghost use Rattle.std.specs.List.{position_or_len, list_all};
ghost use Rattle.nova_text.specs.Line.{row_of, piece_of_row};
ghost use Rattle.nova_text.specs.Token.{piece_of, tokens_left};
ghost use Rattle.nova_text.specs.Bytes.{before_comment};
ghost use Rattle.rv_asm.specs.Syntax.{continues_name, begins_name, is_name, is_comma, name_len, without_gap, label_in, labelled, last_end, operand_of, separated, operands_in, written};
ghost use Rattle.rv_asm.specs.Shown.{label_seen, labelled_of, operand_seen, written_of, parts_left, left_len};

use nova_text::{Line, Span, Token, before_comment, gap_len, is_separator};
use std::alloc::{AllocError, Global};

/// An operand without the separators around it.
#[derive(Clone, Copy)]
pub struct Operand<'a> {
    /// Its bytes, or none where separators stand within it.
    pub text: &'a [u8],
    pub span: Span,
}

/// The name of an instruction and its operands.
#[derive(Drop)]
pub struct Written<'a> {
    pub name: Token<'a>,
    pub operands: Vec<Operand<'a>>,
}

/// Whether `byte` may begin a name.
fn begins_name(byte: u8) -> bool
    ensures { result ≡ begins_name byte }
{
    byte.is_ascii_alphabetic() || byte == b'_'
}

/// Whether `byte` may stand in a name.
fn continues_name(byte: u8) -> bool
    ensures { result ≡ continues_name byte }
{
    byte.is_ascii_alphanumeric() || byte == b'_'
}

/// Whether all of `bytes` may stand in a name.
fn all_continue(bytes: &[u8]) -> bool
    ensures { result ≡ list_all continues_name bytes.now }
{
    bytes.iter().all(|&byte| continues_name(byte))
}

/// Whether `text` is a letter or `_`, and then letters, digits and `_`.
pub fn is_name(text: &[u8]) -> bool
    ensures { result ≡ is_name text.now }
{
    match text {
        [first, rest @ ..] => begins_name(*first) && all_continue(rest),
        [] => false,
    }
}

/// How many bytes in front may stand in a name.
fn name_len(bytes: &[u8]) -> usize
    ensures len { result ≡ name_len bytes.now }
    ensures within { result ≤ length bytes.now }
{
    bytes
        .iter()
        .position(|&byte| !continues_name(byte))
        .unwrap_or(bytes.len())
}

/// How many of `bytes` stand before the first `sign`; all where there is none.
pub fn len_before(bytes: &[u8], sign: u8) -> usize
    ensures len { result ≡ position_or_len (λ b. b == sign) bytes.now }
    ensures within { result ≤ length bytes.now }
{
    bytes
        .iter()
        .position(|&byte| byte == sign)
        .unwrap_or(bytes.len())
}

/// `line` without the separators in front.
fn without_gap(line: Line) -> Line
    ensures { row_of result ≡ without_gap (row_of line.entry) }
{
    let gap = gap_len(line.text);
    let (_, text) = line.text.split_at(gap);
    Line {
        number: line.number,
        start: line.start + gap as u64,
        text,
    }
}

/// The label that `line` begins with, without its colon, and what stands after it.
fn label_in(line: Line) -> Option<(Token, Line)>
    ensures { option_map label_seen result ≡ label_in (row_of line.entry) }
{
    let len = name_len(line.text);
    let (name, after) = line.text.split_at(len);
    if !is_name(name) {
        return None;
    }
    match after.strip_prefix(b":") {
        Some(rest) => {
            let end = line.start + len as u64;
            let label = Token {
                text: name,
                span: Span {
                    start: line.start,
                    end,
                },
            };
            let rest = Line {
                number: line.number,
                start: end + 1,
                text: rest,
            };
            Some((label, rest))
        }
        None => None,
    }
}

/// The label of `line`, without its colon, and what stands after it.
pub fn labelled(line: Line) -> (Option<Token>, Line)
    ensures { labelled_of result.0 result.1 ≡ labelled (row_of line.entry) }
{
    match label_in(without_gap(line)) {
        Some((label, rest)) => (Some(label), rest),
        None => (None, line),
    }
}

/// Where the last token of `line` ends, or `end` where none is left.
fn last_end(mut line: Line, mut end: u64) -> u64
    ensures { result ≡ last_end end (tokens_left line.entry) }
{
    while let Some(token) = line.next_token() {
        end = token.span.end;
    }
    end
}

/// The operand `part`, which stands between two commas.
fn trimmed(part: Line) -> Operand
    ensures { operand_seen result ≡ operand_of (piece_of_row (row_of part.entry)) }
{
    let start = part.start;
    let mut line = part;
    let Some(first) = line.next_token() else {
        return Operand {
            text: &[],
            span: Span { start, end: start },
        };
    };
    match line.next_token() {
        None => Operand {
            text: first.text,
            span: first.span,
        },
        Some(second) => Operand {
            text: &[],
            span: Span {
                start: first.span.start,
                end: last_end(line, second.span.end),
            },
        },
    }
}

/// What stands before the first comma of `line`, and what stands after it, if there is one.
fn cut_at_comma(line: Line) -> (Line, Option<Line>)
    ensures parts { parts_left (Some (row_of line.entry)) ≡ piece_of_row (row_of result.0) ∷ parts_left (option_map row_of result.1) }
    ensures shorter { left_len (option_map row_of result.1) ≤ length line.entry.text.now }
{
    let (text, after) = line.text.split_at(len_before(line.text, b','));
    let part = Line {
        number: line.number,
        start: line.start,
        text,
    };
    match after {
        [_, rest @ ..] => {
            let rest = Line {
                number: line.number,
                start: line.start + text.len() as u64 + 1,
                text: rest,
            };
            (part, Some(rest))
        }
        [] => (part, None),
    }
}

/// The operands of `line`, which has a token.
fn operands<'a>(alloc: Global, line: Line<'a>) -> Result<Vec<Operand<'a>>, AllocError>
    ensures { IfOk result (λ operands. map operand_seen operands.items ≡ separated (row_of line.entry)) }
{
    let mut left = Some(Line {
        number: line.number,
        start: line.start,
        text: before_comment(line.text),
    });
    let mut operands = Vec::new(alloc);
    while let Some(line) = left {
        let (part, rest) = cut_at_comma(line);
        operands.push(trimmed(part))?;
        left = rest;
    }
    Ok(operands)
}

/// The operands of `line`: none where no token is left.
fn operands_in<'a>(alloc: Global, line: Line<'a>) -> Result<Vec<Operand<'a>>, AllocError>
    ensures { IfOk result (λ operands. map operand_seen operands.items ≡ operands_in (row_of line.entry)) }
{
    let mut rest = line;
    if rest.next_token().is_none() {
        return Ok(Vec::new(alloc));
    }
    operands(alloc, line)
}

/// What `line` holds after its label: nothing, or the name of an instruction and operands.
pub fn parts<'a>(alloc: Global, line: Line<'a>) -> Result<Option<Written<'a>>, AllocError>
    ensures parts { IfOk result (λ found. option_map written_of found ≡ written (row_of line.entry)) }
    ensures memory { IfErr result (λ _. is_some (written (row_of line.entry)) ≡ true) }
{
    let mut rest = line;
    let Some(name) = rest.next_token() else {
        return Ok(None);
    };
    let operands = operands_in(alloc, rest)?;
    Ok(Some(Written { name, operands }))
}

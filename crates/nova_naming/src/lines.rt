// What the words of a line say.
ghost use Rattle.std.specs.Prelude.{◌≡◌, IfOk, option_map, string_bytes};
ghost use Rattle.nova_text.specs.Token.{texts_of, tokens_left};
ghost use Rattle.nova_naming.specs.Policy.{Gives, GivesBy, at_line};
ghost use Rattle.nova_naming.specs.Statements.{flowing, named_by, numbers_of, said, sided, stated, stated_shared, two_names};

use crate::fault::{PolicyFault, PolicyWhy};
use crate::statement::{Flow, Statement, is_name, name_of};
use nova_text::{Line, parse_number};
use std::alloc::{AllocError, Global};

/// The numbers that are left of `line`; none where a word is no number below 2^32.
fn read_numbers(alloc: Global, line: &mut Line) -> Result<Option<Vec<u32>>, AllocError>
    ensures { IfOk result (λ numbers. option_map (λ ns. ns.items) numbers ≡ numbers_of (texts_of (tokens_left line.old))) }
{
    let mut numbers = Vec::new(alloc);
    while let Some(token) = line.next_token() {
        let Ok(number) = parse_number(token.text) else {
            return Ok(None);
        };
        numbers.push(number)?;
    }
    Ok(Some(numbers))
}

/// The domains or semaphores that the words that are left of a line name.
fn read_named(alloc: Global, number: u64, line: &mut Line) -> Result<Vec<u32>, PolicyFault>
    ensures { GivesBy (λ ns. ns.items) (at_line number (named_by (texts_of (tokens_left line.old)))) result }
{
    let Some(named) = read_numbers(alloc, line)? else {
        return Err(PolicyWhy::Number.at(number));
    };
    if named.is_empty() {
        return Err(PolicyWhy::Empty.at(number));
    }
    Ok(named)
}

/// What is said of the domains that are left of `line`.
fn read_stated(
    alloc: Global,
    number: u64,
    side: Option<String>,
    line: &mut Line,
) -> Result<Option<Statement>, PolicyFault>
    ensures { Gives (at_line number (stated number (option_map string_bytes side) (named_by (texts_of (tokens_left line.old))))) result }
{
    let domains = read_named(alloc, number, line)?;
    Ok(Some(Statement {
        line: number,
        side,
        domains,
        semaphores: Vec::new(alloc),
        flow: None,
    }))
}

/// What is said of the semaphores that are left of a line.
fn read_shared(
    alloc: Global,
    number: u64,
    line: &mut Line,
) -> Result<Option<Statement>, PolicyFault>
    ensures { Gives (at_line number (stated_shared number (named_by (texts_of (tokens_left line.old))))) result }
{
    let semaphores = read_named(alloc, number, line)?;
    Ok(Some(Statement {
        line: number,
        side: None,
        domains: Vec::new(alloc),
        semaphores,
        flow: None,
    }))
}

/// What is said behind the word `side`.
fn read_side(alloc: Global, number: u64, line: &mut Line) -> Result<Option<Statement>, PolicyFault>
    ensures { Gives (at_line number (sided number (texts_of (tokens_left line.old)))) result }
{
    let Some(name) = line.next_token() else {
        return Err(PolicyWhy::Name.at(number));
    };
    if !is_name(name.text) {
        return Err(PolicyWhy::Name.at(number));
    }
    let name = name_of(alloc, name.text)?;
    read_stated(alloc, number, Some(name), line)
}

/// The two names that are left of a line; none where that isn't what is left.
fn two_names<'a>(line: &mut Line<'a>) -> Option<(&'a [u8], &'a [u8])>
    ensures { option_map (λ names. (names.0.now, names.1.now)) result ≡ two_names (texts_of (tokens_left line.old)) }
{
    let from = line.next_token()?;
    let to = line.next_token()?;
    if line.next_token().is_none() && is_name(from.text) && is_name(to.text) {
        Some((from.text, to.text))
    } else {
        None
    }
}

/// What is said behind the word `flow`.
fn read_flow(alloc: Global, number: u64, line: &mut Line) -> Result<Option<Statement>, PolicyFault>
    ensures { Gives (at_line number (flowing number (texts_of (tokens_left line.old)))) result }
{
    let Some((from, to)) = two_names(line) else {
        return Err(PolicyWhy::Name.at(number));
    };
    let from = name_of(alloc, from)?;
    let to = name_of(alloc, to)?;
    Ok(Some(Statement {
        line: number,
        side: None,
        domains: Vec::new(alloc),
        semaphores: Vec::new(alloc),
        flow: Some(Flow { from, to }),
    }))
}

/// What `line` says; nothing where it has no words.
pub(crate) fn read_line(alloc: Global, line: &mut Line) -> Result<Option<Statement>, PolicyFault>
    ensures { Gives (at_line line.old.number (said line.old.number (texts_of (tokens_left line.old)))) result }
{
    let number = line.number;
    let Some(word) = line.next_token() else {
        return Ok(None);
    };
    if word.text == b"trusted".as_slice() {
        read_stated(alloc, number, None, line)
    } else if word.text == b"side".as_slice() {
        read_side(alloc, number, line)
    } else if word.text == b"shared".as_slice() {
        read_shared(alloc, number, line)
    } else if word.text == b"flow".as_slice() {
        read_flow(alloc, number, line)
    } else {
        Err(PolicyWhy::Word.at(number))
    }
}

// The text that names the two guests that are compared.
ghost use Rattle.std.specs.Prelude.{◌≡◌, ◌==◌, ◌<◌, ◌↔◌, length, true, IfSome, IsSome, IfOk};
ghost use Rattle.std.specs.Char.{is_ascii_graphic};
ghost use Rattle.std.specs.List.{list_all, position, position_or_len, before_first, after_first};
ghost use Rattle.nova_text.specs.Number.{number};
ghost use Rattle.nova_answers.specs.Subjects.{is_name, guest_read, subject_of, subjects_of, at_line, IsRead};

use nova_command::Name;
use nova_text::{NumberError, parse_number};
use std::alloc::{AllocError, Global};

/// A guest: the file of the scenario that it runs in, the file of the order of the turns, and the number of its virtual CPU.
#[derive(Debug, Drop)]
pub struct Subject {
    pub scenario: Name,
    pub order: Name,

    /// `None` for a number of 2^32 or more, which no virtual CPU has.
    pub guest: Option<u32>,
}

/// The two guests that are compared.
#[derive(Debug, Drop)]
pub struct Subjects {
    pub first: Subject,
    pub second: Subject,
}

/// Why a text does not name two guests.
#[derive(Clone, Copy, Debug, PartialEq, Eq)]
pub enum SubjectsFault {
    /// This line is the first, counted from 1, that is not of the form or has no line feed at its end; or it is the third.
    Syntax(u64),

    /// Memory was refused.
    Memory,
}

impl From<AllocError> for SubjectsFault {
    ghost use Rattle.nova_answers.specs.declared.subjects.SubjectsFault.TheVariants.{Memory};

    ghost from_gives = { λ error fault. fault ≡ Memory };

    fn from(_: AllocError) -> SubjectsFault {
        SubjectsFault::Memory
    }
}

/// The place of the first of `byte`.
fn position_of(bytes: &[u8], byte: u8) -> Option<usize>
    ensures { result ≡ position (λ b. b == byte) bytes.now }
{
    bytes.iter().position(|&b| b == byte)
}

/// The bytes before the first of `byte`, and those after it. `None` comes exactly where there is none.
fn split_once(bytes: &[u8], byte: u8) -> Option<(&[u8], &[u8])>
    ensures before { IfSome result (λ p. p.0.now ≡ before_first (λ b. b == byte) bytes.now) }
    ensures after { IfSome result (λ p. p.1.now ≡ after_first (λ b. b == byte) bytes.now) }
    ensures there { IsSome result ↔ (position_or_len (λ b. b == byte) bytes.now < length bytes.now) }
{
    let place = position_of(bytes, byte)?;
    let (before, rest) = bytes.split_at(place);
    let (_, after) = rest.split_at(1);
    Some((before, after))
}

/// Whether all bytes of `text` are from 33 to 126.
fn is_graphic(text: &[u8]) -> bool
    ensures { result ≡ list_all is_ascii_graphic text.now }
{
    text.iter().all(|&byte| byte.is_ascii_graphic())
}

/// Whether `text` may be the name of a file: one or more bytes from 33 to 126.
fn is_name(text: &[u8]) -> bool
    ensures { result ≡ is_name text.now }
{
    !text.is_empty() && is_graphic(text)
}

/// `text` as the name of a file.
fn name_of(alloc: Global, text: &[u8]) -> Result<Name, AllocError>
    requires { is_name text.now ≡ true }
    ensures { IfOk result (λ name. name ≡ text.now) }
{
    match str::from_utf8(text) {
        Ok(text) => Ok(Name::from(String::from_str(alloc, text)?)),
        Err(_) => unreachable!("a name is ASCII"),
    }
}

/// The number of a guest that `text` writes, or nothing where it is 2^32 or more. `Malformed` comes exactly where the text is no number.
fn read_guest(text: &[u8]) -> Result<Option<u32>, NumberError>
    ensures { result ≡ guest_read (number text.now) }
{
    match parse_number(text) {
        Ok(guest) => Ok(Some(guest)),
        Err(NumberError::TooLarge) => Ok(None),
        Err(NumberError::Malformed) => Err(NumberError::Malformed),
    }
}

/// The guest of `line`, `SCENARIO ORDER GUEST` without its line feed. `number` is the line's.
#[tactic(auto, unfolding(crate::specs::Subjects::subject_of))]
fn read_subject(alloc: Global, line: &[u8], number: u64) -> Result<Subject, SubjectsFault>
    ensures { IsRead (at_line number (subject_of line.now)) result }
{
    let fault = SubjectsFault::Syntax(number);
    let Some((scenario, rest)) = split_once(line, b' ') else {
        return Err(fault);
    };
    let Some((order, guest)) = split_once(rest, b' ') else {
        return Err(fault);
    };
    let Ok(guest) = read_guest(guest) else {
        return Err(fault);
    };
    if !is_name(scenario) || !is_name(order) {
        return Err(fault);
    }
    Ok(Subject {
        scenario: name_of(alloc, scenario)?,
        order: name_of(alloc, order)?,
        guest,
    })
}

/// Reads `text`, exactly two lines `SCENARIO ORDER GUEST`, each with a line feed at its end and one space between. A name is one or more bytes from
/// 33 to 126, and GUEST is decimal digits, or `0x` and hexadecimal digits.
///
/// `Syntax` comes exactly where the text is none. `Memory` comes where memory is refused.
#[tactic(auto, unfolding(crate::specs::Subjects::subjects_of))]
pub fn read_subjects(alloc: Global, text: &[u8]) -> Result<Subjects, SubjectsFault>
    ensures { IsRead (subjects_of text.now) result }
{
    let Some((line, rest)) = split_once(text, b'\n') else {
        return Err(SubjectsFault::Syntax(1));
    };
    let first = read_subject(alloc, line, 1)?;
    let Some((line, rest)) = split_once(rest, b'\n') else {
        return Err(SubjectsFault::Syntax(2));
    };
    let second = read_subject(alloc, line, 2)?;
    if !rest.is_empty() {
        return Err(SubjectsFault::Syntax(3));
    }
    Ok(Subjects { first, second })
}

ghost use Rattle.std.specs.Prelude.{◌≡◌, ◌≤◌, Some};
ghost use Rattle.nova_text.specs.Number.{number, numeral, is_numeral, u32_of, at_span};

use crate::span::Span;
use std::error::Error;
use std::fmt;

/// Why a token is no number below 2^32.
#[derive(Clone, Copy, Debug, PartialEq, Eq)]
pub enum NumberError {
    /// It is neither decimal digits nor `0x` and hexadecimal digits.
    Malformed,

    /// It is a number of 2^32 or more.
    TooLarge,
}

impl NumberError {
    ghost use Rattle.nova_text.specs.Number.{fault_at};

    /// The fault of a token at `span`.
    pub fn at(self, span: Span) -> NumberFault
        ensures { result ≡ fault_at span self }
    {
        match self {
            NumberError::Malformed => NumberFault::BadToken(span),
            NumberError::TooLarge => NumberFault::TooLarge(span),
        }
    }
}

impl fmt::Display for NumberError {
    ghost use Rattle.nova_text.specs.Printed.{error_text};

    ghost output = { λ error. Some (error_text error) };

    fn fmt<W: fmt::Write>(&self, f: &mut fmt::Formatter<W>) -> fmt::Result {
        f.write_str(match self {
            NumberError::Malformed => "not a number",
            NumberError::TooLarge => "a number of 2^32 or more",
        })
    }
}

impl Error for NumberError {}

/// Why a token is no number below 2^32, and where it stands.
#[derive(Clone, Copy, Debug, PartialEq, Eq)]
pub enum NumberFault {
    /// It is neither decimal digits nor `0x` and hexadecimal digits.
    BadToken(Span),

    /// It is a number of 2^32 or more.
    TooLarge(Span),
}

impl fmt::Display for NumberFault {
    ghost use Rattle.nova_text.specs.Printed.{fault_text};

    ghost output = { λ fault. Some (fault_text fault) };

    fn fmt<W: fmt::Write>(&self, f: &mut fmt::Formatter<W>) -> fmt::Result {
        match self {
            NumberFault::BadToken(span) => write!(f, "not a number at {span}"),
            NumberFault::TooLarge(span) => write!(f, "a number of 2^32 or more at {span}"),
        }
    }
}

impl Error for NumberFault {}

/// Whether `digits` are one or more digits of the base `radix`, and nothing else.
fn is_numeral(digits: &[u8], radix: u32) -> bool
    requires lower_bound { 2 ≤ radix }
    requires upper_bound { radix ≤ 36 }
    ensures { result ≡ is_numeral radix digits.now }
{
    !digits.is_empty()
        && digits
            .iter()
            .all(|&digit| char::from(digit).is_digit(radix))
}

/// Reads the number of `token`: decimal digits, or `0x` and hexadecimal digits of either case. Zeros may stand in front.
///
/// `Malformed` comes exactly where the token is neither, and `TooLarge` exactly where its number is 2^32 or more.
#[tactic(auto, unfolding(crate::specs::Number::number))]
pub fn parse_number(token: &[u8]) -> Result<u32, NumberError>
    ensures { result ≡ u32_of (number token.now) }
{
    match token.strip_prefix(b"0x") {
        Some(digits) => parse_digits(digits, 16),
        None => parse_digits(token, 10),
    }
}

/// Reads the number that `digits`, one or more of the base `radix`, write, with letters of either case above 9.
///
/// `Malformed` comes exactly where there is no digit or another byte, and `TooLarge` exactly where the number is 2^32 or more.
pub fn parse_digits(digits: &[u8], radix: u32) -> Result<u32, NumberError>
    requires lower_bound { 2 ≤ radix }
    requires upper_bound { radix ≤ 36 }
    ensures { result ≡ u32_of (numeral radix digits.now) }
{
    if !is_numeral(digits, radix) {
        return Err(NumberError::Malformed);
    }
    match str::from_utf8(digits) {
        Ok(text) => u32::from_str_radix(text, radix).or(Err(NumberError::TooLarge)),
        Err(_) => unreachable!("digits are ASCII"),
    }
}

/// Reads the number of `token` at `span`, as `parse_number` does.
///
/// `BadToken` comes exactly where the token is no number, and `TooLarge` exactly where its number is 2^32 or more.
pub fn read_number(token: &[u8], span: Span) -> Result<u32, NumberFault>
    ensures { result ≡ at_span span (u32_of (number token.now)) }
{
    parse_number(token).map_err(|error| error.at(span))
}

ghost use Rattle.std.specs.Prelude.{◌≡◌, ◌*◌, false};
ghost use Rattle.std.specs.List.{position_or_len};
ghost use Rattle.nova_text.specs.Number.{number, u32_of};
ghost use Rattle.rv_asm.specs.Operand.{limited, sized, negated, number_in, shifted, is_odd, unsigned, offset_in, offset_to, target_in, with_rd, with_rs1, with_rs2, with_imm, with_base, is_closing, base_in, address_in, with_operand};
ghost use Rattle.rv_asm.specs.Digits.{is_odd_digit, ends_odd};
ghost use Rattle.rv_asm.specs.Places.{places_of};

use crate::fault::OperandFault;
use crate::label::Labels;
use crate::register::number_named;
use crate::slot::Slot;
use crate::syntax::{is_name, len_before};
use nova_text::{NumberError, parse_number};
use rv_model::Operands;

/// The number that `text` writes, at most `limit`.
fn sized(limit: u32, text: &[u8]) -> Result<u32, OperandFault>
    ensures { result ≡ sized limit (u32_of (number text.now)) }
{
    match parse_number(text) {
        Ok(size) if size <= limit => Ok(size),
        Ok(_) | Err(NumberError::TooLarge) => Err(OperandFault::OutOfRange),
        Err(NumberError::Malformed) => Err(OperandFault::Bad),
    }
}

/// The number `size` below zero as a word.
fn negated(size: Result<u32, OperandFault>) -> Result<u32, OperandFault>
    ensures { result ≡ negated size }
{
    match size {
        Ok(size) => Ok(0u32.wrapping_sub(size)),
        Err(fault) => Err(fault),
    }
}

/// The number that `text` writes, from -`low` to `high`, as a word. Where low is 0 no sign may stand in front.
fn number_in(low: u32, high: u32, text: &[u8]) -> Result<u32, OperandFault>
    ensures { result ≡ number_in low high text.now }
{
    match text.strip_prefix(b"-") {
        Some(digits) if 0 < low => negated(sized(low, digits)),
        _ => sized(high, text),
    }
}

/// The number of the upper 20 bits that `text` writes, as the word.
fn upper_in(text: &[u8]) -> Result<u32, OperandFault>
    ensures { result ≡ shifted (number_in 0 1048575 text.now) }
{
    match sized(1048575, text) {
        Ok(number) => Ok(number << 12),
        Err(fault) => Err(fault),
    }
}

/// Whether `byte` is an odd hexadecimal digit.
fn is_odd_digit(byte: u8) -> bool
    ensures { result ≡ is_odd_digit byte }
{
    match char::from(byte).to_digit(16) {
        Some(digit) => digit % 2 == 1,
        None => false,
    }
}

/// Whether the last byte of `text` is an odd digit.
fn ends_odd(text: &[u8]) -> bool
    ensures { result ≡ ends_odd false text.now }
{
    let mut is_odd = false;
    for byte in text {
        is_odd = is_odd_digit(*byte);
    }
    is_odd
}

/// Whether `text` writes an odd number, of any size.
fn is_odd(text: &[u8]) -> bool
    ensures { result ≡ is_odd (number text.now) }
{
    match parse_number(text) {
        Ok(number) => number % 2 == 1,
        Err(NumberError::TooLarge) => ends_odd(text),
        Err(NumberError::Malformed) => false,
    }
}

/// `text` without its sign, where one may stand in front.
fn unsigned(low: u32, text: &[u8]) -> &[u8]
    ensures { result.now ≡ unsigned low text.now }
{
    match text.strip_prefix(b"-") {
        Some(digits) if 0 < low => digits,
        _ => text,
    }
}

/// The even offset that `text` writes.
fn offset_in(low: u32, high: u32, text: &[u8]) -> Result<u32, OperandFault>
    ensures { result ≡ offset_in low high text.now }
{
    if is_odd(unsigned(low, text)) {
        return Err(OperandFault::Bad);
    }
    number_in(low, high, text)
}

/// The bytes of `words` words, at most `limit`.
fn bytes_of(limit: u32, words: u64) -> Result<u32, OperandFault>
    ensures { result ≡ limited limit (4 * words) }
{
    if words <= u64::from(limit / 4) {
        Ok(4 * words as u32)
    } else {
        Err(OperandFault::OutOfRange)
    }
}

/// The way from `from` to `to`, places in words, in bytes.
fn offset_to(low: u32, high: u32, from: u64, to: u64) -> Result<u32, OperandFault>
    ensures { result ≡ offset_to low high from to }
{
    if to < from {
        negated(bytes_of(low, from - to))
    } else {
        bytes_of(high, to - from)
    }
}

/// The target that `text` writes, a label or an offset.
fn target_in(
    low: u32,
    high: u32,
    labels: &Labels,
    from: u64,
    text: &[u8],
) -> Result<u32, OperandFault>
    ensures { result ≡ target_in low high (places_of labels.now) from text.now }
{
    if !is_name(text) {
        return offset_in(low, high, text);
    }
    match labels.find(text) {
        Some(label) => offset_to(low, high, from, label.place),
        None => Err(OperandFault::NoLabel),
    }
}

/// The operands with the register and the number of an address in brackets.
fn with_base(
    operands: Operands,
    register: Option<u32>,
    number: Result<u32, OperandFault>,
) -> Result<Operands, OperandFault>
    ensures { result ≡ with_base operands register number }
{
    match (register, number) {
        (Some(rs1), Ok(imm)) => Ok(Operands {
            rs1,
            imm,
            ..operands
        }),
        (Some(_), Err(fault)) => Err(fault),
        (None, _) => Err(OperandFault::Bad),
    }
}

/// The operands with `number` and the register that stands before a closing bracket.
fn base_in(
    operands: Operands,
    number: Result<u32, OperandFault>,
    inner: &[u8],
) -> Result<Operands, OperandFault>
    ensures { result ≡ base_in operands number inner.now (position_or_len is_closing inner.now) }
{
    let (register, end) = inner.split_at(len_before(inner, b')'));
    if end == b")".as_slice() {
        with_base(operands, number_named(register), number)
    } else {
        Err(OperandFault::Bad)
    }
}

/// `operands` with those of `n(rs1)` in `text`.
fn address_in(operands: Operands, text: &[u8]) -> Result<Operands, OperandFault>
    ensures { result ≡ address_in operands text.now }
{
    let (number, after) = text.split_at(len_before(text, b'('));
    match after.strip_prefix(b"(") {
        Some(inner) => base_in(operands, number_in(2048, 2047, number), inner),
        None => Err(OperandFault::Bad),
    }
}

/// `operands` with `register` as rd.
fn with_rd(operands: Operands, register: Option<u32>) -> Result<Operands, OperandFault>
    ensures { result ≡ with_rd operands register }
{
    match register {
        Some(rd) => Ok(Operands { rd, ..operands }),
        None => Err(OperandFault::Bad),
    }
}

/// `operands` with `register` as rs1.
fn with_rs1(operands: Operands, register: Option<u32>) -> Result<Operands, OperandFault>
    ensures { result ≡ with_rs1 operands register }
{
    match register {
        Some(rs1) => Ok(Operands { rs1, ..operands }),
        None => Err(OperandFault::Bad),
    }
}

/// `operands` with `register` as rs2.
fn with_rs2(operands: Operands, register: Option<u32>) -> Result<Operands, OperandFault>
    ensures { result ≡ with_rs2 operands register }
{
    match register {
        Some(rs2) => Ok(Operands { rs2, ..operands }),
        None => Err(OperandFault::Bad),
    }
}

/// `operands` with the immediate `imm`.
fn with_imm(operands: Operands, imm: Result<u32, OperandFault>) -> Result<Operands, OperandFault>
    ensures { result ≡ with_imm operands imm }
{
    match imm {
        Ok(imm) => Ok(Operands { imm, ..operands }),
        Err(fault) => Err(fault),
    }
}

impl Slot {
    /// `operands` with that of `text` in its place. Labels, and how many words stand before the line, tell what a target is.
    pub fn with_operand(
        self,
        labels: &Labels,
        from: u64,
        text: &[u8],
        operands: Operands,
    ) -> Result<Operands, OperandFault>
        ensures { result ≡ with_operand (places_of labels.now) from self text.now operands }
    {
        match self {
            Slot::Rd => with_rd(operands, number_named(text)),
            Slot::Rs1 => with_rs1(operands, number_named(text)),
            Slot::Rs2 => with_rs2(operands, number_named(text)),
            Slot::Number { low, high } => with_imm(operands, number_in(low, high, text)),
            Slot::Upper => with_imm(operands, upper_in(text)),
            Slot::Address => address_in(operands, text),
            Slot::Target { low, high } => {
                with_imm(operands, target_in(low, high, labels, from, text))
            }
        }
    }
}

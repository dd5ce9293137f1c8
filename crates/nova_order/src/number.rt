ghost use Rattle.std.specs.Prelude.{◌≡◌, option_map};
ghost use Rattle.std.specs.List.{list_all};
ghost use Rattle.std.specs.Char.{is_digit};
ghost use Rattle.nova_order.specs.Numbers.{is_canonical, number};
ghost use Rattle.nova_order.specs.Text.{block_of};

use crate::split::split_once;

/// Whether all bytes of `text` are decimal digits.
fn is_digits(text: &[u8]) -> bool
    ensures { result ≡ list_all (λ c. is_digit c 10) text.now }
{
    text.iter().all(|&digit| char::from(digit).is_digit(10))
}

/// Whether `text` is decimal digits without a leading zero, or `0`.
fn is_canonical(text: &[u8]) -> bool
    ensures { result ≡ is_canonical text.now }
{
    !text.is_empty() && is_digits(text) && (text.len() == 1 || text[0] != b'0')
}

/// The number below 2^64 that `text` writes in decimal without a leading zero.
#[tactic(auto, unfolding(crate::specs::Numbers::number))]
fn parse_number(text: &[u8]) -> Option<u64>
    ensures { result ≡ number text.now }
{
    if !is_canonical(text) {
        return None;
    }
    match str::from_utf8(text) {
        Ok(digits) => u64::from_str_radix(digits, 10).ok(),
        Err(_) => unreachable!("digits are ASCII"),
    }
}

/// The processor and the count of `line`, which has no line feed. `None` comes exactly where it is not of the form.
#[tactic(auto, unfolding(crate::specs::Text::block_of))]
pub(crate) fn parse_line(line: &[u8]) -> Option<(u64, u64)>
    ensures { option_map (λ p. record { cpu = p.0; count = p.1 }) result ≡ block_of line.now }
{
    let (cpu, count) = split_once(line, b' ')?;
    Some((parse_number(cpu)?, parse_number(count)?))
}

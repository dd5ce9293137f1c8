ghost use Rattle.std.specs.Prelude.{◌≡◌, ◌≤◌, IfSome};
ghost use Rattle.nova_command.specs.Number.{number_within};

use nova_text::parse_number;

/// The number that `text` writes where it is one from `first` to `last`: decimal digits, or `0x` and hexadecimal digits.
#[tactic(auto, unfolding(crate::specs::Number::number_within))]
pub fn number_within(text: &str, first: u32, last: u32) -> Option<u32>
    ensures exact { result ≡ number_within first last text.now }
    ensures range { IfSome result (λ n. (first ≤ n) × (n ≤ last)) }
{
    parse_number(text.as_bytes())
        .ok()
        .filter(|number| (first..=last).contains(number))
}

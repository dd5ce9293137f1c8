ghost use Rattle.std.specs.Prelude.{◌≡◌, ◌==◌, ◌<◌, length, IfSome, IfNone, IsSome, ◌↔◌};
ghost use Rattle.std.specs.List.{position, position_or_len, before_first, after_first};

/// The place of the first of `byte`.
fn position_of(bytes: &[u8], byte: u8) -> Option<usize>
    ensures { result ≡ position (λ b. b == byte) bytes.now }
{
    bytes.iter().position(|&b| b == byte)
}

/// The bytes before the first of `byte`, and those after it. `None` comes exactly where there is none.
pub(crate) fn split_once(bytes: &[u8], byte: u8) -> Option<(&[u8], &[u8])>
    ensures before { IfSome result (λ p. p.0.now ≡ before_first (λ b. b == byte) bytes.now) }
    ensures after { IfSome result (λ p. p.1.now ≡ after_first (λ b. b == byte) bytes.now) }
    ensures there { IsSome result ↔ (position_or_len (λ b. b == byte) bytes.now < length bytes.now) }
{
    let place = position_of(bytes, byte)?;
    let (before, rest) = bytes.split_at(place);
    let (_, after) = rest.split_at(1);
    Some((before, after))
}

ghost use Rattle.std.specs.Prelude.{◌≡◌, length};
ghost use Rattle.std.specs.Option.{SomeIff};
ghost use Rattle.std.specs.Str.Parse.{AllDigits, digits_value};

/// The word that `text`, eight hexadecimal digits, writes, or nothing where the text is another.
pub fn parse(text: &str) -> Option<u32>
    ensures { SomeIff result ((length text.now ≡ 8) × AllDigits 16 text.now) (digits_value 16 text.now) }
{
    if text.len() != 8 || text.starts_with('+') {
        return None;
    }
    u32::from_str_radix(text, 16).ok()
}

ghost use Rattle.std.specs.Prelude.{◌≡◌, ◌≤◌, not, length};
ghost use Rattle.std.specs.List.{before_first, after_first, position_or_len};
ghost use Rattle.nova_text.specs.Bytes.{is_separator, is_line_feed, is_allowed, ends_token, before_comment, has_forbidden};

/// Whether `byte` stands between tokens: space, tab or carriage return.
pub fn is_separator(byte: u8) -> bool
    ensures { result ≡ is_separator byte }
{
    matches!(byte, b' ' | b'\t' | b'\r')
}

/// The bytes of `line` before its comment, which runs from `#` to the end.
pub fn before_comment(line: &[u8]) -> &[u8]
    ensures { result.now ≡ before_comment line.now }
{
    let len = line
        .iter()
        .position(|&byte| byte == b'#')
        .unwrap_or(line.len());
    let (before, _) = line.split_at(len);
    before
}

/// Whether `byte` may stand before a comment.
fn is_allowed(byte: u8) -> bool
    ensures { result ≡ is_allowed byte }
{
    byte.is_ascii_graphic() || is_separator(byte)
}

/// Whether a byte other than printable ASCII, space, tab and carriage return stands in `line` before its comment.
#[tactic(auto, unfolding(crate::specs::Bytes::has_forbidden))]
pub fn has_forbidden(line: &[u8]) -> bool
    ensures { result ≡ has_forbidden line.now }
{
    before_comment(line).iter().any(|&byte| !is_allowed(byte))
}

/// The part of `bytes` before the first line feed and that after it; all and none where there is no line feed.
pub(crate) fn split_line(bytes: &[u8]) -> (&[u8], &[u8])
    ensures line { result.0.now ≡ before_first is_line_feed bytes.now }
    ensures after { result.1.now ≡ after_first is_line_feed bytes.now }
{
    let (line, after) = bytes.split_at(line_len(bytes));
    match after {
        [_, rest @ ..] => (line, rest),
        [] => (line, after),
    }
}

/// How many of `bytes` stand before the first line feed, or all where there is none.
fn line_len(bytes: &[u8]) -> usize
    ensures len { result ≡ position_or_len is_line_feed bytes.now }
    ensures within { result ≤ length bytes.now }
{
    bytes
        .iter()
        .position(|&byte| byte == b'\n')
        .unwrap_or(bytes.len())
}

/// How many separators stand in front in `bytes`.
pub fn gap_len(bytes: &[u8]) -> usize
    ensures len { result ≡ position_or_len (λ b. not (is_separator b)) bytes.now }
    ensures within { result ≤ length bytes.now }
{
    bytes
        .iter()
        .position(|&byte| !is_separator(byte))
        .unwrap_or(bytes.len())
}

/// How many of `bytes` stand in front before the token that they are of ends.
pub(crate) fn token_len(bytes: &[u8]) -> usize
    ensures len { result ≡ position_or_len ends_token bytes.now }
    ensures within { result ≤ length bytes.now }
{
    bytes
        .iter()
        .position(|&byte| is_separator(byte) || byte == b'#')
        .unwrap_or(bytes.len())
}

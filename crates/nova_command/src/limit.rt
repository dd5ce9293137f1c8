ghost use Rattle.std.specs.Prelude.{◌≡◌, IfSome};
ghost use Rattle.nova_command.specs.Limit.{limit_of, size_of, IsLimit, IsSize};

use crate::number::number_within;

/// The most turns that a run may be given.
const MOST_TURNS: u32 = 10_000_000;

/// The most domains of a bench.
const MOST_DOMAINS: u32 = 90_000;

/// The limit that `text` writes.
pub(crate) fn read_limit(text: &str) -> Option<u32>
    ensures exact { result ≡ limit_of text.now }
    ensures range { IfSome result IsLimit }
{
    number_within(text, 1, MOST_TURNS)
}

/// The number of domains that `text` writes.
pub(crate) fn read_size(text: &str) -> Option<u32>
    ensures exact { result ≡ size_of text.now }
    ensures range { IfSome result IsSize }
{
    number_within(text, 1, MOST_DOMAINS)
}

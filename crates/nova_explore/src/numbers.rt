ghost use Rattle.std.specs.Prelude.{◌≡◌, IfSome};
ghost use Rattle.nova_explore.specs.Numbers.{byte_of, number_of, offset_of, states_of, turns_of, IsStates, IsTurns, IsOffset};

use nova_command::number_within;

/// The most turns of an order.
const MOST_TURNS: u32 = 10_000_000;

/// The most states that a search expands.
const MOST_STATES: u32 = 100_000_000;

/// The last byte of a frame.
const LAST_BYTE: u32 = 4095;

/// The last offset of a word in a frame.
const LAST_OFFSET: u32 = 4092;

/// The number that `text` writes, below 2^32.
pub(crate) fn read_number(text: &str) -> Option<u32>
    ensures { result ≡ number_of text.now }
{
    number_within(text, 0, u32::MAX)
}

/// The most turns that `text` writes.
pub(crate) fn read_turns(text: &str) -> Option<u32>
    ensures exact { result ≡ turns_of text.now }
    ensures range { IfSome result IsTurns }
{
    number_within(text, 1, MOST_TURNS)
}

/// The most states that `text` writes.
pub(crate) fn read_states(text: &str) -> Option<u32>
    ensures exact { result ≡ states_of text.now }
    ensures range { IfSome result IsStates }
{
    number_within(text, 1, MOST_STATES)
}

/// The byte of a frame that `text` writes.
pub(crate) fn read_byte(text: &str) -> Option<u32>
    ensures { result ≡ byte_of text.now }
{
    number_within(text, 0, LAST_BYTE)
}

/// The offset of a word that `text` writes.
pub(crate) fn read_offset(text: &str) -> Option<u32>
    ensures exact { result ≡ offset_of text.now }
    ensures range { IfSome result IsOffset }
{
    number_within(text, 0, LAST_OFFSET)
}

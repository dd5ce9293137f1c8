ghost use Rattle.std.specs.Prelude.{◌≡◌, ◌≤◌};
ghost use Rattle.nova_range.specs.Ranges.{IsRange};
ghost use Rattle.nova_range.specs.Clamps.{IsClamped, part_base, clamp_of};

use crate::range::Range;

/// Two parts of one order: the part of a range that is sent, and that of the window which it goes to.
#[derive(Clone, Copy)]
pub struct Clamped {
    /// The base of the part of the sent range, a multiple of `2^order`.
    pub source: u32,
    /// The base of the part of the window, a multiple of `2^order`.
    pub dest: u32,
    pub order: u8,
}

/// The base of the part of order `low` that a hotspot names in `range`: bits `low` to `order - 1` of the base are taken from the hotspot.
fn part_base(range: Range, low: u8, hotspot: u32) -> u32
    requires range { IsRange range }
    requires part { low ≤ range.order }
    ensures { result ≡ part_base range.base range.order low hotspot }
{
    range.base + hotspot % (1 << range.order) - hotspot % (1 << low)
}

/// Cuts `sent` and `window` to the smaller of their orders. The larger is cut to the part that `hotspot` lies
/// in, counted modulo its size; the smaller stays. Kinds are not compared.
pub fn clamp(sent: Range, window: Range, hotspot: u32) -> Clamped
    requires sent { IsRange sent }
    requires window { IsRange window }
    ensures parts { result ≡ clamp_of sent window hotspot }
    ensures sound { IsClamped sent window result }
{
    let order = sent.order.min(window.order);
    Clamped {
        source: part_base(sent, order, hotspot),
        dest: part_base(window, order, hotspot),
        order,
    }
}

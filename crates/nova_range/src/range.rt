ghost use Rattle.std.specs.Prelude.{◌≡◌, ◌↔◌, IsTrue};
ghost use Rattle.nova_range.specs.Ranges.{IsRange, SharesPlace, IsWithin, end_of, overlaps, is_inside};

/// The two spaces of a protection domain: pages of memory, and selectors of objects.
#[derive(Clone, Copy)]
pub enum Kind {
    Mem,
    Obj,
}

/// The places `base` to `base + 2^order - 1` of a space. `order` is at most 20, and `base` is a
/// multiple of `2^order` below 2^20; calls that take a range need it so.
#[derive(Clone, Copy)]
pub struct Range {
    pub kind: Kind,
    pub base: u32,
    pub order: u8,
}

/// The first place after `range`, at most 2^20.
fn end(range: Range) -> u32
    requires { IsRange range }
    ensures { result ≡ end_of range }
{
    range.base + (1 << range.order)
}

/// Whether `a` and `b` share a place. Their kinds are not compared.
pub fn overlap(a: Range, b: Range) -> bool
    requires first { IsRange a }
    requires second { IsRange b }
    ensures test { result ≡ overlaps a b }
    ensures shared { IsTrue result ↔ SharesPlace a b }
{
    a.base < end(b) && b.base < end(a)
}

/// Whether all places of `a` are places of `b`. Their kinds are not compared.
pub fn inside(a: Range, b: Range) -> bool
    requires inner { IsRange a }
    requires outer { IsRange b }
    ensures test { result ≡ is_inside a b }
    ensures within { IsTrue result ↔ IsWithin a b }
{
    b.base <= a.base && end(a) <= end(b)
}

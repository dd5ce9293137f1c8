ghost use Rattle.std.specs.Prelude.{◌≡◌, ◌<◌, length, slice_get};
ghost use Rattle.std.specs.Bool.{OnTrue};

use nova_kernel::{Kernel, LogByte};

/// Whether the lists of bytes `a` and `b` are equal.
#[tactic(auto, using(crate::proofs::Places::same_when))]
fn same_bytes(a: &[u8], b: &[u8]) -> bool
    ensures { OnTrue result (a.now ≡ b.now) }
{
    a == b
}

/// Whether the RAM frame `frame` of `a` and `b` is equal.
fn same_frame(a: &Kernel, b: &Kernel, frame: u32) -> bool
    requires first { frame < length a.now.state.memory.ram }
    requires second { frame < length b.now.state.memory.ram }
    ensures { OnTrue result (slice_get a.now.state.memory.ram frame ≡ slice_get b.now.state.memory.ram frame) }
{
    same_bytes(a.frame(frame), b.frame(frame))
}

/// Whether the RAM of `a` and `b` is equal.
pub(crate) fn same_ram(a: &Kernel, b: &Kernel) -> bool
    ensures { OnTrue result (a.now.state.memory.ram ≡ b.now.state.memory.ram) }
{
    if a.ram() != b.ram() {
        return false;
    }
    for i in 0..a.ram() {
        if !same_frame(a, b, i) {
            return false;
        }
    }
    true
}

/// Whether `a` and `b`, bytes that were stored to consoles, are equal.
fn same_byte(a: LogByte, b: LogByte) -> bool
    ensures { OnTrue result (a ≡ b) }
{
    a.console == b.console && a.value == b.value
}

/// Whether the same bytes were stored to consoles.
pub(crate) fn same_log(a: &[LogByte], b: &[LogByte]) -> bool
    ensures { OnTrue result (a.now ≡ b.now) }
{
    if a.len() != b.len() {
        return false;
    }
    for i in 0..a.len() {
        if !same_byte(a[i], b[i]) {
            return false;
        }
    }
    true
}

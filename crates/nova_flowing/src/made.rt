// Whether others hold what was made of what a side holds.
ghost use Rattle.std.specs.Prelude.{◌≡◌, ◌&&◌, not};
ghost use Rattle.nova_flowing.specs.Deriving.{first_made, is_made_of, made_by};
ghost use Rattle.nova_flowing.specs.Tests.{is_in};

use crate::capabilities::comes_of;
use crate::leak::{Field, Leak};
use crate::leaks::{at_cap, when};
use crate::tables::is_in;
use nova_kernel::Derivation;

/// Whether no domain of a side holds `d`, and it comes of what one of them holds.
fn is_made_of(list: &[Derivation], own: &[bool], d: Derivation) -> bool
    ensures { result ≡ is_made_of list.now (is_in own.now) d }
{
    !is_in(own, d.pd) && comes_of(list, own, d)
}

fn made_by(list: &[Derivation], own: &[bool], d: Derivation) -> Option<Leak>
    ensures { result ≡ made_by list.now (is_in own.now) d }
{
    when(is_made_of(list, own, d), Field::Derives, at_cap(d))
}

/// The first of `list`, all derivations of a state, that no domain of `own` holds, and that was made of what one of them holds; or none, and then a
/// side of these domains may revoke (`what_others_hold_of_a_side_is_told`).
pub fn first_made(list: &[Derivation], own: &[bool]) -> Option<Leak>
    ensures { result ≡ first_made list.now (is_in own.now) }
{
    for d in list {
        let leak = made_by(list, own, *d);
        if leak.is_some() {
            return leak;
        }
    }
    None
}

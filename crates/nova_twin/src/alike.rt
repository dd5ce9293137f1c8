ghost use Rattle.std.specs.Prelude.{◌≡◌, ◌^◌, true, IfOk, if◌then◌else◌, Some, None};
ghost use Rattle.nova_guest.specs.Conditions.{AreMaps, IsMap};
ghost use Rattle.law_renaming.specs.Forced.{alike, alike_maps, maps_pairs, paired, same_registers};
ghost use Rattle.law_renaming.specs.Walks.{joined};
ghost use Rattle.nova_twin.specs.Steps.{AreRegisters};

use law_renaming::{alike_maps, join_frames, same_state};
use nova_guest::{Guest, Map};
use rv_model::Regs;
use std::alloc::AllocError;

/// Whether two register files are equal.
fn same_registers(r: &Regs, s: &Regs) -> bool
    requires first { AreRegisters r.now }
    requires second { AreRegisters s.now }
    ensures { result ≡ same_registers r.now s.now }
{
    if r.pc() != s.pc() {
        return false;
    }
    for i in 1..32 {
        if r.get(i) != s.get(i) {
            return false;
        }
    }
    true
}

/// Whether two guests are equal but for their frames and what is in them.
pub(crate) fn alike(u: &Guest, v: &Guest) -> bool
    requires first { AreRegisters u.now.regs }
    requires second { AreRegisters v.now.regs }
    ensures { result ≡ alike u.now v.now }
{
    same_registers(&u.regs, &v.regs)
        && same_state(u.state, v.state)
        && u.recall == v.recall
        && alike_maps(u.maps.as_slice(), v.maps.as_slice())
}

/// The frames of `map` and those of its partner join the pairs that were met; it says whether they can.
fn join_map(
    u: &Guest,
    v: &Guest,
    met: &mut Vec<(u32, u32)>,
    map: &Map,
    partner: &Map,
) -> Result<bool, AllocError>
    requires first { IsMap map.now }
    requires second { IsMap partner.now }
    requires alike { partner.now.order ≡ map.now.order }
    ensures { IfOk result (λ can. joined u.now v.now met.old.items (paired (2 ^ map.now.order) map.now.frame partner.now.frame) ≡ (if can then Some met.new.items else None)) }
{
    join_frames(u, v, met, map.frame, partner.frame, 1 << map.order)
}

/// The frames of maps and those of their partners join the pairs that were met; it says whether they can.
pub(crate) fn join_maps(u: &Guest, v: &Guest, met: &mut Vec<(u32, u32)>) -> Result<bool, AllocError>
    requires first { AreMaps u.now.maps }
    requires second { AreMaps v.now.maps }
    requires alike { alike_maps u.now.maps v.now.maps ≡ true }
    ensures { IfOk result (λ can. joined u.now v.now met.old.items (maps_pairs u.now.maps v.now.maps) ≡ (if can then Some met.new.items else None)) }
{
    let maps = u.maps.as_slice();
    let others = v.maps.as_slice();
    for i in 0..maps.len().min(others.len()) {
        if !join_map(u, v, met, &maps[i], &others[i])? {
            return Ok(false);
        }
    }
    Ok(true)
}

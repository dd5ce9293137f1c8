ghost use Rattle.std.specs.Prelude.{◌≡◌, ◌+◌, ◌^◌, ◌≤◌, [], ◌∷◌, Some, None, option_map, if◌then◌else◌, IfOk};
ghost use Rattle.std.specs.List.{list_all};
ghost use Rattle.nova_guest.specs.Cells.{cell_at};
ghost use Rattle.nova_guest.specs.Conditions.{IsInput};
ghost use Rattle.law_renaming.specs.Forced.{among, has_same_bytes, paired, suits};
ghost use Rattle.law_renaming.specs.Walks.{can_join, joined, stepped};

use crate::alike::{alike_input, suits};
use nova_guest::{Cell, Guest, Input};
use std::alloc::AllocError;

/// The bytes of `frame`, where it has a cell.
fn bytes_of<'a>(cells: &'a [Cell], frame: u32) -> Option<&'a [u8]>
    ensures { option_map (λ b. b.now) result ≡ cell_at cells.now frame }
{
    for cell in cells {
        if cell.frame == frame {
            return Some(cell.contents.as_slice());
        }
    }
    None
}

/// Whether the two frames of `pair` have equal bytes, or neither has a cell.
fn has_same_bytes(cells: &[Cell], others: &[Cell], pair: (u32, u32)) -> bool
    ensures { result ≡ has_same_bytes cells.now others.now pair }
{
    match (bytes_of(cells, pair.0), bytes_of(others, pair.1)) {
        (None, None) => true,
        (Some(bytes), Some(other)) => bytes == other,
        _ => false,
    }
}

/// Whether `pair` is among those that were met.
fn is_among(met: &[(u32, u32)], pair: (u32, u32)) -> bool
    ensures { result ≡ among met.now pair.0 pair.1 }
{
    for p in met {
        if p.0 == pair.0 && p.1 == pair.1 {
            return true;
        }
    }
    false
}

/// Whether `pair` suits all that were met.
fn suits_all(met: &[(u32, u32)], pair: (u32, u32)) -> bool
    ensures { result ≡ list_all (suits pair) met.now }
{
    for p in met {
        if !suits(pair, *p) {
            return false;
        }
    }
    true
}

/// Whether `pair` can join those that were met.
fn can_join(u: &Guest, v: &Guest, met: &[(u32, u32)], pair: (u32, u32)) -> bool
    ensures { result ≡ can_join u.now v.now met.now pair }
{
    suits_all(met, pair) && has_same_bytes(u.cells.as_slice(), v.cells.as_slice(), pair)
}

/// Joins `pair` to those that were met, unless it is among them, and says whether it can join.
pub fn join(
    u: &Guest,
    v: &Guest,
    met: &mut Vec<(u32, u32)>,
    pair: (u32, u32),
) -> Result<bool, AllocError>
    ensures { IfOk result (λ can. joined u.now v.now met.old.items (pair ∷ []) ≡ (if can then Some met.new.items else None)) }
{
    if is_among(met.as_slice(), pair) {
        return Ok(true);
    }
    if !can_join(u, v, met.as_slice(), pair) {
        return Ok(false);
    }
    met.push(pair)?;
    Ok(true)
}

/// Joins the `count` pairs of frames from `a` and `b` on, one after another, to those that were met, and says whether they can join.
#[tactic(auto, using(crate::proofs::Pairing::joined_next))]
pub fn join_frames(
    u: &Guest,
    v: &Guest,
    met: &mut Vec<(u32, u32)>,
    a: u32,
    b: u32,
    count: u64,
) -> Result<bool, AllocError>
    requires first { a + count ≤ 2 ^ 32 }
    requires second { b + count ≤ 2 ^ 32 }
    ensures { IfOk result (λ can. joined u.now v.now met.old.items (paired count a b) ≡ (if can then Some met.new.items else None)) }
{
    for i in 0..count {
        let step = i as u32;
        if !join(u, v, met, (a + step, b + step))? {
            return Ok(false);
        }
    }
    Ok(true)
}

/// Joins the pairs that the inputs `i` and `j` name to those that were met, where they are equal but for their frames. It says whether they can.
pub fn step(
    u: &Guest,
    v: &Guest,
    met: &mut Vec<(u32, u32)>,
    i: &Input,
    j: &Input,
) -> Result<bool, AllocError>
    requires first { IsInput i.now }
    requires second { IsInput j.now }
    ensures { IfOk result (λ can. stepped u.now v.now met.old.items i.now j.now ≡ (if can then Some met.new.items else None)) }
{
    if !alike_input(i, j) {
        return Ok(false);
    }
    match (i, j) {
        (Input::Given { order, frame, .. }, Input::Given { frame: new, .. }) => {
            join_frames(u, v, met, *frame, *new, 1 << *order)
        }
        (Input::Foreign { frame, .. }, Input::Foreign { frame: new, .. }) => join(
            u,
            v,
            met,
            (*frame, *new),
        ),
        _ => Ok(true),
    }
}

// What premises ask of a capability.
ghost use Rattle.std.specs.Prelude.{◌≡◌, ◌+◌, ◌^◌, ◌<◌, ◌&&◌, nat_lt, option_map, slice_get};
ghost use Rattle.std.specs.List.{list_any};
ghost use Rattle.nova_range.specs.Rights.{allows};
ghost use Rattle.nova_model.specs.Delegations.{parent_of, with_id};
ghost use Rattle.nova_model.specs.Lines.{line};
ghost use Rattle.law_sides.specs.Resting.{is_unraised, raises};
ghost use Rattle.law_sides.specs.Tied.{leads_to, meets};
ghost use Rattle.nova_flowing.specs.Tests.{holds, is_creator, is_derived, is_either, is_foreign, is_in, is_outside, is_shared, is_written, leads_there, writes_to};

use crate::tables::{is_domain, is_held, is_in, is_memory, is_owned};
use bitflags::Flags;
use nova_kernel::{Derivation, Kernel, Rights};

/// Whether a domain of a set holds a capability to an object.
fn leads_there(set: &[bool], object: u32, d: Derivation) -> bool
    ensures { result ≡ leads_there (is_in set.now) object d }
{
    is_held(set, d) && d.target == object
}

pub(crate) fn holds(list: &[Derivation], set: &[bool], object: u32) -> bool
    ensures { result ≡ holds list.now (is_in set.now) object }
{
    list.iter().any(|&d| leads_there(set, object, d))
}

/// Whether a capability of two sets may raise a semaphore.
fn may_raise(own: &[bool], others: &[bool], sm: u32, d: Derivation) -> bool
    ensures { result ≡ (raises sm d && is_either (is_in own.now) (is_in others.now) d.pd) }
{
    let raises = !is_memory(d.kind) && d.target == sm && d.rights.contains(Rights::UP);
    raises && (is_in(own, d.pd) || is_in(others, d.pd))
}

/// Whether none of theirs may.
pub(crate) fn is_unraised(list: &[Derivation], own: &[bool], others: &[bool], sm: u32) -> bool
    ensures { result ≡ is_unraised (is_either (is_in own.now) (is_in others.now)) list.now sm }
{
    list.iter().all(|&d| !may_raise(own, others, sm, d))
}

/// Whether a capability leads to what isn't its set's own.
pub(crate) fn is_foreign(kernel: &Kernel, set: &[bool], d: Derivation) -> bool
    ensures { result ≡ is_foreign kernel.now.state (is_in set.now) d }
{
    is_held(set, d) && !is_owned(kernel, set, d.target)
}

/// Whether a capability of a side leads to what the others hold, too.
pub(crate) fn is_shared(list: &[Derivation], own: &[bool], others: &[bool], d: Derivation) -> bool
    ensures { result ≡ is_shared list.now (is_in own.now) (is_in others.now) d }
{
    is_held(own, d) && holds(list, others, d.target)
}

/// Whether a capability of a side leads out of its part.
pub(crate) fn is_outside(own: &[bool], part: &[bool], d: Derivation) -> bool
    ensures { result ≡ is_outside (is_in own.now) (is_in part.now) d }
{
    is_held(own, d) && !is_in(part, d.target)
}

/// Whether a capability is a right to create.
pub(crate) fn is_creator(kernel: &Kernel, others: &[bool], d: Derivation) -> bool
    ensures { result ≡ is_creator kernel.now.state (is_in others.now) d }
{
    is_held(others, d) && d.rights.contains(Rights::CREATE) && is_domain(kernel, d.target)
}

fn of_id(list: &[Derivation], id: u32) -> Option<&Derivation>
    ensures { option_map (λ d. d.now) result ≡ with_id list.now id }
{
    list.iter().find(|d| d.id == id)
}

/// The derivation from which another one was derived, if it was.
fn parent_of(list: &[Derivation], d: Derivation) -> Option<Derivation>
    ensures { result ≡ parent_of list.now d }
{
    Some(*of_id(list, d.parent?)?)
}

/// Whether a derivation, or one that it comes of, is held by a domain of a set.
pub(crate) fn comes_of(list: &[Derivation], set: &[bool], d: Derivation) -> bool
    ensures { result ≡ list_any (λ a. is_in set.now a.pd) (line list.now d) }
{
    let mut next = Some(d);
    for _link in 0..u64::from(d.id) + 1 {
        let Some(link) = next else {
            return false;
        };
        if is_in(set, link.pd) {
            return true;
        }
        next = parent_of(list, link);
    }
    false
}

/// Whether what a side holds comes of a range of the others'.
pub(crate) fn is_derived(list: &[Derivation], own: &[bool], others: &[bool], d: Derivation) -> bool
    ensures { result ≡ is_derived list.now (is_in own.now) (is_in others.now) d }
{
    is_in(own, d.pd) && comes_of(list, others, d)
}

/// The first frame after a range of memory.
fn end_of(target: u32, order: u8) -> u64
    requires { order < 32 }
    ensures { result ≡ target + 2 ^ order }
{
    u64::from(target) + (1 << order)
}

/// Whether a frame is below the first one after a range of memory.
#[tactic(auto, using(law_sides::proofs::Ranges::far_end))]
fn is_below(target: u32, order: u8, frame: u32) -> bool
    ensures { result ≡ nat_lt frame (target + 2 ^ order) }
{
    order >= 32 || u64::from(frame) < end_of(target, order)
}

/// Whether a range of memory has a frame.
fn leads_to(d: Derivation, frame: u32) -> bool
    ensures { result ≡ leads_to d frame }
{
    d.target <= frame && is_below(d.target, d.order, frame)
}

/// Whether two ranges of memory have a frame in common.
fn meets(d: Derivation, e: Derivation) -> bool
    ensures { result ≡ meets d e }
{
    leads_to(d, e.target) || leads_to(e, d.target)
}

/// Whether a derivation of the others' is to write to a frame of another one.
fn writes_to(others: &[bool], d: Derivation, e: Derivation) -> bool
    ensures { result ≡ writes_to (is_in others.now) d e }
{
    is_in(others, e.pd) && is_memory(e.kind) && e.rights.contains(Rights::WRITE) && meets(d, e)
}

fn is_written_in(list: &[Derivation], others: &[bool], d: Derivation) -> bool
    ensures { result ≡ list_any (writes_to (is_in others.now) d) list.now }
{
    list.iter().any(|&e| writes_to(others, d, e))
}

/// Whether the others may write to a frame of a side's memory.
pub(crate) fn is_written(list: &[Derivation], own: &[bool], others: &[bool], d: Derivation) -> bool
    ensures { result ≡ is_written list.now (is_in own.now) (is_in others.now) d }
{
    is_in(own, d.pd) && is_memory(d.kind) && is_written_in(list, others, d)
}

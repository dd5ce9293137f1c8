ghost use Rattle.std.specs.Prelude.{◌≡◌, Some, IfSome, Contains};
ghost use Rattle.nova_range.specs.Ranges.{IsRange};
ghost use Rattle.nova_range.specs.RangeWords.{HasWord};
ghost use Rattle.nova_model.specs.Delegations.{parent_of};
ghost use Rattle.nova_model.specs.Translations.{nearest, smaller, seen_through, within, translation, translated};
ghost use Rattle.nova_delegate.specs.Translations.{IsSeen};
ghost use Rattle.nova_nodes.specs.NodesStates.{IsPlaced, IsSound};

use crate::parts::{is_same_kind, read};
use bitflags::Flags;
use nova_model::Derivation;
use nova_nodes::Nodes;
use nova_range::{Index, Range, Rights, inside, word_of};

/// The parent of the derivation `d`.
fn parent_of<I: Index>(nodes: &Nodes<I>, d: &Derivation) -> Option<Derivation>
    ensures found { result ≡ parent_of nodes.now.delegations.list d.now }
    ensures placed { IfSome result IsPlaced }
{
    let id = d.parent?;
    nodes.get(id)
}

/// Of `d`, which is there, its parent, the parent's parent and so on, the first that lies in the protection domain `pd`.
fn nearest<I: Index>(nodes: &Nodes<I>, d: Derivation, pd: u32) -> Option<Derivation>
    requires sound { IsSound nodes.now.delegations }
    requires there { Contains nodes.now.delegations.list d }
    requires placed { IsPlaced d }
    ensures found { result ≡ nearest nodes.now.delegations.list d pd }
    ensures placed { IfSome result IsPlaced }
{
    let mut at = d;
    while at.pd != pd {
        at = parent_of(nodes, &at)?;
    }
    Some(at)
}

/// The smaller of `a` and `b`.
fn smaller(a: Range, b: Range) -> Range
    ensures { result ≡ smaller a b }
{
    if a.order <= b.order { a } else { b }
}

/// The places through which `a` leads to the targets of `places` of `d`.
fn seen_through(a: &Derivation, d: &Derivation, places: Range) -> Range
    requires { IsSeen a.now d.now places }
    ensures exact { result ≡ seen_through a.now d.now places }
    ensures range { IsRange result }
{
    Range {
        kind: places.kind,
        base: a.base + (d.target - a.target) + (places.base - d.base),
        order: places.order,
    }
}

/// `answer`, if it lies inside `window` and is of its type.
fn within(window: Option<(Range, Rights)>, answer: (Range, Rights)) -> Option<(Range, Rights)>
    requires window { HasWord window }
    requires answer { HasWord (Some answer) }
    ensures exact { result ≡ within window answer }
    ensures sound { HasWord result }
{
    let (taken, _) = window?;
    if is_same_kind(taken.kind, answer.0.kind) && inside(answer.0, taken) {
        Some(answer)
    } else {
        None
    }
}

/// `item`, a range of the giver's with rights, as the receiver has it.
fn translation<I: Index>(
    nodes: &Nodes<I>,
    giver: u32,
    receiver: u32,
    item: Option<(Range, Rights)>,
    window: Option<(Range, Rights)>,
) -> Option<(Range, Rights)>
    requires item { HasWord item }
    requires window { HasWord window }
    ensures exact { result ≡ translation nodes.now.delegations.list giver receiver item window }
    ensures sound { HasWord result }
{
    let (range, rights) = item?;
    let d = nodes.covering(giver, range.kind, range.base)?;
    let a = nearest(nodes, d, receiver)?;
    let places = seen_through(&a, &d, smaller(d.range(), range));
    let rights = Rights::from_bits_retain(d.rights.bits() & rights.bits());
    within(window, (places, rights))
}

/// The word that answers `range_word` of the domain `giver`: the same memory or object as the domain `receiver`
/// has it. Of the giver's derivation that covers the range's base, its parent, the parent's parent and so on
/// the first of the receiver's is taken, and the answer is where it leads to what the smaller of range and
/// giver's derivation leads to, with the rights that both the item and the giver's derivation have. It is 0
/// where the range word or the window doesn't read or is null, where there is no such derivation of the giver's
/// or of the receiver's, and where the answer is not of the window's type or doesn't lie inside it. It takes no
/// memory.
#[tactic(auto, unfolding(nova_model::specs::Translations::translated))]
pub fn translate<I: Index>(
    nodes: &Nodes<I>,
    range_word: u32,
    window: u32,
    giver: u32,
    receiver: u32,
) -> u32
    ensures { result ≡ translated nodes.now.delegations.list range_word window giver receiver }
{
    word_of(translation(nodes, giver, receiver, read(range_word), read(window)))
}

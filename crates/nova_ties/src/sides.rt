ghost use Rattle.std.specs.Prelude.{◌≡◌, ◌≢◌, ◌==◌, ◌||◌, not, ℕ, map, IfNone, IfSome};
ghost use Rattle.nova_ties.specs.Ties.{AreLeast, AreRespected, IsCoarser, IsStuck, is_met, label_in, met, renamed, settled};

use crate::labels::{is_respected, label_of};
use crate::tie::Tie;

fn renamed(label: u32, old: u32, new: u32) -> u32
    ensures { result ≡ renamed old new label }
{
    if label == old { new } else { label }
}

/// Gives all domains of `labels` that have the label `old` the label `new`.
fn rename(labels: &mut [u32], old: u32, new: u32)
    ensures { labels.new ≡ map (renamed old new) labels.old }
{
    for i in 0..labels.len() {
        labels[i] = renamed(labels[i], old, new);
    }
}

/// Has `tie` respected, where it can be: the two sides become one, of the lesser label.
fn meet(labels: &mut [u32], tie: Tie) -> bool
    ensures is { result ≡ is_met labels.old tie }
    ensures met { labels.new ≡ met labels.old tie }
{
    if is_respected(labels, tie) {
        return true;
    }
    let (from, to) = (label_of(labels, tie.from), label_of(labels, tie.to));
    if to == 0 {
        return false;
    }
    rename(labels, from.max(to), from.min(to));
    true
}

/// Makes `labels` respect `ties` one after another, until one can't be respected, and returns that tie.
fn settle_each(labels: &mut [u32], ties: &[Tie]) -> Option<Tie>
    ensures labels { labels.new ≡ (settled ties.now labels.old).0 }
    ensures stuck { result ≡ (settled ties.now labels.old).1 }
{
    for tie in ties {
        if !meet(labels, *tie) {
            return Some(*tie);
        }
    }
    None
}

/// Joins sides in `labels` until all `ties` are respected, where that can be. Trusted are those that were before. No others are joined than must be:
/// whatever labels respect the ties, and trust no domain that isn't trusted here, have the same label where these have. A side has the least label that
/// one of its domains had. Where it can't be, the first strict tie is answered that leads from a side to what is trusted: no such labels respect it.
pub fn settle(labels: &mut [u32], ties: &[Tie]) -> Option<Tie>
    ensures respected { IfNone result (AreRespected (label_in labels.new) ties.now) }
    ensures trusted { (n : ℕ) → (label_in labels.new n == 0) ≡ (label_in labels.old n == 0) }
    ensures joined { IsCoarser (label_in labels.new) (label_in labels.old) }
    ensures finest { (label : ℕ → ℕ) → AreRespected label ties.now → IsCoarser label (label_in labels.old) → IsCoarser label (label_in labels.new) }
    ensures stuck { IfSome result (λ t. IsStuck ties.now (label_in labels.old) t) }
    ensures least { AreLeast (label_in labels.new) (label_in labels.old) }
{
    settle_each(labels, ties)
}

ghost use Rattle.std.specs.Prelude.{◌≡◌, find, option_map};
ghost use Rattle.nova_ties.specs.Ties.{is_broken, is_respected, label_in};

use crate::tie::Tie;

/// The label of `domain` in `labels`: 0, as of a trusted domain, beyond the table.
pub fn label_of(labels: &[u32], domain: u32) -> u32
    ensures { result ≡ label_in labels.now domain }
{
    match labels.get(domain as usize) {
        Some(label) => *label,
        None => 0,
    }
}

/// Whether `labels` respect `tie`: its first domain is trusted; or the second has the label of the first; or, where it isn't strict, the second is
/// trusted.
pub fn is_respected(labels: &[u32], tie: Tie) -> bool
    ensures { result ≡ is_respected (label_in labels.now) tie }
{
    let from = label_of(labels, tie.from);
    let to = label_of(labels, tie.to);
    from == 0 || to == from || (!tie.strict && to == 0)
}

/// The first of `ties` that `labels` don't respect.
fn broken_in<'a>(labels: &[u32], ties: &'a [Tie]) -> Option<&'a Tie>
    ensures { option_map (λ t. t.now) result ≡ find (is_broken (label_in labels.now)) ties.now }
{
    ties.iter().find(|tie| !is_respected(labels, **tie))
}

/// The first of `ties` that `labels` don't respect.
pub fn first_broken(labels: &[u32], ties: &[Tie]) -> Option<Tie>
    ensures { result ≡ find (is_broken (label_in labels.now)) ties.now }
{
    Some(*broken_in(labels, ties)?)
}

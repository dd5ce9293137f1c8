use nova_range::Range;
use std::marker::Model;

/// A revoke by the protection domain `pd` of what comes from a range, and of its own derivations in the range
/// too where `own`. It takes from others what was made of the places that a protection domain has in a range,
/// with all that was made of that in turn.
#[derive(Clone, Copy)]
pub struct Revoke {
    /// The protection domain that revokes.
    pub pd: u32,
    /// The range.
    pub range: Range,
    /// Whether derivations of the domain itself that lie inside the range go too.
    pub own: bool,
}

impl Model for Revoke {
    ghost use Rattle.nova_range.specs.Ranges.{IsRange};
    ghost use Rattle.nova_model.specs.Revokes.{Revocation};

    ghost Value = { Revocation };

    ghost view = { λ r. record { pd = r.pd; range = r.range; own = r.own } };

    ghost invariant = { λ r. IsRange r.range };

    ghost inverse = { λ v. record { pd = v.pd; range = v.range; own = v.own } };
}

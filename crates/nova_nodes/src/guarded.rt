use crate::nodes::Nodes;
use nova_range::{Index, Range};

/// A revoke that runs, as a delegation sees it. Meanwhile no derivation may join that would add to what it
/// takes, or that would be its protection domain's with a place of its range.
pub trait Guarded {
    ghost use Rattle.std.specs.Prelude.{◌≡◌, ◌+◌, ◌^◌, ◌≤◌, IfSome, IsSome};
    ghost use Rattle.nova_range.specs.Ranges.{IsRange};
    ghost use Rattle.nova_range.specs.declared.rights.Rights.{Rights};
    ghost use Rattle.nova_model.specs.Delegations.{derived, with_id};
    ghost use Rattle.nova_model.specs.Revokes.{Revocation, busy};

    // Which revoke it is.
    ghost revoke: { Self → Revocation };

    /// Whether a further derivation may not join while the revoke runs. Its parent is there.
    fn would_grow<I: Index>(
        &self,
        nodes: &Nodes<I>,
        parent: Option<u32>,
        pd: u32,
        range: Range,
        target: u32,
    ) -> bool
        requires range { IsRange range }
        requires targets { target + 2 ^ range.order ≤ 2 ^ 32 }
        requires parent { IfSome parent (λ id. IsSome (with_id nodes.now.delegations.list id)) }
        ensures busy { (rights : Rights) → result ≡ busy (revoke self.now) nodes.now.delegations.list (derived nodes.now.delegations.next parent pd range rights target) };
}

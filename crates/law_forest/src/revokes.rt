ghost use Rattle.std.specs.Prelude.{◌≡◌, ◌↔◌, ◌+◌, ℕ, List, [], Contains, length, true, false, Some, None, Option, IfSome, IsSome};
ghost use Rattle.nova_range.specs.declared.rights.Rights.{Rights};
ghost use Rattle.nova_model.specs.Delegations.{Delegations, added, without, with_id};
ghost use Rattle.nova_model.specs.Forest.{IsForest, IsChildless};
ghost use Rattle.nova_model.specs.Revokes.{Revocation, in_scope, scope, IsInScope, busy, next_leaf, revoked};
ghost use Rattle.nova_model.specs.declared.delegation.Derivation.{Derivation};
ghost use Rattle.law_forest.specs.Courses.{IsLeaf, lacking, Step, AreAllowed, after, taken, IsKept};

/// A derivation is in the scope of a revoke exactly where the scope begins with it, or with an ancestor of it.
pub fn the_scope_is_its_tops_and_their_descendants()
    ensures { (r : Revocation) (f : Delegations) (d : Derivation) → IsForest f → Contains f.list d → (in_scope r f.list d ≡ true) ↔ IsInScope r f.list d }
{}

/// A new derivation that is not busy leaves the scope as it was. Whether it is busy does not hang on
/// its rights.
pub fn what_is_not_busy_leaves_the_scope()
    ensures same { (r : Revocation) (f : Delegations) (x : Derivation) → IsForest f → x.id ≡ f.next → busy r f.list x ≡ false →
        scope r (added f x).list ≡ scope r f.list }
    ensures rights { (r : Revocation) (f : Delegations) (x : Derivation) (rights : Rights) → IsForest f → x.id ≡ f.next →
        IfSome x.parent (λ id. IsSome (with_id f.list id)) → busy r f.list (record x { rights = rights }) ≡ busy r f.list x }
{}

/// Where a derivation without children goes, the forest holds, and the scope loses it and nothing else.
pub fn a_scope_loses_what_goes()
    ensures forest { (f : Delegations) (id : ℕ) → IsForest f → IsChildless f.list id → IsForest (without f id) }
    ensures scope { (r : Revocation) (f : Delegations) (id : ℕ) → IsChildless f.list id → scope r (without f id).list ≡ lacking id (scope r f.list) }
{}

/// The leaf that goes next is in the scope and has no child, and there is none only where the scope is empty.
/// Where there is one, a part takes it away and no other.
pub fn a_part_takes_a_leaf()
    ensures leaf { (r : Revocation) (f : Delegations) (d : Derivation) → IsForest f → next_leaf r f ≡ Some d → IsLeaf r f d }
    ensures none { (r : Revocation) (f : Delegations) → IsForest f → (next_leaf r f ≡ None) ↔ (scope r f.list ≡ []) }
    ensures one { (r : Revocation) (f : Delegations) (d : Derivation) → IsForest f → next_leaf r f ≡ Some d → length f.list ≡ length (revoked r f).list + 1 }
{}

/// Over a revoke's parts, and whatever comes between, the forest holds and the scope only shrinks: derivations
/// that fit and are not busy may come, those without children may go. The scope is among that at the start, and
/// the leaves that parts took are with what is left at most as many as were in it then.
pub fn a_revoke_comes_to_its_end()
    ensures { (r : Revocation) (f : Delegations) (steps : List Step) → IsForest f → AreAllowed r f steps → IsKept r f (after r f steps) (taken r f steps) }
{}

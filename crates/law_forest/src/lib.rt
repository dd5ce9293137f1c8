//! Laws of delegations: what a turn may do to them and to objects, that they stay a sound forest, and
//! that nothing that is given exceeds what it was given of. The functions do nothing: their contracts
//! are the laws.
#![tactic(auto)]

pub mod revokes;

ghost use Rattle.std.specs.Prelude.{◌≡◌, ℕ, List, Contains, Some};
ghost use Rattle.nova_model.specs.Boot.{Scenario, boot};
ghost use Rattle.nova_model.specs.Choice.{next_to_act};
ghost use Rattle.nova_model.specs.Delegations.{Delegations};
ghost use Rattle.nova_model.specs.Forest.{IsForest};
ghost use Rattle.nova_model.specs.Lines.{line};
ghost use Rattle.nova_model.specs.Revokes.{Revocation};
ghost use Rattle.nova_model.specs.Running.{revoke_of};
ghost use Rattle.nova_model.specs.Runs.{after, run};
ghost use Rattle.nova_model.specs.State.{KernelState};
ghost use Rattle.nova_model.specs.declared.delegation.Derivation.{Derivation};
ghost use Rattle.law_forest.specs.Changes.{Change, ChangeUnder, ChangesUnder, leaves_in};
ghost use Rattle.law_forest.specs.Courses.{IsCourse};
ghost use Rattle.law_forest.specs.Made.{GrowsBy};
ghost use Rattle.law_forest.specs.Within.{StaysWithin, HasWholeLine};

/// Whatever list of turns is taken from whatever boot state, delegations are a sound forest.
pub fn delegations_stay_a_forest()
    ensures { (scenario : Scenario) (turns : List ℕ) → IsForest (run (boot scenario) turns).delegations }
{}

/// A turn leaves objects and delegations; or it makes one object, whose number is that of none before; or it
/// gives one child and makes no object; or it takes one leaf away and makes no object. The capability of an
/// object is that of the domain of the execution context that acts, at a selector below 2^20 that was free,
/// with all rights to the object and without a parent; that domain holds the right to make objects in a
/// protection domain, and an execution context is made in that domain. A scheduling context is of an execution
/// context that is no local thread and has none yet, on its processor, with a quantum of at least 1; a portal
/// is to a local thread; and for each of both that domain holds the right to bind it. A child is given by the
/// present item of the execution context that acts: a creator gives its new domain a first range, a handler
/// takes an item of its caller's message, or it gives its caller one of its reply. The child's parent is a
/// derivation of the item's giver, and the child goes to the item's receiver, at places that were free there,
/// with rights that both its parent and the item have. What joins has the next id, which where delegations are
/// a sound forest is above all before, and is in the way of no running revoke. A leaf is taken by the revoke
/// that the execution context that acts runs: it is the next leaf of that revoke, which where delegations are a
/// sound forest is in the revoke's scope and has no child.
pub fn a_turn_makes_at_most_one_object()
    ensures { (k : KernelState) (cpu : ℕ) → GrowsBy k (next_to_act k cpu) (after k cpu) }
{}

/// A turn leaves delegations, adds one derivation that fits them, or removes one that is no parent, as only a
/// running revoke does (`a_turn_makes_at_most_one_object`). Each such change leaves a sound forest one.
pub fn a_turn_changes_one_derivation()
    ensures reached { (scenario : Scenario) (turns : List ℕ) (cpu : ℕ) →
        Change (run (boot scenario) turns).delegations (after (run (boot scenario) turns) cpu).delegations }
    ensures sound { (k : KernelState) (cpu : ℕ) → IsForest k.delegations → Change k.delegations (after k cpu).delegations }
    ensures keeps { (old new : Delegations) → Change old new → IsForest old → IsForest new }
{}

/// While an execution context revokes, a turn leaves delegations, or adds one derivation that fits them and is
/// not busy for this revoke, so that it is not in the scope. Or it removes one that is no parent; where the
/// revoking context itself acts, that is the next leaf of its revoke, one part. So each turn is at most one of
/// the steps under which a revoke comes to its end, and a part exactly where it takes a leaf for this revoke.
pub fn nothing_joins_a_running_revoke()
    ensures turn { (k : KernelState) (cpu runner : ℕ) (r : Revocation) → IsForest k.delegations → revoke_of k runner ≡ Some r →
        ChangesUnder r runner (next_to_act k cpu) k.delegations (after k cpu).delegations }
    ensures steps { (r : Revocation) (runner actor : ℕ) (old new : Delegations) (change : ChangeUnder r runner actor old new) →
        IsCourse r old new (leaves_in change) }
{}

/// Whatever list of turns is taken from whatever boot state, a derivation leads to nothing that one which it
/// was derived from doesn't lead to, and has no right that one of these doesn't have. These are its parent, the
/// parent's parent and so on. And its line leaves none of these out: it is the derivation and then its parent's
/// line, and a parent that it names is there.
pub fn derivations_stay_within_their_lines()
    ensures within { (scenario : Scenario) (turns : List ℕ) (d ancestor : Derivation) →
        Contains (run (boot scenario) turns).delegations.list d →
        Contains (line (run (boot scenario) turns).delegations.list d) ancestor → StaysWithin d ancestor }
    ensures whole { (scenario : Scenario) (turns : List ℕ) (d : Derivation) →
        Contains (run (boot scenario) turns).delegations.list d → HasWholeLine (run (boot scenario) turns).delegations.list d }
{}

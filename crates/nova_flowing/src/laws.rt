//! What the premises are for. The functions do nothing: their contracts are the laws.
ghost use Rattle.std.specs.Prelude.{◌≡◌, ℕ, Bool, true, List, filter};
ghost use Rattle.nova_model.specs.Boot.{Scenario, boot};
ghost use Rattle.nova_model.specs.Runs.{run};
ghost use Rattle.nova_model.specs.State.{KernelState};
ghost use Rattle.law_integrity.specs.Confined.{Of};
ghost use Rattle.law_flow.specs.Flow.{Allowed, AreAtWork, DerivesWithin, IsPartitioned, fixed};
ghost use Rattle.law_flow.specs.Processors.{AreAlikeAtHome, IsDivided, StayOn};
ghost use Rattle.nova_flowing.specs.Deriving.{IsDerivingTold, first_made};
ghost use Rattle.nova_flowing.specs.Working.{IsWorkEnd, IsWorkTold, first_lapse, widened, work_by};
ghost use Rattle.nova_flowing.specs.declared.lapse.Lapse.{Lapse};

/// A side of which the premises hold at a place of a run, at work in some turns from there on, comes to the same by all turns from there with the
/// same turns of its processors in the same order. So do all its deeds and events. If it revokes, nothing that others hold at the place was made of what it holds. `decide` answers `Own` of such a place, and
/// `first_made` whether it may revoke. A side that creates, too, comes to the same with all that it makes, if its execution contexts stay on its
/// processors.
pub fn what_is_own_depends_on_its_own_processors_alone()
    ensures working { (revokes : Bool) (scenario : Scenario) (before turns others : List ℕ) (S T P C : ℕ → Bool)
        → IsPartitioned (run (boot scenario) before) (Of S) (Of T) (Of P) → IsDivided (run (boot scenario) before) (Of S) (Of T) (Of P) (Of C)
        → (revokes ≡ true → DerivesWithin (run (boot scenario) before) (Of S))
        → AreAtWork (fixed revokes) S (run (boot scenario) before) turns
        → filter C turns ≡ filter C others
        → AreAlikeAtHome (run (boot scenario) before) (run (boot scenario) before) turns others S P C }
    ensures creating { (allowed : Allowed) (scenario : Scenario) (before turns others : List ℕ) (S T P C : ℕ → Bool)
        → IsPartitioned (run (boot scenario) before) (Of S) (Of T) (Of P) → IsDivided (run (boot scenario) before) (Of S) (Of T) (Of P) (Of C)
        → (allowed.revokes ≡ true → DerivesWithin (run (boot scenario) before) (Of S))
        → StayOn (widened (run (boot scenario) before) S) C (run (boot scenario) before) turns
        → AreAtWork allowed (widened (run (boot scenario) before) S) (run (boot scenario) before) turns
        → filter C turns ≡ filter C others
        → AreAlikeAtHome (run (boot scenario) before) (run (boot scenario) before) turns others (widened (run (boot scenario) before) S) (widened (run (boot scenario) before) P) C }
{
    law_flow::noninterference_on_divided_processors();
}

/// Nothing that others hold was made of what a side holds exactly where `first_made` names none; and what it names is of another domain, and comes of
/// the side's.
pub fn what_others_hold_of_a_side_is_told()
    ensures { (k : KernelState) (S : ℕ → Bool) → IsDerivingTold k S (first_made k.delegations.list S) }
{}

/// Of some lapses, of which the first of each side is its own, where it may revoke and where it may not, that is told by which a side is no longer at
/// work: where nothing that others hold was made of what it holds it may revoke.
pub fn sides_may_revoke_what_they_keep()
    ensures { (S : ℕ → Bool) (k : KernelState) (n : ℕ) (turns : List ℕ) (lapses : List Lapse)
        → ((revokes : Bool) → IsWorkTold revokes S k n turns (first_lapse revokes S lapses))
        → IsWorkEnd S k n turns (work_by k.delegations.list S lapses) }
{}

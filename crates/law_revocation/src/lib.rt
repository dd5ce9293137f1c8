//! Laws of revokes along turns: a revoke runs as its caller's registers asked, only shrinks, returns with
//! nothing of its scope left, and takes at most as many turns of its caller as its scope has members, and
//! two. And what a scope is, in places and targets. The functions do nothing: their contracts are the laws.
#![tactic(auto)]

ghost use Rattle.std.specs.Prelude.{◌≡◌, ◌≤◌, ◌↔◌, ◌⊎◌, ◌+◌, ℕ, List, [], ◌∷◌, ◌++◌, Contains, length, true, false, Some, None};
ghost use Rattle.nova_calls.specs.declared.numbers.TheConstants.{REVOKE};
ghost use Rattle.nova_range.specs.Ranges.{SharesPlace};
ghost use Rattle.nova_range.specs.Statuses.{status_code};
ghost use Rattle.nova_range.specs.declared.status.Status.TheVariants.{Success};
ghost use Rattle.nova_model.specs.Boot.{Scenario, boot};
ghost use Rattle.nova_model.specs.Delegations.{Delegations, added, range_of};
ghost use Rattle.nova_model.specs.Forest.{IsFitting, IsForest};
ghost use Rattle.nova_model.specs.Revokes.{Revocation, busy, scope};
ghost use Rattle.nova_model.specs.Running.{revoke_of};
ghost use Rattle.nova_model.specs.Runs.{after, run};
ghost use Rattle.nova_model.specs.State.{KernelState};
ghost use Rattle.nova_model.specs.declared.delegation.Derivation.{Derivation};
ghost use Rattle.nova_model.specs.declared.event.EventKind.TheVariants.{Answer};
ghost use Rattle.law_origins.specs.Giving.{Acts};
ghost use Rattle.law_origins.specs.Reachable.{IsReachable};
ghost use Rattle.law_revocation.specs.Along.{HasEvent, Runs, acts_in};
ghost use Rattle.law_revocation.specs.Called.{HasEndedAsCalled, WasCalled};
ghost use Rattle.law_revocation.specs.Refused.{IsBusy, IsInTheWay, IsSkipped, WouldGive, WouldMake};
ghost use Rattle.law_revocation.specs.Sound.{IsKeptForest};
ghost use Rattle.law_revocation.specs.Taken.{IsClear, IsRevokers, IsRemoved};
ghost use Rattle.law_revocation.specs.Whole.{RevokeBegins, RevokeEnds, HasEnded, HasReturned, HasShrunk, IsRevokeAnswered, BeginsAsAsked, left};

/// What these laws ask of a state always holds: a kernel begins so, and each turn keeps it, so that it
/// holds of whatever a kernel comes to.
pub fn what_revokes_stand_on_is_kept()
    ensures begins { (scenario : Scenario) → IsKeptForest (boot scenario) }
    ensures turns { (k : KernelState) (cpu : ℕ) → IsKeptForest k → IsKeptForest (after k cpu) }
    ensures reached { (k : KernelState) → IsReachable k → IsKeptForest k }
{}

/// A derivation is in the scope of a revoke exactly where it comes of the range or, where the revoker's own go
/// too, is one of these in it. That is, it is there, and it or one that it comes from is a child of a
/// derivation of the revoker's, of the range's kind, and leads to a target to which that derivation leads from
/// a place of the range; or, where the revoker's own go too, is one of the revoker's that lies in the range.
/// The scope is empty exactly where nothing is left of it: no derivation leads to what an ancestor of it, of
/// the revoker's, leads to from a place of the range; and, where the revoker's own go too, the revoker has none
/// that lies in the range.
pub fn a_scope_is_what_comes_from_the_range()
    ensures members { (r : Revocation) (f : Delegations) (d : Derivation) → IsForest f →
        Contains (scope r f.list) d ↔ (Contains f.list d × IsRemoved r f.list d) }
    ensures none { (r : Revocation) (f : Delegations) → IsForest f → (scope r f.list ≡ []) ↔ IsClear r f.list }
{}

/// A new derivation that fits is busy for a revoke exactly where the revoke would take it away or it is of the
/// revoker's, of the range's kind, and shares a place with the range.
pub fn what_a_revoke_would_take_is_busy()
    ensures { (r : Revocation) (f : Delegations) (x : Derivation) → IsForest f → IsFitting f x →
        (busy r f.list x ≡ true) ↔ (IsRemoved r (added f x).list x ⊎ (IsRevokers r x × SharesPlace (range_of x) r.range)) }
{}

/// A revoke begins in a turn of the execution context that runs it, with the scope of the state before the
/// call, since delegations stay. The registers of that context read as the hypercall that asks for that
/// revoke, the revoke is of its protection domain, and the turn's event tells that it begins.
pub fn a_revoke_begins_with_its_scope()
    ensures { (k : KernelState) (cpu ec : ℕ) (r : Revocation) → IsKeptForest k → RevokeBegins k cpu ec r → BeginsAsAsked k cpu ec r }
{}

/// What an execution context runs after turns, where it ran no revoke before them, it called in one of them. It
/// acted in that turn, its registers asked for this range and this flag, and it has run just this revoke in
/// each state from then on. At boot no revoke runs, so that it holds of all that a kernel comes to.
pub fn a_running_revoke_was_called()
    ensures turns { (k : KernelState) (turns : List ℕ) (ec : ℕ) (r : Revocation) → IsKeptForest k → revoke_of k ec ≡ None →
        revoke_of (run k turns) ec ≡ Some r → WasCalled k turns ec r }
    ensures reached { (scenario : Scenario) (turns : List ℕ) (ec : ℕ) (r : Revocation) →
        revoke_of (run (boot scenario) turns) ec ≡ Some r → WasCalled (boot scenario) turns ec r }
{}

/// While an execution context runs a revoke, the revoke's scope only shrinks. Whatever turns are taken on
/// whatever processors, what is in the scope after them was in it before them, and each of the turns in which
/// that execution context acts takes one derivation of the scope away. So these turns and what is left are
/// together at most as many as the scope had.
pub fn a_running_revoke_only_shrinks()
    ensures turns { (k : KernelState) (turns : List ℕ) (ec : ℕ) (r : Revocation) → IsKeptForest k → Runs k ec r turns → HasShrunk k turns ec r }
    ensures reached { (k : KernelState) (turns : List ℕ) (ec : ℕ) (r : Revocation) → IsReachable k → Runs k ec r turns → HasShrunk k turns ec r }
{}

/// A turn after which an execution context no longer runs its revoke is its own: its call is answered SUCCESS,
/// delegations stay, and nothing of the revoke's scope is there. And where the event of a turn answers SUCCESS
/// to the revoke that an execution context runs, it is such a turn. There is no other such event: if an event
/// reports SUCCESS for a revoke, the context that it names was running one, and the turn ended it. Along turns
/// from a boot state it is the revoke that it called: an earlier turn of its began just this revoke, as its
/// registers asked then.
pub fn a_returned_revoke_left_nothing()
    ensures ends { (k : KernelState) (cpu ec : ℕ) (r : Revocation) → IsKeptForest k → RevokeEnds k cpu ec r → HasReturned k cpu ec r }
    ensures answers { (k : KernelState) (cpu ec : ℕ) (r : Revocation) → IsKeptForest k → IsRevokeAnswered k cpu ec r → HasReturned k cpu ec r }
    ensures events { (k : KernelState) (cpu ec : ℕ) → IsKeptForest k → HasEvent k cpu ec Answer REVOKE (status_code Success) → HasEnded k cpu ec }
    ensures reached { (k : KernelState) (cpu ec : ℕ) → IsReachable k → HasEvent k cpu ec Answer REVOKE (status_code Success) → HasEnded k cpu ec }
    ensures called { (scenario : Scenario) (before : List ℕ) (cpu ec : ℕ) →
        HasEvent (run (boot scenario) before) cpu ec Answer REVOKE (status_code Success) → HasEndedAsCalled (boot scenario) before cpu ec }
{}

/// From the turn in which an execution context begins a revoke to the turn in which it returns, whatever turns
/// others take between, what is in the revoke's scope was in it at its call. And it acts in at most as many
/// turns as the scope had members at its call, and two.
pub fn a_revoke_takes_at_most_its_scope_and_two()
    ensures among { (k : KernelState) (first : ℕ) (turns : List ℕ) (ec : ℕ) (r : Revocation) → IsKeptForest k → RevokeBegins k first ec r →
        Runs (after k first) ec r turns → (d : Derivation) → Contains (left r (run (after k first) turns)) d → Contains (left r k) d }
    ensures turns { (k : KernelState) (first : ℕ) (turns : List ℕ) (last ec : ℕ) (r : Revocation) → IsKeptForest k → RevokeBegins k first ec r →
        Runs (after k first) ec r turns → RevokeEnds (run (after k first) turns) last ec r → acts_in k ec (first ∷ turns ++ last ∷ []) ≤ length (left r k) + 2 }
    ensures reached { (k : KernelState) (first : ℕ) (turns : List ℕ) (last ec : ℕ) (r : Revocation) → IsReachable k → RevokeBegins k first ec r →
        Runs (after k first) ec r turns → RevokeEnds (run (after k first) turns) last ec r → acts_in k ec (first ∷ turns ++ last ∷ []) ≤ length (left r k) + 2 }
{}

/// While an execution context runs a revoke, no turn makes a derivation that is busy for it: what joins is not.
/// Where the next part of an item would make one that is busy, with a right and at places that its receiver
/// doesn't hold, the part is skipped as busy. And where a call would make an object at a selector of the object
/// range that its caller's domain revokes, and the other rules of the call hold, it is answered BUSY.
pub fn what_would_grow_a_running_revoke_is_refused()
    ensures joins { (k : KernelState) (cpu ec : ℕ) (r : Revocation) (x : Derivation) → IsForest k.delegations → revoke_of k ec ≡ Some r →
        Contains (after k cpu).delegations.list x → (Contains k.delegations.list x → ⊥) → busy r k.delegations.list x ≡ false }
    ensures parts { (k : KernelState) (cpu ec runner : ℕ) (r : Revocation) (x : Derivation) (part : WouldGive k ec x) → revoke_of k runner ≡ Some r →
        busy r k.delegations.list x ≡ true → Acts k cpu ec → IsSkipped k cpu ec x part }
    ensures calls { (k : KernelState) (cpu ec runner target : ℕ) (r : Revocation) → revoke_of k runner ≡ Some r → IsInTheWay k ec target r →
        Acts k cpu ec → WouldMake k ec target → IsBusy k cpu ec }
{}

// Laws of the kernel's tables.
ghost use Rattle.std.specs.Prelude.{ℕ, List, IfSome, IsSome, slice_get};
ghost use Rattle.nova_model.specs.Boot.{Scenario, boot};
ghost use Rattle.nova_model.specs.Capabilities.{is_ec, is_pt, is_sc, is_sm, is_vcpu};
ghost use Rattle.nova_model.specs.Runs.{run};
ghost use Rattle.nova_model.specs.State.{budget_at, context_at, entry};
ghost use Rattle.law_turns.specs.Tables.{IsOf, Suits, has_words};

/// Whatever list of turns is taken from whatever boot state, what goes with each object is there, and
/// entries of tables are there only where the object of their number is of that kind.
pub fn tables_go_with_objects()
    ensures objects { (scenario : Scenario) (turns : List ℕ) (n : ℕ)
        → IfSome (slice_get (run (boot scenario) turns).objects n) (Suits (run (boot scenario) turns) n) }
    ensures contexts { (scenario : Scenario) (turns : List ℕ) (n : ℕ)
        → IsSome (context_at (run (boot scenario) turns) n) → IsOf (run (boot scenario) turns).objects is_ec n }
    ensures messages { (scenario : Scenario) (turns : List ℕ) (n : ℕ)
        → IsSome (entry (slice_get (run (boot scenario) turns).messages n)) → IsOf (run (boot scenario) turns).objects has_words n }
    ensures transfers { (scenario : Scenario) (turns : List ℕ) (n : ℕ)
        → IsSome (entry (slice_get (run (boot scenario) turns).transfers n)) → IsOf (run (boot scenario) turns).objects is_ec n }
    ensures budgets { (scenario : Scenario) (turns : List ℕ) (n : ℕ)
        → IsSome (budget_at (run (boot scenario) turns) n) → IsOf (run (boot scenario) turns).objects is_sc n }
    ensures identifiers { (scenario : Scenario) (turns : List ℕ) (n : ℕ)
        → IsSome (entry (slice_get (run (boot scenario) turns).identifiers n)) → IsOf (run (boot scenario) turns).objects is_pt n }
    ensures semaphores { (scenario : Scenario) (turns : List ℕ) (n : ℕ)
        → IsSome (entry (slice_get (run (boot scenario) turns).semaphores n)) → IsOf (run (boot scenario) turns).objects is_sm n }
    ensures guests { (scenario : Scenario) (turns : List ℕ) (n : ℕ)
        → IsSome (entry (slice_get (run (boot scenario) turns).stirs.guests n)) → IsOf (run (boot scenario) turns).objects is_vcpu n }
{}

// Laws of donation: edges, and the contexts that act.
ghost use Rattle.std.specs.Prelude.{◌≡◌, ◌≢◌, ◌↔◌, ℕ, List, true, IfSome, IsSome};
ghost use Rattle.nova_model.specs.Boot.{Scenario, boot};
ghost use Rattle.nova_model.specs.Choice.{choice};
ghost use Rattle.nova_model.specs.Deeds.{deed};
ghost use Rattle.nova_model.specs.Edges.{AreEdges, acts, chase, circle};
ghost use Rattle.nova_model.specs.Runs.{after, run};
ghost use Rattle.nova_model.specs.State.{KernelState, context_at};
ghost use Rattle.nova_model.specs.declared.deed.Deed.TheVariants.{Rests};
ghost use Rattle.nova_ec.specs.Ways.{EndsAt, Leads};
ghost use Rattle.law_turns.specs.Keeping.{IsKept};

/// Whatever list of turns is taken from whatever boot state, edges stay on one processor and form no circle. So
/// each chase ends, with the first that is met along edges and that acts or has no edge; and a context is met
/// from another exactly where some number of edges leads there. The chosen context acts, and does something. A
/// turn from any state in which tables go with objects, edges are sound and callers stay with the contexts that
/// serve them leaves such a state.
pub fn edges_form_no_circle()
    ensures sound { (scenario : Scenario) (turns : List ℕ) → AreEdges (run (boot scenario) turns).contexts }
    ensures ends { (scenario : Scenario) (turns : List ℕ) (e : ℕ)
        → EndsAt (run (boot scenario) turns).contexts e (chase (run (boot scenario) turns).contexts e) }
    ensures circles { (scenario : Scenario) (turns : List ℕ) (h e : ℕ)
        → IsSome (context_at (run (boot scenario) turns) h)
        → (circle (run (boot scenario) turns).contexts h e ≡ true) ↔ Leads (run (boot scenario) turns).contexts h e }
    ensures able { (scenario : Scenario) (turns : List ℕ) (cpu : ℕ)
        → IfSome (choice (run (boot scenario) turns) cpu) (λ c. acts (run (boot scenario) turns).contexts c.actor ≡ true) }
    ensures acts { (scenario : Scenario) (turns : List ℕ) (cpu : ℕ)
        → IfSome (choice (run (boot scenario) turns) cpu) (λ c. deed (run (boot scenario) turns) c.actor ≢ Rests) }
    ensures kept { (k : KernelState) (cpu : ℕ) → IsKept k → IsKept (after k cpu) }
{}

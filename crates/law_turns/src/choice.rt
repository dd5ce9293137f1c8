// Laws of the choice of what runs.
ghost use Rattle.std.specs.Prelude.{◌≡◌, ◌↔◌, ℕ, List, [], None, IfSome};
ghost use Rattle.nova_model.specs.Boot.{Scenario, boot};
ghost use Rattle.nova_model.specs.Choice.{candidates, choice};
ghost use Rattle.nova_model.specs.Runs.{run};
ghost use Rattle.nova_model.specs.State.{KernelState};
ghost use Rattle.law_turns.specs.Choices.{IsBest, IsOnlyBest};

/// A processor is idle exactly where it has no candidate, and else the choice is the best of them.
/// Whatever list of turns is taken from whatever boot state, no other is as good.
pub fn the_best_is_chosen()
    ensures idle { (k : KernelState) (cpu : ℕ) → (choice k cpu ≡ None) ↔ (candidates k cpu ≡ []) }
    ensures best { (k : KernelState) (cpu : ℕ) → IfSome (choice k cpu) (IsBest (candidates k cpu)) }
    ensures only { (scenario : Scenario) (turns : List ℕ) (cpu : ℕ)
        → IfSome (choice (run (boot scenario) turns) cpu) (IsOnlyBest (candidates (run (boot scenario) turns) cpu)) }
{}

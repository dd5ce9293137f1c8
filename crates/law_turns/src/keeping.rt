// What turns keep of a state.
ghost use Rattle.std.specs.Prelude.{ℕ, List};
ghost use Rattle.nova_model.specs.Boot.{Scenario, bare, boot};
ghost use Rattle.nova_model.specs.Memory.{Memory};
ghost use Rattle.nova_model.specs.Runs.{after, run};
ghost use Rattle.nova_model.specs.State.{KernelState};
ghost use Rattle.nova_model.specs.declared.root.Root.{Root};
ghost use Rattle.law_turns.specs.Keeping.{IsKept};

/// A kernel begins with tables that go with its objects, sound edges, callers that stay with the contexts that
/// serve them, and none blocked. Whatever is in its memory, each turn keeps these together, so that they hold
/// of whatever a kernel comes to.
pub fn turns_keep_what_they_find()
    ensures begins { (cpus ram consoles : ℕ) (root : Root) → IsKept (bare cpus ram consoles root) }
    ensures memory { (k : KernelState) (m : Memory) → IsKept k → IsKept (record k { memory = m }) }
    ensures turns { (k : KernelState) (cpu : ℕ) → IsKept k → IsKept (after k cpu) }
    ensures reached { (scenario : Scenario) (turns : List ℕ) → IsKept (run (boot scenario) turns) }
{}

// Laws of stir counts of virtual CPUs.
ghost use Rattle.std.specs.Prelude.{◌≡◌, ◌≢◌, ◌+◌, ℕ, List, None, Some, slice_get};
ghost use Rattle.nova_guest.specs.declared.input.Input.{Input};
ghost use Rattle.nova_guest.specs.declared.input.Input.TheVariants.{Own};
ghost use Rattle.nova_objects.specs.declared.object.EcKind.TheVariants.{Vcpu};
ghost use Rattle.nova_objects.specs.declared.object.Object.TheVariants.{Ec};
ghost use Rattle.nova_model.specs.Boot.{Scenario, bare, boot};
ghost use Rattle.nova_model.specs.Guests.{input};
ghost use Rattle.nova_model.specs.Runs.{after, run};
ghost use Rattle.nova_model.specs.State.{KernelState};
ghost use Rattle.nova_model.specs.declared.root.Root.{Root};
ghost use Rattle.law_turns.specs.Stirs.{AreWithinTurns, stirs_of};

/// A turn that is an input for a virtual CPU other than `Own` raises its stir count by one. So does a turn in
/// which its own exit is sent, or in which it ends, since others decide that. A turn that is `Own`, or nothing
/// for it, leaves the count. Whatever list of turns is taken from whatever boot state, a new virtual CPU's
/// count is 0 after the turn that makes it. (`ticks_count_turns` has the counts of processors.)
pub fn stir_counts_rise_with_inputs_from_outside()
    ensures outside { (k : KernelState) (cpu g count : ℕ) (i : Input)
        → stirs_of k g ≡ Some count
        → input k cpu g ≡ Some i
        → i ≢ Own
        → stirs_of (after k cpu) g ≡ Some (count + 1) }
    ensures own { (k : KernelState) (cpu g count : ℕ)
        → stirs_of k g ≡ Some count
        → input k cpu g ≡ Some Own
        → stirs_of (after k cpu) g ≡ Some count }
    ensures nothing { (k : KernelState) (cpu g count : ℕ)
        → stirs_of k g ≡ Some count
        → input k cpu g ≡ None
        → stirs_of (after k cpu) g ≡ Some count }
    ensures begins { (scenario : Scenario) (turns : List ℕ) (cpu g pd its event : ℕ)
        → slice_get (run (boot scenario) turns).objects g ≡ None
        → slice_get (after (run (boot scenario) turns) cpu).objects g ≡ Some (Ec pd its Vcpu event)
        → stirs_of (after (run (boot scenario) turns) cpu) g ≡ Some 0 }
{}

/// A stir count is at most the count of turns that were taken. So it is where a kernel begins, each turn keeps
/// it, and so it is whatever list of turns is taken from whatever boot state.
pub fn stir_counts_are_within_turns()
    ensures begins { (cpus ram consoles : ℕ) (root : Root) → AreWithinTurns (bare cpus ram consoles root) }
    ensures kept { (k : KernelState) (cpu : ℕ) → AreWithinTurns k → AreWithinTurns (after k cpu) }
    ensures reached { (scenario : Scenario) (turns : List ℕ) → AreWithinTurns (run (boot scenario) turns) }
{}

ghost use Rattle.std.specs.Prelude.{◌≡◌, ℕ, List, length};
ghost use Rattle.nova_model.specs.Boot.{Scenario, boot};
ghost use Rattle.nova_model.specs.Runs.{after, run};
ghost use Rattle.nova_model.specs.State.{KernelState};
ghost use Rattle.nova_model.specs.Turn.{answer_of, turn};
ghost use Rattle.nova_model.specs.declared.event.Event.{Event};
ghost use Rattle.nova_model.specs.declared.event.Turn.TheVariants.{Stepped};
ghost use Rattle.law_turns.specs.Keeping.{IsKept};
ghost use Rattle.law_alike.specs.Alike.{IsAlike};
ghost use Rattle.law_sameness.specs.Counts.{IsFresh, counts_after, counts_of};
ghost use Rattle.law_sameness.specs.States.{AreCountedAlike, AreInStep, AreMomentsAlike, AreMomentsSame, AreReadAlike, AreZero};

/// The clocks of processors, the stamps of scheduling contexts, the next stamp and the next derivation's id begin as a kernel's objects and
/// consoles tell, and each turn changes them as its event, the object that it makes and the quantum that was left tell. Both counts of a
/// processor's turns stay the same.
pub fn turns_count_by_what_is_read()
    ensures begins { (scenario : Scenario) → IsFresh (boot scenario) }
    ensures turns { (k : KernelState) (cpu : ℕ) (e : Event)
        → answer_of (turn k cpu) ≡ Stepped e
        → counts_of (after k cpu) ≡ counts_after (counts_of k) k e (after k cpu) }
    ensures processors { (k : KernelState) (cpu : ℕ)
        → k.stirs.processors ≡ k.times.clocks
        → (after k cpu).stirs.processors ≡ (after k cpu).times.clocks }
{}

/// Whatever list of turns is taken from whatever boot state, x0 of each execution context is 0; and a turn keeps that.
pub fn x0_is_always_zero()
    ensures reached { (scenario : Scenario) (turns : List ℕ) → AreZero (run (boot scenario) turns) }
    ensures turns { (k : KernelState) (cpu : ℕ) → AreZero k → AreZero (after k cpu) }
{}

/// Two states in which tables go with objects, and both counts of each processor's turns are the same, are the same where all that calls of a
/// kernel read, all that is counted, and each deadline and alarm is the same.
pub fn states_that_are_read_and_counted_alike_are_the_same()
    ensures { (a b : KernelState)
        → IsKept a → IsKept b
        → a.stirs.processors ≡ a.times.clocks → b.stirs.processors ≡ b.times.clocks
        → AreReadAlike a b
        → AreCountedAlike a b
        → AreMomentsSame (length a.objects) a.times b.times
        → a ≡ b }
{}

/// Two states in which tables go with objects are alike where all that calls of a kernel read but for counts is the same, the next derivation has the
/// same id, of any two scheduling contexts that compete the same one has the lesser stamp, and each deadline and alarm is as far from its clock.
pub fn states_that_are_read_alike_and_in_step_are_alike()
    ensures { (a b : KernelState)
        → IsKept a → IsKept b
        → AreReadAlike a b
        → AreInStep a.objects (counts_of a) (counts_of b)
        → AreMomentsAlike (length a.objects) a.times b.times
        → IsAlike a b }
{}

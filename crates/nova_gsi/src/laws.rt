// Laws of sources: their firings in the trace of any list of turns from any boot state.
ghost use Rattle.std.specs.Prelude.{◌≡◌, ◌⊎◌, ◌<◌, ◌^◌, ◌∷◌, ◌++◌, ℕ, List, length, map, slice_get, None, Some, false, true};
ghost use Rattle.nova_model.specs.Boot.{Scenario, boot};
ghost use Rattle.nova_model.specs.Choice.{is_quiet};
ghost use Rattle.nova_model.specs.Creation.{idle_semaphore};
ghost use Rattle.nova_model.specs.Runs.{after, run, trace};
ghost use Rattle.nova_model.specs.Semaphores.{semaphore_at, waits};
ghost use Rattle.nova_model.specs.State.{KernelState, Semaphore};
ghost use Rattle.nova_model.specs.Times.{clock, due_on};
ghost use Rattle.nova_model.specs.declared.event.Event.{Event};
ghost use Rattle.nova_model.specs.declared.times.Alarm.{Alarm};
ghost use Rattle.nova_model.specs.declared.times.Due.TheVariants.{Deadline};
ghost use Rattle.nova_gsi.specs.Counters.{IsBalanced, MakesSemaphore, ends_at};
ghost use Rattle.nova_gsi.specs.Firings.{alarms_of, fired, is_irq, moments_until, unrung};
ghost use Rattle.nova_gsi.specs.Laws.{AreOfMoments};

/// The alarms of a boot state are the sources of its scenario, in order, each with the object after those
/// before it as its semaphore, and none has rung.
pub fn sources_are_alarms()
    ensures { (scenario : Scenario) → (boot scenario).times.alarms ≡ map unrung (alarms_of scenario) }
{}

/// Whatever list of turns is taken from whatever boot state, the firings of a source are of its moments, in
/// order. None comes before its moment, none is lost and none is doubled. Where nothing is due on its processor
/// at the end, it fired as often as moments have come; and in a quiet state all have.
pub fn firings_are_of_their_moments()
    ensures moments { (scenario : Scenario) (turns : List ℕ) (n : ℕ) (s : Alarm)
        → slice_get (alarms_of scenario) n ≡ Some s
        → s.cpu < scenario.cpus
        → AreOfMoments s n (trace (boot scenario) turns) }
    ensures until { (scenario : Scenario) (turns : List ℕ) (n : ℕ) (s : Alarm)
        → slice_get (alarms_of scenario) n ≡ Some s
        → s.cpu < scenario.cpus
        → due_on (run (boot scenario) turns).times s.cpu ≡ None
        → fired (trace (boot scenario) turns) n ≡ moments_until s (clock (run (boot scenario) turns).times s.cpu) }
    ensures quiet { (scenario : Scenario) (turns : List ℕ) (n : ℕ) (s : Alarm)
        → slice_get (alarms_of scenario) n ≡ Some s
        → s.cpu < scenario.cpus
        → is_quiet (run (boot scenario) turns) ≡ true
        → fired (trace (boot scenario) turns) n ≡ s.count }
{}

/// From any state on in which a semaphore is there, its counter, with the downs that ended with SUCCESS, is what it was, with the ups that did and
/// the alarms with status 0. So it is from boot on for that of a source, which is 0 then, and from the turn on that made it for that of any other,
/// which then has the counter that was asked for. A down that waits ends in the turn in which it is woken; a down whose deadline comes doesn't end
/// with SUCCESS: an execution context that leaves a queue in a turn is counted in it, or its deadline was due.
pub fn counters_tell_what_ended()
    ensures counts { (k : KernelState) (turns : List ℕ) (sm : ℕ) (s : Semaphore)
        → semaphore_at k.semaphores sm ≡ Some s
        → IsBalanced k turns (run k turns) sm s.count }
    ensures leaves { (k : KernelState) (cpu sm w : ℕ)
        → waits k.semaphores sm w ≡ true
        → waits (after k cpu).semaphores sm w ≡ false
        → ((ends_at k cpu sm).downs ≡ 1) ⊎ (due_on k.times cpu ≡ Some (Deadline w)) }
    ensures sources { (scenario : Scenario) (n : ℕ) (s : Alarm)
        → slice_get (alarms_of scenario) n ≡ Some s
        → semaphore_at (boot scenario).semaphores s.sm ≡ Some (idle_semaphore 0) }
    ensures born { (scenario : Scenario) (turns : List ℕ) (cpu sm count : ℕ)
        → MakesSemaphore (run (boot scenario) turns) cpu sm count
        → semaphore_at (after (run (boot scenario) turns) cpu).semaphores sm ≡ Some (idle_semaphore count) }
    ensures made { (scenario : Scenario) (before later : List ℕ) (cpu sm count : ℕ)
        → MakesSemaphore (run (boot scenario) before) cpu sm count
        → IsBalanced (after (run (boot scenario) before) cpu) later (run (boot scenario) (before ++ cpu ∷ later)) sm count }
{}

/// In a list of fewer than 2^32 turns from a boot state each alarm has status 0, whatever else ups its
/// semaphore. A counter rises by at most one in a turn.
pub fn alarms_have_room()
    ensures { (scenario : Scenario) (turns : List ℕ) (place : ℕ) (e : Event)
        → length turns < 2 ^ 32
        → slice_get (trace (boot scenario) turns) place ≡ Some e
        → is_irq e.kind ≡ true
        → e.b ≡ 0 }
{}

// Laws of clocks, deadlines and alarms.
ghost use Rattle.std.specs.Prelude.{◌≡◌, ◌↔◌, ◌≤◌, ◌∷◌, ◌++◌, ℕ, List, map, slice_get, [], Contains, None, Some, IfSome, IsSome, true};
ghost use Rattle.nova_model.specs.Boot.{Scenario, boot};
ghost use Rattle.nova_model.specs.Choice.{choice};
ghost use Rattle.nova_model.specs.Runs.{after, run};
ghost use Rattle.nova_model.specs.Semaphores.{waits};
ghost use Rattle.nova_model.specs.Sources.{Source, with_source};
ghost use Rattle.nova_model.specs.State.{KernelState, deadline_of};
ghost use Rattle.nova_model.specs.Times.{Entry, Times, due_on, entries, next_entry, next_moment};
ghost use Rattle.nova_model.specs.Turn.{answer_of, turn};
ghost use Rattle.nova_model.specs.declared.event.Turn.TheVariants.{Stepped};
ghost use Rattle.nova_model.specs.declared.times.AlarmState.{AlarmState};
ghost use Rattle.nova_model.specs.declared.times.Deadline.{Deadline};
ghost use Rattle.nova_model.specs.declared.times.Due.{Due};
ghost use Rattle.law_forest.specs.Effects.{Falls, Ticks};
ghost use Rattle.law_forest.specs.Turns.{passing, passing_event, turned};
ghost use Rattle.law_turns.specs.Moments.{HasEntries, IsDueOn, IsEntryOf, IsFirstEntry, IsOnTime};
ghost use Rattle.law_turns.specs.Waiting.{IsAwaiting};

/// Whatever list of turns is taken from whatever boot state, an execution context that has a deadline is
/// blocked at its semaphore, in whose queue it waits, and is of its processor.
pub fn who_has_a_deadline_waits_there()
    ensures blocked { (scenario : Scenario) (turns : List ℕ) (ec : ℕ) (d : Deadline)
        → deadline_of (run (boot scenario) turns).times ec ≡ Some d
        → IsAwaiting (run (boot scenario) turns).contexts ec d }
    ensures queued { (scenario : Scenario) (turns : List ℕ) (ec : ℕ) (d : Deadline)
        → deadline_of (run (boot scenario) turns).times ec ≡ Some d
        → waits (run (boot scenario) turns).semaphores d.sm ec ≡ true }
{}

/// What is to come on a processor are its alarms that go on and the deadlines of its execution contexts, and
/// nothing else. The first of it is that of least moment; at one moment an alarm comes before a deadline, and
/// then the lesser number. It is due where its moment is at most the clock.
pub fn the_first_that_is_to_come_is_due()
    ensures entries { (t : Times) (cpu : ℕ) (e : Entry) → Contains (entries t cpu) e → IsEntryOf t cpu e }
    ensures all { (t : Times) (cpu : ℕ) → HasEntries t cpu }
    ensures first { (t : Times) (cpu : ℕ) → IfSome (next_entry t cpu) (IsFirstEntry (entries t cpu)) }
    ensures none { (t : Times) (cpu : ℕ) → (next_entry t cpu ≡ None) ↔ (entries t cpu ≡ []) }
    ensures due { (t : Times) (cpu : ℕ) (what : Due) → due_on t cpu ≡ Some what → IsDueOn t cpu what }
{}

/// Where something is due, the turn of the processor is that, whichever context is chosen. Where nothing is
/// due, nothing is runnable and something is to come, it is a tick.
pub fn what_is_due_takes_the_turn()
    ensures state { (k : KernelState) (cpu : ℕ) (what : Due) → due_on k.times cpu ≡ Some what → after k cpu ≡ turned k cpu (passing k (Falls what)) }
    ensures event { (k : KernelState) (cpu : ℕ) (what : Due) → due_on k.times cpu ≡ Some what
        → answer_of (turn k cpu) ≡ Stepped (passing_event k cpu (Falls what)) }
    ensures tick { (k : KernelState) (cpu : ℕ) → due_on k.times cpu ≡ None → choice k cpu ≡ None → IsSome (next_moment k.times cpu)
        → answer_of (turn k cpu) ≡ Stepped (passing_event k cpu Ticks) }
    ensures ticks { (k : KernelState) (cpu : ℕ) → due_on k.times cpu ≡ None → choice k cpu ≡ None → IsSome (next_moment k.times cpu)
        → after k cpu ≡ turned k cpu (passing k Ticks) }
{}

/// A source that is added to a boot state leaves a boot state, of one source more. Whatever list of turns is
/// taken from whatever boot state, alarms stay those of its sources; the next moment of each is its first, with
/// a period more for each time that it rang, and it rang no more often than it was to.
pub fn alarms_keep_their_moments()
    ensures moments { (scenario : Scenario) (turns : List ℕ) (n : ℕ) (a : AlarmState)
        → slice_get (run (boot scenario) turns).times.alarms n ≡ Some a
        → IsOnTime a }
    ensures same { (scenario : Scenario) (turns : List ℕ)
        → map (λ a. a.alarm) (run (boot scenario) turns).times.alarms ≡ map (λ a. a.alarm) (boot scenario).times.alarms }
    ensures more { (scenario : Scenario) (source : Source)
        → boot (record scenario { sources = scenario.sources ++ source ∷ [] }) ≡ with_source (boot scenario) source }
{}

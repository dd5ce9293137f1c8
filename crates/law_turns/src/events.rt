// Laws of events: the contexts that they name, and how many there are.
ghost use Rattle.std.specs.Prelude.{◌≡◌, ◌↔◌, ◌+◌, ℕ, true, false, List, length, map, slice_get, take, Some, None};
ghost use Rattle.nova_model.specs.Boot.{Scenario, boot};
ghost use Rattle.nova_model.specs.Choice.{choose};
ghost use Rattle.nova_model.specs.Runs.{IsFreeOfIdle, run, trace};
ghost use Rattle.nova_model.specs.State.{KernelState};
ghost use Rattle.nova_model.specs.Turn.{answer_of, turn};
ghost use Rattle.nova_model.specs.declared.event.Event.{Event};
ghost use Rattle.nova_model.specs.declared.event.Turn.TheVariants.{Stepped};
ghost use Rattle.law_forest.specs.Turns.{is_passing};
ghost use Rattle.nova_model.specs.Times.{next_moment};
ghost use Rattle.law_turns.specs.Events.{NamesChosen, NamesNobody, turns_given};
ghost use Rattle.law_turns.specs.Scheduling.{paid_on, turns_passed};

/// The event of a turn names the processor whose turn it is, the scheduling context that was chosen, which pays
/// (`the_chosen_pays`), and the context that acts: of those that are met along edges from the scheduling
/// context's execution context on, itself first, the first that acts. The event of a deadline, an alarm or a
/// tick names the processor, and no scheduling context. A processor is idle exactly where none is chosen and
/// nothing is to come.
pub fn an_event_names_the_chosen()
    ensures names { (k : KernelState) (cpu : ℕ) (e : Event) → is_passing e.kind ≡ false → answer_of (turn k cpu) ≡ Stepped e → NamesChosen k cpu e }
    ensures nobody { (k : KernelState) (cpu : ℕ) (e : Event) → is_passing e.kind ≡ true → answer_of (turn k cpu) ≡ Stepped e → NamesNobody cpu e }
    ensures idle { (k : KernelState) (cpu : ℕ) → ((choose k cpu ≡ None) × (next_moment k.times cpu ≡ None)) ↔ (turn k cpu ≡ None) }
{}

/// Along an order without an idle turn there is an event for each turn, in the same order, and so as many
/// events as turns. Each is the answer of its turn, in the state that the turns before it left. From a boot
/// state on, the scheduling contexts of a processor then have as many ticks as the order gives it turns, less
/// those that are deadlines, alarms and ticks.
pub fn a_trace_has_an_event_a_turn()
    ensures processors { (k : KernelState) (order : List ℕ) → IsFreeOfIdle k order → map (λ e. e.cpu) (trace k order) ≡ order }
    ensures as_many { (k : KernelState) (order : List ℕ) → IsFreeOfIdle k order → length (trace k order) ≡ length order }
    ensures turns { (k : KernelState) (order : List ℕ) (n cpu : ℕ) (e : Event)
        → IsFreeOfIdle k order
        → slice_get order n ≡ Some cpu
        → slice_get (trace k order) n ≡ Some e
        → answer_of (turn (run k (take n order)) cpu) ≡ Stepped e }
    ensures ticks { (scenario : Scenario) (order : List ℕ) (cpu : ℕ)
        → IsFreeOfIdle (boot scenario) order
        → paid_on (run (boot scenario) order) cpu + turns_passed cpu (trace (boot scenario) order) ≡ turns_given cpu order }
{}

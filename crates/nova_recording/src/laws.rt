//! Laws of what is told of loads and stores. The functions do nothing: their contracts are the laws.
ghost use Rattle.std.specs.Prelude.{◌≡◌, ◌≢◌, ℕ, Some, None};
ghost use Rattle.nova_model.specs.Runs.{after};
ghost use Rattle.nova_model.specs.State.{KernelState};
ghost use Rattle.nova_model.specs.Turn.{answer_of, turn};
ghost use Rattle.nova_model.specs.declared.event.Event.{Event};
ghost use Rattle.nova_model.specs.declared.event.EventKind.TheVariants.{Step};
ghost use Rattle.nova_model.specs.declared.event.Turn.TheVariants.{Stepped};
ghost use Rattle.nova_recording.specs.Accesses.{memory_after};
ghost use Rattle.nova_recording.specs.Wants.{access_by};

/// What is told of a turn is all that it makes of memory: a store that is told puts its number to its frame, and no other turn changes
/// memory.
pub fn a_store_told_is_the_change_of_its_turn()
    ensures memory { (k : KernelState) (cpu : ℕ) (e : Event) → answer_of (turn k cpu) ≡ Stepped e
        → (after k cpu).memory ≡ memory_after k.memory (access_by k (Some e)) }
{}

/// A turn whose event is no step, as that of an instruction that raises, tells no load and no store.
pub fn a_turn_that_raises_stores_nothing()
    ensures none { (k : KernelState) (cpu : ℕ) (e : Event) → answer_of (turn k cpu) ≡ Stepped e → e.kind ≢ Step
        → access_by k (Some e) ≡ None }
{}

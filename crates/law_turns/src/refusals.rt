// Laws of hypercalls that are refused.
ghost use Rattle.std.specs.Prelude.{◌≡◌, ◌≢◌, ℕ};
ghost use Rattle.nova_model.specs.State.{KernelState};
ghost use Rattle.nova_model.specs.Turn.{turn, answer_of};
ghost use Rattle.nova_model.specs.declared.event.Event.{Event};
ghost use Rattle.nova_model.specs.declared.event.EventKind.TheVariants.{Answer};
ghost use Rattle.nova_model.specs.declared.event.Turn.TheVariants.{Stepped};
ghost use Rattle.law_turns.specs.Refusals.{IsRefusal};

/// A turn that answers a hypercall with another status than SUCCESS changes x10 and pc of the caller, what the
/// turn is charged to, and the counts of turns. It also changes the caller's state from helping to ready where
/// it made its call again, and nothing else.
pub fn a_refused_call_changes_its_callers_registers()
    ensures { (k : KernelState) (cpu : ℕ) (e : Event)
        → answer_of (turn k cpu) ≡ Stepped e
        → e.kind ≡ Answer
        → e.b ≢ 0
        → IsRefusal k cpu e }
{}

ghost use Rattle.std.specs.Prelude.{◌≡◌, ◌≢◌, ℕ, ◌==◌, false, List, option_map, replicate};
ghost use Rattle.rv_model.specs.Registers.{reg};
ghost use Rattle.nova_calls.specs.declared.numbers.TheConstants.{SC_CTRL};
ghost use Rattle.nova_model.specs.Boot.{Scenario, boot};
ghost use Rattle.nova_model.specs.Choice.{Candidate, choose, is_quiet, next_to_act};
ghost use Rattle.nova_model.specs.Deeds.{deed};
ghost use Rattle.nova_model.specs.Runs.{after, run, trace};
ghost use Rattle.nova_model.specs.State.{KernelState, Stirs, context};
ghost use Rattle.nova_model.specs.Turn.{answer_of, turn};
ghost use Rattle.law_turns.specs.Keeping.{IsKept};
ghost use Rattle.law_alike.specs.Alike.{IsAlike, AreStampsGiven, TellNoTicks, TellsNoTicks, may_tell_ticks, stamp, tells_ticks};
ghost use Rattle.law_alike.specs.Examples.{spinning};

/// Each state is alike to itself, also with other counts of turns and stir counts; states are alike both ways, and what is alike to one state is alike
/// to each other.
pub fn alikeness_is_an_equivalence()
    ensures reflexive { (k : KernelState) → IsAlike k k }
    ensures counts { (k : KernelState) (turns : ℕ) (stirs : Stirs) → IsAlike k (record k { turns = turns; stirs = stirs }) }
    ensures symmetric { (k l : KernelState) → IsAlike k l → IsAlike l k }
    ensures transitive { (k l m : KernelState) → IsAlike k l → IsAlike l m → IsAlike k m }
{}

/// In alike states a processor chooses the same scheduling context, the same execution context acts next, and the turn has the same event and leaves alike states, unless it tells ticks;
/// and so it is with turns of any order. States after turns are alike where tables went with objects and stamps were below the next, as they are in
/// whatever turns leave of a boot state, and after a turn where they were before: so what orders lead to may be taken for one where it is alike.
pub fn alike_states_have_alike_turns()
    ensures chosen { (k l : KernelState) (cpu : ℕ) → IsAlike k l → choose k cpu ≡ choose l cpu }
    ensures actors { (k l : KernelState) (cpu : ℕ) → IsAlike k l
        → option_map (λ (c : Candidate). c.actor) (next_to_act k cpu) ≡ option_map (λ (c : Candidate). c.actor) (next_to_act l cpu) }
    ensures events { (k l : KernelState) (cpu : ℕ) → IsAlike k l → TellsNoTicks k cpu → answer_of (turn k cpu) ≡ answer_of (turn l cpu) }
    ensures turns { (k l : KernelState) (cpu : ℕ)
        → IsKept k → IsKept l → AreStampsGiven k → AreStampsGiven l
        → IsAlike k l → TellsNoTicks k cpu
        → IsAlike (after k cpu) (after l cpu) }
    ensures runs { (k l : KernelState) (order : List ℕ)
        → IsKept k → IsKept l → AreStampsGiven k → AreStampsGiven l
        → IsAlike k l → TellNoTicks k order
        → IsAlike (run k order) (run l order) }
    ensures traces { (k l : KernelState) (order : List ℕ)
        → IsKept k → IsKept l → AreStampsGiven k → AreStampsGiven l
        → IsAlike k l → TellNoTicks k order
        → trace k order ≡ trace l order }
    ensures orders { (a b : Scenario) (before since order : List ℕ)
        → IsAlike (run (boot a) before) (run (boot b) since) → TellNoTicks (run (boot a) before) order
        → IsAlike (run (run (boot a) before) order) (run (run (boot b) since) order)
        × (trace (run (boot a) before) order ≡ trace (run (boot b) since) order) }
    ensures given { (k : KernelState) (cpu : ℕ) → AreStampsGiven k → AreStampsGiven (after k cpu) }
    ensures reached { (scenario : Scenario) (order : List ℕ) → AreStampsGiven (run (boot scenario) order) }
{}

/// What a kernel has come to is the same in alike states: execution contexts, message words, semaphores and their counters, objects and
/// delegations, RAM, and what consoles got. Each is quiet exactly where the other is.
pub fn alike_states_are_as_one()
    ensures contexts { (k l : KernelState) → IsAlike k l → k.contexts ≡ l.contexts }
    ensures words { (k l : KernelState) → IsAlike k l → k.messages ≡ l.messages }
    ensures semaphores { (k l : KernelState) → IsAlike k l → k.semaphores ≡ l.semaphores }
    ensures objects { (k l : KernelState) → IsAlike k l → k.objects ≡ l.objects }
    ensures delegations { (k l : KernelState) → IsAlike k l → k.delegations ≡ l.delegations }
    ensures memory { (k l : KernelState) → IsAlike k l → k.memory ≡ l.memory }
    ensures quiet { (k l : KernelState) → IsAlike k l → is_quiet k ≡ is_quiet l }
{}

/// A run that spins comes to one state, but for what counts turns. The root jumps to itself, on quanta of one turn: after however many turns the state
/// is alike to the first, though from the first one on its scheduling context has another stamp.
pub fn a_spinning_run_stays_alike()
    ensures alike { (n : ℕ) → IsAlike (run (boot spinning) (replicate n 0)) (boot spinning) }
    ensures differ { stamp (after (boot spinning) 0) 2 ≢ stamp (boot spinning) 2 }
{}

/// Ticks are told by one hypercall: an execution context whose x17 hasn't its number tells none, and neither does a turn whose event isn't an answer
/// to it.
pub fn ticks_are_told_by_one_call()
    ensures number { (k : KernelState) (ec : ℕ) → (reg (context k ec).regs 17 == SC_CTRL) ≡ false → tells_ticks (deed k ec) ≡ false }
    ensures event { (k : KernelState) (cpu : ℕ) → may_tell_ticks (answer_of (turn k cpu)) ≡ false → TellsNoTicks k cpu }
{}

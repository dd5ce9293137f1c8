// Laws of scheduling contexts.
ghost use Rattle.std.specs.Prelude.{◌≡◌, ◌<◌, ◌≤◌, ◌+◌, ℕ, true, false, List, None, Some, IfSome, length, slice_get, slice_index};
ghost use Rattle.nova_model.specs.Boot.{Scenario, boot};
ghost use Rattle.nova_model.specs.Capabilities.{is_schedulable};
ghost use Rattle.nova_model.specs.Hypercalls.{schedules, ticks_in};
ghost use Rattle.nova_model.specs.Runs.{after, run, trace};
ghost use Rattle.nova_model.specs.State.{KernelState, budget_at};
ghost use Rattle.nova_model.specs.Turn.{answer_of, quantum_in, turn};
ghost use Rattle.nova_model.specs.declared.budget.Budget.{Budget};
ghost use Rattle.nova_model.specs.declared.event.Event.{Event};
ghost use Rattle.nova_model.specs.declared.event.Turn.TheVariants.{Stepped};
ghost use Rattle.law_forest.specs.Turns.{is_passing};
ghost use Rattle.nova_model.specs.Times.{clock};
ghost use Rattle.law_turns.specs.Scheduling.{HasTurnsLeft, IsPaidBy, IsUnpaid, paid_on, turns_of, turns_paid_by, turns_passed};
ghost use Rattle.law_turns.specs.Tables.{IsOf};

/// Whatever list of turns is taken from whatever boot state, a scheduling context has as many ticks as
/// there are turns that it paid for. Those of a processor's scheduling contexts sum to the turns that the
/// processor took, less those that are deadlines, alarms and ticks. Of a processor that is there the turns
/// that it took are its count of turns, and its clock. The kernel's own count is that of all turns that were
/// taken.
pub fn ticks_count_turns()
    ensures each { (scenario : Scenario) (turns : List ℕ) (n : ℕ)
        → ticks_in (budget_at (run (boot scenario) turns) n) ≡ turns_paid_by n (trace (boot scenario) turns) }
    ensures sum { (scenario : Scenario) (turns : List ℕ) (cpu : ℕ)
        → paid_on (run (boot scenario) turns) cpu + turns_passed cpu (trace (boot scenario) turns) ≡ turns_of cpu (trace (boot scenario) turns) }
    ensures counts { (scenario : Scenario) (turns : List ℕ) (cpu : ℕ)
        → cpu < scenario.cpus
        → turns_of cpu (trace (boot scenario) turns) ≡ slice_index (run (boot scenario) turns).stirs.processors cpu }
    ensures clocks { (scenario : Scenario) (turns : List ℕ) (cpu : ℕ)
        → cpu < scenario.cpus
        → clock (run (boot scenario) turns).times cpu ≡ turns_of cpu (trace (boot scenario) turns) }
    ensures all { (scenario : Scenario) (turns : List ℕ) → (run (boot scenario) turns).turns ≡ length (trace (boot scenario) turns) }
{}

/// Whatever list of turns is taken from whatever boot state, no two scheduling contexts have the same stamp,
/// and the next is greater than all of theirs. A turn never lowers it, and gives no stamp below it
/// (`the_chosen_pays`), so that none is given twice.
pub fn stamps_are_given_once()
    ensures below { (scenario : Scenario) (turns : List ℕ) (n : ℕ)
        → IfSome (budget_at (run (boot scenario) turns) n) (λ b. b.stamp < (run (boot scenario) turns).next_stamp) }
    ensures apart { (scenario : Scenario) (turns : List ℕ) (m n : ℕ) (a b : Budget)
        → budget_at (run (boot scenario) turns) m ≡ Some a
        → budget_at (run (boot scenario) turns) n ≡ Some b
        → a.stamp ≡ b.stamp
        → m ≡ n }
    ensures rising { (k : KernelState) (cpu : ℕ) → k.next_stamp ≤ (after k cpu).next_stamp }
{}

/// Whatever list of turns is taken from whatever boot state in which the root's quantum is at least 1,
/// what is left of the quantum of a scheduling context is at least 1 and at most that quantum.
pub fn what_is_left_is_within_its_quantum()
    ensures { (scenario : Scenario) (turns : List ℕ) (n : ℕ)
        → 1 ≤ scenario.root.quantum
        → IfSome (slice_get (run (boot scenario) turns).objects n) (HasTurnsLeft (run (boot scenario) turns) n) }
{}

/// Whatever list of turns is taken from whatever boot state, an execution context has at most one scheduling
/// context, and an execution context that has one is there and is no local thread.
pub fn each_has_at_most_one_scheduling_context()
    ensures one { (scenario : Scenario) (turns : List ℕ) (ec m n : ℕ)
        → IsOf (run (boot scenario) turns).objects (schedules ec) m
        → IsOf (run (boot scenario) turns).objects (schedules ec) n
        → m ≡ n }
    ensures schedulable { (scenario : Scenario) (turns : List ℕ) (ec n : ℕ)
        → IsOf (run (boot scenario) turns).objects (schedules ec) n
        → IsOf (run (boot scenario) turns).objects is_schedulable ec }
{}

/// A deadline, an alarm and a tick are paid by none, and leave all budgets. Any other turn that is taken is paid by the scheduling context that its
/// event names, which is one of its processor: it has one tick more, and a turn less is left of its quantum. Where that was the last, the whole
/// quantum is left again, and it takes the next stamp. The budgets of all other scheduling contexts stay. A new budget has no ticks and takes the
/// next stamp, before that which pays; and whatever list of turns is taken from whatever boot state, it begins with its whole quantum.
pub fn the_chosen_pays()
    ensures pays { (k : KernelState) (cpu : ℕ) (e : Event) → is_passing e.kind ≡ false → answer_of (turn k cpu) ≡ Stepped e → IsPaidBy k (after k cpu) cpu e.sc }
    ensures free { (k : KernelState) (cpu : ℕ) (e : Event) → is_passing e.kind ≡ true → answer_of (turn k cpu) ≡ Stepped e → IsUnpaid k (after k cpu) }
    ensures begins { (scenario : Scenario) (turns : List ℕ) (cpu n : ℕ) (b : Budget)
        → budget_at (run (boot scenario) turns) n ≡ None
        → budget_at (after (run (boot scenario) turns) cpu) n ≡ Some b
        → b.left ≡ quantum_in (slice_get (after (run (boot scenario) turns) cpu).objects n) }
{}

// Laws of deadlines, along any list of turns from any boot state.
ghost use Rattle.std.specs.Prelude.{◌≡◌, ◌⊎◌, ◌≤◌, ◌+◌, ℕ, List, None, Some, false, true};
ghost use Rattle.nova_model.specs.Boot.{Scenario, boot};
ghost use Rattle.nova_model.specs.Choice.{next_to_act};
ghost use Rattle.nova_model.specs.Runs.{after, run};
ghost use Rattle.nova_model.specs.Semaphores.{waits};
ghost use Rattle.nova_model.specs.State.{KernelState, deadline_of};
ghost use Rattle.nova_model.specs.Times.{clock, due_on};
ghost use Rattle.nova_model.specs.Turn.{answer_of, turn};
ghost use Rattle.nova_model.specs.declared.event.Event.{Event};
ghost use Rattle.nova_model.specs.declared.event.EventKind.TheVariants.{Late};
ghost use Rattle.nova_model.specs.declared.event.Turn.TheVariants.{Stepped};
ghost use Rattle.nova_model.specs.declared.times.Deadline.{Deadline};
ghost use Rattle.nova_model.specs.declared.times.Due.TheVariants as due;
ghost use Rattle.nova_gsi.specs.Deadlines.{HadDeadline, HasStood, IsNoLater, SetsOwn, turns_before};

/// Whatever list of turns is taken from whatever boot state, an execution context that has a deadline after a
/// turn had the same before it, or set it in its own turn. In that turn it had none before, and began to wait,
/// to a moment after that turn. So it has stood since. An execution context whose deadline comes had it and was
/// blocked. An execution context that leaves a queue, woken or too late, has none any more: no deadline comes
/// of one that was woken, unless it waits to another.
pub fn deadlines_are_of_who_waits()
    ensures set { (scenario : Scenario) (turns : List ℕ) (cpu ec : ℕ) (d : Deadline)
        → deadline_of (after (run (boot scenario) turns) cpu).times ec ≡ Some d
        → (deadline_of (run (boot scenario) turns).times ec ≡ Some d) ⊎ SetsOwn (run (boot scenario) turns) cpu ec d }
    ensures since { (scenario : Scenario) (turns : List ℕ) (ec : ℕ) (d : Deadline)
        → deadline_of (run (boot scenario) turns).times ec ≡ Some d
        → HasStood (boot scenario) turns ec d }
    ensures late { (scenario : Scenario) (turns : List ℕ) (cpu : ℕ) (e : Event)
        → answer_of (turn (run (boot scenario) turns) cpu) ≡ Stepped e
        → e.kind ≡ Late
        → HadDeadline (run (boot scenario) turns) cpu e }
    ensures woken { (scenario : Scenario) (turns : List ℕ) (cpu sm w : ℕ)
        → waits (run (boot scenario) turns).semaphores sm w ≡ true
        → waits (after (run (boot scenario) turns) cpu).semaphores sm w ≡ false
        → deadline_of (after (run (boot scenario) turns) cpu).times w ≡ None }
{}

/// Where a deadline's moment has come, its processor's turn is that deadline, or an entry that comes before it,
/// and none acts there. Along whatever list of turns from there on, while it stands, its processor's clock and
/// the number of turns that are due before it sum to no more than they did; and where the clock has come to
/// that sum, its turn is next. So it comes no later than in the turn that begins at a clock of its moment and
/// the number of turns that were due before it then; a deadline that is set meanwhile isn't among them.
pub fn deadlines_come_in_time()
    ensures first { (k : KernelState) (ec : ℕ) (d : Deadline)
        → deadline_of k.times ec ≡ Some d
        → d.at ≤ clock k.times d.cpu
        → IsNoLater k.times ec d }
    ensures nobody { (k : KernelState) (ec : ℕ) (d : Deadline)
        → deadline_of k.times ec ≡ Some d
        → d.at ≤ clock k.times d.cpu
        → next_to_act k d.cpu ≡ None }
    ensures bound { (scenario : Scenario) (before turns : List ℕ) (ec : ℕ) (d : Deadline)
        → d.at ≤ clock (run (boot scenario) before).times d.cpu
        → deadline_of (run (run (boot scenario) before) turns).times ec ≡ Some d
        → clock (run (run (boot scenario) before) turns).times d.cpu + turns_before (run (run (boot scenario) before) turns).times ec d ≤ clock (run (boot scenario) before).times d.cpu + turns_before (run (boot scenario) before).times ec d }
    ensures last { (scenario : Scenario) (before turns : List ℕ) (ec : ℕ) (d : Deadline)
        → d.at ≤ clock (run (boot scenario) before).times d.cpu
        → deadline_of (run (run (boot scenario) before) turns).times ec ≡ Some d
        → clock (run (boot scenario) before).times d.cpu + turns_before (run (boot scenario) before).times ec d ≤ clock (run (run (boot scenario) before) turns).times d.cpu
        → due_on (run (run (boot scenario) before) turns).times d.cpu ≡ Some (due.Deadline ec) }
{}

//! Laws of response: how many turns of its processor a scheduling context waits. The functions do nothing: their contracts are the laws.
//! Each holds in every state that turns reach from a boot state, and over every list of further turns, of any processors.
#![tactic(auto)]

ghost use Rattle.std.specs.Prelude.{◌≡◌, ◌≢◌, ◌<◌, ◌≤◌, ◌+◌, ◌-◌, ◌*◌, ◌∷◌, ◌++◌, ℕ, Bool, List, Contains, None, Ok, Some, false, length, replicate, slice_get, true};
ghost use Rattle.nova_calls.specs.Hypercalls.{call_of};
ghost use Rattle.nova_calls.specs.declared.call.Call.TheVariants as asks;
ghost use Rattle.nova_utcb.specs.Messages.{has_counts};
ghost use Rattle.nova_model.specs.Boot.{Scenario, boot};
ghost use Rattle.nova_model.specs.Capabilities.{call_right, is_pt, named};
ghost use Rattle.nova_model.specs.Choice.{Candidate, actor, candidates};
ghost use Rattle.nova_model.specs.Deeds.{deed, recall};
ghost use Rattle.nova_model.specs.Edges.{acts, after_edges, edge, state_in};
ghost use Rattle.nova_model.specs.Revokes.{Revocation};
ghost use Rattle.nova_model.specs.Runs.{after, rounds, run};
ghost use Rattle.nova_model.specs.Semaphores.{semaphore};
ghost use Rattle.nova_model.specs.Portals.{handler_of};
ghost use Rattle.nova_model.specs.State.{KernelState, context, deadline_of, message, pd_of};
ghost use Rattle.nova_model.specs.Times.{clock, due_on, goes_on};
ghost use Rattle.nova_model.specs.declared.budget.Budget.{Budget};
ghost use Rattle.nova_model.specs.declared.context.State.{State};
ghost use Rattle.nova_model.specs.declared.context.State.TheVariants.{Blocked, Helping, Parked, Ready};
ghost use Rattle.nova_model.specs.declared.deed.Deed.TheVariants.{Raises};
ghost use Rattle.nova_model.specs.declared.times.AlarmState.{AlarmState};
ghost use Rattle.nova_model.specs.declared.times.Deadline.{Deadline};
ghost use Rattle.std.specs.List.{concat};
ghost use Rattle.law_turns.specs.Rounds.{AreRounds};
ghost use Rattle.law_revocation.specs.Along.{Runs, acts_in};
ghost use Rattle.law_revocation.specs.Whole.{left};
ghost use Rattle.law_response.specs.Creating.{NobodyCreates, NobodyElseCreates, OutranksOthers};
ghost use Rattle.nova_gsi.specs.Deadlines.{rings_left};
ghost use Rattle.nova_gsi.specs.Firings.{moment};
ghost use Rattle.law_response.specs.Dues.{AreDueBounded, IsPrompt, deadlines_on};
ghost use Rattle.law_response.specs.Helping.{callers, goes_on_helping};
ghost use Rattle.law_response.specs.Items.{GivesAlong, turns_of_items};
ghost use Rattle.law_response.specs.Jobs.{MeetsDemand};
ghost use Rattle.law_response.specs.Reactions.{IsAtMoment, IsReaction, rings_within};
ghost use Rattle.law_response.specs.Served.{ServesInRounds};
ghost use Rattle.law_response.specs.Taken.{HasHelped, IsTaken};
ghost use Rattle.law_response.specs.Waits.{ActsItself, Awaits, GoesFirst, HasAwaited, HasShared, HasWaited, IsInTime, IsSchedule, MayRun, NeverActs, StaysRunnable, acts_itself, ahead, due_in, full_quantum, others, paid_in, turns_at, turns_left};

/// While scheduling context `sc` stays runnable and pays for fewer turns than are left of its quantum, each turn of its processor is due,
/// of a greater priority, its own, or lowers by 1 what is ahead of it in its ring. Its stamp stays, and its quantum falls by 1 with each
/// turn that it pays for. It need not be runnable in states in which something is due.
pub fn a_runnable_context_waits_for_its_ring()
    ensures { (scenario : Scenario) (before turns : List ℕ) (sc ec cpu priority quantum : ℕ) (b : Budget) →
        IsSchedule (run (boot scenario) before) sc ec cpu priority quantum b →
        StaysRunnable (run (boot scenario) before) cpu ec turns →
        paid_in (run (boot scenario) before) sc turns < turns_left b →
        HasWaited (run (boot scenario) before) turns sc ec cpu priority quantum b }
{}

/// Where the turns of `ec`, along donation, lead to an execution context that acts, they do so until that context acts. Until then its scheduling
/// context pays for no turn, and each turn of its processor is due, of a greater priority, or lowers by 1 what is ahead of it. So that context acts
/// after at most `ahead` turns of the processor beside those due and those of a greater priority.
pub fn the_end_of_a_chain_acts_in_time()
    ensures { (scenario : Scenario) (before turns : List ℕ) (sc ec cpu priority quantum : ℕ) (b : Budget) →
        IsSchedule (run (boot scenario) before) sc ec cpu priority quantum b →
        MayRun (run (boot scenario) before) ec →
        Awaits (run (boot scenario) before) ec turns →
        HasAwaited (run (boot scenario) before) turns sc ec cpu priority b }
{}

/// An execution context that is fresh, ready, exiting, granting, replying or revoking, and has a scheduling context, stays in that state until it
/// acts, whatever others do. It acts after at most `ahead` turns of its processor beside those due and those of a greater priority. An execution
/// context that was blocked at a semaphore, and after a turn isn't, is in one of these states then.
pub fn a_context_that_waits_for_nobody_acts_in_time()
    ensures acts { (scenario : Scenario) (before turns : List ℕ) (sc ec cpu priority quantum : ℕ) (b : Budget) (s : State) →
        IsSchedule (run (boot scenario) before) sc ec cpu priority quantum b →
        state_in (run (boot scenario) before).contexts ec ≡ Some s →
        acts_itself s ≡ true →
        NeverActs (run (boot scenario) before) ec turns →
        HasAwaited (run (boot scenario) before) turns sc ec cpu priority b × (state_in (run (run (boot scenario) before) turns).contexts ec ≡ Some s) }
    ensures woken { (scenario : Scenario) (before : List ℕ) (by ec sm : ℕ) →
        state_in (run (boot scenario) before).contexts ec ≡ Some (Blocked sm) →
        state_in (after (run (boot scenario) before) by).contexts ec ≢ Some (Blocked sm) →
        ActsItself (after (run (boot scenario) before) by) ec }
{}

/// From the moment of a deadline on, woken or late, until its execution context acts, each turn of the processor is due, of a greater
/// priority, or lowers by 1 what is ahead of its scheduling context. The same holds from the moment of an alarm on, before it rings, until
/// the first execution context that waits at its semaphore acts.
pub fn a_context_acts_in_time_after_its_moment()
    ensures deadline { (scenario : Scenario) (before turns : List ℕ) (sc ec priority quantum : ℕ) (b : Budget) (d : Deadline) →
        IsSchedule (run (boot scenario) before) sc ec d.cpu priority quantum b →
        deadline_of (run (boot scenario) before).times ec ≡ Some d →
        d.at ≤ clock (run (boot scenario) before).times d.cpu →
        NeverActs (run (boot scenario) before) ec turns →
        IsInTime (run (boot scenario) before) turns d.cpu priority b }
    ensures alarm { (scenario : Scenario) (before turns : List ℕ) (sc ec priority quantum n : ℕ) (b : Budget) (a : AlarmState) (rest : List ℕ) →
        IsSchedule (run (boot scenario) before) sc ec a.alarm.cpu priority quantum b →
        slice_get (run (boot scenario) before).times.alarms n ≡ Some a →
        goes_on a ≡ true →
        a.next ≤ clock (run (boot scenario) before).times a.alarm.cpu →
        (semaphore (run (boot scenario) before).semaphores a.alarm.sm).waiting ≡ ec ∷ rest →
        NeverActs (run (boot scenario) before) ec turns →
        IsInTime (run (boot scenario) before) turns a.alarm.cpu priority b }
{}

/// Over any turns, those of a processor that are due are at most the rings that its alarms have by its clock at the end, the deadlines that
/// stood at the start, and those with which waits began meanwhile.
pub fn turns_that_are_due_are_bounded()
    ensures { (scenario : Scenario) (before turns : List ℕ) (cpu : ℕ) → AreDueBounded (run (boot scenario) before) turns cpu }
{}

/// An alarm rings by a clock only at its moments. The last of the rings that it has left by then has its moment at the clock or before, and before
/// its next moment it has none. So it has at most (clock - next moment) / period + 1 left.
pub fn an_alarm_rings_once_a_period()
    ensures last { (a : AlarmState) (at : ℕ) → 1 ≤ rings_left at a → moment a.alarm (a.rings + (rings_left at a - 1)) ≤ at }
    ensures none { (a : AlarmState) (at : ℕ) → at < moment a.alarm a.rings → rings_left at a ≡ 0 }
{}

/// From its moment on until it rings, an alarm's processor has at most as many turns as its alarms ring there by then and deadlines stood, whichever
/// contexts wait at the alarm's semaphore, on whatever processor, and also where none does. Then the first that waited waits for none.
pub fn an_alarm_rings_in_time()
    ensures { (scenario : Scenario) (before turns : List ℕ) (n : ℕ) (a : AlarmState) →
        slice_get (run (boot scenario) before).times.alarms n ≡ Some a →
        goes_on a ≡ true →
        a.next ≤ clock (run (boot scenario) before).times a.alarm.cpu →
        slice_get (run (run (boot scenario) before) turns).times.alarms n ≡ Some a →
        IsPrompt (run (boot scenario) before) turns a.alarm.cpu }
{}

/// An execution context that is ready, and whose recall is asked for, acts after at most `ahead` turns of its processor beside those due and those of
/// a greater priority. It then raises the exit of a recall, before any instruction.
pub fn a_recall_comes_in_time()
    ensures { (scenario : Scenario) (before turns : List ℕ) (sc ec cpu priority quantum : ℕ) (b : Budget) →
        IsSchedule (run (boot scenario) before) sc ec cpu priority quantum b →
        state_in (run (boot scenario) before).contexts ec ≡ Some Ready →
        (context (run (boot scenario) before) ec).recall ≡ true →
        NeverActs (run (boot scenario) before) ec turns →
        HasAwaited (run (boot scenario) before) turns sc ec cpu priority b × (deed (run (run (boot scenario) before) turns) ec ≡ Raises recall 0 0) }
{}

/// Where each execution context is dead, or its protection domain holds no right to create, no turn makes an object, and that stays so.
pub fn nothing_is_made_without_the_right_to_create()
    ensures objects { (scenario : Scenario) (before turns : List ℕ) →
        NobodyCreates (run (boot scenario) before) →
        (run (run (boot scenario) before) turns).objects ≡ (run (boot scenario) before).objects }
    ensures stays { (scenario : Scenario) (before turns : List ℕ) →
        NobodyCreates (run (boot scenario) before) →
        NobodyCreates (run (run (boot scenario) before) turns) }
{}

/// A driver acts within as many turns of its processor, from its moment on, as rings come there by then and deadlines stood. A driver is an execution
/// context whose scheduling context outranks all others of the processor, and beside which none may create, from the moment of its deadline on, and
/// such a context that is the first to wait at the semaphore of an alarm, from the alarm's moment on. All premises but the last are on the state at
/// that moment.
pub fn a_driver_acts_in_time()
    ensures deadline { (scenario : Scenario) (before turns : List ℕ) (sc ec priority quantum : ℕ) (b : Budget) (d : Deadline) →
        IsSchedule (run (boot scenario) before) sc ec d.cpu priority quantum b →
        deadline_of (run (boot scenario) before).times ec ≡ Some d →
        d.at ≤ clock (run (boot scenario) before).times d.cpu →
        NobodyElseCreates (run (boot scenario) before) ec →
        OutranksOthers (run (boot scenario) before) d.cpu sc priority →
        NeverActs (run (boot scenario) before) ec turns →
        IsPrompt (run (boot scenario) before) turns d.cpu }
    ensures alarm { (scenario : Scenario) (before turns : List ℕ) (sc ec priority quantum n : ℕ) (b : Budget) (a : AlarmState) (rest : List ℕ) →
        IsSchedule (run (boot scenario) before) sc ec a.alarm.cpu priority quantum b →
        slice_get (run (boot scenario) before).times.alarms n ≡ Some a →
        goes_on a ≡ true →
        a.next ≤ clock (run (boot scenario) before).times a.alarm.cpu →
        (semaphore (run (boot scenario) before).semaphores a.alarm.sm).waiting ≡ ec ∷ rest →
        NobodyElseCreates (run (boot scenario) before) ec →
        OutranksOthers (run (boot scenario) before) a.alarm.cpu sc priority →
        NeverActs (run (boot scenario) before) ec turns →
        IsPrompt (run (boot scenario) before) turns a.alarm.cpu }
{}

/// Where scheduling context `sc` may run, each other candidate of its processor has a lesser priority, and nothing is due, `sc` pays for the
/// processor's next turn, and the execution context to which the turns of `ec` lead acts in it. An execution context that waits along an
/// edge and doesn't act gives its turns to where those of the handler lead.
pub fn the_highest_priority_goes_first()
    ensures first { (scenario : Scenario) (before : List ℕ) (sc ec cpu priority quantum : ℕ) (b : Budget) →
        IsSchedule (run (boot scenario) before) sc ec cpu priority quantum b →
        MayRun (run (boot scenario) before) ec →
        due_on (run (boot scenario) before).times cpu ≡ None →
        ((d : Candidate) → Contains (candidates (run (boot scenario) before) cpu) d → d.sc ≢ sc → d.priority < priority) →
        GoesFirst (run (boot scenario) before) cpu sc ec }
    ensures edges { (scenario : Scenario) (before : List ℕ) (ec h : ℕ) →
        edge (run (boot scenario) before).contexts ec ≡ Some h →
        acts (run (boot scenario) before).contexts ec ≡ false →
        actor (run (boot scenario) before) ec ≡ actor (run (boot scenario) before) h }
{}

/// Where none may create, and scheduling context `sc` outranks all others of its processor, each turn of the processor is due or paid for by `sc`, as
/// long as it may run. So while its execution context calls, from the call's first turn to its last, all turns but those due go to its chain, unless
/// that blocks at a semaphore.
pub fn the_highest_priority_has_every_turn()
    ensures { (scenario : Scenario) (before turns : List ℕ) (sc ec cpu priority quantum : ℕ) (b : Budget) →
        NobodyCreates (run (boot scenario) before) →
        IsSchedule (run (boot scenario) before) sc ec cpu priority quantum b →
        OutranksOthers (run (boot scenario) before) cpu sc priority →
        StaysRunnable (run (boot scenario) before) cpu ec turns →
        turns_at cpu turns ≡ due_in (run (boot scenario) before) cpu turns + paid_in (run (boot scenario) before) sc turns }
{}

/// Where none may create, and scheduling context `sc` outranks all others of its processor, its execution context, as long as it helps a handler,
/// goes on to do so until it acts. Each turn of the processor is due or goes to where the handler's turns lead. So what its call waits for is due, or
/// the handler's own work. Once the handler is parked, and nothing is due, it acts in the processor's next turn, and its call is taken, if its
/// registers and its message still ask for one and their portal is of that handler.
pub fn a_call_of_the_highest_priority_is_taken_in_time()
    ensures helps { (scenario : Scenario) (before turns : List ℕ) (sc ec cpu priority quantum handler : ℕ) (b : Budget) →
        NobodyCreates (run (boot scenario) before) →
        IsSchedule (run (boot scenario) before) sc ec cpu priority quantum b →
        OutranksOthers (run (boot scenario) before) cpu sc priority →
        state_in (run (boot scenario) before).contexts ec ≡ Some (Helping handler) →
        NeverActs (run (boot scenario) before) ec turns →
        StaysRunnable (run (boot scenario) before) cpu ec turns →
        HasHelped (run (boot scenario) before) turns cpu ec handler }
    ensures taken { (scenario : Scenario) (before : List ℕ) (sc ec cpu priority quantum handler selector pt : ℕ) (b : Budget) (flag : Bool) →
        IsSchedule (run (boot scenario) before) sc ec cpu priority quantum b →
        OutranksOthers (run (boot scenario) before) cpu sc priority →
        state_in (run (boot scenario) before).contexts ec ≡ Some (Helping handler) →
        state_in (run (boot scenario) before).contexts handler ≡ Some Parked →
        due_on (run (boot scenario) before).times cpu ≡ None →
        call_of (context (run (boot scenario) before) ec).regs ≡ Ok (asks.Call selector flag) →
        has_counts (message (run (boot scenario) before) ec) ≡ true →
        named (run (boot scenario) before) (pd_of (run (boot scenario) before) ec) is_pt call_right selector ≡ Ok pt →
        handler_of (run (boot scenario) before) pt ≡ handler →
        IsTaken (run (boot scenario) before) cpu sc ec handler pt }
{}

/// No chain of calls, helps and exits closes to a circle: no number of edges leads from an execution context back to itself.
pub fn a_chain_of_calls_never_closes_to_a_circle()
    ensures { (scenario : Scenario) (turns : List ℕ) (ec n : ℕ) → after_edges (n + 1) (edge (run (boot scenario) turns).contexts) ec ≢ Some ec }
{}

/// A job of `own` turns of `sc` is done after `response` turns of its processor, by response-time analysis. The premises are that `sc` stays
/// runnable, at most `demand n` of the first n turns are due or of a greater priority, and `response` is enough for the demand of that many, what is
/// ahead of `sc` in its ring, and the job (`once`: a job within what is left of the quantum); or for these and the full quanta of its peers once for
/// each of `rounds` renewals, where none may create and `own` is at most `rounds` full quanta and 1 (`rounds`).
pub fn a_job_ends_within_its_response_time()
    ensures once { (scenario : Scenario) (before turns : List ℕ) (sc ec cpu priority quantum own response : ℕ) (b : Budget) (demand : ℕ → ℕ) →
        IsSchedule (run (boot scenario) before) sc ec cpu priority quantum b →
        StaysRunnable (run (boot scenario) before) cpu ec turns →
        MeetsDemand (run (boot scenario) before) turns cpu priority demand →
        own ≤ turns_left b →
        demand response + (ahead (run (boot scenario) before) cpu priority b.stamp + own) ≤ response →
        paid_in (run (boot scenario) before) sc turns < own →
        turns_at cpu turns < response }
    ensures rounds { (scenario : Scenario) (before turns : List ℕ) (sc ec cpu priority quantum own rounds response : ℕ) (b : Budget) (demand : ℕ → ℕ) →
        1 ≤ scenario.root.quantum →
        NobodyCreates (run (boot scenario) before) →
        IsSchedule (run (boot scenario) before) sc ec cpu priority quantum b →
        StaysRunnable (run (boot scenario) before) cpu ec turns →
        MeetsDemand (run (boot scenario) before) turns cpu priority demand →
        own ≤ rounds * full_quantum quantum + 1 →
        demand response + (ahead (run (boot scenario) before) cpu priority b.stamp + (own + rounds * others (run (boot scenario) before) cpu priority sc)) ≤ response →
        paid_in (run (boot scenario) before) sc turns < own →
        turns_at cpu turns < response }
{}

/// From the moment of a source, for which a driver waits that outranks all others of its processor, the processor has fewer than `response`
/// turns until a guest there, which the driver recalls, acts, and then raises the exit of the recall (`exit`). Enough turns are: those that
/// rings, deadlines that stand and deadlines begun take, the driver's own and those of a greater priority than the guest's (`work`), the full
/// quanta of the guest's equals, and 1. It has fewer, too, until the guest has paid for `own` turns, as for the exit, its handler, and the
/// guest's next instruction, if it may run until then (`job`); its equals then come again for each of `rounds` renewals of its quantum.
pub fn a_moment_reaches_a_guest_in_time()
    ensures exit { (scenario : Scenario) (before waits works rest : List ℕ) (cpu driver_sc driver guest_sc guest priority quantum work begun response : ℕ) →
        1 ≤ scenario.root.quantum →
        IsAtMoment (run (boot scenario) before) cpu driver_sc driver guest_sc guest priority quantum →
        IsReaction (run (boot scenario) before) waits works rest cpu driver_sc driver priority work begun →
        state_in (run (run (boot scenario) before) (waits ++ works)).contexts guest ≡ Some Ready →
        (context (run (run (boot scenario) before) (waits ++ works)) guest).recall ≡ true →
        NeverActs (run (run (boot scenario) before) (waits ++ works)) guest rest →
        rings_within (run (boot scenario) before) cpu response + (deadlines_on (run (boot scenario) before) cpu
        + (begun + (work + (others (run (boot scenario) before) cpu priority guest_sc + 1)))) ≤ response →
        (turns_at cpu ((waits ++ works) ++ rest) < response) × (deed (run (run (boot scenario) before) ((waits ++ works) ++ rest)) guest ≡ Raises recall 0 0) }
    ensures job { (scenario : Scenario) (before waits works rest : List ℕ) (cpu driver_sc driver guest_sc guest priority quantum work begun own rounds response : ℕ) →
        1 ≤ scenario.root.quantum →
        IsAtMoment (run (boot scenario) before) cpu driver_sc driver guest_sc guest priority quantum →
        IsReaction (run (boot scenario) before) waits works rest cpu driver_sc driver priority work begun →
        StaysRunnable (run (run (boot scenario) before) (waits ++ works)) cpu guest rest →
        own ≤ rounds * full_quantum quantum + 1 →
        rings_within (run (boot scenario) before) cpu response + (deadlines_on (run (boot scenario) before) cpu
        + (begun + (work + (own + (others (run (boot scenario) before) cpu priority guest_sc + rounds * others (run (boot scenario) before) cpu priority guest_sc))))) ≤ response →
        paid_in (run (run (boot scenario) before) (waits ++ works)) guest_sc rest < own →
        turns_at cpu ((waits ++ works) ++ rest) < response }
{}

/// A call may never be taken between equals, by an example. A handler has no queue, and in each of the caller's turns it is at work for another
/// thread of the same priority. The caller helps after each of 200 turns.
pub fn a_call_of_an_equal_may_not_be_taken()
    ensures { goes_on_helping 1 200 (run (boot callers) (replicate 62 0)) ≡ true }
{}

/// If the root's quantum is at least 1, what is ahead of a scheduling context is at most the full quanta of the others of its processor and priority.
/// Over any turns in which it stays runnable, the turns of its processor are at most those due, those of a greater priority, its own, those ahead of
/// it at the start, and the others' full quanta for each renewal of its stamp. The others stay as they are where none may create.
pub fn a_ring_goes_round()
    ensures most { (scenario : Scenario) (before : List ℕ) (sc ec cpu priority quantum : ℕ) (b : Budget) →
        1 ≤ scenario.root.quantum →
        IsSchedule (run (boot scenario) before) sc ec cpu priority quantum b →
        ahead (run (boot scenario) before) cpu priority b.stamp ≤ others (run (boot scenario) before) cpu priority sc }
    ensures round { (scenario : Scenario) (before turns : List ℕ) (sc ec cpu priority quantum : ℕ) (b : Budget) →
        1 ≤ scenario.root.quantum →
        IsSchedule (run (boot scenario) before) sc ec cpu priority quantum b →
        StaysRunnable (run (boot scenario) before) cpu ec turns →
        HasShared (run (boot scenario) before) turns sc ec cpu priority quantum b }
    ensures others { (scenario : Scenario) (before turns : List ℕ) (sc cpu priority : ℕ) →
        NobodyCreates (run (boot scenario) before) →
        others (run (run (boot scenario) before) turns) cpu priority sc ≡ others (run (boot scenario) before) cpu priority sc }
{}

/// Under round robin, each round before the last turn that may be taken has one turn of a processor on which an execution context with a scheduling
/// context waits for none and doesn't act. So the laws above bound in rounds what they bound in turns of a processor.
pub fn round_robin_serves_each_processor()
    ensures { (scenario : Scenario) (before : List ℕ) (rounds : List (List ℕ)) (most sc ec cpu priority quantum : ℕ) (b : Budget) (s : State) →
        cpu < (run (boot scenario) before).cpus →
        IsSchedule (run (boot scenario) before) sc ec cpu priority quantum b →
        state_in (run (boot scenario) before).contexts ec ≡ Some s →
        acts_itself s ≡ true →
        AreRounds (run (boot scenario) before) most rounds →
        length (concat rounds) < most →
        NeverActs (run (boot scenario) before) ec (concat rounds) →
        turns_at cpu (concat rounds) ≡ length rounds }
{}

/// An order by round robin from a boot state, whose root has a quantum of at least 1, serves each execution context that waits for none and has the
/// highest priority of its processor. It is passed over in at most as many rounds as have a turn that is due there, and as come to the full quanta of
/// the others of its priority, but for the round of the last turn that may be taken.
pub fn round_robin_serves_the_highest_priority()
    ensures { (scenario : Scenario) (most : ℕ) → 1 ≤ scenario.root.quantum → ServesInRounds (boot scenario) most (rounds (boot scenario) most) }
{}

/// While an execution context with a scheduling context runs a revoke, it stays runnable, and pays for at most as many turns as the scope
/// had members. So the law above bounds the turns of its processor in which the revoke may run.
pub fn a_revoke_ends_in_time()
    ensures { (scenario : Scenario) (before turns : List ℕ) (sc ec cpu priority quantum : ℕ) (b : Budget) (r : Revocation) →
        1 ≤ scenario.root.quantum →
        IsSchedule (run (boot scenario) before) sc ec cpu priority quantum b →
        Runs (run (boot scenario) before) ec r turns →
        HasShared (run (boot scenario) before) turns sc ec cpu priority quantum b × (paid_in (run (boot scenario) before) sc turns ≤ length (left r (run (boot scenario) before))) }
{}

/// From a state on, the words of the items that are left bound the turns that an execution context takes to give them. There is at most a turn for
/// each place of the range of an item that delegates, from the cursor on for the present one, and one for the end of each. An execution context with
/// a scheduling context stays runnable meanwhile, and pays for no more than these, so that the law of rings bounds the turns of its processor.
pub fn items_end_in_time()
    ensures acts { (scenario : Scenario) (before turns : List ℕ) (ec : ℕ) →
        GivesAlong (run (boot scenario) before) ec turns →
        acts_in (run (boot scenario) before) ec turns ≤ turns_of_items (run (boot scenario) before) ec }
    ensures pays { (scenario : Scenario) (before turns : List ℕ) (sc ec cpu priority quantum : ℕ) (b : Budget) →
        1 ≤ scenario.root.quantum →
        IsSchedule (run (boot scenario) before) sc ec cpu priority quantum b →
        GivesAlong (run (boot scenario) before) ec turns →
        HasShared (run (boot scenario) before) turns sc ec cpu priority quantum b × (paid_in (run (boot scenario) before) sc turns ≤ turns_of_items (run (boot scenario) before) ec) }
{}

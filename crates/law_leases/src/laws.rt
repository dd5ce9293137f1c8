ghost use Rattle.std.specs.Prelude.{◌≡◌, ◌≢◌, ◌≤◌, ℕ, List, [], None, Option, Some, false, replicate, true};
ghost use Rattle.nova_guest.specs.Alone.{guest_space, outputs};
ghost use Rattle.nova_guest.specs.declared.guest.Guest.{Guest};
ghost use Rattle.nova_guest.specs.declared.guest.GuestState.TheVariants.{Ready};
ghost use Rattle.nova_guest.specs.declared.input.Input.TheVariants.{Own};
ghost use Rattle.nova_guest.specs.declared.page.Page.{Page as Place};
ghost use Rattle.nova_model.specs.Boot.{Scenario, boot, laid};
ghost use Rattle.nova_model.specs.Choice.{Candidate, choice};
ghost use Rattle.nova_model.specs.Runs.{after, run, trace};
ghost use Rattle.nova_model.specs.State.{KernelState};
ghost use Rattle.nova_model.specs.Views.{view};
ghost use Rattle.nova_model.specs.declared.budget.Budget.{Budget};
ghost use Rattle.law_turns.specs.Moments.{IsEarly};
ghost use Rattle.law_isolation.specs.Sound.{IsSound};
ghost use Rattle.law_leases.specs.Advances.{IsLeasable, advanced, step_of};
ghost use Rattle.law_leases.specs.Commits.{IsCommitted, IsReached, LeaseRun, MayCommit, Stems, commit_done, same_counts, stirs_now};
ghost use Rattle.law_leases.specs.Counts.{IsAsBefore, IsOn, IsUnstirred};
ghost use Rattle.law_leases.specs.Leases.{IsOfGuest, LeaseState, lease_step, lease_steps, overlay};
ghost use Rattle.law_leases.specs.Paging.{AreFresh, IsRun, IsStepping, advanced_to, charged_times};
ghost use Rattle.law_leases.specs.Rides.{IsRideable, rides};
ghost use Rattle.law_leases.specs.Stops.{HoldsOfTouched, IsCopiedAt, IsRaise};
ghost use Rattle.rv_model.specs.Step.{one};
ghost use Rattle.law_leases.specs.declared.commit.CommitDone.TheVariants.{Committed};
ghost use Rattle.law_leases.specs.declared.steps.Steps.{Steps};

/// `n` inputs of its own of a virtual CPU that acts and is about to take an instruction, within what is left of the chosen quantum and before
/// anything is due on the processor, of which none puts anything out, are as many turns of its processor, which are one change of the state. Each
/// turn is a plain step of that virtual CPU, paid by the chosen scheduling context.
pub fn own_inputs_without_output_are_turns()
    ensures state { (n : ℕ) (k : KernelState) (cpu : ℕ) (c : Candidate) (b : Budget) → IsSound k → IsLeasable k cpu c b → n ≤ b.left → IsEarly k.times cpu n
        → outputs (view k c.actor) (replicate n Own) ≡ [] → run k (replicate n cpu) ≡ advanced k cpu c b n }
    ensures events { (n : ℕ) (k : KernelState) (cpu : ℕ) (c : Candidate) (b : Budget) → IsSound k → IsLeasable k cpu c b → n ≤ b.left → IsEarly k.times cpu n
        → outputs (view k c.actor) (replicate n Own) ≡ [] → trace k (replicate n cpu) ≡ replicate n (step_of cpu c) }
{}

/// Plain steps of a virtual CPU are told by its registers, the bytes of the frames that it stores to and the numbers of stores there. These say all
/// that such turns change of memory, and of the stir counts of others.
pub fn steps_with_their_pages_are_turns()
    ensures { (k : KernelState) (cpu : ℕ) (c : Candidate) (b : Budget) (s : Steps) → IsSound k → IsLeasable k cpu c b → s.count ≤ b.left → IsEarly k.times cpu s.count
        → IsStepping (view k c.actor) s → run k (replicate s.count cpu) ≡ advanced_to k cpu c b s }
{}

/// Instructions on fresh copies of some frames of a guest, where each goes on, are as many inputs of its own,
/// with the same registers, bytes and stores.
pub fn steps_on_copies_are_the_guests_own()
    ensures { (known : ℕ → Option Place) (n : ℕ) (k : KernelState) (g : ℕ) (l m : LeaseState) → (view k g).state ≡ Ready → (view k g).recall ≡ false
        → IsOfGuest known l.pages (view k g) → l.regs ≡ (view k g).regs → AreFresh k.memory.ram l.pages → lease_steps known n l ≡ Some m → IsRun k g n m }
{}

/// Where no instruction goes on on the copies, though each page that the next one touches is copied, it
/// raises. A console's page is never copied.
pub fn a_lease_stops_at_a_raise_or_a_page_not_copied()
    ensures { (known : ℕ → Option Place) (v : Guest) (l : LeaseState) → IsOfGuest known l.pages v → lease_step known l ≡ None
        → HoldsOfTouched (IsCopiedAt known l.pages) l.regs (guest_space v.maps (overlay l.pages v.cells))
        → IsRaise (one l.regs (guest_space v.maps (overlay l.pages v.cells))) }
{}

/// Whatever turns are taken, where the stir counts of a virtual CPU and of its processor are equal before and
/// after them, its view is the same. So are the budgets of the processor's scheduling contexts.
pub fn equal_counts_mean_an_equal_view()
    ensures { (turns : List ℕ) (k : KernelState) (g cpu : ℕ) → IsSound k → IsOn k g cpu → IsUnstirred k (run k turns) g cpu
        → IsAsBefore k (run k turns) g cpu }
{}

/// A commit of a lease that stems from an earlier state is as many turns as the lease ran, where it goes
/// through. With equal counts the processor isn't idle. Where it goes through, as many turns as the lease ran
/// leave the state with its steps laid over it, and each is a plain step of the leased virtual CPU, paid by the
/// chosen scheduling context.
pub fn a_commit_is_as_many_turns()
    ensures busy { (k : KernelState) (turns : List ℕ) (l : LeaseRun) → Stems l k → same_counts l.kept (stirs_now (run k turns) l.guest l.cpu) ≡ true
        → choice (run k turns) l.cpu ≢ None }
    ensures answer { (k : KernelState) (l : LeaseRun) (left n : ℕ) → commit_done k l left ≡ Committed n → IsCommitted k l left n }
    ensures may { (k : KernelState) (turns : List ℕ) (l : LeaseRun) (d : Candidate) → (stems : Stems l k) → same_counts l.kept (stirs_now (run k turns) l.guest l.cpu) ≡ true
        → choice (run k turns) l.cpu ≡ Some d → d.actor ≡ l.guest → MayCommit (run k turns) l d stems.budget }
    ensures state { (k : KernelState) (l : LeaseRun) (d : Candidate) (b : Budget) → MayCommit k l d b
        → run k (replicate l.steps.count l.cpu) ≡ advanced_to k l.cpu d b l.steps }
    ensures events { (k : KernelState) (l : LeaseRun) (d : Candidate) (b : Budget) → MayCommit k l d b
        → trace k (replicate l.steps.count l.cpu) ≡ replicate l.steps.count (step_of l.cpu d) }
{}

/// What these laws ask of a state always holds. A kernel begins so, bytes laid into its memory leave it so, and each turn keeps it, so that it holds
/// of whatever a kernel comes to. Beside what isolation stands on, edges lead to local threads alone, and so never to a virtual CPU, whose turns its
/// own scheduling context pays.
pub fn what_bursts_stand_on_is_kept()
    ensures begins { (scenario : Scenario) → IsReached (boot scenario) }
    ensures memory { (k : KernelState) (address : ℕ) (bytes : List ℕ) → IsReached k → IsReached (record k { memory = laid k.memory address bytes }) }
    ensures turns { (k : KernelState) (cpu : ℕ) → IsReached k → IsReached (after k cpu) }
    ensures reached { (scenario : Scenario) (turns : List ℕ) → IsReached (run (boot scenario) turns) }
{}

/// `n` instructions of the context that acts on a processor, each of which goes on, within what is left of the chosen quantum and before anything is
/// due there, with the store of each counted for the other virtual CPUs that could see it, and then as many turns charged, are as many turns of the
/// processor. Each is a plain step of that context, paid by the chosen scheduling context.
pub fn rides_are_turns()
    ensures state { (n : ℕ) (k m : KernelState) (cpu : ℕ) (c : Candidate) (b : Budget) → IsRideable k cpu c b → n ≤ b.left → IsEarly k.times cpu n
        → rides n k c.actor ≡ Some m → run k (replicate n cpu) ≡ charged_times n m cpu c.sc }
    ensures events { (n : ℕ) (k m : KernelState) (cpu : ℕ) (c : Candidate) (b : Budget) → IsRideable k cpu c b → n ≤ b.left → IsEarly k.times cpu n
        → rides n k c.actor ≡ Some m → trace k (replicate n cpu) ≡ replicate n (step_of cpu c) }
{}

ghost use Rattle.std.specs.Prelude.{◌≡◌, ◌≢◌, ℕ, ◌+◌, ◌<◌, Bool, true, false, not, ◌==◌, ◌&&◌, length, Option, Some, None, IsSome};
ghost use Rattle.rv_model.specs.Registers.{Registers};
ghost use Rattle.rv_model.specs.Step.{Raised, Store, Went};
ghost use Rattle.nova_model.specs.Deeds.{answered, deed, done, instruction};
ghost use Rattle.nova_model.specs.Hypercalls.{hypercall};
ghost use Rattle.nova_model.specs.Revokes.{next_leaf};
ghost use Rattle.nova_model.specs.State.{KernelState, context, context_at, is_thread, pd_of, transfer};
ghost use Rattle.nova_model.specs.declared.context.Mark.{Mark};
ghost use Rattle.nova_model.specs.declared.context.State.TheVariants.{Blocked, Calling, Exiting, Fresh, Granting, Helping, Ready, Replying, Revoking};
ghost use Rattle.nova_model.specs.declared.deed.Deed.{Deed};
ghost use Rattle.nova_model.specs.declared.deed.Deed.TheVariants.{Aborts, Blocks, Downs, Finishes, Gives, Makes, Names, Opens, Raises, Recalls, Removes, Replies, Returns, Revokes, Skips, Steps, Tells, Ups};
ghost use Rattle.nova_model.specs.declared.delegation.Derivation.{Derivation};
ghost use Rattle.nova_model.specs.declared.new_object.NewObject.{NewObject};
ghost use Rattle.nova_model.specs.declared.times.Deadline.{Deadline};
ghost use Rattle.nova_model.specs.declared.transfer.ItemEnd.{ItemEnd};
ghost use Rattle.nova_model.specs.declared.transfer.ItemWords.{ItemWords};
ghost use Rattle.nova_model.specs.declared.transfer.Reason.{Reason};
ghost use Rattle.nova_model.specs.declared.transfer.Sequel.TheVariants.{Item};
ghost use Rattle.nova_range.specs.declared.range.Range.{Range};
ghost use Rattle.nova_range.specs.declared.status.Status.TheVariants.{Success};
ghost use Rattle.law_rows.specs.Changing.{is_asked_for, partner};

/// What an execution context does next, by its state. Before its startup exit it raises that. Ready, it raises a recall's exit where one is asked
/// for; else it goes on with its instruction, or raises the exit that this raises; a thread's ECALL makes the hypercall of its registers. A helper
/// makes its call again. A caller that waits for a handler is aborted, by the mark with which the handler keeps it. A revoker takes the next leaf,
/// and returns where there is none.
pub fn each_state_has_its_deed()
    ensures startup { (k : KernelState) (ec : ℕ) → (context k ec).state ≡ Fresh → deed k ec ≡ Raises 0 0 0 }
    ensures recalled { (k : KernelState) (ec : ℕ) → (context k ec).state ≡ Ready → (context k ec).recall ≡ true → deed k ec ≡ Raises 8 0 0 }
    ensures steps { (k : KernelState) (ec : ℕ) (regs : Registers) (store : Option Store) → (context k ec).state ≡ Ready → (context k ec).recall ≡ false →
        instruction k ec ≡ Went regs store → deed k ec ≡ Steps }
    ensures raises { (k : KernelState) (ec reason q0 q1 : ℕ) → (context k ec).state ≡ Ready → (context k ec).recall ≡ false →
        instruction k ec ≡ Raised reason q0 q1 → (reason == 6) ≡ false → deed k ec ≡ Raises reason q0 q1 }
    ensures guest_calls { (k : KernelState) (ec q0 q1 : ℕ) → (context k ec).state ≡ Ready → (context k ec).recall ≡ false → instruction k ec ≡ Raised 6 q0 q1 →
        is_thread k ec ≡ false → deed k ec ≡ Raises 6 q0 q1 }
    ensures calls { (k : KernelState) (ec q0 q1 : ℕ) → (context k ec).state ≡ Ready → (context k ec).recall ≡ false → instruction k ec ≡ Raised 6 q0 q1 →
        is_thread k ec ≡ true → deed k ec ≡ hypercall k ec (pd_of k ec) (context k ec).regs }
    ensures again { (k : KernelState) (ec handler : ℕ) → (context k ec).state ≡ Helping handler → deed k ec ≡ hypercall k ec (pd_of k ec) (context k ec).regs }
    ensures aborts { (k : KernelState) (ec handler caller : ℕ) (mark : Mark) → (context k ec).state ≡ Calling handler →
        (context k handler).caller ≡ Some (caller, mark) → deed k ec ≡ Aborts handler mark }
    ensures removes { (k : KernelState) (ec : ℕ) (range : Range) (own : Bool) (leaf : Derivation) → (context k ec).state ≡ Revoking range own →
        next_leaf (record { pd = pd_of k ec; range = range; own = own }) k.delegations ≡ Some leaf → deed k ec ≡ Removes leaf }
    ensures returns { (k : KernelState) (ec : ℕ) (range : Range) (own : Bool) → (context k ec).state ≡ Revoking range own →
        next_leaf (record { pd = pd_of k ec; range = range; own = own }) k.delegations ≡ None → deed k ec ≡ Returns }
{}

/// What a deed leaves of the execution context that does it. A call that ends is answered SUCCESS, with the number that it is told. A call that opens
/// a domain gives its first range, a reply with items gives these, and a call that revokes or waits does so. An exit that is raised leaves the
/// registers, and a recall is answered by its exit alone. A part and a leaf leave it as it was, and the next item begins from its first place on.
pub fn a_deed_leaves_its_actor_so()
    ensures told { (k : KernelState) (ec call value : ℕ) → IsSome (context_at k ec) → context (done k ec (Tells call value)) ec ≡ answered (context k ec) Success (Some value) }
    ensures named { (k : KernelState) (ec pt number : ℕ) → IsSome (context_at k ec) → context (done k ec (Names pt number)) ec ≡ answered (context k ec) Success None }
    ensures returned { (k : KernelState) (ec : ℕ) → IsSome (context_at k ec) → context (done k ec Returns) ec ≡ answered (context k ec) Success None }
    ensures lowered { (k : KernelState) (ec sm : ℕ) → IsSome (context_at k ec) → context (done k ec (Downs sm)) ec ≡ answered (context k ec) Success None }
    ensures raised { (k : KernelState) (ec sm : ℕ) → IsSome (context_at k ec) → context (done k ec (Ups sm None)) ec ≡ answered (context k ec) Success None }
    ensures woken { (k : KernelState) (ec sm other : ℕ) → IsSome (context_at k ec) → other ≢ ec → context (done k ec (Ups sm (Some other))) ec ≡ answered (context k ec) Success None }
    ensures recalls { (k : KernelState) (ec whose : ℕ) → IsSome (context_at k ec) → whose ≢ ec → context (done k ec (Recalls whose)) ec ≡ answered (context k ec) Success None }
    ensures made { (k : KernelState) (ec call target : ℕ) (made : NewObject) → IsSome (context_at k ec) →
        context (done k ec (Makes call target made)) ec ≡ answered (context k ec) Success None }
    ensures opens { (k : KernelState) (ec target domain : ℕ) → IsSome (context_at k ec) →
        context (done k ec (Opens target domain)) ec ≡ record (context k ec) { state = Granting (Some domain) } }
    ensures replies { (k : KernelState) (ec caller : ℕ) (mark : Mark) → IsSome (context_at k ec) →
        context (done k ec (Replies caller mark true)) ec ≡ record (context k ec) { state = Replying } }
    ensures revokes { (k : KernelState) (ec : ℕ) (range : Range) (own : Bool) → IsSome (context_at k ec) →
        context (done k ec (Revokes range own)) ec ≡ record (context k ec) { state = Revoking range own } }
    ensures blocks { (k : KernelState) (ec sm : ℕ) (until : Option Deadline) → IsSome (context_at k ec) →
        context (done k ec (Blocks sm until)) ec ≡ record (context k ec) { state = Blocked sm } }
    ensures exits { (k : KernelState) (ec reason q0 q1 : ℕ) → IsSome (context_at k ec) →
        context (done k ec (Raises reason q0 q1)) ec ≡ record (context k ec) { state = Exiting reason q0 q1; recall = (context k ec).recall && not (reason == 8) } }
    ensures parts { (k : KernelState) (ec cursor place : ℕ) (child leaf : Derivation) (reason : Reason) →
        (context (done k ec (Gives child cursor)) ec ≡ context k ec) × (context (done k ec (Skips reason place cursor)) ec ≡ context k ec)
        × (context (done k ec (Removes leaf)) ec ≡ context k ec) }
    ensures next_item { (k : KernelState) (ec item : ℕ) (end : ItemEnd) (words : Option ItemWords) → ec < length k.transfers →
        transfer (done k ec (Finishes item end words Item)) ec ≡ record { item = item + 1; cursor = 0; children = 0 } }
{}

/// Whatever registers have, only what they ask for by a hypercall changes semaphores, identifiers, deadlines and objects. Only a hypercall, the
/// sending of an exit and a reply that completes change another execution context: no instruction does, no exit that is raised, no part of an item
/// and no leaf.
pub fn only_what_is_asked_for_changes_others()
    ensures semaphores { (k : KernelState) (ec : ℕ) (d : Deed) → is_asked_for d ≡ false → (done k ec d).semaphores ≡ k.semaphores }
    ensures identifiers { (k : KernelState) (ec : ℕ) (d : Deed) → is_asked_for d ≡ false → (done k ec d).identifiers ≡ k.identifiers }
    ensures times { (k : KernelState) (ec : ℕ) (d : Deed) → is_asked_for d ≡ false → (done k ec d).times ≡ k.times }
    ensures objects { (k : KernelState) (ec : ℕ) (d : Deed) → is_asked_for d ≡ false → (done k ec d).objects ≡ k.objects }
    ensures contexts { (k : KernelState) (ec n : ℕ) (d : Deed) → is_asked_for d ≡ false → n ≢ ec → partner d ≢ Some n → context_at (done k ec d) n ≡ context_at k n }
{}

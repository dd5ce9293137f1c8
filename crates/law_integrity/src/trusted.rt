// Laws of sides beside trusted domains.
ghost use Rattle.std.specs.Prelude.{◌≡◌, ◌≢◌, ◌⊎◌, ℕ, Bool, false, List};
ghost use Rattle.nova_model.specs.Runs.{after, run};
ghost use Rattle.nova_model.specs.State.{KernelState, context, context_at, deadline_of, pd_of};
ghost use Rattle.nova_model.specs.declared.context.State.TheVariants.{Blocked};
ghost use Rattle.law_origins.specs.Reachable.{IsReachable};
ghost use Rattle.law_origins.specs.Giving.{Acts};
ghost use Rattle.law_integrity.specs.Confined.{Holds, IsMember, LeavesTo, Reach, ReachAny};
ghost use Rattle.law_integrity.specs.Secrecy.{with_bytes};
ghost use Rattle.law_integrity.specs.Trusted.{HoldsSince, IsGivenFrame, IsGivenObject, IsMadeBySide, IsWithinPolicy, Labelled, MayTakeTurns, ReachesSince, labels};

/// Take any reachable state, semaphores that sides share on purpose, by a test, and a label for each protection
/// domain: 0 is trusted, any other number is a side. Let the state be within the policy: a side's capabilities lead
/// to domains, execution contexts, portals and scheduling contexts of its own or of what is trusted, and to no
/// semaphore that another side holds, but a shared one; nobody of another side waits at an unshared one that it
/// holds or where one of its own waits; for its handlers waits nobody but its own, or who is trusted and no
/// handler; and they take no items but of its own. Whatever turns follow, so it stays, if each one that is trusted
/// sees to it in its own turns that it gives a side no other capability, that no handler of a side takes items of
/// it, and that it doesn't come to wait for one where it is a handler itself. Of what sides do nothing is assumed.
/// A domain that is made has the label of its maker's. A turn of one side leaves each execution context of another
/// side as it is, with its deadline, but for the first that waits at a shared semaphore, whose wait it may end; and
/// message words and place in items, the identifiers of its portals, the budgets of the scheduling contexts that
/// are bound to it, the semaphores to which the first holds neither up nor down, and the frames that the first
/// doesn't reach with write. It gives the other no range, and takes only what comes from a range of the first. And
/// it is the same whatever the bytes of a frame are that the first doesn't reach. If a side reaches a frame, by a
/// right, then it has done so all along, or it came to in one of the turns, not having reached it before, and has
/// reached it since: one that is trusted acted in that turn, whose own domain reached it by that right. So it is of
/// a right to an object that a side holds; or one of the side made that object.
pub fn sides_are_apart_beside_trusted_domains()
    ensures within { (shared : ℕ → Bool) (k : KernelState) (turns : List ℕ) (label : ℕ → ℕ)
        → IsReachable k
        → IsWithinPolicy shared k label
        → MayTakeTurns shared k label turns
        → IsWithinPolicy shared (run k turns) (labels k label turns) }
    ensures leaves { (shared : ℕ → Bool) (k : KernelState) (label : ℕ → ℕ) (cpu ec side : ℕ)
        → IsReachable k
        → IsWithinPolicy shared k label
        → Acts k cpu ec
        → label (pd_of k ec) ≢ 0
        → side ≢ 0
        → side ≢ label (pd_of k ec)
        → LeavesTo k (after k cpu)
        (Labelled label (label (pd_of k ec))) (Labelled label side) }
    ensures stays { (shared : ℕ → Bool) (k : KernelState) (label : ℕ → ℕ) (cpu ec side n : ℕ)
        → IsReachable k
        → IsWithinPolicy shared k label
        → Acts k cpu ec
        → label (pd_of k ec) ≢ 0
        → side ≢ 0
        → side ≢ label (pd_of k ec)
        → IsMember k (Labelled label side) n
        → ((sm : ℕ) → (context k n).state ≡ Blocked sm → shared sm ≡ false)
        → (context_at (after k cpu) n ≡ context_at k n)
        × (deadline_of (after k cpu).times n ≡ deadline_of k.times n) }
    ensures blind { (k : KernelState) (label : ℕ → ℕ) (cpu ec frame : ℕ) (bytes : List ℕ)
        → IsReachable k
        → Acts k cpu ec
        → (ReachAny k (Labelled label (label (pd_of k ec))) frame → ⊥)
        → after (with_bytes k frame bytes) cpu ≡ with_bytes (after k cpu) frame bytes }
    ensures reach { (shared : ℕ → Bool) (k : KernelState) (turns : List ℕ) (label : ℕ → ℕ) (side right frame : ℕ)
        → IsReachable k
        → IsWithinPolicy shared k label
        → MayTakeTurns shared k label turns
        → side ≢ 0
        → Reach (run k turns) (Labelled (labels k label turns) side) right frame
        → ReachesSince k label turns side right frame
        ⊎ IsGivenFrame k label turns side right frame }
    ensures holds { (shared : ℕ → Bool) (k : KernelState) (turns : List ℕ) (label : ℕ → ℕ) (side right object : ℕ)
        → IsReachable k
        → IsWithinPolicy shared k label
        → MayTakeTurns shared k label turns
        → side ≢ 0
        → Holds (run k turns) (Labelled (labels k label turns) side) right object
        → HoldsSince k label turns side right object
        ⊎ (IsGivenObject k label turns side right object
        ⊎ IsMadeBySide k label turns side right object) }
{}

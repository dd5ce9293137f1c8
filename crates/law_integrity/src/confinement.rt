// Laws of confinement: two sets of protection domains between which nothing leads.
ghost use Rattle.std.specs.Prelude.{◌≡◌, ◌⊎◌, ◌==◌, ◌||◌, ℕ, Bool, false, List, [], slice_get};
ghost use Rattle.nova_model.specs.Boot.{Scenario, boot};
ghost use Rattle.nova_model.specs.Runs.{after, run};
ghost use Rattle.nova_model.specs.State.{KernelState, context_at};
ghost use Rattle.law_origins.specs.Reachable.{IsReachable};
ghost use Rattle.law_origins.specs.Giving.{Acts};
ghost use Rattle.law_integrity.specs.Confined.{AreSetsApart, AreSeparate, Holds, IsClosed, IsMadeAlong, IsMember, LeavesTo, Of, OnlyOf, Reach, ReachAny, ShareNothing, Side, grown};
ghost use Rattle.law_integrity.specs.Secrecy.{with_bytes};

/// Two sets of protection domains that are separate stay so, and neither reaches what it didn't reach. Take any reachable state, and two sets of
/// protection domains that are separate in it: what their capabilities lead to is their own, no context outside waits for their handlers by a call, a
/// help or an exit, they have no domain in common, and each context of neither is parked, dead, or blocked for good: at a semaphore that neither may
/// raise and no alarm rings, without a deadline. Whatever turns follow, the two sets, each with the domains that are made of it, are separate still,
/// and each context that acts is of one of them. So a set comes to reach no frame, by no right, that it didn't reach at first; and it comes to hold
/// no right to an object, but to objects that it made since. A turn of one set leaves of the other: registers, states and deadlines, message words,
/// identifiers of portals, budgets of the scheduling contexts that are bound to it, semaphores to which the first holds neither up nor down, and the
/// frames that the first doesn't reach with write. It gives the other nothing, and takes only what has an ancestor of its own; and a context that
/// waits at a semaphore that it may raise may be woken. At boot the root's domain is such a set, beside an empty one; and two closed sets are one.
pub fn closed_sets_stay_confined()
    ensures separate { (k : KernelState) (turns : List ℕ) (S T : ℕ → Bool)
        → IsReachable k
        → AreSeparate k (Of S) (Of T)
        → AreSeparate (run k turns) (grown k (Of S) turns) (grown k (Of T) turns) }
    ensures acts { (k : KernelState) (turns : List ℕ) (S T : ℕ → Bool) (cpu ec : ℕ)
        → IsReachable k
        → AreSeparate k (Of S) (Of T)
        → Acts (run k turns) cpu ec
        → IsMember (run k turns) (grown k (Of S) turns) ec
        ⊎ IsMember (run k turns) (grown k (Of T) turns) ec }
    ensures reach { (k : KernelState) (turns : List ℕ) (S T : ℕ → Bool) (right frame : ℕ)
        → IsReachable k
        → AreSeparate k (Of S) (Of T)
        → Reach (run k turns) (grown k (Of S) turns) right frame
        → Reach k (Of S) right frame }
    ensures holds { (k : KernelState) (turns : List ℕ) (S T : ℕ → Bool) (right object : ℕ)
        → IsReachable k
        → AreSeparate k (Of S) (Of T)
        → Holds (run k turns) (grown k (Of S) turns) right object
        → Holds k (Of S) right object ⊎ IsMadeAlong k (Of S) turns object }
    ensures leaves { (k : KernelState) (turns : List ℕ) (S T : ℕ → Bool) (cpu ec : ℕ)
        → IsReachable k
        → AreSeparate k (Of S) (Of T)
        → Acts (run k turns) cpu ec
        → IsMember (run k turns) (grown k (Of T) turns) ec
        → LeavesTo (run k turns) (after (run k turns) cpu)
        (grown k (Of T) turns) (grown k (Of S) turns) }
    ensures boot { (scenario : Scenario) → AreSeparate (boot scenario) (Of (λ n. n == 0)) (Of (λ n. false)) }
    ensures together { (k : KernelState) (S T : ℕ → Bool) → IsClosed k (Of S) → IsClosed k (Of T) → IsClosed k (Of (λ n. S n || T n)) }
    ensures flipped { (k : KernelState) (S T : ℕ → Bool) → AreSeparate k (Of S) (Of T) → AreSeparate k (Of T) (Of S) }
{}

/// A turn of one of two separate sets is the same whatever bytes a frame has that this set doesn't reach. Take two separate sets again, and a
/// frame that no domain of the first reaches. Whatever turns follow, a turn in which one of the first set acts is the same whatever the bytes
/// of that frame are: it leaves the same state but for these bytes, which stay. So over any turns in which only the first set's act.
pub fn closed_sets_are_blind_to_the_rest()
    ensures turn { (k : KernelState) (turns : List ℕ) (S T : ℕ → Bool) (cpu ec frame : ℕ) (bytes : List ℕ)
        → IsReachable k
        → AreSeparate k (Of S) (Of T)
        → Acts (run k turns) cpu ec
        → IsMember (run k turns) (grown k (Of S) turns) ec
        → (ReachAny k (Of S) frame → ⊥)
        → after (with_bytes (run k turns) frame bytes) cpu
        ≡ with_bytes (after (run k turns) cpu) frame bytes }
    ensures turns { (k : KernelState) (turns : List ℕ) (S T : ℕ → Bool) (frame : ℕ) (bytes : List ℕ)
        → IsReachable k
        → AreSeparate k (Of S) (Of T)
        → OnlyOf k (Of S) turns
        → (ReachAny k (Of S) frame → ⊥)
        → run (with_bytes k frame bytes) turns ≡ with_bytes (run k turns) frame bytes }
{}

/// Two guests, each with its monitor, that share nothing in a reachable state stay apart. They have no domain, no object and no frame in common,
/// neither side waits for the other, at what the other holds or where the other waits, and neither holds a scheduling context of the other. Whatever
/// turns follow, so it stays, and each context that acts is of one of the sides. A guest and its monitor, with the domains that are made of theirs,
/// reach no frame, by no right, that they didn't reach then. A turn of one side leaves each execution context of the other as it is, and what else
/// the other has; it leaves each frame that the other side reached then; and it is the same whatever the bytes of that frame are.
pub fn guests_that_share_nothing_stay_apart()
    ensures apart { (k : KernelState) (turns : List ℕ) (guest monitor other_guest other_monitor : ℕ)
        → IsReachable k
        → ShareNothing k guest monitor other_guest other_monitor
        → AreSetsApart (run k turns) (Side k guest monitor turns)
        (Side k other_guest other_monitor turns) }
    ensures acts { (k : KernelState) (turns : List ℕ) (guest monitor other_guest other_monitor cpu ec : ℕ)
        → IsReachable k
        → ShareNothing k guest monitor other_guest other_monitor
        → Acts (run k turns) cpu ec
        → IsMember (run k turns) (Side k guest monitor turns) ec
        ⊎ IsMember (run k turns) (Side k other_guest other_monitor turns) ec }
    ensures reach { (k : KernelState) (turns : List ℕ) (guest monitor other_guest other_monitor right frame : ℕ)
        → IsReachable k
        → ShareNothing k guest monitor other_guest other_monitor
        → Reach (run k turns) (Side k guest monitor turns) right frame
        → Reach k (Side k guest monitor []) right frame }
    ensures leaves { (k : KernelState) (turns : List ℕ) (guest monitor other_guest other_monitor cpu ec : ℕ)
        → IsReachable k
        → ShareNothing k guest monitor other_guest other_monitor
        → Acts (run k turns) cpu ec
        → IsMember (run k turns) (Side k guest monitor turns) ec
        → LeavesTo (run k turns) (after (run k turns) cpu)
        (Side k guest monitor turns) (Side k other_guest other_monitor turns) }
    ensures stays { (k : KernelState) (turns : List ℕ) (guest monitor other_guest other_monitor cpu ec n : ℕ)
        → IsReachable k
        → ShareNothing k guest monitor other_guest other_monitor
        → Acts (run k turns) cpu ec
        → IsMember (run k turns) (Side k guest monitor turns) ec
        → IsMember (run k turns) (Side k other_guest other_monitor turns) n
        → context_at (after (run k turns) cpu) n ≡ context_at (run k turns) n }
    ensures frames { (k : KernelState) (turns : List ℕ) (guest monitor other_guest other_monitor cpu ec frame : ℕ)
        → IsReachable k
        → ShareNothing k guest monitor other_guest other_monitor
        → Acts (run k turns) cpu ec
        → IsMember (run k turns) (Side k guest monitor turns) ec
        → ReachAny k (Side k other_guest other_monitor []) frame
        → slice_get (after (run k turns) cpu).memory.ram frame ≡ slice_get (run k turns).memory.ram frame }
    ensures blind { (k : KernelState) (turns : List ℕ) (guest monitor other_guest other_monitor cpu ec frame : ℕ) (bytes : List ℕ)
        → IsReachable k
        → ShareNothing k guest monitor other_guest other_monitor
        → Acts (run k turns) cpu ec
        → IsMember (run k turns) (Side k guest monitor turns) ec
        → ReachAny k (Side k other_guest other_monitor []) frame
        → after (with_bytes (run k turns) frame bytes) cpu
        ≡ with_bytes (after (run k turns) cpu) frame bytes }
    ensures flipped { (k : KernelState) (guest monitor other_guest other_monitor : ℕ)
        → ShareNothing k guest monitor other_guest other_monitor
        → ShareNothing k other_guest other_monitor guest monitor }
{}

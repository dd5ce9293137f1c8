// Laws of authority.
ghost use Rattle.std.specs.Prelude.{◌≡◌, ℕ, List, Some, slice_get, true};
ghost use Rattle.nova_model.specs.Boot.{Scenario, boot};
ghost use Rattle.nova_model.specs.Deeds.{deed};
ghost use Rattle.nova_model.specs.Exits.{raised_exit};
ghost use Rattle.nova_model.specs.Runs.{after, run};
ghost use Rattle.nova_model.specs.State.{KernelState, context};
ghost use Rattle.nova_model.specs.Edges.{is_dead, state_in};
ghost use Rattle.nova_model.specs.declared.context.State.TheVariants.{Calling, Granting};
ghost use Rattle.law_origins.specs.Reachable.{IsReachable};
ghost use Rattle.law_origins.specs.Giving.{Acts, HasMade};
ghost use Rattle.law_integrity.specs.Integrity.{IsAuthorised, IsByRight};
ghost use Rattle.law_integrity.specs.Rightful.{IsOfCall, IsOfExit, IsRightful};
ghost use Rattle.law_integrity.specs.Rights.{HasTurn, IsAsking};
ghost use Rattle.law_integrity.specs.Unwritten.{IsUnwrittenFrame};

/// Each turn changes the state by right, by time, or not at all. Take any reachable state, and any processor. Its next turn changes nothing, where
/// nothing is due, none is chosen and nothing is to come. Or it is the turn of a context that acts, paid by a scheduling context whose turns lead
/// there along edges. Then it does one deed, which is rightful: the state after is what comes of that deed, of the stir counts that it raises and of
/// the charge; and each part of the state stays, or changes in a way that names the right to it: the capability or the derivation that the domain of
/// the context that acts held, the caller that it served, or the revoke that it ran. Or no context acts and none pays: an alarm that is due raises
/// its own semaphore, the first that waits there goes on, which the event names, and the alarm comes to its next moment; or a deadline that is due
/// ends the wait of the context whose it is, with TIMEOUT; or the clock goes on; and all else stays.
pub fn turns_change_by_right()
    ensures turn { (k : KernelState) (cpu : ℕ)
        → IsReachable k
        → IsAuthorised k (after k cpu) cpu }
    ensures acting { (k : KernelState) (cpu ec : ℕ)
        → IsReachable k
        → Acts k cpu ec
        → (sc : ℕ) × HasTurn k cpu ec sc
        × IsByRight k (after k cpu) cpu ec sc }
{}

/// In each reachable state, what an execution context is about to do names others only by right. A call goes to the handler of a portal that its
/// domain holds at the selector in x10, with the right to call. An exit goes to that of the portal that its domain holds at event base + reason, with
/// the right to send exits, with that portal's descriptor and identifier; it ends its execution context only where no such portal's handler takes it,
/// and nothing else becomes of an exit than that it is sent, waits for its handler or ends it. A reply goes to the caller that it serves. Recalls,
/// numbers of portals, ticks, ups and downs are of what its domain holds at the selector in x10, with the right to them; an up or a down is as x11
/// asks for, an up has no overflow, a down is done where the counter is above 0 and waits where it is 0, and a wait has a deadline exactly where x11
/// asks for one, on its own processor and as many ticks after the turn as x12 says. A call waits for a busy handler only where x11 is 0. A lookup
/// tells the word of the derivation of its own domain that has the first place of the range in x10, of its kind, or 0 where none has. A refusal is of
/// the call in x17, and doesn't say SUCCESS. What only a hypercall does is done by a thread whose next instruction is one, or that makes its call
/// again. A part of an item that is given or skipped is of the derivation that is the first left, and behind that the cursor comes; a part that is
/// skipped is so for a reason that holds. An item ends as it is, as given only where nothing of it is left, and tells the context that it is for, and
/// a revoke is that which the registers ask for and returns where nothing is left of its scope. A context that waits for a reply acts only where its
/// handler has ended, which keeps it as the caller that came by that mark, and a context that gives a first range made that domain in a turn of its
/// own.
pub fn deeds_are_rightful()
    ensures rightful { (k : KernelState) (ec : ℕ)
        → IsReachable k
        → IsRightful k ec (deed k ec) }
    ensures asks { (k : KernelState) (ec : ℕ) → IsOfCall (deed k ec) → IsAsking k ec }
    ensures exits { (k : KernelState) (ec reason q0 q1 : ℕ)
        → raised_exit (context k ec).state ≡ Some (reason, q0, q1)
        → IsOfExit reason q0 q1 (deed k ec) }
    ensures aborts { (k : KernelState) (cpu ec handler : ℕ)
        → IsReachable k
        → Acts k cpu ec
        → (context k ec).state ≡ Calling handler
        → is_dead (state_in k.contexts handler) ≡ true }
    ensures firsts { (scenario : Scenario) (turns : List ℕ) (ec domain : ℕ)
        → (context (run (boot scenario) turns) ec).state ≡ Granting (Some domain)
        → HasMade (boot scenario) turns ec domain }
{}

/// From a reachable state on, a frame stays over turns in which no context acts whose domain reaches it with the right to write.
pub fn frames_that_nobody_may_write_stay()
    ensures { (k : KernelState) (turns : List ℕ) (frame : ℕ)
        → IsReachable k
        → IsUnwrittenFrame k turns frame
        → slice_get (run k turns).memory.ram frame ≡ slice_get k.memory.ram frame }
{}

// Laws of callers: the context that a handler serves, and that which waits for its reply.
ghost use Rattle.std.specs.Prelude.{◌≡◌, ◌≢◌, ℕ, List, true, false, Some, None, slice_get};
ghost use Rattle.nova_objects.specs.declared.object.Object.TheVariants.{Pt};
ghost use Rattle.nova_model.specs.Boot.{Scenario, boot};
ghost use Rattle.nova_model.specs.Edges.{AreCallers, caller_in, is_free, state_in};
ghost use Rattle.nova_model.specs.Runs.{run};
ghost use Rattle.nova_model.specs.State.{is_local_thread};
ghost use Rattle.nova_model.specs.declared.context.Mark.{Mark};
ghost use Rattle.nova_model.specs.declared.context.Mark.TheVariants.{Call};
ghost use Rattle.nova_model.specs.declared.context.State.TheVariants.{Calling, Granting, Parked};
ghost use Rattle.law_turns.specs.Callers.{HasNoCaller, HasOneCaller};

/// Whatever list of turns is taken from whatever boot state, a local thread that is neither parked nor dead has
/// exactly one caller. It keeps a caller that came by a call or by an exit, which waits for its reply, and no
/// other does. A handler that takes items was called. A parked thread has no caller. Callers are there, and of
/// the processor of the handlers that serve them; a context that waits for a reply is the caller that its
/// handler keeps. Only local threads are handlers of portals, are ever parked, or have callers.
pub fn a_handler_at_work_has_one_caller()
    ensures at_work { (scenario : Scenario) (turns : List ℕ) (h : ℕ)
        → is_local_thread (run (boot scenario) turns) h ≡ true
        → is_free (state_in (run (boot scenario) turns).contexts h) ≡ false
        → HasOneCaller (run (boot scenario) turns).contexts h }
    ensures parked { (scenario : Scenario) (turns : List ℕ) (h : ℕ)
        → state_in (run (boot scenario) turns).contexts h ≡ Some Parked
        → HasNoCaller (run (boot scenario) turns).contexts h }
    ensures callers { (scenario : Scenario) (turns : List ℕ) → AreCallers (run (boot scenario) turns).contexts }
    ensures calling { (scenario : Scenario) (turns : List ℕ) (c h : ℕ)
        → state_in (run (boot scenario) turns).contexts c ≡ Some (Calling h)
        → (mark : Mark) × (caller_in (run (boot scenario) turns).contexts h ≡ Some (c, mark)) }
    ensures taking { (scenario : Scenario) (turns : List ℕ) (h c : ℕ) (mark : Mark)
        → state_in (run (boot scenario) turns).contexts h ≡ Some (Granting None)
        → caller_in (run (boot scenario) turns).contexts h ≡ Some (c, mark)
        → mark ≡ Call }
    ensures handlers { (scenario : Scenario) (turns : List ℕ) (pt h mtd ip : ℕ)
        → slice_get (run (boot scenario) turns).objects pt ≡ Some (Pt h mtd ip)
        → is_local_thread (run (boot scenario) turns) h ≡ true }
    ensures others { (scenario : Scenario) (turns : List ℕ) (h : ℕ)
        → is_local_thread (run (boot scenario) turns) h ≡ false
        → (state_in (run (boot scenario) turns).contexts h ≢ Some Parked) × (caller_in (run (boot scenario) turns).contexts h ≡ None) }
{}

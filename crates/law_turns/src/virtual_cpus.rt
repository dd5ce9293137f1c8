// Laws of virtual CPUs: what a virtual CPU waits for, and which contexts call.
ghost use Rattle.std.specs.Prelude.{◌≡◌, ℕ, List, true, Some};
ghost use Rattle.nova_model.specs.Boot.{Scenario, boot};
ghost use Rattle.nova_model.specs.Capabilities.{is_vcpu};
ghost use Rattle.nova_model.specs.Edges.{caller_in, state_in};
ghost use Rattle.nova_model.specs.Runs.{run};
ghost use Rattle.nova_model.specs.State.{context, is_thread};
ghost use Rattle.nova_model.specs.declared.context.Mark.TheVariants.{Call, Exit};
ghost use Rattle.nova_model.specs.declared.context.State.TheVariants.{Calling};
ghost use Rattle.law_turns.specs.Tables.{IsOf};
ghost use Rattle.law_turns.specs.Virtual.{is_guest_state};

/// Whatever list of turns is taken from whatever boot state, a virtual CPU runs, has raised an exit, waits for
/// its reply or is dead. It is never parked or blocked, it helps none, and it gives no items and revokes
/// nothing. A caller that came by a call is a thread. A virtual CPU that waits for a handler is the caller that
/// it keeps, and came by an exit.
pub fn virtual_cpus_wait_for_their_exits_alone()
    ensures states { (scenario : Scenario) (turns : List ℕ) (g : ℕ)
        → IsOf (run (boot scenario) turns).objects is_vcpu g
        → is_guest_state (context (run (boot scenario) turns) g).state ≡ true }
    ensures callers { (scenario : Scenario) (turns : List ℕ) (handler caller : ℕ)
        → caller_in (run (boot scenario) turns).contexts handler ≡ Some (caller, Call)
        → is_thread (run (boot scenario) turns) caller ≡ true }
    ensures waiting { (scenario : Scenario) (turns : List ℕ) (g handler : ℕ)
        → IsOf (run (boot scenario) turns).objects is_vcpu g
        → state_in (run (boot scenario) turns).contexts g ≡ Some (Calling handler)
        → caller_in (run (boot scenario) turns).contexts handler ≡ Some (g, Exit) }
{}

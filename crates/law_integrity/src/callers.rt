// Laws of which contexts wait for which.
ghost use Rattle.std.specs.Prelude.{◌≡◌, ℕ, List, Some};
ghost use Rattle.nova_guest.specs.declared.input.Input.TheVariants.{Died, Sent};
ghost use Rattle.nova_model.specs.Boot.{Scenario, boot};
ghost use Rattle.nova_model.specs.Runs.{run};
ghost use Rattle.nova_model.specs.State.{context, deadline_of};
ghost use Rattle.nova_model.specs.declared.context.State.TheVariants.{Calling};
ghost use Rattle.nova_model.specs.declared.times.Deadline.{Deadline};
ghost use Rattle.law_origins.specs.Whose.{IsInputBy};
ghost use Rattle.law_integrity.specs.Waits.{DiesOfExit, HasCome, HasSet, IsSentOn};

/// Whatever list of turns is taken from whatever boot state, an execution context that waits for a handler's
/// reply called it, or had its exit sent to it, in a turn of its own. That was by a portal that its domain held
/// then with the right to it, and it has waited since.
pub fn callers_came_by_right()
    ensures { (scenario : Scenario) (turns : List ℕ) (caller handler : ℕ)
        → (context (run (boot scenario) turns) caller).state ≡ Calling handler
        → HasCome (boot scenario) turns caller handler }
{}

/// Whatever list of turns is taken from whatever boot state, each deadline was set by the context whose wait it limits. That was in a turn of its
/// own, by a down of a semaphore to which its domain held the right then, at the moment that its registers asked for, on its own processor; and it
/// has had it since.
pub fn deadlines_were_set_by_right()
    ensures { (scenario : Scenario) (turns : List ℕ) (waiter : ℕ) (deadline : Deadline)
        → deadline_of (run (boot scenario) turns).times waiter ≡ Some deadline
        → HasSet (boot scenario) turns waiter deadline }
{}

/// A virtual CPU's exit is sent to the handler of its domain's own portal, or ends it where no such handler takes it. Take any list of turns
/// from any boot state, and a turn that is then an input of a virtual CPU. Where its exit is sent in it, that goes to the handler of the portal
/// that its domain holds at event base + reason, with the right to send exits. Where its exit ends it, no handler of such a portal takes it, or
/// the handler for which it waits has ended.
pub fn exits_of_virtual_cpus_end_by_right()
    ensures sent { (scenario : Scenario) (turns : List ℕ) (cpu ec g : ℕ) → IsInputBy scenario turns cpu ec g Sent
        → IsSentOn (run (boot scenario) turns) g }
    ensures died { (scenario : Scenario) (turns : List ℕ) (cpu ec g : ℕ) → IsInputBy scenario turns cpu ec g Died
        → DiesOfExit (run (boot scenario) turns) g }
{}

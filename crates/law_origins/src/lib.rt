//! Whose inputs: the context that acts in the turn that is an input of a virtual CPU, and by what right; and
//! the whole life of a virtual CPU. The functions do nothing: their contracts are the laws.
#![tactic(auto)]

ghost use Rattle.std.specs.Prelude.{◌≡◌, ℕ, List, Some};
ghost use Rattle.law_forest.specs.Made.{MayUse};
ghost use Rattle.nova_guest.specs.declared.input.Input.{Input};
ghost use Rattle.nova_guest.specs.declared.input.Input.TheVariants.{Died, Foreign, Given, Own, Recall, Reply, Sent, Taken};
ghost use Rattle.nova_model.specs.Boot.{Scenario, boot};
ghost use Rattle.nova_model.specs.Capabilities.{control_right, is_ec};
ghost use Rattle.nova_model.specs.Guests.{input};
ghost use Rattle.nova_model.specs.Runs.{run};
ghost use Rattle.nova_model.specs.State.{KernelState, context, pd_of};
ghost use Rattle.nova_model.specs.declared.context.State.TheVariants.{Granting};
ghost use Rattle.nova_range.specs.Rights.{write_right};
ghost use Rattle.nova_range.specs.declared.mtd.Mtd.{Mtd};
ghost use Rattle.nova_range.specs.declared.rights.Rights.{Rights};
ghost use Rattle.law_origins.specs.Events.{AreSelectors, HasEvents};
ghost use Rattle.law_origins.specs.Giving.{Acts, HasMade, IsGiven, IsTakenByRight, HasPageTo};
ghost use Rattle.law_origins.specs.Lives.{AreGuestsAlone};
ghost use Rattle.law_origins.specs.Reachable.{IsReachable};
ghost use Rattle.law_origins.specs.Sending.{HandlesLast, LastSent};
ghost use Rattle.law_origins.specs.Whose.{HasRight, IsInputBy};

/// A state is reachable where some list of turns makes it of the boot state of some scenario. So is each boot state, whatever turns make of a
/// reachable state, and whatever turns make of a boot state.
pub fn what_turns_reach_is_reachable()
    ensures boot { (scenario : Scenario) → IsReachable (boot scenario) }
    ensures turns { (k : KernelState) (turns : List ℕ) → IsReachable k → IsReachable (run k turns) }
    ensures reached { (scenario : Scenario) (turns : List ℕ) → IsReachable (run (boot scenario) turns) }
{}

/// Whatever list of turns is taken from whatever boot state, no event base is above 2^20 - 9 and no exit
/// that is raised and not sent has a reason above 8, so that event base + reason is a selector.
pub fn exits_go_to_selectors()
    ensures events { (scenario : Scenario) (turns : List ℕ) → HasEvents (run (boot scenario) turns) }
    ensures selectors { (scenario : Scenario) (turns : List ℕ) → AreSelectors (run (boot scenario) turns) }
{}

/// Whatever list of turns is taken from whatever boot state, an execution context that gives a first range to a
/// protection domain made that domain, in a turn of its own.
pub fn a_first_range_is_its_makers()
    ensures { (scenario : Scenario) (turns : List ℕ) (ec pd : ℕ)
        → (context (run (boot scenario) turns) ec).state ≡ Granting (Some pd) → HasMade (boot scenario) turns ec pd }
{}

/// Of the turns in which exits of a virtual CPU are sent there is one last.
pub fn the_last_sent_is_one()
    ensures { (k : KernelState) (turns : List ℕ) (g : ℕ) (l m : LastSent k turns g) → l.before ≡ m.before }
{}

/// Each input of a virtual CPU is by right of the context that acts in its turn. Take any list of turns from
/// any boot state, and the context that acts in a turn that is then an input of a virtual CPU. Where the input
/// is a step of its own, or that its exit is sent or ends it, it is the virtual CPU itself. A context that
/// stores to its memory reaches that frame with the right to write. A context that recalls it holds a
/// capability to it with the right to control it. A context that replies is the handler of the portal that its
/// protection domain held, with the right to send exits, at event base + reason in the turn in which its last
/// exit was sent. Memory is given by a handler in its domain that takes its caller's items, by a handler that
/// replies to a caller in its domain, or by the context that made the domain and gives it its first range; the
/// derivation that it is made of lies in the giver's domain and has every right of the new one. A context that
/// takes memory from it revokes, and holds an ancestor of what goes, or that itself.
pub fn inputs_are_by_right()
    ensures someone { (scenario : Scenario) (turns : List ℕ) (cpu g : ℕ) (i : Input)
        → input (run (boot scenario) turns) cpu g ≡ Some i → (ec : ℕ) × Acts (run (boot scenario) turns) cpu ec }
    ensures right { (scenario : Scenario) (turns : List ℕ) (cpu ec g : ℕ) (i : Input)
        → IsInputBy scenario turns cpu ec g i → HasRight (boot scenario) turns cpu ec g i }
    ensures own { (scenario : Scenario) (turns : List ℕ) (cpu ec g : ℕ) → IsInputBy scenario turns cpu ec g Own → ec ≡ g }
    ensures sent { (scenario : Scenario) (turns : List ℕ) (cpu ec g : ℕ) → IsInputBy scenario turns cpu ec g Sent → ec ≡ g }
    ensures died { (scenario : Scenario) (turns : List ℕ) (cpu ec g : ℕ) → IsInputBy scenario turns cpu ec g Died → ec ≡ g }
    ensures foreign { (scenario : Scenario) (turns : List ℕ) (cpu ec g frame offset width value : ℕ)
        → IsInputBy scenario turns cpu ec g (Foreign frame offset width value)
        → HasPageTo (run (boot scenario) turns) (pd_of (run (boot scenario) turns) ec) write_right frame }
    ensures recall { (scenario : Scenario) (turns : List ℕ) (cpu ec g : ℕ) → IsInputBy scenario turns cpu ec g Recall
        → MayUse (run (boot scenario) turns) (pd_of (run (boot scenario) turns) ec) is_ec control_right g }
    ensures reply { (scenario : Scenario) (turns : List ℕ) (cpu ec g : ℕ) (mtd : Mtd) (words : List ℕ)
        → IsInputBy scenario turns cpu ec g (Reply mtd words) → HandlesLast (boot scenario) turns g ec }
    ensures given { (scenario : Scenario) (turns : List ℕ) (cpu ec g base order : ℕ) (rights : Rights) (frame : ℕ) (contents : List ℕ)
        → IsInputBy scenario turns cpu ec g (Given base order rights frame contents)
        → IsGiven (boot scenario) turns cpu ec g base order rights frame contents }
    ensures taken { (scenario : Scenario) (turns : List ℕ) (cpu ec g base order : ℕ) → IsInputBy scenario turns cpu ec g (Taken base order)
        → IsTakenByRight (run (boot scenario) turns) cpu ec g base order }
{}

/// Each virtual CPU is a guest alone from the turn that made it on. Take any list of turns from any boot state. Each virtual CPU that is there at the
/// end was made at one of the turns, and at no other: before it there was no object of its number, after it there is that virtual CPU, and no event
/// up to that turn names it. From then on it is a guest alone: its view at the end is what the guest alone makes of its view right after that turn
/// and its inputs over the rest of the turns; and the exits that it raises in the trace of all turns, with their qualifications, and the bytes that
/// its turns append to the log are, in order, what the guest alone puts out.
pub fn virtual_cpus_are_guests_alone_from_their_birth()
    ensures { (scenario : Scenario) (turns : List ℕ) → AreGuestsAlone (boot scenario) turns }
{}

//! The law of one turn: for a virtual CPU a turn is one input of the guest alone, or nothing. The
//! functions do nothing: their contracts are the laws.
#![tactic(auto)]

ghost use Rattle.std.specs.Prelude.{◌≡◌, ◌≢◌, ◌≤◌, ◌-◌, ◌^◌, ℕ, List, length, None, true, IfSome};
ghost use Rattle.rv_model.specs.Registers.{Registers};
ghost use Rattle.nova_guest.specs.Admitted.{admits};
ghost use Rattle.nova_guest.specs.Alone.{alone, guest_space, outputs, written_back as alone_written_back};
ghost use Rattle.nova_guest.specs.Conditions.{IsGuest, IsInput};
ghost use Rattle.nova_utcb.specs.Messages.{written_back};
ghost use Rattle.nova_model.specs.AddressSpaces.{space};
ghost use Rattle.nova_model.specs.Boot.{Scenario, boot};
ghost use Rattle.nova_model.specs.Deeds.{address_space, deed, done};
ghost use Rattle.nova_model.specs.Guests.{input, inputs};
ghost use Rattle.nova_model.specs.Inputs.{reply_groups, reply_words};
ghost use Rattle.nova_model.specs.Runs.{after, run, trace};
ghost use Rattle.nova_model.specs.State.{KernelState};
ghost use Rattle.nova_model.specs.Views.{view};
ghost use Rattle.law_forest.specs.Turns.{is_passing};
ghost use Rattle.nova_model.specs.Turn.{answer_of, turn};
ghost use Rattle.nova_model.specs.declared.event.Event.{Event};
ghost use Rattle.nova_model.specs.declared.event.Turn.TheVariants.{Stepped};
ghost use Rattle.law_isolation.specs.Law.{bytes_of, IsGivenAsSeen, IsOneInput, IsOneTurn, IsTakenAsSeen};
ghost use Rattle.std.specs.List.{All, filter};
ghost use Rattle.law_isolation.specs.Masked.{IsMasked, IsMaskedIn};
ghost use Rattle.law_isolation.specs.Shown.{bytes, exits, exits_in, gained, is_byte, is_exit, raises_in, shown};
ghost use Rattle.law_isolation.specs.Stretches.{BeginEqual, EndEqual, Stretch};
ghost use Rattle.law_isolation.specs.Sound.{AreRanges, IsSound, IsVirtual};

/// What the addresses of a virtual CPU lead to is what its view's maps and cells hold.
pub fn a_guests_space_is_that_of_its_view()
    ensures { (k : KernelState) (g : ℕ) → IsSound k → IsVirtual k g
        → space (address_space k g) ≡ guest_space (view k g).maps (view k g).cells }
{}

/// A turn of a virtual CPU itself is the guest's alone. It raises its startup exit, answers a recall by its
/// exit or executes an instruction, as the guest alone does, and puts out the same; or its exit is sent,
/// or it ends; or its exit waits for a handler that is busy, which is nothing for the guest.
pub fn a_guests_own_turn_is_its_own_alone()
    ensures { (k : KernelState) (g : ℕ) → IsSound k → IsVirtual k g → IsOneInput k (done k g (deed k g)) g g (deed k g) }
{}

/// A turn of another execution context is one input of a virtual CPU, or nothing for it. The input is a recall
/// of it, a reply to its exit that completes, a store to a frame of its memory, or a memory derivation that is
/// made in its protection domain or taken from it by a revoke. Nothing else that another does changes the view.
/// The guest puts out nothing.
pub fn a_turn_of_another_is_an_input_or_nothing()
    ensures { (k : KernelState) (ec g : ℕ) → IsSound k → IsVirtual k g → ec ≢ g → IsOneInput k (done k ec (deed k ec)) ec g (deed k ec) }
{}

/// A turn of a processor, whichever context acts in it, leaves of the view of a virtual CPU what the guest
/// alone makes of the single input that the turn is for it, or the same view where it is nothing. What the
/// guest alone puts out then is what the turn shows: an exit in its event, a byte at the end of the log. A turn
/// of another shows nothing of it.
pub fn a_turn_is_one_input_of_a_guest_alone()
    ensures { (k : KernelState) (cpu g : ℕ) → IsSound k → IsVirtual k g → IsOneTurn k cpu g }
{}

/// A deadline, an alarm and a tick are nothing for a virtual CPU: such a turn is no input, leaves its view, and
/// shows nothing of it.
pub fn what_comes_by_itself_is_nothing_for_a_guest()
    ensures view { (k : KernelState) (cpu g : ℕ) (e : Event) → IsSound k → IsVirtual k g → answer_of (turn k cpu) ≡ Stepped e → is_passing e.kind ≡ true
        → view (after k cpu) g ≡ view k g }
    ensures input { (k : KernelState) (cpu g : ℕ) (e : Event) → answer_of (turn k cpu) ≡ Stepped e → is_passing e.kind ≡ true → input k cpu g ≡ None }
    ensures log { (k : KernelState) (cpu : ℕ) (e : Event) → answer_of (turn k cpu) ≡ Stepped e → is_passing e.kind ≡ true
        → (after k cpu).memory ≡ k.memory }
{}

/// A reply writes back the registers of the groups that its message names, and the guest alone, which is
/// told these groups and their words and nothing else, writes back the same.
pub fn a_reply_is_the_groups_that_it_names()
    ensures { (m : List ℕ) (r : Registers) → length m ≡ 128 → length r.x ≡ 32
        → alone_written_back (reply_groups m) (reply_words m) r ≡ written_back m r }
{}

/// The bytes that come with a map are those of the frames that it leads to. Where the view has a cell of one of
/// them already, that cell has the same bytes.
pub fn what_is_given_is_in_the_frames()
    ensures { (k : KernelState) (cpu g : ℕ) → IsSound k → IsVirtual k g → IsGivenAsSeen (view k g) (input k cpu g) }
{}

/// A map that a turn takes is one of the view's, whole, and no map of the view after the turn has a page of
/// it, so that the guest finds nothing there. A frame that no map leads to any more has no cell.
pub fn what_is_taken_leaves_no_page()
    ensures { (k : KernelState) (cpu g : ℕ) → IsSound k → IsVirtual k g → IsTakenAsSeen (view k g) (view (after k cpu) g) (input k cpu g) }
{}

/// What the guest alone asks of a guest and of an input holds of each view and of each turn's input. Maps are
/// ranges of pages that share none and lead to frames below 2^32, cells are whole, a map comes with the bytes
/// of all its frames or with none, a map that goes is a range of pages, and what another stores lies within a
/// frame. It stands on derivations being ranges, which a kernel of at most 2^14 RAM frames, 16 consoles and
/// 2^20 - 3 sources begins with and each turn keeps.
pub fn views_and_inputs_are_admitted()
    ensures begins { (scenario : Scenario) → scenario.ram ≤ 14 → scenario.consoles ≤ 16 → length scenario.sources ≤ 2 ^ 20 - 3 → AreRanges (boot scenario) }
    ensures turns { (k : KernelState) (cpu : ℕ) → IsSound k → AreRanges k → AreRanges (after k cpu) }
    ensures views { (k : KernelState) (g : ℕ) → IsSound k → AreRanges k → IsGuest (view k g) }
    ensures inputs { (k : KernelState) (cpu g : ℕ) → IsSound k → AreRanges k → IfSome (input k cpu g) IsInput }
{}

/// The guest alone takes all views and inputs, along every list of turns from every boot state of at most 2^14
/// RAM frames, 16 consoles and 2^20 - 3 sources. It takes each view, and each input of a list of turns from
/// there too, so that a caller may chain them.
pub fn views_and_inputs_of_runs_are_admitted()
    ensures ranges { (scenario : Scenario) (turns : List ℕ) → scenario.ram ≤ 14 → scenario.consoles ≤ 16 → length scenario.sources ≤ 2 ^ 20 - 3 → AreRanges (run (boot scenario) turns) }
    ensures views { (scenario : Scenario) (turns : List ℕ) (g : ℕ) → scenario.ram ≤ 14 → scenario.consoles ≤ 16 → length scenario.sources ≤ 2 ^ 20 - 3
        → IsGuest (view (run (boot scenario) turns) g) }
    ensures inputs { (scenario : Scenario) (turns later : List ℕ) (g : ℕ) → scenario.ram ≤ 14 → scenario.consoles ≤ 16 → length scenario.sources ≤ 2 ^ 20 - 3
        → All IsInput (inputs (run (boot scenario) turns) later g) }
{}

/// What these laws ask of a state always holds. A kernel begins so, each turn keeps it, so that it holds of
/// whatever a kernel comes to, and a virtual CPU stays one. Delegations are a sound forest; tables, edges,
/// callers and virtual CPUs are as turns keep them; and frames have 4,096 bytes, messages 128 words, and
/// register files 32 registers.
pub fn what_isolation_stands_on_is_kept()
    ensures begins { (scenario : Scenario) → IsSound (boot scenario) }
    ensures turns { (k : KernelState) (cpu : ℕ) → IsSound k → IsSound (after k cpu) }
    ensures stays { (k : KernelState) (cpu g : ℕ) → IsVirtual k g → IsVirtual (after k cpu) g }
    ensures reached { (scenario : Scenario) (turns : List ℕ) → IsSound (run (boot scenario) turns) }
{}

/// Whatever turns are taken, the view of a virtual CPU after them is what the guest alone makes of its
/// inputs in these turns, one after another, from the view before.
pub fn a_run_is_a_guest_alone_over_its_inputs()
    ensures { (k : KernelState) (turns : List ℕ) (g : ℕ) → IsSound k → IsVirtual k g
        → view (run k turns) g ≡ alone (view k g) (inputs k turns g) }
{}

/// What the guest alone puts out over its inputs is what the turns show. Its exits are the exits that the
/// virtual CPU raises in the trace, and its bytes are those that the log gains in its turns, in order; the
/// number of RAM frames and the console's are the frame of each.
pub fn what_a_guest_puts_out_is_shown()
    ensures exits { (k : KernelState) (turns : List ℕ) (g : ℕ) → IsSound k → IsVirtual k g
        → exits_in (outputs (view k g) (inputs k turns g)) ≡ raises_in g (trace k turns) }
    ensures bytes { (k : KernelState) (turns : List ℕ) (g : ℕ) → IsSound k → IsVirtual k g
        → filter is_byte (outputs (view k g) (inputs k turns g)) ≡ bytes_of (length k.memory.ram) (gained k turns g) }
{}

/// Two virtual CPUs, of whatever kernels and in whatever turns, with equal views and equal inputs end with
/// equal views, and raise the same exits.
pub fn equal_inputs_end_equal()
    ensures views { (k l : KernelState) (turns others : List ℕ) (g h : ℕ) → IsSound k → IsSound l → IsVirtual k g → IsVirtual l h
        → view k g ≡ view l h → inputs k turns g ≡ inputs l others h → view (run k turns) g ≡ view (run l others) h }
    ensures exits { (k l : KernelState) (turns others : List ℕ) (g h : ℕ) → IsSound k → IsSound l → IsVirtual k g → IsVirtual l h
        → view k g ≡ view l h → inputs k turns g ≡ inputs l others h → raises_in g (trace k turns) ≡ raises_in h (trace l others) }
{}

/// What a turn is for a virtual CPU is an input that its state admits, so that an input says no more than the
/// guest sees. It acts where it is fresh or ready; its exit is sent where it has one, and ends it where it has
/// one or waits; a reply comes where it waits; a store of another goes to one of its cells; a map that comes
/// overlaps none that it has; and a map that goes is there.
pub fn an_input_is_one_that_the_guest_admits()
    ensures { (k : KernelState) (cpu g : ℕ) → IsSound k → IsVirtual k g → IfSome (input k cpu g) (λ i. admits (view k g) i ≡ true) }
{}

/// A reply tells a guest the groups that it names and nothing else. No group but pc, x1 to x15 and x16 to x31
/// is named; there are 33 words, pc, a word that is 0, and x1 to x31; and those of a group that isn't named are
/// 0.
pub fn a_reply_tells_the_groups_that_it_names_alone()
    ensures words { (m : List ℕ) → length m ≡ 128 → IsMasked (reply_groups m) (reply_words m) }
    ensures inputs { (k : KernelState) (cpu g : ℕ) → IsSound k → IfSome (input k cpu g) IsMaskedIn }
{}

/// What the guest alone puts out over its inputs is, in order, what the turns show of the virtual CPU. Its
/// exits are those that it raises: reason and first qualification are those of its raise events in the
/// trace, and the second is that of its state right after that turn. Its bytes are those that its turns
/// append to the log; the frame of each is the number of RAM frames and the console's number.
pub fn outputs_are_what_trace_states_and_log_show()
    ensures all { (k : KernelState) (turns : List ℕ) (g : ℕ) → IsSound k → IsVirtual k g
        → outputs (view k g) (inputs k turns g) ≡ shown k turns g }
    ensures raised { (k : KernelState) (turns : List ℕ) (g : ℕ) → IsSound k → IsVirtual k g
        → filter is_exit (outputs (view k g) (inputs k turns g)) ≡ exits k turns g }
    ensures stored { (k : KernelState) (turns : List ℕ) (g : ℕ) → IsSound k → IsVirtual k g
        → filter is_byte (outputs (view k g) (inputs k turns g)) ≡ bytes k turns g }
{}

/// Two virtual CPUs with equal views at a place of their runs, and equal inputs from there, are alike. Take any
/// two boot states, any two lists of turns, a place in each, and a virtual CPU in each, with equal views at
/// these places and equal inputs from there. Then their views at the ends are equal, and so is what they put
/// out, with both qualifications and every byte, and what trace, states and log show of them. Other domains may
/// revoke, delegate, help and store in any way between.
pub fn two_runs_with_equal_inputs_are_alike()
    ensures { (a b : Stretch) → BeginEqual a b → EndEqual a b }
{}

// Laws of disclosure: what turns tell others of registers and message words.
ghost use Rattle.std.specs.Prelude.{◌≡◌, ℕ, Bool, List, false, Some, Ok, option_map, slice_get};
ghost use Rattle.nova_range.specs.Rights.{write_right};
ghost use Rattle.nova_model.specs.Deeds.{instruction};
ghost use Rattle.nova_model.specs.Exits.{exit_portal, raised_exit};
ghost use Rattle.nova_model.specs.Inputs.{store_of};
ghost use Rattle.nova_model.specs.Portals.{handler_of};
ghost use Rattle.nova_model.specs.Runs.{after, run, trace};
ghost use Rattle.nova_model.specs.State.{KernelState, context, is_thread, pd_of};
ghost use Rattle.nova_model.specs.Turn.{Step, turn};
ghost use Rattle.law_origins.specs.Reachable.{IsReachable};
ghost use Rattle.law_origins.specs.Giving.{Acts};
ghost use Rattle.law_integrity.specs.Rights.{PageLeadsTo};
ghost use Rattle.law_integrity.specs.Confined.{AreSeparate, IsMember, Of, ShareNothing, Side, grown};
ghost use Rattle.law_integrity.specs.Disclosure.{AreSecretsOf, AreUnseen, Differ, Secret, DifferByExit, DifferByInstruction, DifferInRegisters, DifferInWords, IsAtInstruction, AreWordsUnread, AreWordsUnreadAlong, IsUntold, IsUntoldAlong};

/// An execution context's registers make no difference to others but by its exits, hypercalls and stores. Take two states that differ in
/// nothing but the registers of an execution context. A turn of the same processor in both leaves two states that differ in nothing else, and
/// has the same event, where that execution context doesn't act, or where its turn tells the same of both: of an exit that is raised, the
/// groups that its portal's descriptor names; of a hypercall, x10 to x14 and x17; of a first range that it gives, x12; of any other turn that
/// is no instruction, nothing. So over any list of such turns, and the events of these turns are the same.
///
/// Where an exit of it is raised, for which its domain holds a portal, the states after differ in nothing but its registers and the message
/// words of that portal's handler.
///
/// Where its turn is an instruction in both, and no hypercall, the states after differ in nothing but itself, its message words, bytes and log,
/// and stir counts. Message words only where it is a thread; bytes, log and counts only where the two instructions store differently; and no
/// bytes of a frame that its domain reaches by no page with the right to write.
pub fn registers_are_told_by_exits_calls_and_stores()
    ensures turn { (k l : KernelState) (cpu g : ℕ) → DifferInRegisters k l g → IsUntold k l cpu g
        → DifferInRegisters (after k cpu) (after l cpu) g }
    ensures event { (k l : KernelState) (cpu g : ℕ) → DifferInRegisters k l g → IsUntold k l cpu g
        → option_map (λ (s : Step). s.event) (turn l cpu) ≡ option_map (λ (s : Step). s.event) (turn k cpu) }
    ensures turns { (k l : KernelState) (turns : List ℕ) (g : ℕ) → DifferInRegisters k l g
        → IsUntoldAlong k l turns g → DifferInRegisters (run k turns) (run l turns) g }
    ensures events { (k l : KernelState) (turns : List ℕ) (g : ℕ) → DifferInRegisters k l g
        → IsUntoldAlong k l turns g → trace l turns ≡ trace k turns }
    ensures exit { (k l : KernelState) (cpu g reason q0 q1 portal : ℕ) → DifferInRegisters k l g → Acts k cpu g
        → raised_exit (context k g).state ≡ Some (reason, q0, q1) → exit_portal k g reason ≡ Ok portal
        → DifferByExit (after k cpu) (after l cpu) g (handler_of k portal) }
    ensures instruction { (k l : KernelState) (cpu g : ℕ) → DifferInRegisters k l g → Acts k cpu g
        → IsAtInstruction k g → IsAtInstruction l g → DifferByInstruction (after k cpu) (after l cpu) g }
    ensures words { (k l : KernelState) (cpu g : ℕ) → DifferInRegisters k l g → Acts k cpu g
        → IsAtInstruction k g → IsAtInstruction l g → is_thread k g ≡ false
        → (after l cpu).messages ≡ (after k cpu).messages }
    ensures store { (k l : KernelState) (cpu g : ℕ) → DifferInRegisters k l g → Acts k cpu g
        → IsAtInstruction k g → IsAtInstruction l g → store_of (instruction l g) ≡ store_of (instruction k g)
        → ((after l cpu).memory ≡ (after k cpu).memory) × ((after l cpu).stirs ≡ (after k cpu).stirs) }
    ensures frames { (k l : KernelState) (cpu g : ℕ) → DifferInRegisters k l g → Acts k cpu g
        → IsAtInstruction k g → IsAtInstruction l g
        → (frame : ℕ) → ((page : ℕ) → PageLeadsTo k (pd_of k g) page write_right frame → ⊥)
        → slice_get (after l cpu).memory.ram frame ≡ slice_get (after k cpu).memory.ram frame }
{}

/// A thread's message words make no difference to turns of others than itself and a handler that takes or gives its items. Take two states that
/// differ in nothing but the message words of a thread. A turn of the same processor in both leaves two states that differ in nothing else, and
/// has the same event, unless the thread itself acts, or a handler that takes the items of its call, or gives it those of a reply. So over any
/// list of such turns, and the events of these turns are the same.
pub fn message_words_are_read_by_their_thread_and_its_handler()
    ensures turn { (k l : KernelState) (cpu m : ℕ) → DifferInWords k l m → AreWordsUnread k cpu m
        → DifferInWords (after k cpu) (after l cpu) m }
    ensures event { (k l : KernelState) (cpu m : ℕ) → DifferInWords k l m → AreWordsUnread k cpu m
        → option_map (λ (s : Step). s.event) (turn l cpu) ≡ option_map (λ (s : Step). s.event) (turn k cpu) }
    ensures turns { (k l : KernelState) (turns : List ℕ) (m : ℕ) → DifferInWords k l m
        → AreWordsUnreadAlong k turns m → DifferInWords (run k turns) (run l turns) m }
    ensures events { (k l : KernelState) (turns : List ℕ) (m : ℕ) → DifferInWords k l m
        → AreWordsUnreadAlong k turns m → trace l turns ≡ trace k turns }
{}

/// A turn of one of two separate sets looks at no registers and no message words outside that set. Take two separate sets of domains, as in
/// `closed_sets_stay_confined`. Whatever turns follow, a turn in which one of the first set's acts looks at no registers and no message words
/// of any execution context that isn't the set's: over two states that differ in these alone it leaves two that differ in these alone.
pub fn closed_sets_are_blind_to_registers_and_words()
    ensures registers { (k : KernelState) (turns : List ℕ) (S T : ℕ → Bool) (cpu ec n : ℕ) (l : KernelState)
        → IsReachable k
        → AreSeparate k (Of S) (Of T)
        → Acts (run k turns) cpu ec
        → IsMember (run k turns) (grown k (Of S) turns) ec
        → (IsMember (run k turns) (grown k (Of S) turns) n → ⊥)
        → DifferInRegisters (run k turns) l n
        → DifferInRegisters (after (run k turns) cpu) (after l cpu) n }
    ensures words { (k : KernelState) (turns : List ℕ) (S T : ℕ → Bool) (cpu ec n : ℕ) (l : KernelState)
        → IsReachable k
        → AreSeparate k (Of S) (Of T)
        → Acts (run k turns) cpu ec
        → IsMember (run k turns) (grown k (Of S) turns) ec
        → (IsMember (run k turns) (grown k (Of S) turns) n → ⊥)
        → DifferInWords (run k turns) l n
        → DifferInWords (after (run k turns) cpu) (after l cpu) n }
{}

/// A turn is the same whatever registers, message words and frames its actor doesn't see are. Take any state, and another that differs in several
/// things at once that the context that acts doesn't see: registers of others, message words that it doesn't read, bytes of frames to which no page
/// of its domain leads. Its turn has the same event in both, and leaves two states that differ in these alone. So of two guests with their monitors
/// that share nothing: a turn of one side is the same whatever all registers, message words and frames of the other side are.
pub fn a_turn_is_the_same_over_what_it_doesnt_see()
    ensures turn { (secrets : List Secret) (k l : KernelState) (cpu ec : ℕ) → Acts k cpu ec → AreUnseen k ec secrets
        → Differ secrets k l → Differ secrets (after k cpu) (after l cpu) }
    ensures event { (secrets : List Secret) (k l : KernelState) (cpu ec : ℕ) → Acts k cpu ec → AreUnseen k ec secrets
        → Differ secrets k l → option_map (λ (s : Step). s.event) (turn l cpu) ≡ option_map (λ (s : Step). s.event) (turn k cpu) }
    ensures guests { (k : KernelState) (turns : List ℕ) (guest monitor other_guest other_monitor cpu ec : ℕ) (secrets : List Secret)
        → IsReachable k
        → ShareNothing k guest monitor other_guest other_monitor
        → Acts (run k turns) cpu ec
        → IsMember (run k turns) (Side k guest monitor turns) ec
        → AreSecretsOf (run k turns) (Side k other_guest other_monitor turns) secrets
        → AreUnseen (run k turns) ec secrets }
{}

ghost use Rattle.std.specs.Prelude.{◌≡◌, ◌≢◌, ◌↔◌, ◌⊎◌, ℕ, false, List, Option, Some, IsSome, slice_set};
ghost use Rattle.nova_range.specs.declared.mtd.Mtd.{Mtd};
ghost use Rattle.nova_utcb.specs.Files.{IsFile};
ghost use Rattle.nova_utcb.specs.Messages.{exited};
ghost use Rattle.nova_model.specs.State.{Contexts, KernelState, context, ec_in, ec_of, message};
ghost use Rattle.nova_model.specs.Calls.{exit_admitted};
ghost use Rattle.nova_model.specs.Deeds.{parked, performed, told};
ghost use Rattle.nova_model.specs.Exits.{raised_exit};
ghost use Rattle.nova_model.specs.declared.admit.ExitAdmit.TheVariants as answer;
ghost use Rattle.nova_model.specs.declared.context.EcState.{EcState};
ghost use Rattle.nova_model.specs.declared.context.Mark.TheVariants.{Exit};
ghost use Rattle.nova_model.specs.declared.context.State.{State};
ghost use Rattle.nova_model.specs.declared.context.State.TheVariants.{Calling, Dead, Exiting, Sending};
ghost use Rattle.nova_model.specs.declared.deed.Deed.TheVariants.{Waits, Sends, Dies, Aborts, Replies, Finishes};
ghost use Rattle.nova_model.specs.declared.transfer.ItemEnd.{ItemEnd};
ghost use Rattle.nova_model.specs.declared.transfer.ItemWords.{ItemWords};
ghost use Rattle.nova_model.specs.declared.transfer.Sequel.TheVariants.{Replied};
ghost use Rattle.nova_ec.specs.Handlers.{AreTogether, IsLost, MayReply, IsWaiting};
ghost use Rattle.nova_ec.specs.Tables.{turned_to};
ghost use Rattle.nova_ipc.specs.ExitEffects.{raised_among, waiting_among, exit_sent_among, dead_among, written_back_among};
ghost use Rattle.nova_ipc.specs.Reaching.{ServesExit, GoesOn};

/// Each answer to an exit comes exactly where its condition is the first that holds. These are `Dies` where
/// both aren't there on one processor, or no reply can come; `Sends` where the handler waits for a call; and
/// `Waits` where it is busy.
pub fn exits_are_answered_in_order()
    ensures dies { (cs : Contexts) (ec handler : ℕ) →
        (exit_admitted cs ec handler ≡ answer.Dies) ↔ ((AreTogether cs ec handler → ⊥) ⊎ IsLost cs ec handler) }
    ensures sends { (cs : Contexts) (ec handler : ℕ) →
        (exit_admitted cs ec handler ≡ answer.Sends) ↔ (MayReply cs ec handler × IsWaiting cs handler) }
    ensures waits { (cs : Contexts) (ec handler : ℕ) →
        (exit_admitted cs ec handler ≡ answer.Waits) ↔ (MayReply cs ec handler × (IsWaiting cs handler → ⊥)) }
{}

/// Where a context raises an exit, its exit waits, or it dies, its state changes and nothing else. An exit that
/// was raised, and an exit that waits, has its reason and both qualifications.
pub fn exits_change_a_state()
    ensures raised { (cs : Contexts) (ec reason q0 q1 : ℕ) → IsSome (ec_in cs ec) →
        ec_in (raised_among cs ec reason q0 q1) ec ≡ Some (record (ec_of cs ec) { state = Exiting reason q0 q1 }) }
    ensures waiting { (cs : Contexts) (ec handler reason q0 q1 : ℕ) → IsSome (ec_in cs ec) →
        ec_in (waiting_among cs ec handler reason q0 q1) ec ≡ Some (record (ec_of cs ec) { state = Sending reason q0 q1 handler }) }
    ensures dead { (cs : Contexts) (ec : ℕ) → IsSome (ec_in cs ec) →
        ec_in (dead_among cs ec) ec ≡ Some (record (ec_of cs ec) { state = Dead }) }
    ensures others { (cs : Contexts) (ec e : ℕ) (state : State) → e ≢ ec → ec_in (turned_to cs ec state) e ≡ ec_in cs e }
    ensures kept { (reason q0 q1 handler : ℕ) →
        (raised_exit (Exiting reason q0 q1) ≡ Some (reason, q0, q1)) × (raised_exit (Sending reason q0 q1 handler) ≡ Some (reason, q0, q1)) }
{}

/// An exit that is sent changes the state of the context that raised it, and of the handler the state, the
/// caller, pc and x10. Nothing else changes, of both and of all others.
pub fn sent_exits_change_both()
    ensures caller { (cs : Contexts) (ec handler ip identifier : ℕ) → exit_admitted cs ec handler ≡ answer.Sends →
        ec_in (exit_sent_among cs ec handler ip identifier) ec ≡ Some (record (ec_of cs ec) { state = Calling handler }) }
    ensures handler { (cs : Contexts) (ec handler ip identifier : ℕ) → exit_admitted cs ec handler ≡ answer.Sends →
        IsFile (ec_of cs handler).regs →
        (y : EcState) × (ec_in (exit_sent_among cs ec handler ip identifier) handler ≡ Some y)
        × ServesExit (ec_of cs handler) y ec ip identifier }
    ensures others { (cs : Contexts) (ec handler ip identifier e : ℕ) →
        e ≢ ec → e ≢ handler → ec_in (exit_sent_among cs ec handler ip identifier) e ≡ ec_in cs e }
{}

/// A reply to an exit parks the handler, without a caller, and its caller goes on. Registers of the groups that the message names are set from its
/// words, all others stay, and no other context changes.
pub fn replies_write_back()
    ensures handler { (cs : Contexts) (handler caller : ℕ) (m : List ℕ) → IsSome (ec_in cs handler) → handler ≢ caller →
        ec_in (written_back_among cs handler caller m) handler ≡ Some (parked (ec_of cs handler)) }
    ensures caller { (cs : Contexts) (handler caller : ℕ) (m : List ℕ) → IsSome (ec_in cs caller) → handler ≢ caller →
        IsFile (ec_of cs caller).regs →
        (y : EcState) × (ec_in (written_back_among cs handler caller m) caller ≡ Some y) × GoesOn (ec_of cs caller) y m }
    ensures others { (cs : Contexts) (handler caller e : ℕ) (m : List ℕ) → e ≢ caller → e ≢ handler →
        ec_in (written_back_among cs handler caller m) e ≡ ec_in cs e }
{}

/// The deeds of a turn change the table of execution contexts as these calls do. The deeds are an exit that
/// waits, an exit that is sent, an exit that ends the context that raised it, an exit whose handler is dead,
/// and a reply to an exit without items or after its last. An exit that is sent puts its message into the words
/// of its handler.
pub fn exit_deeds_change_the_table_so()
    ensures waits { (k : KernelState) (ec handler reason q0 q1 : ℕ) →
        (performed k ec (Waits handler reason q0 q1)).contexts ≡ waiting_among k.contexts ec handler reason q0 q1 }
    ensures sends { (k : KernelState) (ec handler ip identifier reason q0 q1 : ℕ) (mtd : Mtd) →
        (performed k ec (Sends handler ip identifier mtd reason q0 q1)).contexts ≡ exit_sent_among k.contexts ec handler ip identifier }
    ensures message { (k : KernelState) (ec handler ip identifier reason q0 q1 : ℕ) (mtd : Mtd) →
        (performed k ec (Sends handler ip identifier mtd reason q0 q1)).messages
        ≡ slice_set k.messages handler (Some (exited mtd q0 q1 (context k ec).regs (message k handler))) }
    ensures dies { (k : KernelState) (ec reason q0 : ℕ) →
        (performed k ec (Dies reason q0)).contexts ≡ dead_among k.contexts ec }
    ensures aborts { (k : KernelState) (ec handler : ℕ) →
        (performed k ec (Aborts handler Exit)).contexts ≡ dead_among k.contexts ec }
    ensures replies { (k : KernelState) (ec caller : ℕ) →
        (performed k ec (Replies caller Exit false)).contexts ≡ written_back_among k.contexts ec caller (message k ec) }
    ensures finishes { (k : KernelState) (ec item caller : ℕ) (end : ItemEnd) (words : Option ItemWords) →
        (performed k ec (Finishes item end words (Replied caller Exit))).contexts
        ≡ written_back_among k.contexts ec caller (message (told k item words) ec) }
{}

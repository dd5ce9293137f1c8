// Laws of transfers.
ghost use Rattle.std.specs.Prelude.{◌≡◌, ◌<◌, ◌↔◌, ℕ, List, IsSome, None, Option, Some, false, true};
ghost use Rattle.nova_model.specs.Edges.{is_giving};
ghost use Rattle.nova_model.specs.Boot.{Scenario, boot};
ghost use Rattle.nova_model.specs.Deeds.{deed, done};
ghost use Rattle.nova_model.specs.Deliveries.{delivery};
ghost use Rattle.nova_model.specs.Runs.{after, run, trace};
ghost use Rattle.nova_model.specs.State.{KernelState, context, is_thread, message, no_transfer, transfer, transfer_at};
ghost use Rattle.nova_model.specs.Transfers.{next_source};
ghost use Rattle.nova_model.specs.Turn.{answer_of, turn};
ghost use Rattle.nova_model.specs.declared.context.Mark.{Mark};
ghost use Rattle.nova_model.specs.declared.context.Mark.TheVariants.{Call, Exit};
ghost use Rattle.nova_model.specs.declared.context.State.TheVariants.{Granting, Replying};
ghost use Rattle.nova_model.specs.declared.deed.Deed.TheVariants.{Finishes, Gives, Skips};
ghost use Rattle.nova_model.specs.declared.delegation.Derivation.{Derivation};
ghost use Rattle.nova_model.specs.declared.event.Event.{Event};
ghost use Rattle.nova_model.specs.declared.event.EventKind.TheVariants.{Ended, Made, Skip};
ghost use Rattle.nova_model.specs.declared.event.Turn.TheVariants.{Stepped};
ghost use Rattle.nova_model.specs.declared.transfer.Delivery.{Delivery};
ghost use Rattle.nova_model.specs.declared.transfer.ItemEnd.{ItemEnd};
ghost use Rattle.nova_model.specs.declared.transfer.ItemEnd.TheVariants.{Given};
ghost use Rattle.nova_model.specs.declared.transfer.ItemWords.{ItemWords};
ghost use Rattle.nova_model.specs.declared.transfer.Job.{Job};
ghost use Rattle.nova_model.specs.declared.transfer.Reason.{Reason};
ghost use Rattle.nova_model.specs.declared.transfer.Sequel.{Sequel};
ghost use Rattle.nova_model.specs.declared.transfer.Sequel.TheVariants.{Replied, Taken};
ghost use Rattle.law_turns.specs.Giving.{GivesRange, GoesOn, HasMoved, IsAtItem, IsEndOfItem, IsShared, MovesCursor, MovesOn, counted_after, source};
ghost use Rattle.law_turns.specs.Left.{HasGivenAll, IsFirstLeft, IsGivenOf, IsSkippedFor, NothingIsLeft};
ghost use Rattle.law_turns.specs.Windows.{EndsItem, GoesBetween, GoesToItself, TellsOfItem};

/// Whatever list of turns is taken from whatever boot state, the word in a creator's x12 reads as a range, and
/// it gives that range to a protection domain that is there. An execution context that gives no items has none
/// under way.
pub fn a_creator_gives_a_range_to_a_domain()
    ensures gives { (scenario : Scenario) (turns : List ℕ) (ec domain : ℕ)
        → (context (run (boot scenario) turns) ec).state ≡ Granting (Some domain) → GivesRange (run (boot scenario) turns) ec domain }
    ensures rests { (scenario : Scenario) (turns : List ℕ) (ec : ℕ)
        → is_giving (context (run (boot scenario) turns) ec).state ≡ false → transfer (run (boot scenario) turns) ec ≡ no_transfer }
{}

/// Whatever list of turns is taken from whatever boot state, the children that an execution context counts are
/// those that its present item made. So its events tell, since the last of them that was no part of an item.
/// That goes for a creator, for a handler that takes items and for a handler that replies. And the event at the
/// end of a delegation tells the item and as many children.
pub fn an_item_counts_its_children()
    ensures counts { (scenario : Scenario) (turns : List ℕ) (ec : ℕ)
        → (transfer (run (boot scenario) turns) ec).children ≡ counted_after ec 0 (trace (boot scenario) turns) }
    ensures tells { (scenario : Scenario) (turns : List ℕ) (cpu : ℕ) (e : Event)
        → answer_of (turn (run (boot scenario) turns) cpu) ≡ Stepped e
        → e.kind ≡ Ended
        → IsEndOfItem (run (boot scenario) turns) (trace (boot scenario) turns) e }
{}

/// Whatever list of turns is taken from whatever boot state, a child that is given is one of a derivation
/// of the protection domain that gives. It has the places that the derivation and what is given of the
/// item's range share, moved to where the item goes, leads to what the derivation leads to there, and has
/// the rights that both have.
pub fn a_child_is_what_range_and_derivation_share()
    ensures { (scenario : Scenario) (turns : List ℕ) (ec cursor : ℕ) (child : Derivation)
        → deed (run (boot scenario) turns) ec ≡ Gives child cursor → IsShared (run (boot scenario) turns) ec child }
{}

/// A derivation is left to be given where it is the giver's, of the item's kind, begins at the cursor or after
/// it, and has a place of what is given. The next part is that of the derivation of least base, and there is
/// none exactly where nothing is left. A child that is given is of that derivation. A part is skipped only for
/// a reason that holds: its child would have no right, or its receiver holds a place of it, or it is busy for a
/// revoke that runs. And a delegation that isn't skipped as a whole ends only where nothing is left.
pub fn what_is_left_is_given_next()
    ensures first { (list : List Derivation) (j : Job) (d : Derivation) → next_source list j ≡ Some d → IsFirstLeft list j d }
    ensures none { (list : List Derivation) (j : Job) → (next_source list j ≡ None) ↔ NothingIsLeft list j }
    ensures gives { (k : KernelState) (ec cursor : ℕ) (child : Derivation) → deed k ec ≡ Gives child cursor → IsGivenOf k ec child }
    ensures skips { (k : KernelState) (ec place cursor : ℕ) (reason : Reason) → deed k ec ≡ Skips reason place cursor → IsSkippedFor k ec reason }
    ensures ends { (k : KernelState) (ec item children : ℕ) (words : Option ItemWords) (follows : Sequel)
        → deed k ec ≡ Finishes item (Given children) words follows → HasGivenAll k ec }
{}

/// Each part that is given or skipped moves the cursor on, from a place below 2^20, so that an item has at most
/// 2^20 parts. Where the execution context has a transfer, the cursor is there afterwards, a child that was
/// given is counted, and the item and all other transfers are as before. And whatever list of turns is taken
/// from whatever boot state, so it is after a turn whose event tells of a part: of a child, or of a part that
/// is skipped, for a reason above 2.
pub fn each_part_moves_on()
    ensures gives { (k : KernelState) (ec cursor : ℕ) (child : Derivation) → deed k ec ≡ Gives child cursor → MovesOn k ec cursor }
    ensures skips { (k : KernelState) (ec place cursor : ℕ) (reason : Reason) → deed k ec ≡ Skips reason place cursor → MovesOn k ec cursor }
    ensures given { (k : KernelState) (ec cursor : ℕ) (child : Derivation)
        → deed k ec ≡ Gives child cursor → IsSome (transfer_at k ec) → HasMoved k (done k ec (deed k ec)) ec cursor 1 }
    ensures skipped { (k : KernelState) (ec place cursor : ℕ) (reason : Reason)
        → deed k ec ≡ Skips reason place cursor → IsSome (transfer_at k ec) → HasMoved k (done k ec (deed k ec)) ec cursor 0 }
    ensures made { (scenario : Scenario) (turns : List ℕ) (cpu : ℕ) (e : Event)
        → answer_of (turn (run (boot scenario) turns) cpu) ≡ Stepped e
        → e.kind ≡ Made
        → MovesCursor (run (boot scenario) turns) (after (run (boot scenario) turns) cpu) e.ec 1 }
    ensures passed { (scenario : Scenario) (turns : List ℕ) (cpu : ℕ) (e : Event)
        → answer_of (turn (run (boot scenario) turns) cpu) ≡ Stepped e
        → e.kind ≡ Skip
        → 2 < e.a
        → MovesCursor (run (boot scenario) turns) (after (run (boot scenario) turns) cpu) e.ec 0 }
{}

/// Whatever list of turns is taken from whatever boot state, an execution context that gives items has a
/// present item, of at most 62. An execution context that gives none is at item 0 after the next turn, so that
/// a context that begins to give begins there. Each turn leaves a context that gives at its item, or brings it
/// to the next, or the item was the last and it gives no more. And while items are given no turn changes the
/// message words that they are in: those of its caller, for a handler that takes items, and its own for a
/// handler that replies.
pub fn items_are_given_in_order()
    ensures present { (scenario : Scenario) (turns : List ℕ) (ec : ℕ)
        → is_giving (context (run (boot scenario) turns) ec).state ≡ true → IsAtItem (run (boot scenario) turns) ec }
    ensures begins { (scenario : Scenario) (turns : List ℕ) (cpu ec : ℕ)
        → is_giving (context (run (boot scenario) turns) ec).state ≡ false
        → (transfer (after (run (boot scenario) turns) cpu) ec).item ≡ 0 }
    ensures goes_on { (scenario : Scenario) (turns : List ℕ) (cpu ec : ℕ)
        → is_giving (context (run (boot scenario) turns) ec).state ≡ true
        → GoesOn (run (boot scenario) turns) (after (run (boot scenario) turns) cpu) ec }
    ensures stay { (scenario : Scenario) (turns : List ℕ) (cpu ec thread : ℕ)
        → source (run (boot scenario) turns) ec ≡ Some thread
        → message (after (run (boot scenario) turns) cpu) thread ≡ message (run (boot scenario) turns) thread }
{}

/// An item of a message goes from the sender's protection domain to the receiver's, within the receiver's window of the item's kind. Item i is two
/// words of a message, words 126 - 2i and 127 - 2i. A handler that takes items takes those of its caller's message, and a handler that replies gives
/// those of its own, from the sender's protection domain to the receiver's. Where the receiver is a thread, translations go to the window in word 1
/// of its message, and delegations to that in word 2. A virtual CPU has no window for translations, and for delegations the whole space of the item's
/// own type. The receiver is told what came of each, where it takes the items or called. A caller that came by an exit is told nothing of the items
/// of the reply. After the last item the handler goes on, or the reply completes. A creator delegates one range, that of the word in its x12, to that
/// range itself, and none is told. Whatever list of turns is taken from whatever boot state, a context that is told is a thread: no virtual CPU is
/// told.
pub fn items_go_to_the_windows_of_the_receiver()
    ensures taken { (k : KernelState) (ec caller : ℕ) (mark : Mark)
        → (context k ec).state ≡ Granting None
        → (context k ec).caller ≡ Some (caller, mark)
        → GoesBetween k ec caller ec (Some ec) Taken }
    ensures replied { (k : KernelState) (ec caller : ℕ)
        → (context k ec).state ≡ Replying
        → (context k ec).caller ≡ Some (caller, Call)
        → GoesBetween k ec ec caller (Some caller) (Replied caller Call) }
    ensures resumed { (k : KernelState) (ec caller : ℕ)
        → (context k ec).state ≡ Replying
        → (context k ec).caller ≡ Some (caller, Exit)
        → GoesBetween k ec ec caller None (Replied caller Exit) }
    ensures created { (k : KernelState) (ec domain : ℕ) → (context k ec).state ≡ Granting (Some domain) → GoesToItself k ec domain }
    ensures told { (scenario : Scenario) (turns : List ℕ) (ec whom : ℕ) (item : Delivery)
        → delivery (run (boot scenario) turns) ec (context (run (boot scenario) turns) ec).state ≡ Some item
        → item.told ≡ Some whom
        → is_thread (run (boot scenario) turns) whom ≡ true }
{}

/// Where a context is told of an item that ended, the second word is bit 0 of the item's second word: 1 for a
/// delegation, and 0 for a translation. The first word is 0 where the item was skipped as a whole, or made no
/// child. Where it made children it is the range word of where the item goes, with the item's rights; and where
/// it was translated it is the answer, the word that the item's end tells. There are words exactly where a
/// context is told, which is none for a first range and for a reply to an exit
/// (`items_go_to_the_windows_of_the_receiver`); the next item follows, or what follows the last.
pub fn words_tell_what_came_of_an_item()
    ensures tells { (k : KernelState) (ec item : ℕ) (end : ItemEnd) (words : ItemWords) (follows : Sequel)
        → deed k ec ≡ Finishes item end (Some words) follows → TellsOfItem k ec item end words }
    ensures ends { (k : KernelState) (ec item : ℕ) (end : ItemEnd) (words : Option ItemWords) (follows : Sequel)
        → deed k ec ≡ Finishes item end words follows → EndsItem k ec item words follows }
{}

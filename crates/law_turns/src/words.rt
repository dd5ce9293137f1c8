// Laws of message words.
ghost use Rattle.std.specs.Prelude.{◌≡◌, ◌≢◌, ◌⊎◌, ℕ, List, Some, IfSome, false, length};
ghost use Rattle.nova_range.specs.declared.mtd.Mtd.{Mtd};
ghost use Rattle.nova_model.specs.Boot.{Scenario, boot};
ghost use Rattle.nova_model.specs.Deeds.{deed};
ghost use Rattle.nova_model.specs.Runs.{after, run};
ghost use Rattle.nova_model.specs.State.{KernelState, context};
ghost use Rattle.nova_model.specs.Turn.{answer_of, turn};
ghost use Rattle.nova_model.specs.declared.context.Mark.TheVariants.{Call};
ghost use Rattle.nova_model.specs.declared.deed.Deed.TheVariants.{Finishes, Sends};
ghost use Rattle.nova_model.specs.declared.event.Event.{Event};
ghost use Rattle.nova_model.specs.declared.event.Turn.TheVariants.{Stepped};
ghost use Rattle.nova_model.specs.declared.transfer.ItemEnd.{ItemEnd};
ghost use Rattle.nova_model.specs.declared.transfer.ItemWords.{ItemWords};
ghost use Rattle.nova_model.specs.declared.transfer.Sequel.{Sequel};
ghost use Rattle.law_forest.specs.Turns.{is_passing};
ghost use Rattle.law_turns.specs.Words.{HasWritten, words_at, whose_words};

/// A turn changes the message words of one thread at most, and a deadline, an alarm and a tick those of none. They are those of the context that
/// acts, where it does an instruction: its store is done to them where it is a thread and the store lies among the first 512 bytes of its page
/// 0xfffff, and else they stay. Or they are those of the handler of a call that is sent, or of the caller of a reply to a call, and change by the
/// counts and the counted words of the message. Or they are those of the handler of an exit that is sent, and change by the exit's message: the
/// groups that the portal's descriptor names, of the context that raised it, whose own words stay. A reply to an exit leaves all words. Or they are
/// those of the context that is told of an item, and change by that item's two words. That is the context that acts, or its caller, which called.
/// Whatever list of turns is taken from whatever boot state, message words are 128.
pub fn a_turn_writes_the_words_of_one()
    ensures others { (k : KernelState) (cpu : ℕ) (e : Event) (n : ℕ) (words : List ℕ)
        → answer_of (turn k cpu) ≡ Stepped e
        → whose_words e.ec (deed k e.ec) ≢ Some n
        → words_at k n ≡ Some words
        → words_at (after k cpu) n ≡ Some words }
    ensures writes { (k : KernelState) (cpu : ℕ) (e : Event) (n : ℕ) (words : List ℕ)
        → is_passing e.kind ≡ false
        → answer_of (turn k cpu) ≡ Stepped e
        → whose_words e.ec (deed k e.ec) ≡ Some n
        → words_at k n ≡ Some words
        → HasWritten k (after k cpu) e.ec n (deed k e.ec) words }
    ensures raised { (k : KernelState) (cpu : ℕ) (e : Event) (handler ip identifier : ℕ) (mtd : Mtd) (reason q0 q1 : ℕ) (words : List ℕ)
        → answer_of (turn k cpu) ≡ Stepped e
        → deed k e.ec ≡ Sends handler ip identifier mtd reason q0 q1
        → words_at k e.ec ≡ Some words
        → words_at (after k cpu) e.ec ≡ Some words }
    ensures told { (k : KernelState) (ec item : ℕ) (end : ItemEnd) (words : ItemWords) (follows : Sequel)
        → deed k ec ≡ Finishes item end (Some words) follows
        → (words.ec ≡ ec) ⊎ ((context k ec).caller ≡ Some (words.ec, Call)) }
    ensures size { (scenario : Scenario) (turns : List ℕ) (n : ℕ) → IfSome (words_at (run (boot scenario) turns) n) (λ m. length m ≡ 128) }
{}

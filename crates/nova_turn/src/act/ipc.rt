ghost use Rattle.std.specs.Prelude.{◌≡◌, ◌<◌, true, false, length, Some, IsSome, ℕ, ◌^◌};
ghost use Rattle.nova_utcb.specs.Messages.{has_counts, has_items};
ghost use Rattle.nova_model.specs.Calls.{admitted, exit_admitted};
ghost use Rattle.nova_model.specs.Deeds.{after_item, brought, followed, performed, with_context, done, skipped, told, with_transfer};
ghost use Rattle.nova_model.specs.Edges.{caller_in};
ghost use Rattle.nova_model.specs.State.{context, context_at, message, transfer};
ghost use Rattle.nova_deeds.specs.Counted.{AreTables, IsCounted};
ghost use Rattle.nova_turn.specs.Going.{KeepsRest};
ghost use Rattle.nova_turn.specs.Parts.{state_of};
ghost use Rattle.nova_model.specs.Exits.{raised_exit};
ghost use Rattle.nova_model.specs.declared.admit.ExitAdmit.{ExitAdmit};
ghost use Rattle.nova_delegate.specs.Parts.{IsReady};
ghost use Rattle.nova_model.specs.declared.transfer.ItemEnd.{ItemEnd};
ghost use Rattle.nova_deeds.specs.Acts.{IsSequel, IsToldThere};
ghost use Rattle.nova_nodes.specs.NodesStates.{room};

use crate::parts::Parts;
use nova_deeds::items::{gave, transfer_after};
use nova_ipc::calls::{abort, begin, complete};
use nova_ipc::exits::{die, send, write_back};
use nova_model::{Admit, Deed, Derivation, ItemWords, Mark, Sequel, State, Transfer};
use nova_range::{Mtd, Status};
use nova_utcb::Utcb;

impl Parts {
    /// Sends the call of `ec`: the handler gets the message, and begins.
    #[inline(always)]
    pub(crate) fn send(&mut self, ec: u32, handler: u32, ip: u32, identifier: u32)
        requires there { IsSome (context_at (state_of self.old) ec) }
        requires admitted { admitted (state_of self.old).contexts ec handler false ≡ Admit.Send }
        requires counts { has_counts (message (state_of self.old) ec) ≡ true }
        requires tables { AreTables (state_of self.old) }
        ensures sent { state_of self.new ≡ performed (state_of self.old) ec (Deed.Calls handler ip identifier (has_items (message (state_of self.old) ec))) }
        ensures rest { KeepsRest self.old self.new }
    {
        let items = self.has_items(ec);
        let domain = self.pd(ec);
        let portal = self.contexts.context(ec).regs.get(10);
        self.reach.keep_at_hand(domain, portal);
        self.pass_message(ec, handler);
        begin(&mut self.contexts, ec, handler, ip, identifier, items);
    }

    /// Copies the message of `ec`, which replies, to `caller`, where it called; a caller that came by an exit gets none.
    fn bring(&mut self, ec: u32, caller: u32, mark: Mark)
        requires counts { has_counts (message (state_of self.old) ec) ≡ true }
        requires there { caller < length (state_of self.old).messages }
        ensures brought { state_of self.new ≡ brought (state_of self.old) ec caller mark }
        ensures rest { KeepsRest self.old self.new }
    {
        match mark {
            Mark::Call => self.pass_message(ec, caller),
            Mark::Exit => {}
        }
    }

    /// Completes a reply: `ec` waits for a call, and `caller` goes on.
    #[inline(always)]
    pub(crate) fn complete(&mut self, ec: u32, caller: u32, mark: Mark)
        requires { caller_in (state_of self.old).contexts ec ≡ Some (caller, mark) }
        ensures completed { state_of self.new ≡ followed (with_context (state_of self.old) ec (after_item (context (state_of self.old) ec) (Sequel.Replied caller mark))) ec (Sequel.Replied caller mark) }
        ensures rest { KeepsRest self.old self.new }
    {
        match mark {
            Mark::Call => complete(&mut self.contexts, ec),
            Mark::Exit => match self.reach.words(ec) {
                Some(words) => write_back(&mut self.contexts, words, ec),
                None => write_back(&mut self.contexts, &Utcb::new(), ec),
            },
        }
    }

    /// `ec` replies to `caller`: a caller that called gets the message, and where no items are to be given the reply completes.
    #[inline(always)]
    pub(crate) fn reply_to(&mut self, ec: u32, caller: u32, mark: Mark, items: bool)
        requires caller { caller_in (state_of self.old).contexts ec ≡ Some (caller, mark) }
        requires counts { has_counts (message (state_of self.old) ec) ≡ true }
        requires tables { AreTables (state_of self.old) }
        ensures replied { state_of self.new ≡ performed (state_of self.old) ec (Deed.Replies caller mark items) }
        ensures rest { KeepsRest self.old self.new }
    {
        self.contexts.keeps_callers();
        self.bring(ec, caller, mark);
        if items {
            self.contexts.set_state(ec, State::Replying);
        } else {
            self.complete(ec, caller, mark);
        }
    }

    /// Sends the exit of `ec`: the handler finds the exit's message, and begins.
    pub(crate) fn send_exit(&mut self, ec: u32, handler: u32, ip: u32, identifier: u32, mtd: Mtd)
        requires there { IsSome (context_at (state_of self.old) ec) }
        requires admitted { exit_admitted (state_of self.old).contexts ec handler ≡ ExitAdmit.Sends }
        requires raised { IsSome (raised_exit (context (state_of self.old) ec).state) }
        requires tables { AreTables (state_of self.old) }
        ensures sent { (reason q0 q1 : ℕ) → raised_exit (context (state_of self.old) ec).state ≡ Some (reason, q0, q1) →
            state_of self.new ≡ performed (state_of self.old) ec (Deed.Sends handler ip identifier mtd reason q0 q1) }
        ensures rest { KeepsRest self.old self.new }
    {
        let mut to = self.reach.message(handler);
        send(
            &mut self.contexts,
            &mut to,
            ec,
            handler,
            ip,
            identifier,
            mtd,
        );
        self.set_message(handler, &to);
    }

    /// Aborts the wait of `ec` for `handler`, which is dead: its call ends, or it ends by its exit.
    pub(crate) fn abort(&mut self, ec: u32, handler: u32, mark: Mark)
        requires { IsSome (context_at (state_of self.old) ec) }
        ensures aborted { state_of self.new ≡ performed (state_of self.old) ec (Deed.Aborts handler mark) }
        ensures rest { KeepsRest self.old self.new }
    {
        match mark {
            Mark::Call => abort(&mut self.contexts, ec),
            Mark::Exit => die(&mut self.contexts, ec),
        }
    }

    /// Sets how far the execution context `ec` is with its items to `transfer`.
    fn set_transfer(&mut self, ec: u32, transfer: Transfer)
        requires { ec < length (state_of self.old).transfers }
        ensures transfer { state_of self.new ≡ with_transfer (state_of self.old) ec transfer }
        ensures rest { KeepsRest self.old self.new }
    {
        self.transfers[ec as usize] = Some(transfer);
    }

    /// Adds `child`, in the room that was made for it, and lets the item of `ec` go on at `cursor`.
    pub(crate) fn give(&mut self, ec: u32, child: &Derivation, cursor: u32)
        requires there { IsSome (context_at (state_of self.old) ec) }
        requires counted { IsCounted (state_of self.old) }
        requires turns { self.old.turns < 2 ^ 31 }
        requires child { IsReady (state_of self.old).delegations child.now }
        requires room { 0 < room self.old.reach.nodes child.now.pd }
        ensures done { state_of self.new ≡ done (state_of self.old) ec (Deed.Gives child.now cursor) }
        ensures rest { KeepsRest self.old self.new }
    {
        let transfer = self.transfer(ec);
        self.reach.add_child(child);
        self.set_transfer(ec, gave(transfer, cursor));
    }

    /// Skips a part, and lets the item of `ec` go on at `cursor`.
    pub(crate) fn skip(&mut self, ec: u32, cursor: u32)
        requires there { IsSome (context_at (state_of self.old) ec) }
        requires tables { AreTables (state_of self.old) }
        ensures done { state_of self.new ≡ with_transfer (state_of self.old) ec (skipped (transfer (state_of self.old) ec) cursor) }
        ensures rest { KeepsRest self.old self.new }
    {
        let transfer = self.transfer(ec);
        self.set_transfer(ec, Transfer { cursor, ..transfer });
    }

    /// Writes `words`, those of item `item`, which ended, where they are to be found.
    fn tell(&mut self, item: u32, words: Option<ItemWords>)
        requires item { item < 62 }
        requires there { IsToldThere (state_of self.old) words }
        requires tables { AreTables (state_of self.old) }
        ensures told { state_of self.new ≡ told (state_of self.old) item words }
        ensures rest { KeepsRest self.old self.new }
    {
        if let Some(ItemWords { ec, first, second }) = words {
            let mut message = self.reach.message(ec);
            message.set_item(item, first, second);
            self.set_message(ec, &message);
        }
    }

    /// Does what follows item `item` of `ec`, which ended, as `after` says.
    fn follow(&mut self, ec: u32, item: u32, after: Sequel)
        requires there { IsSome (context_at (state_of self.old) ec) }
        requires sequel { IsSequel (state_of self.old) ec item after }
        ensures followed { state_of self.new ≡ followed (with_context (state_of self.old) ec (after_item (context (state_of self.old) ec) after)) ec after }
        ensures rest { KeepsRest self.old self.new }
    {
        match after {
            Sequel::Item => {}
            Sequel::Opened => self.contexts.answer(ec, Status::Success, None),
            Sequel::Taken => self.contexts.set_state(ec, State::Ready),
            Sequel::Replied(caller, mark) => self.complete(ec, caller, mark),
        }
    }

    /// Ends item `item` of `ec`: its words are written, and then the next item follows, or what ends it all.
    pub(crate) fn finish(&mut self, ec: u32, item: u32, words: Option<ItemWords>, after: Sequel)
        requires there { IsSome (context_at (state_of self.old) ec) }
        requires item { item < 62 }
        requires words { IsToldThere (state_of self.old) words }
        requires sequel { IsSequel (state_of self.old) ec item after }
        requires tables { AreTables (state_of self.old) }
        ensures finished { (end : ItemEnd) → state_of self.new ≡ done (state_of self.old) ec (Deed.Finishes item end words after) }
        ensures rest { KeepsRest self.old self.new }
    {
        self.tell(item, words);
        self.follow(ec, item, after);
        self.set_transfer(ec, transfer_after(item, after));
    }
}

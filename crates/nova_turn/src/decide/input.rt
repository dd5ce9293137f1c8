ghost use Rattle.std.specs.Prelude.{◌≡◌, IfOk, IsSome, OnErr};
ghost use Rattle.nova_deeds.specs.Acts.{DeedFits};
ghost use Rattle.nova_preview.specs.Given.{BringsBytes};
ghost use Rattle.nova_turn.specs.Parts.{state_of};
ghost use Rattle.nova_turn.specs.Revoking.{AreRunning};
ghost use Rattle.nova_deeds.specs.Counted.{IsCounted};
ghost use Rattle.nova_model.specs.Deeds.{deed};
ghost use Rattle.nova_model.specs.Inputs.{input_of, others_input};
ghost use Rattle.nova_model.specs.State.{context_at};

use crate::decide::deciding::Raised;
use crate::parts::Parts;
use nova_deeds::inputs::is_memory_of;
use nova_guest::Input;
use nova_model::{Deed, Derivation, Mark, Sequel};
use nova_preview::{foreign, given_if, input_if, next_instruction, own_input, reply_if};
use rv_core::outcome::Outcome;
use std::alloc::{AllocError, Global};

impl Parts {
    /// The deed of the execution context `ec`, which is decided and not done; an instruction is only looked at. What stays is as by
    /// `decide_in_state`.
    fn foresee(&mut self, ec: u32) -> Deed
        requires there { IsSome (context_at (state_of self.old) ec) }
        requires counted { IsCounted (state_of self.old) }
        requires running { AreRunning (state_of self.old) self.old.revokes }
        ensures deed { result ≡ deed (state_of self.old) ec }
        ensures fits { DeedFits (state_of self.old) ec result }
        ensures kept { self.new ≡ self.old }
    {
        if self.is_executing(ec) {
            let regs = &self.contexts.context(ec).regs;
            let ahead = next_instruction(&self.reach, ec, self.pd(ec), self.is_thread(ec), regs);
            return match ahead.outcome {
                Outcome::Next => Deed::Steps,
                Outcome::Raise { reason, q0, q1 } => self.signal(ec, Raised { reason, q0, q1 }),
            };
        }
        self.decide_in_state(ec)
    }

    /// The input that `deed` of `ec`, another execution context, is for the virtual CPU `guest`. Memory can run
    /// out only where it gives the virtual CPU's domain memory with bytes.
    fn others_input(
        &self,
        alloc: Global,
        ec: u32,
        guest: u32,
        deed: Deed,
    ) -> Result<Option<Input>, AllocError>
        requires there { IsSome (context_at (state_of self.now) ec) }
        requires fits { DeedFits (state_of self.now) ec deed }
        ensures input { IfOk result (λ i. i ≡ others_input (state_of self.now) ec guest deed) }
        ensures memory { OnErr result (BringsBytes (others_input (state_of self.now) ec guest deed)) }
    {
        let pd = self.pd(guest);
        let input = match deed {
            Deed::Steps => {
                let regs = &self.contexts.context(ec).regs;
                let ahead = next_instruction(
                    &self.reach,
                    ec,
                    self.pd(ec),
                    self.is_thread(ec),
                    regs,
                );
                foreign(&self.reach, pd, ahead.write)
            }
            Deed::Recalls { ec: whose } => input_if(whose == guest, Input::Recall),
            Deed::Replies {
                caller,
                mark: Mark::Exit,
                items: false,
            } => reply_if(caller == guest, &self.reach.message(ec)),
            Deed::Finishes {
                after: Sequel::Replied(whose, Mark::Exit),
                ..
            } => reply_if(whose == guest, &self.reach.message(ec)),
            Deed::Gives { child, .. } => given_if(alloc, &self.reach, pd, &child)?,
            Deed::Removes { leaf } => {
                let Derivation { base, order, .. } = leaf;
                input_if(is_memory_of(pd, &leaf), Input::Taken { base, order })
            }
            _ => None,
        };
        Ok(input)
    }

    /// The input that the deed of `ec`, which isn't done, is for the virtual CPU `guest`. Memory can run out only where it gives the virtual CPU's
    /// domain memory with bytes. What stays is as by `decide_in_state`.
    #[tactic(auto, unfolding(nova_model::specs::Inputs::input_of))]
    pub fn input_of(
        &mut self,
        alloc: Global,
        ec: u32,
        guest: u32,
    ) -> Result<Option<Input>, AllocError>
        requires there { IsSome (context_at (state_of self.old) ec) }
        requires counted { IsCounted (state_of self.old) }
        requires running { AreRunning (state_of self.old) self.old.revokes }
        ensures input { IfOk result (λ i. i ≡ input_of (state_of self.old) ec guest (deed (state_of self.old) ec)) }
        ensures memory { OnErr result (BringsBytes (input_of (state_of self.old) ec guest (deed (state_of self.old) ec))) }
        ensures kept { self.new ≡ self.old }
    {
        let deed = self.foresee(ec);
        if ec == guest {
            return Ok(own_input(deed));
        }
        self.others_input(alloc, ec, guest, deed)
    }
}

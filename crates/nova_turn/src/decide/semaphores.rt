ghost use Rattle.std.specs.Prelude.{◌≡◌, ℕ, IsSome, IfOk};
ghost use Rattle.nova_model.specs.Hypercalls.{deadline_after, sm_ctrl};
ghost use Rattle.nova_model.specs.State.{context_at};
ghost use Rattle.nova_deeds.specs.Acts.{IsToBeDone};
ghost use Rattle.nova_deeds.specs.Counted.{IsCounted};
ghost use Rattle.nova_turn.specs.Parts.{state_of};

use crate::decide::capabilities::ObjectType;
use crate::parts::Parts;
use nova_calls::SmAction;
use nova_model::{Deadline, Deed, Down, Rights};
use nova_range::Status;

impl Parts {
    /// An up of the semaphore that `selector` names: it wakes the first that waits, or raises the counter.
    /// `BadCap` where the capability names no semaphore with the right to up, `Overflow` at the greatest
    /// counter with none waiting.
    fn up(&self, domain: u32, selector: u32) -> Result<Deed, Status>
        ensures row { result ≡ sm_ctrl (state_of self.now) 0 domain selector SmAction.Up }
        ensures fits { (ec : ℕ) → IfOk result (IsToBeDone (state_of self.now) ec) }
    {
        let sm = self.named(domain, ObjectType::Sm, Rights::UP, selector)?;
        match self.semaphores.peek_up(sm) {
            Ok(woken) => Ok(Deed::Ups { sm, woken }),
            Err(_) => Err(Status::Overflow),
        }
    }

    /// A down of the semaphore that `selector` names: it lowers the counter, or waits. `BadCap` where the
    /// capability names no semaphore with the right to down.
    fn down(&self, domain: u32, selector: u32) -> Result<Deed, Status>
        ensures row { result ≡ sm_ctrl (state_of self.now) 0 domain selector SmAction.Down }
        ensures fits { (ec : ℕ) → IfOk result (IsToBeDone (state_of self.now) ec) }
    {
        let sm = self.named(domain, ObjectType::Sm, Rights::DOWN, selector)?;
        Ok(match self.semaphores.peek_down(sm) {
            Down::Done => Deed::Downs { sm },
            Down::Blocked => Deed::Blocks { sm, until: None },
        })
    }

    /// The deadline of `ec` where it waits at the semaphore `sm` for `ticks` ticks after this turn.
    fn deadline_after(&self, ec: u32, sm: u32, ticks: u32) -> Deadline
        requires { IsCounted (state_of self.now) }
        ensures { result ≡ deadline_after (state_of self.now) ec sm ticks }
    {
        let cpu = self.processor(ec);
        Deadline {
            cpu,
            sm,
            at: self.times.clock(cpu) + 1 + ticks as u64,
        }
    }

    /// A down by `ec` of the semaphore that `selector` names, which waits for at most `ticks` ticks. `BadCap`
    /// where the capability names no semaphore with the right to down, `Timeout` at a counter of 0 without any
    /// tick.
    fn down_within(&self, ec: u32, domain: u32, selector: u32, ticks: u32) -> Result<Deed, Status>
        requires there { IsSome (context_at (state_of self.now) ec) }
        requires counted { IsCounted (state_of self.now) }
        ensures row { result ≡ sm_ctrl (state_of self.now) ec domain selector (SmAction.DownWithin ticks) }
        ensures fits { IfOk result (IsToBeDone (state_of self.now) ec) }
    {
        let sm = self.named(domain, ObjectType::Sm, Rights::DOWN, selector)?;
        match self.semaphores.peek_down(sm) {
            Down::Done => Ok(Deed::Downs { sm }),
            Down::Blocked if ticks == 0 => Err(Status::Timeout),
            Down::Blocked => Ok(Deed::Blocks {
                sm,
                until: Some(self.deadline_after(ec, sm, ticks)),
            }),
        }
    }

    /// `SM_CTRL` of `ec`: an up or a down of the semaphore that `selector` names.
    pub(crate) fn sm_ctrl(
        &self,
        ec: u32,
        domain: u32,
        selector: u32,
        action: SmAction,
    ) -> Result<Deed, Status>
        requires there { IsSome (context_at (state_of self.now) ec) }
        requires counted { IsCounted (state_of self.now) }
        ensures row { result ≡ sm_ctrl (state_of self.now) ec domain selector action }
        ensures fits { IfOk result (IsToBeDone (state_of self.now) ec) }
    {
        match action {
            SmAction::Up => self.up(domain, selector),
            SmAction::Down => self.down(domain, selector),
            SmAction::DownWithin(ticks) => self.down_within(ec, domain, selector, ticks),
        }
    }
}

ghost use Rattle.std.specs.Prelude.{◌≡◌, max, slice_get, IfOk, OnOk, OnErr, option_map};
ghost use Rattle.nova_model.specs.State.{entry, transfer_at};
ghost use Rattle.nova_model.specs.Semaphores.{semaphore};

use crate::kernel::Kernel;
use nova_model::Transfer;
use nova_utcb::Utcb;
use std::alloc::{AllocError, Global};

impl Kernel {
    /// Makes room for `bytes` more bytes in the console log, so for as many turns. Room that was made before stays. The state
    /// stays as it was.
    pub fn reserve_log(&mut self, bytes: usize) -> Result<(), AllocError>
        ensures ok { OnOk result (self.new ≡ record self.old { room = max self.old.room bytes }) }
        ensures err { OnErr result (self.new ≡ self.old) }
    {
        self.parts.reach.reserve_log(bytes)
    }

    /// The message words of the thread `ec`; none where no thread has the number.
    pub fn words(&self, ec: u32) -> Option<&Utcb>
        ensures { option_map (λ words. words.now) result ≡ entry (slice_get self.now.state.messages ec) }
    {
        self.parts.reach.words(ec)
    }

    /// The execution contexts that wait at the semaphore `sm`, in the order in which they came; none where no semaphore has the number.
    pub fn queue(&self, alloc: Global, sm: u32) -> Result<Vec<u32>, AllocError>
        ensures { IfOk result (λ queue. queue.items ≡ (semaphore self.now.state.semaphores sm).waiting) }
    {
        self.parts.semaphores.queue(alloc, sm)
    }

    /// The identifier of the portal `pt`; none where no portal has the number.
    pub fn identifier(&self, pt: u32) -> Option<u32>
        ensures { result ≡ entry (slice_get self.now.state.identifiers pt) }
    {
        *self.parts.identifiers.get(pt as usize)?
    }

    /// How far the execution context `ec` is with the items that it gives; none where no execution context has the number.
    pub fn transfer(&self, ec: u32) -> Option<Transfer>
        ensures { result ≡ transfer_at self.now.state ec }
    {
        *self.parts.transfers.get(ec as usize)?
    }
}

ghost use Rattle.std.specs.Prelude.{◌≡◌, IfOk};

use crate::cell::Cells;
use crate::map::Maps;
use rv_model::Regs;
use std::alloc::AllocError;

/// What a guest does next.
#[derive(Clone, Copy)]
pub enum GuestState {
    /// It has not raised its startup exit.
    Fresh,
    /// It executes the instruction at pc.
    Ready,
    /// It raised an exit, which is not sent.
    Exit { reason: u32, q0: u32, q1: u32 },
    /// Its exit was sent, and no reply has come.
    Waiting,
    /// It ended.
    Dead,
}

/// A virtual CPU by itself: its registers, what it does next, whether a recall is asked for, and the
/// memory that it reaches. It knows of no kernel, no other execution context and no scheduler.
#[derive(Drop)]
pub struct Guest {
    pub regs: Regs,
    pub state: GuestState,
    pub recall: bool,
    pub maps: Maps,
    /// The RAM frames that the maps lead to; a frame without a cell is a console.
    pub cells: Cells,
}

impl Guest {
    /// Copies the guest into memory of its own.
    pub fn copy(&self) -> Result<Guest, AllocError>
        ensures { IfOk result (λ copy. copy ≡ self.now) }
    {
        Ok(Guest {
            regs: self.regs,
            state: self.state,
            recall: self.recall,
            maps: self.maps.copy()?,
            cells: self.cells.copy()?,
        })
    }
}

use crate::bytes::Bytes;
use nova_range::{Mtd, Rights};

/// What a turn is for a guest.
#[derive(Drop)]
pub enum Input {
    /// It acts: it raises its startup exit or a recall, or executes an instruction.
    Own,
    /// A reply to its exit names groups of registers. The words are pc, a word that is 0, and x1 to x31;
    /// those of groups that aren't named are 0.
    Reply(Mtd, [u32; 33]),
    /// A recall is asked for.
    Recall,
    /// Its domain is given `2^order` pages from `base` on, which lead to the frames from `frame` on. The
    /// contents are those of the frames, one after another; there are none where the frame is a console.
    Given {
        base: u32,
        order: u8,
        rights: Rights,
        frame: u32,
        contents: Bytes,
    },
    /// The map of this base and order is taken from its domain.
    Taken {
        base: u32,
        order: u8,
    },
    /// Another stores the lowest `width` bytes of a value to a frame.
    Foreign {
        frame: u32,
        offset: u32,
        width: u32,
        value: u32,
    },
    /// Its exit is sent.
    Sent,
    /// Its exit finds no handler, or the handler ends, so that it ends.
    Died,
}

/// What a guest puts out.
#[derive(Clone, Copy)]
pub enum Out {
    /// An exit that it raises, by reason and two qualifications.
    Exit { reason: u32, q0: u32, q1: u32 },
    /// A byte that it stores to a console's frame.
    Byte { frame: u32, value: u8 },
}

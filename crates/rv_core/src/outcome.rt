/// What a step comes to: on to the next instruction, or a raise with its reason and two words that
/// say more of it.
#[derive(Clone, Copy, Debug, PartialEq, Eq)]
pub enum Outcome {
    Next,
    Raise { reason: u32, q0: u32, q1: u32 },
}

/// The word is no instruction; q0 is the word.
pub const ILLEGAL: u32 = 1;

/// There is nothing to execute at pc; q0 is pc.
pub const FETCH_FAULT: u32 = 2;

/// There is nothing to read at the address; q0 is the address, q1 the width.
pub const LOAD_FAULT: u32 = 3;

/// There is nothing to write at the address; q0 is the address, q1 the width.
pub const STORE_FAULT: u32 = 4;

/// An address isn't a multiple of its width; q0 is the address, q1 is 0 for pc and the target of a
/// jump, 1 for a load and 2 for a store.
pub const MISALIGNED: u32 = 5;

/// An environment call.
pub const ENVIRONMENT_CALL: u32 = 6;

/// A breakpoint.
pub const BREAKPOINT: u32 = 7;

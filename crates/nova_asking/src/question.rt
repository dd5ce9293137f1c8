ghost use Rattle.std.specs.Prelude.{◌≡◌, ◌+◌, ◌≤◌, IfOk, drop, length, nat_eq, slice_get};
ghost use Rattle.byteorder.specs.Endian.{little_number};
ghost use Rattle.std.specs.List.{starts_with};
ghost use Rattle.nova_asking.specs.Questions.{has_word, named, shown};

use crate::aim::Aim;
use crate::bytes::Bytes;
use crate::contexts::{is_dead, is_left, some_is_dead, some_other_is_dead, some_waits};
use crate::locations::{some_is_at, two_are_at};
use crate::stores::some_stores;
use nova_guest::words::read_word;
use nova_kernel::{Kernel, LogByte};
use nova_search::Goal;
use std::alloc::{AllocError, Global};

/// An address of a protection domain.
#[derive(Clone, Copy)]
pub struct Location {
    pub pd: u32,
    pub address: u32,
}

/// What is asked of the states that a kernel comes to.
#[derive(Drop)]
pub enum Question {
    /// Whether a console shows these bytes first.
    Console { console: u32, bytes: Bytes },

    /// Whether the word at an offset of a RAM frame has this value. The offset is at most 4,092.
    Word { frame: u32, offset: u32, value: u32 },

    /// Whether a processor is about to execute the instruction at a location.
    At { location: Location },

    /// Whether a processor is about to execute the instruction at a location, and another one that at a second location.
    AtBoth { first: Location, second: Location },

    /// Whether a processor is about to execute an instruction that stores to one of these bytes of a RAM frame.
    Stores { frame: u32, first: u32, last: u32 },

    /// Whether the run ends while an execution context waits at a semaphore.
    Blocked,

    /// Whether an execution context dies.
    Dies,

    /// Whether the execution context of this number dies.
    DiesOf { ec: u32 },

    /// Whether an execution context of another number dies.
    DiesBut { ec: u32 },

    /// Whether the run ends while the execution context of this number is there, and not dead.
    Stuck { ec: u32 },

    /// Whether a run can hang: no order of at most so many turns more leads on to what is aimed at.
    Hangs { turns: u32, aim: Aim },

    /// Whether the run ends.
    Ends,
}

/// The bytes that a console shows.
fn shown(alloc: Global, log: &[LogByte], console: u32) -> Result<Vec<u8>, AllocError>
    ensures { IfOk result (λ bytes. bytes.items ≡ shown console log.now) }
{
    let mut bytes = Vec::new(alloc);
    for byte in log {
        if byte.console == console {
            bytes.push(byte.value)?;
        }
    }
    Ok(bytes)
}

/// Whether a console shows these bytes first.
fn shows(alloc: Global, kernel: &Kernel, console: u32, bytes: &[u8]) -> Result<bool, AllocError>
    ensures { IfOk result (λ is. is ≡ starts_with nat_eq (shown console kernel.now.state.memory.log) bytes.now) }
{
    let shown = shown(alloc, kernel.log(), console)?;
    Ok(shown.starts_with(bytes))
}

/// The word at an offset of a frame, the lowest byte first.
fn word_at(bytes: &[u8], offset: u32) -> u32
    requires { offset + 4 ≤ length bytes.now }
    ensures { result ≡ little_number 4 (drop offset bytes.now) }
{
    read_word(&bytes[offset as usize..], 4)
}

/// Whether a RAM frame is there, and has this word at an offset.
fn has_word(kernel: &Kernel, frame: u32, offset: u32, value: u32) -> bool
    requires { offset + 4 ≤ 4096 }
    ensures { result ≡ has_word (slice_get kernel.now.state.memory.ram frame) offset value }
{
    if frame >= kernel.ram() {
        return false;
    }
    word_at(kernel.frame(frame), offset) == value
}

impl Goal for Question {
    ghost use Rattle.nova_asking.specs.Questions.{IsOfState, is_so};

    ghost apt = { IsOfState };

    ghost met = { is_so };

    /// Whether the state of a kernel is what is asked for.
    #[tactic(auto, unfolding(crate::specs::Questions::is_so))]
    fn is_met(&self, alloc: Global, kernel: &Kernel) -> Result<bool, AllocError> {
        match self {
            Question::Console { console, bytes } => shows(
                alloc,
                kernel,
                *console,
                bytes.as_slice(),
            ),
            Question::Word {
                frame,
                offset,
                value,
            } => Ok(has_word(kernel, *frame, *offset, *value)),
            Question::At { location } => Ok(some_is_at(kernel, *location)),
            Question::AtBoth { first, second } => Ok(two_are_at(kernel, *first, *second)),
            Question::Stores { frame, first, last } => some_stores(kernel, *frame, *first, *last),
            Question::Blocked => Ok(kernel.quiet() && some_waits(kernel)),
            Question::Dies => Ok(some_is_dead(kernel)),
            Question::DiesOf { ec } => Ok(is_dead(kernel, *ec)),
            Question::DiesBut { ec } => Ok(some_other_is_dead(kernel, *ec)),
            Question::Stuck { ec } => Ok(kernel.quiet() && is_left(kernel, *ec)),
            Question::Hangs { .. } => unreachable!(),
            Question::Ends => Ok(kernel.quiet()),
        }
    }
}

impl Question {
    /// The execution context that a question names.
    pub(crate) fn named(&self) -> Option<u32>
        ensures { result ≡ named self.now }
    {
        match self {
            Question::DiesOf { ec } | Question::DiesBut { ec } | Question::Stuck { ec } => Some(
                *ec,
            ),
            Question::Hangs { aim, .. } => aim.named(),
            Question::Console { .. }
            | Question::Word { .. }
            | Question::At { .. }
            | Question::AtBoth { .. }
            | Question::Stores { .. }
            | Question::Blocked
            | Question::Dies
            | Question::Ends => None,
        }
    }
}

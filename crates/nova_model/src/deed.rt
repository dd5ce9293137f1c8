use crate::context::Mark;
use crate::delegation::Derivation;
use crate::new_object::NewObject;
use crate::times::Deadline;
use crate::transfer::{ItemEnd, ItemWords, Reason, Sequel};
use nova_range::{Mtd, Range, Status};

/// What an execution context does in its turn; how it was decided is not told. All that the turn does to others
/// is in it, but for the store of an instruction: `Steps` stands for the instruction at pc, whatever it is.
#[derive(Clone, Copy)]
pub enum Deed {
    /// Nothing: it isn't about to act.
    Rests,
    /// The instruction at pc goes on.
    Steps,
    /// It raises an exit, by reason and two qualifications.
    Raises {
        reason: u32,
        q0: u32,
        q1: u32,
    },
    /// It ends at an exit for which no handler is found.
    Dies {
        reason: u32,
        q0: u32,
    },
    /// Its exit found this handler busy, and waits for it.
    Waits {
        handler: u32,
        reason: u32,
        q0: u32,
        q1: u32,
    },
    /// Its exit is sent to a handler, which begins at an instruction pointer with a portal's identifier,
    /// and finds the exit's message by a descriptor.
    Sends {
        handler: u32,
        ip: u32,
        identifier: u32,
        mtd: Mtd,
        reason: u32,
        q0: u32,
        q1: u32,
    },
    /// Its hypercall is refused.
    Refuses {
        call: u32,
        status: Status,
    },
    /// Its hypercall makes an object, with a capability at a selector.
    Makes {
        call: u32,
        target: u32,
        new: NewObject,
    },
    /// Its hypercall asks for the recall of an execution context.
    Recalls {
        ec: u32,
    },
    /// Its hypercall is told a number.
    Tells {
        call: u32,
        value: u32,
    },
    /// Its hypercall gives a portal an identifier.
    Names {
        pt: u32,
        identifier: u32,
    },
    /// Its hypercall makes a protection domain of this number, with a capability at a selector, and
    /// goes on by giving it a first range.
    Opens {
        target: u32,
        domain: u32,
    },
    /// It gives a part of an item: it makes a child, and the cursor moves.
    Gives {
        child: Derivation,
        cursor: u32,
    },
    /// It skips a part of an item, whose overlap with what is given begins at a place, and the cursor
    /// moves.
    Skips {
        reason: Reason,
        place: u32,
        cursor: u32,
    },
    /// An item, of this index, ended. Its two words are written where they are to be found, and then
    /// the next item follows, or what ends it all.
    Finishes {
        item: u32,
        end: ItemEnd,
        words: Option<ItemWords>,
        after: Sequel,
    },
    /// Its call is sent to a handler, which begins at an instruction pointer with a portal's identifier,
    /// or takes the items of the call first.
    Calls {
        handler: u32,
        ip: u32,
        identifier: u32,
        items: bool,
    },
    /// Its call found this handler busy, which it helps.
    Helps {
        handler: u32,
    },
    /// It replies to its caller, which came by a call or by an exit, and gives the items of the reply first where there are any.
    Replies {
        caller: u32,
        mark: Mark,
        items: bool,
    },
    /// The handler for which it waits is dead: its call ends, or it ends by its exit.
    Aborts {
        handler: u32,
        mark: Mark,
    },
    /// Its hypercall begins a revoke of a range; with `own` the domain's own derivations inside it go too.
    Revokes {
        range: Range,
        own: bool,
    },
    /// Its revoke takes away one derivation, which has no child.
    Removes {
        leaf: Derivation,
    },
    /// Its revoke returns: nothing is left of what it takes away.
    Returns,
    /// Its up of a semaphore wakes the first that waits there, or raises the counter where none waits.
    Ups {
        sm: u32,
        woken: Option<u32>,
    },
    /// Its down of a semaphore lowers the counter.
    Downs {
        sm: u32,
    },
    /// Its down of a semaphore whose counter is 0: it waits there, to a deadline or without one.
    Blocks {
        sm: u32,
        until: Option<Deadline>,
    },
}

use crate::context::Mark;
use nova_range::{Kind, Rights};

/// A delegation item that is being given: what is left of it. Source and destination are places of
/// this kind, `2^order` from a multiple of `2^order` on, with `order` at most 20.
#[derive(Clone, Copy)]
pub struct Job {
    /// The protection domain that gives.
    pub giver: u32,
    /// The protection domain that is given to.
    pub receiver: u32,
    pub kind: Kind,
    /// The first place that is given, in the giver's space.
    pub source: u32,
    /// The first place that it is given at, in the receiver's space.
    pub dest: u32,
    pub order: u8,
    /// The rights that are given, of those that are there.
    pub rights: Rights,
    /// Derivations of the giver that begin before this place are not given any more.
    pub cursor: u32,
}

/// Why an item is skipped as a whole, in the order in which it is asked.
#[derive(Clone, Copy)]
pub enum Skip {
    /// The item's range word or the window doesn't read, or is null.
    Empty,
    /// The two are of different types.
    Window,
}

/// Why a part of an item is skipped, in the order in which it is asked.
#[derive(Clone, Copy)]
pub enum Reason {
    /// No right is left.
    Rights,
    /// The receiver holds one of the places.
    Taken,
    /// It would add to what is being revoked, or hold a place that its own domain is revoking.
    Busy,
}

/// How far an execution context that gives items is: the present item's index, the cursor in it, and
/// the children that were made of it. Cursor and children are 0 at the beginning of each item, and the
/// index too at the beginning and after the last.
#[derive(Clone, Copy)]
pub struct Transfer {
    pub item: u32,
    pub cursor: u32,
    pub children: u32,
}

/// How an item ended.
#[derive(Clone, Copy)]
pub enum ItemEnd {
    /// Nothing is left of a delegation, of which this many children were made.
    Given(u32),
    /// A delegation was skipped as a whole.
    Skipped(Skip),
    /// A translation was answered by a range word, or by 0.
    Translated(u32),
}

/// The two words of an item that ended, and the execution context into whose message words they are
/// written.
#[derive(Clone, Copy)]
pub struct ItemWords {
    pub ec: u32,
    pub first: u32,
    pub second: u32,
}

/// What follows an item that ended.
#[derive(Clone, Copy)]
pub enum Sequel {
    /// The next item.
    Item,
    /// The call that made a protection domain ends.
    Opened,
    /// A handler has taken the items of a call.
    Taken,
    /// The reply to this caller, which came by a call or by an exit, completes.
    Replied(u32, Mark),
}

/// The present item of an execution context that gives items, and where it goes.
#[derive(Clone, Copy)]
pub struct Delivery {
    /// The item: a range word, and the word of its hotspot and its flag.
    pub range_word: u32,
    pub second_word: u32,
    /// The protection domain that gives.
    pub giver: u32,
    /// The protection domain that is given to.
    pub receiver: u32,
    /// The windows, as range words, of translations and of delegations.
    pub translations: u32,
    pub delegations: u32,
    /// The execution context that finds in its message words what came of an item; none for a first range, and for a reply to an exit.
    pub told: Option<u32>,
    /// How many items there are.
    pub items: u32,
    /// What follows the last of them.
    pub last: Sequel,
}

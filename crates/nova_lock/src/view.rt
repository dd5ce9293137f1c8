use std::collections::LinkedList;

/// Where a seat is in a use of the lock.
#[derive(Clone, Copy)]
pub enum Phase {
    /// It uses the lock no more, or not yet.
    Idle,

    /// It has a ticket that was not served.
    Waiting,

    /// Its ticket is served, and it has the value in hand.
    Called,

    /// It gave the value back, and owes a look at how many tickets were drawn.
    Passed,

    /// Seat 0 took it in.
    Spent,
}

/// What a seat knows. It lives in proofs alone, and no value of it is made: a number of it is any number, without a bound.
pub struct View<T> {
    pub phase: Phase,

    /// The number that its entries have.
    pub number: u64,

    /// The ticket that it drew last.
    pub ticket: u64,

    /// The history of the value as it took it last.
    pub found: LinkedList<u64>,

    /// The history as its last use left it.
    pub front: LinkedList<u64>,

    /// How many tickets it saw drawn when it looked last, modulo 2^64.
    pub drawn: u64,

    /// The value that the lock was made of.
    pub opened: Option<T>,

    /// Of seat 0: how many seats were made.
    pub made: u64,

    /// Of seat 0: the numbers and fronts of the seats that it took in.
    pub kept: LinkedList<(u64, LinkedList<u64>)>,
}

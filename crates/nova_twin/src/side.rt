use nova_guest::{Guest, Input, Out};

/// A virtual CPU of a run, followed from its birth.
#[derive(Drop)]
pub struct Side {
    /// Its view right after the turn that made it.
    pub start: Guest,
    /// What the turns from there on were for it, in order.
    pub inputs: Vec<Input>,
    /// Its view at the end of the run.
    pub end: Guest,
    /// What it put out, in order.
    pub outs: Vec<Out>,
}

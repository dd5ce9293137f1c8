/// Turns of one processor, one after another.
#[derive(Clone, Copy, Debug, PartialEq, Eq)]
pub struct Block {
    /// The processor, from 0.
    pub cpu: u32,

    /// How many turns.
    pub count: u64,
}

/// What the block of an image holds.
#[derive(Drop)]
pub struct Block {
    /// The bytes of its words.
    pub bytes: Vec<u8>,

    /// The number of its line `end`, if it is there.
    pub end: Option<u64>,
}

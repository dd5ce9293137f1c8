/// The counts of a message exceed its data words: untyped words and two for each item come to more than 124.
#[derive(Clone, Copy, Debug)]
pub struct BadCounts;

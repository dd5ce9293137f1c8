/// What came of a source: how often it fired, and by how many ticks the latest of its firings was late.
#[derive(Clone, Copy)]
pub struct SourceLine {
    pub fired: u64,
    pub worst: u64,
}

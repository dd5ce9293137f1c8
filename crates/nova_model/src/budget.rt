/// What changes in a scheduling context: turns left of its quantum, the stamp that orders it among its equals,
/// and its ticks, the turns that it paid for.
#[derive(Clone, Copy)]
pub struct Budget {
    pub left: u32,
    pub stamp: u64,
    pub ticks: u64,
}

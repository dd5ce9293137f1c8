use nova_model::Budget;

/// A scheduling context as it waits for turns: its processor, priority (255 is the greatest), quantum in turns
/// and budget. It is runnable where the turns that it gets lead to an execution context that acts.
#[derive(Clone, Copy)]
pub struct Queued {
    pub cpu: u32,
    pub priority: u8,
    pub quantum: u32,
    pub is_runnable: bool,
    pub budget: Budget,
}

/// A scheduling context that may have the next turn: its number, its priority and its stamp.
#[derive(Clone, Copy)]
pub struct Runnable {
    pub sc: u32,
    pub priority: u8,
    pub stamp: u64,
}

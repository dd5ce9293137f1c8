/// What became of a burst that was to be committed.
#[derive(Clone, Copy)]
pub enum CommitDone {
    /// Something came between: the stir counts that the lease keeps, and those of now.
    Dropped { kept: (u64, u64), now: (u64, u64) },
    /// Another execution context would act on the processor.
    Away { actor: u32 },
    /// More instructions ran than there is room for turns.
    NoRoom { left: u64 },
    /// This many turns were taken.
    Committed(u64),
}

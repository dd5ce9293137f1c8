/// A limit to the wait of an execution context of `cpu` at the semaphore `sm`: it goes on at a clock of `at`.
#[derive(Clone, Copy)]
pub struct Deadline {
    pub cpu: u32,
    pub sm: u32,
    pub at: u64,
}

/// An alarm: a semaphore is upped by a processor, at a moment of its clock and then again after each period, `count` times.
#[derive(Clone, Copy)]
pub struct Alarm {
    pub cpu: u32,
    pub sm: u32,
    pub first: u64,
    pub period: u64,
    pub count: u64,
}

/// An alarm, with its next moment, and how often it has rung.
#[derive(Clone, Copy)]
pub struct AlarmState {
    pub alarm: Alarm,
    pub next: u64,
    pub rings: u64,
}

/// What is due on a processor: an alarm by its number, or the deadline of an execution context.
#[derive(Clone, Copy)]
pub enum Due {
    Alarm(u32),
    Deadline(u32),
}

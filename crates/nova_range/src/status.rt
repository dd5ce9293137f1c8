ghost use Rattle.std.specs.Prelude.{◌≡◌};
ghost use Rattle.nova_range.specs.Statuses.{status_code};

/// How a hypercall ended.
#[derive(Clone, Copy)]
pub enum Status {
    Success = 0,
    /// The handler was busy, and the caller didn't want to wait.
    Timeout = 1,
    /// The handler is dead, or the call would wait for its own caller.
    Aborted = 2,
    /// The semaphore's counter has no number above.
    Overflow = 3,
    /// No hypercall has the number.
    BadHyp = 4,
    /// A capability or a right is missing, or the selector is taken.
    BadCap = 5,
    /// An argument is outside its range.
    BadPar = 6,
    /// There is no such processor, or the handler lies on another.
    BadCpu = 7,
    /// A revoke is under way where something would be added.
    Busy = 8,
}

impl Status {
    /// The number that a caller finds in x10, 0 to 8.
    pub fn code(self) -> u32
        ensures { result ≡ status_code self }
    {
        self as u32
    }
}

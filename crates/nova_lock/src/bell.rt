use crate::called::Historied;
use crate::lock::HistoryLock;

/// What the lock calls to wake threads that sleep. To the lock, which knows no bell, nothing but its call says that it was rung.
pub(crate) trait Bell {
    ghost use Rattle.std.specs.Prelude.{◌≢◌, ℕ};

    /// That it was rung for a ticket. A bell need not say what that means.
    ghost rung: { Self → ℕ → Type 0 } = { λ _ _. Unit {0} };

    /// Has each thread that sleeps until the ticket `served` is served look again. The next ticket to be drawn is `drawn`, modulo 2^64, not `served`.
    fn ring(&self, served: u64, drawn: u64)
        requires { drawn ≢ served }
        ensures { rung self.now served };
}

/// The bell of a lock: it wakes all that sleep.
#[derive(Drop)]
pub(crate) struct Waker<'a, T: Historied> {
    pub(crate) lock: &'a HistoryLock<T>,
}

impl<'a, T: Historied> Bell for Waker<'a, T> {
    fn ring(&self, _served: u64, _drawn: u64) {
        self.lock.wake();
    }
}

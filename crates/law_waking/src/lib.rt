//! Laws of waking: the calls of the ticket lock lose no wake-up, in whatever order threads make them. The functions do nothing: their
//! contracts are the laws.
#![tactic(auto)]

ghost use Rattle.std.specs.Prelude.{◌≡◌, ◌≢◌, ℕ, List};
ghost use Rattle.law_waking.specs.Lock.{HasAwake, IsOwed, Move, Outside, Sleeps, after, begun};

/// After any moves of any number of threads, if a thread sleeps while its ticket is served, some thread is about to wake all. And if a thread uses
/// the lock, some thread that does is awake. So the lock has no deadlock, given that a wake ends each sleep.
pub fn no_wake_up_is_lost()
    ensures owed { (moves : List Move) (i t found : ℕ) → (after begun moves).places i ≡ Sleeps t found → (after begun moves).serving ≡ t → IsOwed (after begun moves) }
    ensures awake { (moves : List Move) (i : ℕ) → (after begun moves).places i ≢ Outside → HasAwake (after begun moves) }
{}

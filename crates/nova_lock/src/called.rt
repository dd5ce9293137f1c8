ghost use Rattle.std.specs.Prelude.{◌≡◌, ◌+◌, ◌%◌, ◌^◌, List, ℕ};
ghost use Rattle.nova_lock.specs.History.{Adds};

/// A value that has an opening, which no use changes, and a history, whose entries are the numbers of the seats that added them.
pub trait Historied {
    /// What an opening is. No value of it need be made.
    type Opening;

    /// What the value began as.
    ghost opening: { Self → Self.Opening };

    /// The entries that were added, in order.
    ghost history: { Self → List ℕ };

    /// How many uses there were, modulo 2^64.
    ghost uses: { Self → ℕ };

    /// How many uses there were, modulo 2^64.
    fn blocks(&self) -> u64
        ensures { result ≡ uses self.now };
}

/// What is done in one use of a lock.
pub trait LockCall<T: Historied> {
    /// What it answers.
    type Out;

    /// The number of the seat for which it acts.
    ghost number: { Self → ℕ };

    /// Whether it may be done on a value of this opening and this history.
    ghost ready: { Self → T.Opening → List ℕ → Type 0 };

    /// What it does: under an opening, the call before, the history that it finds, the history that it leaves, the call after, and the
    /// answer.
    ghost did: { T.Opening → Self → List ℕ → List ℕ → Self → Self.Out → Type 0 };

    /// Does it on a value: it adds entries of its seat alone, keeps the opening, and counts one use.
    fn act(&mut self, value: &mut T) -> Self::Out
        requires { ready self.old (T.opening value.old) (T.history value.old) }
        ensures did { did (T.opening value.old) self.old (T.history value.old) (T.history value.new) self.new result }
        ensures opening { T.opening value.new ≡ T.opening value.old }
        ensures uses { T.uses value.new ≡ (T.uses value.old + 1) % 2 ^ 64 }
        ensures entries { Adds (number self.old) (T.history value.old) (T.history value.new) };
}

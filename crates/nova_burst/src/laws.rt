//! Laws of the definitions that the contracts of this crate cite. The functions do nothing: their contracts are the laws.

ghost use Rattle.std.specs.Prelude.{◌≡◌, ◌≢◌, ℕ, ◌<◌, ◌≤◌, Some, None};
ghost use Rattle.nova_burst.specs.Lending.{turns_of};
ghost use Rattle.law_leases.specs.Commits.{LeaseRun, commit_done, stirs_now};
ghost use Rattle.law_leases.specs.declared.commit.CommitDone.TheVariants.{Away, Committed, Dropped, NoRoom};
ghost use Rattle.nova_model.specs.Choice.{Candidate, choice};
ghost use Rattle.nova_model.specs.State.{KernelState};

/// A commit answers Dropped, where a stir count isn't that which the lease keeps, with those two and the two of now; else Away, where another would
/// act, with its number, and 0 where none would; else NoRoom, where the lease ran more turns than there is room for, with that room; else Committed,
/// with how many it ran. Only Committed stands for turns.
pub fn commits_tell_these_numbers()
    ensures dropped { (k : KernelState) (l : LeaseRun) (left : ℕ) → l.kept ≢ stirs_now k l.guest l.cpu → commit_done k l left ≡ Dropped l.kept (stirs_now k l.guest l.cpu) }
    ensures nobody { (k : KernelState) (l : LeaseRun) (left : ℕ) → l.kept ≡ stirs_now k l.guest l.cpu → choice k l.cpu ≡ None → commit_done k l left ≡ Away 0 }
    ensures away { (k : KernelState) (l : LeaseRun) (left : ℕ) (c : Candidate) → l.kept ≡ stirs_now k l.guest l.cpu → choice k l.cpu ≡ Some c → c.actor ≢ l.guest →
        commit_done k l left ≡ Away c.actor }
    ensures no_room { (k : KernelState) (l : LeaseRun) (left : ℕ) (c : Candidate) → l.kept ≡ stirs_now k l.guest l.cpu → choice k l.cpu ≡ Some c → c.actor ≡ l.guest →
        left < l.steps.count → commit_done k l left ≡ NoRoom left }
    ensures committed { (k : KernelState) (l : LeaseRun) (left : ℕ) (c : Candidate) → l.kept ≡ stirs_now k l.guest l.cpu → choice k l.cpu ≡ Some c → c.actor ≡ l.guest →
        l.steps.count ≤ left → commit_done k l left ≡ Committed l.steps.count }
    ensures turns { (left other n : ℕ) (kept now : ℕ × ℕ) → (turns_of (Dropped kept now) ≡ 0) × (turns_of (Away other) ≡ 0) × (turns_of (NoRoom left) ≡ 0)
        × (turns_of (Committed n) ≡ n) }
{}

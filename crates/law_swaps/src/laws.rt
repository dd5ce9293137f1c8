ghost use Rattle.std.specs.Prelude.{◌≡◌, ◌≢◌, ℕ, true};
ghost use Rattle.nova_model.specs.Runs.{after};
ghost use Rattle.nova_model.specs.State.{KernelState};
ghost use Rattle.law_turns.specs.Keeping.{IsKept};
ghost use Rattle.law_isolation.specs.Sound.{IsSound};
ghost use Rattle.law_alike.specs.Alike.{AreStampsGiven, IsAlike, TellsNoTicks};
ghost use Rattle.law_swaps.specs.Touches.{AreSwapped, IsPlain, IsTouched, ReadsWithin, Touch, are_apart, frames_read};

/// A plain step of a processor and a turn of another that is apart from it may change places: the states after both are alike, each turn touches no more
/// than before, and answers what it answered. So it is of any turn that tells no ticks, from a sound state; and of two plain steps also where delegations
/// are not known to be a forest.
pub fn turns_that_are_apart_change_places()
    ensures any { (k : KernelState) (p q : ℕ) (a b : Touch)
        → IsSound k → AreStampsGiven k → p ≢ q
        → IsTouched k p a → IsTouched (after k p) q b
        → TellsNoTicks (after k p) q → are_apart p a b ≡ true
        → AreSwapped k p q a b }
    ensures plain { (k : KernelState) (p q : ℕ) (a b : Touch)
        → IsKept k → AreStampsGiven k → p ≢ q
        → IsTouched k p a → IsTouched (after k p) q b
        → b.is_plain ≡ true → are_apart p a b ≡ true
        → AreSwapped k p q a b }
{}

/// In alike states the turn of a processor touches the same, unless it tells ticks.
pub fn alike_states_touch_alike()
    ensures { (k l : KernelState) (cpu : ℕ) (t : Touch)
        → IsKept k → IsKept l → AreStampsGiven k → AreStampsGiven l
        → IsAlike k l → TellsNoTicks k cpu
        → IsTouched k cpu t → IsTouched l cpu t }
{}

/// An instruction of an execution context reads two frames at most: that which it is fetched from, and that which it loads from.
pub fn instructions_read_their_frames()
    ensures { (k : KernelState) (ec : ℕ) → ReadsWithin k ec (frames_read k ec) }
{}

/// A plain step tells no ticks; and a turn that tells none tells none in alike states.
pub fn plain_steps_tell_no_ticks()
    ensures plain { (k : KernelState) (cpu : ℕ) → IsPlain k cpu → TellsNoTicks k cpu }
    ensures alike { (k l : KernelState) (cpu : ℕ) → IsAlike k l → TellsNoTicks k cpu → TellsNoTicks l cpu }
{}

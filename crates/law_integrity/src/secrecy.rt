// Laws of secrecy: what bytes tell no context that doesn't reach them.
ghost use Rattle.std.specs.Prelude.{◌≡◌, ℕ, List};
ghost use Rattle.nova_model.specs.Runs.{after, run, trace};
ghost use Rattle.nova_model.specs.State.{KernelState, pd_of};
ghost use Rattle.law_origins.specs.Giving.{Acts};
ghost use Rattle.law_integrity.specs.Secrecy.{IsHidden, IsHiddenAlong, with_bytes};

/// A turn is the same whatever bytes a frame has to which no page of its actor's domain leads. Take any state, and the same state with other bytes in
/// one frame, which no page of the domain of the context whose turn it is leads to with a right. A turn of the same processor in both leaves the same
/// states again, but for the bytes of that frame, which stay in each. So over any list of turns in which the frame is hidden from the domain of each
/// context that acts; and the events of these turns are the same.
pub fn hidden_bytes_tell_nothing()
    ensures turn { (k : KernelState) (cpu frame : ℕ) (bytes : List ℕ)
        → ((ec : ℕ) → Acts k cpu ec → IsHidden k (pd_of k ec) frame)
        → after (with_bytes k frame bytes) cpu ≡ with_bytes (after k cpu) frame bytes }
    ensures turns { (k : KernelState) (turns : List ℕ) (frame : ℕ) (bytes : List ℕ)
        → IsHiddenAlong k turns frame
        → run (with_bytes k frame bytes) turns ≡ with_bytes (run k turns) frame bytes }
    ensures events { (k : KernelState) (turns : List ℕ) (frame : ℕ) (bytes : List ℕ)
        → IsHiddenAlong k turns frame
        → trace (with_bytes k frame bytes) turns ≡ trace k turns }
{}

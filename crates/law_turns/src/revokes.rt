// Laws of revokes that run.
ghost use Rattle.std.specs.Prelude.{◌≡◌, ◌≤◌, ℕ, Bool, length, true};
ghost use Rattle.nova_range.specs.declared.range.Range.{Range};
ghost use Rattle.nova_model.specs.Choice.{next_to_act};
ghost use Rattle.nova_model.specs.Deeds.{deed, done};
ghost use Rattle.nova_model.specs.Edges.{acts};
ghost use Rattle.nova_model.specs.Running.{revoke_of, running};
ghost use Rattle.nova_model.specs.Runs.{after};
ghost use Rattle.nova_model.specs.State.{KernelState};
ghost use Rattle.nova_model.specs.declared.deed.Deed.TheVariants.{Returns, Revokes};
ghost use Rattle.law_turns.specs.Keeping.{IsKept};
ghost use Rattle.law_turns.specs.Revoking.{AsksRevoke, HasRevoked, revoke_after, revoke_in_turn, running_after};

/// An execution context that begins a revoke asks for it by a hypercall of its registers, and ran none. It runs
/// until it returns, which it does when nothing is left of what it takes away. From any state in which tables
/// go with objects and callers stay with the contexts that serve them, nothing else begins a revoke or ends
/// one: a deed, and a turn, leaves the revokes of all others as they were. And no execution context goes away.
pub fn running_revokes_are_their_runners()
    ensures deeds { (k : KernelState) (ec : ℕ) → IsKept k → acts k.contexts ec ≡ true
        → (e : ℕ) → revoke_of (done k ec (deed k ec)) e ≡ revoke_after k ec (deed k ec) e }
    ensures all { (k : KernelState) (ec : ℕ) → IsKept k → acts k.contexts ec ≡ true
        → running (done k ec (deed k ec)) ≡ running_after k ec (deed k ec) }
    ensures longer { (k : KernelState) (ec : ℕ) → IsKept k → acts k.contexts ec ≡ true
        → length k.contexts ≤ length (done k ec (deed k ec)).contexts }
    ensures turns { (k : KernelState) (cpu : ℕ) → IsKept k → (e : ℕ) → revoke_of (after k cpu) e ≡ revoke_in_turn k (next_to_act k cpu) e }
    ensures begins { (k : KernelState) (ec : ℕ) (range : Range) (own : Bool) → deed k ec ≡ Revokes range own → AsksRevoke k ec range own }
    ensures returns { (k : KernelState) (ec : ℕ) → deed k ec ≡ Returns → HasRevoked k ec }
{}

ghost use Rattle.std.specs.Prelude.{◌≡◌, ◌≢◌, ℕ, ◌+◌, ◌^◌, ◌≤◌, ◌<◌, max, Bool, true, false, List, Option, Some, None, Ok, Err};
ghost use Rattle.nova_model.specs.Deeds.{deed};
ghost use Rattle.nova_model.specs.Delegations.{is_held_in, range_of};
ghost use Rattle.nova_model.specs.State.{KernelState};
ghost use Rattle.nova_model.specs.Transfers.{judged};
ghost use Rattle.nova_model.specs.declared.deed.Deed.TheVariants.{Finishes, Gives, Skips};
ghost use Rattle.nova_model.specs.declared.delegation.Derivation.{Derivation};
ghost use Rattle.nova_model.specs.declared.transfer.ItemEnd.TheVariants.{Given, Skipped, Translated};
ghost use Rattle.nova_model.specs.declared.transfer.ItemWords.{ItemWords};
ghost use Rattle.nova_model.specs.declared.transfer.Reason.{Reason};
ghost use Rattle.nova_model.specs.declared.transfer.Reason.TheVariants as reason;
ghost use Rattle.nova_model.specs.declared.transfer.Sequel.{Sequel};
ghost use Rattle.nova_model.specs.declared.transfer.Skip.{Skip};
ghost use Rattle.law_rows.specs.Parts.{HasBit, IsPart};

/// Only an item whose second word has bit 0 gives anything: one without it is translated, in one turn, and nothing is made of it. A part is
/// that of the derivation that is next, and the cursor goes right behind it, so that none between is left out.
pub fn only_delegations_give()
    ensures gives { (k : KernelState) (ec cursor : ℕ) (child : Derivation) → deed k ec ≡ Gives child cursor → (p : IsPart k ec cursor) × (child.parent ≡ Some p.source.id) }
    ensures skips { (k : KernelState) (ec place cursor : ℕ) (reason : Reason) → deed k ec ≡ Skips reason place cursor →
        (p : IsPart k ec cursor) × (place ≡ max p.source.base p.job.source) }
    ensures given { (k : KernelState) (ec item children : ℕ) (words : Option ItemWords) (after : Sequel) → deed k ec ≡ Finishes item (Given children) words after → HasBit k ec 1 }
    ensures skipped { (k : KernelState) (ec item : ℕ) (skip : Skip) (words : Option ItemWords) (after : Sequel) → deed k ec ≡ Finishes item (Skipped skip) words after →
        HasBit k ec 1 }
    ensures translated { (k : KernelState) (ec item word : ℕ) (words : Option ItemWords) (after : Sequel) → deed k ec ≡ Finishes item (Translated word) words after →
        HasBit k ec 0 }
{}

/// A part is skipped for the first reason that holds. These are: its child would have no right; then, its receiver holds a place of it; then, it is
/// busy for a revoke that runs. Where none holds it is made.
pub fn a_part_is_skipped_for_the_first_reason()
    ensures rights { (busy : Derivation → Bool) (list : List Derivation) (x : Derivation) → x.rights.0 ≡ 0 → judged busy list x ≡ Err reason.Rights }
    ensures taken { (busy : Derivation → Bool) (list : List Derivation) (x : Derivation) → x.rights.0 ≢ 0 → is_held_in list x.pd (range_of x) ≡ true →
        judged busy list x ≡ Err reason.Taken }
    ensures busy { (busy : Derivation → Bool) (list : List Derivation) (x : Derivation) → x.rights.0 ≢ 0 → is_held_in list x.pd (range_of x) ≡ false → busy x ≡ true →
        judged busy list x ≡ Err reason.Busy }
    ensures made { (busy : Derivation → Bool) (list : List Derivation) (x : Derivation) → x.rights.0 ≢ 0 → is_held_in list x.pd (range_of x) ≡ false → busy x ≡ false →
        judged busy list x ≡ Ok x }
{}

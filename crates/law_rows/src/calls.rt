ghost use Rattle.std.specs.Prelude.{◌≡◌, ◌≢◌, ◌⊎◌, ℕ, ◌+◌, ◌*◌, ◌^◌, ◌<◌, List, [], true, false, Option, Some, None, Ok, Err, is_ok};
ghost use Rattle.std.specs.List.{Contains, find};
ghost use Rattle.nova_calls.specs.declared.call.SmAction.TheVariants.{DownWithin, Up};
ghost use Rattle.nova_model.specs.Capabilities.{down_right, is_sm, named, up_right};
ghost use Rattle.nova_model.specs.Delegations.{covers, is_same_kind, range_of};
ghost use Rattle.nova_model.specs.Hypercalls.{looked_up, sm_ctrl};
ghost use Rattle.nova_model.specs.Semaphores.{greatest, raised, semaphore};
ghost use Rattle.nova_model.specs.State.{KernelState, Semaphore};
ghost use Rattle.nova_model.specs.Transfers.{hotspot_in, job_of, read_as};
ghost use Rattle.nova_model.specs.declared.delegation.Derivation.{Derivation};
ghost use Rattle.nova_model.specs.declared.transfer.Skip.TheVariants.{Empty, Window};
ghost use Rattle.nova_range.specs.RangeWords.{meaning_of, word_of};
ghost use Rattle.nova_range.specs.declared.range.Range.{Range};
ghost use Rattle.nova_range.specs.declared.rights.Rights.{Rights};
ghost use Rattle.nova_range.specs.declared.status.Status.TheVariants.{Overflow, Timeout};

/// A lookup tells the word of a derivation of its own domain and kind that covers the base; where none does it tells 0.
pub fn a_lookup_tells_what_covers()
    ensures none { (k : KernelState) (domain : ℕ) (range : Range) → ((d : Derivation) → Contains k.delegations.list d → covers range.kind domain range.base d ≡ false) →
        looked_up k domain range ≡ 0 }
    ensures some { (k : KernelState) (domain : ℕ) (range : Range) (d : Derivation) → Contains k.delegations.list d → covers range.kind domain range.base d ≡ true →
        (found : Derivation) × Contains k.delegations.list found × (covers range.kind domain range.base found ≡ true)
        × (looked_up k domain range ≡ word_of (Some (range_of found, found.rights))) }
{}

/// An up of a semaphore at the greatest counter, 2^32 - 1, with none waiting is OVERFLOW, so that no counter comes to 2^32. A down within no ticks at
/// counter 0 is TIMEOUT.
pub fn semaphores_refuse_so()
    ensures overflow { (k : KernelState) (ec domain selector sm : ℕ) → named k domain is_sm up_right selector ≡ Ok sm → (semaphore k.semaphores sm).waiting ≡ [] →
        (semaphore k.semaphores sm).count + 1 ≡ 2 ^ 32 → sm_ctrl k ec domain selector Up ≡ Err Overflow }
    ensures timeout { (k : KernelState) (ec domain selector sm : ℕ) → named k domain is_sm down_right selector ≡ Ok sm → (semaphore k.semaphores sm).count ≡ 0 →
        sm_ctrl k ec domain selector (DownWithin 0) ≡ Err Timeout }
    ensures within { (s : Semaphore) → s.count < 2 ^ 32 → (raised s).count < 2 ^ 32 }
    ensures rises { (s : Semaphore) → s.waiting ≡ [] → s.count + 1 < 2 ^ 32 → (raised s).count ≡ s.count + 1 }
{}

/// The hotspot of an item is what its second word has above its twelve lowest bits.
pub fn the_hotspot_is_above_its_flags()
    ensures { (hotspot low : ℕ) → low < 4096 → hotspot_in (hotspot * 4096 + low) ≡ hotspot }
{}

/// An item is skipped as Empty where its range or its window doesn't read or is null. It is skipped as Window where both read and one of both is of
/// memory, the other of objects; else it isn't skipped as a whole.
pub fn an_item_that_doesnt_read_is_skipped()
    ensures range { (word second window giver receiver : ℕ) → read_as (meaning_of word) ≡ None → job_of word second window giver receiver ≡ Err Empty }
    ensures window { (word second window giver receiver : ℕ) → read_as (meaning_of window) ≡ None → job_of word second window giver receiver ≡ Err Empty }
    ensures kinds { (word second window giver receiver : ℕ) (sent to : Range × Rights) → read_as (meaning_of word) ≡ Some sent → read_as (meaning_of window) ≡ Some to →
        is_same_kind sent.0.kind to.0.kind ≡ false → job_of word second window giver receiver ≡ Err Window }
    ensures given { (word second window giver receiver : ℕ) (sent to : Range × Rights) → read_as (meaning_of word) ≡ Some sent → read_as (meaning_of window) ≡ Some to →
        is_same_kind sent.0.kind to.0.kind ≡ true → is_ok (job_of word second window giver receiver) ≡ true }
{}

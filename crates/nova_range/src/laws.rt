ghost use Rattle.std.specs.Prelude.{◌≡◌, ◌<◌, ◌≤◌, ◌↔◌, ℕ, ◌^◌, [], ◌∷◌, Option, IsTrue, IfOk};
ghost use Rattle.nova_range.specs.Ranges.{IsRange, SharesPlace, IsWithin, end_of, overlaps, is_inside};
ghost use Rattle.nova_range.specs.RangeWords.{HasWord, meaning_of, word_of};
ghost use Rattle.nova_range.specs.Clamps.{IsClamped, TakesBits, clamp_of, common_order};
ghost use Rattle.nova_range.specs.Rights.{AreRightsTo};
ghost use Rattle.nova_range.specs.Mtds.{AreGroups};

use crate::mtd::Mtd;
use crate::range::Range;
use crate::rights::{Rights, Target};

/// Two ranges overlap exactly where some place is one of both, and the first lies inside the second
/// exactly where each of its places is one of the second's.
pub fn ranges_meet_by_their_places()
    ensures overlap { (a b : Range) → IsTrue (overlaps a b) ↔ SharesPlace a b }
    ensures inside { (a b : Range) → IsTrue (is_inside a b) ↔ IsWithin a b }
{}

/// Ranges end within 2^20 places, and of two ranges that overlap, the range of lesser order lies inside the other.
pub fn ranges_nest()
    ensures end { (r : Range) → IsRange r → end_of r ≤ 2 ^ 20 }
    ensures nested { (a b : Range) → IsRange a → IsRange b → a.order ≤ b.order →
        IsTrue (overlaps a b) → IsTrue (is_inside a b) }
{}

/// What is written as a word is read back.
pub fn words_are_read_back()
    ensures again { (x : Option (Range × Rights)) → HasWord x → meaning_of (word_of x) ≡ Ok x }
    ensures fits { (x : Option (Range × Rights)) → HasWord x → word_of x < 2 ^ 32 }
{}

/// What is read from a word is nothing, or a range with five bits of rights, and then the word is the
/// only one from which it is read.
pub fn words_that_are_read()
    ensures sound { (w : ℕ) → IfOk (meaning_of w) HasWord }
    ensures only { (w : ℕ) (x : Range × Rights) → w < 2 ^ 32 → meaning_of w ≡ Ok (Some x) → word_of (Some x) ≡ w }
{}

/// A clamp gives a part of the range that is sent and a part of the window. The bits of a part's base
/// are the range's from its order on, and the hotspot's below them down to the part's order.
pub fn clamps_are_parts()
    ensures parts { (sent window : Range) (hotspot : ℕ) → IsRange sent → IsRange window →
        IsClamped sent window (clamp_of sent window hotspot) }
    ensures source { (sent window : Range) (hotspot : ℕ) → IsRange sent → IsRange window →
        TakesBits sent.base sent.order (common_order sent window) hotspot (clamp_of sent window hotspot).source }
    ensures dest { (sent window : Range) (hotspot : ℕ) → IsRange sent → IsRange window →
        TakesBits window.base window.order (common_order sent window) hotspot (clamp_of sent window hotspot).dest }
{}

/// The rights to each kind of target, with their bits.
pub fn rights_have_their_bits()
    ensures memory { AreRightsTo Target.Memory (Rights.READ ∷ Rights.WRITE ∷ Rights.EXECUTE ∷ []) (1 ∷ 2 ∷ 4 ∷ []) }
    ensures pd { AreRightsTo Target.Pd (Rights.CREATE ∷ []) (1 ∷ []) }
    ensures ec { AreRightsTo Target.Ec (Rights.CONTROL ∷ Rights.BIND_SC ∷ Rights.BIND_PT ∷ []) (1 ∷ 2 ∷ 4 ∷ []) }
    ensures sc { AreRightsTo Target.Sc (Rights.CONTROL ∷ []) (1 ∷ []) }
    ensures pt { AreRightsTo Target.Pt (Rights.CONTROL ∷ Rights.CALL ∷ Rights.EVENT ∷ []) (1 ∷ 2 ∷ 4 ∷ []) }
    ensures sm { AreRightsTo Target.Sm (Rights.UP ∷ Rights.DOWN ∷ []) (1 ∷ 2 ∷ []) }
{}

/// The groups of a message transfer descriptor, with their bits.
pub fn groups_have_their_bits()
    ensures { AreGroups (Mtd.QUAL ∷ Mtd.PC ∷ Mtd.LOW ∷ Mtd.HIGH ∷ []) (1 ∷ 2 ∷ 4 ∷ 8 ∷ []) }
{}

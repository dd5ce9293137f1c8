ghost use Rattle.std.specs.Prelude.{◌≡◌, ◌≢◌, ◌<◌, ◌≤◌, ◌+◌, ◌-◌, ◌*◌, ◌^◌, ◌⊎◌, ℕ, List, true, false, Ok, replicate, slice_index, slice_set};
ghost use Rattle.rv_model.specs.Registers.{Registers, reg};
ghost use Rattle.nova_utcb.specs.Messages.{IsMessage, word, untyped, items, has_counts, counts_of, range_place, second_place};
ghost use Rattle.nova_utcb.specs.Messages.{translation_window, delegation_window, is_given, copied, exited, groups_in, written_back, byte_at, loaded, stored, item_at, with_item};
ghost use Rattle.nova_range.specs.Mtds.{names};
ghost use Rattle.nova_utcb.specs.Pages.{IsAccess, byte_of, number_from};
ghost use Rattle.nova_utcb.specs.Files.{IsFile, FitsExit};

use nova_range::Mtd;

/// The two words of an item are data words, no two items share one, and where a message has its
/// counts, the words of its items aren't among those that it gives on.
pub fn items_have_their_own_words()
    ensures within { (i : ℕ) → i < 62 → (4 ≤ range_place i) × (second_place i < 128) }
    ensures apart { (i j : ℕ) → i < 62 → j < 62 → range_place i ≢ second_place j }
    ensures own { (i j : ℕ) → i < 62 → j < 62 → i ≢ j →
        (range_place i ≢ range_place j) × (second_place i ≢ second_place j) }
    ensures kept { (m : List ℕ) (i : ℕ) → has_counts m ≡ true → i < items m →
        (is_given m (range_place i) ≡ false) × (is_given m (second_place i) ≡ false) }
{}

/// A copied message has the words that were given on, with their counts, and all others stay: word 3
/// and both windows among them.
pub fn only_counted_words_are_copied()
    ensures given { (from to : List ℕ) (i : ℕ) → IsMessage to → i < 128 → is_given from i ≡ true →
        word (copied from to) i ≡ word from i }
    ensures stays { (from to : List ℕ) (i : ℕ) → is_given from i ≡ false → word (copied from to) i ≡ word to i }
    ensures counts { (from to : List ℕ) → IsMessage to → counts_of (copied from to) ≡ counts_of from }
    ensures windows { (from to : List ℕ) →
        (translation_window (copied from to) ≡ translation_window to)
        × (delegation_window (copied from to) ≡ delegation_window to) }
{}

/// A message that is copied twice is as copied once, and a message that is passed on comes as from its first sender.
pub fn copies_of_copies()
    ensures again { (from to : List ℕ) → copied from (copied from to) ≡ copied from to }
    ensures passed { (from between to : List ℕ) → IsMessage between → IsMessage to →
        copied (copied from between) to ≡ copied from to }
{}

/// The message of an exit counts 36 untyped words and no items. Words 1 to 3 and those from word 40
/// on stay.
pub fn exit_messages_have_their_words()
    ensures counts { (mtd : Mtd) (q0 q1 : ℕ) (r : Registers) (m : List ℕ) → IsMessage m →
        counts_of (exited mtd q0 q1 r m) ≡ Ok (36, 0) }
    ensures low { (mtd : Mtd) (q0 q1 : ℕ) (r : Registers) (m : List ℕ) (i : ℕ) → 1 ≤ i → i ≤ 3 →
        word (exited mtd q0 q1 r m) i ≡ word m i }
    ensures high { (mtd : Mtd) (q0 q1 : ℕ) (r : Registers) (m : List ℕ) (i : ℕ) → 40 ≤ i →
        word (exited mtd q0 q1 r m) i ≡ word m i }
{}

/// Registers that were put into an exit's message and are taken back are as they were. That holds into
/// themselves whatever groups are named, and into any registers where pc and both groups of registers are
/// named. x0 stays, whatever the words are.
pub fn states_come_back()
    ensures itself { (mtd : Mtd) (q0 q1 : ℕ) (r : Registers) (m : List ℕ) → IsMessage m → IsFile r →
        written_back (exited mtd q0 q1 r m) r ≡ r }
    ensures whole { (mtd : Mtd) (q0 q1 : ℕ) (r s : Registers) (m : List ℕ) → IsMessage m → IsFile r → IsFile s →
        names mtd Mtd.PC ≡ true → names mtd Mtd.LOW ≡ true → names mtd Mtd.HIGH ≡ true →
        written_back (exited mtd q0 q1 r m) s ≡ r }
    ensures zero { (m : List ℕ) (r : Registers) → slice_index (written_back m r).x 0 ≡ slice_index r.x 0 }
{}

/// Of the registers, what word 4 doesn't name stays.
pub fn groups_not_named_stay()
    ensures pc { (m : List ℕ) (r : Registers) → names (groups_in m) Mtd.PC ≡ false → (written_back m r).pc ≡ r.pc }
    ensures low { (m : List ℕ) (r : Registers) (i : ℕ) → names (groups_in m) Mtd.LOW ≡ false → i < 16 →
        reg (written_back m r) i ≡ reg r i }
    ensures high { (m : List ℕ) (r : Registers) (i : ℕ) → names (groups_in m) Mtd.HIGH ≡ false → 16 ≤ i →
        reg (written_back m r) i ≡ reg r i }
{}

/// What comes of message words is message words: at birth, by a word that is put in, by a copy, by
/// an exit, by a store to the page and by an item.
pub fn messages_stay_messages()
    ensures born { IsMessage (replicate 128 0) }
    ensures set { (m : List ℕ) (i value : ℕ) → IsMessage m → value < 2 ^ 32 → IsMessage (slice_set m i value) }
    ensures copied { (from to : List ℕ) → IsMessage from → IsMessage to → IsMessage (copied from to) }
    ensures exited { (mtd : Mtd) (q0 q1 : ℕ) (r : Registers) (m : List ℕ) → FitsExit mtd q0 q1 r → IsMessage m →
        IsMessage (exited mtd q0 q1 r m) }
    ensures stored { (m : List ℕ) (offset width value : ℕ) → IsMessage m → IsAccess offset width →
        IsMessage (stored m offset width value) }
    ensures item { (m : List ℕ) (i first second : ℕ) → IsMessage m → first < 2 ^ 32 → second < 2 ^ 32 →
        IsMessage (with_item m i first second) }
{}

/// A word is the number of its four bytes in the page, the lowest first.
pub fn words_lie_by_bytes()
    ensures { (m : List ℕ) (i : ℕ) → IsMessage m →
        byte_at m (4 * i) + 2 ^ 8 * byte_at m (4 * i + 1) + 2 ^ 16 * byte_at m (4 * i + 2) + 2 ^ 24 * byte_at m (4 * i + 3) ≡ word m i }
{}

/// A load is the number of its bytes in the page, the lowest first.
#[tactic(auto, using(crate::proofs::PageLaws::loads))]
pub fn loads_are_their_bytes()
    ensures { (m : List ℕ) (offset width : ℕ) → IsMessage m → IsAccess offset width →
        loaded m offset width ≡ number_from m offset width }
{}

/// A store puts the bytes of its value, the lowest first, and no other byte of the page changes.
pub fn stores_change_their_bytes()
    ensures own { (m : List ℕ) (offset width value j : ℕ) → IsMessage m → IsAccess offset width →
        offset ≤ j → j < offset + width → byte_at (stored m offset width value) j ≡ byte_of value (j - offset) }
    ensures others { (m : List ℕ) (offset width value j : ℕ) → IsMessage m → IsAccess offset width →
        (j < offset) ⊎ (offset + width ≤ j) → byte_at (stored m offset width value) j ≡ byte_at m j }
{}

/// An item that is put in is read back. Every other word stays: other items, the counts and both
/// windows among them.
pub fn items_are_read_back()
    ensures same { (m : List ℕ) (i first second : ℕ) → IsMessage m → i < 62 →
        item_at (with_item m i first second) i ≡ (first, second) }
    ensures others { (m : List ℕ) (i j first second : ℕ) → i < 62 → j < 62 → i ≢ j →
        item_at (with_item m i first second) j ≡ item_at m j }
    ensures words { (m : List ℕ) (i first second n : ℕ) → n ≢ range_place i → n ≢ second_place i →
        word (with_item m i first second) n ≡ word m n }
    ensures counts { (m : List ℕ) (i first second : ℕ) → i < 62 →
        counts_of (with_item m i first second) ≡ counts_of m }
    ensures windows { (m : List ℕ) (i first second : ℕ) → i < 62 →
        (translation_window (with_item m i first second) ≡ translation_window m)
        × (delegation_window (with_item m i first second) ≡ delegation_window m) }
{}

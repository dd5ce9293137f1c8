ghost use Rattle.std.specs.Prelude.{◌≡◌, ◌≢◌, ◌⊎◌, ℕ, ◌+◌, ◌*◌, ◌/◌, ◌%◌, ◌^◌, ◌<◌, ◌≤◌, List, true, false, if◌then◌else◌, slice_index};
ghost use Rattle.rv_model.specs.Registers.{Registers, reg};
ghost use Rattle.nova_range.specs.Mtds.{names};
ghost use Rattle.nova_range.specs.declared.mtd.Mtd.{Mtd};
ghost use Rattle.nova_range.specs.declared.mtd.TheConstants.Mtd.{QUAL, PC, LOW, HIGH};
ghost use Rattle.nova_utcb.specs.Messages.{IsMessage, copied, exited, has_counts, has_items, word};

/// Word 0 of a message has the count of its untyped words in the lowest 16 bits, and that of its items above; together they are at most 124
/// words.
pub fn a_message_counts_its_words()
    ensures fits { (m : List ℕ) → word m 0 % 2 ^ 16 + 2 * (word m 0 / 2 ^ 16) ≤ 124 → has_counts m ≡ true }
    ensures too_many { (m : List ℕ) → 124 < word m 0 % 2 ^ 16 + 2 * (word m 0 / 2 ^ 16) → has_counts m ≡ false }
    ensures items { (m : List ℕ) → 0 < word m 0 / 2 ^ 16 → has_items m ≡ true }
    ensures none { (m : List ℕ) → word m 0 / 2 ^ 16 ≡ 0 → has_items m ≡ false }
{}

/// A copy has word 0 and, from word 4 on, as many words as its lowest 16 bits count; all others stay.
pub fn a_copy_has_the_counted_words()
    ensures counts { (from to : List ℕ) → IsMessage to → word (copied from to) 0 ≡ word from 0 }
    ensures given { (from to : List ℕ) (i : ℕ) → IsMessage to → 4 ≤ i → i < 4 + word from 0 % 2 ^ 16 → i < 128 → word (copied from to) i ≡ word from i }
    ensures below { (from to : List ℕ) (i : ℕ) → 1 ≤ i → i < 4 → word (copied from to) i ≡ word to i }
    ensures behind { (from to : List ℕ) (i : ℕ) → 4 + word from 0 % 2 ^ 16 ≤ i → word (copied from to) i ≡ word to i }
{}

/// An exit's message tells the groups that the descriptor names, and no other. It has 36 in word 0; the descriptor in word 4; both qualifications in
/// words 5 and 6; pc in word 7; 0 in word 8; and register i in word 8 + i. The words of a group that isn't named are 0.
pub fn an_exit_tells_the_groups_of_its_descriptor()
    ensures head { (mtd : Mtd) (q0 q1 : ℕ) (r : Registers) (m : List ℕ) → IsMessage m →
        (word (exited mtd q0 q1 r m) 0 ≡ 36) × (word (exited mtd q0 q1 r m) 4 ≡ mtd.0) × (word (exited mtd q0 q1 r m) 8 ≡ 0) }
    ensures qualifications { (mtd : Mtd) (q0 q1 : ℕ) (r : Registers) (m : List ℕ) → IsMessage m →
        (word (exited mtd q0 q1 r m) 5 ≡ (if names mtd QUAL then q0 else 0)) × (word (exited mtd q0 q1 r m) 6 ≡ (if names mtd QUAL then q1 else 0)) }
    ensures pc { (mtd : Mtd) (q0 q1 : ℕ) (r : Registers) (m : List ℕ) → IsMessage m → word (exited mtd q0 q1 r m) 7 ≡ (if names mtd PC then r.pc else 0) }
    ensures low { (mtd : Mtd) (q0 q1 : ℕ) (r : Registers) (m : List ℕ) (i : ℕ) → IsMessage m → 1 ≤ i → i ≤ 15 →
        word (exited mtd q0 q1 r m) (8 + i) ≡ (if names mtd LOW then reg r i else 0) }
    ensures high { (mtd : Mtd) (q0 q1 : ℕ) (r : Registers) (m : List ℕ) (i : ℕ) → IsMessage m → 16 ≤ i → i ≤ 31 →
        word (exited mtd q0 q1 r m) (8 + i) ≡ (if names mtd HIGH then reg r i else 0) }
{}

//! Laws of the definitions that the contracts of this crate cite. The functions do nothing: their contracts are the laws.

ghost use Rattle.std.specs.Prelude.{◌≡◌, ℕ, ◌*◌, ◌^◌, ◌<◌, ◌≤◌, ◌&&◌, List, length, nat_lt, nat_le, IsTrue, Ok};
ghost use Rattle.std.specs.List.{list_all};
ghost use Rattle.nova_order.specs.declared.block.Block.{Block};
ghost use Rattle.nova_order.specs.Blocks.{IsOrder, HasOrder, turns, is_within};
ghost use Rattle.nova_order.specs.Text.{text_of};
ghost use Rattle.nova_order.specs.Read.{order_of};

/// The text of an order is read back as that order, where its processors and turns are within the bounds.
pub fn what_is_written_is_read_back()
    ensures { (blocks : List Block) (cpus most : ℕ) → cpus ≤ 2 ^ 32 → IsOrder blocks → IsTrue (is_within cpus most blocks)
        → order_of (text_of blocks) cpus most ≡ Ok blocks }
{}

/// What is read is an order within the bounds, and no other text is read as it.
pub fn what_is_read_was_written()
    ensures text { (bytes : List ℕ) (cpus most : ℕ) (blocks : List Block) → order_of bytes cpus most ≡ Ok blocks
        → bytes ≡ text_of blocks }
    ensures order { (bytes : List ℕ) (cpus most : ℕ) (blocks : List Block) → most < 2 ^ 64 → order_of bytes cpus most ≡ Ok blocks
        → IsOrder blocks }
    ensures within { (bytes : List ℕ) (cpus most : ℕ) (blocks : List Block) → order_of bytes cpus most ≡ Ok blocks
        → IsTrue (is_within cpus most blocks) }
{}

/// Fewer than 2^64 turns have exactly one order, and so one text.
pub fn turns_have_one_order()
    ensures there { (sequence : List ℕ) → length sequence < 2 ^ 64 → HasOrder sequence }
    ensures one { (a b : List Block) → IsOrder a → IsOrder b → turns a ≡ turns b → a ≡ b }
{}

/// An order is within bounds exactly where each of its turns is of a processor below their number, and no more are there than may be.
pub fn bounds_are_of_turns()
    ensures { (cpus most : ℕ) (blocks : List Block) → IsOrder blocks
        → is_within cpus most blocks ≡ (list_all (λ cpu. nat_lt cpu cpus) (turns blocks) && nat_le (length (turns blocks)) most) }
{}

/// The text of an order of at most ten processors has at most four bytes for each turn that the order may have. Those are a digit, a space, no more
/// digits than turns, and a line feed.
pub fn a_text_has_four_bytes_a_turn()
    ensures { (cpus most : ℕ) (blocks : List Block) → cpus ≤ 10 → IsOrder blocks → IsTrue (is_within cpus most blocks)
        → length (text_of blocks) ≤ 4 * most }
{}

ghost use Rattle.std.specs.Prelude.{◌≡◌, ◌≢◌, ℕ, ◌<◌, ◌^◌, ◌%◌};
ghost use Rattle.rv_model.specs.Words.{field};
ghost use Rattle.rv_model.specs.Table.{fence_code, immediate_code, register_code, system_code};
ghost use Rattle.rv_model.specs.Table.{row_of, instr_from, mnemonic_of, operands_of};
ghost use Rattle.rv_model.specs.Codes.{instr_of, word_of};
ghost use Rattle.rv_core.specs.Encodable.{IsEncodable};
ghost use Rattle.rv_core.specs.Rows.{mnemonic_named};

use rv_model::{Instr, Mnemonic};

/// An encodable instruction is decoded from its word, and every instruction that is decoded from some
/// word is encodable.
pub fn encoded_is_decoded()
    ensures again { (i : Instr) → IsEncodable i → instr_of (word_of i) ≡ Some i }
    ensures all { (w : ℕ) (i : Instr) → w < 2 ^ 32 → instr_of w ≡ Some i → IsEncodable i }
{}

/// A decoded instruction is decoded again from its own word, and that is the word that it was decoded
/// from, but for fence.
pub fn decoded_is_encoded()
    ensures same_instruction { (w : ℕ) (i : Instr) → w < 2 ^ 32 → instr_of w ≡ Some i → instr_of (word_of i) ≡ Some i }
    ensures same_word { (w : ℕ) (i : Instr) → w < 2 ^ 32 → i ≢ Instr.Fence → instr_of w ≡ Some i → word_of i ≡ w }
{}

/// The neighbours of the table are no instructions.
#[tactic(auto, unfolding(rv_model::specs::Codes::instr_of))]
pub fn neighbours_are_illegal()
    // Compressed instructions.
    ensures compressed { (w : ℕ) → w % 4 ≢ 3 → instr_of w ≡ None }

    // Multiplication and division.
    ensures multiplying { (w : ℕ) → field w 0 7 ≡ register_code → field w 25 7 ≡ 1 → instr_of w ≡ None }

    // Atomic operations.
    ensures atomic { (w : ℕ) → field w 0 7 ≡ 0x2f → instr_of w ≡ None }

    // Control and status registers, and other system instructions than ecall and ebreak.
    ensures status { (w : ℕ) → field w 0 7 ≡ system_code → field w 12 3 ≢ 0 → instr_of w ≡ None }
    ensures system { (w : ℕ) → field w 0 7 ≡ system_code → w ≢ 0x0000_0073 → w ≢ 0x0010_0073 → instr_of w ≡ None }

    // Fences of instructions.
    ensures fence { (w : ℕ) → field w 0 7 ≡ fence_code → field w 12 3 ≢ 0 → instr_of w ≡ None }

    // Shift amounts with another high part than that of slli, and than those of srli and srai.
    ensures left { (w : ℕ) → field w 0 7 ≡ immediate_code → field w 12 3 ≡ 1 → field w 25 7 ≢ 0 →
        instr_of w ≡ None }
    ensures right { (w : ℕ) → field w 0 7 ≡ immediate_code → field w 12 3 ≡ 5 → field w 25 7 ≢ 0 →
        field w 25 7 ≢ 0x20 → instr_of w ≡ None }
{}

/// Each name of the table is found, so that no two instructions share a name.
pub fn names_are_distinct()
    ensures { (m : Mnemonic) → mnemonic_named (row_of m).name ≡ Some m }
{}

/// A name and operands make the instruction that has them.
pub fn parts_make_the_instruction()
    ensures { (i : Instr) → instr_from (mnemonic_of i) (operands_of i) ≡ i }
{}

//! Laws of the definitions that the contracts of this crate cite. The functions do nothing: their contracts are the laws.

ghost use Rattle.std.specs.Prelude.{◌≡◌, ◌≢◌, ℕ, ◌<◌, ◌^◌, List, [], ◌∷◌, Some, Ok, Err};
ghost use Rattle.nova_text.specs.Line.{lines};
ghost use Rattle.rv_model.specs.Codes.{instr_of, word_of};
ghost use Rattle.rv_core.specs.Encodable.{IsEncodable};
ghost use Rattle.rv_asm.specs.Name.{Item};
ghost use Rattle.rv_asm.specs.Printed.{printed};
ghost use Rattle.rv_asm.specs.Program.{labels_of, label_among, program, assembled};
ghost use Rattle.rv_asm.specs.Read.{AreRead};
ghost use Rattle.rv_asm.specs.declared.fault.AsmFault.TheVariants.{Memory};

use rv_model::Instr;

/// The instruction table reads the words of a program as the instructions that are written there, and the number of a `.word` is a
/// word.
pub fn words_are_what_is_written()
    ensures { (text : List ℕ) (items : List Item) → program text ≡ Ok items → AreRead items }
{
    rv_core::laws::encoded_is_decoded();
}

/// A name's label is that of the first line that has it, and as many words stand before it as the lines before it have, a line at fault
/// one. What they have is told by all labels of the text, so a label that is still to come changes the count of no line.
pub fn labels_stand_after_the_lines_before()
    ensures { (text name : List ℕ) → labels_of text name ≡ label_among (labels_of text) name 0 (lines text) }
{}

/// No fault of a text is want of memory.
pub fn faults_are_of_the_text()
    ensures { (text : List ℕ) → assembled text ≢ Err Memory }
{}

/// What is printed of an instruction is assembled to its word: of each instruction that a word can hold, and so of each that a word
/// is read as.
pub fn printed_is_assembled()
    ensures held { (i : Instr) → IsEncodable i → assembled (printed i) ≡ Ok (word_of i ∷ []) }
    ensures read { (w : ℕ) (i : Instr) → w < 2 ^ 32 → instr_of w ≡ Some i → assembled (printed i) ≡ Ok (word_of i ∷ []) }
{
    rv_core::laws::encoded_is_decoded();
}

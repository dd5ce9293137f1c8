ghost use Rattle.std.specs.Prelude.{◌≡◌, ◌≤◌, true, IfOk, IfErr, OnOk, OnErr};
ghost use Rattle.nova_text.specs.Line.{row_of};
ghost use Rattle.rv_asm.specs.Assembled.{IsAssembled, IsMemoryOnlyIf};
ghost use Rattle.rv_asm.specs.Places.{places_of};
ghost use Rattle.rv_asm.specs.Program.{with_label, labels_of, says, takes_memory, assembled};
ghost use Rattle.rv_asm.specs.Syntax.{labelled};
ghost use Rattle.rv_asm.specs.Words.{line_shown, shown_count};

use crate::fault::AsmFault;
use crate::label::{Label, Labels};
use crate::statement::line_words;
use crate::syntax::labelled;
use crate::words::Words;
use nova_text::{Line, Lines};
use std::alloc::{AllocError, Global};

/// How many words a line of `words` has. At fault it counts as one.
fn word_count(words: &Result<Words, AsmFault>) -> u64
    ensures count { result ≡ shown_count (line_shown words.now) }
    ensures bound { result ≤ 2 }
{
    match words {
        Ok(found) => found.count(),
        Err(_) => 1,
    }
}

/// Adds the label of `line` at `place`, if it has a label that is not there yet.
fn add_label<'a>(labels: &mut Labels<'a>, line: Line<'a>, place: u64) -> Result<(), AllocError>
    ensures memory { OnErr result (says (row_of line.entry) ≡ true) }
    ensures label { OnOk result (places_of labels.new ≡ with_label (places_of labels.old) (labelled (row_of line.entry)).label (record { line = line.entry.number; place = place })) }
{
    let (label, _) = labelled(line);
    match label {
        Some(name) => {
            let label = Label {
                line: line.number,
                place,
            };
            labels.add(name.text, label)
        }
        None => Ok(()),
    }
}

/// The labels of `text`.
#[tactic(auto, unfolding(crate::specs::Program::takes_memory))]
fn labels_of<'a>(alloc: Global, text: &'a [u8]) -> Result<Labels<'a>, AllocError>
    ensures labels { IfOk result (λ labels. places_of labels ≡ labels_of text.now) }
    ensures memory { IfErr result (λ _. takes_memory text.now ≡ true) }
{
    let mut labels = Labels::new(alloc);
    let mut place = 0;
    for line in Lines::new(text) {
        let words = line_words(alloc, &labels, place, line)?;
        add_label(&mut labels, line, place)?;
        place += word_count(&words);
    }
    Ok(labels)
}

/// The words of the program `text`: line by line those of the instructions and numbers written there.
///
/// A fault is that of the first line at fault, and in a line the first of `TwiceLabel`, `UnknownName`, `BadOperand`, `NoLabel` and
/// `OutOfRange`. `Memory` comes where memory is refused, and only where a line has a label or a statement.
#[tactic(auto, unfolding(crate::specs::Program::assembled, crate::specs::Program::takes_memory))]
pub fn assemble(alloc: Global, text: &[u8]) -> Result<Vec<u32>, AsmFault>
    ensures exact { IsAssembled (assembled text.now) result }
    ensures memory { IfErr result (IsMemoryOnlyIf (takes_memory text.now)) }
{
    let labels = labels_of(alloc, text)?;
    let mut words = Vec::new(alloc);
    for line in Lines::new(text) {
        let place = words.len() as u64;
        let more = line_words(alloc, &labels, place, line)??;
        more.push_to(&mut words)?;
    }
    Ok(words)
}

ghost use Rattle.std.specs.Prelude.{◌≡◌, map, option_map, Some, true, IfOk, IfErr};
ghost use Rattle.nova_text.specs.Line.{row_of};
ghost use Rattle.nova_text.specs.Token.{piece_of};
ghost use Rattle.rv_asm.specs.Operand.{with_operands, gravest};
ghost use Rattle.rv_asm.specs.Places.{places_of};
ghost use Rattle.rv_asm.specs.Program.{statement, statement_of, is_earlier, words_of, line_items, says};
ghost use Rattle.rv_asm.specs.Shown.{operand_seen, written_of};
ghost use Rattle.rv_asm.specs.Words.{line_shown};

use crate::fault::{AsmFault, FaultyOperand};
use crate::label::{Label, Labels};
use crate::name::Name;
use crate::slot::Slot;
use crate::syntax::{Operand, Written, labelled, parts};
use crate::words::{Words, words_of};
use nova_text::{Line, Span};
use rv_model::Operands;
use std::alloc::{AllocError, Global};

/// The graver of the fault `first` and that of the operands after it.
fn gravest(first: FaultyOperand, rest: Result<Operands, FaultyOperand>) -> FaultyOperand
    ensures { result ≡ gravest first rest }
{
    match rest {
        Err(second) if second.why.is_graver(first.why) => second,
        _ => first,
    }
}

/// Puts the operands `texts` in their places, `slots`.
fn with_operands(
    labels: &Labels,
    from: u64,
    slots: &[Slot],
    texts: &[Operand],
    operands: Operands,
) -> Result<Operands, FaultyOperand>
    ensures { result ≡ with_operands (places_of labels.now) from slots.now (map operand_seen texts.now) operands }
{
    let [slot, slots @ ..] = slots else {
        return Ok(operands);
    };
    let [text, texts @ ..] = texts else {
        return Ok(operands);
    };
    match slot.with_operand(labels, from, text.text, operands) {
        Ok(operands) => with_operands(labels, from, slots, texts, operands),
        Err(why) => {
            let first = FaultyOperand {
                why,
                span: text.span,
            };
            let rest = with_operands(labels, from, slots, texts, operands);
            Err(gravest(first, rest))
        }
    }
}

/// The words of the instruction `written`, whose name is known as `name`.
fn named_words(
    labels: &Labels,
    place: u64,
    written: &Written,
    name: Name,
) -> Result<Words, AsmFault>
    ensures { line_shown result ≡ words_of (statement (places_of labels.now) place (written_of written.now) (Some name)) }
{
    let slots = name.slots();
    let texts = written.operands.as_slice();
    if texts.len() != slots.len() {
        return Err(AsmFault::BadOperand(written.name.span));
    }
    match with_operands(labels, place, slots, texts, name.given()) {
        Ok(operands) => Ok(words_of(name, operands)),
        Err(faulty) => Err(faulty.why.at(faulty.span)),
    }
}

/// The words of `written`, what stands after a label, or its fault.
fn statement_words(
    labels: &Labels,
    place: u64,
    written: &Option<Written>,
) -> Result<Words, AsmFault>
    ensures { line_shown result ≡ words_of (statement_of (places_of labels.now) place (option_map written_of written.now)) }
{
    let Some(written) = written else {
        return Ok(Words::Nothing);
    };
    match Name::of(written.name.text) {
        Some(name) => named_words(labels, place, written, name),
        None => Err(AsmFault::UnknownName(written.name.span)),
    }
}

/// Whether `label` stands on a line before line `number`.
fn is_earlier(label: Option<Label>, number: u64) -> bool
    ensures { result ≡ is_earlier number label }
{
    match label {
        Some(label) => label.line < number,
        None => false,
    }
}

/// The words of `line`, before which `place` words stand, or its fault. The outer result is about memory alone.
pub fn line_words(
    alloc: Global,
    labels: &Labels,
    place: u64,
    line: Line,
) -> Result<Result<Words, AsmFault>, AllocError>
    ensures memory { IfErr result (λ _. says (row_of line.entry) ≡ true) }
    ensures words { IfOk result (λ words. line_shown words ≡ words_of (line_items (places_of labels.now) place (row_of line.entry))) }
{
    let (label, rest) = labelled(line);
    if let Some(label) = label {
        if is_earlier(labels.find(label.text), line.number) {
            let span = Span {
                start: label.span.start,
                end: label.span.end + 1,
            };
            return Ok(Err(AsmFault::TwiceLabel(span)));
        }
    }
    let written = parts(alloc, rest)?;
    Ok(statement_words(labels, place, &written))
}

ghost use Rattle.std.specs.Prelude.{◌≡◌, ◌++◌, OnOk, IfOk, codes, length, string_bytes};
ghost use Rattle.nova_order.specs.Text.{text_of};
ghost use Rattle.nova_explore.specs.Texts.{absent_line, alone_line, answer_text, end_line, end_text, ends_text, extent_line, found_text, head_text, never_line, never_text, states_line};

use nova_asking::{Answer, End, Ends, Extent};
use nova_order::Order;
use std::alloc::{AllocError, Global};

/// That there is one order, where there is one processor.
fn write_alone(out: &mut String, cpus: u32) -> Result<(), AllocError>
    ensures { OnOk result (string_bytes out.new ≡ string_bytes out.old ++ alone_line cpus) }
{
    if cpus == 1 {
        return out.push_str("one order\n");
    }
    Ok(())
}

/// Writes how far a search went, `extent`.
fn write_extent(out: &mut String, extent: Extent, limit: u32) -> Result<(), AllocError>
    ensures { OnOk result (string_bytes out.new ≡ string_bytes out.old ++ extent_line extent limit) }
{
    match extent {
        Extent::All => out.push_str("all\n"),
        Extent::Within => writeln!(out, "within {limit}"),
        Extent::Cut => out.push_str("cut\n"),
    }
}

/// That no order that was gone along leads to what was asked for.
fn write_never(out: &mut String, extent: Extent, limit: u32) -> Result<(), AllocError>
    ensures { OnOk result (string_bytes out.new ≡ string_bytes out.old ++ never_line extent limit) }
{
    match extent {
        Extent::All | Extent::Within => {
            out.push_str("never ")?;
            write_extent(out, extent, limit)
        }
        Extent::Cut => write_extent(out, extent, limit),
    }
}

/// Writes that `states` states were found.
fn write_states(out: &mut String, states: usize) -> Result<(), AllocError>
    ensures { OnOk result (string_bytes out.new ≡ string_bytes out.old ++ states_line states) }
{
    writeln!(out, "states {states}")
}

/// That an execution context is never there, where a search that isn't cut found none of its number.
fn write_absent(out: &mut String, extent: Extent, absent: Option<u32>) -> Result<(), AllocError>
    ensures { OnOk result (string_bytes out.new ≡ string_bytes out.old ++ absent_line extent absent) }
{
    match (extent, absent) {
        (Extent::All | Extent::Within, Some(ec)) => writeln!(out, "ec {ec} never there"),
        _ => Ok(()),
    }
}

/// `bytes` behind the text `out`.
fn with_bytes(out: String, bytes: &[u8]) -> Result<Vec<u8>, AllocError>
    ensures { IfOk result (λ text. text.items ≡ string_bytes out ++ bytes.now) }
{
    let mut out = out.into_bytes();
    out.extend_from_slice(bytes)?;
    Ok(out)
}

/// What is told of `order`, which leads to what was asked for.
fn tell_found(alloc: Global, cpus: u32, order: &Order, states: usize) -> Result<Vec<u8>, AllocError>
    ensures { IfOk result (λ text. text.items ≡ found_text cpus states order.now.blocks) }
{
    let mut out = String::new(alloc);
    write_alone(&mut out, cpus)?;
    out.push_str("found\n")?;
    write_states(&mut out, states)?;
    with_bytes(out, &order.text()?)
}

/// What is told where no order that was gone along leads to what was asked for.
fn tell_never(
    alloc: Global,
    cpus: u32,
    limit: u32,
    extent: Extent,
    states: usize,
    absent: Option<u32>,
) -> Result<Vec<u8>, AllocError>
    ensures { IfOk result (λ text. text.items ≡ never_text cpus limit extent states absent) }
{
    let mut out = String::new(alloc);
    write_alone(&mut out, cpus)?;
    write_never(&mut out, extent, limit)?;
    write_states(&mut out, states)?;
    write_absent(&mut out, extent, absent)?;
    Ok(out.into_bytes())
}

/// What is told of `answer`.
pub(crate) fn tell_answer(
    alloc: Global,
    cpus: u32,
    limit: u32,
    answer: &Answer,
) -> Result<Vec<u8>, AllocError>
    ensures { IfOk result (λ text. text.items ≡ answer_text cpus limit answer.now) }
{
    match answer {
        Answer::Found { order, states } => tell_found(alloc, cpus, order, *states),
        Answer::Never {
            extent,
            states,
            absent,
        } => tell_never(alloc, cpus, limit, *extent, *states, *absent),
    }
}

/// How many outcomes there are, and of which orders.
fn tell_head(alloc: Global, cpus: u32, limit: u32, ends: &Ends) -> Result<Vec<u8>, AllocError>
    ensures { IfOk result (λ text. text.items ≡ head_text cpus limit (length ends.now.ends.items) ends.now.extent ends.now.states) }
{
    let mut out = String::new(alloc);
    write_alone(&mut out, cpus)?;
    let count = ends.ends.len();
    write!(out, "ends {count} ")?;
    write_extent(&mut out, ends.extent, limit)?;
    write_states(&mut out, ends.states)?;
    Ok(out.into_bytes())
}

/// The line before an outcome.
fn end_line(alloc: Global, number: usize, states: u64) -> Result<Vec<u8>, AllocError>
    ensures { IfOk result (λ text. text.items ≡ end_line number states) }
{
    let mut out = String::new(alloc);
    writeln!(out, "end {number} states {states}")?;
    Ok(out.into_bytes())
}

/// An outcome, and an order that ends in it.
fn append_end(out: &mut Vec<u8>, alloc: Global, number: usize, end: &End) -> Result<(), AllocError>
    ensures { OnOk result (out.new.items ≡ out.old.items ++ end_text (number, end.now)) }
{
    out.extend_from_slice(&end_line(alloc, number, end.states)?)?;
    out.extend_from_slice(&end.outcome)?;
    out.extend_from_slice(b"order\n")?;
    out.extend_from_slice(&end.order.text()?)
}

/// What is told of outcomes.
pub(crate) fn tell_ends(
    alloc: Global,
    cpus: u32,
    limit: u32,
    ends: &Ends,
) -> Result<Vec<u8>, AllocError>
    ensures { IfOk result (λ text. text.items ≡ ends_text cpus limit ends.now.extent ends.now.states ends.now.ends.items) }
{
    let mut out = tell_head(alloc, cpus, limit, ends)?;
    for (i, end) in ends.ends.iter().enumerate() {
        append_end(&mut out, alloc, i + 1, end)?;
    }
    Ok(out)
}

ghost use Rattle.std.specs.Prelude.{◌≡◌, [], IfOk, codes, true};
ghost use Rattle.nova_model.specs.Choice.{is_quiet};
ghost use Rattle.nova_order.specs.Text.{text_of};
ghost use Rattle.nova_report.specs.Report.{report};
ghost use Rattle.nova_report.specs.Summary.{summary};

use nova_finished::Finished;
use nova_report::{report, summary};
use std::alloc::{AllocError, Global};

/// What a command makes: the text of an order that it appends, the text that it writes, and whether it is complete, as a run is that ends
/// quiet.
#[derive(Drop)]
pub struct Outcome {
    pub is_complete: bool,
    pub order: Vec<u8>,
    pub text: Vec<u8>,
}

/// Says that a scenario is valid.
pub fn valid(alloc: Global) -> Result<Outcome, AllocError>
    ensures { IfOk result (λ made. (made.is_complete ≡ true) × (made.text.items ≡ codes "ok\n") × (made.order.items ≡ [])) }
{
    let text = Vec::from_slice(alloc, b"ok\n")?;
    Ok(Outcome {
        is_complete: true,
        order: Vec::new(alloc),
        text,
    })
}

/// The report of `finished`, beside `order`, the text that is to be appended.
fn reported(alloc: Global, finished: &Finished, order: Vec<u8>) -> Result<Outcome, AllocError>
    ensures order { IfOk result (λ made. made.order.items ≡ order.items) }
    ensures text { IfOk result (λ made. made.text.items ≡ report finished.now.kernel.state finished.now.trace.items) }
    ensures quiet { IfOk result (λ made. made.is_complete ≡ is_quiet finished.now.kernel.state) }
{
    let text = report(alloc, &finished.kernel, &finished.trace)?;
    let is_complete = finished.kernel.quiet();
    Ok(Outcome {
        is_complete,
        order,
        text,
    })
}

/// The outcome of `finished`, which is dropped: its report, beside `order`, the text that is to be appended.
pub fn closed(alloc: Global, finished: Finished, order: Vec<u8>) -> Result<Outcome, AllocError>
    ensures order { IfOk result (λ made. made.order.items ≡ order.items) }
    ensures text { IfOk result (λ made. made.text.items ≡ report finished.kernel.state finished.trace.items) }
    ensures quiet { IfOk result (λ made. made.is_complete ≡ is_quiet finished.kernel.state) }
{
    let made = reported(alloc, &finished, order);
    finished.let_go();
    made
}

/// The report of `finished`, beside the text of its own order, which is to be appended.
fn in_its_order(alloc: Global, finished: &Finished) -> Result<Outcome, AllocError>
    ensures order { IfOk result (λ made. made.order.items ≡ text_of finished.now.order.blocks) }
    ensures text { IfOk result (λ made. made.text.items ≡ report finished.now.kernel.state finished.now.trace.items) }
    ensures quiet { IfOk result (λ made. made.is_complete ≡ is_quiet finished.now.kernel.state) }
{
    let order = finished.order.text()?;
    reported(alloc, finished, order)
}

/// The outcome of `finished`, which is dropped: its report, beside the text of its own order, which is to be appended.
pub fn recorded(alloc: Global, finished: Finished) -> Result<Outcome, AllocError>
    ensures order { IfOk result (λ made. made.order.items ≡ text_of finished.order.blocks) }
    ensures text { IfOk result (λ made. made.text.items ≡ report finished.kernel.state finished.trace.items) }
    ensures quiet { IfOk result (λ made. made.is_complete ≡ is_quiet finished.kernel.state) }
{
    let made = in_its_order(alloc, &finished);
    finished.let_go();
    made
}

/// The summary of `finished`, the bench of `number`. No order is to be appended.
fn summed(alloc: Global, finished: &Finished, number: u32) -> Result<Outcome, AllocError>
    ensures order { IfOk result (λ made. made.order.items ≡ []) }
    ensures text { IfOk result (λ made. made.text.items ≡ summary number finished.now.kernel.state finished.now.trace.items) }
    ensures quiet { IfOk result (λ made. made.is_complete ≡ is_quiet finished.now.kernel.state) }
{
    let text = summary(alloc, number, &finished.kernel, &finished.trace)?;
    Ok(Outcome {
        is_complete: finished.kernel.quiet(),
        order: Vec::new(alloc),
        text,
    })
}

/// The summary of `finished`, the bench of `number`, which is dropped. No order is to be appended.
pub fn summed_up(alloc: Global, finished: Finished, number: u32) -> Result<Outcome, AllocError>
    ensures order { IfOk result (λ made. made.order.items ≡ []) }
    ensures text { IfOk result (λ made. made.text.items ≡ summary number finished.kernel.state finished.trace.items) }
    ensures quiet { IfOk result (λ made. made.is_complete ≡ is_quiet finished.kernel.state) }
{
    let made = summed(alloc, &finished, number);
    finished.let_go();
    made
}

ghost use Rattle.std.specs.Prelude.{◌≡◌, ◌++◌, OnOk, string_bytes};
ghost use Rattle.nova_report.specs.Words.{context_word, state_word};
ghost use Rattle.nova_report.specs.Report.{register_word, register_words, context_line, context_of, context_lines, budget_of, budget_lines, semaphore_of, semaphore_lines};
ghost use Rattle.nova_model.specs.State.{context_at};

use crate::hex::write_word;
use nova_kernel::Kernel;
use nova_model::{EcKind, EcState, Object, State};
use rv_model::Regs;
use std::alloc::AllocError;

fn context_word<'a>(kind: EcKind) -> &'a str
    ensures { result.now ≡ context_word kind }
{
    match kind {
        EcKind::Local => "local",
        EcKind::Global => "global",
        EcKind::Vcpu => "vcpu",
    }
}

/// The word of `state`, that of an execution context.
pub fn state_word<'a>(state: State) -> &'a str
    ensures { result.now ≡ state_word state }
{
    match state {
        State::Fresh => "fresh",
        State::Ready => "ready",
        State::Parked => "parked",
        State::Calling(_) => "calling",
        State::Helping(_) => "helping",
        State::Exiting(..) => "exiting",
        State::Sending(..) => "sending",
        State::Granting(_) => "granting",
        State::Replying => "replying",
        State::Revoking(..) => "revoking",
        State::Blocked(_) => "blocked",
        State::Dead => "dead",
    }
}

fn write_register(out: &mut String, i: u32, value: u32) -> Result<(), AllocError>
    ensures { OnOk result (string_bytes out.new ≡ string_bytes out.old ++ register_word i value) }
{
    if value == 0 {
        return Ok(());
    }
    write!(out, " x{i}=")?;
    write_word(out, value)
}

#[tactic(auto, unfolding(crate::specs::Report::register_words))]
fn write_registers(out: &mut String, regs: &Regs) -> Result<(), AllocError>
    ensures { OnOk result (string_bytes out.new ≡ string_bytes out.old ++ register_words regs.now) }
{
    for i in 0..32 {
        write_register(out, i, regs.get(i))?;
    }
    Ok(())
}

fn write_context(
    out: &mut String,
    id: u32,
    kind: EcKind,
    context: &EcState,
) -> Result<(), AllocError>
    ensures { OnOk result (string_bytes out.new ≡ string_bytes out.old ++ context_line id kind (Some context.now)) }
{
    let kind = context_word(kind);
    let state = state_word(context.state);
    write!(out, "ec {id} {kind} {state} ")?;
    write_word(out, context.regs.pc())?;
    write_registers(out, &context.regs)?;
    out.push_str("\n")
}

fn write_context_of(
    out: &mut String,
    kernel: &Kernel,
    id: u32,
    object: Object,
) -> Result<(), AllocError>
    ensures { OnOk result (string_bytes out.new ≡ string_bytes out.old ++ context_of kernel.now.state (id, object)) }
{
    let Object::Ec { kind, .. } = object else {
        return Ok(());
    };
    match kernel.ec(id) {
        Some(context) => write_context(out, id, kind, context),
        None => Ok(()),
    }
}

/// Writes a line for each execution context of `kernel`, by number.
pub fn write_contexts(out: &mut String, kernel: &Kernel) -> Result<(), AllocError>
    ensures { OnOk result (string_bytes out.new ≡ string_bytes out.old ++ context_lines kernel.now.state) }
{
    for (i, object) in kernel.objects().iter().enumerate() {
        write_context_of(out, kernel, i as u32, *object)?;
    }
    Ok(())
}

fn write_budget_of(
    out: &mut String,
    kernel: &Kernel,
    id: u32,
    object: Object,
) -> Result<(), AllocError>
    ensures { OnOk result (string_bytes out.new ≡ string_bytes out.old ++ budget_of kernel.now.state (id, object)) }
{
    let Object::Sc { cpu, .. } = object else {
        return Ok(());
    };
    match kernel.ticks(id) {
        Some(ticks) => writeln!(out, "sc {id} {cpu} {ticks}"),
        None => Ok(()),
    }
}

/// Writes a line for each scheduling context of `kernel`, by number.
pub fn write_budgets(out: &mut String, kernel: &Kernel) -> Result<(), AllocError>
    ensures { OnOk result (string_bytes out.new ≡ string_bytes out.old ++ budget_lines kernel.now.state) }
{
    for (i, object) in kernel.objects().iter().enumerate() {
        write_budget_of(out, kernel, i as u32, *object)?;
    }
    Ok(())
}

fn write_semaphore_of(
    out: &mut String,
    kernel: &Kernel,
    id: u32,
    object: Object,
) -> Result<(), AllocError>
    ensures { OnOk result (string_bytes out.new ≡ string_bytes out.old ++ semaphore_of kernel.now.state (id, object)) }
{
    let Object::Sm = object else {
        return Ok(());
    };
    match kernel.semaphore(id) {
        Some((count, waiting)) => writeln!(out, "sm {id} {count} {waiting}"),
        None => Ok(()),
    }
}

/// Writes a line for each semaphore of `kernel`, by number.
pub fn write_semaphores(out: &mut String, kernel: &Kernel) -> Result<(), AllocError>
    ensures { OnOk result (string_bytes out.new ≡ string_bytes out.old ++ semaphore_lines kernel.now.state) }
{
    for (i, object) in kernel.objects().iter().enumerate() {
        write_semaphore_of(out, kernel, i as u32, *object)?;
    }
    Ok(())
}

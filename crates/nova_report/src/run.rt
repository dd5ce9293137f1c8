ghost use Rattle.std.specs.Prelude.{◌≡◌, ◌++◌, IfOk, OnOk, string_bytes};
ghost use Rattle.nova_report.specs.Words.{quiet_word};
ghost use Rattle.nova_report.specs.Report.{report, run_line, sections};

use crate::consoles::write_consoles;
use crate::derivations::write_derivations;
use crate::events::write_events;
use crate::objects::{write_budgets, write_contexts, write_semaphores};
use crate::sources::write_sources;
use nova_kernel::Kernel;
use nova_trace::Trace;
use std::alloc::{AllocError, Global};

/// The first line of a report of `kernel`.
fn head(alloc: Global, kernel: &Kernel) -> Result<Vec<u8>, AllocError>
    ensures { IfOk result (λ text. text.items ≡ run_line kernel.now.state) }
{
    let mut out = String::new(alloc);
    write_run(&mut out, kernel)?;
    Ok(out.into_bytes())
}

/// What `kernel` holds at the end, and what the sources did in the events before it.
#[tactic(auto, using(crate::proofs::Sourced::are_sources))]
fn sections(alloc: Global, kernel: &Kernel, trace: &Trace) -> Result<String, AllocError>
    ensures { IfOk result (λ text. string_bytes text ≡ sections kernel.now.state trace.now.items) }
{
    let mut out = String::new(alloc);
    write_contexts(&mut out, kernel)?;
    write_budgets(&mut out, kernel)?;
    write_semaphores(&mut out, kernel)?;
    write_sources(alloc, &mut out, kernel.sources(), trace)?;
    write_consoles(&mut out, kernel)?;
    write_derivations(&mut out, kernel)?;
    Ok(out)
}

/// The report of `kernel` and of the events of its turns, `trace`, in order. The only error is that memory ran out.
#[tactic(auto, unfolding(crate::specs::Report::report))]
pub fn report(alloc: Global, kernel: &Kernel, trace: &Trace) -> Result<Vec<u8>, AllocError>
    ensures { IfOk result (λ text. text.items ≡ report kernel.now.state trace.now.items) }
{
    let mut out = head(alloc, kernel)?;
    write_events(&mut out, trace)?;
    let rest = sections(alloc, kernel, trace)?;
    out.extend_from_slice(rest.as_bytes())?;
    Ok(out)
}

fn quiet_word<'a>(quiet: bool) -> &'a str
    ensures { result.now ≡ quiet_word quiet }
{
    if quiet { "quiet" } else { "open" }
}

fn write_run(out: &mut String, kernel: &Kernel) -> Result<(), AllocError>
    ensures { OnOk result (string_bytes out.new ≡ string_bytes out.old ++ run_line kernel.now.state) }
{
    let outcome = quiet_word(kernel.quiet());
    let turns = kernel.turns();
    writeln!(out, "run {outcome} {turns}")
}

ghost use Rattle.std.specs.Prelude.{◌≡◌, ◌++◌, OnOk, string_bytes};
ghost use Rattle.std.specs.List.{AllByRecursion};
ghost use Rattle.nova_gsi.specs.Firings.{IsSource};
ghost use Rattle.nova_report.specs.Report.{source_line, source_lines};

use nova_gsi::{Source, SourceLine, table};
use nova_trace::Trace;
use std::alloc::{AllocError, Global};

fn write_source(
    out: &mut String,
    number: usize,
    source: Source,
    line: SourceLine,
) -> Result<(), AllocError>
    ensures { OnOk result (string_bytes out.new ≡ string_bytes out.old ++ source_line (number, (source, line))) }
{
    let Source { cpu, sm, .. } = source;
    let SourceLine { fired, worst } = line;
    writeln!(out, "source {number} {cpu} {sm} {fired} {worst}")
}

/// Writes a line for each of `sources`, by number.
pub fn write_sources(
    alloc: Global,
    out: &mut String,
    sources: &[Source],
    trace: &Trace,
) -> Result<(), AllocError>
    requires numbers { AllByRecursion IsSource sources.now }
    ensures { OnOk result (string_bytes out.new ≡ string_bytes out.old ++ source_lines sources.now trace.now.items) }
{
    let lines = table(alloc, sources, trace)?;
    for i in 0..sources.len() {
        write_source(out, i, sources[i], lines[i])?;
    }
    Ok(())
}

ghost use Rattle.std.specs.Prelude.{◌≡◌, ◌++◌, OnOk, string_bytes, filter, flat_map};
ghost use Rattle.std.specs.List.{list_any};
ghost use Rattle.nova_report.specs.Report.{is_of, byte_text, bytes_text, console_line, console_lines};

use crate::hex::write_byte;
use nova_kernel::Kernel;
use nova_model::LogByte;
use std::alloc::AllocError;

fn write_bytes(out: &mut String, console: u32, log: &[LogByte]) -> Result<(), AllocError>
    ensures { OnOk result (string_bytes out.new ≡ string_bytes out.old ++ flat_map byte_text (filter (is_of console) log.now)) }
{
    for byte in log {
        if byte.console == console {
            write_byte(out, byte.value)?;
        }
    }
    Ok(())
}

fn is_used(console: u32, log: &[LogByte]) -> bool
    ensures { result ≡ list_any (is_of console) log.now }
{
    log.iter().any(|byte| byte.console == console)
}

fn write_bytes_or_none(out: &mut String, console: u32, log: &[LogByte]) -> Result<(), AllocError>
    ensures { OnOk result (string_bytes out.new ≡ string_bytes out.old ++ bytes_text console log.now) }
{
    if is_used(console, log) {
        write_bytes(out, console, log)
    } else {
        out.push_str("-")
    }
}

fn write_console(out: &mut String, console: u32, log: &[LogByte]) -> Result<(), AllocError>
    ensures { OnOk result (string_bytes out.new ≡ string_bytes out.old ++ console_line log.now console) }
{
    write!(out, "console {console} ")?;
    write_bytes_or_none(out, console, log)?;
    out.push_str("\n")
}

/// Writes a line for each console of `kernel`, with the bytes that were stored to it.
pub fn write_consoles(out: &mut String, kernel: &Kernel) -> Result<(), AllocError>
    ensures { OnOk result (string_bytes out.new ≡ string_bytes out.old ++ console_lines kernel.now.state) }
{
    for console in 0..kernel.consoles() {
        write_console(out, console, kernel.log())?;
    }
    Ok(())
}

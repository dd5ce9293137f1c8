use std::io;
use std::io::Write;

/// A name with its number. The empty name stands for none.
pub type Row = (&'static str, u32);

/// Writes a line for each name of `rows`, with its number.
pub(crate) fn write_rows(out: &mut impl Write, rows: &[Row]) -> io::Result<()> {
    for (name, number) in rows {
        if !name.is_empty() {
            writeln!(out, "{name} {number}")?;
        }
    }
    Ok(())
}

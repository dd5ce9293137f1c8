use rv_core::Regs;
use std::fmt;

/// The registers that aren't 0, by number, as `x5=0000002a` with a space between, or `-` if all are 0.
#[derive(Clone, Copy)]
pub struct NonZeroRegisters<'a>(pub &'a Regs);

impl fmt::Display for NonZeroRegisters<'_> {
    fn fmt<W: fmt::Write>(&self, f: &mut fmt::Formatter<W>) -> fmt::Result {
        let mut separator = "";
        for i in 1..32 {
            let value = self.0.get(i);
            if value != 0 {
                write!(f, "{separator}x{i}={value:08x}")?;
                separator = " ";
            }
        }
        if separator.is_empty() {
            f.write_str("-")?;
        }
        Ok(())
    }
}

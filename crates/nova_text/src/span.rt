ghost use Rattle.std.specs.Prelude.{Some};

use std::fmt;

/// A part of a text by the places of its bytes, counted from 0: from `start` up to but not including `end`.
#[derive(Clone, Copy, Debug, PartialEq, Eq)]
pub struct Span {
    pub start: u64,
    pub end: u64,
}

impl fmt::Display for Span {
    ghost use Rattle.nova_text.specs.Printed.{span_text};

    ghost output = { λ span. Some (span_text span) };

    fn fmt<W: fmt::Write>(&self, f: &mut fmt::Formatter<W>) -> fmt::Result {
        let start = self.start;
        let end = self.end;
        write!(f, "{start}..{end}")
    }
}

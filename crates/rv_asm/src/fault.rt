ghost use Rattle.std.specs.Prelude.{◌≡◌, Some};
ghost use Rattle.rv_asm.specs.Operand.{fault_at, is_graver};

use nova_text::Span;
use std::alloc::AllocError;
use std::error::Error;
use std::fmt;

/// Why a text is no program. The span counts bytes from the start of the text.
#[derive(Clone, Copy, Debug, PartialEq, Eq)]
pub enum AsmFault {
    /// No instruction has this name.
    UnknownName(Span),

    /// An operand is not of the form that its place wants. Where the count of operands is wrong, this is the instruction's name.
    BadOperand(Span),

    /// The number of an operand, or the offset to its label, is outside the range of its place.
    OutOfRange(Span),

    /// The label stands on an earlier line too.
    TwiceLabel(Span),

    /// No line of the text has the label that an operand names.
    NoLabel(Span),

    /// Memory was refused.
    Memory,
}

impl From<AllocError> for AsmFault {
    ghost use Rattle.std.specs.Prelude.{◌≡◌};
    ghost use Rattle.rv_asm.specs.declared.fault.AsmFault.TheVariants.{Memory};

    ghost from_gives = { λ _ fault. fault ≡ Memory };

    fn from(_: AllocError) -> AsmFault {
        AsmFault::Memory
    }
}

impl fmt::Display for AsmFault {
    ghost use Rattle.rv_asm.specs.FaultText.{fault_text};

    ghost output = { λ fault. Some (fault_text fault) };

    fn fmt<W: fmt::Write>(&self, f: &mut fmt::Formatter<W>) -> fmt::Result {
        match self {
            AsmFault::UnknownName(span) => write!(f, "unknown name at {span}"),
            AsmFault::BadOperand(span) => write!(f, "bad operand at {span}"),
            AsmFault::OutOfRange(span) => write!(f, "out of range at {span}"),
            AsmFault::TwiceLabel(span) => write!(f, "label given twice at {span}"),
            AsmFault::NoLabel(span) => write!(f, "no such label at {span}"),
            AsmFault::Memory => f.write_str("out of memory"),
        }
    }
}

impl Error for AsmFault {}

/// Why a text is no operand of its place.
#[derive(Clone, Copy)]
pub enum OperandFault {
    /// It is not of the form that the place wants.
    Bad,

    /// It names a label that is not there.
    NoLabel,

    /// Its number or offset is outside the range of the place.
    OutOfRange,
}

/// An operand at fault.
#[derive(Clone, Copy)]
pub struct FaultyOperand {
    pub why: OperandFault,
    pub span: Span,
}

impl OperandFault {
    /// Whether the fault comes before `other`, of the same line, wherever its operand stands.
    pub fn is_graver(self, other: OperandFault) -> bool
        ensures { result ≡ is_graver self other }
    {
        match (self, other) {
            (OperandFault::Bad, OperandFault::NoLabel | OperandFault::OutOfRange) => true,
            (OperandFault::NoLabel, OperandFault::OutOfRange) => true,
            _ => false,
        }
    }

    /// The fault of the operand at `span`.
    pub fn at(self, span: Span) -> AsmFault
        ensures { result ≡ fault_at span self }
    {
        match self {
            OperandFault::Bad => AsmFault::BadOperand(span),
            OperandFault::NoLabel => AsmFault::NoLabel(span),
            OperandFault::OutOfRange => AsmFault::OutOfRange(span),
        }
    }
}

ghost use Rattle.std.specs.Prelude.{◌≡◌, Some};
ghost use Rattle.nova_scenario.specs.declared.fault.ScenarioFault.TheVariants.{At, Memory};
ghost use Rattle.nova_scenario.specs.Fault.{elf_name, name_of, message_of};

use nova_elf::ElfFault;
use rv_asm::AsmFault;
use std::alloc::AllocError;
use std::error::Error;
use std::fmt;

/// What is wrong with a line of a text that is no scenario. Of several faults of one line the first in this order is meant.
#[derive(Clone, Copy, Debug, PartialEq, Eq)]
pub enum Why {
    /// It is not of the form of its place.
    Syntax,

    /// An earlier line sets the same.
    Repeated,

    /// Not all settings stand before an image; or, on the line after the last, a setting, a line `end` or the executable whose entry is
    /// the first thread's is not there.
    Missing,

    /// A number is outside its range or is 2^32 or more, an image reaches past RAM, or the first executable's entry is no place of an
    /// instruction.
    Range,

    /// The image that ends here shares a byte with an earlier one, or two segments of the executable that ends here do.
    Overlap,

    /// The assembler's fault. Its span counts bytes from the start of the line after the image's first.
    Asm(AsmFault),

    /// The bytes of the block that ends here are no executable.
    Elf(ElfFault),
}

impl Why {
    /// This fault at line `line`.
    pub(crate) fn at(self, line: u64) -> ScenarioFault
        ensures { result ≡ At line self }
    {
        ScenarioFault::At { line, why: self }
    }
}

/// The name of `fault`, that of an executable, without what it carries.
fn elf_name(fault: ElfFault) -> &'static str
    ensures { result.now ≡ elf_name fault }
{
    match fault {
        ElfFault::NotElf => "NotElf",
        ElfFault::Class => "Class",
        ElfFault::ByteOrder => "ByteOrder",
        ElfFault::Version => "Version",
        ElfFault::NotExec => "NotExec",
        ElfFault::Machine => "Machine",
        ElfFault::Table => "Table",
        ElfFault::Dynamic(_) => "Dynamic",
        ElfFault::Segment(_) => "Segment",
        ElfFault::Memory => "Memory",
    }
}

impl fmt::Display for Why {
    ghost output = { λ why. Some (name_of why) };

    fn fmt<W: fmt::Write>(&self, f: &mut fmt::Formatter<W>) -> fmt::Result {
        f.write_str(match self {
            Why::Syntax => "Syntax",
            Why::Repeated => "Repeated",
            Why::Missing => "Missing",
            Why::Range => "Range",
            Why::Overlap => "Overlap",
            Why::Asm(AsmFault::UnknownName(_)) => "UnknownName",
            Why::Asm(AsmFault::BadOperand(_)) => "BadOperand",
            Why::Asm(AsmFault::OutOfRange(_)) => "OutOfRange",
            Why::Asm(AsmFault::TwiceLabel(_)) => "TwiceLabel",
            Why::Asm(AsmFault::NoLabel(_)) => "NoLabel",
            Why::Asm(AsmFault::Memory) => "Memory",
            Why::Elf(fault) => elf_name(*fault),
        })
    }
}

/// Why a text was not read as a scenario.
#[derive(Clone, Copy, Debug, PartialEq, Eq)]
pub enum ScenarioFault {
    /// It is no scenario: this is the first line at fault, counted from 1.
    At { line: u64, why: Why },

    /// Memory was refused.
    Memory,
}

impl fmt::Display for ScenarioFault {
    ghost output = { λ fault. Some (message_of fault) };

    fn fmt<W: fmt::Write>(&self, f: &mut fmt::Formatter<W>) -> fmt::Result {
        match self {
            ScenarioFault::At { line, why } => write!(f, "line {line}: {why}"),
            ScenarioFault::Memory => f.write_str("out of memory"),
        }
    }
}

impl Error for ScenarioFault {}

impl From<AllocError> for ScenarioFault {
    ghost from_gives = { λ _ fault. fault ≡ Memory };

    fn from(_: AllocError) -> Self {
        ScenarioFault::Memory
    }
}

ghost use Rattle.std.specs.Prelude.{◌≡◌, Some};
ghost use Rattle.nova_elf.specs.declared.fault.ElfFault.TheVariants.{Memory};
ghost use Rattle.nova_elf.specs.Fault.{message_of};

use std::alloc::AllocError;
use std::error::Error;
use std::fmt;

/// Why bytes were not read as an executable: the first fault in this order. Those of program headers are of the first header at fault.
#[derive(Clone, Copy, Debug, PartialEq, Eq)]
pub enum ElfFault {
    /// There are fewer than 52 bytes, or the first four are not `7f 45 4c 46`.
    NotElf,

    /// It is not of 32 bits.
    Class,

    /// It is not little-endian.
    ByteOrder,

    /// It is not of version 1.
    Version,

    /// It is no executable.
    NotExec,

    /// It is not for RISC-V.
    Machine,

    /// The program headers are not counted in their place, are not of 32 bytes, or reach past the end.
    Table,

    /// The program header of this number wants a dynamic linker.
    Dynamic(u32),

    /// The segment of the program header of this number reaches past the end of the bytes or of the addresses, or is smaller than what
    /// it has in the bytes.
    Segment(u32),

    /// Memory was refused.
    Memory,
}

impl From<AllocError> for ElfFault {
    ghost from_gives = { λ error fault. fault ≡ Memory };

    fn from(_: AllocError) -> ElfFault {
        ElfFault::Memory
    }
}

impl fmt::Display for ElfFault {
    ghost output = { λ fault. Some (message_of fault) };

    fn fmt<W: fmt::Write>(&self, f: &mut fmt::Formatter<W>) -> fmt::Result {
        match self {
            ElfFault::NotElf => f.write_str("NotElf"),
            ElfFault::Class => f.write_str("Class"),
            ElfFault::ByteOrder => f.write_str("ByteOrder"),
            ElfFault::Version => f.write_str("Version"),
            ElfFault::NotExec => f.write_str("NotExec"),
            ElfFault::Machine => f.write_str("Machine"),
            ElfFault::Table => f.write_str("Table"),
            ElfFault::Dynamic(index) => write!(f, "header {index}: Dynamic"),
            ElfFault::Segment(index) => write!(f, "header {index}: Segment"),
            ElfFault::Memory => f.write_str("out of memory"),
        }
    }
}

impl Error for ElfFault {}

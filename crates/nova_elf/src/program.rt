ghost use Rattle.std.specs.Prelude.{◌≡◌};

use std::marker::Model;

/// What an executable says of memory.
#[derive(Debug, Drop)]
pub struct Program {
    /// The address of the first instruction.
    pub entry: u32,

    /// What is to lie in memory, in the order of the program headers.
    pub segments: Segments,
}

/// Bytes of an executable that are to lie in memory. The memory after them, as far as it is theirs, is zero.
#[derive(Clone, Copy, Debug, PartialEq, Eq)]
pub struct Segment {
    /// The address of the first of them.
    pub address: u32,

    /// The place of the first of them in the executable.
    pub offset: u32,

    /// How many there are.
    pub file: u32,

    /// How many bytes of memory they take, with the zeros.
    pub memory: u32,
}

/// The segments of an executable. Contracts see them as a list.
#[derive(Debug, Drop)]
pub struct Segments {
    segments: Vec<Segment>,
}

impl Model for Segments {
    ghost use Rattle.std.specs.Prelude.{List};
    ghost use Rattle.nova_elf.specs.declared.program.Segment.{Segment};

    ghost Value = { List Segment };

    ghost view = { λ s. s.segments.items };
}

impl Segments {
    /// The segments as a slice.
    pub fn as_slice(&self) -> &[Segment]
        ensures { result.now ≡ self.now }
    {
        self.segments.as_slice()
    }
}

impl From<Vec<Segment>> for Segments {
    ghost from_gives = { λ vec segments. segments ≡ vec.items };

    fn from(segments: Vec<Segment>) -> Self {
        Segments { segments }
    }
}

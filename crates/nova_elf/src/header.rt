ghost use Rattle.std.specs.Prelude.{◌≡◌, ◌+◌, ◌≤◌, length};
ghost use Rattle.nova_elf.specs.Headers.{header_at, is_dynamic, is_loaded, has_bad_segment, fault_in, segment_of};

use crate::fault::ElfFault;
use crate::fields::word;
use crate::program::Segment;

/// What a program header says.
#[derive(Clone, Copy)]
pub struct Header {
    /// Its type.
    pub kind: u32,

    /// The place of its bytes.
    pub offset: u32,

    /// The address of the first of them.
    pub address: u32,

    /// How many bytes it has.
    pub file: u32,

    /// How many bytes of memory it takes.
    pub memory: u32,
}

impl Header {
    /// The program header of `bytes` at `place`.
    pub fn at(bytes: &[u8], place: usize) -> Header
        requires { place + 32 ≤ length bytes.now }
        ensures { result ≡ header_at bytes.now place }
    {
        Header {
            kind: word(bytes, place),
            offset: word(bytes, place + 4),
            address: word(bytes, place + 8),
            file: word(bytes, place + 16),
            memory: word(bytes, place + 20),
        }
    }

    /// Whether it wants a dynamic linker.
    fn is_dynamic(self) -> bool
        ensures { result ≡ is_dynamic self }
    {
        self.kind == 2 || self.kind == 3
    }

    /// Whether the header describes a segment: it is of type 1.
    pub fn is_loaded(self) -> bool
        ensures { result ≡ is_loaded self }
    {
        self.kind == 1
    }

    /// Whether its segment can't be laid into memory from a file of `len` bytes.
    fn has_bad_segment(self, len: u64) -> bool
        ensures { result ≡ has_bad_segment len self }
    {
        self.is_loaded()
            && (len < u64::from(self.offset) + u64::from(self.file)
                || self.memory < self.file
                || 1 << 32 < u64::from(self.address) + u64::from(self.memory))
    }

    /// The fault of the header, where it is header `index` of a file of `len` bytes.
    pub fn fault(self, len: u64, index: u32) -> Option<ElfFault>
        ensures { result ≡ fault_in len index self }
    {
        if self.is_dynamic() {
            Some(ElfFault::Dynamic(index))
        } else if self.has_bad_segment(len) {
            Some(ElfFault::Segment(index))
        } else {
            None
        }
    }

    /// The segment of the header.
    pub fn segment(self) -> Segment
        ensures { result ≡ segment_of self }
    {
        Segment {
            address: self.address,
            offset: self.offset,
            file: self.file,
            memory: self.memory,
        }
    }
}

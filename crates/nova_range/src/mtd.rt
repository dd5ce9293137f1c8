ghost use Rattle.std.specs.Prelude.{⊤, ◌≡◌, [], ◌∷◌, codes};

use bitflags::{Flag, Flags, bitflag_items};

/// A message transfer descriptor, 0 to 15: which groups of an exit message are filled. The groups are
/// the exit's two qualifications, pc, the registers x1 to x15, and the registers x16 to x31.
#[derive(Clone, Copy, PartialEq, Eq, Debug)]
pub struct Mtd(u32);

bitflag_items! {
    impl Mtd: u32 {
        const QUAL = 1;
        const PC = 2;
        const LOW = 4;
        const HIGH = 8;
    }
}

impl Flags for Mtd {
    type Bits = u32;

    ghost exact = { ⊤ };

    ghost table = { (codes "QUAL", 1) ∷ (codes "PC", 2) ∷ (codes "LOW", 4) ∷ (codes "HIGH", 8) ∷ [] };

    ghost set_of = { λ m. m.0 };

    fn flags<'a>() -> &'a [Flag<Mtd>] {
        Mtd::FLAGS
    }

    fn bits(&self) -> u32
        ensures { result ≡ self.now.0 }
    {
        self.0
    }

    fn from_bits_retain(bits: u32) -> Mtd
        ensures { result.0 ≡ bits }
    {
        Mtd(bits)
    }
}

ghost use Rattle.std.specs.Prelude.{⊤, ◌≡◌, [], ◌∷◌, codes};
ghost use Rattle.nova_range.specs.Rights.{IsRights, all_rights};

use bitflags::{Flag, Flags, bitflag_items};

/// What a capability allows, in five bits. The bits of a memory range are read, write and execute; an
/// object's bits mean what its kind gives them.
#[derive(Clone, Copy, PartialEq, Eq, Debug)]
pub struct Rights(u8);

bitflag_items! {
    impl Rights: u8 {
        const READ = 1;
        const WRITE = 2;
        const EXECUTE = 4;
    }
}

impl Flags for Rights {
    type Bits = u8;

    ghost exact = { ⊤ };

    ghost table = { (codes "READ", 1) ∷ (codes "WRITE", 2) ∷ (codes "EXECUTE", 4) ∷ [] };

    ghost set_of = { λ r. r.0 };

    fn flags<'a>() -> &'a [Flag<Rights>] {
        Rights::FLAGS
    }

    fn bits(&self) -> u8
        ensures { result ≡ self.now.0 }
    {
        self.0
    }

    fn from_bits_retain(bits: u8) -> Rights
        ensures { result.0 ≡ bits }
    {
        Rights(bits)
    }
}

/// What a capability leads to: memory, a protection domain, an execution context, a scheduling context,
/// a portal or a semaphore.
#[derive(Clone, Copy)]
pub enum Target {
    Memory,
    Pd,
    Ec,
    Sc,
    Pt,
    Sm,
}

impl Rights {
    /// Make objects in a protection domain.
    pub const CREATE: Rights = Rights(1);
    /// Control an execution context, a scheduling context or a portal.
    pub const CONTROL: Rights = Rights(1);
    /// Bind a scheduling context to an execution context.
    pub const BIND_SC: Rights = Rights(2);
    /// Bind a portal to an execution context.
    pub const BIND_PT: Rights = Rights(4);
    /// Call a portal.
    pub const CALL: Rights = Rights(2);
    /// Send exits to a portal.
    pub const EVENT: Rights = Rights(4);
    /// Raise a semaphore's counter.
    pub const UP: Rights = Rights(1);
    /// Lower a semaphore's counter.
    pub const DOWN: Rights = Rights(2);

    /// All rights to `target`.
    pub fn all_to(target: Target) -> Rights
        ensures all { result ≡ all_rights target }
        ensures bits { IsRights result }
    {
        match target {
            Target::Memory | Target::Ec | Target::Pt => Rights(7),
            Target::Pd | Target::Sc => Rights(1),
            Target::Sm => Rights(3),
        }
    }
}

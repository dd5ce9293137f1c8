ghost use Rattle.std.specs.Prelude.{◌≡◌};
ghost use Rattle.nova_model.specs.Views.{is_memory_of};
ghost use Rattle.nova_deeds.specs.Stirs.{stirs_itself};

use nova_model::{Deed, Derivation, Kind};

/// Whether `deed`, a virtual CPU's own, is an input from outside: its exit is sent, or it ends.
pub fn stirs_itself(deed: Deed) -> bool
    ensures { result ≡ stirs_itself deed }
{
    matches!(
        deed,
        Deed::Sends { .. } | Deed::Dies { .. } | Deed::Aborts { .. }
    )
}

/// Whether `d` is memory of the protection domain `pd`.
pub fn is_memory_of(pd: u32, d: &Derivation) -> bool
    ensures { result ≡ is_memory_of pd d.now }
{
    matches!(d.kind, Kind::Mem) && d.pd == pd
}

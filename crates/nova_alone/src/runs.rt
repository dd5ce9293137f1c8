ghost use Rattle.std.specs.Prelude.{◌≡◌, IfOk, OnErr};
ghost use Rattle.std.specs.List.{All};
ghost use Rattle.nova_guest.specs.Alone.{alone, outputs};
ghost use Rattle.nova_guest.specs.Conditions.{IsGuest, IsInput, WantMemory};

use crate::applying::apply;
use nova_guest::{Guest, Input, Out};
use std::alloc::{AllocError, Global};

/// Applies `inputs`, one after another, to the guest `start`, and returns the guest then and what it put out, in order. Memory can run out only where
/// a map is given that overlaps none then, or something is put out. What `apply` asks of a guest and an input holds of the guest at the start and of
/// each input.
pub fn alone(alloc: Global, start: Guest, inputs: &[Input]) -> Result<(Guest, Vec<Out>), AllocError>
    requires guest { IsGuest start }
    requires inputs { All IsInput inputs.now }
    ensures guest { IfOk result (λ r. r.0 ≡ alone start inputs.now) }
    ensures kept { IfOk result (λ r. IsGuest r.0) }
    ensures wanted { OnErr result (WantMemory start inputs.now) }
    ensures outs { IfOk result (λ r. r.1.items ≡ outputs start inputs.now) }
{
    let mut guest = start;
    let mut outs = Vec::new(alloc);
    for input in inputs {
        if let Some(out) = apply(&mut guest, input)? {
            outs.push(out)?;
        }
    }
    Ok((guest, outs))
}

ghost use Rattle.std.specs.Prelude.{◌≡◌, IfOk};

use nova_kernel::{Derivation, Kernel};
use std::alloc::{AllocError, Global};

/// The derivations of `kernel`, by rising id.
pub fn derivations_of(alloc: Global, kernel: &Kernel) -> Result<Vec<Derivation>, AllocError>
    ensures { IfOk result (λ list. list.items ≡ kernel.now.state.delegations.list) }
{
    let mut list = Vec::new(alloc);
    let mut id = 0;
    while let Some(derivation) = kernel.derivation_from(id) {
        list.push(derivation)?;
        id = derivation.id + 1;
    }
    Ok(list)
}

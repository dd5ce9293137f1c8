ghost use Rattle.std.specs.Prelude.{◌<◌, length, IfOk};
ghost use Rattle.nova_model.specs.State.{KernelState};
ghost use Rattle.nova_search.specs.Searches.{AreLinked, IsWay, state_at};

use crate::found::Found;
use std::alloc::{AllocError, Global};

/// The order of turns, from the first, by which the state at `place` of `found` was reached.
pub fn path_to(alloc: Global, found: &[Found], place: usize) -> Result<Vec<u32>, AllocError>
    requires place { place < length found.now }
    requires linked { AreLinked found.now }
    ensures { IfOk result (λ path. (d : KernelState) → IsWay (state_at found.now 0 d) (state_at found.now place d) path.items) }
{
    let mut path = Vec::new(alloc);
    let mut at = place;
    while at > 0 {
        let state = &found[at];
        path.push(state.cpu)?;
        at = state.from;
    }
    path.reverse();
    Ok(path)
}

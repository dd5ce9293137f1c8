ghost use Rattle.std.specs.Prelude.{◌≡◌, ◌+◌, ◌^◌, ◌<◌, ◌≤◌, true, length, IfOk};
ghost use Rattle.nova_compare.specs.Steps.{IsSuccessor};
ghost use Rattle.nova_search.specs.Searches.{IsEnd, IsWay};

use nova_compare::{Spares, Vertex};
use std::alloc::{AllocError, Global};
use std::mem;

/// Goes on by a turn of the processor `cpu`, and says whether it took one: it may be idle, or not be there.
fn go_on(vertex: &mut Vertex, spares: &mut Spares, cpu: u32) -> Result<bool, AllocError>
    requires { vertex.old.turns < 2 ^ 31 }
    ensures { IfOk result (λ went. went ≡ true → (cpu < vertex.old.cpus) × IsSuccessor vertex.old cpu vertex.new) }
{
    if cpu >= vertex.cpus() {
        return Ok(false);
    }
    let Some(next) = vertex.next(cpu, spares)? else {
        return Ok(false);
    };
    spares.keep(mem::replace(vertex, next));
    Ok(true)
}

/// Goes along `order`, and says whether it took each turn.
fn go_along(vertex: &mut Vertex, spares: &mut Spares, order: &[u32]) -> Result<bool, AllocError>
    requires { 0 < length order.now → vertex.old.turns + length order.now ≤ 2 ^ 31 }
    ensures { IfOk result (λ went. went ≡ true → IsWay vertex.old vertex.new order.now) }
{
    for cpu in order {
        if !go_on(vertex, spares, *cpu)? {
            return Ok(false);
        }
    }
    Ok(true)
}

/// The vertex after the turns of `order` from `opening`, in kernels of `spares` where there are some; none where one of them is of a processor that isn't
/// there, or is idle. At most 2^31 turns are taken in all.
pub(crate) fn retake(
    opening: &Vertex,
    spares: &mut Spares,
    order: &[u32],
) -> Result<Option<Vertex>, AllocError>
    requires { 0 < length order.now → opening.now.turns + length order.now ≤ 2 ^ 31 }
    ensures { IfOk result (IsEnd opening.now order.now) }
{
    let mut vertex = opening.copy_with(spares)?;
    if go_along(&mut vertex, spares, order)? {
        Ok(Some(vertex))
    } else {
        Ok(None)
    }
}

/// The vertex after the turns of `order` from `opening`; none where one of them is of a processor that isn't there, or is idle. At most 2^31
/// turns are taken in all.
pub fn follow(alloc: Global, opening: &Vertex, order: &[u32]) -> Result<Option<Vertex>, AllocError>
    requires { opening.now.turns + length order.now ≤ 2 ^ 31 }
    ensures { IfOk result (IsEnd opening.now order.now) }
{
    let mut spares = Spares::new(alloc);
    retake(opening, &mut spares, order)
}

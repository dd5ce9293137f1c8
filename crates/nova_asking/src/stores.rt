ghost use Rattle.std.specs.Prelude.{◌≡◌, IfOk};
ghost use Rattle.nova_model.specs.State.{context_at};
ghost use Rattle.nova_asking.specs.Stores.{some_stores, stores_by, stores_if, stores_on, stores_to};

use crate::locations::{is_executing, next_actor};
use nova_kernel::Kernel;
use nova_recording::{Watch, is_next_seen};
use std::alloc::AllocError;

/// Whether the execution context of a number is about to execute an instruction that stores to bytes that are watched.
fn stores_if(kernel: &Kernel, watch: Watch, ec: u32) -> Result<bool, AllocError>
    ensures { IfOk result (λ is. is ≡ stores_if kernel.now.state watch ec (context_at kernel.now.state ec)) }
{
    let Some(context) = kernel.ec(ec) else {
        return Ok(false);
    };
    if !is_executing(context) {
        return Ok(false);
    }
    let copy = kernel.copy()?;
    Ok(is_next_seen(copy, ec, watch))
}

/// Whether the next turn of a processor is such an instruction.
fn stores_on(kernel: &Kernel, watch: Watch, cpu: u32) -> Result<bool, AllocError>
    ensures { IfOk result (λ is. is ≡ stores_on kernel.now.state watch cpu) }
{
    match next_actor(kernel, cpu) {
        Some(ec) => stores_if(kernel, watch, ec),
        None => Ok(false),
    }
}

/// Stores to the bytes of a frame from one to another.
fn stores_to(frame: u32, first: u32, last: u32) -> Watch
    ensures { result ≡ stores_to frame first last }
{
    Watch {
        frame,
        first,
        last,
        loads: false,
        stores: true,
    }
}

/// Whether the next turn of some processor is an instruction that stores to bytes of a frame.
pub(crate) fn some_stores(
    kernel: &Kernel,
    frame: u32,
    first: u32,
    last: u32,
) -> Result<bool, AllocError>
    ensures { IfOk result (λ is. is ≡ some_stores kernel.now.state frame first last) }
{
    let watch = stores_to(frame, first, last);
    for cpu in 0..kernel.cpus() {
        if stores_on(kernel, watch, cpu)? {
            return Ok(true);
        }
    }
    Ok(false)
}

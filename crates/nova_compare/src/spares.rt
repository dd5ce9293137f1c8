ghost use Rattle.std.specs.Prelude.{◌≡◌, IfOk};

use crate::vertex::Vertex;
use nova_kernel::Kernel;
use std::alloc::{AllocError, Global};

/// Kernels of vertices that are gone, to be used again: a kernel is large, and to make one takes far longer than to restore a state in one
/// that is there.
#[derive(Drop)]
pub struct Spares {
    kernels: Vec<Box<Kernel>>,
    alloc: Global,
}

/// A kernel of its own in the state of `from`.
pub(crate) fn copied(alloc: Global, from: &Kernel) -> Result<Box<Kernel>, AllocError>
    ensures { IfOk result (λ kernel. kernel.value.state ≡ from.now.state) }
{
    Ok(Box::new(alloc, from.copy()?)?)
}

/// `kernel`, in the state of `from`.
fn restored(mut kernel: Box<Kernel>, from: &Kernel) -> Result<Box<Kernel>, AllocError>
    ensures { IfOk result (λ kernel. kernel.value.state ≡ from.now.state) }
{
    kernel.restore(from)?;
    Ok(kernel)
}

impl Spares {
    /// No kernels.
    pub fn new(alloc: Global) -> Spares {
        Spares {
            kernels: Vec::new(alloc),
            alloc,
        }
    }

    /// Keeps the kernel of a vertex that is gone. Where memory is refused it is dropped.
    pub fn keep(&mut self, vertex: Vertex) {
        self.put(vertex.into_kernel());
    }

    /// Keeps a kernel. Where memory is refused it is dropped.
    pub(crate) fn put(&mut self, kernel: Box<Kernel>) {
        let _kept = self.kernels.push(kernel);
    }

    /// A kernel in the state of `from`: one that was kept, where there is one.
    pub(crate) fn copy_of(&mut self, from: &Kernel) -> Result<Box<Kernel>, AllocError>
        ensures { IfOk result (λ kernel. kernel.value.state ≡ from.now.state) }
    {
        match self.kernels.pop() {
            Some(kernel) => restored(kernel, from),
            None => copied(self.alloc, from),
        }
    }
}

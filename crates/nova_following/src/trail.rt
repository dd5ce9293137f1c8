ghost use Rattle.std.specs.Prelude.{◌≡◌, ◌<◌, ◌++◌, IfOk, OnOk};
ghost use Rattle.nova_following.specs.Follows.{IsClosed, IsTakable, is_virtual, listed, met, noted, nothing, seen};

use nova_alone::alone;
use nova_guest::{Guest, Input};
use nova_kernel::{EcKind, Kernel, Object};
use nova_twin::Side;
use std::alloc::{AllocError, Global};
use std::marker::Model;

/// What is known so far of a virtual CPU that is followed: its view at its birth, and its inputs since.
#[derive(Drop)]
pub(crate) struct Trail {
    start: Option<Guest>,
    inputs: Vec<Input>,
}

impl Model for Trail {
    ghost use Rattle.nova_following.specs.Follows.{Followed};

    ghost Value = { Followed };

    ghost view = { λ t. record { start = t.start; inputs = t.inputs.items } };
}

/// Whether a virtual CPU has the number `guest`.
fn is_virtual(kernel: &Kernel, guest: u32) -> bool
    ensures { result ≡ is_virtual kernel.now.state guest }
{
    match kernel.object(guest) {
        Some(
            Object::Ec {
                kind: EcKind::Vcpu,
                ..
            },
        ) => true,
        _ => false,
    }
}

/// The view of the virtual CPU `guest`; none where there is none.
fn view_of(alloc: Global, kernel: &Kernel, guest: u32) -> Result<Option<Guest>, AllocError>
    ensures { IfOk result (λ v. v ≡ seen kernel.now.state guest) }
{
    if !is_virtual(kernel, guest) {
        return Ok(None);
    }
    Ok(Some(kernel.view(alloc, guest)?))
}

/// What the next turn of the processor `cpu` is for the virtual CPU `guest`; nothing where there is none. The kernel's state stays as it was.
pub(crate) fn input_of(
    alloc: Global,
    kernel: &mut Kernel,
    cpu: u32,
    guest: u32,
) -> Result<Option<Input>, AllocError>
    requires { cpu < kernel.old.state.cpus }
    ensures input { IfOk result (λ i. i ≡ met kernel.old.state cpu guest) }
    ensures kept { kernel.new ≡ kernel.old }
{
    if !is_virtual(kernel, guest) {
        return Ok(None);
    }
    kernel.input(alloc, cpu, guest)
}

impl Trail {
    /// Nothing is known.
    pub(crate) fn new(alloc: Global) -> Trail
        ensures { result ≡ nothing }
    {
        Trail {
            start: None,
            inputs: Vec::new(alloc),
        }
    }

    /// Where its memory comes from.
    pub(crate) fn alloc(&self) -> Global {
        *self.inputs.allocator()
    }

    /// Notes a turn that was `input` for `guest` and came to the state of `kernel`.
    pub(crate) fn note(
        &mut self,
        kernel: &Kernel,
        guest: u32,
        input: Option<Input>,
    ) -> Result<(), AllocError>
        ensures { OnOk result (self.new ≡ noted self.old kernel.now.state guest input) }
    {
        if self.start.is_none() {
            self.look(kernel, guest)
        } else {
            self.add(input)
        }
    }

    /// Notes the view of `guest`, where it is there.
    fn look(&mut self, kernel: &Kernel, guest: u32) -> Result<(), AllocError>
        ensures { OnOk result (self.new ≡ record self.old { start = seen kernel.now.state guest }) }
    {
        self.start = view_of(self.alloc(), kernel, guest)?;
        Ok(())
    }

    /// Notes `input`, where there is one.
    fn add(&mut self, input: Option<Input>) -> Result<(), AllocError>
        ensures { OnOk result (self.new ≡ record self.old { inputs = self.old.inputs ++ listed input }) }
    {
        if let Some(input) = input {
            self.inputs.push(input)?;
        }
        Ok(())
    }

    /// The side that comes of it; none where it was never there.
    pub(crate) fn close(self) -> Result<Option<Side>, AllocError>
        requires { IsTakable self }
        ensures { IfOk result (IsClosed self) }
    {
        let Trail { start, inputs } = self;
        let Some(start) = start else {
            return Ok(None);
        };
        let (end, outs) = alone(*inputs.allocator(), start.copy()?, inputs.as_slice())?;
        Ok(Some(Side {
            start,
            inputs,
            end,
            outs,
        }))
    }
}

ghost use Rattle.std.specs.Prelude.{◌≡◌, ◌^◌, ◌<◌, ℕ, false, IfOk, option_map};
ghost use Rattle.std.specs.Bool.{OnTrue};
ghost use Rattle.law_turns.specs.Keeping.{IsKept};
ghost use Rattle.law_alike.specs.Alike.{AreStampsGiven, IsAlike, TellsNoTicks};
ghost use Rattle.nova_compare.specs.Steps.{IsNext, IsStepped, IsTurned};
ghost use Rattle.nova_compare.specs.Vertices.{IsBooted};

use crate::counts::same_counts;
use crate::reading::are_read_alike;
use crate::spares::{Spares, copied};
use crate::tally::{Tally, at_boot};
use crate::ticks::tells_ticks;
use crate::times::{are_moments_alike, same_moments};
use nova_kernel::{Event, Kernel, Turn};
use std::alloc::{AllocError, Global};
use std::marker::Model;

/// A vertex of the graph of states: a kernel in one of them, with what is counted of it, so that it can be compared with others.
#[derive(Drop)]
pub struct Vertex {
    /// A kernel is large: it is moved as little as may be.
    kernel: Box<Kernel>,
    tally: Tally,
    alloc: Global,
}

impl Model for Vertex {
    ghost use Rattle.nova_model.specs.State.{KernelState};

    ghost Value = { KernelState };

    ghost use Rattle.nova_compare.specs.Vertices.{IsVertex};

    ghost view = { λ v. v.kernel.value.state };

    ghost invariant = { λ v. IsVertex v.kernel.value.state v.tally };
}

/// Drops a value out of line, which keeps the caller's proof small.
pub(crate) fn let_go<T: Drop>(_value: T) {}

/// One turn of a processor, for which there is room.
fn turned(kernel: &mut Kernel, cpu: u32) -> Result<Turn, AllocError>
    requires cpu { cpu < kernel.old.state.cpus }
    requires turns { kernel.old.state.turns < 2 ^ 31 }
    ensures { IfOk result (IsTurned kernel.old.state cpu kernel.new.state) }
{
    kernel.reserve_log(1)?;
    kernel.turn(cpu)
}

/// A turn of a processor on a copy: the kernel after it, and its event; none where the processor is idle.
fn stepped(
    spares: &mut Spares,
    from: &Kernel,
    cpu: u32,
) -> Result<Option<(Box<Kernel>, Event)>, AllocError>
    requires cpu { cpu < from.now.state.cpus }
    requires turns { from.now.state.turns < 2 ^ 31 }
    ensures { IfOk result (λ o. IsStepped from.now.state cpu (option_map (λ p. (p.0.value.state, p.1)) o)) }
{
    let mut next = spares.copy_of(from)?;
    match turned(&mut next, cpu)? {
        Turn::Stepped(event) => Ok(Some((next, event))),
        Turn::Idle => {
            spares.put(next);
            Ok(None)
        }
    }
}

impl Vertex {
    /// The vertex of `kernel`, which has just booted.
    #[tactic(auto, using(crate::proofs::Next::begin_vertex))]
    pub fn begin(alloc: Global, kernel: &Kernel) -> Result<Vertex, AllocError>
        requires { IsBooted kernel.now.state }
        ensures { IfOk result (λ v. v ≡ kernel.now.state) }
    {
        law_turns::turns_keep_what_they_find();
        law_alike::alike_states_have_alike_turns();
        law_sameness::turns_count_by_what_is_read();
        law_sameness::x0_is_always_zero();
        let tally = at_boot(alloc, kernel)?;
        let kernel = copied(alloc, kernel)?;
        Ok(Vertex {
            kernel,
            tally,
            alloc,
        })
    }

    /// Copies the vertex into memory of its own.
    pub fn copy(&self) -> Result<Vertex, AllocError>
        ensures { IfOk result (λ v. v ≡ self.now) }
    {
        let tally = self.tally.copy(self.alloc)?;
        let kernel = copied(self.alloc, &self.kernel)?;
        Ok(Vertex {
            kernel,
            tally,
            alloc: self.alloc,
        })
    }

    /// Copies the vertex, into a kernel of `spares` where there is one.
    pub fn copy_with(&self, spares: &mut Spares) -> Result<Vertex, AllocError>
        ensures { IfOk result (λ v. v ≡ self.now) }
    {
        let tally = self.tally.copy(self.alloc)?;
        let kernel = spares.copy_of(&self.kernel)?;
        Ok(Vertex {
            kernel,
            tally,
            alloc: self.alloc,
        })
    }

    /// The kernel of the vertex, which is gone.
    pub(crate) fn into_kernel(self) -> Box<Kernel> {
        self.kernel
    }

    /// The kernel of the vertex.
    pub fn kernel(&self) -> &Kernel
        ensures { result.now.state ≡ self.now }
    {
        &self.kernel
    }

    /// How many processors there are.
    pub fn cpus(&self) -> u32
        ensures { result ≡ self.now.cpus }
    {
        self.kernel.cpus()
    }

    /// How many turns were taken.
    pub fn turns(&self) -> u64
        ensures { result ≡ self.now.turns }
    {
        self.kernel.turns()
    }

    /// The vertex after a turn of the processor `cpu`, in a kernel of `spares` where there is one; none where the processor is idle. Fewer than
    /// 2^31 turns were taken before.
    #[tactic(auto, using(crate::proofs::Next::next_vertex, crate::proofs::Next::next_succeeds))]
    pub fn next(&self, cpu: u32, spares: &mut Spares) -> Result<Option<Vertex>, AllocError>
        requires cpu { cpu < self.now.cpus }
        requires turns { self.now.turns < 2 ^ 31 }
        ensures { IfOk result (IsNext self.now cpu) }
    {
        law_turns::turns_keep_what_they_find();
        law_alike::alike_states_have_alike_turns();
        law_sameness::turns_count_by_what_is_read();
        law_sameness::x0_is_always_zero();
        let Some((kernel, event)) = stepped(spares, &self.kernel, cpu)? else {
            return Ok(None);
        };
        match self.tally.after(self.alloc, &self.kernel, &event, &kernel) {
            Ok(tally) => Ok(Some(Vertex {
                kernel,
                tally,
                alloc: self.alloc,
            })),
            Err(error) => {
                let_go(kernel);
                Err(error)
            }
        }
    }

    /// Whether the vertex and `other` are seen to be in the same state. They are not seen to be where memory is refused.
    pub fn is_same(&self, other: &Vertex) -> bool
        ensures { OnTrue result (self.now ≡ other.now) }
    {
        law_sameness::states_that_are_read_and_counted_alike_are_the_same();
        let a = self.kernel();
        let b = other.kernel();
        let count = a.objects().len() as u32;
        a.turns() == b.turns()
            && self.tally.is_same(&other.tally)
            && same_moments(a, b, count)
            && are_read_alike(self.alloc, a, b)
            && same_counts(a, b, count)
    }

    /// Whether the vertex and `other` are seen to be in alike states. They are not seen to be where memory is refused.
    pub fn is_alike(&self, other: &Vertex) -> bool
        ensures { OnTrue result (IsAlike self.now other.now) }
    {
        law_sameness::states_that_are_read_alike_and_in_step_are_alike();
        let a = self.kernel();
        let b = other.kernel();
        self.tally.is_in_step(&other.tally, a.objects())
            && are_moments_alike(a, b, a.objects().len() as u32)
            && are_read_alike(self.alloc, a, b)
    }

    /// Whether the next turn of a processor tells ticks. Where memory is refused, or 2^31 turns were taken, it may say so of one that doesn't.
    pub fn tells_ticks(&self) -> bool
        ensures { result ≡ false → (cpu : ℕ) → cpu < self.now.cpus → TellsNoTicks self.now cpu }
    {
        tells_ticks(self.alloc, &self.kernel)
    }

    /// What turns keep holds of the state of the vertex, and its stamps are below the next.
    pub fn is_kept(&self)
        ensures kept { IsKept self.now }
        ensures given { AreStampsGiven self.now }
    {
        let _ = &self.kernel;
    }
}

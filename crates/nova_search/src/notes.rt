ghost use Rattle.std.specs.Prelude.{◌≡◌, ◌<◌, ℕ, Bool, true, IfOk, OnOk};
ghost use Rattle.nova_model.specs.State.{KernelState};
ghost use Rattle.nova_search.specs.Notes.{IsMarked, StayNoted, both};
ghost use Rattle.nova_search.specs.Reductions.{AreApart};

use nova_compare::Vertex;
use std::alloc::AllocError;

/// What a reduced search notes: what each turn that it takes touches, and which of them it takes alone.
pub trait Notes {
    // What a turn touches.
    ghost Touch: { Type 0 };

    // That the turn of a processor in a state touches no more than this.
    ghost touched: { KernelState → ℕ → Touch → Type 0 };

    // Whether a turn of one processor is apart from one of another, by what each touches.
    ghost apart: { ℕ → Touch → ℕ → Touch → Bool };

    // Whether turns of a processor that touch this are among what was noted.
    ghost noted: { Self → ℕ → Touch → Bool };

    // And among what was noted as taken alone.
    ghost lone: { Self → ℕ → Touch → Bool };

    /// Whether the turn of the processor `cpu` in the state of `vertex` may be taken alone: it touches nothing that is known to be shared. Where it says so
    /// wrongly, `are_apart` tells.
    fn may_be_alone(&self, vertex: &Vertex, cpu: u32) -> Result<bool, AllocError>
        requires { cpu < vertex.now.cpus };

    /// Notes what the turn of the processor `cpu` in the state of `vertex` touches. What was noted before stays so.
    fn note(&mut self, vertex: &Vertex, cpu: u32) -> Result<(), AllocError>
        requires { cpu < vertex.now.cpus }
        ensures noted { OnOk result (IsMarked Touch (touched vertex.now cpu) (noted self.new cpu)) }
        ensures stay { OnOk result (StayNoted Touch (noted self.old) (lone self.old) (noted self.new) (lone self.new)) };

    /// Notes what the turn of the processor `cpu` in the state of `vertex` touches, as taken alone. What was noted before stays so.
    fn note_lone(&mut self, vertex: &Vertex, cpu: u32) -> Result<(), AllocError>
        requires { cpu < vertex.now.cpus }
        ensures noted { OnOk result (IsMarked Touch (touched vertex.now cpu) (both (noted self.new cpu) (lone self.new cpu))) }
        ensures stay { OnOk result (StayNoted Touch (noted self.old) (lone self.old) (noted self.new) (lone self.new)) };

    /// Whether what was noted as taken alone is seen to be apart from all that was noted of other processors.
    fn are_apart(&self) -> Result<bool, AllocError>
        ensures { IfOk result (λ are. are ≡ true → AreApart Touch apart (noted self.now) (lone self.now)) };

    /// Enters as shared what turns that were taken alone and turns of other processors both touch, so that it is known to the next round. What was noted
    /// may be forgotten.
    fn share(&mut self) -> Result<(), AllocError>;
}

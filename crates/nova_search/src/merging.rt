ghost use Rattle.std.specs.Prelude.{◌≡◌, ◌<◌, ℕ, true, false};
ghost use Rattle.std.specs.Bool.{OnTrue};
ghost use Rattle.nova_model.specs.Choice.{is_quiet};
ghost use Rattle.nova_model.specs.Runs.{after};
ghost use Rattle.nova_model.specs.State.{KernelState};
ghost use Rattle.nova_search.specs.Merged.{IsApt, IsOne, StaysOne};
ghost use Rattle.nova_search.specs.Reductions.{IsStill};
ghost use Rattle.nova_search.specs.declared.merging.Merging.TheVariants.{Same};

use nova_compare::Vertex;

/// Which states a search takes for one.
#[derive(Clone, Copy)]
pub enum Merging {
    /// Those that are the same in full.
    Same,

    /// Those that are alike: they differ in nothing but what counts turns, scheduling contexts that compete are in the same order, and moments are as
    /// far from clocks.
    Alike,
}

impl Merging {
    /// Whether two vertices are seen to be in states that are one.
    pub(crate) fn is_one(self, a: &Vertex, b: &Vertex) -> bool
        ensures { OnTrue result (IsOne self a.now b.now) }
    {
        match self {
            Merging::Same => a.is_same(b),
            Merging::Alike => a.is_alike(b),
        }
    }

    /// Whether turns may lead from states that are one with that of `vertex` to states that aren't: where alike states are one, some turn tells ticks.
    pub(crate) fn may_part(self, vertex: &Vertex) -> bool
        ensures stay { result ≡ false → (cpu : ℕ) → cpu < vertex.now.cpus → StaysOne self vertex.now cpu }
        ensures same { self ≡ Same → result ≡ false }
    {
        match self {
            Merging::Same => false,
            Merging::Alike => vertex.tells_ticks(),
        }
    }

    /// Whether edges are entered: they are where states that are the same are one.
    pub(crate) fn draws(self) -> bool
        ensures { self ≡ Same → result ≡ true }
    {
        match self {
            Merging::Same => true,
            Merging::Alike => false,
        }
    }
}

/// A state is one with itself, and with what is one with a state that is; states are one both ways. Turns lead from states that are one to states that are one, unless they part; and
/// where no processor has a turn to take in one state, none has in a state that is one with it.
pub(crate) fn states_are_one()
    ensures reflexive { (m : Merging) (s : KernelState) → IsOne m s s }
    ensures symmetric { (m : Merging) (s t : KernelState) → IsOne m s t → IsOne m t s }
    ensures transitive { (m : Merging) (s t u : KernelState) → IsOne m s t → IsOne m t u → IsOne m s u }
    ensures turns { (m : Merging) (s t : KernelState) (cpu : ℕ) → IsApt s → IsApt t → IsOne m s t → StaysOne m s cpu → IsOne m (after s cpu) (after t cpu) }
    ensures apt { (s : KernelState) (cpu : ℕ) → IsApt s → IsApt (after s cpu) }
    ensures quiet { (m : Merging) (s t : KernelState) → IsOne m s t → is_quiet s ≡ true → IsStill s.cpus t }
{
    law_alike::alikeness_is_an_equivalence();
    law_alike::alike_states_have_alike_turns();
    law_alike::alike_states_are_as_one();
    law_turns::turns_keep_what_they_find();
    law_turns::quiet_is_every_processor_idle();
}

/// Turns of the state of a vertex keep what they are to find.
pub(crate) fn is_apt(vertex: &Vertex)
    ensures { IsApt vertex.now }
{
    vertex.is_kept();
}

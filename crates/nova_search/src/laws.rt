ghost use Rattle.std.specs.Prelude.{◌≡◌, ◌+◌, ◌<◌, ◌≤◌, ℕ, Bool, true, false, List, length, Contains};
ghost use Rattle.nova_model.specs.Choice.{is_quiet};
ghost use Rattle.nova_model.specs.State.{KernelState};
ghost use Rattle.nova_model.specs.Runs.{run};
ghost use Rattle.nova_search.specs.Merged.{HasOne, IsApt, IsOne};
ghost use Rattle.nova_search.specs.Searches.{AreAllWithin, AreProcessors};
ghost use Rattle.nova_search.specs.declared.merging.Merging.{Merging};
ghost use Rattle.nova_search.specs.Reductions.{IsCovered, IsReduction, IsStable, IsStill, Swaps};

use crate::merging::states_are_one;
use crate::notes::Notes;

/// A reduced search expands some states by the turn of one processor alone, where what that turn touches is apart from all that was noted of other
/// processors; each leads to a later place. Where turns that are apart may change places, each turn of every order was noted, and of some turns more, which lead
/// to a state that is one with one that was found; and where no processor has a turn to take after an order, the state after it is itself one with one.
pub fn reduced_searches_are_complete<N: Notes>()
    ensures covered { (noted lone : ℕ → N.Touch → Bool) (m : Merging) (k : KernelState) (states : List KernelState) → IsApt k → Swaps N.Touch N.touched N.apart m
        → IsReduction N.Touch N.touched N.apart noted lone m k states → (order : List ℕ) → AreProcessors k.cpus order
        → IsCovered N.Touch N.touched noted m k.cpus states k order }
    ensures still { (noted lone : ℕ → N.Touch → Bool) (m : Merging) (k : KernelState) (states : List KernelState) → IsApt k → Swaps N.Touch N.touched N.apart m
        → IsReduction N.Touch N.touched N.apart noted lone m k states → (order : List ℕ) → AreProcessors k.cpus order → IsStill k.cpus (run k order)
        → HasOne m states (run k order) }
{
    states_are_one();
}

/// A test of a state and a processor that fails in every state that was found fails after every order within the limit, where it says the same of states
/// that are one.
pub fn what_is_in_no_state_is_in_no_order()
    ensures { (m : Merging) (test : KernelState → ℕ → Bool) (k : KernelState) (limit : ℕ) (states : List KernelState) → AreAllWithin m k limit states
        → ((s t : KernelState) (cpu : ℕ) → IsOne m s t → test s cpu ≡ test t cpu)
        → ((s : KernelState) (cpu : ℕ) → Contains states s → cpu < k.cpus → test s cpu ≡ false)
        → (order : List ℕ) (cpu : ℕ) → AreProcessors k.cpus order → k.turns + length order ≤ limit → cpu < k.cpus → test (run k order) cpu ≡ false }
{}

/// Where the kernel is quiet after an order, a reduced search found a state that is one with the state after it.
pub fn quiet_ends_are_found<N: Notes>()
    ensures { (noted lone : ℕ → N.Touch → Bool) (m : Merging) (k : KernelState) (states : List KernelState) → IsApt k → Swaps N.Touch N.touched N.apart m
        → IsReduction N.Touch N.touched N.apart noted lone m k states → (order : List ℕ) → AreProcessors k.cpus order
        → is_quiet (run k order) ≡ true → HasOne m states (run k order) }
{
    states_are_one();
    law_turns::quiet_is_every_processor_idle();
}

/// A stable property, which no turn undoes, holds after no order where it holds in no state that a reduced search found, if it holds of states that are one
/// alike.
pub fn stable_properties_are_found<N: Notes>()
    ensures { (noted lone : ℕ → N.Touch → Bool) (m : Merging) (property : KernelState → Bool) (k : KernelState) (states : List KernelState) → IsApt k
        → Swaps N.Touch N.touched N.apart m → IsReduction N.Touch N.touched N.apart noted lone m k states → IsStable property k
        → ((s t : KernelState) → IsOne m s t → property s ≡ property t)
        → ((s : KernelState) → Contains states s → property s ≡ false)
        → (order : List ℕ) → AreProcessors k.cpus order → property (run k order) ≡ false }
{
    reduced_searches_are_complete::<N>();
}

/// What no turn does unless its touch shows it, as a store to a frame, is done by no turn of any order, where nothing that a reduced search noted of the
/// processor shows it.
pub fn what_no_note_shows_is_never_done<N: Notes>()
    ensures { (noted lone : ℕ → N.Touch → Bool) (m : Merging) (does : KernelState → ℕ → Bool) (shows : ℕ → N.Touch → Bool) (k : KernelState)
        (states : List KernelState) → IsApt k → Swaps N.Touch N.touched N.apart m → IsReduction N.Touch N.touched N.apart noted lone m k states
        → ((s : KernelState) (cpu : ℕ) (t : N.Touch) → N.touched s cpu t → does s cpu ≡ true → shows cpu t ≡ true)
        → ((cpu : ℕ) (t : N.Touch) → cpu < k.cpus → noted cpu t ≡ true → shows cpu t ≡ false)
        → (order : List ℕ) (cpu : ℕ) → AreProcessors k.cpus order → cpu < k.cpus → does (run k order) cpu ≡ false }
{
    reduced_searches_are_complete::<N>();
}

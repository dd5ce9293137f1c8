// Laws of what may run, and what pays.
ghost use Rattle.std.specs.Prelude.{◌↔◌, ℕ};
ghost use Rattle.std.specs.List.{Contains};
ghost use Rattle.nova_model.specs.Capabilities.{is_local};
ghost use Rattle.nova_model.specs.Choice.{Candidate, candidates};
ghost use Rattle.nova_model.specs.State.{KernelState};
ghost use Rattle.law_turns.specs.Tables.{IsOf};
ghost use Rattle.law_origins.specs.Reachable.{IsReachable};
ghost use Rattle.law_origins.specs.Giving.{Acts};
ghost use Rattle.law_integrity.specs.Runnable.{IsRunnable};
ghost use Rattle.law_integrity.specs.Waits.{HasLocalEdges, PaysItself};

/// In each reachable state, the candidates of a processor are exactly its scheduling contexts whose turns lead,
/// along edges from the context that they are bound to, to a context that acts.
pub fn who_may_run_is_a_candidate()
    ensures { (k : KernelState) (cpu : ℕ) (c : Candidate)
        → IsReachable k
        → Contains (candidates k cpu) c ↔ IsRunnable k cpu c }
{}

/// In each reachable state, edges lead to local threads. So a turn in which another acts, a virtual CPU for
/// one, is paid by a scheduling context that is bound to that context itself.
pub fn only_handlers_are_paid_for()
    ensures edges { (k : KernelState) → IsReachable k
        → HasLocalEdges k }
    ensures pays { (k : KernelState) (cpu ec : ℕ)
        → IsReachable k
        → Acts k cpu ec
        → (IsOf k.objects is_local ec → ⊥)
        → PaysItself k cpu ec }
{}

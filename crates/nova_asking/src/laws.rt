ghost use Rattle.std.specs.Prelude.{◌≡◌, ◌≤◌, ℕ, Bool, false, List, length};
ghost use Rattle.nova_model.specs.State.{KernelState};
ghost use Rattle.nova_model.specs.Runs.{run};
ghost use Rattle.nova_search.specs.Searches.{AreProcessors};
ghost use Rattle.law_alike.specs.Alike.{IsAlike};
ghost use Rattle.nova_asking.specs.Hangs.{comes_within};
ghost use Rattle.nova_asking.specs.Outcomes.{outcome};
ghost use Rattle.nova_asking.specs.Questions.{IsOfState, has_context, is_so};
ghost use Rattle.nova_asking.specs.declared.question.Question.{Question};

/// Nothing that passes a test comes within some turns of a state exactly where no order of at most so many turns leads from there to a state that
/// passes it.
pub fn what_comes_within_turns()
    ensures none { (test : KernelState → Bool) (cpus turns : ℕ) (k : KernelState) → comes_within test cpus turns k ≡ false
        → (order : List ℕ) → AreProcessors cpus order → length order ≤ turns → test (run k order) ≡ false }
    ensures only { (test : KernelState → Bool) (cpus turns : ℕ) (k : KernelState)
        → ((order : List ℕ) → AreProcessors cpus order → length order ≤ turns → test (run k order) ≡ false) → comes_within test cpus turns k ≡ false }
{}

/// Alike states answer each question on a state alike, have the same outcome, and the same execution contexts are there.
pub fn alike_states_answer_alike()
    ensures questions { (k l : KernelState) (q : Question) → IsOfState q → IsAlike k l → is_so q k ≡ is_so q l }
    ensures outcomes { (k l : KernelState) → IsAlike k l → outcome k ≡ outcome l }
    ensures contexts { (ec : ℕ) (k l : KernelState) → IsAlike k l → has_context ec k ≡ has_context ec l }
{
    law_alike::alike_states_have_alike_turns();
    law_alike::alike_states_are_as_one();
}

ghost use Rattle.std.specs.Prelude.{◌≡◌, ℕ, ◌<◌, ◌≤◌, List, true, false, codes, length, Ok};
ghost use Rattle.std.specs.List.{AllByRecursion};
ghost use Rattle.nova_gen.specs.Generated.{generated};
ghost use Rattle.nova_model.specs.Boot.{boot};
ghost use Rattle.nova_model.specs.Choice.{is_quiet};
ghost use Rattle.nova_model.specs.Runs.{IsFreeOfIdle, run, trace};
ghost use Rattle.nova_model.specs.State.{KernelState};
ghost use Rattle.nova_report.specs.Summary.{summary};
ghost use Rattle.nova_scenario.specs.Scenario.{scenario};
ghost use Rattle.nova_scenario.specs.declared.scenario.Scenario.{Scenario};
ghost use Rattle.nova_boot.specs.Boot.{scenario_of};
ghost use Rattle.law_texts.specs.Benches.{EndsSo, bench_line, bench_turns};

use nova_boot::bytes_lie_where_they_are_laid;

/// The bench of each number from 1 to 90,000 ends quiet. It takes 10 turns for each domain and 9 more, none of them idle; then it is quiet, and its
/// line says these turns, one derivation made and one removed for each domain, and one capability for each beside the four of the beginning. Two of
/// the lines in full. On one processor any order that is free of idle turns, and either ends quiet or has at least as many turns, gives that line: so
/// the run of a bench with ample limit does.
pub fn benches_by_their_turns()
    ensures each { (number : ℕ) (s : Scenario) → 0 < number → number ≤ 90000 → scenario (generated number) ≡ Ok s →
        EndsSo number (boot (scenario_of s)) (bench_turns number) (bench_line number) }
    ensures any { (number turns : ℕ) (k : KernelState) (line order : List ℕ) → k.cpus ≡ 1 → EndsSo number k turns line → AllByRecursion (λ cpu. cpu < k.cpus) order →
        IsFreeOfIdle k order → (is_quiet (run k order) ≡ false → turns ≤ length order) →
        (summary number (run k order) (trace k order) ≡ line) × (is_quiet (run k order) ≡ true) }
    ensures one { (s : Scenario) → scenario (generated 1) ≡ Ok s → EndsSo 1 (boot (scenario_of s)) 19 (codes "bench 1 turns 19 made 1 gone 1 caps 5\n") }
    ensures seven { (s : Scenario) → scenario (generated 7) ≡ Ok s → EndsSo 7 (boot (scenario_of s)) 79 (codes "bench 7 turns 79 made 7 gone 7 caps 11\n") }
{
    bytes_lie_where_they_are_laid();
}

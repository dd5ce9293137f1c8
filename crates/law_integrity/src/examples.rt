// Laws of runs that meet the conditions.
ghost use Rattle.std.specs.Prelude.{replicate};
ghost use Rattle.nova_model.specs.Boot.{boot};
ghost use Rattle.nova_model.specs.Runs.{run};
ghost use Rattle.law_origins.specs.Giving.{Acts};
ghost use Rattle.law_integrity.specs.Confined.{ShareNothing};
ghost use Rattle.law_integrity.specs.Examples.{apart, served, sides_served};
ghost use Rattle.law_integrity.specs.Trusted.{IsWithinPolicy, unshared};

/// The conditions are met, each by the run of a scenario of `examples/`, in which each side has an execution context that may act. After
/// turn 165 of `apart.nova` the guests 10 and 17, with their monitors 6 and 13, share nothing, and each has the next turn of its
/// processor. After turn 127 of `served.nova` the state is within the policy in which domains 4 and 8 are one side, 11 and 15 the
/// other, and the root's domain is trusted; and guest 9 has the next turn.
pub fn runs_come_to_the_conditions()
    ensures apart { ShareNothing (run (boot apart) (replicate 165 0)) 10 6 17 13 }
    ensures first { Acts (run (boot apart) (replicate 165 0)) 0 10 }
    ensures second { Acts (run (boot apart) (replicate 165 0)) 1 17 }
    ensures served { IsWithinPolicy unshared (run (boot served) (replicate 127 0)) sides_served }
    ensures guest { Acts (run (boot served) (replicate 127 0)) 0 9 }
{}

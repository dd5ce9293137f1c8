//! Laws of what is told of sides. The functions do nothing: their contracts are the laws.
ghost use Rattle.std.specs.Prelude.{◌≡◌, ◌++◌, ℕ, Bool, List, ◌∷◌, [], Contains, codes, decimal, Option, Some, None};
ghost use Rattle.nova_model.specs.Boot.{Scenario, boot};
ghost use Rattle.nova_model.specs.Runs.{run};
ghost use Rattle.nova_model.specs.State.{KernelState};
ghost use Rattle.nova_model.specs.declared.delegation.Derivation.{Derivation};
ghost use Rattle.nova_range.specs.declared.range.Kind.TheVariants.{Mem, Obj};
ghost use Rattle.nova_report.specs.Words.{line_feed};
ghost use Rattle.nova_ties.specs.Ties.{label_in};
ghost use Rattle.nova_ties.specs.declared.tie.Tie.{Tie};
ghost use Rattle.law_sides.specs.Tied.{ties};
ghost use Rattle.law_sides.specs.Told.{IsFlowing, IsRead};
ghost use Rattle.nova_judging.specs.Answers.{AreFinest, AreSettled};
ghost use Rattle.nova_judging.specs.Causes.{IsCaused};
ghost use Rattle.nova_judging.specs.Memory.{rights_text};
ghost use Rattle.nova_judging.specs.Trails.{IsChain, trail, trail_lines};

/// The finest sides are sole, and so is what they are called: of two tables of labels to which the same labels were joined as the finest that respect
/// some ties, each domain has the same label in both. And so is what is answered: either there are such labels, or it is for one tie that there are none.
pub fn the_finest_sides_are_sole()
    ensures labels { (tied : List Tie) (old one other : List ℕ) (n : ℕ) → AreFinest tied old one → AreFinest tied old other → label_in one n ≡ label_in other n }
    ensures ties { (tied : List Tie) (old one other : List ℕ) (s t : Option Tie) → AreSettled tied old one s → AreSettled tied old other t → s ≡ t }
{}

/// The rights that are told of memory are those of the two capabilities by which it is reached. In each state that turns reach from a boot state, a pair
/// of memory that flows, or that two sides read, is told with the rights of the first and then those of the second.
pub fn rights_are_told_of_both()
    ensures flowing { (scenario : Scenario) (turns : List ℕ) (flows : ℕ → ℕ → Bool) (label : ℕ → ℕ) (t : Tie)
        → (f : IsFlowing flows (run (boot scenario) turns) label t)
        → rights_text (run (boot scenario) turns).delegations.list t.cause
        ≡ codes " rights " ++ (decimal f.writes.derivation.rights.0 ++ (codes " " ++ (decimal f.reaches.derivation.rights.0 ++ line_feed))) }
    ensures reading { (scenario : Scenario) (turns : List ℕ) (label : ℕ → ℕ) (t : Tie)
        → (r : IsRead (run (boot scenario) turns) label t)
        → rights_text (run (boot scenario) turns).delegations.list t.cause
        ≡ codes " rights " ++ (decimal r.one.derivation.rights.0 ++ (codes " " ++ (decimal r.two.derivation.rights.0 ++ line_feed))) }
{}

/// The cause that is told of a tie is what the state says: the capabilities and execution contexts that it names by number are those of the two domains,
/// they lead, wait, serve, take or give as it says, and the tie is strict where they command, may be taken back or exchange items.
pub fn each_cause_is_what_it_says()
    ensures { (shared : ℕ → Bool) (flows : ℕ → ℕ → Bool) (k : KernelState) (t : Tie) → Contains (ties shared flows k) t → IsCaused shared k t }
{}

/// Where a capability came from is told as the chain of its parents. In each state that turns reach from a boot state, the trail of a derivation
/// begins with itself, each is the parent of the one before it, and the last has no parent; and no other list is such a chain.
pub fn a_trail_is_the_chain_of_parents()
    ensures chain { (scenario : Scenario) (turns : List ℕ) (d : Derivation) → Contains (run (boot scenario) turns).delegations.list d
        → IsChain (run (boot scenario) turns).delegations.list (Some d.id) (trail (run (boot scenario) turns).delegations.list d.id) }
    ensures sole { (scenario : Scenario) (turns : List ℕ) (id : ℕ) (chain : List Derivation)
        → IsChain (run (boot scenario) turns).delegations.list (Some id) chain → chain ≡ trail (run (boot scenario) turns).delegations.list id }
{}

/// How the trail of a page is told: it came from a page of domain 0, which came from the root's memory.
pub fn a_trail_is_told_from_its_end()
    ensures { trail_lines (record { id = 0; pd = 0; kind = Mem; base = 0; order = 3; rights = record { 0 = 7 }; target = 0; parent = None }
        ∷ record { id = 1; pd = 0; kind = Obj; base = 0; order = 0; rights = record { 0 = 1 }; target = 0; parent = None }
        ∷ record { id = 8; pd = 0; kind = Mem; base = 32; order = 1; rights = record { 0 = 7 }; target = 2; parent = Some 0 }
        ∷ record { id = 13; pd = 5; kind = Mem; base = 32; order = 0; rights = record { 0 = 5 }; target = 3; parent = Some 8 } ∷ []) 13
        ≡ codes "from 13 8 5 mem 32 0 5 3\nfrom 8 0 0 mem 32 1 7 2\nfrom 0 - 0 mem 0 3 7 0\n" }
{}

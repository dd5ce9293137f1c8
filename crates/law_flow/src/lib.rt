//! Noninterference: what a side of protection domains is, comes to and shows depends on its own part of the
//! state and on its own turns alone, whatever the rest of the kernel is and does. By two laws on a turn, step
//! consistency of the side's and local respect of all others, and by what follows over runs. Deeds and events are the
//! same but for numbers of ranges, which no program sees. The functions do nothing: their contracts are the laws.
#![tactic(auto)]

ghost use Rattle.std.specs.Prelude.{◌≡◌, ℕ, Bool, true, List, None, Some, filter, length, replicate};
ghost use Rattle.nova_model.specs.Boot.{Scenario, boot};
ghost use Rattle.nova_model.specs.Deeds.{deed};
ghost use Rattle.nova_model.specs.Runs.{after, run};
ghost use Rattle.nova_model.specs.State.{KernelState, context};
ghost use Rattle.nova_model.specs.declared.deed.Deed.TheVariants.{Gives, Opens};
ghost use Rattle.law_isolation.specs.Sound.{IsSound};
ghost use Rattle.law_integrity.specs.Confined.{Of};
ghost use Rattle.law_flow.specs.Examples.{first_domains, first_objects, first_page, first_processors, given_page, lone_maker, made_domains, maker_domains, maker_objects, maker_turns, other_domains, two_homes};
ghost use Rattle.law_flow.specs.Flow.{AreAlike, AreAlikeAlong, AreAtWork, AreAtWorkTimeless, AreCreatingAlone, AreDerivedAlike, AreGivingWithin, AreLeftAlone, AreRevokingWithin, DerivesWithin, HasSameClock, IsAtWork, IsCreatingAlone, IsGivingWithin, IsLeftAlone, IsPartitioned, IsSide, IsTimeless, OthersMakeNothing, Allowed, domains, existing, fixed, own_turn, schedule, unnumbered};
ghost use Rattle.law_turns.specs.Revoking.{is_revoking};
ghost use Rattle.law_flow.specs.Processors.{AreAlikeAtHome, AreAtHome, AreTimed, IsDivided, StayOn};

/// Take two sound states in which a side's part is the same, and a turn of the same execution context of the side in
/// both, paid by the same scheduling context. It does the same in both, but for numbers of ranges, and leaves states in
/// which the side's part is the same again, whatever all the rest is: other objects, delegations, registers, states,
/// queues, budgets, memory and clocks. Where it asks for a down with a deadline, the clock of its processor is the same
/// in both. Where it gives items or a first range, it does so within the side, and in neither state a revoke is in the
/// way. Where it revokes, in neither state anything that others hold was made of what it holds, and its ranges were
/// made of each other alike and in one order: a revoke takes the newest first, by their numbers. They stay so. Where it
/// creates, both states have as many objects and processors, and all numbers that no object has yet are the side's, and
/// so is what schedules its execution contexts: they stay so, too.
pub fn step_consistency()
    ensures decides { (k l : KernelState) (S P : ℕ → Bool) (cpu ec sc : ℕ) → IsSound k → IsSound l
        → IsSide k (Of S) (Of P) → AreAlike k l (Of S) (Of P)
        → own_turn S k cpu ≡ Some (ec, sc) → IsAtWork (HasSameClock k l ec) (AreGivingWithin k l (Of S) ec) (AreRevokingWithin k l (Of S)) (AreCreatingAlone k l (Of S) (Of P)) k ec
        → unnumbered (deed l ec) ≡ unnumbered (deed k ec) }
    ensures turn { (k l : KernelState) (S P : ℕ → Bool) (cpu other ec sc : ℕ) → IsSound k → IsSound l
        → IsSide k (Of S) (Of P) → AreAlike k l (Of S) (Of P)
        → own_turn S k cpu ≡ Some (ec, sc) → own_turn S l other ≡ Some (ec, sc)
        → IsAtWork (HasSameClock k l ec) (AreGivingWithin k l (Of S) ec) (AreRevokingWithin k l (Of S)) (AreCreatingAlone k l (Of S) (Of P)) k ec
        → AreAlike (after k cpu) (after l other) (Of S) (Of P) }
    ensures lines { (k l : KernelState) (S P : ℕ → Bool) (cpu other ec sc : ℕ) → IsSound k → IsSound l
        → IsSide k (Of S) (Of P) → AreAlike k l (Of S) (Of P)
        → own_turn S k cpu ≡ Some (ec, sc) → own_turn S l other ≡ Some (ec, sc)
        → IsAtWork (HasSameClock k l ec) (AreGivingWithin k l (Of S) ec) (AreRevokingWithin k l (Of S)) (AreCreatingAlone k l (Of S) (Of P)) k ec
        → AreDerivedAlike k l (Of S) → AreDerivedAlike (after k cpu) (after l other) (Of S) }
    ensures numbers { (k l : KernelState) (S P : ℕ → Bool) (cpu other ec sc : ℕ) → IsSound k → IsSound l
        → IsSide k (Of S) (Of P) → AreAlike k l (Of S) (Of P)
        → own_turn S k cpu ≡ Some (ec, sc) → own_turn S l other ≡ Some (ec, sc)
        → IsAtWork (HasSameClock k l ec) (AreGivingWithin k l (Of S) ec) (AreRevokingWithin k l (Of S)) (AreCreatingAlone k l (Of S) (Of P)) k ec
        → AreCreatingAlone k l (Of S) (Of P) → AreCreatingAlone (after k cpu) (after l other) (Of S) (Of P) }
    ensures side { (k : KernelState) (S P : ℕ → Bool) (cpu ec sc : ℕ) → IsSound k
        → IsSide k (Of S) (Of P) → own_turn S k cpu ≡ Some (ec, sc) → IsAtWork (HasSameClock k k ec) (IsGivingWithin k (Of S) ec) (DerivesWithin k (Of S)) (IsCreatingAlone k (Of S) (Of P)) k ec
        → IsSide (after k cpu) (Of S) (Of P) }
{}

/// Take a state that turns reach from a boot state, and two sets of protection domains in it that share no object, of
/// which the second writes to no frame that the first sees and is no ancestor of what the first holds; everybody else is
/// idle for good, no alarm rings at the first's semaphores, and none of it has a deadline. A turn that is none of the
/// first's leaves its part as it is, all of it: so each one does along turns in which the first is at work, whatever
/// the others do; and what the first gives it gives within itself, with no revoke in the way. If it may revoke, and
/// nothing that others hold was made of what it holds, it stays so. If the first set has numbers of no object, too, then
/// a turn of others that makes no object leaves all of the part, where all of this holds of what is there; so it is
/// along turns in which the first creates, and nobody else does.
pub fn local_respect()
    ensures turn { (scenario : Scenario) (turns : List ℕ) (S T P : ℕ → Bool) (cpu : ℕ)
        → IsPartitioned (run (boot scenario) turns) (Of S) (Of T) (Of P) → IsTimeless (run (boot scenario) turns) (Of P)
        → own_turn S (run (boot scenario) turns) cpu ≡ None
        → IsLeftAlone (run (boot scenario) turns) (Of S) (Of P) cpu }
    ensures creating { (scenario : Scenario) (turns : List ℕ) (S T P : ℕ → Bool) (cpu : ℕ)
        → IsPartitioned (run (boot scenario) turns) (Of (domains (run (boot scenario) turns) S)) (Of T) (Of (existing (run (boot scenario) turns) P))
        → IsTimeless (run (boot scenario) turns) (Of (existing (run (boot scenario) turns) P))
        → own_turn S (run (boot scenario) turns) cpu ≡ None → length (after (run (boot scenario) turns) cpu).objects ≡ length (run (boot scenario) turns).objects
        → IsLeftAlone (run (boot scenario) turns) (Of S) (Of P) cpu }
    ensures turns { (revokes : Bool) (scenario : Scenario) (before turns : List ℕ) (S T P : ℕ → Bool)
        → IsPartitioned (run (boot scenario) before) (Of S) (Of T) (Of P) → IsTimeless (run (boot scenario) before) (Of P)
        → (revokes ≡ true → DerivesWithin (run (boot scenario) before) (Of S))
        → AreAtWorkTimeless (fixed revokes) S (run (boot scenario) before) turns
        → AreLeftAlone revokes S P (run (boot scenario) before) turns }
    ensures along { (allowed : Allowed) (scenario : Scenario) (before turns : List ℕ) (S T P : ℕ → Bool)
        → IsPartitioned (run (boot scenario) before) (Of (domains (run (boot scenario) before) S)) (Of T) (Of (existing (run (boot scenario) before) P))
        → IsTimeless (run (boot scenario) before) (Of P) → IsCreatingAlone (run (boot scenario) before) (Of S) (Of P)
        → (allowed.revokes ≡ true → DerivesWithin (run (boot scenario) before) (Of S)) → OthersMakeNothing S (run (boot scenario) before) turns
        → AreAtWorkTimeless allowed S (run (boot scenario) before) turns
        → AreLeftAlone allowed.revokes S P (run (boot scenario) before) turns }
{}

/// Take two runs, from sound states in which a side's part is the same, that have the same turns of the side, in which
/// it is at work without deadlines and alarms and gives within itself, while each other turn leaves its part alone. If it
/// may revoke, its ranges were made of each other alike and in one order in both states, and all that is made of them is
/// its own along both runs. If it may create, it does so alone: its part has all numbers that no object has yet, so that
/// what leaves it alone makes none. At their ends its part is the same, and so was all that it did, however many turns of
/// others came, when they came, and whatever they did.
pub fn unwinding()
    ensures { (allowed : Allowed) (k l : KernelState) (turns others : List ℕ) (S P : ℕ → Bool) → IsSound k → IsSound l
        → IsSide k (Of S) (Of P) → AreAlike k l (Of S) (Of P)
        → (allowed.revokes ≡ true → AreDerivedAlike k l (Of S)) → (allowed.creates ≡ true → AreCreatingAlone k l (Of S) (Of P))
        → AreLeftAlone allowed.revokes S P k turns → AreLeftAlone allowed.revokes S P l others → AreAtWorkTimeless allowed S k turns
        → schedule S k turns ≡ schedule S l others
        → AreAlikeAlong k l turns others S P }
{}

/// Noninterference, relative to the side's own turns. Take two runs, of any two scenarios, a place in each, and a side
/// whose part is the same at both places, and that is partitioned off there from all others that may ever act. In the
/// first run, let it be at work from there on, without deadlines and alarms; if it may revoke, at neither place anything
/// that others hold was made of what it holds, and its ranges were made of each other alike and in one order. If the two
/// runs have the same turns of the side, by who acts and who pays, its part is the same at their ends, and all that it
/// did is: whatever others are and do in each, and whenever their turns come. If it may create, and creates alone, nobody
/// else makes an object in either run; the condition at the places is of what is there.
pub fn noninterference()
    ensures working { (revokes : Bool) (a b : Scenario) (before since turns others : List ℕ) (S T U P : ℕ → Bool)
        → IsPartitioned (run (boot a) before) (Of S) (Of T) (Of P) → IsTimeless (run (boot a) before) (Of P)
        → IsPartitioned (run (boot b) since) (Of S) (Of U) (Of P) → IsTimeless (run (boot b) since) (Of P)
        → AreAlike (run (boot a) before) (run (boot b) since) (Of S) (Of P)
        → (revokes ≡ true → AreRevokingWithin (run (boot a) before) (run (boot b) since) (Of S))
        → AreAtWorkTimeless (fixed revokes) S (run (boot a) before) turns
        → schedule S (run (boot a) before) turns ≡ schedule S (run (boot b) since) others
        → AreAlikeAlong (run (boot a) before) (run (boot b) since) turns others S P }
    ensures creating { (allowed : Allowed) (a b : Scenario) (before since turns others : List ℕ) (S T U P : ℕ → Bool)
        → IsPartitioned (run (boot a) before) (Of (domains (run (boot a) before) S)) (Of T) (Of (existing (run (boot a) before) P)) → IsTimeless (run (boot a) before) (Of P)
        → IsPartitioned (run (boot b) since) (Of (domains (run (boot b) since) S)) (Of U) (Of (existing (run (boot b) since) P)) → IsTimeless (run (boot b) since) (Of P)
        → AreAlike (run (boot a) before) (run (boot b) since) (Of S) (Of P)
        → (allowed.revokes ≡ true → AreRevokingWithin (run (boot a) before) (run (boot b) since) (Of S)) → AreCreatingAlone (run (boot a) before) (run (boot b) since) (Of S) (Of P)
        → OthersMakeNothing S (run (boot a) before) turns → OthersMakeNothing S (run (boot b) since) others
        → AreAtWorkTimeless allowed S (run (boot a) before) turns
        → schedule S (run (boot a) before) turns ≡ schedule S (run (boot b) since) others
        → AreAlikeAlong (run (boot a) before) (run (boot b) since) turns others S P }
{}

/// Noninterference of a side that is at home. Take two runs, of any two scenarios, a place in each, and a side whose
/// part is the same at both places, times included, and that is partitioned off there from all others that may ever act.
/// Let it have processors of its own: from there on nobody else's execution context is on them, but parked, dead or
/// blocked for good, and all of its are. In the first run, let it be at work from there on; it may revoke as in
/// `noninterference`. If the turns of its processors come in the same order, however many turns of other processors come between them, then at the ends of
/// both runs its part is the same, with clocks, deadlines, alarms and quanta, and so are all that it did and all events
/// on its processors: whatever others are and do in each. On one processor the number of its turns is all. Alarms of its
/// processors may ring at others' semaphores: of such a ring neither whom it wakes nor its status is said, of others all.
/// If it may create, and creates alone, nobody else makes an object in either run; the condition at the places is of what
/// is there, and it has the processors with all that it makes.
pub fn noninterference_at_home()
    ensures working { (revokes : Bool) (a b : Scenario) (before since turns others : List ℕ) (S T U P C : ℕ → Bool)
        → IsPartitioned (run (boot a) before) (Of S) (Of T) (Of P) → IsPartitioned (run (boot b) since) (Of S) (Of U) (Of P)
        → AreAtHome S P C (run (boot a) before) turns → AreAtHome S P C (run (boot b) since) others
        → AreAlike (run (boot a) before) (run (boot b) since) (Of S) (Of P)
        → AreTimed (run (boot a) before) (run (boot b) since) (Of P) (Of C)
        → (revokes ≡ true → AreRevokingWithin (run (boot a) before) (run (boot b) since) (Of S))
        → AreAtWork (fixed revokes) S (run (boot a) before) turns
        → filter C turns ≡ filter C others
        → AreAlikeAtHome (run (boot a) before) (run (boot b) since) turns others S P C }
    ensures creating { (allowed : Allowed) (a b : Scenario) (before since turns others : List ℕ) (S T U P C : ℕ → Bool)
        → IsPartitioned (run (boot a) before) (Of (domains (run (boot a) before) S)) (Of T) (Of (existing (run (boot a) before) P))
        → IsPartitioned (run (boot b) since) (Of (domains (run (boot b) since) S)) (Of U) (Of (existing (run (boot b) since) P))
        → AreAtHome S P C (run (boot a) before) turns → AreAtHome S P C (run (boot b) since) others
        → AreAlike (run (boot a) before) (run (boot b) since) (Of S) (Of P)
        → AreTimed (run (boot a) before) (run (boot b) since) (Of P) (Of C)
        → (allowed.revokes ≡ true → AreRevokingWithin (run (boot a) before) (run (boot b) since) (Of S)) → AreCreatingAlone (run (boot a) before) (run (boot b) since) (Of S) (Of P)
        → OthersMakeNothing S (run (boot a) before) turns → OthersMakeNothing S (run (boot b) since) others
        → AreAtWork allowed S (run (boot a) before) turns
        → filter C turns ≡ filter C others
        → AreAlikeAtHome (run (boot a) before) (run (boot b) since) turns others S P C }
{}

/// A side whose processors are its own, where the others hold no right to create, is the same whatever the others do. Its premises are
/// conditions of the two states, but for being at work: the processors are divided between the side and the others, which never come to the
/// side's. If it may create, and creates alone, in the first run its execution contexts stay on its processors: it makes none elsewhere. That the
/// others make nothing follows.
pub fn noninterference_on_divided_processors()
    ensures working { (revokes : Bool) (a b : Scenario) (before since turns others : List ℕ) (S T U P C : ℕ → Bool)
        → IsPartitioned (run (boot a) before) (Of S) (Of T) (Of P) → IsPartitioned (run (boot b) since) (Of S) (Of U) (Of P)
        → IsDivided (run (boot a) before) (Of S) (Of T) (Of P) (Of C) → IsDivided (run (boot b) since) (Of S) (Of U) (Of P) (Of C)
        → AreAlike (run (boot a) before) (run (boot b) since) (Of S) (Of P)
        → AreTimed (run (boot a) before) (run (boot b) since) (Of P) (Of C)
        → (revokes ≡ true → AreRevokingWithin (run (boot a) before) (run (boot b) since) (Of S))
        → AreAtWork (fixed revokes) S (run (boot a) before) turns
        → filter C turns ≡ filter C others
        → AreAlikeAtHome (run (boot a) before) (run (boot b) since) turns others S P C }
    ensures creating { (allowed : Allowed) (a b : Scenario) (before since turns others : List ℕ) (S T U P C : ℕ → Bool)
        → IsPartitioned (run (boot a) before) (Of (domains (run (boot a) before) S)) (Of T) (Of (existing (run (boot a) before) P))
        → IsPartitioned (run (boot b) since) (Of (domains (run (boot b) since) S)) (Of U) (Of (existing (run (boot b) since) P))
        → IsDivided (run (boot a) before) (Of S) (Of T) (Of P) (Of C) → IsDivided (run (boot b) since) (Of S) (Of U) (Of P) (Of C)
        → AreAlike (run (boot a) before) (run (boot b) since) (Of S) (Of P)
        → AreTimed (run (boot a) before) (run (boot b) since) (Of P) (Of C)
        → (allowed.revokes ≡ true → AreRevokingWithin (run (boot a) before) (run (boot b) since) (Of S)) → AreCreatingAlone (run (boot a) before) (run (boot b) since) (Of S) (Of P)
        → StayOn S C (run (boot a) before) turns → AreAtWork allowed S (run (boot a) before) turns
        → filter C turns ≡ filter C others
        → AreAlikeAtHome (run (boot a) before) (run (boot b) since) turns others S P C }
{}

/// A run of 66 turns from a boot state meets the premises of noninterference. A root makes two guests on a processor each, a virtual CPU with a
/// scheduling context, and a monitor for each, with a page, a handler and a portal to it that the guest holds, and dies. Then the first guest
/// and its monitor are partitioned off, without alarms and deadlines; the processors are divided; nothing that others hold was made of what they
/// hold; and the guest has the next turn of the first one. In the 18 turns of that processor that follow the monitor revokes what was given
/// of its page, and gives the page to the guest: the side is at work, and may revoke.
pub fn a_run_comes_to_the_premises()
    ensures partitioned { IsPartitioned (run (boot two_homes) (replicate 66 0)) (Of first_domains) (Of other_domains) (Of first_objects) }
    ensures timeless { IsTimeless (run (boot two_homes) (replicate 66 0)) (Of first_objects) }
    ensures divided { IsDivided (run (boot two_homes) (replicate 66 0)) (Of first_domains) (Of other_domains) (Of first_objects) (Of first_processors) }
    ensures revoking { AreRevokingWithin (run (boot two_homes) (replicate 66 0)) (run (boot two_homes) (replicate 66 0)) (Of first_domains) }
    ensures acts { own_turn first_domains (run (boot two_homes) (replicate 66 0)) 0 ≡ Some (11, 13) }
    ensures works { AreAtWorkTimeless (fixed true) first_domains (run (boot two_homes) (replicate 66 0)) (replicate 18 0) }
    ensures revokes { is_revoking (context (run (boot two_homes) (replicate 73 0)) 5).state ≡ true }
    ensures gives { deed (run (boot two_homes) (replicate 82 0)) 5 ≡ Gives given_page 2 }
{}

/// A run of 22 turns from a boot state meets the premises of noninterference of a side that creates. A root makes a protection domain with a thread on
/// another processor, and revokes its capabilities to them. Then the root is partitioned off, creates alone, without alarms and deadlines; the
/// processors are divided; and nothing that others hold was made of what it holds. In the 13 turns that follow it is at work, and makes a protection
/// domain, with a page as first range, and a thread on its processor; between them the other's thread begins, and dies. Nobody else makes an object.
pub fn a_run_comes_to_a_side_that_creates()
    ensures partitioned { IsPartitioned (run (boot lone_maker) (replicate 22 0)) (Of (domains (run (boot lone_maker) (replicate 22 0)) maker_domains)) (Of made_domains) (Of (existing (run (boot lone_maker) (replicate 22 0)) maker_objects)) }
    ensures timeless { IsTimeless (run (boot lone_maker) (replicate 22 0)) (Of maker_objects) }
    ensures alone { AreCreatingAlone (run (boot lone_maker) (replicate 22 0)) (run (boot lone_maker) (replicate 22 0)) (Of maker_domains) (Of maker_objects) }
    ensures divided { IsDivided (run (boot lone_maker) (replicate 22 0)) (Of maker_domains) (Of made_domains) (Of maker_objects) (Of first_processors) }
    ensures revoking { AreRevokingWithin (run (boot lone_maker) (replicate 22 0)) (run (boot lone_maker) (replicate 22 0)) (Of maker_domains) }
    ensures nothing { OthersMakeNothing maker_domains (run (boot lone_maker) (replicate 22 0)) maker_turns }
    ensures stays { StayOn maker_domains first_processors (run (boot lone_maker) (replicate 22 0)) maker_turns }
    ensures works { AreAtWorkTimeless (record { revokes = true; creates = true }) maker_domains (run (boot lone_maker) (replicate 22 0)) maker_turns }
    ensures makes { deed (run (boot lone_maker) (replicate 26 0)) 1 ≡ Opens 32 6 }
    ensures gives { deed (run (boot lone_maker) (replicate 27 0)) 1 ≡ Gives first_page 2 }
    ensures more { length (run (run (boot lone_maker) (replicate 22 0)) maker_turns).objects ≡ 8 }
{}

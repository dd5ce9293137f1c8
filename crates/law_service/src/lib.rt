//! Trusted servers: what others do reaches a side only through what servers answer, raise and recall. By noninterference
//! with entries: turns of trusted domains change the side's part, alike in both runs. The functions do nothing: their
//! contracts are the laws.
#![tactic(auto)]

ghost use Rattle.std.specs.Prelude.{◌≡◌, ℕ, Bool, true, false, List, [], ◌∷◌, None, Some, IsSome, drop, replicate, slice_get, take};
ghost use Rattle.nova_model.specs.Choice.{next_to_act};
ghost use Rattle.nova_model.specs.Deeds.{deed};
ghost use Rattle.nova_model.specs.Runs.{after, run};
ghost use Rattle.nova_model.specs.Boot.{Scenario, boot};
ghost use Rattle.nova_model.specs.State.{KernelState, no_words};
ghost use Rattle.law_isolation.specs.Sound.{IsSound};
ghost use Rattle.law_origins.specs.Giving.{Acts};
ghost use Rattle.law_integrity.specs.Confined.{Of};
ghost use Rattle.law_flow.specs.Flow.{AreAlike, AreAlikeAlong, AreAtWorkTimeless, AreDerivedAlike, AreRevokingWithin, DerivesWithin, IsSide, IsTimeless, own_turn, fixed};
ghost use Rattle.law_service.specs.Examples.{given_page, paged_tenants, served_tenants, tenant_domain, tenant_objects};
ghost use Rattle.law_service.specs.Service.{AreAdmitted, AreServed, Begin, Enters, Entry, IsAdmitted, IsEntered, IsServedBy, IsStranger, IsWalled, Own, Part, Return, computes, course, entered, entry_in};

/// Equal entries change a side's part alike. With the same entry in two states whose part is the same it is the same again; and so it is after two
/// turns that come to no more than that entry, whichever contexts act in them.
pub fn equal_entries_change_a_part_alike()
    ensures entries { (k l : KernelState) (S P : ℕ → Bool) (e : Entry) → AreAlike k l (Of S) (Of P) → AreAlike (entered k e) (entered l e) (Of S) (Of P) }
    ensures turns { (k l : KernelState) (S P : ℕ → Bool) (cpu other : ℕ) (e : Entry) → AreAlike k l (Of S) (Of P)
        → IsEntered k (Of S) (Of P) cpu e → IsEntered l (Of S) (Of P) other e → AreAlike (after k cpu) (after l other) (Of S) (Of P) }
{}

/// What a trusted server does for a side comes to no more than its entry. A turn that is none of the side's, in which a context gives it a reply,
/// begins one with items, gives it a part of an item, ends one, ups or recalls, changes nothing else of its part.
pub fn what_servers_give_is_an_entry()
    ensures { (k : KernelState) (S P : ℕ → Bool) (cpu : ℕ) (e : Entry) → IsSound k → IsSide k (Of S) (Of P)
        → entry_in S P k cpu ≡ Some e → IsSome e.gift → IsEntered k (Of S) (Of P) cpu e }
{}

/// A turn in which a server computes, or goes on with items of which it gives and tells nothing, neither of the side's domains nor writing to a frame
/// that it sees, leaves the side's part alone, but for its entry. That is the tick of a scheduling context of the part, if that pays.
pub fn what_servers_compute_is_no_more_than_paid()
    ensures { (k : KernelState) (S P : ℕ → Bool) (cpu ec : ℕ) → IsSide k (Of S) (Of P)
        → own_turn S k cpu ≡ None → Acts k cpu ec → computes (deed k ec) ≡ true
        → IsWalled k (Of S) ec
        → IsServedBy k (Of S) (Of P) cpu (entry_in S P k cpu) }
{}

/// In a state that turns reach from a boot state, where the objects of a side's part are there, a stranger's turn leaves the part alone, or comes to
/// no more than its entry, whatever the stranger does. So of two tenants of a server each is a stranger to the other's part, while the handlers that
/// serve them are not the same.
pub fn strangers_leave_a_side_alone()
    ensures { (scenario : Scenario) (turns : List ℕ) (S P : ℕ → Bool) (cpu ec : ℕ)
        → IsSide (run (boot scenario) turns) (Of S) (Of P)
        → ((n : ℕ) → P n ≡ true → IsSome (slice_get (run (boot scenario) turns).objects n))
        → Acts (run (boot scenario) turns) cpu ec → IsStranger (run (boot scenario) turns) (Of S) (Of P) cpu ec
        → IsServedBy (run (boot scenario) turns) (Of S) (Of P) cpu (entry_in S P (run (boot scenario) turns) cpu) }
{}

/// A turn in which no context acts leaves a side's part alone, where no alarm rings at its semaphores and it has no deadline.
pub fn what_comes_by_itself_leaves_a_side_alone()
    ensures { (scenario : Scenario) (turns : List ℕ) (S P : ℕ → Bool) (cpu : ℕ)
        → IsSide (run (boot scenario) turns) (Of S) (Of P)
        → ((n : ℕ) → P n ≡ true → IsSome (slice_get (run (boot scenario) turns).objects n))
        → next_to_act (run (boot scenario) turns) cpu ≡ None → IsTimeless (run (boot scenario) turns) (Of P)
        → IsServedBy (run (boot scenario) turns) (Of S) (Of P) cpu (entry_in S P (run (boot scenario) turns) cpu) }
{}

/// Unwinding with entries: two runs in which the same happens to a side's part end with the same part. Take two runs, from sound states in which a
/// side's part is the same, in which the same happens to it, in the same order: its own turns, in which it is at work without deadlines, by the
/// context that acts and the scheduling context that pays, and entries. Let each other turn leave the part alone, and those with an entry come to no
/// more than it. If the side may revoke, its ranges were made of each other alike and in one order in both states, and all that is made of them is
/// its own along both runs. At their ends its part is the same, and so was all that it did: however many turns of others came, when they came, and
/// whatever they, and servers among themselves and for others, did.
pub fn unwinding_with_entries()
    ensures { (revokes : Bool) (k l : KernelState) (turns others : List ℕ) (S P : ℕ → Bool) → IsSound k → IsSound l
        → IsSide k (Of S) (Of P) → AreAlike k l (Of S) (Of P) → (revokes ≡ true → AreDerivedAlike k l (Of S))
        → AreServed revokes S P k turns → AreServed revokes S P l others → AreAtWorkTimeless (fixed revokes) S k turns
        → course S P k turns ≡ course S P l others
        → AreAlikeAlong k l turns others S P }
{}

/// Beside servers nothing of others comes to be made of what a side holds. Take a state that turns reach from a boot state, in which nothing that
/// others hold is made of what the side holds, and a turn that is none of the side's and is admitted. So it is after that turn.
pub fn admitted_turns_make_nothing_of_a_sides_ranges()
    ensures { (scenario : Scenario) (turns : List ℕ) (S P : ℕ → Bool) (cpu : ℕ)
        → DerivesWithin (run (boot scenario) turns) (Of S) → IsAdmitted (run (boot scenario) turns) S P cpu
        → DerivesWithin (after (run (boot scenario) turns) cpu) (Of S) }
{}

/// Noninterference beside servers: a side's part doesn't depend on strangers, nor on what servers do for them. Take two runs, of any two scenarios, a
/// place in each, and a side whose part is the same at both places, and there. From there on, in both, let it be at work without deadlines, and let
/// each turn that is none of the side's be a stranger's, a turn in which it is given something, a turn in which a server computes or goes on with
/// items and writes to no frame that the side sees, or a turn in which none acts. If the side may revoke, at neither place anything that others hold
/// was made of what it holds, and its ranges were made of each other alike and in one order. If the same happens to the side, in the same order, its
/// part is the same at the ends, and so is all that it did: whatever strangers are and do in each, and servers for them.
pub fn noninterference_beside_servers()
    ensures { (revokes : Bool) (a b : Scenario) (before since turns others : List ℕ) (S P : ℕ → Bool)
        → IsSide (run (boot a) before) (Of S) (Of P) → IsSide (run (boot b) since) (Of S) (Of P)
        → ((n : ℕ) → P n ≡ true → IsSome (slice_get (run (boot a) before).objects n))
        → AreAlike (run (boot a) before) (run (boot b) since) (Of S) (Of P)
        → (revokes ≡ true → AreRevokingWithin (run (boot a) before) (run (boot b) since) (Of S))
        → AreAdmitted S P (run (boot a) before) turns → AreAdmitted S P (run (boot b) since) others
        → AreAtWorkTimeless (fixed revokes) S (run (boot a) before) turns → AreAtWorkTimeless (fixed revokes) S (run (boot b) since) others
        → course S P (run (boot a) before) turns ≡ course S P (run (boot b) since) others
        → AreAlikeAlong (run (boot a) before) (run (boot b) since) turns others S P }
{}

/// A run of 59 turns from a boot state meets the premises beside servers, and so do 4 more of its first processor. A root makes a server with a
/// handler for each of two tenants, virtual CPUs on a processor each, and dies. The first tenant raises its startup exit and sends it to its handler;
/// the server computes, which leaves the tenant's part alone, and replies, which is the entry. So it is with a turn of the other tenant between,
/// which is a stranger.
pub fn a_served_run_comes_to_the_premises()
    ensures part { IsSide (run (boot served_tenants) (replicate 59 0)) (Of tenant_domain) (Of tenant_objects) }
    ensures revoking { AreRevokingWithin (run (boot served_tenants) (replicate 59 0)) (run (boot served_tenants) (replicate 59 0)) (Of tenant_domain) }
    ensures admitted { AreAdmitted tenant_domain tenant_objects (run (boot served_tenants) (replicate 59 0)) (replicate 4 0) }
    ensures works { AreAtWorkTimeless (fixed false) tenant_domain (run (boot served_tenants) (replicate 59 0)) (replicate 4 0) }
    ensures happens { course tenant_domain tenant_objects (run (boot served_tenants) (replicate 59 0)) (replicate 4 0)
        ≡ Own 10 12 ∷ Own 10 12 ∷ Enters (record { gift = Some (Return 4 10 no_words); actor = Some 4; payer = None }) ∷ [] }
    ensures between { AreAdmitted tenant_domain tenant_objects (run (boot served_tenants) (replicate 59 0)) (0 ∷ 0 ∷ 1 ∷ 0 ∷ 0 ∷ []) }
    ensures works_between { AreAtWorkTimeless (fixed false) tenant_domain (run (boot served_tenants) (replicate 59 0)) (0 ∷ 0 ∷ 1 ∷ 0 ∷ 0 ∷ []) }
    ensures same { course tenant_domain tenant_objects (run (boot served_tenants) (replicate 59 0)) (0 ∷ 0 ∷ 1 ∷ 0 ∷ 0 ∷ [])
        ≡ course tenant_domain tenant_objects (run (boot served_tenants) (replicate 59 0)) (replicate 4 0) }
{}

/// A run in which a server gives a tenant a page meets the premises beside servers. It has 59 turns from a boot state, and then 14 of its first
/// processor. All is as above, but that the server replies with an item, which gives the first tenant the server's page, at 0: the reply begins, the
/// page comes with its bytes, and the reply ends, an entry each; the other turns of the server's leave the tenant's part alone.
pub fn a_paged_run_comes_to_the_premises()
    ensures part { IsSide (run (boot paged_tenants) (replicate 59 0)) (Of tenant_domain) (Of tenant_objects) }
    ensures revoking { AreRevokingWithin (run (boot paged_tenants) (replicate 59 0)) (run (boot paged_tenants) (replicate 59 0)) (Of tenant_domain) }
    ensures admitted { AreAdmitted tenant_domain tenant_objects (run (boot paged_tenants) (replicate 59 0)) (replicate 14 0) }
    ensures works { AreAtWorkTimeless (fixed false) tenant_domain (run (boot paged_tenants) (replicate 59 0)) (replicate 14 0) }
    ensures happens { course tenant_domain tenant_objects (run (boot paged_tenants) (replicate 59 0)) (replicate 14 0)
        ≡ Own 10 12 ∷ Own 10 12 ∷ Enters (record { gift = Some (Begin 4 10 None); actor = Some 4; payer = None })
        ∷ Enters (record { gift = Some (Part 8 given_page (take 1 (drop 1 (run (run (boot paged_tenants) (replicate 59 0)) (replicate 12 0)).memory.ram))); actor = Some 4; payer = None })
        ∷ Enters (record { gift = Some (Return 4 10 no_words); actor = Some 4; payer = None }) ∷ [] }
{}

//! Guests by noninterference: what a virtual CPU is and shows, with its monitor on processors of their own, is a
//! function of the turns that these have. The functions do nothing: their contracts are the laws.
#![tactic(auto)]

ghost use Rattle.std.specs.Prelude.{◌≡◌, ℕ, Bool, true, List, filter, replicate};
ghost use Rattle.nova_model.specs.Boot.{Scenario, boot};
ghost use Rattle.nova_model.specs.Guests.{input};
ghost use Rattle.nova_model.specs.Runs.{run};
ghost use Rattle.nova_model.specs.State.{KernelState, pd_of};
ghost use Rattle.nova_model.specs.Views.{view};
ghost use Rattle.law_isolation.specs.Sound.{IsSound, IsVirtual};
ghost use Rattle.law_integrity.specs.Confined.{Of};
ghost use Rattle.law_flow.specs.Examples.{first_domains, two_homes};
ghost use Rattle.law_flow.specs.Flow.{AreCreatingAlone, AreAlike, AreAtWork, AreGivingWithin, AreRevokingWithin, IsAtWork, HasSameClock, IsPartitioned, IsSide, own_turn, fixed};
ghost use Rattle.law_flow.specs.Processors.{AreAtHome, AreTimed, IsDivided};
ghost use Rattle.law_guests.specs.Guests.{AreOneGuest, only, turns_of, watched};
ghost use Rattle.std.specs.Prelude.{None, Some};

/// The view of a virtual CPU of a side is told by the side's part: in two sound states in which that is the same, so
/// is the view. In a turn of the side at work, the same in both, so is what the turn is for the virtual CPU. And a turn
/// that is none of the side's is nothing for it, where turns reach the state from a boot state, and the side is
/// partitioned off.
pub fn a_sides_part_tells_what_its_guests_are_and_meet()
    ensures views { (k l : KernelState) (S P : ℕ → Bool) (g : ℕ) → IsSound k → IsSound l → IsSide k (Of S) (Of P) → AreAlike k l (Of S) (Of P)
        → IsVirtual k g → S (pd_of k g) ≡ true → view l g ≡ view k g }
    ensures inputs { (k l : KernelState) (S P : ℕ → Bool) (cpu other ec sc g : ℕ) → IsSound k → IsSound l → IsSide k (Of S) (Of P) → AreAlike k l (Of S) (Of P)
        → own_turn S k cpu ≡ Some (ec, sc) → own_turn S l other ≡ Some (ec, sc)
        → IsAtWork (HasSameClock k l ec) (AreGivingWithin k l (Of S) ec) (AreRevokingWithin k l (Of S)) (AreCreatingAlone k l (Of S) (Of P)) k ec
        → IsVirtual k g → S (pd_of k g) ≡ true → input l other g ≡ input k cpu g }
    ensures nothing { (scenario : Scenario) (turns : List ℕ) (S T P : ℕ → Bool) (cpu g : ℕ)
        → IsPartitioned (run (boot scenario) turns) (Of S) (Of T) (Of P) → own_turn S (run (boot scenario) turns) cpu ≡ None
        → IsVirtual (run (boot scenario) turns) g → S (pd_of (run (boot scenario) turns) g) ≡ true → input (run (boot scenario) turns) cpu g ≡ None }
{
    law_views::a_view_is_what_the_state_has();
    law_views::inputs_say_what_was_done();
    law_views::what_is_done_is_told();
    law_views::a_given_map_leaves_the_cells_that_are_there();
}

/// A guest at home: a virtual CPU of a side that is at home is one guest in two runs, whatever others do. Take two runs, of any two scenarios, a
/// place in each, and a side that is at home and the same at both places, as `noninterference_at_home` asks, with a virtual CPU in it. If the turns
/// of its processors come in the same order, however many turns of other processors come between them, the virtual CPU is one guest in both:
/// registers, state and memory are equal at the places and at the ends, it has the same inputs, and its exits and bytes are the same, whatever others
/// are and do in each. A comparison of the two, but for frames, finds them equal.
pub fn a_guest_at_home_is_one_guest()
    ensures { (revokes : Bool) (a b : Scenario) (before since turns others : List ℕ) (S T U P C : ℕ → Bool) (g : ℕ)
        → IsPartitioned (run (boot a) before) (Of S) (Of T) (Of P) → IsPartitioned (run (boot b) since) (Of S) (Of U) (Of P)
        → AreAtHome S P C (run (boot a) before) turns → AreAtHome S P C (run (boot b) since) others
        → AreAlike (run (boot a) before) (run (boot b) since) (Of S) (Of P)
        → AreTimed (run (boot a) before) (run (boot b) since) (Of P) (Of C)
        → (revokes ≡ true → AreRevokingWithin (run (boot a) before) (run (boot b) since) (Of S))
        → AreAtWork (fixed revokes) S (run (boot a) before) turns
        → filter C turns ≡ filter C others
        → IsVirtual (run (boot a) before) g → S (pd_of (run (boot a) before) g) ≡ true
        → AreOneGuest (watched a before g turns) (watched b since g others) }
{
    law_views::a_view_is_what_the_state_has();
    law_views::inputs_say_what_was_done();
    law_views::what_is_done_is_told();
    law_views::a_given_map_leaves_the_cells_that_are_there();
    law_renaming::renamings_are_forced();
    law_renaming::two_guests_are_compared();
    law_renaming::renamings_are_there();
}

/// A guest is one guest by conditions of the two states, but for being at work, where the processors are divided between the side and the others, and
/// the others hold no right to create. On one processor the number of its turns is all.
pub fn a_guest_on_divided_processors_is_one_guest()
    ensures order { (revokes : Bool) (a b : Scenario) (before since turns others : List ℕ) (S T U P C : ℕ → Bool) (g : ℕ)
        → IsPartitioned (run (boot a) before) (Of S) (Of T) (Of P) → IsPartitioned (run (boot b) since) (Of S) (Of U) (Of P)
        → IsDivided (run (boot a) before) (Of S) (Of T) (Of P) (Of C) → IsDivided (run (boot b) since) (Of S) (Of U) (Of P) (Of C)
        → AreAlike (run (boot a) before) (run (boot b) since) (Of S) (Of P)
        → AreTimed (run (boot a) before) (run (boot b) since) (Of P) (Of C)
        → (revokes ≡ true → AreRevokingWithin (run (boot a) before) (run (boot b) since) (Of S))
        → AreAtWork (fixed revokes) S (run (boot a) before) turns
        → filter C turns ≡ filter C others
        → IsVirtual (run (boot a) before) g → S (pd_of (run (boot a) before) g) ≡ true
        → AreOneGuest (watched a before g turns) (watched b since g others) }
    ensures number { (revokes : Bool) (a b : Scenario) (before since turns others : List ℕ) (S T U P : ℕ → Bool) (cpu g : ℕ)
        → IsPartitioned (run (boot a) before) (Of S) (Of T) (Of P) → IsPartitioned (run (boot b) since) (Of S) (Of U) (Of P)
        → IsDivided (run (boot a) before) (Of S) (Of T) (Of P) (Of (only cpu)) → IsDivided (run (boot b) since) (Of S) (Of U) (Of P) (Of (only cpu))
        → AreAlike (run (boot a) before) (run (boot b) since) (Of S) (Of P)
        → AreTimed (run (boot a) before) (run (boot b) since) (Of P) (Of (only cpu))
        → (revokes ≡ true → AreRevokingWithin (run (boot a) before) (run (boot b) since) (Of S))
        → AreAtWork (fixed revokes) S (run (boot a) before) turns
        → turns_of cpu turns ≡ turns_of cpu others
        → IsVirtual (run (boot a) before) g → S (pd_of (run (boot a) before) g) ≡ true
        → AreOneGuest (watched a before g turns) (watched b since g others) }
{
    law_views::a_view_is_what_the_state_has();
    law_views::inputs_say_what_was_done();
    law_views::what_is_done_is_told();
    law_views::a_given_map_leaves_the_cells_that_are_there();
    law_renaming::renamings_are_forced();
    law_renaming::two_guests_are_compared();
    law_renaming::renamings_are_there();
}

/// The state that meets the premises of divided processors, after 66 turns from a boot state, has a virtual CPU in its side.
pub fn the_premises_are_met_with_a_guest()
    ensures guest { IsVirtual (run (boot two_homes) (replicate 66 0)) 11 }
    ensures side { first_domains (pd_of (run (boot two_homes) (replicate 66 0)) 11) ≡ true }
{}

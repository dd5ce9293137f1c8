//! Guests whose frames are renamed: what a guest does has nothing to do with the numbers of the frames
//! that its pages lead to. The functions of this file do nothing: their contracts are the laws. The others
//! are the first of those that compare two guests.
#![tactic(auto)]

mod alike;
mod pairs;

ghost use Rattle.std.specs.Prelude.{◌≡◌, ◌==◌, ℕ, Bool, true, List, length, take};
ghost use Rattle.std.specs.List.{All};
ghost use Rattle.nova_guest.specs.Alone.{alone, guest_space, outputs};
ghost use Rattle.nova_guest.specs.Conditions.{IsInput};
ghost use Rattle.nova_guest.specs.declared.guest.Guest.{Guest};
ghost use Rattle.nova_guest.specs.declared.input.Input.{Input};
ghost use Rattle.nova_model.specs.Boot.{Scenario, boot};
ghost use Rattle.nova_model.specs.Guests.{inputs};
ghost use Rattle.nova_model.specs.Runs.{run};
ghost use Rattle.nova_model.specs.State.{KernelState};
ghost use Rattle.nova_model.specs.Views.{view};
ghost use Rattle.law_isolation.specs.Sound.{AreRanges, IsSound, IsVirtual};
ghost use Rattle.law_renaming.specs.Forced.{agree, among, forced, named, once};
ghost use Rattle.law_renaming.specs.Renamings.{InputFits, GuestsAgree, InputsAgree, IsOneToOne, OutsAgree, Renames, bytes_behind};
ghost use Rattle.law_renaming.specs.Twins.{AreTwins, EndAsTwins, IsRenaming, ViewsAgree};
ghost use Rattle.law_renaming.specs.Verdicts.{Equal, IsAgreement, IsVerdict, SayTheSame, Verdict, compared};
ghost use Rattle.law_renaming.specs.Walks.{walk};

pub use alike::{alike_input, alike_map, alike_maps, same_state, suits};
pub use pairs::{join, join_frames, step};

/// Guests that agree under a renaming of frames find the same at every address: what they fetch, what
/// they load, and where a store is taken. Page by page they have the same bytes.
pub fn renamed_guests_read_the_same()
    ensures addresses { (r : ℕ → ℕ → Bool) (u v : Guest) → GuestsAgree r u v → guest_space u.maps u.cells ≡ guest_space v.maps v.cells }
    ensures pages { (r : ℕ → ℕ → Bool) (u v : Guest) (page : ℕ) → GuestsAgree r u v → bytes_behind u page ≡ bytes_behind v page }
{}

/// Guests that agree under a one-to-one renaming of frames, with inputs that agree one by one, end so, and put
/// out the same. That is equal exits, and equal bytes, to consoles that stand for each other. Maps that are
/// given come with the bytes of no more frames than they have, as each input of a guest alone does.
pub fn renamed_inputs_end_renamed()
    ensures guests { (r : ℕ → ℕ → Bool) (u v : Guest) (is js : List Input) → IsOneToOne r → GuestsAgree r u v → All InputFits is → InputsAgree r is js
        → GuestsAgree r (alone u is) (alone v js) }
    ensures outs { (r : ℕ → ℕ → Bool) (u v : Guest) (is js : List Input) → IsOneToOne r → GuestsAgree r u v → All InputFits is → InputsAgree r is js
        → OutsAgree r (outputs u is) (outputs v js) }
    ensures fit { (i : Input) → IsInput i → InputFits i }
{}

/// Whatever turns are taken, each input that they are for a virtual CPU fits: a map that is given comes with
/// the bytes of no more frames than it has.
pub fn inputs_of_turns_fit()
    ensures { (k : KernelState) (turns : List ℕ) (g : ℕ) → IsSound k → All InputFits (inputs k turns g) }
{}

/// Two virtual CPUs, of whatever kernels and in whatever turns, whose views agree under a one-to-one
/// renaming of frames and whose inputs agree one by one, end with views that agree. They raise the same
/// exits and store the same bytes to consoles that stand for each other, and find the same at every
/// address. That holds of whatever two kernels come to from their beginnings.
pub fn renamed_runs_end_renamed()
    ensures runs { (r : ℕ → ℕ → Bool) (k l : KernelState) (turns others : List ℕ) (g h : ℕ) → IsSound k → IsSound l
        → AreTwins r k l turns others g h → EndAsTwins r k l turns others g h }
    ensures begun { (r : ℕ → ℕ → Bool) (s t : Scenario) (before since turns others : List ℕ) (g h : ℕ)
        → AreTwins r (run (boot s) before) (run (boot t) since) turns others g h
        → EndAsTwins r (run (boot s) before) (run (boot t) since) turns others g h }
{}

/// Of two views it is enough that each cell of the first has the bytes of that which stands for it in the
/// second, where RAM stands for RAM and a console for a console. Cells are the RAM frames that maps lead to.
pub fn views_agree_by_the_cells_of_the_first()
    ensures { (r : ℕ → ℕ → Bool) (k l : KernelState) (g h : ℕ) → IsRenaming r (length k.memory.ram) (length l.memory.ram)
        → ViewsAgree r (view k g) (view l h) → GuestsAgree r (view k g) (view l h) }
{}

/// A renaming is forced: the i-th frame of a map goes with the i-th of its partner. Each renaming under
/// which guests and inputs agree has these pairs; and where any makes them agree, these pairs alone do. So a
/// test of these pairs decides whether some renaming makes them agree.
pub fn renamings_are_forced()
    ensures pairs { (r : ℕ → ℕ → Bool) (u v : Guest) (is js : List Input) (a b : ℕ) → IsAgreement r u v is js
        → Renames (among (forced u v is js)) a b → Renames r a b }
    ensures enough { (u v : Guest) (is js : List Input) → agree u v is js ≡ true → IsAgreement (among (forced u v is js)) u v is js }
    ensures found { (r : ℕ → ℕ → Bool) (u v : Guest) (is js : List Input) → IsAgreement r u v is js → agree u v is js ≡ true }
{}

/// What is answered on two guests with their inputs holds. They are equal under the pairs that are given, or no
/// renaming makes the guests agree, or one does so for them and the first `inputs` inputs and none does for an
/// input more. No other answer holds.
pub fn two_guests_are_compared()
    ensures holds { (u v : Guest) (is js : List Input) → IsVerdict u v is js (compared u v is js) }
    ensures alone { (u v : Guest) (is js : List Input) (x y : Verdict) → IsVerdict u v is js x → IsVerdict u v is js y → SayTheSame x y }
{}

/// One pass over the inputs, which keeps the pairs that were met, finds a verdict that holds. Where it finds
/// the guests equal it gives the pairs that they force, each once, in the order in which they are first met.
pub fn one_pass_compares()
    ensures holds { (u v : Guest) (is js : List Input) → IsVerdict u v is js (walk u v is js) }
    ensures pairs { (u v : Guest) (is js : List Input) (inputs : ℕ) (pairs : List (ℕ × ℕ)) → walk u v is js ≡ Equal inputs pairs
        → pairs ≡ once (forced u v is js) }
{}

/// Guests that are found equal end so under the pairs that are given: their ends agree, their exits are
/// equal, and their bytes are but for the consoles.
pub fn equal_guests_end_renamed()
    ensures guests { (u v : Guest) (is js : List Input) (inputs : ℕ) (pairs : List (ℕ × ℕ)) → compared u v is js ≡ Equal inputs pairs → All InputFits is
        → GuestsAgree (among pairs) (alone u is) (alone v js) }
    ensures outs { (u v : Guest) (is js : List Input) (inputs : ℕ) (pairs : List (ℕ × ℕ)) → compared u v is js ≡ Equal inputs pairs → All InputFits is
        → OutsAgree (among pairs) (outputs u is) (outputs v js) }
{}

/// Each guest agrees with itself where no frame is renamed, and a map between frames that takes no two frames to the same is a one-to-one renaming.
pub fn renamings_are_there()
    ensures same { (u : Guest) (is : List Input) → IsAgreement (λ a b. a == b) u u is is }
    ensures maps { (f : ℕ → ℕ) → ((a b : ℕ) → f a ≡ f b → a ≡ b) → IsOneToOne (λ a b. f a == b) }
{}

/// If two virtual CPUs agree under some renaming of frames over their first `n` inputs, the pairs of frames that their views and these inputs
/// force take RAM to RAM and consoles to consoles. It stands on derivations being ranges, all
/// of RAM or none, which a kernel of at most 2^14 RAM frames and 16 consoles begins with and each turn keeps.
pub fn forced_pairs_take_ram_to_ram()
    ensures { (r : ℕ → ℕ → Bool) (k l : KernelState) (turns others : List ℕ) (g h n : ℕ) → IsSound k → IsSound l → AreRanges k → AreRanges l
        → IsAgreement r (view k g) (view l h) (take n (inputs k turns g)) (take n (inputs l others h))
        → IsRenaming (among (forced (view k g) (view l h) (take n (inputs k turns g)) (take n (inputs l others h)))) (length k.memory.ram) (length l.memory.ram) }
{}

/// The pairs that a virtual CPU forces are those that the maps of its view, and the maps that it is given,
/// name. What another stores to is memory that it has.
pub fn stores_of_others_name_no_pair()
    ensures { (r : ℕ → ℕ → Bool) (k : KernelState) (turns : List ℕ) (g : ℕ) (v : Guest) (js : List Input) → IsSound k → IsVirtual k g
        → IsAgreement r (view k g) v (inputs k turns g) js
        → once (forced (view k g) v (inputs k turns g) js) ≡ once (named (view k g) v (inputs k turns g) js) }
{}

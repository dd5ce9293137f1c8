//! What views and inputs say: a view is what the state has of a virtual CPU, an input says what was done in
//! its turn, and what is done is told; and what a map that is given makes of a guest. The functions do
//! nothing: their contracts are the laws.
#![tactic(auto)]

ghost use Rattle.std.specs.Prelude.{◌≡◌, ℕ, List, [], ◌∷◌, ◌++◌, true, false, Some, None, IfSome};
ghost use Rattle.nova_guest.specs.Admitted.{acts, admits};
ghost use Rattle.nova_guest.specs.Alone.{applied};
ghost use Rattle.nova_guest.specs.declared.guest.Guest.{Guest};
ghost use Rattle.nova_guest.specs.declared.input.Input.{Input};
ghost use Rattle.nova_guest.specs.declared.input.Input.TheVariants.{Died, Foreign, Given, Own, Recall, Reply, Sent, Taken};
ghost use Rattle.nova_guest.specs.declared.map.Map.{Map};
ghost use Rattle.law_isolation.specs.Sound.{IsSound, IsVirtual};
ghost use Rattle.nova_model.specs.Choice.{in_front, next_to_act};
ghost use Rattle.nova_model.specs.Deeds.{deed};
ghost use Rattle.nova_model.specs.Guests.{input, inputs};
ghost use Rattle.nova_model.specs.Runs.{run};
ghost use Rattle.nova_model.specs.State.{KernelState, context, message, pd_of};
ghost use Rattle.nova_model.specs.Views.{view};
ghost use Rattle.nova_model.specs.declared.deed.Deed.TheVariants.{Recalls};
ghost use Rattle.law_origins.specs.Giving.{Acts};
ghost use Rattle.nova_range.specs.declared.mtd.Mtd.{Mtd};
ghost use Rattle.nova_range.specs.declared.rights.Rights.{Rights};
ghost use Rattle.law_views.specs.Given.{AreCellsWith, AreMapsWith, IsElseSame, given};
ghost use Rattle.law_views.specs.Said.{Answers, Completes, Delegates, IsOwnTurn, IsToldReply, Stores, TakesAway};
ghost use Rattle.law_views.specs.Seen.{AreCellsOf, AreMapsOf, IsShownAs, IsViewOf};

/// A view has the registers and the recall flag of the virtual CPU's context, and its state. It is fresh, ready
/// or dead, has an exit that is not sent, with reason and both qualifications, or waits for the reply to one,
/// exactly where the context does. Its maps are the memory derivations of its protection domain, all of them
/// and nothing else, by rising base, each with range, rights and first frame. Its cells are the RAM frames that
/// these maps lead to, by rising frame, with the bytes that the frames have. No other guest has all this.
pub fn a_view_is_what_the_state_has()
    ensures registers { (k : KernelState) (g : ℕ) → (view k g).regs ≡ (context k g).regs }
    ensures recall { (k : KernelState) (g : ℕ) → (view k g).recall ≡ (context k g).recall }
    ensures state { (k : KernelState) (g : ℕ) → IsSound k → IsVirtual k g → IsShownAs (context k g).state (view k g).state }
    ensures maps { (k : KernelState) (g : ℕ) → IsSound k → AreMapsOf k.delegations.list (pd_of k g) (view k g).maps }
    ensures cells { (k : KernelState) (g : ℕ) → AreCellsOf (view k g).maps k.memory.ram (view k g).cells }
    ensures no_other { (k : KernelState) (g : ℕ) (v : Guest) → IsSound k → IsVirtual k g → IsViewOf k g v → v ≡ view k g }
{}

/// An input of a virtual CPU says what the context that acts does in that turn. A foreign store is that of
/// another's instruction: its frame is the RAM frame that the address leads to there with the right to write,
/// and one that the view covers, its offset is the address within the frame, and width and value are the
/// instruction's. A recall is asked of this virtual CPU. A reply is to its exit and completes, names the groups
/// that word 4 of the handler's message names, but for the qualifications, and has the words that the message
/// has of them, and 0 for all others. What is given or taken is a memory derivation of its protection domain
/// that is made or goes, with its range, rights, first frame and the bytes of its frames. Own, Sent and Died
/// are turns in which it acts itself: a step or a raise; its exit is sent; or it ends.
pub fn inputs_say_what_was_done()
    ensures stored { (k : KernelState) (cpu ec g frame offset width value : ℕ) → IsSound k → Acts k cpu ec
        → input k cpu g ≡ Some (Foreign frame offset width value) → Stores k ec g frame offset width value }
    ensures asked { (k : KernelState) (cpu ec g : ℕ) → Acts k cpu ec → input k cpu g ≡ Some Recall → deed k ec ≡ Recalls g }
    ensures told { (k : KernelState) (cpu ec g : ℕ) (mtd : Mtd) (words : List ℕ) → IsSound k → Acts k cpu ec
        → input k cpu g ≡ Some (Reply mtd words) → Answers k ec g mtd words }
    ensures given { (k : KernelState) (cpu ec g base order : ℕ) (rights : Rights) (frame : ℕ) (contents : List ℕ) → Acts k cpu ec
        → input k cpu g ≡ Some (Given base order rights frame contents) → Delegates k ec g base order rights frame contents }
    ensures taken { (k : KernelState) (cpu ec g base order : ℕ) → Acts k cpu ec
        → input k cpu g ≡ Some (Taken base order) → TakesAway k ec g base order }
    ensures own { (k : KernelState) (cpu ec g : ℕ) → Acts k cpu ec → input k cpu g ≡ Some Own → IsOwnTurn k ec g Own }
    ensures sent { (k : KernelState) (cpu ec g : ℕ) → Acts k cpu ec → input k cpu g ≡ Some Sent → IsOwnTurn k ec g Sent }
    ensures died { (k : KernelState) (cpu ec g : ℕ) → Acts k cpu ec → input k cpu g ≡ Some Died → IsOwnTurn k ec g Died }
{}

/// What a virtual CPU does, and what others do to it, is told by inputs. Where it acts itself and is fresh or
/// ready, that is Own, even where it changes nothing; where its exit is sent, Sent, and where it ends, Died;
/// and nothing else of what it does is an input. A store of another to a RAM frame that its view covers is that
/// store, even of bytes that are there already. A recall of it is a recall, even while one is asked for. A
/// reply to its exit that completes is that reply, even where it changes no register. A memory derivation that
/// is made in its protection domain or taken from it is that input. A turn in which no context acts is no
/// input.
pub fn what_is_done_is_told()
    ensures own { (k : KernelState) (cpu g : ℕ) → IsSound k → IsVirtual k g → Acts k cpu g
        → acts (view k g).state ≡ true → input k cpu g ≡ Some Own }
    ensures itself { (k : KernelState) (cpu g : ℕ) (i : Input) → Acts k cpu g → IsOwnTurn k g g i → input k cpu g ≡ Some i }
    ensures only { (k : KernelState) (cpu g : ℕ) → Acts k cpu g → IfSome (input k cpu g) (IsOwnTurn k g g) }
    ensures stored { (k : KernelState) (cpu ec g frame offset width value : ℕ) → IsSound k → Acts k cpu ec
        → Stores k ec g frame offset width value → input k cpu g ≡ Some (Foreign frame offset width value) }
    ensures asked { (k : KernelState) (cpu ec g : ℕ) → IsSound k → IsVirtual k g → Acts k cpu ec
        → deed k ec ≡ Recalls g → input k cpu g ≡ Some Recall }
    ensures replied { (k : KernelState) (cpu ec g : ℕ) → IsSound k → IsVirtual k g → Acts k cpu ec
        → Completes k ec g → IsToldReply (input k cpu g) (message k ec) }
    ensures answered { (k : KernelState) (cpu ec g : ℕ) (mtd : Mtd) (words : List ℕ) → IsSound k → IsVirtual k g → Acts k cpu ec
        → Answers k ec g mtd words → input k cpu g ≡ Some (Reply mtd words) }
    ensures given { (k : KernelState) (cpu ec g base order : ℕ) (rights : Rights) (frame : ℕ) (contents : List ℕ) → IsSound k → IsVirtual k g
        → Acts k cpu ec → Delegates k ec g base order rights frame contents
        → input k cpu g ≡ Some (Given base order rights frame contents) }
    ensures taken { (k : KernelState) (cpu ec g base order : ℕ) → IsSound k → IsVirtual k g → Acts k cpu ec
        → TakesAway k ec g base order → input k cpu g ≡ Some (Taken base order) }
    ensures nobody { (k : KernelState) (cpu g : ℕ) → next_to_act k cpu ≡ None → input k cpu g ≡ None }
{}

/// The inputs of turns are those of the first of them, and then those of the others from the state that
/// the first leave. Of no turns there are none, and of one turn its input, where it is one.
pub fn inputs_of_turns_come_one_by_one()
    ensures none { (k : KernelState) (g : ℕ) → inputs k [] g ≡ [] }
    ensures one { (k : KernelState) (cpu g : ℕ) → inputs k (cpu ∷ []) g ≡ in_front (input k cpu g) [] }
    ensures more { (k : KernelState) (first later : List ℕ) (g : ℕ) → inputs k (first ++ later) g ≡ inputs k first g ++ inputs (run k first) later g }
{}

/// A map that is given to a guest, and overlaps none of its maps, leaves the cells that are there. A frame that
/// has a cell keeps its bytes, whatever the contents are. A frame that has none gets its 4,096 bytes of the
/// contents, where the map leads to it and contents of all its frames come; it has none where the map doesn't
/// lead to it, or nothing comes. Cells rise by frame where they rose. The maps are the old ones, in their
/// order, with the new one before the first of a greater base. Registers, recall flag and state stay and
/// nothing is put out, even where the map overlaps one.
pub fn a_given_map_leaves_the_cells_that_are_there()
    ensures cells { (v : Guest) (m : Map) (contents : List ℕ) → admits v (given m contents) ≡ true
        → AreCellsWith m contents v.cells (applied v (given m contents)).guest.cells }
    ensures maps { (v : Guest) (m : Map) (contents : List ℕ) → admits v (given m contents) ≡ true
        → AreMapsWith m v.maps (applied v (given m contents)).guest.maps }
    ensures rest { (v : Guest) (m : Map) (contents : List ℕ) → IsElseSame v (applied v (given m contents)) }
{}

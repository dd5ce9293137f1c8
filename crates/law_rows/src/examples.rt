ghost use Rattle.std.specs.Prelude.{◌≡◌, ℕ, true, false, [], ◌∷◌, None, map, replicate};
ghost use Rattle.nova_model.specs.Boot.{bare, boot};
ghost use Rattle.nova_model.specs.Runs.{run, trace};
ghost use Rattle.nova_model.specs.State.{context};
ghost use Rattle.nova_model.specs.declared.context.State.TheVariants.{Ready};
ghost use Rattle.nova_model.specs.declared.root.Root.{Root};
ghost use Rattle.nova_objects.specs.declared.object.EcKind.TheVariants.{Global};
ghost use Rattle.nova_objects.specs.declared.object.Object.TheVariants.{Pd, Ec, Sc};
ghost use Rattle.law_rows.specs.Examples.{cap, family, gone, helping, helping_leaves, helping_shows, left, revoke_of_all, shown, watching, watching_leaves, watching_shows};

/// A kernel begins with the root's objects and capabilities. These are the root's domain, its thread, which is ready on processor 0 and has event
/// base 16, and its scheduling context; and the root's capabilities, where there are 8 frames and two consoles.
pub fn the_root_begins_so()
    ensures objects { (cpus ram consoles : ℕ) (root : Root) → (bare cpus ram consoles root).objects ≡ Pd ∷ Ec 0 0 Global 16 ∷ Sc 1 0 root.priority root.quantum ∷ [] }
    ensures thread { (cpus ram consoles : ℕ) (root : Root) → ((context (bare cpus ram consoles root) 1).state ≡ Ready)
        × ((context (bare cpus ram consoles root) 1).caller ≡ None) × ((context (bare cpus ram consoles root) 1).recall ≡ false) }
    ensures capabilities { (cpus : ℕ) (root : Root) → map cap (bare cpus 3 2 root).delegations.list
        ≡ (0, None, 0, true, 0, 3, 7, 0) ∷ (1, None, 0, true, 8, 0, 3, 8) ∷ (2, None, 0, true, 9, 0, 3, 9) ∷ (3, None, 0, false, 0, 0, 1, 0) ∷ (4, None, 0, false, 1, 0, 7, 1)
        ∷ (5, None, 0, false, 2, 0, 1, 2) ∷ [] }
{}

/// A thread that helps a handler pays for its work, by a run of 63 turns: what they tell, and what is left. A thread calls a handler that
/// is at work for the root; it helps, so that the handler finishes the root's call in turns that the thread's scheduling context pays, and
/// then takes the thread's.
pub fn who_helps_pays()
    ensures shows { shown (trace (boot helping) (replicate 63 0)) ≡ helping_shows }
    ensures leaves { left (1 ∷ 3 ∷ 7 ∷ []) (2 ∷ 8 ∷ []) (6 ∷ []) (run (boot helping) (replicate 63 0)) ≡ helping_leaves }
{}

/// A guest is served by its monitor, by a run of 73 turns of both: what they tell, and what is left.
pub fn a_guest_is_served_by_its_monitor()
    ensures shows { shown (trace (boot watching) (replicate 73 0)) ≡ watching_shows }
    ensures leaves { left (1 ∷ 3 ∷ 8 ∷ []) (2 ∷ 9 ∷ []) [] (run (boot watching) (replicate 73 0)) ≡ watching_leaves }
{}

/// The order in which a revoke takes leaves: from the revoker's derivation of least base on, by the newest child each time, and each after
/// its own children. Without the flag the revoker's own stay.
pub fn the_newest_child_goes_first()
    ensures given { gone 7 (revoke_of_all false) family ≡ 5 ∷ 6 ∷ 4 ∷ 3 ∷ 2 ∷ [] }
    ensures own_too { gone 8 (revoke_of_all true) family ≡ 5 ∷ 6 ∷ 4 ∷ 3 ∷ 0 ∷ 2 ∷ 1 ∷ [] }
{}

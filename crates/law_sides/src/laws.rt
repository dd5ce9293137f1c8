// Laws of sides beside trusted domains: what their ties and what is at rest say of a state, and of all turns that follow.
ghost use Rattle.std.specs.Prelude.{◌≡◌, ◌≢◌, ◌⊎◌, ℕ, Bool, false, true, Contains, List, slice_get, Some};
ghost use Rattle.nova_objects.specs.declared.object.Object.TheVariants.{Sm};
ghost use Rattle.nova_model.specs.Boot.{Scenario, boot};
ghost use Rattle.nova_model.specs.Runs.{after, run};
ghost use Rattle.nova_model.specs.Semaphores.{semaphore_at};
ghost use Rattle.nova_model.specs.State.{KernelState, context_at, deadline_of, pd_of};
ghost use Rattle.nova_model.specs.declared.delegation.Derivation.{Derivation};
ghost use Rattle.nova_range.specs.Rights.{allows, write_right};
ghost use Rattle.nova_range.specs.declared.range.Kind.TheVariants.{Mem, Obj};
ghost use Rattle.law_origins.specs.Giving.{Acts};
ghost use Rattle.law_integrity.specs.Confined.{Holds, HoldsAny, IsMember, Reach, ReachAny};
ghost use Rattle.law_integrity.specs.Secrecy.{with_bytes};
ghost use Rattle.law_integrity.specs.Trusted.{HoldsSince, IsMadeBySide, IsWithinPolicy, Labelled, MayTakeTurns, ReachesSince, labels};
ghost use Rattle.nova_ties.specs.Ties.{AreRespected};
ghost use Rattle.nova_ties.specs.declared.tie.Cause.TheVariants.{Frames};
ghost use Rattle.nova_ties.specs.declared.tie.Tie.{Tie};
ghost use Rattle.law_sides.specs.Isolated.{AreIsolated, CommandOwn, StayOwn};
ghost use Rattle.law_sides.specs.Resting.{IsAtRest, StayIsolated};
ghost use Rattle.law_sides.specs.Roles.{AreHarmless};
ghost use Rattle.law_sides.specs.Shared.{StaysOrWakesAtShared};
ghost use Rattle.law_sides.specs.Tied.{flowing, flows_by, reading, ties, weak};
ghost use Rattle.law_sides.specs.Told.{AreOnce, IsFlowing, IsRead};

/// Sides are isolated, but for semaphores that they share and memory that flows between them on purpose, exactly where their labels respect the ties
/// of the state.
pub fn isolation_is_respect_of_ties()
    ensures respected { (shared : ℕ → Bool) (flows : ℕ → ℕ → Bool) (k : KernelState) (label : ℕ → ℕ)
        → AreIsolated shared flows k label → AreRespected label (ties shared (flows_by flows label) k) }
    ensures isolated { (shared : ℕ → Bool) (flows : ℕ → ℕ → Bool) (scenario : Scenario) (turns : List ℕ) (label : ℕ → ℕ)
        → AreRespected label (ties shared (flows_by flows label) (run (boot scenario) turns)) → AreIsolated shared flows (run (boot scenario) turns) label }
{}

/// Take any state that turns reach from a boot state, and sides that are isolated in it. A turn of one side leaves each frame that another
/// side reaches, by whatever right, unless the first flows to the other; and it is the same whatever the bytes of a frame are that another side may
/// write, unless the other flows to the first.
pub fn isolated_sides_touch_no_frame_of_another()
    ensures frames { (shared : ℕ → Bool) (flows : ℕ → ℕ → Bool) (scenario : Scenario) (turns : List ℕ) (label : ℕ → ℕ) (cpu ec side frame : ℕ)
        → AreIsolated shared flows (run (boot scenario) turns) label
        → Acts (run (boot scenario) turns) cpu ec
        → label (pd_of (run (boot scenario) turns) ec) ≢ 0
        → side ≢ 0
        → side ≢ label (pd_of (run (boot scenario) turns) ec)
        → flows (label (pd_of (run (boot scenario) turns) ec)) side ≡ false
        → ReachAny (run (boot scenario) turns) (Labelled label side) frame
        → slice_get (after (run (boot scenario) turns) cpu).memory.ram frame ≡ slice_get (run (boot scenario) turns).memory.ram frame }
    ensures blind { (shared : ℕ → Bool) (flows : ℕ → ℕ → Bool) (scenario : Scenario) (turns : List ℕ) (label : ℕ → ℕ) (cpu ec side frame : ℕ) (bytes : List ℕ)
        → AreIsolated shared flows (run (boot scenario) turns) label
        → Acts (run (boot scenario) turns) cpu ec
        → label (pd_of (run (boot scenario) turns) ec) ≢ 0
        → side ≢ 0
        → side ≢ label (pd_of (run (boot scenario) turns) ec)
        → flows side (label (pd_of (run (boot scenario) turns) ec)) ≡ false
        → Reach (run (boot scenario) turns) (Labelled label side) write_right frame
        → after (with_bytes (run (boot scenario) turns) frame bytes) cpu ≡ with_bytes (after (run (boot scenario) turns) cpu) frame bytes }
{}

/// Take isolated sides in such a state, in which all that is trusted is at rest, and two of them, a source and a sink: nothing flows from the sink to the
/// source; whether anything flows from the source to the sink doesn't matter. Whatever turns follow, a turn of the sink leaves each frame that the
/// source reaches, and takes from it no memory that it may write; and a turn of the source is the same whatever the bytes of a frame are that the sink
/// may write. What isn't excluded: the sink may take back what the source reaches without write and was derived from a capability of the sink's.
pub fn a_source_is_not_reached_by_its_sink()
    ensures frames { (shared : ℕ → Bool) (flows : ℕ → ℕ → Bool) (scenario : Scenario) (before turns : List ℕ) (label : ℕ → ℕ) (cpu ec source sink frame : ℕ)
        → AreIsolated shared flows (run (boot scenario) before) label → IsAtRest (run (boot scenario) before) label
        → Acts (run (run (boot scenario) before) turns) cpu ec
        → labels (run (boot scenario) before) label turns (pd_of (run (run (boot scenario) before) turns) ec) ≡ sink
        → source ≢ 0
        → sink ≢ 0
        → source ≢ sink
        → flows sink source ≡ false
        → ReachAny (run (run (boot scenario) before) turns) (Labelled (labels (run (boot scenario) before) label turns) source) frame
        → slice_get (after (run (run (boot scenario) before) turns) cpu).memory.ram frame ≡ slice_get (run (run (boot scenario) before) turns).memory.ram frame }
    ensures memory { (shared : ℕ → Bool) (flows : ℕ → ℕ → Bool) (scenario : Scenario) (before turns : List ℕ) (label : ℕ → ℕ) (cpu ec source sink : ℕ) (d : Derivation)
        → AreIsolated shared flows (run (boot scenario) before) label → IsAtRest (run (boot scenario) before) label
        → Acts (run (run (boot scenario) before) turns) cpu ec
        → labels (run (boot scenario) before) label turns (pd_of (run (run (boot scenario) before) turns) ec) ≡ sink
        → source ≢ 0
        → sink ≢ 0
        → source ≢ sink
        → flows sink source ≡ false
        → Contains (run (run (boot scenario) before) turns).delegations.list d
        → d.kind ≡ Mem
        → labels (run (boot scenario) before) label turns d.pd ≡ source
        → allows d.rights write_right ≡ true
        → Contains (after (run (run (boot scenario) before) turns) cpu).delegations.list d }
    ensures blind { (shared : ℕ → Bool) (flows : ℕ → ℕ → Bool) (scenario : Scenario) (before turns : List ℕ) (label : ℕ → ℕ) (cpu ec source sink frame : ℕ) (bytes : List ℕ)
        → AreIsolated shared flows (run (boot scenario) before) label → IsAtRest (run (boot scenario) before) label
        → Acts (run (run (boot scenario) before) turns) cpu ec
        → labels (run (boot scenario) before) label turns (pd_of (run (run (boot scenario) before) turns) ec) ≡ source
        → source ≢ 0
        → sink ≢ 0
        → source ≢ sink
        → flows sink source ≡ false
        → Reach (run (run (boot scenario) before) turns) (Labelled (labels (run (boot scenario) before) label turns) sink) write_right frame
        → after (with_bytes (run (run (boot scenario) before) turns) frame bytes) cpu ≡ with_bytes (after (run (run (boot scenario) before) turns) cpu) frame bytes }
{}

/// All memory that flows is told: where a side may write a frame that another isolated side reaches, any two capabilities by which they do are a pair
/// that is told; and each pair that is told is of such capabilities, of two protection domains of which the first's side flows to the second's.
/// None is told twice in a state that turns reach from a boot state.
pub fn all_memory_that_flows_is_told()
    ensures all { (shared : ℕ → Bool) (flows : ℕ → ℕ → Bool) (k : KernelState) (label : ℕ → ℕ) (side other frame : ℕ)
        → AreIsolated shared flows k label
        → side ≢ 0
        → other ≢ 0
        → other ≢ side
        → (writes : Reach k (Labelled label side) write_right frame)
        → (reaches : ReachAny k (Labelled label other) frame)
        → Contains (flowing (flows_by flows label) k)
        (weak writes.derivation.pd reaches.derivation.pd (Frames writes.derivation.id reaches.derivation.id)) }
    ensures only { (flows : ℕ → ℕ → Bool) (k : KernelState) (label : ℕ → ℕ) (t : Tie)
        → Contains (flowing (flows_by flows label) k) t → IsFlowing flows k label t }
    ensures once { (flows : ℕ → ℕ → Bool) (scenario : Scenario) (turns : List ℕ) (label : ℕ → ℕ)
        → AreOnce (flowing (flows_by flows label) (run (boot scenario) turns)) }
{}

/// All memory that two sides reach and neither may write is told: any two capabilities of two sides that lead to one frame, without the right to write,
/// are a pair that is told, in the order of their numbers; and each pair that is told is of such capabilities. None is told twice in a state that turns
/// reach from a boot state.
pub fn all_memory_that_two_sides_read_is_told()
    ensures all { (k : KernelState) (label : ℕ → ℕ) (side other frame : ℕ)
        → side ≢ 0
        → other ≢ 0
        → other ≢ side
        → (one : ReachAny k (Labelled label side) frame)
        → (two : ReachAny k (Labelled label other) frame)
        → allows one.derivation.rights write_right ≡ false
        → allows two.derivation.rights write_right ≡ false
        → Contains (reading label k) (weak one.derivation.pd two.derivation.pd (Frames one.derivation.id two.derivation.id))
        ⊎ Contains (reading label k) (weak two.derivation.pd one.derivation.pd (Frames two.derivation.id one.derivation.id)) }
    ensures only { (k : KernelState) (label : ℕ → ℕ) (t : Tie)
        → Contains (reading label k) t → IsRead k label t }
    ensures once { (scenario : Scenario) (turns : List ℕ) (label : ℕ → ℕ) → AreOnce (reading label (run (boot scenario) turns)) }
{}

/// Take semaphores that sides share on purpose, by a test, and sides within their policy but for these in such a state. A turn of one side changes no
/// execution context of another but the first that waits at a shared semaphore that the first side may raise, and nothing of it but that its wait
/// ends, with SUCCESS and without a deadline. It leaves each unshared semaphore that the other holds, its counter and its queue; and, where no side
/// gave another a shared one, each capability of the other's to these. What isn't excluded: the counter and the order of the queue of a shared
/// semaphore are both sides', so that either may count the other's ups and downs, take an up that was meant for the other, and leave the other waiting.
pub fn sides_share_a_semaphore_and_no_more()
    ensures contexts { (shared : ℕ → Bool) (scenario : Scenario) (turns : List ℕ) (label : ℕ → ℕ) (cpu ec side n : ℕ)
        → IsWithinPolicy shared (run (boot scenario) turns) label
        → Acts (run (boot scenario) turns) cpu ec
        → label (pd_of (run (boot scenario) turns) ec) ≢ 0
        → side ≢ 0
        → side ≢ label (pd_of (run (boot scenario) turns) ec)
        → IsMember (run (boot scenario) turns) (Labelled label side) n
        → StaysOrWakesAtShared shared (run (boot scenario) turns) (Labelled label (label (pd_of (run (boot scenario) turns) ec))) n
        (context_at (run (boot scenario) turns) n) (context_at (after (run (boot scenario) turns) cpu) n)
        (deadline_of (run (boot scenario) turns).times n) (deadline_of (after (run (boot scenario) turns) cpu).times n) }
    ensures semaphores { (shared : ℕ → Bool) (scenario : Scenario) (turns : List ℕ) (label : ℕ → ℕ) (cpu ec side sm : ℕ)
        → IsWithinPolicy shared (run (boot scenario) turns) label
        → Acts (run (boot scenario) turns) cpu ec
        → label (pd_of (run (boot scenario) turns) ec) ≢ 0
        → side ≢ 0
        → side ≢ label (pd_of (run (boot scenario) turns) ec)
        → HoldsAny (run (boot scenario) turns) (Labelled label side) sm
        → slice_get (run (boot scenario) turns).objects sm ≡ Some Sm
        → shared sm ≡ false
        → semaphore_at (after (run (boot scenario) turns) cpu).semaphores sm ≡ semaphore_at (run (boot scenario) turns).semaphores sm }
    ensures capabilities { (shared : ℕ → Bool) (scenario : Scenario) (turns : List ℕ) (label : ℕ → ℕ) (cpu ec side : ℕ) (d : Derivation)
        → IsWithinPolicy shared (run (boot scenario) turns) label
        → StayOwn shared (run (boot scenario) turns) label
        → Acts (run (boot scenario) turns) cpu ec
        → label (pd_of (run (boot scenario) turns) ec) ≢ 0
        → side ≢ 0
        → side ≢ label (pd_of (run (boot scenario) turns) ec)
        → Contains (run (boot scenario) turns).delegations.list d
        → d.kind ≡ Obj
        → label d.pd ≡ side
        → slice_get (run (boot scenario) turns).objects d.target ≡ Some Sm
        → shared d.target ≡ true
        → Contains (after (run (boot scenario) turns) cpu).delegations.list d }
{}

/// Take isolated sides in such a state, in which all that is trusted is at rest: no capability of a side leads to it, and each of its execution
/// contexts is parked or dead, or waits for good at a semaphore: no side may raise it and no alarm rings it, and nothing is to come on its
/// processor, so that no deadline ends the wait. Whatever turns follow, nobody acts that is trusted; so the premise of
/// `sides_are_apart_beside_trusted_domains` on turns of what is trusted holds of them, the sides stay isolated, a side reaches a frame by a
/// right only if it has all along, and it holds no right to an object but one that it has held all along, or to an object that it made since.
/// There may be any number of sides. Nothing is said of how long a side waits for a turn, of clocks, or of how much memory the kernel has.
pub fn sides_beside_what_rests_are_apart_for_good()
    ensures turns { (shared : ℕ → Bool) (scenario : Scenario) (before turns : List ℕ) (label : ℕ → ℕ)
        → IsWithinPolicy shared (run (boot scenario) before) label → IsAtRest (run (boot scenario) before) label
        → MayTakeTurns shared (run (boot scenario) before) label turns }
    ensures isolated { (shared : ℕ → Bool) (flows : ℕ → ℕ → Bool) (scenario : Scenario) (before turns : List ℕ) (label : ℕ → ℕ)
        → AreIsolated shared flows (run (boot scenario) before) label → IsAtRest (run (boot scenario) before) label
        → AreIsolated shared flows (run (run (boot scenario) before) turns) (labels (run (boot scenario) before) label turns) }
    ensures acts { (shared : ℕ → Bool) (scenario : Scenario) (before turns : List ℕ) (label : ℕ → ℕ) (cpu ec : ℕ)
        → IsWithinPolicy shared (run (boot scenario) before) label → IsAtRest (run (boot scenario) before) label
        → Acts (run (run (boot scenario) before) turns) cpu ec
        → labels (run (boot scenario) before) label turns (pd_of (run (run (boot scenario) before) turns) ec) ≢ 0 }
    ensures reach { (shared : ℕ → Bool) (scenario : Scenario) (before turns : List ℕ) (label : ℕ → ℕ) (side right frame : ℕ)
        → IsWithinPolicy shared (run (boot scenario) before) label → IsAtRest (run (boot scenario) before) label
        → side ≢ 0
        → Reach (run (run (boot scenario) before) turns) (Labelled (labels (run (boot scenario) before) label turns) side) right frame
        → ReachesSince (run (boot scenario) before) label turns side right frame }
    ensures holds { (shared : ℕ → Bool) (scenario : Scenario) (before turns : List ℕ) (label : ℕ → ℕ) (side right object : ℕ)
        → IsWithinPolicy shared (run (boot scenario) before) label → IsAtRest (run (boot scenario) before) label
        → side ≢ 0
        → Holds (run (run (boot scenario) before) turns) (Labelled (labels (run (boot scenario) before) label turns) side) right object
        → HoldsSince (run (boot scenario) before) label turns side right object ⊎ IsMadeBySide (run (boot scenario) before) label turns side right object }
{}

/// Take sides within their policy in such a state, in which each trusted domain is at rest, bare or mute. A bare one holds memory alone, and all that
/// sides hold of it are portals for exits: a pager, a monitor, a console. A mute one holds nothing of another domain's but memory and semaphores, and
/// of a side's what it controls at most, and no side holds anything of its: a driver, a logger by buffers, a watchdog. Whatever turns follow, and
/// whatever their programs do, each turn of what is trusted is careful, so that the policy holds on, and what a side commands stays its own. They may give memory to sides as they
/// like.
pub fn bare_and_mute_domains_are_careful()
    ensures turns { (shared : ℕ → Bool) (scenario : Scenario) (before turns : List ℕ) (label : ℕ → ℕ)
        → IsWithinPolicy shared (run (boot scenario) before) label → AreHarmless (run (boot scenario) before) label
        → MayTakeTurns shared (run (boot scenario) before) label turns }
    ensures within { (shared : ℕ → Bool) (scenario : Scenario) (before turns : List ℕ) (label : ℕ → ℕ)
        → IsWithinPolicy shared (run (boot scenario) before) label → AreHarmless (run (boot scenario) before) label
        → IsWithinPolicy shared (run (run (boot scenario) before) turns) (labels (run (boot scenario) before) label turns) }
    ensures powers { (shared : ℕ → Bool) (scenario : Scenario) (before turns : List ℕ) (label : ℕ → ℕ)
        → IsWithinPolicy shared (run (boot scenario) before) label → AreHarmless (run (boot scenario) before) label
        → CommandOwn (run (boot scenario) before) label
        → CommandOwn (run (run (boot scenario) before) turns) (labels (run (boot scenario) before) label turns) }
{}

/// That what is trusted was careful is seen in states: where the sides are isolated after each turn of a run, with the labels that domains have
/// then, each turn was of a side, or of what is trusted and careful.
pub fn sides_that_stay_isolated_met_careful_turns()
    ensures { (shared : ℕ → Bool) (flows : ℕ → ℕ → Bool) (scenario : Scenario) (before turns : List ℕ) (label : ℕ → ℕ)
        → StayIsolated shared flows (run (boot scenario) before) label turns → MayTakeTurns shared (run (boot scenario) before) label turns }
{}

ghost use Rattle.std.specs.Prelude.{◌≡◌, ◌⊎◌, ℕ, ◌<◌, true, false, Option, Some, None};
ghost use Rattle.nova_model.specs.Edges.{acts_by, edge_of};
ghost use Rattle.nova_model.specs.Times.{is_before};
ghost use Rattle.nova_model.specs.declared.context.State.{State};
ghost use Rattle.nova_model.specs.declared.context.State.TheVariants.{Blocked, Calling, Dead, Helping, Parked, Sending};
ghost use Rattle.nova_model.specs.declared.times.Due.TheVariants.{Alarm, Deadline};
ghost use Rattle.law_rows.specs.Acting.{WaitsFor};

/// An execution context has an edge to a handler exactly where it called it, helps it, or has an exit for it.
pub fn edges_lead_to_handlers()
    ensures waits { (s : State) (handler : ℕ) → WaitsFor s handler → edge_of s ≡ Some handler }
    ensures edge { (s : State) (handler : ℕ) → edge_of s ≡ Some handler → WaitsFor s handler }
{}

/// A context that is parked, blocked or dead never acts. A caller acts where its handler is dead; a context that helps, or has an exit for a handler,
/// acts where the handler is dead or parked; and a context without an edge acts in each other state.
pub fn states_that_act()
    ensures none { (sm : ℕ) (handler : Option State) → (acts_by Parked handler ≡ false) × (acts_by (Blocked sm) handler ≡ false) × (acts_by Dead handler ≡ false) }
    ensures calls { (h : ℕ) (handler : Option State) → acts_by (Calling h) handler ≡ true → handler ≡ Some Dead }
    ensures aborts { (h : ℕ) → acts_by (Calling h) (Some Dead) ≡ true }
    ensures helps { (h reason q0 q1 : ℕ) (handler : Option State) → (acts_by (Helping h) handler ≡ true) ⊎ (acts_by (Sending reason q0 q1 h) handler ≡ true) →
        (handler ≡ Some Parked) ⊎ (handler ≡ Some Dead) }
    ensures again { (h reason q0 q1 : ℕ) → (acts_by (Helping h) (Some Parked) ≡ true) × (acts_by (Helping h) (Some Dead) ≡ true)
        × (acts_by (Sending reason q0 q1 h) (Some Parked) ≡ true) × (acts_by (Sending reason q0 q1 h) (Some Dead) ≡ true) }
    ensures others { (s : State) (handler : Option State) → edge_of s ≡ None → (acts_by s handler ≡ true) ⊎ ((s ≡ Parked) ⊎ ((s ≡ Dead) ⊎ ((sm : ℕ) × (s ≡ Blocked sm)))) }
{}

/// At one moment an alarm comes before a deadline, and of two of a kind that of the lesser number.
pub fn who_goes_first_at_one_moment()
    ensures kinds { (alarm ec : ℕ) → (is_before (Alarm alarm) (Deadline ec) ≡ true) × (is_before (Deadline ec) (Alarm alarm) ≡ false) }
    ensures alarms { (a b : ℕ) → a < b → (is_before (Alarm a) (Alarm b) ≡ true) × (is_before (Alarm b) (Alarm a) ≡ false) }
    ensures deadlines { (a b : ℕ) → a < b → (is_before (Deadline a) (Deadline b) ≡ true) × (is_before (Deadline b) (Deadline a) ≡ false) }
{}

ghost use Rattle.nova_sched.specs.Precedence.{ChosenIsForemost, MarkedChangesOne, ChargedChangesOne, AddedChangesOne, StampsAreGivenOnce, ForemostIsAlone};

/// The chosen scheduling context is runnable and of the processor. No other such has a greater priority, or the same priority and a lesser stamp.
/// Where none is chosen, none may run.
pub fn none_runs_before_the_chosen()
    ensures { ChosenIsForemost }
{}

/// Marking a scheduling context as runnable or not, charging it a turn, and adding it change no other scheduling context.
pub fn changes_are_of_one()
    ensures marked { MarkedChangesOne }
    ensures charged { ChargedChangesOne }
    ensures added { AddedChangesOne }
{}

/// Each stamp is given once. So of the scheduling contexts of a processor that may run only one is foremost.
pub fn stamps_are_given_once()
    ensures once { StampsAreGivenOnce }
    ensures alone { ForemostIsAlone }
{}

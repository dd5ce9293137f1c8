ghost use Rattle.nova_io.specs.Outside.{depots, sinks};
ghost use Rattle.nova_answers.specs.Repeated.{AreShort, AreRepeated, AreRepeatedFromFiles};
ghost use Rattle.nova_answers.specs.Replayed.{AreTakenAgain, AreSameAgain};

use nova_io::{Depot, Sink};

/// What `run` appended is an order for the same scenario that `solo` takes, and there it gives the same report, and the same of Done and
/// Limit.
pub fn a_written_order_gives_the_same_report<D: Depot>()
    ensures taken { AreTakenAgain (depots D.files D.gave D.fetch_failed D.fetch_faults D.took D.append_failed D.append_faults) }
    ensures same { AreSameAgain (depots D.files D.gave D.fetch_failed D.fetch_faults D.took D.append_failed D.append_faults) }
{}

/// `solo` repeats a `run` of `nova_main` that answered Done or Limit. With the same limit, over the same scenario and what `run` appended, it gives
/// the same answer and writes the same text, or answers Memory, where nothing fails outside. So it is where the files are told that `run` left, with
/// nothing at the order's name before it. What `run` makes to append is never longer than an order may be.
pub fn one_thread_repeats_a_run<D: Depot, O: Sink>()
    ensures short { AreShort (depots D.files D.gave D.fetch_failed D.fetch_faults D.took D.append_failed D.append_faults) }
    ensures repeats { AreRepeated (depots D.files D.gave D.fetch_failed D.fetch_faults D.took D.append_failed D.append_faults) (sinks O.written O.took O.write_failed O.faults) }
    ensures files { AreRepeatedFromFiles (depots D.files D.gave D.fetch_failed D.fetch_faults D.took D.append_failed D.append_faults) (sinks O.written O.took O.write_failed O.faults) }
{}

ghost use Rattle.nova_sem.specs.Sound.{EachWaitsAlone, ChangesAreOfOne, FirstInFirstOut};
ghost use Rattle.nova_sem.specs.Waiting.{OnlyTheWokenGoes, OnlyTheLateGoes, OnlyTheBlockedComes};

/// Execution contexts that wait at a semaphore are woken in the order in which they came.
pub fn first_in_first_out()
    ensures { FirstInFirstOut }
{}

/// An execution context waits once, at one semaphore alone, and only where the counter is 0.
pub fn each_waits_alone()
    ensures { EachWaitsAlone }
{}

/// A new entry, an up and a down change no other semaphore.
pub fn changes_are_of_one()
    ensures { ChangesAreOfOne }
{}

/// A woken execution context waits nowhere from then on, nor does a context that leaves a queue, and a context
/// that blocks waits there. All others wait where they did.
pub fn one_comes_or_goes()
    ensures goes { OnlyTheWokenGoes }
    ensures comes { OnlyTheBlockedComes }
    ensures late { OnlyTheLateGoes }
{}

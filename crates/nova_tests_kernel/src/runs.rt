// What a finished run comes to.
use nova_run::Finished;
use nova_tests_bursts::drops::let_go;
use std::process::Abort;

/// The text of a run's order, how many turns that has, how many events there are, and whether the run ends quiet.
#[derive(Drop)]
pub struct Told {
    pub order: Vec<u8>,
    pub turns: u64,
    pub events: u64,
    pub is_quiet: bool,
}

/// What a run comes to, while it lasts.
fn told_of(rt: &impl Abort, run: &Finished) -> Told {
    Told {
        order: run.order.text().expect(rt, "ample memory"),
        turns: run.order.sum(),
        events: run.trace.len(),
        is_quiet: run.kernel.quiet(),
    }
}

/// What `run` comes to.
pub fn tell(rt: &impl Abort, run: Finished) -> Told {
    let told = told_of(rt, &run);
    let_go(run);
    told
}

/// Whether `a` and `b` have the same order, and as many events.
pub fn is_same(a: &Told, b: &Told) -> bool {
    a.order.as_slice() == b.order.as_slice() && a.events == b.events
}

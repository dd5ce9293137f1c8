ghost use Rattle.std.specs.Prelude.{◌≡◌};
ghost use Rattle.nova_model.specs.Choice.{is_quiet};

use nova_compare::Vertex;
use std::snapshot::Snapshot;

/// A state that was found: after a turn of processor `cpu` in the state at place `from` of what was found, and whether the run has ended
/// in it. The first is the state in which the search begins.
#[derive(Drop)]
pub struct Found {
    /// The state as clauses see it. Its kernel is kept while the state is open, and made again by `kernel_at`.
    pub vertex: Snapshot<Vertex>,
    pub from: usize,
    pub cpu: u32,
    pub has_ended: bool,
    pub ghost ended: { has_ended ≡ is_quiet vertex.value },
}

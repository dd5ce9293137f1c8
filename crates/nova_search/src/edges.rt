/// A turn that isn't idle leads from the state at one place of what was found to that at another.
#[derive(Clone, Copy)]
pub struct Edge {
    pub from: usize,
    pub to: usize,
}

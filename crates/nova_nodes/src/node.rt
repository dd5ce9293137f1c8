use nova_model::Derivation;

/// A derivation with links, by id: to its newest child, and of its parent's children to the next older
/// and the next younger one.
#[derive(Clone, Copy)]
pub struct Node {
    pub derivation: Derivation,
    pub newest: Option<u32>,
    pub older: Option<u32>,
    pub younger: Option<u32>,
}

/// An id, and where its node is kept. It stays for a while where that is taken away.
#[derive(Clone, Copy)]
pub struct Place {
    pub id: u32,
    pub key: usize,
}

/// A node with its place.
#[derive(Clone, Copy)]
pub struct Entry {
    pub place: Place,
    pub node: Node,
}

/// How far the way from a derivation, from newest child to newest child, was followed, and which id was next then.
#[derive(Clone, Copy)]
pub struct Trail {
    pub from: u32,
    pub at: u32,
    pub next: u32,
}

use nova_range::Rights;

/// A page of memory: the frame that it leads to, and what is allowed there.
#[derive(Clone, Copy)]
pub struct Page {
    pub frame: u32,
    pub rights: Rights,
}

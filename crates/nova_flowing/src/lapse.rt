use crate::leak::Leak;

/// What an execution context does in a turn that may be none of `AreAtWork`.
#[derive(Clone, Copy)]
pub enum LapseKind {
    /// It makes an object.
    Creates,
    /// It gives items or a first range, or takes the items of a call, while one of the side is amid a revoke.
    Gives,
    /// It revokes, where the side may not.
    Revokes,
}

/// A turn in which an execution context creates, gives or revokes: the turn, counted from 1, the execution context, its protection domain, and which it does;
/// and of one that gives the domain of one that is amid a revoke then, `amid`, else its own.
#[derive(Clone, Copy)]
pub struct Lapse {
    pub turn: u64,
    pub ec: u32,
    pub pd: u32,
    pub amid: u32,
    pub kind: LapseKind,
}

/// Until when a side is at work, if it ends; until when it is without revokes, `calm`; and which capability of others was made of what it holds, if one
/// was: where none was, it may revoke.
#[derive(Clone, Copy)]
pub struct Work {
    pub lapse: Option<Lapse>,
    pub calm: Option<Lapse>,
    pub leak: Option<Leak>,
}

/// How the root's execution context and scheduling context begin. They have pc, a multiple of 4; the stack
/// pointer, in x2; the priority; and the quantum in turns, which a scenario gives as at least 1.
#[derive(Clone, Copy)]
pub struct Root {
    pub pc: u32,
    pub sp: u32,
    pub priority: u8,
    pub quantum: u32,
}

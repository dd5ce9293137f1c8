use nova_range::Range;
use rv_model::Regs;

/// What an execution context is about to do.
#[derive(Clone, Copy)]
pub enum State {
    /// It has not raised its startup exit.
    Fresh,
    /// Its next is an instruction.
    Ready,
    /// A local thread without a caller.
    Parked,
    /// It waits for the reply of this handler, to a call or to an exit.
    Calling(u32),
    /// Its call found this handler busy.
    Helping(u32),
    /// It raised an exit, by reason and two qualifications, which is not sent.
    Exiting(u32, u32, u32),
    /// Its exit, by reason and two qualifications, found this handler busy.
    Sending(u32, u32, u32, u32),
    /// It gives: a new protection domain its first range, as its creator; or, with none, it takes the
    /// items of a call, as the handler.
    Granting(Option<u32>),
    /// It gives the items of its reply.
    Replying,
    /// It revokes this range; with true its domain's own derivations inside the range go too.
    Revoking(Range, bool),
    /// It waits at this semaphore.
    Blocked(u32),
    /// It ended.
    Dead,
}

/// How a handler's caller came: by a call, or by an exit.
#[derive(Clone, Copy)]
pub enum Mark {
    Call,
    Exit,
}

/// An execution context at work: its number, its processor, what it is about to do, its registers,
/// the caller that it serves, and whether its recall was asked for.
#[derive(Clone, Copy)]
pub struct EcState {
    pub id: u32,
    pub cpu: u32,
    pub state: State,
    pub regs: Regs,
    pub caller: Option<(u32, Mark)>,
    pub recall: bool,
}

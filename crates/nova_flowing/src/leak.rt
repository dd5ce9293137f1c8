/// The conditions of which the premises of noninterference on divided processors are made, in the order in which they are decided.
#[derive(Clone, Copy)]
pub enum Premise {
    /// `AreSetsApart`: the side and the others are closed, share no object, and all else is idle.
    Apart,
    /// `IsSide`: what the side's domains hold, wait for and serve is of its part.
    Side,
    /// `IsGuarded`: the part is its own, and the others write to no frame of it.
    Guarded,
    /// `IsDivided`: its processors are its own, and the others hold no right to create.
    Divided,
}

/// A field of the conditions of which a premise is made, or what is asked of a side that revokes.
#[derive(Clone, Copy)]
pub enum Field {
    /// `IsClosed.there`: what is named as a domain is none.
    There,
    /// `AreSeparate.disjoint`: a domain is of both.
    Disjoint,
    /// `IsClosed.capabilities`: a capability leads to what isn't the own of its holders.
    Capabilities,
    /// `IsClosed.edges`: an execution context waits for a handler of a set that it isn't of.
    Waiters,
    /// `IsClosed.firsts`: an execution context gives a first range to a domain that isn't of its set.
    Firsts,
    /// `AreSeparate.rest`: an execution context of neither goes on, or one of them or an alarm may have it go on.
    Rest,
    /// `AreSetsApart.objects`: both hold an object.
    Objects,
    /// `AreSetsApart.first`, `AreSetsApart.second`: an execution context waits at a semaphore that the other set holds.
    Waits,
    /// `AreSetsApart.queues`: execution contexts of both wait at a semaphore.
    Queues,
    /// `IsSide.holds`: a capability leads out of the part.
    Holds,
    /// `IsSide.handlers`: a portal's handler isn't of the part.
    Handlers,
    /// `IsSide.edges`: an execution context waits for a handler that isn't of the part.
    Edges,
    /// `IsSide.callers`: an execution context serves who isn't of the part.
    Callers,
    /// `IsSide.queues`: who isn't of the part waits at an object of it.
    Queued,
    /// `IsSide.blocked`: an execution context waits at a semaphore that isn't of the part.
    Blocked,
    /// `IsSide.members`: an execution context of the side's isn't of the part.
    Members,
    /// `IsGuarded.owned`: an object of the part isn't the side's own.
    Owned,
    /// `IsGuarded.semaphores`: the others hold a semaphore of the part.
    Semaphores,
    /// `IsGuarded.lines`: a capability comes of one of the others'.
    Lines,
    /// `IsGuarded.memory`: the others write to a frame that the side sees.
    Memory,
    /// `HasHome.contexts`: an execution context of the side's is on another processor.
    Contexts,
    /// `HasHome.schedules`: a scheduling context of the side's isn't of the part.
    Schedules,
    /// `HasHome.rings`: an alarm of another processor rings at a semaphore of the part.
    Rings,
    /// `IsDivided.others`: an execution context of the others' is on a processor of the side's.
    Others,
    /// `IsDivided.creates`: the others hold a right to create.
    Creates,
    /// `DerivesWithin`: a capability that no domain of the side holds was made of one that one of them holds.
    Derives,
}

/// What a premise fails of.
#[derive(Clone, Copy)]
pub enum Place {
    /// A capability, and the first object or frame to which it leads.
    Capability { cap: u32, target: u32 },
    /// An object.
    Object { object: u32 },
    /// An execution context, on a processor.
    Context { ec: u32, cpu: u32 },
    /// A source, of a processor, and its semaphore.
    Source { source: u64, cpu: u32, sm: u32 },
}

/// Why a premise fails: which field of it, and of what.
#[derive(Clone, Copy)]
pub struct Leak {
    pub field: Field,
    pub place: Place,
}

ghost use Rattle.std.specs.Prelude.{◌≡◌, Some, vec_capacity, vec_len};
ghost use Rattle.nova_ec.specs.Waiting.{changed, with_waiter, without_waiter};

/// The contexts that may wait for a handler: none, one alone, or perhaps several.
#[derive(Clone, Copy)]
pub enum Waiters {
    Nobody,
    Only(u32),
    Several,
}

impl Waiters {
    /// These waiters and `ec`.
    fn with(self, ec: u32) -> Waiters
        ensures { result ≡ with_waiter ec self }
    {
        match self {
            Waiters::Nobody => Waiters::Only(ec),
            Waiters::Only(other) if other == ec => self,
            _ => Waiters::Several,
        }
    }

    /// These waiters without `ec`; `Several` stays, since how many they were is not kept.
    fn without(self, ec: u32) -> Waiters
        ensures { result ≡ without_waiter ec self }
    {
        match self {
            Waiters::Only(other) if other == ec => Waiters::Nobody,
            _ => self,
        }
    }
}

/// Adds `ec`, which comes to wait for `handler`, to its waiters.
fn add(waiters: &mut Vec<Waiters>, handler: u32, ec: u32)
    ensures items { waiters.new.items ≡ changed (with_waiter ec) (Some handler) waiters.old.items }
    ensures len { vec_len waiters.new ≡ vec_len waiters.old }
    ensures capacity { vec_capacity waiters.new ≡ vec_capacity waiters.old }
{
    if let Some(others) = waiters.get(handler as usize) {
        waiters[handler as usize] = others.with(ec);
    }
}

/// Takes `ec`, which waits for `handler` no longer, out of its waiters.
fn remove(waiters: &mut Vec<Waiters>, handler: u32, ec: u32)
    ensures items { waiters.new.items ≡ changed (without_waiter ec) (Some handler) waiters.old.items }
    ensures len { vec_len waiters.new ≡ vec_len waiters.old }
    ensures capacity { vec_capacity waiters.new ≡ vec_capacity waiters.old }
{
    if let Some(others) = waiters.get(handler as usize) {
        waiters[handler as usize] = others.without(ec);
    }
}

/// Adds `ec` to the waiters of `handler`, where there is one.
#[inline(always)]
pub(crate) fn join(waiters: &mut Vec<Waiters>, handler: Option<u32>, ec: u32)
    ensures items { waiters.new.items ≡ changed (with_waiter ec) handler waiters.old.items }
    ensures len { vec_len waiters.new ≡ vec_len waiters.old }
    ensures capacity { vec_capacity waiters.new ≡ vec_capacity waiters.old }
{
    if let Some(handler) = handler {
        add(waiters, handler, ec);
    }
}

/// Takes `ec`, which no longer waits for `handler`, out of its waiters.
#[inline(always)]
pub(crate) fn leave(waiters: &mut Vec<Waiters>, handler: Option<u32>, ec: u32)
    ensures items { waiters.new.items ≡ changed (without_waiter ec) handler waiters.old.items }
    ensures len { vec_len waiters.new ≡ vec_len waiters.old }
    ensures capacity { vec_capacity waiters.new ≡ vec_capacity waiters.old }
{
    if let Some(handler) = handler {
        remove(waiters, handler, ec);
    }
}

ghost use Rattle.std.specs.Prelude.{◌≡◌, ◌<◌, true, length};
ghost use Rattle.nova_model.specs.State.{pd_of, processor_of, is_thread, is_local_thread, with_message, message};
ghost use Rattle.nova_turn.specs.Parts.{state_of};
ghost use Rattle.nova_utcb.specs.Messages.{has_counts, has_items};
ghost use Rattle.nova_model.specs.Deeds.{passed};
ghost use Rattle.nova_turn.specs.Going.{KeepsRest};

use crate::parts::Parts;
use nova_model::{EcKind, Object};
use nova_utcb::Utcb;

impl Parts {
    /// The protection domain of the execution context `ec`; for any other number, a domain that there never is.
    pub fn pd(&self, ec: u32) -> u32
        ensures { result ≡ pd_of (state_of self.now) ec }
    {
        match self.objects.get(ec) {
            Some(Object::Ec { pd, .. }) => *pd,
            _ => u32::MAX,
        }
    }

    /// The processor of the execution context `ec`.
    pub(crate) fn processor(&self, ec: u32) -> u32
        ensures { result ≡ processor_of (state_of self.now) ec }
    {
        match self.objects.get(ec) {
            Some(Object::Ec { cpu, .. }) => *cpu,
            _ => 0,
        }
    }

    /// Whether the execution context `ec` is a thread.
    pub(crate) fn is_thread(&self, ec: u32) -> bool
        ensures { result ≡ is_thread (state_of self.now) ec }
    {
        match self.objects.get(ec) {
            Some(Object::Ec { kind, .. }) => matches!(kind, EcKind::Local | EcKind::Global),
            _ => false,
        }
    }

    /// Whether the execution context `ec` is a local thread.
    pub(crate) fn is_local_thread(&self, ec: u32) -> bool
        ensures { result ≡ is_local_thread (state_of self.now) ec }
    {
        match self.objects.get(ec) {
            Some(Object::Ec { kind, .. }) => matches!(kind, EcKind::Local),
            _ => false,
        }
    }

    /// Whether the data words of the execution context `ec` hold what its message counts.
    #[inline(always)]
    pub(crate) fn has_counts(&self, ec: u32) -> bool
        ensures { result ≡ has_counts (message (state_of self.now) ec) }
    {
        match self.reach.words(ec) {
            Some(words) => words.has_counts(),
            None => true,
        }
    }

    /// Whether the message of the execution context `ec` counts items.
    #[inline(always)]
    pub(crate) fn has_items(&self, ec: u32) -> bool
        ensures { result ≡ has_items (message (state_of self.now) ec) }
    {
        match self.reach.words(ec) {
            Some(words) => words.has_items(),
            None => false,
        }
    }

    /// Copies the message of the execution context `from` to that of `to`.
    #[inline(always)]
    pub(crate) fn pass_message(&mut self, from: u32, to: u32)
        requires counts { has_counts (message (state_of self.old) from) ≡ true }
        requires there { to < length (state_of self.old).messages }
        ensures passed { state_of self.new ≡ passed (state_of self.old) from to }
        ensures rest { KeepsRest self.old self.new }
    {
        self.reach.pass_message(from, to);
    }

    /// Sets the message words of the execution context `ec` to `message`.
    pub(crate) fn set_message(&mut self, ec: u32, message: &Utcb)
        requires { ec < length (state_of self.old).messages }
        ensures shown { state_of self.new ≡ with_message (state_of self.old) ec message.now }
        ensures rest { KeepsRest self.old self.new }
    {
        self.reach.set_message(ec, message);
    }
}

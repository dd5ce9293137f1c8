ghost use Rattle.std.specs.Prelude.{◌≡◌, ◌<◌, ◌≤◌, [], length, IsOk, OnOk, OnErr, IfOk};
ghost use Rattle.std.specs.List.{list_any};
ghost use Rattle.nova_model.specs.Running.{is_of_objects};
ghost use Rattle.nova_revoke.specs.Runners.{begun_in, ended_in, index_of, place_of, revoke_in};

use crate::revoke::Revoke;
use nova_nodes::{Guarded, Nodes};
use nova_range::{Index, Kind, Range};
use std::alloc::{AllocError, Global};
use std::marker::Model;

/// A revoke that runs, with the execution context that runs it.
#[derive(Clone, Copy)]
pub struct Running {
    pub ec: u32,
    pub revoke: Revoke,
}

impl Model for Running {
    ghost use Rattle.nova_model.specs.Running as model;
    ghost use Rattle.nova_range.specs.Ranges.{IsRange};

    ghost Value = { model.Running };

    ghost view = { λ w. record { ec = w.ec; revoke = w.revoke } };

    ghost invariant = { λ w. IsRange w.revoke.range };

    ghost inverse = { λ v. record { ec = v.ec; revoke = v.revoke } };
}

impl Guarded for Running {
    ghost revoke = { λ w. w.revoke };

    fn would_grow<I: Index>(
        &self,
        nodes: &Nodes<I>,
        parent: Option<u32>,
        pd: u32,
        range: Range,
        target: u32,
    ) -> bool {
        crate::would_grow(nodes, &self.revoke, parent, pd, range, target)
    }
}

/// Whether a revoke is one of the protection domain `pd`, of an object range that contains `selector`.
fn is_of_objects(running: &Running, pd: u32, selector: u32) -> bool
    ensures { result ≡ is_of_objects pd selector running.now }
{
    let Revoke {
        pd: revoker,
        range,
        ..
    } = running.revoke;
    matches!(range.kind, Kind::Obj)
        && revoker == pd
        && range.base <= selector
        && selector - range.base < 1 << range.order
}

/// The revokes that run, by the number of the execution context, with a place for each that may run one.
#[derive(Drop)]
pub struct Revokes {
    list: Vec<Running>,
}

impl Model for Revokes {
    ghost use Rattle.std.specs.Prelude.{vec_capacity};
    ghost use Rattle.nova_revoke.specs.Runners.{RevokesState};

    ghost Value = { RevokesState };

    ghost view = { λ r. record { list = r.list.items; places = vec_capacity r.list } };
}

impl Revokes {
    /// No running revokes, and places for none.
    pub fn new(alloc: Global) -> Revokes
        ensures { result.list ≡ [] }
    {
        Revokes {
            list: Vec::new(alloc),
        }
    }

    /// Makes places for the revokes of `contexts` execution contexts. Places that were made before stay, and where they are enough, this succeeds.
    pub fn reserve(&mut self, contexts: usize) -> Result<(), AllocError>
        ensures list { self.new.list ≡ self.old.list }
        ensures places { self.old.places ≤ self.new.places }
        ensures ok { OnOk result (contexts ≤ self.new.places) }
        ensures enough { contexts ≤ self.old.places → IsOk result }
        ensures err { OnErr result (self.new ≡ self.old) }
    {
        self.list.reserve(contexts.saturating_sub(self.list.len()))
    }

    /// Copies the running revokes into memory of their own, with places for the revokes of `contexts` execution contexts.
    pub fn copy(&self, contexts: usize) -> Result<Revokes, AllocError>
        ensures list { IfOk result (λ copy. copy.list ≡ self.now.list) }
        ensures places { IfOk result (λ copy. contexts ≤ copy.places) }
    {
        let mut copy = Revokes {
            list: Vec::from_slice(*self.list.allocator(), self.list.as_slice())?,
        };
        copy.reserve(contexts)?;
        Ok(copy)
    }

    /// The running revokes, in order.
    pub fn as_slice(&self) -> &[Running]
        ensures { result.now ≡ self.now.list }
    {
        self.list.as_slice()
    }

    /// The revoke that the execution context `ec` runs.
    pub fn get(&self, ec: u32) -> Option<Revoke>
        ensures { result ≡ revoke_in ec self.now.list }
    {
        let running = self.list.get(self.index_of(ec))?;
        Some(running.revoke)
    }

    /// Whether a running revoke of the protection domain `pd` is of an object range that contains `selector`.
    pub fn forbids(&self, pd: u32, selector: u32) -> bool
        ensures { result ≡ list_any (is_of_objects pd selector) self.now.list }
    {
        for running in &self.list {
            if is_of_objects(running, pd, selector) {
                return true;
            }
        }
        false
    }

    /// Where the revoke of the execution context `ec` goes: before the first of a greater number.
    fn place_of(&self, ec: u32) -> usize
        ensures place { result ≡ place_of ec self.now.list }
        ensures within { result ≤ length self.now.list }
    {
        for i in 0..self.list.len() {
            if ec < self.list[i].ec {
                return i;
            }
        }
        self.list.len()
    }

    /// Where the revoke of the execution context `ec` stands; the end of the list where it runs none.
    fn index_of(&self, ec: u32) -> usize
        ensures { result ≡ index_of ec self.now.list }
    {
        for i in 0..self.list.len() {
            if self.list[i].ec == ec {
                return i;
            }
        }
        self.list.len()
    }

    /// Begins `revoke` for the execution context `ec`, which runs none, in its place.
    pub fn begin(&mut self, ec: u32, revoke: Revoke)
        requires { length self.old.list < self.old.places }
        ensures list { self.new.list ≡ begun_in (record { ec = ec; revoke = revoke }) self.old.list }
        ensures places { self.new.places ≡ self.old.places }
    {
        let at = self.place_of(ec);
        let done = self.list.insert(at, Running { ec, revoke });
        prove!(done.is_ok());
    }

    /// Ends the revoke of the execution context `ec`, whose place is free then.
    pub fn end(&mut self, ec: u32)
        ensures list { self.new.list ≡ ended_in ec self.old.list }
        ensures places { self.new.places ≡ self.old.places }
    {
        let at = self.index_of(ec);
        if at < self.list.len() {
            self.list.remove(at);
        }
    }
}

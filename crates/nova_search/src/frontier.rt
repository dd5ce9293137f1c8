ghost use Rattle.std.specs.Prelude.{◌≡◌, ◌^◌, ◌<◌, [], ◌∷◌, ◌++◌, length, option_to_list, slice_index_or, None, IfOk, IfSome, OnOk};
ghost use Rattle.std.specs.Bool.{OnTrue};
ghost use Rattle.nova_model.specs.State.{KernelState};
ghost use Rattle.nova_compare.specs.Steps.{IsNext};
ghost use Rattle.nova_search.specs.Merged.{IsOneAt};
ghost use Rattle.nova_search.specs.Searches.{AreLinked, AreOpen, state_at, states_of};

use crate::again::is_one_again;
use crate::found::Found;
use crate::index::Index;
use crate::merging::Merging;
use nova_compare::{Spares, Vertex};
use std::alloc::{AllocError, Global};
use std::collections::VecDeque;
use std::marker::Model;
use std::mem;

/// The most vertices of one hash that a vertex is compared with. One that is not seen to be there is entered once more.
const MOST_COMPARED: usize = 64;

/// The vertices of what was found and isn't expanded yet, the nearest first. States count turns, so that two of them are the same only where
/// as many were taken: an index then holds those alone that have one turn more than what is expanded, and else all that were found.
#[derive(Drop)]
pub(crate) struct Frontier {
    vertices: VecDeque<Vertex>,

    /// The last of what was found.
    index: Index,

    /// How many turns were taken in the vertex that was taken out last.
    turns: u64,

    /// Kernels of vertices that were found twice, or taken out and expanded.
    spares: Spares,

    alloc: Global,
}

impl Model for Frontier {
    ghost use Rattle.std.specs.Prelude.{List};
    ghost use Rattle.nova_model.specs.State.{KernelState};

    ghost Value = { List KernelState };

    ghost view = { λ f. f.vertices.items };
}

impl Frontier {
    /// No vertices.
    pub(crate) fn new(alloc: Global) -> Frontier
        ensures { result ≡ [] }
    {
        Frontier {
            vertices: VecDeque::new(alloc),
            index: Index::new(alloc),
            turns: 0,
            spares: Spares::new(alloc),
            alloc,
        }
    }

    /// How many vertices there are.
    pub(crate) fn len(&self) -> usize
        ensures { result ≡ length self.now }
    {
        self.vertices.len()
    }

    /// The vertex at a place, from 0.
    pub(crate) fn vertex(&self, place: usize) -> &Vertex
        requires { place < length self.now }
        ensures { (d : KernelState) → slice_index_or self.now place d ≡ result.now }
    {
        &self.vertices[place]
    }

    /// The vertex after a turn of the processor `cpu` in another one; none where the processor is idle.
    pub(crate) fn next(&mut self, vertex: &Vertex, cpu: u32) -> Result<Option<Vertex>, AllocError>
        requires cpu { cpu < vertex.now.cpus }
        requires turns { vertex.now.turns < 2 ^ 31 }
        ensures next { IfOk result (IsNext vertex.now cpu) }
        ensures kept { self.new ≡ self.old }
    {
        vertex.next(cpu, &mut self.spares)
    }

    /// Lets go of a vertex that isn't in the frontier, whose kernel is used again.
    pub(crate) fn let_go(&mut self, vertex: Vertex)
        ensures { self.new ≡ self.old }
    {
        self.spares.keep(vertex);
    }

    /// Puts a vertex of a hash behind those that are there.
    pub(crate) fn push(&mut self, vertex: Vertex, hash: u64) -> Result<(), AllocError>
        ensures { OnOk result (self.new ≡ self.old ++ vertex ∷ []) }
    {
        self.vertices.push_back(vertex)?;
        self.index.add(self.alloc, hash)?;
        Ok(())
    }

    /// Takes out the first vertex. Where states that are the same are one, those of fewer turns are in the index no more.
    pub(crate) fn take(&mut self, merging: Merging) -> Option<Vertex>
        ensures taken { self.old ≡ option_to_list result ++ self.new }
        ensures none { result ≡ None → self.old ≡ [] }
    {
        let vertex = self.vertices.pop_front()?;
        if merging.draws() && vertex.turns() != self.turns {
            self.turns = vertex.turns();
            self.index = Index::new(self.alloc);
        }
        Some(vertex)
    }

    /// Whether the state of the vertex at a place is seen to be one with that of another one.
    fn is_one_here(&self, merging: Merging, place: usize, vertex: &Vertex) -> bool
        ensures { OnTrue result (IsOneAt merging self.now place vertex.now) }
    {
        if place >= self.len() {
            return false;
        }
        merging.is_one(self.vertex(place), vertex)
    }

    /// Whether the state at a place of what was found from `opening`, of which those from `ahead` on are in the frontier, is seen to be one with that of a
    /// vertex.
    fn is_one_at(
        &self,
        opening: &Vertex,
        merging: Merging,
        spares: &mut Spares,
        found: &[Found],
        ahead: usize,
        place: usize,
        vertex: &Vertex,
    ) -> bool
        requires linked { AreLinked found.now }
        requires first { (d : KernelState) → state_at found.now 0 d ≡ opening.now }
        requires frontier { AreOpen (states_of found.now) ahead self.now }
        ensures { OnTrue result (IsOneAt merging (states_of found.now) place vertex.now) }
    {
        if place >= ahead {
            return self.is_one_here(merging, place - ahead, vertex);
        }
        place < found.len()
            && is_one_again(self.alloc, opening, merging, spares, found, place, vertex)
    }

    /// The place of a state that is seen to be one with that of a vertex of this hash, of what was found from `opening`. Those from `ahead` on are in the
    /// frontier.
    fn find_with(
        &self,
        opening: &Vertex,
        merging: Merging,
        spares: &mut Spares,
        found: &[Found],
        ahead: usize,
        vertex: &Vertex,
        hash: u64,
    ) -> Option<usize>
        requires linked { AreLinked found.now }
        requires first { (d : KernelState) → state_at found.now 0 d ≡ opening.now }
        requires frontier { AreOpen (states_of found.now) ahead self.now }
        ensures { IfSome result (λ place. IsOneAt merging (states_of found.now) place vertex.now) }
    {
        let before = found.len().checked_sub(self.index.len())?;
        let mut at = self.index.last(hash);
        for _ in 0..MOST_COMPARED {
            let number = at?;
            let place = before.checked_add(number)?;
            if self.is_one_at(opening, merging, spares, found, ahead, place, vertex) {
                return Some(place);
            }
            at = self.index.before(number);
        }
        None
    }

    /// The same, with kernels that are used again.
    pub(crate) fn find(
        &mut self,
        opening: &Vertex,
        merging: Merging,
        found: &[Found],
        ahead: usize,
        vertex: &Vertex,
        hash: u64,
    ) -> Option<usize>
        requires linked { AreLinked found.now }
        requires first { (d : KernelState) → state_at found.now 0 d ≡ opening.now }
        requires frontier { AreOpen (states_of found.now) ahead self.old }
        ensures one { IfSome result (λ place. IsOneAt merging (states_of found.now) place vertex.now) }
        ensures kept { self.new ≡ self.old }
    {
        let mut spares = mem::replace(&mut self.spares, Spares::new(self.alloc));
        let place = self.find_with(opening, merging, &mut spares, found, ahead, vertex, hash);
        self.spares = spares;
        place
    }
}

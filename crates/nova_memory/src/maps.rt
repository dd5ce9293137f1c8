ghost use Rattle.std.specs.Prelude.{◌≡◌, ◌≤◌, ◌+◌, ◌^◌, IfOk};
ghost use Rattle.std.specs.List.{All};
ghost use Rattle.nova_guest.specs.Maps.{is_covered, leads_to};
ghost use Rattle.nova_model.specs.Views.{cells_of, map_of, maps_of};
ghost use Rattle.nova_nodes.specs.NodesStates.{IsPlaced};

use crate::reach::Reach;
use nova_guest::{Bytes, Cell, Map};
use nova_model::{Derivation, Kind};
use std::alloc::{AllocError, Global};

/// Whether `map` leads to `frame`.
fn leads_to(map: &Map, frame: u32) -> bool
    requires { map.now.order ≤ 20 }
    ensures { result ≡ leads_to frame map.now }
{
    map.frame <= frame && frame - map.frame < 1 << map.order
}

/// Whether some map leads to `frame`.
fn is_covered(maps: &[Map], frame: u32) -> bool
    requires { All (λ m. m.order ≤ 20) maps.now }
    ensures { result ≡ is_covered maps.now frame }
{
    maps.iter().any(|map| leads_to(map, frame))
}

/// `derivation`, of memory, as a map, without its id and its parent.
fn map_of(derivation: &Derivation) -> Map
    ensures { result ≡ map_of derivation.now }
{
    Map {
        base: derivation.base,
        order: derivation.order,
        rights: derivation.rights,
        frame: derivation.target,
    }
}

/// The first place after `derivation`.
fn end_of(derivation: &Derivation) -> u32
    requires { IsPlaced derivation.now }
    ensures { result ≡ derivation.now.base + 2 ^ derivation.now.order }
{
    derivation.base + (1 << derivation.order)
}

impl Reach {
    /// The memory derivations of the protection domain `pd` as maps, by base.
    pub fn maps(&self, alloc: Global, pd: u32) -> Result<Vec<Map>, AllocError>
        ensures maps { IfOk result (λ maps. maps.items ≡ maps_of pd self.now.nodes.delegations.list) }
        ensures orders { IfOk result (λ maps. All (λ m. m.order ≤ 20) maps.items) }
    {
        let mut maps = Vec::new(alloc);
        let mut place = 0;
        while let Some(derivation) = self.nodes.first_from(pd, Kind::Mem, place) {
            maps.push(map_of(&derivation))?;
            place = end_of(&derivation);
        }
        Ok(maps)
    }

    /// The RAM frames that `maps` lead to, each once, by frame, with their bytes.
    pub fn cells(&self, alloc: Global, maps: &[Map]) -> Result<Vec<Cell>, AllocError>
        requires { All (λ m. m.order ≤ 20) maps.now }
        ensures { IfOk result (λ cells. cells.items ≡ cells_of maps.now self.now.memory.ram) }
    {
        let mut cells = Vec::new(alloc);
        for frame in 0..self.frames.ram_frames() {
            if is_covered(maps, frame) {
                let contents = Bytes::new(Vec::from_slice(alloc, self.frames.frame(frame))?);
                cells.push(Cell { frame, contents })?;
            }
        }
        Ok(cells)
    }
}

ghost use Rattle.std.specs.Prelude.{◌≡◌, ◌+◌, ◌-◌, ◌^◌, ◌<◌, ◌≤◌, ◌&&◌, nat_le, nat_lt, not, filter, [], IfOk};
ghost use Rattle.std.specs.List.{list_any};
ghost use Rattle.nova_guest.specs.Conditions.{AreMaps};
ghost use Rattle.nova_guest.specs.Keyed.{placed};
ghost use Rattle.nova_guest.specs.Maps.{base_of, covers, leads_to, overlaps, is_map, is_covered, page_of, page_in};

use crate::keyed::{Keyed, place};
use crate::page::Page;
use nova_range::Rights;
use std::alloc::AllocError;
use std::marker::Model;

/// Pages that lead to frames: the `2^order` pages from `base` on, a multiple of `2^order`, lead to the
/// frames from `frame` on, one after another.
#[derive(Clone, Copy)]
pub struct Map {
    pub base: u32,
    pub order: u8,
    pub rights: Rights,
    pub frame: u32,
}

/// The maps of a guest, by base.
#[derive(Drop)]
pub struct Maps {
    items: Vec<Map>,
}

impl Model for Maps {
    ghost use Rattle.std.specs.Prelude.{List};
    ghost use Rattle.nova_guest.specs.declared.map.Map.{Map};

    ghost Value = { List Map };

    ghost view = { λ m. m.items.items };
}

impl Keyed for Map {
    ghost use Rattle.nova_guest.specs.Maps.{base_of};

    ghost key_of = { base_of };

    fn key(&self) -> u32 {
        self.base
    }
}

/// Whether `number` is below `2^order`.
#[tactic(auto, using(crate::proofs::Searches::below_all))]
fn is_below(number: u32, order: u8) -> bool
    ensures { result ≡ nat_lt number (2 ^ order) }
{
    order >= 32 || number < 1 << order
}

/// Whether `number` is one of the `2^order` from a first one on.
fn is_among(number: u32, first: u32, order: u8) -> bool
    ensures { result ≡ nat_le first number && nat_lt number (first + 2 ^ order) }
{
    first <= number && is_below(number - first, order)
}

impl Map {
    /// Whether it covers `page`.
    pub(crate) fn covers(&self, page: u32) -> bool
        ensures { result ≡ covers page self.now }
    {
        is_among(page, self.base, self.order)
    }

    /// Whether it leads to `frame`.
    pub(crate) fn leads_to(&self, frame: u32) -> bool
        ensures { result ≡ leads_to frame self.now }
    {
        is_among(frame, self.frame, self.order)
    }

    /// Whether it shares a page with the `2^order` pages from `base` on.
    pub(crate) fn overlaps(&self, base: u32, order: u8) -> bool
        ensures { result ≡ overlaps base order self.now }
    {
        if self.base < base {
            is_below(base - self.base, self.order)
        } else {
            is_below(self.base - base, order)
        }
    }

    /// What `page`, which the map covers, leads to.
    fn page(&self, page: u32) -> Page
        requires there { self.now.base ≤ page }
        requires fits { self.now.frame + (page - self.now.base) < 2 ^ 32 }
        ensures { result ≡ page_of page self.now }
    {
        Page {
            frame: self.frame + (page - self.base),
            rights: self.rights,
        }
    }
}

impl Maps {
    /// The maps of the vector `items`.
    pub fn new(items: Vec<Map>) -> Maps
        ensures { result ≡ items.items }
    {
        Maps { items }
    }

    /// No maps.
    pub fn none(&self) -> Maps
        ensures { result ≡ [] }
    {
        Maps {
            items: Vec::new(*self.items.allocator()),
        }
    }

    /// The vector of these maps.
    pub fn into_vec(self) -> Vec<Map>
        ensures { result.items ≡ self }
    {
        self.items
    }

    /// The maps.
    pub fn as_slice(&self) -> &[Map]
        ensures { result.now ≡ self.now }
    {
        self.items.as_slice()
    }

    /// Copies the maps into memory of their own.
    pub fn copy(&self) -> Result<Maps, AllocError>
        ensures { IfOk result (λ copy. copy ≡ self.now) }
    {
        let items = Vec::from_slice(*self.items.allocator(), self.items.as_slice())?;
        Ok(Maps { items })
    }

    /// What `page` leads to, or nothing where no map covers it.
    pub fn page_at(&self, page: u32) -> Option<Page>
        requires { AreMaps self.now }
        ensures { result ≡ page_in self.now page }
    {
        for map in &self.items {
            if map.covers(page) {
                return Some(map.page(page));
            }
        }
        None
    }

    /// Whether some map leads to `frame`.
    pub(crate) fn lead_to(&self, frame: u32) -> bool
        ensures { result ≡ is_covered self.now frame }
    {
        self.items.iter().any(|map| map.leads_to(frame))
    }

    /// Whether some map shares a page with the `2^order` pages from `base` on.
    pub fn overlap(&self, base: u32, order: u8) -> bool
        ensures { result ≡ list_any (overlaps base order) self.now }
    {
        self.items.iter().any(|map| map.overlaps(base, order))
    }

    /// Whether there is a map of `base` and `order`.
    pub fn has(&self, base: u32, order: u8) -> bool
        ensures { result ≡ list_any (is_map base order) self.now }
    {
        self.items
            .iter()
            .any(|map| map.base == base && map.order == order)
    }

    /// These maps with `map` at its place, in memory of their own.
    pub fn with(&self, map: Map) -> Result<Maps, AllocError>
        ensures { IfOk result (λ maps. maps ≡ placed base_of map self.now) }
    {
        let mut items = Vec::from_slice(*self.items.allocator(), self.items.as_slice())?;
        items.reserve(1)?;
        place(&mut items, map);
        Ok(Maps { items })
    }

    /// Drops the maps of `base` and `order`.
    pub fn remove(&mut self, base: u32, order: u8)
        ensures { self.new ≡ filter (λ m. not (is_map base order m)) self.old }
    {
        self.items
            .retain(|map| !(map.base == base && map.order == order));
    }
}

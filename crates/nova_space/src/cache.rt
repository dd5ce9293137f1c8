ghost use Rattle.std.specs.Prelude.{◌≡◌, [], option_map, filter, not};
ghost use Rattle.std.specs.List.{find};
ghost use Rattle.nova_space.specs.Cached.{spans, begins_at, noted, key_of_place};

use arrayvec::ArrayVec;
use std::marker::Model;

/// The places of a range, from the base to the end, and its key.
#[derive(Clone, Copy, Default)]
pub struct Place {
    pub base: u32,
    pub end: u32,
    pub key: u32,
}

/// How many ranges are remembered.
pub const SIZE: usize = 16;

/// The ranges that were looked up last, the latest at the end.
#[derive(Drop)]
pub(crate) struct Cache {
    places: ArrayVec<Place, SIZE>,
}

impl Model for Cache {
    ghost use Rattle.std.specs.Prelude.{List};
    ghost use Rattle.nova_space.specs.declared.cache.Place.{Place};

    ghost Value = { List Place };

    ghost view = { λ c. c.places.items };
}

impl Cache {
    /// Nothing is remembered.
    pub(crate) fn new() -> Cache
        ensures { result ≡ [] }
    {
        Cache {
            places: ArrayVec::new(),
        }
    }

    /// The key of a range that is remembered and has `place`.
    pub(crate) fn find(&self, place: u32) -> Option<u32>
        ensures { result ≡ option_map key_of_place (find (spans place) self.now) }
    {
        for p in self.places.as_slice() {
            if p.base <= place && place < p.end {
                return Some(p.key);
            }
        }
        None
    }

    /// Remembers `place`, in the place of the range that was looked up first where all are taken.
    pub(crate) fn note(&mut self, place: Place)
        ensures { self.new ≡ noted place self.old }
    {
        if self.places.is_full() {
            self.places.remove(0);
        }
        self.places.push(place);
    }

    /// Forgets the ranges of `base`.
    pub(crate) fn forget(&mut self, base: u32)
        ensures { self.new ≡ filter (λ p. not (begins_at base p)) self.old }
    {
        let mut kept: ArrayVec<Place, SIZE> = ArrayVec::new();
        for p in self.places.as_slice() {
            if p.base != base {
                kept.push(*p);
            }
        }
        self.places = kept;
    }
}

ghost use Rattle.std.specs.Prelude.{◌≡◌, slice_get, slice_set, IfOk};
ghost use Rattle.nova_model.specs.State.{entry};
ghost use Rattle.nova_memory.specs.Sights.{IsBlank};

use crate::viewers::Viewers;
use std::alloc::{AllocError, Global};
use std::marker::Model;

/// The domains that saw a frame at a version of the delegations; nothing where they were too many to keep.
#[derive(Clone, Copy)]
struct Sight {
    version: u64,
    viewers: Option<Viewers>,
}

/// Of each RAM frame the protection domains whose memory leads to it, where they were looked up since delegations
/// last changed and are few.
#[derive(Drop)]
pub struct Sights {
    sights: Vec<Sight>,
    version: u64,
}

impl Model for Sights {
    ghost use Rattle.std.specs.Prelude.{◌≤◌, List, Option, map};
    ghost use Rattle.std.specs.List.{AllByRecursion};
    ghost use Rattle.nova_memory.specs.Sights.{shown_at};
    ghost use Rattle.nova_memory.specs.declared.viewers.Viewers.{Viewers};

    ghost Value = { List (Option Viewers) };

    ghost view = { λ s. map (shown_at s.version) s.sights.items };

    ghost invariant = { λ s. AllByRecursion (λ x. x.version ≤ s.version) s.sights.items };
}

impl Sights {
    /// Nothing is known of any of `frames` frames.
    pub fn new(alloc: Global, frames: u32) -> Result<Sights, AllocError>
        ensures { IfOk result IsBlank }
    {
        let mut sights = Vec::new(alloc);
        let none = Sight {
            version: 0,
            viewers: None,
        };
        sights.resize(frames as usize, none)?;
        Ok(Sights { sights, version: 0 })
    }

    /// Copies what is known into memory of its own.
    pub fn copy(&self) -> Result<Sights, AllocError>
        ensures { IfOk result (λ copy. copy ≡ self.now) }
    {
        let sights = Vec::from_slice(*self.sights.allocator(), self.sights.as_slice())?;
        Ok(Sights {
            sights,
            version: self.version,
        })
    }

    /// Whether a look-up of the domains that see `frame` would find nothing new: it was done, or the frame is none of RAM.
    pub(crate) fn has_looked(&self, frame: u32) -> bool {
        match self.sights.get(frame as usize) {
            Some(sight) => sight.version == self.version && self.version > 0,
            None => true,
        }
    }

    /// The domains that see `frame`, where they are known.
    pub fn get(&self, frame: u32) -> Option<Viewers>
        ensures { result ≡ entry (slice_get self.now frame) }
    {
        let sight = self.sights.get(frame as usize)?;
        if sight.version == self.version {
            sight.viewers
        } else {
            None
        }
    }

    /// Notes the domains that see `frame`, or, with no `viewers`, that they are too many.
    pub fn note(&mut self, frame: u32, viewers: Option<Viewers>)
        ensures { self.new ≡ slice_set self.old frame viewers }
    {
        if (frame as usize) < self.sights.len() {
            self.sights[frame as usize] = Sight {
                version: self.version,
                viewers,
            };
        }
    }

    /// Forgets what is known of all frames.
    pub fn forget(&mut self)
        ensures { IsBlank self.new }
    {
        match self.version.checked_add(1) {
            Some(version) => self.version = version,
            None => self.sights.clear(),
        }
    }
}

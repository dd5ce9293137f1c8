ghost use Rattle.std.specs.Prelude.{◌≡◌, ℕ};
ghost use Rattle.nova_model.specs.State.{KernelState};
ghost use Rattle.nova_turn.specs.StoresSeen.{AreSeersOf, IsSeer};

/// How many frames are remembered.
const PLACES: usize = 4;

/// The virtual CPU for which a store to a frame is counted: none, one alone, or it isn't known.
#[derive(Clone, Copy)]
pub enum Seer {
    Unknown,
    Nobody,
    Only(u32),
}

/// A frame, and the virtual CPU for which a store to it is counted.
#[derive(Clone, Copy)]
pub struct Seen {
    pub frame: u32,
    pub seer: Seer,
}

/// The virtual CPUs for which stores of one execution context to some frames are counted, while delegations and objects stay.
#[derive(Clone, Copy)]
pub struct Seers {
    places: [Seen; PLACES],
}

impl Seers {
    /// Seers of which nothing is known.
    pub fn none() -> Seers
        ensures { (k : KernelState) (ec : ℕ) → AreSeersOf k ec result }
    {
        Seers {
            places: [Seen {
                frame: 0,
                seer: Seer::Unknown,
            }; PLACES],
        }
    }

    /// The virtual CPU for which a store to `frame` is counted, as far as it is known.
    #[inline(always)]
    pub(crate) fn of(&self, frame: u32) -> Seer
        ensures { (k : KernelState) (ec : ℕ) → AreSeersOf k ec self.now → IsSeer k ec frame result }
    {
        let seen = &self.places[(frame % 4) as usize];
        if seen.frame == frame {
            seen.seer
        } else {
            Seer::Unknown
        }
    }

    /// Notes in `seer` for which virtual CPU a store to `frame` is counted.
    pub(crate) fn learn(&mut self, frame: u32, seer: Seer)
        ensures { (k : KernelState) (ec : ℕ) → AreSeersOf k ec self.old → IsSeer k ec frame seer → AreSeersOf k ec self.new }
    {
        self.places[(frame % 4) as usize] = Seen { frame, seer };
    }
}

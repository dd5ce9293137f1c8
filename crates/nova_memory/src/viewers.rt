ghost use Rattle.std.specs.Prelude.{◌≡◌, ◌==◌, ◌||◌, ℕ, false};
ghost use Rattle.std.specs.Bool.{OnTrue};
ghost use Rattle.nova_memory.specs.Sights.{domains_of, sees};

/// How many domains are kept of a frame at most.
pub const MOST: usize = 8;

/// A few protection domains, each once: those whose memory leads to a frame.
#[derive(Clone, Copy)]
pub struct Viewers {
    domains: [u32; MOST],
    count: usize,
}

impl Viewers {
    /// No domain.
    pub(crate) fn new() -> Viewers
        ensures { (pd : ℕ) → sees result pd ≡ false }
    {
        Viewers {
            domains: [0; MOST],
            count: 0,
        }
    }

    /// Whether the domain `pd` is among the viewers.
    pub fn contains(&self, pd: u32) -> bool
        ensures { result ≡ sees self.now pd }
    {
        self.domains.iter().take(self.count).any(|p| *p == pd)
    }

    /// The domains.
    pub fn domains(&self) -> &[u32]
        ensures { result.now ≡ domains_of self.now }
    {
        &self.domains[..self.count.min(MOST)]
    }

    /// Adds the domain `pd` to the viewers. It answers false, and nothing has changed, where all places are taken.
    pub(crate) fn add(&mut self, pd: u32) -> bool
        ensures { OnTrue result ((other : ℕ) → sees self.new other ≡ (sees self.old other || pd == other)) }
    {
        if self.contains(pd) {
            return true;
        }
        if self.count >= MOST {
            return false;
        }
        self.domains[self.count] = pd;
        self.count += 1;
        true
    }
}

ghost use Rattle.std.specs.Prelude.{◌≡◌, ◌<◌, ◌≤◌, ◌↔◌, ◌+◌, ◌*◌, replicate, slice_set, IsErr, IsTrue};
ghost use Rattle.nova_utcb.specs.Messages.{IsMessage, word, untyped, items, counts_of, has_counts, copied};

use crate::counts::BadCounts;
use std::marker::Model;

/// How many message words a thread has.
const SIZE: usize = 128;

/// How many of them are data words.
const DATA: u32 = 124;

/// The number of the first data word.
const FIRST: usize = 4;

/// The 128 message words of a thread. Word 0 has the counts of untyped words (bits 0 to 15) and of
/// items (bits 16 to 31), words 1 and 2 are the windows of translations and of delegations, word 3 is
/// free, and words 4 to 127 are data.
#[derive(Clone, Copy)]
pub struct Utcb {
    words: [u32; SIZE],
}

impl Model for Utcb {
    ghost use Rattle.std.specs.Prelude.{List, ℕ};

    ghost Value = { List ℕ };

    ghost view = { λ u. u.words };

    ghost inverse = { λ ws. record { words = ws } };
}

impl Utcb {
    /// Message words at birth: all are 0.
    pub fn new() -> Utcb
        ensures { result ≡ replicate 128 0 }
    {
        Utcb { words: [0; SIZE] }
    }

    /// Word `i`, which is below 128.
    pub fn word(&self, i: usize) -> u32
        requires { i < 128 }
        ensures word { result ≡ word self.now i }

        // There are 128 words at any time.
        ensures message { IsMessage self.now }
    {
        self.words[i]
    }

    /// Puts `value` into word `i`, which is below 128. All others stay.
    pub fn set(&mut self, i: usize, value: u32)
        requires { i < 128 }
        ensures { self.new ≡ slice_set self.old i value }
    {
        self.words[i] = value;
    }

    /// The counts of untyped words and of items. It is `BadCounts` where the untyped words and two
    /// words for each item are more than the 124 data words.
    pub fn counts(&self) -> Result<(u32, u32), BadCounts>
        ensures exact { result ≡ counts_of self.now }
        ensures bad { IsErr result ↔ (124 < untyped self.now + 2 * items self.now) }
    {
        let untyped = self.words[0] % (1 << 16);
        let items = self.words[0] >> 16;
        if untyped + 2 * items > DATA {
            return Err(BadCounts);
        }
        Ok((untyped, items))
    }

    /// Whether the data words hold what is counted.
    pub fn has_counts(&self) -> bool
        ensures { result ≡ has_counts self.now }
    {
        self.counts().is_ok()
    }

    /// Copies the message `from`: word 0 and the untyped words that it counts. All other words stay. The counts of `from` aren't `BadCounts`.
    #[tactic(auto, using(crate::proofs::Copies::copied_by_parts))]
    pub fn copy_words(&mut self, from: &Utcb)
        requires { IsTrue (has_counts from.now) }
        ensures { self.new ≡ copied from.now self.old }
    {
        let end = FIRST + (from.words[0] % (1 << 16)) as usize;
        self.words[0] = from.words[0];
        self.words[FIRST..end].copy_from_slice(&from.words[FIRST..end]);
    }
}

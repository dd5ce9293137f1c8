ghost use Rattle.std.specs.Prelude.{◌≡◌, ◌<◌, ◌≤◌};
ghost use Rattle.nova_utcb.specs.Messages.{counted_items, has_items, item_at, with_item, translation_window, delegation_window};

use crate::counts::BadCounts;
use crate::utcb::Utcb;

impl Utcb {
    /// How many items the message has, which is at most 62. It is 0 where the counts are `BadCounts`.
    pub fn items(&self) -> u32
        ensures counted { result ≡ counted_items self.now }
        ensures most { result ≤ 62 }
    {
        match self.counts() {
            Ok((_, items)) => items,
            Err(BadCounts) => 0,
        }
    }

    /// Whether word 0 counts any item.
    pub fn has_items(&self) -> bool
        ensures { result ≡ has_items self.now }
    {
        self.word(0) >> 16 > 0
    }

    /// The range word of item `i` and its second word. `i` is below 62.
    pub fn item(&self, i: u32) -> (u32, u32)
        requires { i < 62 }
        ensures { result ≡ item_at self.now i }
    {
        let i = i as usize;
        (self.word(126 - 2 * i), self.word(127 - 2 * i))
    }

    /// Puts `first` as the range word of item `i`, and `second` as its second word. `i` is below 62, and all other words stay.
    pub fn set_item(&mut self, i: u32, first: u32, second: u32)
        requires { i < 62 }
        ensures { self.new ≡ with_item self.old i first second }
    {
        let i = i as usize;
        self.set(126 - 2 * i, first);
        self.set(127 - 2 * i, second);
    }

    /// The range word of the window that translations go to.
    pub fn translation_window(&self) -> u32
        ensures { result ≡ translation_window self.now }
    {
        self.word(1)
    }

    /// The range word of the window that delegations go to.
    pub fn delegation_window(&self) -> u32
        ensures { result ≡ delegation_window self.now }
    {
        self.word(2)
    }
}

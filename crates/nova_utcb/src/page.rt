ghost use Rattle.std.specs.Prelude.{◌≡◌, ◌<◌, ◌≤◌, ◌+◌, ◌*◌, ◌%◌, ◌^◌};
ghost use Rattle.nova_utcb.specs.Messages.{loaded, stored, with_bytes};
ghost use Rattle.nova_utcb.specs.Pages.{IsWidth};

use crate::utcb::Utcb;

/// How many numbers `count` bytes can have. There are at most four.
fn numbers(count: u32) -> u64
    requires { count ≤ 4 }
    ensures { result ≡ 2 ^ (8 * count) }
{
    1 << (8 * count)
}

/// `word` in which `width` bytes from byte `at` on are the lowest ones of `value`. They lie within the word.
#[tactic(auto, using(crate::proofs::Pages::word_fits))]
fn with_bytes(word: u32, at: u32, width: u32, value: u32) -> u32
    requires width { IsWidth width }
    requires within { at + width ≤ 4 }
    ensures { result ≡ with_bytes word at width value }
{
    let word = u64::from(word);
    let (start, end) = (numbers(at), numbers(at + width));
    let bytes = u64::from(value) % numbers(width);
    (word % start + start * bytes + end * (word / end)) as u32
}

impl Utcb {
    /// The number in `width` bytes of the page that begins with the words, from `offset` on and the lowest byte
    /// first. The width is 1, 2 or 4, and the offset is below 512 and a multiple of it.
    pub fn load(&self, offset: u32, width: u32) -> u32
        requires width { IsWidth width }
        requires within { offset < 512 }
        requires aligned { offset % width ≡ 0 }
        ensures number { result ≡ loaded self.now offset width }
        ensures fits { result < 2 ^ (8 * width) }
    {
        let rest = self.word((offset / 4) as usize) >> (8 * (offset % 4));
        match width {
            1 => rest % (1 << 8),
            2 => rest % (1 << 16),
            _ => rest,
        }
    }

    /// Stores the lowest `width` bytes of `value` to the page, from `offset` on and the lowest byte first. The
    /// width is 1, 2 or 4, and the offset is below 512 and a multiple of it. All other bytes stay.
    pub fn store(&mut self, offset: u32, width: u32, value: u32)
        requires width { IsWidth width }
        requires within { offset < 512 }
        requires aligned { offset % width ≡ 0 }
        ensures { self.new ≡ stored self.old offset width value }
    {
        let i = (offset / 4) as usize;
        self.set(i, with_bytes(self.word(i), offset % 4, width, value));
    }
}

ghost use Rattle.std.specs.Prelude.{◌+◌, ◌≤◌};

use rv_core::Bus;

/// 512 bytes from address 0 on. The first 256 may be executed, all may be read, and all but the first
/// 128 may be written.
#[derive(Drop)]
pub struct FlatMemory {
    pub bytes: [u8; 512],
}

impl FlatMemory {
    /// Puts `word` into the four bytes from `at` on.
    pub fn place(&mut self, at: usize, word: u32)
        requires { at + 4 ≤ 512 }
    {
        let [a, b, c, d] = word.to_le_bytes();
        self.bytes[at] = a;
        self.bytes[at + 1] = b;
        self.bytes[at + 2] = c;
        self.bytes[at + 3] = d;
    }
}

impl Bus for FlatMemory {
    ghost use Rattle.std.specs.Prelude.{List, ℕ};
    ghost use Rattle.nova_tests_texts.specs.FlatMemory.{fetched as fetched_of, loaded as loaded_of, takes as takes_of, stored as stored_of};

    ghost State = { List ℕ };

    ghost state = { λ m. m.bytes };

    ghost fetched = { fetched_of };

    ghost loaded = { loaded_of };

    ghost takes = { takes_of };

    ghost stored = { stored_of };

    ghost room = { λ _. Unit {0} };

    fn fetch(&mut self, addr: u32) -> Option<u32> {
        if addr < 256 { self.load(addr, 4) } else { None }
    }

    fn load(&mut self, addr: u32, width: u32) -> Option<u32> {
        if addr >= 512 {
            return None;
        }
        let at = addr as usize;
        let low = u32::from(self.bytes[at]);
        if width == 1 {
            return Some(low);
        }
        let half = low + (u32::from(self.bytes[at + 1]) << 8);
        if width == 2 {
            return Some(half);
        }
        Some(half + (u32::from(self.bytes[at + 2]) << 16) + (u32::from(self.bytes[at + 3]) << 24))
    }

    fn store(&mut self, addr: u32, width: u32, value: u32) -> bool {
        if addr < 128 || addr >= 512 {
            return false;
        }
        let at = addr as usize;
        self.bytes[at] = (value % 0x100) as u8;
        if width >= 2 {
            self.bytes[at + 1] = (value / 0x100 % 0x100) as u8;
        }
        if width == 4 {
            self.bytes[at + 2] = (value / 0x1_0000 % 0x100) as u8;
            self.bytes[at + 3] = (value / 0x100_0000 % 0x100) as u8;
        }
        true
    }
}

ghost use Rattle.std.specs.Prelude.{◌≡◌, ◌≤◌, ◌<◌, ◌*◌, ◌+◌, ◌-◌, [], ◌∷◌, ◌++◌, length, max, slice_get, slice_set, true, Some, IsOk, OnOk, OnErr, option_map};
ghost use Rattle.nova_utcb.specs.Messages.{copied, has_counts};
ghost use Rattle.nova_model.specs.Boot.{laid};
ghost use Rattle.nova_model.specs.State.{entry, message_in};

use crate::reach::Reach;
use nova_frames::LogByte;
use nova_utcb::Utcb;
use std::alloc::AllocError;

impl Reach {
    /// Lays `bytes` into RAM one after another from `address` on. They lie in RAM.
    pub fn put(&mut self, address: u32, bytes: &[u8])
        requires { address + length bytes.now ≤ 4096 * length self.old.memory.ram }
        ensures { self.new ≡ record self.old { memory = laid self.old.memory address bytes.now } }
    {
        self.recalled.forget();
        self.frames.put(address, bytes);
    }

    /// The 4,096 bytes of the RAM frame `frame`.
    pub fn frame(&self, frame: u32) -> &[u8]
        requires { frame < length self.now.memory.ram }
        ensures bytes { slice_get self.now.memory.ram frame ≡ Some result.now }
        ensures size { length result.now ≡ 4096 }
    {
        self.frames.frame(frame)
    }

    /// Replaces the 4,096 bytes of the RAM frame `frame` by `bytes`.
    pub fn write_frame(&mut self, frame: u32, bytes: &[u8])
        requires there { frame < length self.old.memory.ram }
        requires size { length bytes.now ≡ 4096 }
        ensures { self.new ≡ record self.old { memory = record self.old.memory { ram = slice_set self.old.memory.ram frame bytes.now } } }
    {
        self.recalled.forget();
        self.frames.write_frame(frame, bytes);
    }

    /// How many frames of RAM there are. The first console is the frame of that number.
    pub fn ram_frames(&self) -> u32
        ensures { result ≡ length self.now.memory.ram }
    {
        self.frames.ram_frames()
    }

    /// How many consoles there are.
    pub fn consoles(&self) -> u32
        ensures { result ≡ self.now.consoles }
    {
        self.frames.consoles()
    }

    /// What was stored to the consoles, in order.
    pub fn log(&self) -> &[LogByte]
        ensures { result.now ≡ self.now.memory.log }
    {
        self.frames.log()
    }

    /// Makes room for the message words of one more object. Where there is room, this succeeds.
    pub fn reserve_message(&mut self) -> Result<(), AllocError>
        ensures room { OnOk result (self.new ≡ record self.old { messages = record self.old.messages { spare = max self.old.messages.spare 1 } }) }
        ensures enough { 0 < self.old.messages.spare → IsOk result }
        ensures refused { OnErr result (self.new ≡ self.old) }
    {
        self.messages.reserve(1)
    }

    /// Adds `words`, the message words of the next object, in the room that was made: those of a thread, or nothing.
    pub fn add_message(&mut self, words: Option<Utcb>)
        requires { 0 < self.old.messages.spare }
        ensures { self.new ≡ record self.old { messages = record { items = self.old.messages.items ++ words ∷ []; spare = self.old.messages.spare - 1 } } }
    {
        self.messages.add(words);
    }

    /// The message words of the execution context `ec`; they are all 0 where it has none.
    pub fn message(&self, ec: u32) -> Utcb
        ensures { result ≡ message_in (entry (slice_get self.now.messages.items ec)) }
    {
        self.messages.get(ec)
    }

    /// Sets the message words of the execution context `ec` to `words`.
    pub fn set_message(&mut self, ec: u32, words: &Utcb)
        requires { ec < length self.old.messages.items }
        ensures { self.new ≡ record self.old { messages = record self.old.messages { items = slice_set self.old.messages.items ec (Some words.now) } } }
    {
        self.messages.set(ec, words);
    }

    /// Copies the message of the execution context `from` to that of `to`: word 0, and the untyped words that it counts. All other words stay. The
    /// counts aren't `BadCounts`.
    #[inline(always)]
    pub fn pass_message(&mut self, from: u32, to: u32)
        requires counts { has_counts (message_in (entry (slice_get self.old.messages.items from))) ≡ true }
        requires there { to < length self.old.messages.items }
        ensures { self.new ≡ record self.old { messages = record self.old.messages { items = slice_set self.old.messages.items to (Some (copied (message_in (entry (slice_get self.old.messages.items from))) (message_in (entry (slice_get self.old.messages.items to))))) } } }
    {
        self.messages.pass(from, to);
    }

    /// Makes room for `bytes` more bytes in the console log. Room that was made before stays.
    pub fn reserve_log(&mut self, bytes: usize) -> Result<(), AllocError>
        ensures ok { OnOk result (self.new ≡ record self.old { room = max self.old.room bytes }) }
        ensures err { OnErr result (self.new ≡ self.old) }
    {
        self.frames.reserve_log(bytes)
    }

    /// The message words of the execution context `ec`, where it has some.
    pub fn words(&self, ec: u32) -> Option<&Utcb>
        ensures { option_map (λ words. words.now) result ≡ entry (slice_get self.now.messages.items ec) }
    {
        self.messages.words(ec)
    }
}

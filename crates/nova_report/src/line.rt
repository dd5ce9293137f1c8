ghost use Rattle.std.specs.Prelude.{◌≡◌, ◌+◌, ◌-◌, ◌≤◌, ◌++◌, length, drop, decimal, OnOk};
ghost use Rattle.nova_report.specs.Words.{line_feed};

use itoa::write_digits;
use std::alloc::AllocError;
use std::marker::Model;

/// How many bytes a line has at most.
const LONGEST: usize = 128;

/// How many bytes most lines have at most. So many are copied at once, which needs no loop.
const BLOCK: usize = 32;

/// A line of text that is written from its end: what is put into it stands before what was put before. Behind its end lies a block, so that
/// one can be copied wherever it begins.
#[derive(Drop)]
pub(crate) struct Line {
    bytes: [u8; LONGEST + BLOCK],
    start: usize,
}

impl Model for Line {
    ghost use Rattle.std.specs.Prelude.{◌≤◌, ◌-◌, take, drop};
    ghost use Rattle.nova_report.specs.Lines.{LineView};

    ghost Value = { LineView };

    ghost view = { λ l. record { text = take (128 - l.start) (drop l.start l.bytes); room = l.start } };

    ghost invariant = { λ l. l.start ≤ 128 };
}

impl Line {
    /// A line with its line feed alone.
    pub(crate) fn new() -> Line
        ensures text { result.text ≡ line_feed }
        ensures room { result.room ≡ 127 }
    {
        let mut bytes = [0; LONGEST + BLOCK];
        bytes[LONGEST - 1] = b'\n';
        Line {
            bytes,
            start: LONGEST - 1,
        }
    }

    /// For how many bytes there is room before it.
    pub(crate) fn room(&self) -> usize
        ensures room { result ≡ self.now.room }
        ensures most { result ≤ 128 }
    {
        self.start
    }

    /// Takes away bytes in front until the room is `room` again.
    #[tactic(auto, using(crate::proofs::Again::further))]
    pub(crate) fn back_to(&mut self, room: usize)
        requires { (self.old.room ≤ room) × (room ≤ 128) }
        ensures text { self.new.text ≡ drop (room - self.old.room) self.old.text }
        ensures room { self.new.room ≡ room }
    {
        self.start = room;
    }

    /// The line as far as it is written.
    pub(crate) fn text(&self) -> &[u8]
        ensures { result.now ≡ self.now.text }
    {
        &self.bytes[self.start..LONGEST]
    }

    /// Adds the line to `out`.
    #[tactic(auto, using(crate::proofs::Again::cut))]
    pub(crate) fn add_to(&self, out: &mut Vec<u8>) -> Result<(), AllocError>
        ensures { OnOk result (out.new.items ≡ out.old.items ++ self.now.text) }
    {
        let length = LONGEST - self.start;
        if length > BLOCK {
            return out.extend_from_slice(self.text());
        }
        let end = out.len() + length;
        out.extend_from_slice(&self.bytes[self.start..self.start + BLOCK])?;
        out.truncate(end);
        Ok(())
    }

    /// Puts `text` before the rest of the line.
    #[inline(always)]
    #[tactic(auto, using(crate::proofs::Again::before))]
    pub(crate) fn put(&mut self, text: &[u8])
        requires { length text.now ≤ self.old.room }
        ensures text { self.new.text ≡ text.now ++ self.old.text }
        ensures room { self.new.room + length text.now ≡ self.old.room }
    {
        let start = self.start - text.len();
        self.bytes[start..self.start].copy_from_slice(text);
        self.start = start;
    }

    /// Puts `number` before the rest of the line.
    #[tactic(auto, using(crate::proofs::Numerals::few_digits, crate::proofs::Again::before))]
    pub(crate) fn put_number(&mut self, number: u64)
        requires { 20 ≤ self.old.room }
        ensures text { self.new.text ≡ decimal number ++ self.old.text }
        ensures room { self.new.room + length (decimal number) ≡ self.old.room }
        ensures most { self.old.room ≤ self.new.room + 20 }
    {
        self.start = write_digits(number, &mut self.bytes, self.start);
    }
}

ghost use Rattle.std.specs.Prelude.{◌≡◌, ◌-◌, ◌<◌, ◌≤◌, ◌%◌, ◌*◌, ◌^◌, [], ◌∷◌, ◌++◌, length, max, slice_set, slice_get, is_some, IsSome, true, false, Some, IfOk, IsOk, OnOk, OnErr, option_map};
ghost use Rattle.nova_utcb.specs.Messages.{copied, has_counts, loaded, stored};
ghost use Rattle.nova_utcb.specs.Pages.{IsWidth};
ghost use Rattle.nova_model.specs.State.{entry, message_in, no_words};

use nova_utcb::Utcb;
use std::alloc::{AllocError, Global};
use std::marker::Model;

/// The message words of threads, by the number of the object: an entry for each object, which holds words
/// where the object is a thread.
#[derive(Drop)]
pub struct Messages {
    items: Vec<Option<Utcb>>,
    spare: usize,
}

impl Model for Messages {
    ghost use Rattle.std.specs.Prelude.{◌+◌, ◌≤◌, vec_len, vec_capacity};
    ghost use Rattle.nova_messages.specs.Messages.{MessageTable};

    ghost Value = { MessageTable };

    ghost view = { λ t. record { items = t.items.items; spare = t.spare } };

    ghost invariant = { λ t. vec_len t.items + t.spare ≤ vec_capacity t.items };
}

/// What a load finds at `offset` in words at birth.
fn load_at_birth(offset: u32, width: u32) -> u32
    requires width { IsWidth width }
    requires within { offset < 512 }
    requires aligned { offset % width ≡ 0 }
    ensures number { result ≡ loaded no_words offset width }
    ensures fits { result < 2 ^ (8 * width) }
{
    Utcb::new().load(offset, width)
}

/// Words at birth after a store of `value` at `offset`.
fn stored_at_birth(offset: u32, width: u32, value: u32) -> Utcb
    requires width { IsWidth width }
    requires within { offset < 512 }
    requires aligned { offset % width ≡ 0 }
    ensures { result ≡ stored no_words offset width value }
{
    let mut words = Utcb::new();
    words.store(offset, width, value);
    words
}

/// Copies the message `from` over the words `to`: word 0, and the untyped words that it counts. An entry without words has those at birth.
#[inline(always)]
fn copy_message(from: &Option<Utcb>, to: &mut Option<Utcb>)
    requires { has_counts (message_in from.now) ≡ true }
    ensures { to.new ≡ Some (copied (message_in from.now) (message_in to.old)) }
{
    if let Some(from) = from {
        if let Some(to) = to {
            to.copy_words(from);
            return;
        }
    }
    copy_at_birth(from, to);
}

/// Copies the message `from` to `to`, where one of both has no words.
#[inline(never)]
fn copy_at_birth(from: &Option<Utcb>, to: &mut Option<Utcb>)
    requires { has_counts (message_in from.now) ≡ true }
    ensures { to.new ≡ Some (copied (message_in from.now) (message_in to.old)) }
{
    let mut words = to.unwrap_or(Utcb::new());
    words.copy_words(&from.unwrap_or(Utcb::new()));
    *to = Some(words);
}

/// Copies the message of `from` to `to`, a higher number.
fn copy_up(items: &mut [Option<Utcb>], from: usize, to: usize)
    requires counts { has_counts (message_in (entry (slice_get items.old from))) ≡ true }
    requires order { from < to }
    requires there { to < length items.old }
    ensures { items.new ≡ slice_set items.old to (Some (copied (message_in (entry (slice_get items.old from))) (message_in (entry (slice_get items.old to))))) }
{
    let (front, back) = items.split_at_mut(to);
    copy_message(&front[from], &mut back[0]);
}

/// Copies the message of `from` to `to`, a lower number.
fn copy_down(items: &mut [Option<Utcb>], from: usize, to: usize)
    requires counts { has_counts (message_in (entry (slice_get items.old from))) ≡ true }
    requires order { to < from }
    requires there { from < length items.old }
    ensures { items.new ≡ slice_set items.old to (Some (copied (message_in (entry (slice_get items.old from))) (message_in (entry (slice_get items.old to))))) }
{
    let (front, back) = items.split_at_mut(from);
    copy_message(&back[0], &mut front[to]);
}

impl Messages {
    /// No entries, and room for none.
    pub fn new(alloc: Global) -> Messages
        ensures { result ≡ record { items = []; spare = 0 } }
    {
        Messages {
            items: Vec::new(alloc),
            spare: 0,
        }
    }

    /// Makes room for `n` more entries, counted from those that are there. Room that was made before
    /// stays, and where it is enough, this succeeds.
    pub fn reserve(&mut self, n: usize) -> Result<(), AllocError>
        ensures ok { OnOk result (self.new ≡ record self.old { spare = max self.old.spare n }) }
        ensures enough { n ≤ self.old.spare → IsOk result }
        ensures err { OnErr result (self.new ≡ self.old) }
    {
        self.items.reserve(n)?;
        self.spare = self.spare.max(n);
        Ok(())
    }

    /// Copies the entries into memory of their own, with no spare room.
    pub fn copy(&self) -> Result<Messages, AllocError>
        ensures { IfOk result (λ copy. copy ≡ record { items = self.now.items; spare = 0 }) }
    {
        let items = Vec::from_slice(*self.items.allocator(), self.items.as_slice())?;
        Ok(Messages { items, spare: 0 })
    }

    /// Adds the entry of the next number in reserved room: `words`, those of a thread, or nothing.
    pub fn add(&mut self, words: Option<Utcb>)
        requires { 0 < self.old.spare }
        ensures { self.new ≡ record { items = self.old.items ++ words ∷ []; spare = self.old.spare - 1 } }
    {
        self.items.push_reserved(words);
        self.spare -= 1;
    }

    /// The words of the object `ec`; they are all 0 where it has none.
    pub fn get(&self, ec: u32) -> Utcb
        ensures { result ≡ message_in (entry (slice_get self.now.items ec)) }
    {
        if let Some(Some(words)) = self.items.get(ec as usize) {
            return *words;
        }
        Utcb::new()
    }

    /// The words of the object `ec`, where it has some.
    pub fn words(&self, ec: u32) -> Option<&Utcb>
        ensures { option_map (λ words. words.now) result ≡ entry (slice_get self.now.items ec) }
    {
        self.items.get(ec as usize)?.as_ref()
    }

    /// Sets the words of `ec`, which has an entry, to `words`.
    pub fn set(&mut self, ec: u32, words: &Utcb)
        requires { ec < length self.old.items }
        ensures { self.new ≡ record self.old { items = slice_set self.old.items ec (Some words.now) } }
    {
        self.items[ec as usize] = Some(*words);
    }

    /// Copies the message of `from` to that of `to`, which has an entry: word 0, and the untyped words that it counts. All other words stay. The
    /// counts aren't `BadCounts`.
    #[inline(always)]
    pub fn pass(&mut self, from: u32, to: u32)
        requires counts { has_counts (message_in (entry (slice_get self.old.items from))) ≡ true }
        requires there { to < length self.old.items }
        ensures { self.new ≡ record self.old { items = slice_set self.old.items to (Some (copied (message_in (entry (slice_get self.old.items from))) (message_in (entry (slice_get self.old.items to))))) } }
    {
        if from < to {
            copy_up(&mut self.items, from as usize, to as usize);
        } else if to < from && (from as usize) < self.items.len() {
            copy_down(&mut self.items, from as usize, to as usize);
        } else {
            self.pass_by_value(from, to);
        }
    }

    /// Copies the message of `from` to `to`, where both are the same number or the first has no entry.
    #[inline(never)]
    fn pass_by_value(&mut self, from: u32, to: u32)
        requires counts { has_counts (message_in (entry (slice_get self.old.items from))) ≡ true }
        requires there { to < length self.old.items }
        ensures { self.new ≡ record self.old { items = slice_set self.old.items to (Some (copied (message_in (entry (slice_get self.old.items from))) (message_in (entry (slice_get self.old.items to))))) } }
    {
        let mut words = self.get(to);
        words.copy_words(&self.get(from));
        self.set(to, &words);
    }

    /// The number in the `width` bytes from `offset` on of the words of `ec`, which are all 0 where it has
    /// none. The width is 1, 2 or 4, and the offset is below 512 and a multiple of it.
    pub fn load(&self, ec: u32, offset: u32, width: u32) -> u32
        requires width { IsWidth width }
        requires within { offset < 512 }
        requires aligned { offset % width ≡ 0 }
        ensures number { result ≡ loaded (message_in (entry (slice_get self.now.items ec))) offset width }
        ensures fits { result < 2 ^ (8 * width) }
    {
        match self.items.get(ec as usize) {
            Some(Some(words)) => words.load(offset, width),
            _ => load_at_birth(offset, width),
        }
    }

    /// Stores the lowest `width` bytes of `value` to the words of `ec`, which has an entry, from `offset` on.
    /// The width is 1, 2 or 4, and the offset is below 512 and a multiple of it.
    pub fn store(&mut self, ec: u32, offset: u32, width: u32, value: u32)
        requires width { IsWidth width }
        requires within { offset < 512 }
        requires aligned { offset % width ≡ 0 }
        ensures { self.new ≡ record self.old { items = slice_set self.old.items ec (Some (stored (message_in (entry (slice_get self.old.items ec))) offset width value)) } }
    {
        if self.has(ec) {
            self.store_in(ec, offset, width, value);
        } else {
            self.store_first(ec, offset, width, value);
        }
    }

    /// Whether `ec` has words.
    fn has(&self, ec: u32) -> bool
        ensures { result ≡ is_some (entry (slice_get self.now.items ec)) }
    {
        matches!(self.items.get(ec as usize), Some(Some(_)))
    }

    /// Stores `value` to the words of `ec`, which has some.
    fn store_in(&mut self, ec: u32, offset: u32, width: u32, value: u32)
        requires there { IsSome (entry (slice_get self.old.items ec)) }
        requires width { IsWidth width }
        requires within { offset < 512 }
        requires aligned { offset % width ≡ 0 }
        ensures { self.new ≡ record self.old { items = slice_set self.old.items ec (Some (stored (message_in (entry (slice_get self.old.items ec))) offset width value)) } }
    {
        let Some(words) = &mut self.items[ec as usize] else {
            unreachable!();
        };
        words.store(offset, width, value);
    }

    /// Stores `value` to words at birth for `ec`, which has none but an entry.
    fn store_first(&mut self, ec: u32, offset: u32, width: u32, value: u32)
        requires none { is_some (entry (slice_get self.old.items ec)) ≡ false }
        requires width { IsWidth width }
        requires within { offset < 512 }
        requires aligned { offset % width ≡ 0 }
        ensures { self.new ≡ record self.old { items = slice_set self.old.items ec (Some (stored (message_in (entry (slice_get self.old.items ec))) offset width value)) } }
    {
        if (ec as usize) < self.items.len() {
            self.items[ec as usize] = Some(stored_at_birth(offset, width, value));
        }
    }
}

ghost use Rattle.std.specs.Prelude.{◌≡◌, ◌+◌, ◌<◌, ◌≤◌, ◌^◌, ◌++◌, [], length, max, replicate, IsOk, OnOk, OnErr, None, true, false};
ghost use Rattle.std.specs.List.{last_or};
ghost use Rattle.nova_order.specs.Blocks.{IsOrder, turns, total, is_of, grown, added, pushed};

use crate::block::Block;
use std::alloc::{AllocError, Global};
use std::marker::Model;

/// An order of turns in blocks, with room that is reserved for more.
///
/// Each block has at least one turn, neighbouring blocks name different processors, and there are fewer than 2^64 turns.
#[derive(Drop)]
pub struct Order {
    blocks: Vec<Block>,
    spare: usize,
    sum: u64,
}

impl Model for Order {
    ghost use Rattle.std.specs.Prelude.{◌≡◌, ◌+◌, ◌≤◌, vec_len, vec_capacity};
    ghost use Rattle.nova_order.specs.Blocks.{BlockList, IsOrder, total};

    ghost Value = { BlockList };

    ghost view = { λ o. record { blocks = o.blocks.items; spare = o.spare } };

    ghost invariant = { λ o. IsOrder o.blocks.items × (o.sum ≡ total o.blocks.items) × (vec_len o.blocks + o.spare ≤ vec_capacity o.blocks) };
}

impl Order {
    /// The order of no turns, with room for no block.
    pub fn new(alloc: Global) -> Order
        ensures { result ≡ record { blocks = []; spare = 0 } }
    {
        Order {
            blocks: Vec::new(alloc),
            spare: 0,
            sum: 0,
        }
    }

    /// Makes room for `blocks` more blocks, counted from those that are there. Room that was made before stays, and where it is enough, this
    /// succeeds.
    pub fn reserve(&mut self, blocks: usize) -> Result<(), AllocError>
        ensures ok { OnOk result (self.new ≡ record self.old { spare = max self.old.spare blocks }) }
        ensures enough { blocks ≤ self.old.spare → IsOk result }
        ensures err { OnErr result (self.new ≡ self.old) }
    {
        self.blocks.reserve(blocks)?;
        self.spare = self.spare.max(blocks);
        Ok(())
    }

    /// The blocks in order.
    pub fn blocks(&self) -> &[Block]
        ensures blocks { result.now ≡ self.now.blocks }
        ensures order { IsOrder result.now }
    {
        self.blocks.as_slice()
    }

    /// How many turns there are.
    pub fn sum(&self) -> u64
        ensures sum { result ≡ total self.now.blocks }
        ensures turns { result ≡ length (turns self.now.blocks) }
    {
        self.sum
    }

    /// Where its memory comes from.
    pub(crate) fn alloc(&self) -> Global {
        *self.blocks.allocator()
    }

    /// The last block, if there is one.
    fn last(&self) -> Option<Block>
        ensures { result ≡ last_or None self.now.blocks }
    {
        self.blocks.last().copied()
    }

    /// Whether the last block is of the processor `cpu`.
    pub(crate) fn ends_with(&self, cpu: u32) -> bool
        ensures { result ≡ is_of (last_or None self.now.blocks) cpu }
    {
        match self.last() {
            Some(block) => block.cpu == cpu,
            None => false,
        }
    }

    /// Adds `count` turns to the last block.
    fn grow(&mut self, count: u64)
        requires fits { total self.old.blocks + count < 2 ^ 64 }
        ensures grown { self.new ≡ grown (last_or None self.old.blocks) count self.old }
        ensures order { IsOrder self.new.blocks }
    {
        if let Some(last) = self.blocks.last_mut() {
            last.count += count;
            self.sum += count;
        }
    }

    /// Adds a block of `count` turns of `cpu` in reserved room.
    fn add(&mut self, cpu: u32, count: u64)
        requires room { 0 < self.old.spare }
        requires counted { 0 < count }
        requires fits { total self.old.blocks + count < 2 ^ 64 }
        requires other { is_of (last_or None self.old.blocks) cpu ≡ false }
        ensures added { self.new ≡ added cpu count self.old }
        ensures order { IsOrder self.new.blocks }
    {
        self.blocks.push_reserved(Block { cpu, count });
        self.spare -= 1;
        self.sum += count;
    }

    /// Adds `count` turns of the processor `cpu` after all others, to the last block where that is of the same processor, and else as a block in
    /// reserved room. There is room for a block, and with these turns there are fewer than 2^64.
    pub fn push(&mut self, cpu: u32, count: u64)
        requires room { 0 < self.old.spare }
        requires counted { 0 < count }
        requires fits { total self.old.blocks + count < 2 ^ 64 }
        ensures pushed { self.new ≡ pushed cpu count self.old }
        ensures turns { turns self.new.blocks ≡ turns self.old.blocks ++ replicate count cpu }
        ensures sum { total self.new.blocks ≡ total self.old.blocks + count }
        ensures spare { self.old.spare ≤ self.new.spare + 1 }
        ensures order { IsOrder self.new.blocks }
    {
        if self.ends_with(cpu) {
            self.grow(count);
        } else {
            self.add(cpu, count);
        }
    }

    /// Makes room for a block of `count` turns of `cpu` and adds it. Few turns begin a block, so that this stays out of the code of each.
    #[inline(never)]
    fn start(&mut self, cpu: u32, count: u64) -> Result<(), AllocError>
        requires counted { 0 < count }
        requires fits { total self.old.blocks + count < 2 ^ 64 }
        requires other { is_of (last_or None self.old.blocks) cpu ≡ false }
        ensures turns { OnOk result (turns self.new.blocks ≡ turns self.old.blocks ++ replicate count cpu) }
        ensures sum { OnOk result (total self.new.blocks ≡ total self.old.blocks + count) }
        ensures spare { OnOk result (self.old.spare ≤ self.new.spare + 1) }
        ensures order { OnOk result (IsOrder self.new.blocks) }
        ensures room { 0 < self.old.spare → IsOk result }
        ensures err { OnErr result (self.new ≡ self.old) }
    {
        self.reserve(1)?;
        self.add(cpu, count);
        Ok(())
    }

    /// Adds `count` turns of the processor `cpu` after all others, to the last block where that is of the same processor, and else as a block for
    /// which it makes room. With these turns there are fewer than 2^64. Memory can run out only where it adds a block.
    #[inline(always)]
    pub fn extend(&mut self, cpu: u32, count: u64) -> Result<(), AllocError>
        requires counted { 0 < count }
        requires fits { total self.old.blocks + count < 2 ^ 64 }
        ensures turns { OnOk result (turns self.new.blocks ≡ turns self.old.blocks ++ replicate count cpu) }
        ensures sum { OnOk result (total self.new.blocks ≡ total self.old.blocks + count) }
        ensures spare { OnOk result (self.old.spare ≤ self.new.spare + 1) }
        ensures order { OnOk result (IsOrder self.new.blocks) }
        ensures same { is_of (last_or None self.old.blocks) cpu ≡ true → IsOk result }
        ensures room { 0 < self.old.spare → IsOk result }
        ensures err { OnErr result (self.new ≡ self.old) }
    {
        if self.ends_with(cpu) {
            self.grow(count);
            Ok(())
        } else {
            self.start(cpu, count)
        }
    }
}

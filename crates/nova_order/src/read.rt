ghost use Rattle.std.specs.Prelude.{◌≡◌, ◌+◌, ◌<◌, ◌^◌, IfErr, IfOk, IsOk, IsTrue, None, false};
ghost use Rattle.std.specs.List.{last_or};
ghost use Rattle.nova_order.specs.Blocks.{IsOrder, is_of, is_within, total};
ghost use Rattle.nova_order.specs.Text.{block_of};
ghost use Rattle.nova_order.specs.Read.{judged, with_line, order_of, next_line, BeginsWell, Gives, IsRead};
ghost use Rattle.nova_order.specs.declared.fault.OrderFault.TheVariants.{Memory};

use crate::block::Block;
use crate::fault::OrderFault;
use crate::number::parse_line;
use crate::order::Order;
use crate::split::split_once;
use std::alloc::Global;

impl Order {
    /// The number of the line after those of the blocks.
    fn next_line(&self) -> u64
        ensures { result ≡ next_line self.now.blocks }
    {
        self.blocks().len() as u64 + 1
    }

    /// The block of `line`, after those of the blocks, or the line's first fault.
    fn judge(&self, line: &[u8], cpus: u32, most: u64) -> Result<Block, OrderFault>
        ensures judged { result ≡ judged cpus most self.now.blocks (block_of line.now) }
        ensures other { IfOk result (λ b. is_of (last_or None self.now.blocks) b.cpu ≡ false) }
        ensures counted { IfOk result (λ b. 0 < b.count) }
        ensures fits { IfOk result (λ b. total self.now.blocks + b.count < 2 ^ 64) }
    {
        let number = self.next_line();
        let Some((cpu, count)) = parse_line(line) else {
            return Err(OrderFault::BadLine(number));
        };
        if cpu >= u64::from(cpus) {
            return Err(OrderFault::BadCpu(number));
        }
        let cpu = cpu as u32;
        if count == 0 {
            return Err(OrderFault::ZeroCount(number));
        }
        if self.ends_with(cpu) {
            return Err(OrderFault::NotMerged(number));
        }
        match self.sum().checked_add(count) {
            Some(sum) if sum <= most => Ok(Block { cpu, count }),
            _ => Err(OrderFault::TooMany(number)),
        }
    }

    /// Adds the block of `line` after those of the blocks.
    fn add_line(&mut self, line: &[u8], cpus: u32, most: u64) -> Result<(), OrderFault>
        ensures exact { Gives (λ done. self.new.blocks) (with_line cpus most self.old.blocks line.now) result }
        ensures memory { IfErr result (λ fault. fault ≡ Memory → IsOk (judged cpus most self.old.blocks (block_of line.now))) }
    {
        let block = self.judge(line, cpus, most)?;
        self.reserve(1)?;
        self.push(block.cpu, block.count);
        Ok(())
    }

    /// Reads `bytes` as the text of an order of processors below `cpus` and of at most `most` turns.
    ///
    /// A fault other than `Memory` comes exactly where the text is none, and names the first line at fault with its first fault.
    /// `Memory` comes where memory is refused, and only of a text that begins with the line of a block.
    #[tactic(auto, unfolding(crate::specs::Read::order_of))]
    pub fn read(alloc: Global, bytes: &[u8], cpus: u32, most: u64) -> Result<Order, OrderFault>
        ensures exact { IsRead (order_of bytes.now cpus most) result }
        ensures memory { IfErr result (λ fault. fault ≡ Memory → BeginsWell bytes.now cpus most) }
        ensures order { IfOk result (λ list. IsOrder list.blocks) }
        ensures within { IfOk result (λ list. IsTrue (is_within cpus most list.blocks)) }
    {
        let mut order = Order::new(alloc);
        let mut rest = bytes;
        while let Some((line, after)) = split_once(rest, b'\n') {
            order.add_line(line, cpus, most)?;
            rest = after;
        }
        if !rest.is_empty() {
            return Err(OrderFault::BadLine(order.next_line()));
        }
        Ok(order)
    }
}

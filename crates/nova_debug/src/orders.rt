ghost use Rattle.std.specs.Prelude.{◌≡◌, ℕ, ◌+◌, ◌^◌, ◌≤◌, ◌<◌, length, nat_lt, option_map, IfOk, IfSome, IsTrue, OnOk, Err, Some};
ghost use Rattle.std.specs.List.{list_all};
ghost use Rattle.nova_model.specs.Runs.{run, trace, IsFreeOfIdle};
ghost use Rattle.nova_order.specs.Blocks.{IsOrder, is_within, total, turns};
ghost use Rattle.nova_order.specs.Text.{block_of_numbers};
ghost use Rattle.nova_report.specs.Report.{report};
ghost use Rattle.nova_finished.specs.Finished.{IsIdleLine};
ghost use Rattle.nova_finished.specs.declared.fault.RunFault.TheVariants.{OrderIdle};
ghost use Rattle.nova_text.specs.Token.{texts_of, tokens_left};
ghost use Rattle.nova_debug.specs.Commands.{number_of};
ghost use Rattle.nova_debug.specs.Orders.{IsAdded, IsReplyTo, turns_asked};

use nova_kernel::Kernel;
use nova_order::{Block, Order};
use nova_report::report;
use nova_run::{Finished, RunFault, run_order};
use nova_text::{Line, parse_number};
use std::alloc::{AllocError, Global};

/// The most turns of a run, as of `nova`.
pub const MOST_TURNS: u32 = 10_000_000;

/// What is replied to an order.
#[derive(Drop)]
pub enum OrderReply {
    /// It is no order that may be run.
    No,
    /// The report of its run.
    Report(Vec<u8>),
    /// A turn of a block is idle, by the block's number from 1.
    Idle(u64),
    /// Memory was refused.
    Memory,
}

/// Drops a value out of line, which keeps the caller's proof small.
fn let_go<T: Drop>(_value: T) {}

/// The block of the words `cpu` and `count`; none where one of them is no number.
fn block_of(cpu: &[u8], count: &[u8]) -> Option<Block>
    ensures { result ≡ block_of_numbers (number_of cpu.now) (number_of count.now) }
{
    let cpu = parse_number(cpu).ok()?;
    let count = parse_number(count).ok()?;
    Some(Block {
        cpu,
        count: u64::from(count),
    })
}

/// Adds `block` to `order`, of at most `most` turns; and whether that may be: it has turns, and with them there are no more than `most`.
fn add(order: &mut Order, block: Block, most: u64) -> Result<bool, AllocError>
    requires few { total order.old.blocks ≤ most }
    ensures { IfOk result (λ is_added. IsAdded most order.old.blocks block is_added order.new.blocks) }
{
    let Block { cpu, count } = block;
    if count == 0 || count > most - order.sum() {
        return Ok(false);
    }
    order.extend(cpu, count)?;
    Ok(true)
}

/// The order of the pairs of a processor and a count that are left of `line`; none where they are no pairs, where a count is 0, or where they are
/// more than `most` turns. Neighbours of the same processor are one block.
fn order_of(alloc: Global, line: &mut Line, most: u64) -> Result<Option<Order>, AllocError>
    ensures turns { IfOk result (λ order. option_map (λ o. turns o.blocks) order ≡ turns_asked most (texts_of (tokens_left line.old))) }
    ensures few { IfOk result (λ order. IfSome order (λ o. total o.blocks ≤ most)) }
{
    let mut order = Order::new(alloc);
    while let Some(cpu) = line.next_token() {
        let Some(count) = line.next_token() else {
            return Ok(None);
        };
        let Some(block) = block_of(cpu.text, count.text) else {
            return Ok(None);
        };
        if !add(&mut order, block, most)? {
            return Ok(None);
        }
    }
    Ok(Some(order))
}

/// Whether all `blocks` are of processors that are there.
fn are_there(blocks: &[Block], cpus: u32) -> bool
    ensures { result ≡ list_all (λ block. nat_lt block.cpu cpus) blocks.now }
{
    blocks.iter().all(|block| block.cpu < cpus)
}

/// Whether `order` is of processors that are there, and of no more turns than there may be.
fn is_within(order: &Order, cpus: u32, most: u64) -> bool
    ensures is { result ≡ is_within cpus most order.now.blocks }
    ensures order { IsOrder order.now.blocks }
{
    are_there(order.blocks(), cpus) && order.sum() <= most
}

/// The report of `finished`, a run that is over.
fn told(alloc: Global, finished: &Finished) -> Result<Vec<u8>, AllocError>
    ensures { IfOk result (λ text. text.items ≡ report finished.now.kernel.state finished.now.trace.items) }
{
    report(alloc, &finished.kernel, &finished.trace)
}

/// A copy of `opening`, in the same state, that may take `turns` turns.
fn prepared(opening: &Kernel, turns: u64) -> Result<Kernel, AllocError>
    ensures state { IfOk result (λ k. k.state ≡ opening.now.state) }
    ensures room { IfOk result (λ k. turns ≤ k.room) }
{
    let mut kernel = opening.copy()?;
    match kernel.reserve_log(turns as usize) {
        Ok(()) => Ok(kernel),
        Err(error) => {
            let_go(kernel);
            Err(error)
        }
    }
}

/// The report of a run from the state of `opening` along `order`, of at most `most` turns.
fn run_along(alloc: Global, opening: &Kernel, order: &Order, most: u64) -> Result<Vec<u8>, RunFault>
    requires within { IsTrue (is_within opening.now.state.cpus most order.now.blocks) }
    requires turns { opening.now.state.turns + most ≤ 2 ^ 31 }
    ensures text { IfOk result (λ text. text.items
        ≡ report (run opening.now.state (turns order.now.blocks)) (trace opening.now.state (turns order.now.blocks))) }
    ensures no_idle { OnOk result (IsFreeOfIdle opening.now.state (turns order.now.blocks)) }
    ensures idle { (line : ℕ) → result ≡ Err (OrderIdle line) → IsIdleLine opening.now.state order.now.blocks line }
{
    let kernel = prepared(opening, most)?;
    let finished = run_order(alloc, kernel, order, most)?;
    let text = told(alloc, &finished);
    let_go(finished);
    Ok(text?)
}

/// Replies to `order`, of few turns, by its run from the state of `opening`.
fn reply_to(alloc: Global, opening: &Kernel, order: &Order) -> OrderReply
    requires few { total order.now.blocks ≤ MOST_TURNS }
    ensures { IsReplyTo opening.now.state (Some (turns order.now.blocks)) result }
{
    let most = order.sum();
    if opening.turns() > 0 || !is_within(order, opening.cpus(), most) {
        return OrderReply::No;
    }
    match run_along(alloc, opening, order, most) {
        Ok(text) => OrderReply::Report(text),
        Err(RunFault::OrderIdle(block)) => OrderReply::Idle(block),
        Err(RunFault::Memory) => OrderReply::Memory,
    }
}

/// Replies to `pairs`, what is left of a line of pairs of a processor and a count, by the run of their turns from the state of `opening`.
pub fn reply_to_pairs(alloc: Global, opening: &Kernel, pairs: &mut Line) -> OrderReply
    ensures { IsReplyTo opening.now.state (turns_asked 10000000 (texts_of (tokens_left pairs.old))) result }
{
    match order_of(alloc, pairs, u64::from(MOST_TURNS)) {
        Ok(Some(order)) => reply_to(alloc, opening, &order),
        Ok(None) => OrderReply::No,
        Err(AllocError) => OrderReply::Memory,
    }
}

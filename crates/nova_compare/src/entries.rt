ghost use Rattle.std.specs.Prelude.{◌≡◌, ◌<◌, ℕ, length, slice_get};
ghost use Rattle.std.specs.Bool.{OnTrue};
ghost use Rattle.nova_model.specs.State.{context, context_at, entry, transfer_at};
ghost use Rattle.nova_model.specs.Semaphores.{semaphore};
ghost use Rattle.law_sameness.specs.States.{AreZero, IsSameAt};

use crate::contexts::same_context;
use nova_kernel::{Kernel, Transfer, Utcb};
use std::alloc::Global;

/// Whether `a` and `b` have the same execution context of number `n`, or none.
#[tactic(auto, using(crate::proofs::Readings::zeros_at))]
fn same_context_at(a: &Kernel, b: &Kernel, n: u32) -> bool
    requires first { AreZero a.now.state }
    requires second { AreZero b.now.state }
    ensures { OnTrue result (context_at a.now.state n ≡ context_at b.now.state n) }
{
    match a.ec(n) {
        None => b.ec(n).is_none(),
        Some(context) => match b.ec(n) {
            None => false,
            Some(other) => same_context(context, other),
        },
    }
}

/// That there are 128 message words.
fn count_words(words: &Utcb)
    ensures { length words.now ≡ 128 }
{
    words.word(0);
}

/// Whether the message words of two threads are equal.
fn same_words(a: &Utcb, b: &Utcb) -> bool
    ensures { OnTrue result (a.now ≡ b.now) }
{
    count_words(a);
    count_words(b);
    for i in 0..128 {
        if a.word(i) != b.word(i) {
            return false;
        }
    }
    true
}

/// Whether `a` and `b` have the same message words at number `n`, or none.
fn same_words_at(a: &Kernel, b: &Kernel, n: u32) -> bool
    ensures { OnTrue result (entry (slice_get a.now.state.messages n) ≡ entry (slice_get b.now.state.messages n)) }
{
    match a.words(n) {
        None => b.words(n).is_none(),
        Some(words) => match b.words(n) {
            None => false,
            Some(others) => same_words(words, others),
        },
    }
}

/// Whether the transfers `a` and `b` are equal, or both are none.
fn same_transfer(a: Option<Transfer>, b: Option<Transfer>) -> bool
    ensures { OnTrue result (a ≡ b) }
{
    match a {
        None => b.is_none(),
        Some(transfer) => match b {
            None => false,
            Some(other) => {
                transfer.item == other.item
                    && transfer.cursor == other.cursor
                    && transfer.children == other.children
            }
        },
    }
}

/// Whether the numbers `a` and `b` are equal, or both are none.
fn same_number(a: Option<u32>, b: Option<u32>) -> bool
    ensures { OnTrue result (a ≡ b) }
{
    match a {
        None => b.is_none(),
        Some(number) => match b {
            None => false,
            Some(other) => number == other,
        },
    }
}

/// Whether the lists of numbers `a` and `b` are equal.
#[tactic(auto, using(crate::proofs::Places::same_when))]
fn same_numbers(a: &[u32], b: &[u32]) -> bool
    ensures { OnTrue result (a.now ≡ b.now) }
{
    a == b
}

/// Whether the same wait at the semaphores of number `n` of `a` and `b`, in the same order. They are not seen to where memory is refused.
fn same_queue(alloc: Global, a: &Kernel, b: &Kernel, n: u32) -> bool
    ensures { OnTrue result ((semaphore a.now.state.semaphores n).waiting ≡ (semaphore b.now.state.semaphores n).waiting) }
{
    match a.queue(alloc, n) {
        Err(_) => false,
        Ok(queue) => match b.queue(alloc, n) {
            Err(_) => false,
            Ok(other) => same_numbers(&queue, &other),
        },
    }
}

/// Whether `a` and `b` have the same semaphore of number `n`, or none.
#[tactic(auto, using(crate::proofs::Readings::no_semaphores, crate::proofs::Readings::same_semaphores))]
fn same_semaphore_at(alloc: Global, a: &Kernel, b: &Kernel, n: u32) -> bool
    ensures { OnTrue result (entry (slice_get a.now.state.semaphores n) ≡ entry (slice_get b.now.state.semaphores n)) }
{
    match a.semaphore(n) {
        None => b.semaphore(n).is_none(),
        Some((count, _)) => match b.semaphore(n) {
            None => false,
            Some((other, _)) => count == other && same_queue(alloc, a, b, n),
        },
    }
}

/// Whether `a` and `b` have the same at number `n`, but for counts.
fn same_at(alloc: Global, a: &Kernel, b: &Kernel, n: u32) -> bool
    requires first { AreZero a.now.state }
    requires second { AreZero b.now.state }
    ensures { OnTrue result (IsSameAt a.now.state b.now.state n) }
{
    same_context_at(a, b, n)
        && same_number(a.left(n), b.left(n))
        && same_number(a.identifier(n), b.identifier(n))
        && same_transfer(a.transfer(n), b.transfer(n))
        && same_words_at(a, b, n)
        && same_semaphore_at(alloc, a, b, n)
}

/// Whether `a` and `b` have the same at each number below `count`, but for counts.
pub(crate) fn same_entries(alloc: Global, a: &Kernel, b: &Kernel, count: u32) -> bool
    requires first { AreZero a.now.state }
    requires second { AreZero b.now.state }
    ensures { OnTrue result ((n : ℕ) → n < count → IsSameAt a.now.state b.now.state n) }
{
    for n in 0..count {
        if !same_at(alloc, a, b, n) {
            return false;
        }
    }
    true
}

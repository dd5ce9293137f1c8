ghost use Rattle.std.specs.Prelude.{◌≡◌, ◌<◌, ◌^◌, ℕ};
ghost use Rattle.nova_delegate.specs.Parts.{IsUnderWay};
ghost use Rattle.nova_range.specs.RangeWords.{meaning_of};
ghost use Rattle.nova_range.specs.Rights.{IsRights};
ghost use Rattle.nova_model.specs.Deeds.{gave, transfer_after};
ghost use Rattle.nova_model.specs.Transfers.{read_as};
ghost use Rattle.nova_model.specs.Deliveries.{whole_of, told_by, flag, words_for, sequel_of, finished, range_given};
ghost use Rattle.nova_model.specs.State.{KernelState};
ghost use Rattle.nova_deeds.specs.Acts.{IsGivenBy, IsToBeDone};

use nova_ec::Mark;
use nova_model::{Deed, Delivery, ItemEnd, ItemWords, Job, Sequel, Transfer};
use nova_range::{Range, read_word, word_of};

/// An execution context gives no items yet.
pub const NO_TRANSFER: Transfer = Transfer {
    item: 0,
    cursor: 0,
    children: 0,
};

/// The flag of an item that delegates.
pub const DELEGATES: u32 = 1;

/// The flag of the item `delivery`: 1 delegates, 0 translates.
pub fn flag(delivery: Delivery) -> u32
    ensures { result ≡ flag delivery }
{
    delivery.second_word % 2
}

/// The words `first` and `second` that tell what came of an item, for `told`, if any is.
fn words_for(told: Option<u32>, first: u32, second: u32) -> Option<ItemWords>
    ensures { result ≡ words_for told first second }
{
    let ec = told?;
    Some(ItemWords { ec, first, second })
}

/// The next item of `delivery` after `item`, or what follows the last.
fn sequel_of(delivery: Delivery, item: u32) -> Sequel
    requires { item < 62 }
    ensures { result ≡ sequel_of delivery item }
{
    if item + 1 < delivery.items {
        Sequel::Item
    } else {
        delivery.last
    }
}

/// The deed by which item `item` ends as `end`, with `answer`.
pub fn finished(delivery: Delivery, item: u32, end: ItemEnd, answer: u32) -> Deed
    requires { item < 62 }
    ensures deed { result ≡ finished delivery item end answer }
    ensures fits { (k : KernelState) (ec : ℕ) → IsGivenBy k ec item delivery → IsToBeDone k ec result }
{
    Deed::Finishes {
        item,
        end,
        words: words_for(delivery.told, answer, flag(delivery)),
        after: sequel_of(delivery, item),
    }
}

/// The context that is told of the items of a reply: `caller`, unless it came by an exit.
pub fn told_by(caller: u32, mark: Mark) -> Option<u32>
    ensures { result ≡ told_by caller mark }
{
    match mark {
        Mark::Call => Some(caller),
        Mark::Exit => None,
    }
}

/// The window of the whole space that the range word `word` is of; 0 for a word that doesn't read or is null.
pub fn whole_of(word: u32) -> u32
    ensures { result ≡ whole_of (read_as (meaning_of word)) }
{
    match read_word(word) {
        Ok(Some((range, rights))) => {
            let space = Range {
                kind: range.kind,
                base: 0,
                order: 20,
            };
            word_of(Some((space, rights)))
        }
        _ => 0,
    }
}

/// The answer of the delegation `job`, of which `children` children were made: the word of where it went.
pub fn range_given(job: Job, children: u32) -> u32
    requires job { IsUnderWay job }
    requires rights { IsRights job.rights }
    ensures { result ≡ range_given job children }
{
    if children == 0 {
        return 0;
    }
    let dest = Range {
        kind: job.kind,
        base: job.dest,
        order: job.order,
    };
    word_of(Some((dest, job.rights)))
}

/// The progress `transfer` after a part that was given: it is at `cursor`, and counts one child more.
pub fn gave(transfer: Transfer, cursor: u32) -> Transfer
    requires { transfer.children < 2 ^ 31 }
    ensures { result ≡ gave transfer cursor }
{
    Transfer {
        cursor,
        children: transfer.children + 1,
        ..transfer
    }
}

/// The progress with items after `item`, which `after` follows: at the next, or at no item.
pub fn transfer_after(item: u32, after: Sequel) -> Transfer
    requires { item < 62 }
    ensures { result ≡ transfer_after item after }
{
    match after {
        Sequel::Item => Transfer {
            item: item + 1,
            ..NO_TRANSFER
        },
        _ => NO_TRANSFER,
    }
}

ghost use Rattle.std.specs.Prelude.{◌≡◌, ℕ, ◌+◌, ◌<◌, ◌≤◌, length, vec_len, vec_capacity, IfSome, OnOk, OnErr};
ghost use Rattle.nova_guest.specs.Keyed.{placed, placed_all};
ghost use Rattle.nova_guest.specs.Places.{inserted};

use std::alloc::AllocError;

/// Something that has a number by which it is ordered.
pub(crate) trait Keyed {
    ghost key_of: { Self → ℕ };

    fn key(&self) -> u32
        ensures { result ≡ key_of self.now };
}

/// Where `item` goes: before the first of a greater number, or nowhere where its own comes before that.
fn place_of<T: Keyed>(items: &[T], item: &T) -> Option<usize>
    ensures placed { inserted item.now items.now result ≡ placed T.key_of item.now items.now }
    ensures within { IfSome result (λ i. i ≤ length items.now) }
{
    for i in 0..items.len() {
        let other = items[i].key();
        if item.key() < other {
            return Some(i);
        }
        if item.key() == other {
            return None;
        }
    }
    Some(items.len())
}

/// Puts `item` at its place. There is room for it.
pub(crate) fn place<T: Keyed + Drop>(items: &mut Vec<T>, item: T)
    requires { vec_len items.old < vec_capacity items.old }
    ensures placed { items.new.items ≡ placed T.key_of item items.old.items }
    ensures count { vec_len items.new ≤ vec_len items.old + 1 }
    ensures room { vec_capacity items.old ≤ vec_capacity items.new }
{
    if let Some(i) = place_of(items.as_slice(), &item) {
        let done = items.insert(i, item);
        prove!(done.is_ok());
    }
}

/// Puts the items `new` at their places.
#[tactic(auto, using(crate::proofs::Placing::placed_last))]
pub(crate) fn place_all<T: Keyed + Drop>(
    items: &mut Vec<T>,
    mut new: Vec<T>,
) -> Result<(), AllocError>
    ensures placed { OnOk result (items.new.items ≡ placed_all T.key_of new.items items.old.items) }
    ensures refused { OnErr result (items.new.items ≡ items.old.items) }
{
    items.reserve(new.len())?;
    while let Some(item) = new.pop() {
        place(items, item);
    }
    Ok(())
}

ghost use Rattle.std.specs.Prelude.{◌≡◌, ◌<◌, ℕ, true, length, IfOk};
ghost use Rattle.nova_model.specs.Semaphores.{semaphore, has};
ghost use Rattle.nova_sem.specs.Links.{linked};

use crate::sems::{Sems, counter_at};
use std::alloc::{AllocError, Global};

/// The `waiting` execution contexts from `first` on, each followed by the context that `links` has for it.
fn in_order(alloc: Global, links: &[u32], first: u32, waiting: u32) -> Result<Vec<u32>, AllocError>
    requires within { (x : ℕ) → has (linked links.now first waiting) x ≡ true → x < length links.now }
    ensures { IfOk result (λ queue. queue.items ≡ linked links.now first waiting) }
{
    let mut queue = Vec::new(alloc);
    let mut at = first;
    for _told in 0..waiting {
        queue.push(at)?;
        at = links[at as usize];
    }
    Ok(queue)
}

impl Sems {
    /// The execution contexts that wait at the semaphore `sm`, in the order in which they came; none where no semaphore has the number.
    pub fn queue(&self, alloc: Global, sm: u32) -> Result<Vec<u32>, AllocError>
        ensures { IfOk result (λ queue. queue.items ≡ (semaphore self.now.all sm).waiting) }
    {
        match counter_at(&self.counters, sm) {
            Some(counter) => in_order(alloc, &self.links, counter.first, counter.waiting),
            None => Ok(Vec::new(alloc)),
        }
    }
}

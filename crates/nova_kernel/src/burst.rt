ghost use Rattle.std.specs.Prelude.{◌≡◌, ◌+◌, ◌<◌, ◌≤◌, ◌^◌, ℕ, replicate, slice_get, true, IfSome};
ghost use Rattle.nova_model.specs.Inputs.{is_covered_for};
ghost use Rattle.nova_model.specs.Runs.{run};
ghost use Rattle.nova_model.specs.State.{entry};
ghost use Rattle.law_leases.specs.Commits.{IsReached, MayAdvance};
ghost use Rattle.law_leases.specs.Paging.{AreFrames, pages_written, seen_from, stored_to, stores_seen};
ghost use Rattle.nova_turn.specs.Parts.{state_of};
ghost use Rattle.nova_turn.specs.Revoking.{AreRunning};
ghost use Rattle.nova_turn.specs.Counted.{IsCounted};
ghost use Rattle.nova_choice.specs.Schedules.{AreQueued};
ghost use Rattle.nova_kernel.specs.Begun.{IsBegun};

use crate::riding::charge_times;
use law_leases::{Page, Steps};
use nova_turn::{Parts, Reach};

/// Writes the bytes of the copies `pages` to their frames, where a store went to the copy.
fn write_pages(reach: &mut Reach, pages: &[Page])
    requires { AreFrames reach.old.memory.ram pages.now }
    ensures { reach.new ≡ record reach.old { memory = record reach.old.memory { ram = pages_written (stored_to pages.now) reach.old.memory.ram } } }
{
    for page in pages {
        if page.stores > 0 {
            reach.write_frame(page.frame, page.bytes.as_slice());
        }
    }
}

/// How many of the stores that pages count went to frames to which the memory of the protection domain `pd` leads. All together are below 2^64.
fn stores_seen(parts: &Parts, pd: u32, pages: &[Page]) -> u64
    requires { stores_seen (λ f. true) pages.now < 2 ^ 64 }
    ensures { result ≡ stores_seen (is_covered_for (state_of parts.now) pd) pages.now }
{
    let mut count = 0;
    for page in pages {
        if parts.reach.leads_to(pd, page.frame) {
            count += page.stores;
        }
    }
    count
}

/// Counts the stores of the execution context `ec` for each other virtual CPU whose memory leads to where they
/// went. All together, and with the count of each, are below 2^64.
fn count_stores(parts: &mut Parts, ec: u32, pages: &[Page])
    requires stores { stores_seen (λ f. true) pages.now < 2 ^ 64 }
    requires counts { (g : ℕ) → IfSome (entry (slice_get (state_of parts.old).stirs.guests g)) (λ n. n + stores_seen (λ f. true) pages.now < 2 ^ 64) }
    ensures counts { parts.new.guests.counts ≡ seen_from (state_of parts.old) ec pages.now 0 parts.old.guests.counts }
    ensures rest { parts.new ≡ record parts.old { guests = parts.new.guests } }
{
    for i in 0..parts.guests.numbers().len() {
        let guest = parts.guests.numbers()[i];
        if guest != ec {
            let count = stores_seen(parts, parts.pd(guest), pages);
            parts.guests.rise_by(guest, count);
        }
    }
}

/// Takes the turns of `steps` on the processor `cpu` at once, as many as its virtual CPU took instructions.
/// They are charged, and the virtual CPU has the registers, its frames the bytes, and others the stir counts
/// that these leave.
pub fn advance(parts: &mut Parts, cpu: u32, steps: &Steps)
    requires counted { IsCounted (state_of parts.old) }
    requires reached { IsReached (state_of parts.old) }
    requires queued { AreQueued (state_of parts.old) parts.old.queues.all }
    requires running { AreRunning (state_of parts.old) parts.old.revokes }
    requires begun { IsBegun (state_of parts.old) }
    requires may { MayAdvance (state_of parts.old) cpu steps.now }
    requires turns { parts.old.turns + steps.now.count ≤ 2 ^ 31 }
    ensures state { state_of parts.new ≡ run (state_of parts.old) (replicate steps.now.count cpu) }
    ensures counted { IsCounted (state_of parts.new) }
    ensures reached { IsReached (state_of parts.new) }
    ensures queued { AreQueued (state_of parts.new) parts.new.queues.all }
    ensures running { AreRunning (state_of parts.new) parts.new.revokes }
    ensures begun { IsBegun (state_of parts.new) }
    ensures log { parts.new.reach.room ≡ parts.old.reach.room }
{
    let Some(chosen) = parts.choice(cpu, &[]) else {
        unreachable!()
    };
    charge_times(parts, cpu, chosen.sc, steps.count);
    parts.contexts.set_regs(chosen.actor, &steps.regs);
    write_pages(&mut parts.reach, &steps.pages);
    count_stores(parts, chosen.actor, &steps.pages);
}

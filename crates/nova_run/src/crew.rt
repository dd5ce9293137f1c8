ghost use Rattle.std.specs.Prelude.{◌≤◌};

use std::sync::atomic::{AtomicU64, Ordering};
use std::{hint, thread};

/// How often a worker that has begun looks whether all others have, before it goes on without them.
const LOOKS: u64 = 16384;

/// An odd number whose multiples are spread over 64 bits: 2^64 by the golden ratio.
const SPREAD: u64 = 0x9e37_79b9_7f4a_7c15;

/// How often a worker has to find the noise stirred by another, and how often it stirs it at most until then: some milliseconds long.
const MEETINGS: u64 = 256;

const STIRS: u64 = 262_144;

/// How long pauses are at most, in looks at nothing.
static PACES: [u64; 6] = [16, 64, 256, 1024, 4096, 8192];

/// How many turns a worker takes in one use of the kernel at most, so that others aren't kept waiting for long.
const MOST_AT_ONCE: u64 = 4096;

/// How many turns of all there are for each that a use has at most; and how many sizes a use may have, each half of the size before.
const TURNS_FOR_EACH: u64 = 64;

const SIZES: u64 = 13;

/// How many instructions the share of a worker is at least: the last bursts of all would get ever shorter.
const LEAST_SHARE: u64 = 16_384;

/// The workers of one round: how many there are, how many have begun, how many have nothing to do, or no more, how many have taken the turns of the
/// round, and how many turns the bursts that run may come to.
#[derive(Drop)]
pub(crate) struct Crew {
    workers: u64,
    begun: AtomicU64,
    resting: AtomicU64,
    ended: AtomicU64,
    promised: AtomicU64,

    // What they draw pauses from. Of two stirs at once one is lost, so that it differs from run to run.
    noise: AtomicU64,
}

/// The noise that comes after `noise`: each number comes after one other.
fn stirred(noise: u64) -> u64 {
    let spread = noise.wrapping_add(1).wrapping_mul(SPREAD);
    spread ^ (spread >> 32)
}

impl Crew {
    /// A crew of `workers` workers, of which none has begun.
    pub(crate) fn new(workers: u64) -> Crew {
        Crew {
            workers,
            begun: AtomicU64::new(0),
            resting: AtomicU64::new(0),
            ended: AtomicU64::new(0),
            promised: AtomicU64::new(0),
            noise: AtomicU64::new(0),
        }
    }

    /// How many workers there are.
    pub(crate) fn workers(&self) -> u64 {
        self.workers
    }

    /// Whether there is one worker.
    pub(crate) fn is_lone(&self) -> bool {
        self.workers < 2
    }

    /// How many instructions a burst has, at most `most`, where there may be `left` turns more: its worker's share of those that aren't promised to
    /// bursts that run, or few, so that the last bursts of all workers can be committed. They are promised to it. More than there was room for would
    /// be run in vain.
    pub(crate) fn promise(&self, left: u64, most: u64) -> u64
        ensures left { result ≤ left }
        ensures most { result ≤ most }
    {
        let free = left.saturating_sub(self.promised.load(Ordering::SeqCst));
        let share = free / self.workers.max(1);
        let promised = share.max(LEAST_SHARE).min(left).min(most);
        self.promised.fetch_add(promised, Ordering::SeqCst);
        promised
    }

    /// Ends a burst to which `promised` turns were promised.
    pub(crate) fn release(&self, promised: u64) {
        self.promised.fetch_sub(promised, Ordering::SeqCst);
    }

    /// A worker begins, with all others: it looks for them for a while, and goes on without those that don't come.
    pub(crate) fn meet(&self) {
        self.begun.fetch_add(1, Ordering::SeqCst);
        for _look in 0..LOOKS {
            if self.begun.load(Ordering::SeqCst) >= self.workers {
                return;
            }
            self.draw();
            thread::yield_now();
        }
    }

    /// Spins on the shared counter until it has seen enough concurrent writes for its value to be unpredictable. New threads may begin on one core,
    /// where each goes on for long before another does, and the same order comes again and again: workers that have met have a core each.
    pub(crate) fn mingle(&self) {
        if self.is_lone() {
            return;
        }
        let mut met = 0;
        let mut mine = 0;
        for _stir in 0..STIRS {
            if met >= MEETINGS {
                return;
            }
            let found = self.noise.load(Ordering::SeqCst);
            met += u64::from(found != mine);
            mine = stirred(found);
            self.noise.store(mine, Ordering::SeqCst);
        }
    }

    /// An unpredictable number: the noise, stirred.
    fn draw(&self) -> u64 {
        let drawn = stirred(self.noise.load(Ordering::SeqCst));
        self.noise.store(drawn, Ordering::SeqCst);
        drawn.wrapping_mul(SPREAD)
    }

    /// How long the pauses of a worker are at most in its next step. It differs by much from step to step, and from run to run.
    pub(crate) fn pace(&self) -> u64 {
        PACES[(self.draw() >> 32) as usize % PACES.len()]
    }

    /// How many turns a worker takes in its next use of the kernel at most, where it has seen `seen` turns: few in the beginning, so that short runs
    /// come in many orders, and later now and then, so that at any place another worker may go on. The number is unpredictable. Now and then the
    /// worker also yields.
    pub(crate) fn portion(&self, seen: u64) -> u64 {
        if self.is_lone() {
            return MOST_AT_ONCE;
        }
        let most = (seen / TURNS_FOR_EACH).min(MOST_AT_ONCE);
        let drawn = self.draw();
        if drawn >> 61 == 0 {
            thread::yield_now();
        }
        (most >> ((drawn >> 32) % SIZES)).max(1)
    }

    /// A worker has taken the turns of the round, so that it is over for all.
    pub(crate) fn end(&self) {
        self.ended.fetch_add(1, Ordering::SeqCst);
    }

    /// Whether a worker has.
    pub(crate) fn is_over(&self) -> bool {
        self.ended.load(Ordering::SeqCst) > 0
    }

    /// A worker has nothing to do, or ends.
    pub(crate) fn rest(&self) {
        self.resting.fetch_add(1, Ordering::SeqCst);
    }

    /// A worker that had nothing to do goes on.
    pub(crate) fn resume(&self) {
        self.resting.fetch_sub(1, Ordering::SeqCst);
    }

    /// Whether none has anything to do.
    pub(crate) fn rests(&self) -> bool {
        self.resting.load(Ordering::SeqCst) >= self.workers
    }

    /// Pauses a worker that isn't alone for a random number of looks below `longest`, and returns that number. Now and then the worker also yields,
    /// so that another can go on where they share a core.
    pub(crate) fn pause(&self, longest: u64) -> u64 {
        if self.is_lone() {
            return 0;
        }
        let drawn = self.draw();
        let length = (drawn >> 32) % longest.max(1);
        for _look in 0..length {
            hint::spin_loop();
        }
        if drawn >> 61 == 0 {
            thread::yield_now();
        }
        length
    }
}

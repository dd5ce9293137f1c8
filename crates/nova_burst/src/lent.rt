ghost use Rattle.std.specs.Prelude.{◌≡◌, ◌≤◌, ◌<◌, ◌+◌, ◌^◌, ℕ, None, Some, length, min};
ghost use Rattle.std.specs.List.{All};
ghost use Rattle.nova_model.specs.State.{KernelState};
ghost use Rattle.law_leases.specs.Leases.{lease_step, lease_steps};
ghost use Rattle.nova_burst.specs.Copies.{known_in};
ghost use Rattle.nova_burst.specs.Lending.{AreCounted, IsSameLease, MustStop, StemsFrom, left_in, lease_state_of};

use crate::copies::{Copies, Known};
use crate::run::{Burst, Ground};
use law_leases::{Page, Steps};
use rv_core::Regs;
use std::marker::Model;
use std::mem;

/// A virtual CPU that runs outside the kernel: its registers, and copies of some of the frames that its
/// pages lead to.
#[derive(Drop)]
pub struct Lease {
    cpu: u32,
    guest: u32,
    kept: (u64, u64),
    left: u32,
    steps: Steps,
    known: Vec<Known>,
}

impl Model for Lease {
    ghost use Rattle.std.specs.Prelude.{◌≤◌};
    ghost use Rattle.nova_burst.specs.Lending.{AreCounted, LeaseView};

    ghost Value = { LeaseView };

    ghost view = { λ l. record {
      run = record { cpu = l.cpu; guest = l.guest; kept = l.kept; left = l.left; steps = l.steps };
      known = l.known.items;
    } };

    ghost invariant = { λ l. (l.steps.count ≤ l.left) × AreCounted l.steps.count l.steps.pages.items };
}

/// Executes instructions on copies, at most `most`, and answers their number. It executes fewer only where
/// the next one would raise or touches what isn't copied.
fn run_on(steps: &mut Steps, known: &mut Vec<Known>, most: u64) -> u64
    requires counted { AreCounted steps.old.count steps.old.pages.items }
    requires most { steps.old.count + most < 2 ^ 32 }
    ensures most { result ≤ most }
    ensures count { steps.new.count ≡ steps.old.count + result }
    ensures ran { lease_steps (known_in known.old.items) result (lease_state_of steps.old) ≡ Some (lease_state_of steps.new) }
    ensures fewer { result < most → lease_step (known_in known.new.items) (lease_state_of steps.new) ≡ None }
    ensures known { known.new.items ≡ known.old.items }
    ensures counted { AreCounted steps.new.count steps.new.pages.items }
{
    let alloc = *known.allocator();
    let pages = mem::replace(&mut steps.pages, Vec::new(alloc));
    let copies = Copies::new(mem::replace(known, Vec::new(alloc)), pages);
    let mut burst = Burst {
        regs: steps.regs,
        copies: Ground::new(copies),
    };
    let ran = burst.run(most);
    steps.count += ran;
    steps.regs = burst.regs;
    (*known, steps.pages) = burst.copies.into_parts();
    ran
}

impl Lease {
    /// A lease of the virtual CPU `guest` on the processor `cpu`, of which nothing was run yet.
    pub fn new(
        cpu: u32,
        guest: u32,
        kept: (u64, u64),
        left: u32,
        regs: Regs,
        copies: Copies,
    ) -> Lease
        requires { All (λ p. p.stores ≡ 0) copies.pages }
        ensures cpu { result.run.cpu ≡ cpu }
        ensures guest { result.run.guest ≡ guest }
        ensures kept { result.run.kept ≡ kept }
        ensures left { result.run.left ≡ left }
        ensures count { result.run.steps.count ≡ 0 }
        ensures regs { result.run.steps.regs ≡ regs }
        ensures pages { result.run.steps.pages.items ≡ copies.pages }
        ensures known { result.known ≡ copies.known }
    {
        let (known, pages) = copies.into_parts();
        let steps = Steps {
            count: 0,
            regs,
            pages,
        };
        Lease {
            cpu,
            guest,
            kept,
            left,
            steps,
            known,
        }
    }

    /// The processor of the virtual CPU.
    pub fn cpu(&self) -> u32
        ensures { result ≡ self.now.run.cpu }
    {
        self.cpu
    }

    /// The virtual CPU.
    pub fn guest(&self) -> u32
        ensures { result ≡ self.now.run.guest }
    {
        self.guest
    }

    /// How many instructions were executed.
    pub fn count(&self) -> u64
        ensures { result ≡ self.now.run.steps.count }
    {
        self.steps.count
    }

    /// The stir counts of the virtual CPU and of its processor, as the lease found them.
    pub fn kept(&self) -> (u64, u64)
        ensures { result ≡ self.now.run.kept }
    {
        self.kept
    }

    /// What was executed: how many instructions, the registers after them, and the copies.
    pub fn steps(&self) -> &Steps
        ensures { result.now ≡ self.now.run.steps }
    {
        &self.steps
    }

    /// Executes at most `most` instructions on the copies, and no more than what is left of the quantum, and
    /// answers their number. It executes fewer only where the next one would raise, store to a console or touch
    /// a page that isn't copied. It takes no memory.
    pub fn run(&mut self, most: u64) -> u64
        ensures most { result ≤ most }
        ensures left { self.new.run.steps.count ≤ self.new.run.left }
        ensures count { self.new.run.steps.count ≡ self.old.run.steps.count + result }
        ensures same { IsSameLease self.old self.new }
        ensures stems { (k : KernelState) → StemsFrom self.old k → StemsFrom self.new k }
        ensures fewer { result < min most (left_in self.old) → (k : KernelState) → StemsFrom self.old k → MustStop self.new k }
    {
        let left = u64::from(self.left) - self.steps.count;
        run_on(&mut self.steps, &mut self.known, most.min(left))
    }
}

ghost use Rattle.std.specs.Prelude.{◌≡◌, ◌+◌, ◌-◌, ◌==◌, ℕ, IfOk, OnOk, map, replicate};
ghost use Rattle.std.specs.Bool.{OnTrue};
ghost use Rattle.law_sameness.specs.Counts.{counts_after, counts_of, first_stamp, paid, paid_with, renewed, ticked, with_child, with_object};
ghost use Rattle.law_sameness.specs.States.{AreInStep, IsInStep};
ghost use Rattle.nova_compare.specs.Vertices.{IsBooted};

use crate::counts::same_count;
use crate::order::are_in_step;
use nova_kernel::{Event, EventKind, Kernel, Object};
use std::alloc::{AllocError, Global};
use std::marker::Model;

/// What a kernel counts that none of its calls reads: the clock of each processor, the stamps of
/// scheduling contexts by number, the stamp that is given next, and the id of the next derivation.
#[derive(Drop)]
pub(crate) struct Tally {
    clocks: Vec<u64>,
    stamps: Vec<Option<u64>>,
    next_stamp: u64,
    next_id: u64,
}

impl Model for Tally {
    ghost use Rattle.law_sameness.specs.Counts.{Counts};

    ghost Value = { Counts };

    ghost view = { λ t. record { clocks = t.clocks.items; stamps = t.stamps.items; next_stamp = t.next_stamp; next_id = t.next_id } };
}

/// `n` and one more. It is refused as memory is where it would be 2^64.
fn one_more(n: u64) -> Result<u64, AllocError>
    ensures { IfOk result (λ m. m ≡ n + 1) }
{
    n.checked_add(1).ok_or(AllocError)
}

/// Whether the turn was the last that is left of a quantum of which `left` turns were left.
fn is_last(left: u32) -> bool
    ensures { result ≡ (left - 1 == 0) }
{
    left <= 1
}

impl Tally {
    /// Copies the counts into memory of their own.
    pub(crate) fn copy(&self, alloc: Global) -> Result<Tally, AllocError>
        ensures { IfOk result (λ t. t ≡ self.now) }
    {
        let clocks = Vec::from_slice(alloc, &self.clocks)?;
        let stamps = Vec::from_slice(alloc, &self.stamps)?;
        Ok(Tally {
            clocks,
            stamps,
            next_stamp: self.next_stamp,
            next_id: self.next_id,
        })
    }

    /// Notes `object`, which a turn made, where it made one.
    fn note_object(&mut self, object: Option<Object>) -> Result<(), AllocError>
        ensures { OnOk result (self.new ≡ with_object self.old object) }
    {
        match object {
            None => Ok(()),
            Some(Object::Sc { .. }) => {
                self.stamps.push(Some(self.next_stamp))?;
                self.next_stamp = one_more(self.next_stamp)?;
                self.next_id = one_more(self.next_id)?;
                Ok(())
            }
            Some(_) => {
                self.stamps.push(None)?;
                self.next_id = one_more(self.next_id)?;
                Ok(())
            }
        }
    }

    /// Notes a child that was given, where the event of a turn is of such a `kind`.
    fn note_child(&mut self, kind: EventKind) -> Result<(), AllocError>
        ensures { OnOk result (self.new ≡ with_child self.old kind) }
    {
        match kind {
            EventKind::Made => {
                self.next_id = one_more(self.next_id)?;
                Ok(())
            }
            _ => Ok(()),
        }
    }

    /// Gives the scheduling context `sc` the next stamp, where its quantum begins anew.
    #[tactic(auto, using(crate::proofs::Places::set_past))]
    fn renew(&mut self, sc: u32, is_last: bool) -> Result<(), AllocError>
        ensures { OnOk result (self.new ≡ renewed self.old sc is_last) }
    {
        if !is_last {
            return Ok(());
        }
        let next_stamp = one_more(self.next_stamp)?;
        if (sc as usize) < self.stamps.len() {
            self.stamps[sc as usize] = Some(self.next_stamp);
        }
        self.next_stamp = next_stamp;
        Ok(())
    }

    /// Notes that the scheduling context `sc` pays for a turn, of whose quantum `left` turns are left.
    fn note_paid(&mut self, sc: u32, left: Option<u32>) -> Result<(), AllocError>
        ensures { OnOk result (self.new ≡ paid_with self.old sc left) }
    {
        match left {
            None => Ok(()),
            Some(left) => self.renew(sc, is_last(left)),
        }
    }

    /// Notes which scheduling context pays for a turn: for what comes by itself none does.
    fn note_charge(&mut self, sc: u32, left: Option<u32>, kind: EventKind) -> Result<(), AllocError>
        ensures { OnOk result (self.new ≡ paid self.old sc left kind) }
    {
        match kind {
            EventKind::Late => Ok(()),
            EventKind::Irq => Ok(()),
            EventKind::Tick => Ok(()),
            _ => self.note_paid(sc, left),
        }
    }

    /// Notes that the clock of the processor `cpu` goes on.
    #[tactic(auto, using(crate::proofs::Places::set_past))]
    fn tick(&mut self, cpu: u32) -> Result<(), AllocError>
        ensures { OnOk result (self.new ≡ ticked self.old cpu) }
    {
        if (cpu as usize) < self.clocks.len() {
            self.clocks[cpu as usize] = one_more(self.clocks[cpu as usize])?;
        }
        Ok(())
    }

    /// What is counted after a turn, by `event` and the kernels before and after it, `from` and `next`.
    pub(crate) fn after(
        &self,
        alloc: Global,
        from: &Kernel,
        event: &Event,
        next: &Kernel,
    ) -> Result<Tally, AllocError>
        ensures { IfOk result (λ t. t ≡ counts_after self.now from.now.state event.now next.now.state) }
    {
        let mut tally = self.copy(alloc)?;
        let number = from.objects().len() as u32;
        tally.note_object(next.object(number).copied())?;
        tally.note_child(event.kind)?;
        tally.note_charge(event.sc, from.left(event.sc), event.kind)?;
        tally.tick(event.cpu)?;
        Ok(tally)
    }
}

/// The stamps in which scheduling contexts begin, by the number of an object.
fn first_stamps(alloc: Global, objects: &[Object]) -> Result<Vec<Option<u64>>, AllocError>
    ensures { IfOk result (λ v. v.items ≡ map first_stamp objects.now) }
{
    let mut stamps = Vec::new(alloc);
    for object in objects {
        stamps.push(match object {
            Object::Sc { .. } => Some(0),
            _ => None,
        })?;
    }
    Ok(stamps)
}

/// The clocks of `cpus` processors that took no turn.
fn first_clocks(alloc: Global, cpus: u32) -> Result<Vec<u64>, AllocError>
    ensures { IfOk result (λ v. v.items ≡ replicate cpus 0) }
{
    let mut clocks = Vec::new(alloc);
    for _cpu in 0..cpus {
        clocks.push(0)?;
    }
    Ok(clocks)
}

/// What is counted of `kernel` that begins.
#[tactic(auto, using(crate::proofs::Next::boot_counts))]
pub(crate) fn at_boot(alloc: Global, kernel: &Kernel) -> Result<Tally, AllocError>
    requires { IsBooted kernel.now.state }
    ensures { IfOk result (λ t. t ≡ counts_of kernel.now.state) }
{
    law_sameness::turns_count_by_what_is_read();
    let clocks = first_clocks(alloc, kernel.cpus())?;
    let objects = kernel.objects();
    let stamps = first_stamps(alloc, objects)?;
    Ok(Tally {
        clocks,
        stamps,
        next_stamp: 1,
        next_id: u64::from(kernel.consoles()) + 1 + objects.len() as u64,
    })
}

/// Whether the lists of numbers `a` and `b` are equal.
#[tactic(auto, using(crate::proofs::Places::same_when))]
fn same_numbers(a: &[u64], b: &[u64]) -> bool
    ensures { OnTrue result (a.now ≡ b.now) }
{
    a == b
}

/// Whether the lists of stamps `a` and `b` are equal.
fn same_stamps(a: &[Option<u64>], b: &[Option<u64>]) -> bool
    ensures { OnTrue result (a.now ≡ b.now) }
{
    if a.len() != b.len() {
        return false;
    }
    for i in 0..a.len() {
        if !same_count(a[i], b[i]) {
            return false;
        }
    }
    true
}

/// Whether of any two of `objects` that compete the same one has the lesser stamp in `a` and in `b`.
#[tactic(auto, using(crate::proofs::Peers::same_in_step))]
fn same_order(objects: &[Object], a: &[Option<u64>], b: &[Option<u64>]) -> bool
    ensures { OnTrue result ((m n : ℕ) → IsInStep objects.now a.now b.now m n) }
{
    if same_stamps(a, b) {
        return true;
    }
    are_in_step(objects, a, b)
}

impl Tally {
    /// Whether the next id is that of `other`, and of any two of `objects` that compete the same one has the lesser stamp.
    pub(crate) fn is_in_step(&self, other: &Tally, objects: &[Object]) -> bool
        ensures { OnTrue result (AreInStep objects.now self.now other.now) }
    {
        self.next_id == other.next_id && same_order(objects, &self.stamps, &other.stamps)
    }

    /// Whether the same is counted in `other`.
    pub(crate) fn is_same(&self, other: &Tally) -> bool
        ensures { OnTrue result (self.now ≡ other.now) }
    {
        self.next_stamp == other.next_stamp
            && self.next_id == other.next_id
            && same_numbers(&self.clocks, &other.clocks)
            && same_stamps(&self.stamps, &other.stamps)
    }
}

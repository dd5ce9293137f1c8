ghost use Rattle.std.specs.Prelude.{◌≡◌, ◌<◌, ◌≤◌, ◌+◌, ◌^◌, length, replicate, slice_set, IfOk, OnOk};
ghost use Rattle.nova_times.specs.Processors.{AreChanged, AreWider, HasPlaces, HavePlaces, IsWider, clocks_of, first_of, is_due_by, least_on, moment_of, new_processor, processor_at};

use crate::entry::{Entry, lesser};
use crate::tree::Tree;
use std::alloc::{AllocError, Global};
use std::marker::Model;

/// A processor as it is kept: its clock, its entries by number of alarm and of execution context, and the least of their
/// moments.
#[derive(Drop)]
pub(crate) struct Processor {
    clock: u64,
    least: Option<u64>,
    alarms: Tree,
    deadlines: Tree,
}

impl Model for Processor {
    ghost use Rattle.std.specs.Prelude.{◌≡◌};
    ghost use Rattle.nova_times.specs.Processors.{ProcessorState, first_of, moment_of};

    ghost Value = { ProcessorState };

    ghost view = { λ p. record { clock = p.clock; alarms = p.alarms; deadlines = p.deadlines } };

    ghost invariant = { λ p. p.least ≡ moment_of (first_of p.alarms p.deadlines) };
}

/// The least moment of `alarms` and `deadlines`.
fn least_moment(alarms: &Tree, deadlines: &Tree) -> Option<u64>
    ensures { result ≡ moment_of (first_of alarms.now deadlines.now) }
{
    lesser(alarms.least(), deadlines.least()).map(|e| e.at)
}

impl Processor {
    /// A processor whose clock stands at 0, without entries or places.
    fn new(alloc: Global) -> Processor
        ensures { result ≡ new_processor }
    {
        Processor {
            clock: 0,
            least: None,
            alarms: Tree::new(alloc),
            deadlines: Tree::new(alloc),
        }
    }

    /// Makes places for alarms and deadlines of numbers below `alarms` and `deadlines`. Where memory runs out, there may be more places.
    fn reserve(&mut self, alarms: usize, deadlines: usize) -> Result<(), AllocError>
        requires alarms { alarms ≤ 2 ^ 32 }
        requires deadlines { deadlines ≤ 2 ^ 32 }
        ensures clock { self.new.clock ≡ self.old.clock }
        ensures wider { IsWider self.old self.new }
        ensures room { OnOk result (HasPlaces alarms deadlines self.new) }
    {
        self.alarms.reserve(alarms)?;
        self.deadlines.reserve(deadlines)
    }

    /// The clock.
    #[inline(always)]
    pub(crate) fn clock(&self) -> u64
        ensures { result ≡ self.now.clock }
    {
        self.clock
    }

    /// Puts the clock on by `count` turns.
    #[inline(always)]
    pub(crate) fn pass(&mut self, count: u64)
        requires { self.old.clock + count < 2 ^ 64 }
        ensures { self.new ≡ record self.old { clock = self.old.clock + count } }
    {
        self.clock += count;
    }

    /// What comes next.
    pub(crate) fn first(&self) -> Option<Entry>
        ensures { result ≡ first_of self.now.alarms self.now.deadlines }
    {
        lesser(self.alarms.least(), self.deadlines.least())
    }

    /// The least moment.
    #[inline(always)]
    pub(crate) fn least(&self) -> Option<u64>
        ensures { result ≡ least_on self.now }
    {
        self.least
    }

    /// Whether the least moment is at most the clock.
    #[inline(always)]
    pub(crate) fn is_due(&self) -> bool
        ensures { result ≡ is_due_by self.now.clock (least_on self.now) }
    {
        match self.least {
            Some(at) => at <= self.clock,
            None => false,
        }
    }

    /// Sets or clears the entry of alarm `n`, which has a place, to `e`.
    fn put_alarm(&mut self, n: u32, e: Option<Entry>)
        requires { n < length self.old.alarms }
        ensures { self.new ≡ record self.old { alarms = slice_set self.old.alarms n e } }
    {
        self.alarms.put(n as usize, e);
        self.least = least_moment(&self.alarms, &self.deadlines);
    }

    /// Sets or clears the entry of the deadline of `ec`, which has a place, to `e`.
    fn put_deadline(&mut self, ec: u32, e: Option<Entry>)
        requires { ec < length self.old.deadlines }
        ensures { self.new ≡ record self.old { deadlines = slice_set self.old.deadlines ec e } }
    {
        self.deadlines.put(ec as usize, e);
        self.least = least_moment(&self.alarms, &self.deadlines);
    }

    /// Copies the clock and entries of the processor.
    fn copy(&self, alloc: Global) -> Result<Processor, AllocError>
        ensures { IfOk result (λ p. p ≡ self.now) }
    {
        let alarms = self.alarms.copy(alloc)?;
        let deadlines = self.deadlines.copy(alloc)?;
        Ok(Processor {
            clock: self.clock,
            least: self.least,
            alarms,
            deadlines,
        })
    }
}

/// `cpus` processors whose clocks stand at 0, without entries.
pub(crate) fn new(alloc: Global, cpus: u32) -> Result<Vec<Processor>, AllocError>
    ensures { IfOk result (λ v. v.items ≡ replicate cpus new_processor) }
{
    let mut processors = Vec::new(alloc);
    for _ in 0..cpus {
        processors.push(Processor::new(alloc))?;
    }
    Ok(processors)
}

/// Makes places on each of `processors` for alarms and deadlines of numbers below `alarms` and `deadlines`. Where memory runs out, there may be more
/// places.
pub(crate) fn reserve(
    processors: &mut Vec<Processor>,
    alarms: usize,
    deadlines: usize,
) -> Result<(), AllocError>
    requires alarms { alarms ≤ 2 ^ 32 }
    requires deadlines { deadlines ≤ 2 ^ 32 }
    ensures clocks { clocks_of processors.new.items ≡ clocks_of processors.old.items }
    ensures wider { AreWider processors.old.items processors.new.items }
    ensures room { OnOk result (HavePlaces alarms deadlines (length processors.new.items) processors.new.items) }
{
    for cpu in 0..processors.len() {
        processors[cpu].reserve(alarms, deadlines)?;
    }
    Ok(())
}

/// Sets or clears the entry of alarm `n`, which has a place, to `e`, if the processor `cpu` is there.
pub(crate) fn put_alarm(processors: &mut Vec<Processor>, cpu: u32, n: u32, e: Option<Entry>)
    requires { cpu < length processors.old.items → n < length (processor_at processors.old.items cpu).alarms }
    ensures { AreChanged cpu (record (processor_at processors.old.items cpu) { alarms = slice_set (processor_at processors.old.items cpu).alarms n e }) processors.old.items processors.new.items }
{
    if (cpu as usize) < processors.len() {
        processors[cpu as usize].put_alarm(n, e);
    }
}

/// Sets or clears the entry of the deadline of `ec`, which has a place, to `e`, if the processor `cpu` is there.
pub(crate) fn put_deadline(processors: &mut Vec<Processor>, cpu: u32, ec: u32, e: Option<Entry>)
    requires { cpu < length processors.old.items → ec < length (processor_at processors.old.items cpu).deadlines }
    ensures { AreChanged cpu (record (processor_at processors.old.items cpu) { deadlines = slice_set (processor_at processors.old.items cpu).deadlines ec e }) processors.old.items processors.new.items }
{
    if (cpu as usize) < processors.len() {
        processors[cpu as usize].put_deadline(ec, e);
    }
}

/// Copies `processors`.
pub(crate) fn copies(alloc: Global, processors: &[Processor]) -> Result<Vec<Processor>, AllocError>
    ensures { IfOk result (λ v. v.items ≡ processors.now) }
{
    let mut copies = Vec::new(alloc);
    for processor in processors {
        copies.push(processor.copy(alloc)?)?;
    }
    Ok(copies)
}

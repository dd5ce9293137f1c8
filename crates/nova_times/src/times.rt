ghost use Rattle.std.specs.Prelude.{◌≡◌, ◌<◌, ◌≤◌, ◌+◌, ◌*◌, ◌-◌, ◌^◌, ℕ, true, [], length, map, replicate, is_some, slice_get, slice_set, Some, None, option_map, IfOk, IfSome, IsSome, IsOk, OnOk, OnErr};
ghost use Rattle.nova_model.specs.Times.{clock, due_on, goes_on, grown, next_entry, next_moment, rung, rung_once, ticked, until_due, with_alarm, with_deadline};
ghost use Rattle.nova_model.specs.State.{deadline_of};
ghost use Rattle.nova_times.specs.Kept.{IsAlarm, IsOf, alarm_leaves, deadline_leaves, seen};
ghost use Rattle.nova_times.specs.Processors.{first_of, is_due_by, moment_of};
ghost use Rattle.nova_model.specs.declared.times.AlarmState.{AlarmState};

use crate::entry::{Entry, lesser};
use crate::leaves::{alarm_entry, deadline_entry, least_alarm, least_deadline};
use crate::processor::{self, Processor};
use nova_model::{Alarm, AlarmState, Deadline, Due};
use std::alloc::{AllocError, Global};
use std::marker::Model;

/// The clocks of the processors, the deadlines of execution contexts, and alarms. What comes next on a processor is
/// known without a search.
#[derive(Drop)]
pub struct Times {
    processors: Vec<Processor>,
    deadlines: Vec<Option<Deadline>>,
    alarms: Vec<AlarmState>,
    sources: Vec<Alarm>,
    contexts: usize,
    spare: usize,
}

impl Model for Times {
    ghost use Rattle.std.specs.Prelude.{◌≤◌, ◌+◌, length, vec_capacity};
    ghost use Rattle.nova_times.specs.Kept.{TimesState, AreTimes, HasRoom};
    ghost use Rattle.nova_times.specs.Processors.{clocks_of};

    ghost Value = { TimesState };

    ghost view = { λ t. record {
      all = record { clocks = clocks_of t.processors.items; deadlines = t.deadlines.items; alarms = t.alarms.items };
      contexts = t.contexts;
      spare = t.spare;
    } };

    ghost invariant = { λ t.
        AreTimes t.processors.items (record { clocks = clocks_of t.processors.items; deadlines = t.deadlines.items; alarms = t.alarms.items }) t.sources.items
        × (HasRoom (length t.deadlines.items) (length t.alarms.items) t.contexts t.spare t.processors.items
        × ((t.contexts ≤ vec_capacity t.deadlines) × ((length t.alarms.items + t.spare ≤ vec_capacity t.alarms) × (length t.alarms.items + t.spare ≤ vec_capacity t.sources)))) };
}

/// The alarm of `state` when it has rung: its next moment is a period later.
fn rung_once(state: &AlarmState) -> AlarmState
    requires on { goes_on state.now ≡ true }
    requires last { state.now.next + (state.now.alarm.count - state.now.rings) * state.now.alarm.period < 2 ^ 64 }
    ensures { result ≡ rung_once state.now }
{
    AlarmState {
        next: state.next + state.alarm.period,
        rings: state.rings + 1,
        ..*state
    }
}

impl Times {
    /// The clocks of `cpus` processors at 0, and nothing to come.
    pub fn new(alloc: Global, cpus: u32) -> Result<Times, AllocError>
        ensures { IfOk result (λ t. t.all ≡ record { clocks = replicate cpus 0; deadlines = []; alarms = [] }) }
    {
        Ok(Times {
            processors: processor::new(alloc, cpus)?,
            deadlines: Vec::new(alloc),
            alarms: Vec::new(alloc),
            sources: Vec::new(alloc),
            contexts: 0,
            spare: 0,
        })
    }

    /// The clock of the processor `cpu`, in turns; 0 where there is no such processor.
    pub fn clock(&self, cpu: u32) -> u64
        ensures { result ≡ clock self.now.all cpu }
    {
        match self.processors.get(cpu as usize) {
            Some(processor) => processor.clock(),
            None => 0,
        }
    }

    /// Puts the clock of the processor `cpu` on by one turn.
    #[inline(always)]
    pub fn tick(&mut self, cpu: u32)
        requires there { cpu < length self.old.all.clocks }
        requires bound { clock self.old.all cpu < 2 ^ 64 - 1 }
        ensures { self.new ≡ record self.old { all = ticked self.old.all cpu } }
    {
        self.pass(cpu, 1);
    }

    /// Puts the clock of the processor `cpu` on by `count` turns at once.
    #[inline(always)]
    pub fn pass(&mut self, cpu: u32, count: u64)
        requires there { cpu < length self.old.all.clocks }
        requires bound { clock self.old.all cpu + count < 2 ^ 64 }
        ensures { self.new ≡ record self.old { all = record self.old.all { clocks = slice_set self.old.all.clocks cpu (clock self.old.all cpu + count) } } }
    {
        self.processors[cpu as usize].pass(count);
    }

    /// Makes room for the deadline of the execution context of the next number. Where there is room, this succeeds.
    pub fn room_for_ec(&mut self) -> Result<(), AllocError>
        requires few { length self.old.all.deadlines < 2 ^ 32 - 1 }
        ensures kept { self.new.all ≡ self.old.all }
        ensures spare { self.new.spare ≡ self.old.spare }
        ensures room { OnOk result (length self.new.all.deadlines < self.new.contexts) }
        ensures keeps { self.old.contexts ≤ self.new.contexts }
        ensures enough { length self.old.all.deadlines < self.old.contexts → IsOk result }
        ensures err { OnErr result (self.new ≡ self.old) }
    {
        if self.deadlines.len() < self.contexts {
            return Ok(());
        }
        let contexts = self.contexts + 1;
        self.deadlines.reserve(1)?;
        let alarms = self.alarms.len() + self.spare;
        processor::reserve(&mut self.processors, alarms, contexts)?;
        self.contexts = contexts;
        Ok(())
    }

    /// Adds the next number, in room that was made, without a deadline.
    pub fn add(&mut self)
        requires { length self.old.all.deadlines < self.old.contexts }
        ensures { self.new ≡ record self.old { all = grown self.old.all } }
    {
        self.deadlines.push_reserved(None);
    }

    /// The deadline of the execution context `ec`, if it has one.
    pub fn deadline(&self, ec: u32) -> Option<Deadline>
        ensures { result ≡ deadline_of self.now.all ec }
    {
        *self.deadlines.get(ec as usize)?
    }

    /// Sets or clears the deadline of the execution context `ec`, whose number is there; it is of the processor `cpu`, before and after.
    fn put_deadline(&mut self, ec: u32, cpu: u32, deadline: Option<Deadline>)
        requires there { ec < length self.old.all.deadlines }
        requires before { IsOf cpu (deadline_of self.old.all ec) }
        requires after { IsOf cpu deadline }
        ensures { self.new ≡ record self.old { all = with_deadline self.old.all ec deadline } }
    {
        let entry = deadline_entry(cpu, ec, deadline);
        processor::put_deadline(&mut self.processors, cpu, ec, entry);
        self.deadlines[ec as usize] = deadline;
    }

    /// Sets the deadline of the execution context `ec`, in place of any that it has: at the semaphore `sm`, at the moment `at` on the clock of the
    /// processor `cpu`. Nothing changes where there is no such number. It takes no memory.
    #[tactic(auto, using(crate::proofs::Keeping::set_beyond, crate::proofs::Keeping::set_over))]
    pub fn set_deadline(&mut self, ec: u32, cpu: u32, sm: u32, at: u64)
        ensures { self.new ≡ record self.old { all = with_deadline self.old.all ec (Some (record { cpu = cpu; sm = sm; at = at })) } }
    {
        if (ec as usize) < self.deadlines.len() {
            self.clear_deadline(ec);
            self.put_deadline(ec, cpu, Some(Deadline { cpu, sm, at }));
        }
    }

    /// Clears the deadline of the execution context `ec`.
    pub fn clear_deadline(&mut self, ec: u32)
        ensures { self.new ≡ record self.old { all = with_deadline self.old.all ec None } }
    {
        let Some(deadline) = self.deadline(ec) else {
            return;
        };
        self.put_deadline(ec, deadline.cpu, None);
    }

    /// Makes room for one more alarm. Where there is room, this succeeds.
    pub fn room_for_alarm(&mut self) -> Result<(), AllocError>
        requires few { length self.old.all.alarms < 2 ^ 32 - 1 }
        ensures kept { self.new.all ≡ self.old.all }
        ensures contexts { self.new.contexts ≡ self.old.contexts }
        ensures room { OnOk result (0 < self.new.spare) }
        ensures keeps { self.old.spare ≤ self.new.spare }
        ensures enough { 0 < self.old.spare → IsOk result }
        ensures err { OnErr result (self.new ≡ self.old) }
    {
        if self.spare > 0 {
            return Ok(());
        }
        self.alarms.reserve(1)?;
        self.sources.reserve(1)?;
        let alarms = self.alarms.len() + 1;
        processor::reserve(&mut self.processors, alarms, self.contexts)?;
        self.spare = 1;
        Ok(())
    }

    /// Adds `alarm` in room that was made, and answers its number. It takes no memory.
    pub fn add_alarm(&mut self, alarm: Alarm) -> u32
        requires room { 0 < self.old.spare }
        requires few { length self.old.all.alarms < 2 ^ 32 - 1 }
        requires alarm { IsAlarm alarm }
        ensures number { result ≡ length self.old.all.alarms }
        ensures added { self.new.all ≡ with_alarm self.old.all alarm }
        ensures contexts { self.new.contexts ≡ self.old.contexts }
        ensures spare { self.new.spare ≡ self.old.spare - 1 }
    {
        let number = self.alarms.len() as u32;
        let state = AlarmState {
            alarm,
            next: alarm.first,
            rings: 0,
        };
        let entry = alarm_entry(alarm.cpu, number, &state);
        processor::put_alarm(&mut self.processors, alarm.cpu, number, entry);
        self.alarms.push_reserved(state);
        self.sources.push_reserved(alarm);
        self.spare -= 1;
        number
    }

    /// The alarm of number `number`, if one was added, with its next moment and how often it has rung.
    pub fn alarm(&self, number: u32) -> Option<AlarmState>
        ensures { result ≡ slice_get self.now.all.alarms number }
    {
        self.alarms.get(number as usize).copied()
    }

    /// The alarms, as they were added.
    pub fn sources(&self) -> &[Alarm]
        ensures { result.now ≡ map (λ (a : AlarmState). a.alarm) self.now.all.alarms }
    {
        self.sources.as_slice()
    }

    /// Rings the alarm `number`, which hasn't ended: its next moment is a period later, and it has rung once more.
    pub fn ring(&mut self, number: u32)
        requires there { IsSome (slice_get self.old.all.alarms number) }
        requires on { IfSome (slice_get self.old.all.alarms number) (λ a. goes_on a ≡ true) }
        ensures { self.new ≡ record self.old { all = rung self.old.all number } }
    {
        let state = self.alarms[number as usize];
        let after = rung_once(&state);
        let cpu = state.alarm.cpu;
        let entry = alarm_entry(cpu, number, &after);
        processor::put_alarm(&mut self.processors, cpu, number, entry);
        self.alarms[number as usize] = after;
    }

    /// What comes first on the processor `cpu`, which isn't there, by a search.
    #[inline(never)]
    fn first_beyond(&self, cpu: u32) -> Option<Entry>
        ensures { result ≡ first_of (alarm_leaves cpu 0 self.now.all.alarms) (deadline_leaves cpu 0 self.now.all.deadlines) }
    {
        lesser(
            least_alarm(self.alarms.as_slice(), cpu),
            least_deadline(self.deadlines.as_slice(), cpu),
        )
    }

    /// What comes first on the processor `cpu`.
    fn first(&self, cpu: u32) -> Option<Entry>
        ensures { option_map seen result ≡ next_entry self.now.all cpu }
    {
        match self.processors.get(cpu as usize) {
            Some(processor) => processor.first(),
            None => self.first_beyond(cpu),
        }
    }

    /// The least moment at which something is to come on the processor `cpu`. None exactly where it has none.
    pub fn next(&self, cpu: u32) -> Option<u64>
        ensures { result ≡ next_moment self.now.all cpu }
    {
        match self.processors.get(cpu as usize) {
            Some(processor) => processor.least(),
            None => self.first_beyond(cpu).map(|e| e.at),
        }
    }

    /// Whether something is due at once on the processor `cpu`, which isn't there and whose clock stands at 0.
    #[inline(never)]
    fn is_due_beyond(&self, cpu: u32) -> bool
        ensures { result ≡ is_due_by 0 (moment_of (first_of (alarm_leaves cpu 0 self.now.all.alarms) (deadline_leaves cpu 0 self.now.all.deadlines))) }
    {
        match self.first_beyond(cpu) {
            Some(e) => e.at == 0,
            None => false,
        }
    }

    /// Whether something is due on the processor `cpu`.
    #[inline(always)]
    pub fn is_due(&self, cpu: u32) -> bool
        ensures { result ≡ is_some (due_on self.now.all cpu) }
    {
        match self.processors.get(cpu as usize) {
            Some(processor) => processor.is_due(),
            None => self.is_due_beyond(cpu),
        }
    }

    /// What is due on the processor `cpu`: of what stands at the least moment an alarm before a deadline, then the least number. None exactly where
    /// nothing is.
    pub fn due(&self, cpu: u32) -> Option<Due>
        ensures { result ≡ due_on self.now.all cpu }
    {
        if self.is_due(cpu) {
            Some(self.first(cpu)?.due)
        } else {
            None
        }
    }

    /// How many turns of the processor `cpu` are left until something is due, 0 where it is. None exactly where the processor has no entry.
    pub fn until_due(&self, cpu: u32) -> Option<u64>
        ensures { result ≡ until_due self.now.all cpu }
    {
        let least = self.next(cpu)?;
        Some(least.saturating_sub(self.clock(cpu)))
    }

    /// Copies clocks, deadlines and alarms, with as much room for deadlines.
    pub fn copy(&self, alloc: Global) -> Result<Times, AllocError>
        ensures { IfOk result (λ t. (t.all ≡ self.now.all) × (t.contexts ≡ self.now.contexts)) }
    {
        let processors = processor::copies(alloc, self.processors.as_slice())?;
        let mut deadlines = Vec::from_slice(alloc, self.deadlines.as_slice())?;
        deadlines.reserve(self.contexts - deadlines.len())?;
        let alarms = Vec::from_slice(alloc, self.alarms.as_slice())?;
        let sources = Vec::from_slice(alloc, self.sources.as_slice())?;
        Ok(Times {
            processors,
            deadlines,
            alarms,
            sources,
            contexts: self.contexts,
            spare: 0,
        })
    }
}

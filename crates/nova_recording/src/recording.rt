ghost use Rattle.std.specs.Prelude.{◌≡◌, ◌+◌, ◌<◌, ◌≤◌, [], length, max, option_map, IfOk, OnOk, OnErr, ◌⊎◌};
ghost use Rattle.nova_model.specs.Delegations.{reach};
ghost use Rattle.nova_recording.specs.Copies.{sizes_of};
ghost use Rattle.nova_recording.specs.Recordings.{IsAt, IsBounded, IsDone, IsSameRun};
ghost use Rattle.nova_recording.specs.Wants.{IsFirst, IsLast, IsOnTheWay, latest};

use crate::copies::{Copies, Kept, bytes_of};
use crate::events::listed;
use crate::preview::Preview;
use crate::wants::Search;
use nova_finished::Finished;
use nova_kernel::{Event, Kernel, Rights};
use nova_trace::Trace;
use std::alloc::{AllocError, Global};
use std::marker::Model;

/// A run that was made, in the state after `turn` of its turns. States on the way are kept, so that it goes back from the newest of them; each is the
/// state of its own turn, and together they take no more bytes than may be.
#[derive(Drop)]
pub struct Recording {
    opening: Kernel,
    events: Vec<Event>,
    pub(crate) preview: Preview,
    turn: usize,
    pub(crate) copies: Copies,
}

impl Model for Recording {
    ghost use Rattle.std.specs.Prelude.{◌≤◌, All};
    ghost use Rattle.nova_recording.specs.Copies.{sizes_of};
    ghost use Rattle.nova_recording.specs.Recordings.{RecordingView, AreTurns, IsAt, IsKept};

    ghost Value = { RecordingView };

    ghost view = { λ r. record {
      opening = r.opening.state;
      events = r.events.items;
      turn = r.turn;
      state = r.preview.kernel.state;
      room = r.preview.kernel.room;
      kept = r.copies.kept;
      most = r.copies.most;
    } };

    ghost invariant = { λ r. AreTurns r.opening.state r.events.items × (IsAt r.opening.state r.events.items r.turn r.preview.kernel.state
        × (All (IsKept r.opening.state r.events.items) r.copies.kept × (sizes_of r.copies.kept ≤ r.copies.most))) };
}

/// Drops a value out of line, which keeps the caller's proof small.
fn let_go<T: Drop>(_value: T) {}

/// What a recording begins with: the events of its turns one by one, and the state at the beginning once more.
struct Begun {
    events: Vec<Event>,
    kernel: Kernel,
}

/// The events of `trace`, and a copy of `opening`.
fn begin(alloc: Global, opening: &Kernel, trace: &Trace) -> Result<Begun, AllocError>
    ensures events { IfOk result (λ begun. begun.events.items ≡ trace.now.items) }
    ensures kernel { IfOk result (λ begun. begun.kernel.state ≡ opening.now.state) }
{
    let events = listed(alloc, trace)?;
    let kernel = opening.copy()?;
    Ok(Begun { events, kernel })
}

impl Recording {
    /// The recording of `run`, which is over, in the state at its beginning. No state is kept on the way.
    pub fn new(alloc: Global, run: Finished) -> Result<Recording, AllocError>
        requires { IsDone run }
        ensures opening { IfOk result (λ r. r.opening ≡ run.opening.state) }
        ensures events { IfOk result (λ r. r.events ≡ run.trace.items) }
        ensures turn { IfOk result (λ r. r.turn ≡ 0) }
        ensures kept { IfOk result (λ r. r.kept ≡ []) }
    {
        law_turns::a_trace_has_an_event_a_turn();
        let Finished {
            opening,
            kernel,
            order,
            trace,
            ..
        } = run;
        let_go((kernel, order));
        match begin(alloc, &opening, &trace) {
            Ok(Begun { events, kernel }) => {
                let_go(trace);
                Ok(Recording {
                    opening,
                    events,
                    preview: Preview::new(kernel),
                    turn: 0,
                    copies: Copies::none(alloc),
                })
            }
            Err(error) => {
                let_go((opening, trace));
                Err(error)
            }
        }
    }

    /// From the present turn on keeps states on the way, to go back from, in at most `bytes` bytes; none for 0. Those kept before are let go.
    /// What a state takes is reckoned by what it has of frames, objects, derivations and bytes in the console log. The first state and the
    /// present one are not counted.
    pub fn keep_within(&mut self, bytes: usize)
        ensures kept { self.new ≡ record self.old { kept = []; most = bytes } }
        ensures within { sizes_of self.new.kept ≤ bytes }
    {
        let room = match bytes_of(self.preview.kernel()) {
            Some(each) => bytes / each,
            None => 0,
        };
        let spacing = self.events.len() / room.max(1);
        self.copies.begin(bytes, spacing.max(1), self.turn);
    }

    /// How many turns were taken to the present state, which is that after as many first entries of the run's order.
    pub fn turn(&self) -> usize
        ensures turn { result ≡ self.now.turn }
        ensures state { IsAt self.now.opening self.now.events self.now.turn self.now.state }
        ensures within { sizes_of self.now.kept ≤ self.now.most }
    {
        self.turn
    }

    /// The event of each turn of the run, in order.
    pub fn events(&self) -> &[Event]
        ensures { result.now ≡ self.now.events }
    {
        &self.events
    }

    /// The kernel at the beginning of the run.
    pub fn opening(&self) -> &Kernel
        ensures state { result.now.state ≡ self.now.opening }
        ensures within { sizes_of self.now.kept ≤ self.now.most }
    {
        &self.opening
    }

    /// The kernel in the present state.
    pub fn kernel(&self) -> &Kernel
        ensures state { result.now.state ≡ self.now.state }
        ensures at { IsAt self.now.opening self.now.events self.now.turn self.now.state }
    {
        &self.preview.kernel
    }

    /// What `page` of the protection domain `pd` leads to in the present state: a frame, and what is allowed there; none where it leads nowhere.
    pub fn reach(&mut self, pd: u32, page: u32) -> Option<(u32, Rights)>
        ensures page { result ≡ option_map (λ p. (p.frame, p.rights)) (reach self.old.state.delegations.list pd page) }
        ensures at { IsAt self.old.opening self.old.events self.old.turn self.old.state }
        ensures kept { self.new ≡ self.old }
    {
        self.preview.kernel.reach(pd, page)
    }

    /// Makes room for `turns` turns more in the console log.
    pub(crate) fn reserve(&mut self, turns: usize) -> Result<(), AllocError>
        ensures ok { OnOk result (self.new ≡ record self.old { room = max self.old.room turns }) }
        ensures err { OnErr result (self.new ≡ self.old) }
        ensures bound { IsBounded self.old self.new }
    {
        self.preview.kernel.reserve_log(turns)
    }

    /// Keeps the present state, where its turn has come.
    fn keep(&mut self) -> Result<(), AllocError>
        ensures here { self.new ≡ record self.old { kept = self.new.kept } }
        ensures within { sizes_of self.new.kept ≤ self.new.most }
    {
        if !self.copies.is_due(self.turn) {
            return Ok(());
        }
        let Some(bytes) = bytes_of(self.preview.kernel()) else {
            return Ok(());
        };
        self.copies.make_room(bytes);
        if !self.copies.is_due(self.turn) {
            return Ok(());
        }
        let kernel = self.preview.copy()?;
        let turn = self.turn;
        self.copies.add(Kept { turn, kernel })
    }

    /// Goes on by one turn.
    pub(crate) fn step(&mut self) -> Result<(), AllocError>
        requires more { self.old.turn < length self.old.events }
        requires room { 0 < self.old.room }
        ensures turn { OnOk result (self.new.turn ≡ self.old.turn + 1) }
        ensures same { IsSameRun self.old self.new }
        ensures bound { IsBounded self.old self.new }
        ensures room { self.old.room ≤ self.new.room + 1 }
        ensures err { OnErr result (self.new ≡ record self.old { kept = self.new.kept }) }
    {
        self.keep()?;
        let cpu = self.events[self.turn].cpu;
        self.preview.turn(cpu)?;
        self.turn += 1;
        Ok(())
    }

    /// Takes `kernel`, the state of the run after `turn` turns, in place of the present one.
    pub(crate) fn take(&mut self, turn: usize, kernel: Kernel)
        requires { IsAt self.old.opening self.old.events turn kernel.state }
        ensures taken { self.new ≡ record self.old { turn = turn; state = kernel.state; room = kernel.room } }
        ensures bound { IsBounded self.old self.new }
    {
        let before = self.preview.replace(kernel);
        self.turn = turn;
        let_go(before);
    }

    /// Whether a state is kept of a turn after the present one and up to `to`.
    fn is_kept_before(&self, to: usize) -> bool {
        matches!(self.copies.newest(to), Some(kept) if kept.turn > self.turn())
    }

    /// Begins anew, from the state in which the run began.
    fn restart(&mut self) -> Result<(), AllocError>
        ensures turn { OnOk result (self.new.turn ≡ 0) }
        ensures err { OnErr result (self.new ≡ self.old) }
        ensures same { IsSameRun self.old self.new }
        ensures bound { IsBounded self.old self.new }
    {
        let kernel = self.opening().copy()?;
        self.take(0, kernel);
        Ok(())
    }

    /// Takes the newest state that is kept of the turns up to `to`, or begins anew.
    fn resume(&mut self, to: usize) -> Result<(), AllocError>
        ensures turn { OnOk result (self.new.turn ≤ to) }
        ensures err { OnErr result (self.new ≡ self.old) }
        ensures same { IsSameRun self.old self.new }
        ensures bound { IsBounded self.old self.new }
    {
        let Some(kept) = self.copies.newest(to) else {
            return self.restart();
        };
        let turn = kept.turn;
        let kernel = kept.kernel.copy()?;
        self.take(turn, kernel);
        Ok(())
    }

    /// Goes on to the turn `to`, which is not before the present one.
    fn forward(&mut self, to: usize) -> Result<(), AllocError>
        requires ahead { self.old.turn ≤ to }
        requires within { to ≤ length self.old.events }
        ensures turn { OnOk result (self.new.turn ≡ to) }
        ensures way { self.new.turn ≤ to }
        ensures same { IsSameRun self.old self.new }
        ensures bound { IsBounded self.old self.new }
    {
        self.reserve(to - self.turn())?;
        while self.turn() < to {
            self.step()?;
        }
        Ok(())
    }

    /// Goes to the state after `to` turns, which the run has, in either direction. Where memory runs out it is at the same turn, or at a turn that is
    /// not after `to`.
    pub fn go(&mut self, to: usize) -> Result<(), AllocError>
        requires within { to ≤ length self.old.events }
        ensures turn { OnOk result (self.new.turn ≡ to) }
        ensures way { (self.new.turn ≡ self.old.turn) ⊎ (self.new.turn ≤ to) }
        ensures same { IsSameRun self.old self.new }
        ensures bound { IsBounded self.old self.new }
    {
        if to < self.turn() || self.is_kept_before(to) {
            self.resume(to)?;
        }
        self.forward(to)
    }

    /// The present turn where it does something that `search` looks for, else the turn `found` before.
    fn latest(&mut self, search: &Search, found: Option<usize>) -> Option<usize>
        ensures latest { result ≡ latest search.now self.old found }
        ensures kept { self.new ≡ self.old }
    {
        if self.is_wanted(search) {
            Some(self.turn())
        } else {
            found
        }
    }

    /// Goes on to the first turn before `to` that does what `search` looks for, the present one included; and whether there is one. Where there
    /// is none it is in the state of `to`. Where memory runs out it is in the state of a turn on the way, and none of those that were passed
    /// does.
    pub fn run(&mut self, search: &Search, to: usize) -> Result<bool, AllocError>
        requires ahead { self.old.turn ≤ to }
        requires within { to ≤ length self.old.events }
        ensures first { IfOk result (IsFirst self.old.opening self.old.events search.now self.old.turn to self.new.turn) }
        ensures way { IsOnTheWay self.old.opening self.old.events search.now self.old.turn to self.new.turn }
        ensures same { IsSameRun self.old self.new }
        ensures bound { IsBounded self.old self.new }
    {
        self.reserve(to - self.turn())?;
        while self.turn() < to {
            if self.is_wanted(search) {
                return Ok(true);
            }
            self.step()?;
        }
        Ok(false)
    }

    /// Goes on to the turn `to`, and tells the last turn before it that does something that `search` looks for, of the present turn and those after
    /// it. Where memory runs out, it is in the state of a turn on the way.
    pub fn last(&mut self, search: &Search, to: usize) -> Result<Option<usize>, AllocError>
        requires ahead { self.old.turn ≤ to }
        requires within { to ≤ length self.old.events }
        ensures last { IfOk result (IsLast self.old.opening self.old.events search.now self.old.turn to) }
        ensures turn { OnOk result (self.new.turn ≡ to) }
        ensures way { (self.old.turn ≤ self.new.turn) × (self.new.turn ≤ to) }
        ensures same { IsSameRun self.old self.new }
        ensures bound { IsBounded self.old self.new }
    {
        self.reserve(to - self.turn())?;
        let mut found = None;
        while self.turn() < to {
            found = self.latest(search, found);
            self.step()?;
        }
        Ok(found)
    }
}

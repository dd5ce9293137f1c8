ghost use Rattle.std.specs.Prelude.{◌≡◌, ◌≤◌, ◌⊎◌, ◌++◌, ◌∷◌, [], not, OnErr, OnOk, string_bytes};
ghost use Rattle.nova_debug.specs.Answers.{HasPassed, HasRun, IsAnswered, IsReplied, IsStopped, accessed_at, bytes_of, end_of, last_line, most_after, page_at, stop_line, turn_of, wants_after, watches_after};
ghost use Rattle.nova_recording.specs.Recordings.{IsSameRun, at_turn};
ghost use Rattle.nova_recording.specs.Wants.{IsOnTheWay};
ghost use Rattle.nova_telling.specs.Told.{access_line, page_line};

use crate::command::Command;
use bitflags::Flags;
use nova_recording::{Recording, Search, Want, Watch};
use nova_telling::{tell, write_access, write_code, write_page};
use std::alloc::{AllocError, Global};

/// A run that is gone through, and what is looked for in it.
#[derive(Drop)]
pub struct Session {
    pub recording: Recording,
    pub search: Search,
}

/// How the answer to a line ends, after what is told: whether the line was done.
#[derive(Clone, Copy)]
pub enum Reply {
    /// It is no command.
    No,
    /// It was done; holds the turn of the present state.
    Done(usize),
    /// Memory was refused; holds the turn of the present state.
    Refused(usize),
}

/// Adds the breakpoint or watch of `command` to `search`; `clear` empties it. Where memory is refused, what is looked for stays.
fn look_for(search: &mut Search, command: Command) -> Result<(), AllocError>
    ensures wants { OnOk result (search.new.wants.items ≡ wants_after command search.old.wants.items) }
    ensures watches { OnOk result (search.new.watches.items ≡ watches_after command search.old.watches.items) }
    ensures same_wants { OnErr result (search.new.wants.items ≡ search.old.wants.items) }
    ensures same_watches { OnErr result (search.new.watches.items ≡ search.old.watches.items) }
{
    match command {
        Command::Break(pd, address) => want(search, Want::At { pd, address }),
        Command::By(ec) => want(search, Want::By { ec }),
        Command::Loads(frame, first, last) => watch(search, bytes_of(frame, first, last, false)),
        Command::Stores(frame, first, last) => watch(search, bytes_of(frame, first, last, true)),
        Command::Clear => {
            search.wants.clear();
            search.watches.clear();
            Ok(())
        }
        _ => Ok(()),
    }
}

/// Adds `want`, an instruction, to what `search` looks for.
fn want(search: &mut Search, want: Want) -> Result<(), AllocError>
    ensures wants { OnOk result (search.new.wants.items ≡ search.old.wants.items ++ want ∷ []) }
    ensures watches { search.new.watches ≡ search.old.watches }
    ensures refused { OnErr result (search.new.wants.items ≡ search.old.wants.items) }
{
    search.wants.push(want)?;
    Ok(())
}

/// Adds `watch`, of loads or stores, to what `search` looks for.
fn watch(search: &mut Search, watch: Watch) -> Result<(), AllocError>
    ensures watches { OnOk result (search.new.watches.items ≡ search.old.watches.items ++ watch ∷ []) }
    ensures wants { search.new.wants ≡ search.old.wants }
    ensures refused { OnErr result (search.new.watches.items ≡ search.old.watches.items) }
{
    search.watches.push(watch)?;
    Ok(())
}

/// A watch of bytes of `frame`, for stores or for loads.
fn bytes_of(frame: u32, first: u32, last: u32, stores: bool) -> Watch
    ensures { result ≡ bytes_of frame first last (not stores) stores }
{
    Watch {
        frame,
        first,
        last,
        loads: !stores,
        stores,
    }
}

fn write_stop(out: &mut String, found: bool) -> Result<(), AllocError>
    ensures { OnOk result (string_bytes out.new ≡ string_bytes out.old ++ stop_line found) }
{
    out.push_str(if found { "stop\n" } else { "none\n" })
}

fn write_last(out: &mut String, found: Option<usize>) -> Result<(), AllocError>
    ensures { OnOk result (string_bytes out.new ≡ string_bytes out.old ++ last_line found) }
{
    match found {
        Some(turn) => writeln!(out, "last {turn}"),
        None => out.push_str("none\n"),
    }
}

impl Session {
    /// The turn `to`, or the run's end where that is before it.
    fn within(&self, to: u32) -> usize
        ensures { result ≡ turn_of self.now.recording to }
    {
        (to as usize).min(self.recording.events().len())
    }

    /// Goes to the turn `to`, or to the end.
    fn go(&mut self, to: u32) -> Result<(), AllocError>
        ensures turn { OnOk result (self.new.recording.turn ≡ turn_of self.old.recording to) }
        ensures way { (self.new.recording.turn ≡ self.old.recording.turn) ⊎ (self.new.recording.turn ≤ turn_of self.old.recording to) }
        ensures same { IsSameRun self.old.recording self.new.recording }
        ensures most { self.new.recording.most ≡ self.old.recording.most }
        ensures search { self.new.search ≡ self.old.search }
    {
        let to = self.within(to);
        self.recording.go(to)
    }

    /// Goes on to the first turn before `to` that is looked for, and tells whether there is one.
    fn run(&mut self, out: &mut String, to: u32) -> Result<(), AllocError>
        ensures ran { OnOk result (HasRun self.old.recording self.new.recording self.old.search to (string_bytes out.old) (string_bytes out.new)) }
        ensures way { IsOnTheWay self.old.recording.opening self.old.recording.events self.old.search self.old.recording.turn (end_of self.old.recording to) self.new.recording.turn }
        ensures same { IsSameRun self.old.recording self.new.recording }
        ensures most { self.new.recording.most ≡ self.old.recording.most }
        ensures search { self.new.search ≡ self.old.search }
    {
        let to = self.within(to).max(self.recording.turn());
        let found = self.recording.run(&self.search, to)?;
        write_stop(out, found)
    }

    /// Goes on to `to`, and tells the last turn that is looked for.
    fn last(&mut self, out: &mut String, to: u32) -> Result<(), AllocError>
        ensures passed { OnOk result (HasPassed self.old.recording self.new.recording self.old.search to (string_bytes out.old) (string_bytes out.new)) }
        ensures way { (self.old.recording.turn ≤ self.new.recording.turn) × (self.new.recording.turn ≤ end_of self.old.recording to) }
        ensures same { IsSameRun self.old.recording self.new.recording }
        ensures most { self.new.recording.most ≡ self.old.recording.most }
        ensures search { self.new.search ≡ self.old.search }
    {
        let to = self.within(to).max(self.recording.turn());
        let found = self.recording.last(&self.search, to)?;
        write_last(out, found)
    }

    /// Tells what `page` leads to.
    fn page(&mut self, out: &mut String, pd: u32, page: u32) -> Result<(), AllocError>
        ensures told { OnOk result (string_bytes out.new ≡ string_bytes out.old ++ page_line (page_at (at_turn self.old.recording.opening self.old.recording.events self.old.recording.turn) pd page)) }
        ensures kept { self.new.recording ≡ self.old.recording }
        ensures search { self.new.search ≡ self.old.search }
    {
        let page = self.recording.reach(pd, page);
        write_page(out, page.map(|(frame, rights)| (frame, rights.bits())))
    }

    /// Tells in `out` what the next turn loads or stores.
    fn access(&mut self, out: &mut String) -> Result<(), AllocError>
        ensures told { OnOk result (string_bytes out.new ≡ string_bytes out.old ++ access_line (accessed_at self.old.recording)) }
        ensures kept { self.new.recording ≡ self.old.recording }
        ensures search { self.new.search ≡ self.old.search }
    {
        let access = self.recording.access();
        write_access(out, access)
    }

    /// Goes where `command` asks to go, and tells what it asks for.
    fn follow(
        &mut self,
        alloc: Global,
        out: &mut String,
        command: Command,
    ) -> Result<(), AllocError>
        ensures answered { OnOk result (IsAnswered command self.old.search self.old.recording self.new.recording (string_bytes out.old) (string_bytes out.new)) }
        ensures stopped { IsStopped command self.old.search self.old.recording self.new.recording }
        ensures same { IsSameRun self.old.recording self.new.recording }
        ensures most { self.new.recording.most ≡ most_after command self.old.recording.most }
        ensures search { self.new.search ≡ self.old.search }
    {
        match command {
            Command::Tell(reading) => tell(alloc, out, &self.recording, reading),
            Command::Access => self.access(out),
            Command::Code(word) => write_code(alloc, out, word),
            Command::Page(pd, page) => self.page(out, pd, page),
            Command::Go(to) => self.go(to),
            Command::Run(to) => self.run(out, to),
            Command::Last(to) => self.last(out, to),
            Command::Keep(bytes) => {
                self.recording.keep_within(bytes as usize);
                Ok(())
            }
            _ => Ok(()),
        }
    }

    /// Does what `command` asks, and tells its answer in `out`. Where memory runs out the recording is in the state of a turn of the same run: of
    /// `run` after no turn that is looked for, of `last` on the way, of `go` the same turn or not after its own, else the same turn. What is looked
    /// for stays, and so does the bound on kept states, unless the command is `keep`.
    pub fn serve(
        &mut self,
        alloc: Global,
        out: &mut String,
        command: Command,
    ) -> Result<(), AllocError>
        ensures answered { OnOk result (IsAnswered command self.old.search self.old.recording self.new.recording (string_bytes out.old) (string_bytes out.new)) }
        ensures wants { OnOk result (self.new.search.wants.items ≡ wants_after command self.old.search.wants.items) }
        ensures watches { OnOk result (self.new.search.watches.items ≡ watches_after command self.old.search.watches.items) }
        ensures same_wants { OnErr result (self.new.search.wants.items ≡ self.old.search.wants.items) }
        ensures same_watches { OnErr result (self.new.search.watches.items ≡ self.old.search.watches.items) }
        ensures stopped { IsStopped command self.old.search self.old.recording self.new.recording }
        ensures same { IsSameRun self.old.recording self.new.recording }
        ensures most { self.new.recording.most ≡ most_after command self.old.recording.most }
    {
        self.follow(alloc, out, command)?;
        look_for(&mut self.search, command)
    }

    /// Replies to a line, by the command `asked`; what is told goes to `out`. Where memory was refused, the session is in the state of the turn that
    /// the reply names.
    pub fn reply(&mut self, alloc: Global, out: &mut String, asked: Option<Command>) -> Reply
        ensures replied { IsReplied asked result self.old self.new (string_bytes out.old) (string_bytes out.new) }
        ensures same { IsSameRun self.old.recording self.new.recording }
    {
        let Some(command) = asked else {
            return Reply::No;
        };
        let served = self.serve(alloc, out, command);
        let turn = self.recording.turn();
        match served {
            Ok(()) => Reply::Done(turn),
            Err(_) => Reply::Refused(turn),
        }
    }
}

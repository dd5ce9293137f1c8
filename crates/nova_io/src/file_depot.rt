// A depot over the runtime's files.
ghost use Rattle.std.specs.Prelude.{◌≡◌, ◌+◌, ◌^◌, ◌<◌, ◌≤◌, None, Some, true, false, length, IsTrue, IfOk, OnOk, OnErr};
ghost use Rattle.nova_io.specs.Faults.{Rose, raised};

use crate::depots::Depot;
use crate::faults::{Failed, raise};
use crate::kept::{Kept, reach};
use crate::streams::{ReadFrom, fetch_from, put_to};
use std::alloc::AllocError;
use std::fs::OpenOptions;
use std::io::{self, Read, Seek, SeekFrom};
use std::marker::Model;
use std::rt::Files;

/// The files that the runtime reaches, by path.
///
/// It tells no bytes. It counts its failed fetches and its failed appends, each of them for every name, up to the
/// last value. An append makes the file if it isn't there.
///
/// A fetch opens the file anew. A file that can't be moved, as a pipe, stays open for the next fetch and is read on from where it stands, until it
/// has ended or another fetch comes. A fetch of its bytes from any other place fails, and so does a fetch after which there is no memory for its
/// name.
#[derive(Drop)]
pub struct FileDepot<R: Files + Alloc> {
    rt: R,
    fetch_faults: u64,
    append_faults: u64,
    kept: Kept<R::File, R::A>,
}

impl<R: Files + Alloc> Model for FileDepot<R> {
    ghost use Rattle.nova_io.specs.Faults.{FaultCounts};

    ghost Value = { FaultCounts };

    ghost view = { λ d. record { fetches = d.fetch_faults; appends = d.append_faults } };
}

impl<R: Files + Alloc> FileDepot<R> {
    /// The files of the runtime `rt`, with no failed call counted.
    pub fn new(rt: R) -> FileDepot<R>
        ensures { result ≡ record { fetches = 0; appends = 0 } }
    {
        let kept = Kept::new(rt.alloc());
        FileDepot {
            rt,
            fetch_faults: 0,
            append_faults: 0,
            kept,
        }
    }

    /// Lets `stream` stay open for the next fetch of `name`. Want of memory for the name is a fault.
    fn keep(&mut self, name: &str, stream: Opened<R::File>) -> Result<(), Failed>
        requires { IsTrue stream.is_stream }
        ensures given { OnOk result (self.new ≡ self.old) }
        ensures refused { OnErr result (self.new ≡ record self.old { fetches = raised self.old.fetches }) }
        ensures failed { OnErr result (Rose self.old.fetches self.new.fetches) }
    {
        match self.kept.keep(self.rt.alloc(), name, stream) {
            Ok(()) => Ok(()),
            Err(AllocError) => Err(raise(&mut self.fetch_faults)),
        }
    }

    /// Fetches bytes of `opened`, an open file, from `at` on. If it can't be moved and hasn't ended, it stays open.
    fn fetch_on(
        &mut self,
        mut opened: Opened<R::File>,
        name: &str,
        at: u64,
        buf: &mut [u8],
    ) -> Result<usize, Failed>
        requires { at < 2 ^ 62 }
        ensures within { IfOk result (λ count. count ≤ length buf.new) }
        ensures given { OnOk result (self.new ≡ self.old) }
        ensures refused { OnErr result (self.new ≡ record self.old { fetches = raised self.old.fetches }) }
        ensures failed { OnErr result (Rose self.old.fetches self.new.fetches) }
    {
        let count = opened.fetch(&mut self.fetch_faults, at, buf)?;
        let has_ended = count == 0 && !buf.is_empty();
        if opened.is_stream && !has_ended {
            self.keep(name, opened)?;
        }
        Ok(count)
    }
}

/// An open file: the place of its next byte, and whether it can't be moved. Of its bytes it tells what the file does,
/// but not which stand at which place.
#[derive(Drop)]
pub(crate) struct Opened<F> {
    pub(crate) file: F,
    pub(crate) place: u64,
    pub(crate) is_stream: bool,
}

impl<F: Read + Seek> Opened<F> {
    /// Fetches bytes from `at` on, and stands after those that came.
    fn fetch(&mut self, faults: &mut u64, at: u64, buf: &mut [u8]) -> Result<usize, Failed>
        requires { at < 2 ^ 62 }
        ensures within { IfOk result (λ count. count ≤ length buf.new) }
        ensures place { IfOk result (λ count. self.new.place ≡ at + count) }
        ensures given { OnOk result (faults.new ≡ faults.old) }
        ensures refused { OnErr result (faults.new ≡ raised faults.old) }
        ensures failed { OnErr result (Rose faults.old faults.new) }
    {
        let count = fetch_from(self, faults, at, buf)?;
        self.place = at + count as u64;
        Ok(count)
    }
}

impl<F: Read> Read for Opened<F> {
    ghost remaining = { λ o. F.remaining o.file };

    fn read(&mut self, buf: &mut [u8]) -> io::Result<usize> {
        self.file.read(buf)
    }
}

impl<F: Read + Seek> ReadFrom for Opened<F> {
    ghost bytes = { λ _. None };

    ghost place = { λ o. Some o.place };

    /// A file that can't be moved is read only from where it stands.
    fn move_to(&mut self, at: u64) -> io::Result<()>
        ensures place { OnOk result (self.new.place ≡ at) }
        ensures stream { OnOk result (IsTrue self.new.is_stream → self.old.place ≡ at) }
    {
        match self.file.seek(SeekFrom::Start(at)) {
            Ok(_) => {
                self.place = at;
                self.is_stream = false;
            }
            Err(_) if self.place == at => self.is_stream = true,
            Err(error) => return Err(error),
        }
        Ok(())
    }
}

impl<R: Files + Alloc> Depot for FileDepot<R> {
    ghost files = { λ _. None };

    ghost fetch_faults = { λ d _. d.fetches };

    ghost append_faults = { λ d _. d.appends };

    ghost gave = { λ before _ _ _ _ after. after ≡ before };

    ghost fetch_failed = { λ before _ _ _ after. after ≡ record before { fetches = raised before.fetches } };

    ghost took = { λ before _ _ _ after. after ≡ before };

    ghost append_failed = { λ before _ _ after. after ≡ record before { appends = raised before.appends } };

    fn fetch(&mut self, name: &str, at: u64, buf: &mut [u8]) -> Result<usize, Failed>
        requires { at < 2 ^ 62 }
        ensures within { IfOk result (λ count. count ≤ length buf.new) }
        ensures given { OnOk result (self.new ≡ self.old) }
        ensures refused { OnErr result (self.new ≡ record self.old { fetches = raised self.old.fetches }) }
        ensures failed { OnErr result (Rose self.old.fetches self.new.fetches) }
    {
        match reach(&self.rt, &mut self.kept, name, at) {
            Ok(opened) => self.fetch_on(opened, name, at, buf),
            Err(_) => Err(raise(&mut self.fetch_faults)),
        }
    }

    fn append(&mut self, name: &str, bytes: &[u8]) -> Result<usize, Failed>
        ensures within { IfOk result (λ count. count ≤ length bytes.now) }
        ensures progress { IfOk result (λ count. count ≡ 0 → length bytes.now ≡ 0) }
        ensures taken { OnOk result (self.new ≡ self.old) }
        ensures refused { OnErr result (self.new ≡ record self.old { appends = raised self.old.appends }) }
        ensures failed { OnErr result (Rose self.old.appends self.new.appends) }
    {
        match OpenOptions::new()
            .append(true)
            .create(true)
            .open(&self.rt, name)
        {
            Ok(mut file) => put_to(&mut file, &mut self.append_faults, bytes),
            Err(_) => Err(raise(&mut self.append_faults)),
        }
    }
}

// A depot in memory.
ghost use Rattle.std.specs.Prelude.{◌≡◌, ◌-◌, ◌^◌, ◌<◌, ◌≤◌, ◌⊎◌, ◌↔◌, None, Some, true, false, length, take, drop, min, IsErr, IfOk, OnOk, OnErr, Contains};
ghost use Rattle.std.specs.Option.{option_map};
ghost use Rattle.std.specs.FinMap.{get};
ghost use Rattle.nova_io.specs.Faults.{Rose, raised};
ghost use Rattle.nova_io.specs.Files.{bytes_of, appended};
ghost use Rattle.nova_io.specs.Held.{files_given, rooms_given};
ghost use Rattle.nova_io.specs.MemCalls.{MemGave, MemFetchFailed, MemTook, MemAppendFailed, IsToFail};
ghost use Rattle.nova_io.specs.Memory.{after_call, room_of, lowered};

use crate::calls::Calls;
use crate::depots::Depot;
use crate::faults::Failed;
use crate::held::{Held, MemFile, hold, put, store_of};
use std::alloc::{AllocError, Global};
use std::marker::Model;

/// A depot that keeps its files in memory, and tells them.
///
/// A fetch gives what there is and the buffer takes, and an append takes the whole piece; but no call gives or takes more
/// than `most` bytes, which is 2^64 - 1 at first. A call is a fault if its number is among those that are to fail, a
/// fetch also if there is no file of that name, and an append if the piece, all of it, is longer than the room that is
/// left to the file. A name without a file has no room. Fetches and appends are numbered apart, from 1, and each of these
/// two kinds has one count of faults for every name.
#[derive(Drop)]
pub struct MemDepot {
    files: Vec<Held>,
    fetches: Calls,
    appends: Calls,
    most: u64,
}

impl Model for MemDepot {
    ghost use Rattle.nova_io.specs.Memory.{DepotState, depot_code};

    ghost Value = { DepotState };

    ghost coded = { depot_code };

    ghost use Rattle.nova_io.specs.Held.{files_held, rooms_held};

    ghost view = { λ d. record {
      files = files_held d.files.items;
      rooms = rooms_held d.files.items;
      fetches = d.fetches;
      appends = d.appends;
      most = d.most;
    } };

    ghost use Rattle.std.specs.Prelude.{◌≤◌};

    ghost invariant = { λ d. 1 ≤ d.most };
}

impl MemDepot {
    /// A depot of `files`, of whose fetches and appends those with the numbers `fetches` and `appends` are to fail. Of files with one name the first
    /// counts. A call takes or gives as many bytes as there are.
    pub fn new(
        alloc: Global,
        files: Vec<MemFile>,
        fetches: Vec<u64>,
        appends: Vec<u64>,
    ) -> Result<MemDepot, AllocError>
        ensures { IfOk result (λ depot. depot ≡ record {
          files = files_given files.items;
          rooms = rooms_given files.items;
          fetches = record { made = 0; faults = 0; failing = fetches.items };
          appends = record { made = 0; faults = 0; failing = appends.items };
          most = 2 ^ 64 - 1;
        }) }
    {
        Ok(MemDepot {
            files: hold(alloc, files)?,
            fetches: Calls::new(fetches),
            appends: Calls::new(appends),
            most: u64::MAX,
        })
    }

    /// Bounds the bytes that a call takes or gives from now on to `most`, at least 1.
    pub fn set_most(&mut self, most: u64)
        requires { 1 ≤ most }
        ensures { self.new ≡ record self.old { most = most } }
    {
        self.most = most;
    }

    /// The bytes of the file `name`, or None where there is no such name.
    pub fn bytes(&self, name: &str) -> Option<&[u8]>
        ensures { option_map (λ bytes. bytes.now) result ≡ get self.now.files name.now }
    {
        let store = store_of(&self.files, name)?;
        Some(store.bytes())
    }
}

impl Depot for MemDepot {
    ghost files = { λ d. Some d.files };

    ghost fetch_faults = { λ d _. d.fetches.faults };

    ghost append_faults = { λ d _. d.appends.faults };

    ghost gave = { MemGave };

    ghost fetch_failed = { MemFetchFailed };

    ghost took = { MemTook };

    ghost append_failed = { MemAppendFailed };

    fn fetch(&mut self, name: &str, at: u64, buf: &mut [u8]) -> Result<usize, Failed>
        requires { at < 2 ^ 62 }
        ensures fails { IsErr result ↔ (IsToFail self.old.fetches ⊎ (get self.old.files name.now ≡ None)) }
        ensures count { IfOk result (λ count. count ≡ min (length (bytes_of self.old.files name.now) - at) (min self.old.most (length buf.new))) }
        ensures progress { IfOk result (λ count. count ≡ 0 → (length buf.new ≡ 0) ⊎ (length (bytes_of self.old.files name.now) ≤ at)) }
        ensures front { IfOk result (λ count. take count buf.new ≡ take count (drop at (bytes_of self.old.files name.now))) }
        ensures rest { IfOk result (λ count. drop count buf.new ≡ drop count buf.old) }
        ensures given { OnOk result (self.new ≡ record self.old { fetches = after_call self.old.fetches false }) }
        ensures refused { OnErr result (self.new ≡ record self.old { fetches = after_call self.old.fetches true }) }
        ensures failed { OnErr result (Rose self.old.fetches.faults self.new.fetches.faults) }
    {
        if self.fetches.begin() {
            return Err(self.fetches.fault());
        }
        match store_of(&self.files, name) {
            Some(store) => Ok(store.copy_to(at, buf, self.most)),
            None => Err(self.fetches.fault()),
        }
    }

    fn append(&mut self, name: &str, bytes: &[u8]) -> Result<usize, Failed>
        ensures fails { IsErr result ↔ (IsToFail self.old.appends ⊎ (room_of self.old.rooms name.now < length bytes.now)) }
        ensures count { IfOk result (λ count. count ≡ min self.old.most (length bytes.now)) }
        ensures progress { IfOk result (λ count. count ≡ 0 → length bytes.now ≡ 0) }
        ensures taken { IfOk result (λ count. self.new ≡ record self.old {
          files = appended self.old.files name.now (take count bytes.now);
          rooms = lowered self.old.rooms name.now count;
          appends = after_call self.old.appends false;
        }) }
        ensures refused { OnErr result (self.new ≡ record self.old { appends = after_call self.old.appends true }) }
        ensures failed { OnErr result (Rose self.old.appends.faults self.new.appends.faults) }
    {
        let count = bytes.len().min(self.most as usize);
        if self.appends.begin() || !put(&mut self.files, name, bytes, count) {
            return Err(self.appends.fault());
        }
        Ok(count)
    }
}

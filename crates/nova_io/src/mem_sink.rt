// A sink in memory.
ghost use Rattle.std.specs.Prelude.{◌≡◌, ◌+◌, ◌-◌, ◌^◌, ◌<◌, ◌≤◌, ◌⊎◌, ◌↔◌, ◌++◌, [], Some, length, take, min, true, false, is_err, IsErr, IfOk, OnOk, OnErr, Contains};
ghost use Rattle.std.specs.Io.KnownBytes.{append_known};
ghost use Rattle.nova_io.specs.Faults.{Rose, raised};
ghost use Rattle.nova_io.specs.MemCalls.{SinkTook, SinkWriteFailed, IsToFail};
ghost use Rattle.nova_io.specs.Memory.{after_call};

use crate::calls::Calls;
use crate::faults::Failed;
use crate::sinks::Sink;
use crate::stores::Store;
use std::alloc::{AllocError, Global};
use std::marker::Model;

/// A sink that keeps what is written in memory.
///
/// A write takes the whole piece, but never more than `most` bytes, which is 2^64 - 1 at first. It is a fault if its
/// number is among those that are to fail, or if the piece, all of it, is longer than the room that is left. Writes are
/// numbered from 1.
#[derive(Drop)]
pub struct MemSink {
    store: Store,
    writes: Calls,
    most: u64,
}

impl Model for MemSink {
    ghost use Rattle.nova_io.specs.Memory.{SinkState};

    ghost Value = { SinkState };

    ghost view = { λ s. record { bytes = s.store.bytes; room = s.store.room; writes = s.writes; most = s.most } };

    ghost use Rattle.std.specs.Prelude.{◌≤◌};

    ghost invariant = { λ s. 1 ≤ s.most };
}

impl MemSink {
    /// An empty sink with room for `room` bytes, of whose writes those with the numbers `writes` are to fail. A write takes as many bytes as there
    /// are.
    pub fn new(alloc: Global, room: u64, writes: Vec<u64>) -> Result<MemSink, AllocError>
        ensures { IfOk result (λ sink. sink ≡ record {
          bytes = [];
          room = room;
          writes = record { made = 0; faults = 0; failing = writes.items };
          most = 2 ^ 64 - 1;
        }) }
    {
        Ok(MemSink {
            store: Store::new(Vec::new(alloc), room)?,
            writes: Calls::new(writes),
            most: u64::MAX,
        })
    }

    /// Bounds the bytes that a write takes from now on to `most`, at least 1.
    pub fn set_most(&mut self, most: u64)
        requires { 1 ≤ most }
        ensures { self.new ≡ record self.old { most = most } }
    {
        self.most = most;
    }

    /// The bytes that the sink has taken.
    pub fn bytes(&self) -> &[u8]
        ensures { result.now ≡ self.now.bytes }
    {
        self.store.bytes()
    }
}

impl Sink for MemSink {
    ghost written = { λ s. Some s.bytes };

    ghost faults = { λ s. s.writes.faults };

    ghost took = { SinkTook };

    ghost write_failed = { SinkWriteFailed };

    fn write(&mut self, bytes: &[u8]) -> Result<usize, Failed>
        ensures fails { IsErr result ↔ (IsToFail self.old.writes ⊎ (self.old.room < length bytes.now)) }
        ensures count { IfOk result (λ count. count ≡ min self.old.most (length bytes.now)) }
        ensures progress { IfOk result (λ count. count ≡ 0 → length bytes.now ≡ 0) }
        ensures taken { IfOk result (λ count. self.new ≡ record self.old {
          bytes = self.old.bytes ++ take count bytes.now;
          room = self.old.room - count;
          writes = after_call self.old.writes false;
        }) }
        ensures refused { OnErr result (self.new ≡ record self.old { writes = after_call self.old.writes true }) }
        ensures failed { OnErr result (Rose self.old.writes.faults self.new.writes.faults) }
    {
        let count = bytes.len().min(self.most as usize);
        if self.writes.begin() || !self.store.put(bytes, count) {
            return Err(self.writes.fault());
        }
        Ok(count)
    }
}

// A sink over the runtime's standard output.
ghost use Rattle.std.specs.Prelude.{◌≡◌, ◌≤◌, None, length, IfOk, OnOk, OnErr};
ghost use Rattle.nova_io.specs.Faults.{Rose, raised};

use crate::faults::Failed;
use crate::sinks::Sink;
use crate::streams::put_to;
use std::io;
use std::marker::Model;

/// The standard output of the runtime.
///
/// It tells no bytes. It counts its failed writes, up to the last value, and flushes each piece before it answers.
#[derive(Drop)]
pub struct StdSink<R> {
    rt: R,
    faults: u64,
}

impl<R> Model for StdSink<R> {
    ghost use Rattle.std.specs.Prelude.{ℕ};

    ghost Value = { ℕ };

    ghost view = { λ s. s.faults };
}

impl<R: Print> StdSink<R> {
    /// A sink that writes to the standard output of `rt`, with no failed write counted.
    pub fn new(rt: R) -> StdSink<R>
        ensures { result ≡ 0 }
    {
        StdSink { rt, faults: 0 }
    }
}

impl<R: Print> Sink for StdSink<R> {
    ghost written = { λ _. None };

    ghost faults = { λ s. s };

    ghost took = { λ before _ _ after. after ≡ before };

    ghost write_failed = { λ before _ after. after ≡ raised before };

    fn write(&mut self, bytes: &[u8]) -> Result<usize, Failed>
        ensures within { IfOk result (λ count. count ≤ length bytes.now) }
        ensures progress { IfOk result (λ count. count ≡ 0 → length bytes.now ≡ 0) }
        ensures taken { OnOk result (self.new ≡ self.old) }
        ensures refused { OnErr result (self.new ≡ raised self.old) }
        ensures failed { OnErr result (Rose self.old self.new) }
    {
        put_to(&mut io::writer(&self.rt), &mut self.faults, bytes)
    }
}

// Sinks over the runtime's standard output.
ghost use Rattle.std.specs.Prelude.{◌≡◌, OnOk};

use nova_io::{Failed, StdSink, write_all};
use std::fmt::Display;
use std::io::{self, PipeWriter, Read, Write};

/// A standard output that goes to a pipe, and takes three bytes at most of each write.
#[derive(Drop)]
struct Narrow(PipeWriter);

impl Print for Narrow {
    fn print<D: Display + Drop>(&self, _value: D) -> io::Result<()> {
        Err(io::Error::from(io::ErrorKind::Unsupported))
    }

    fn println<D: Display + Drop>(&self, _value: D) -> io::Result<()> {
        Err(io::Error::from(io::ErrorKind::Unsupported))
    }

    fn write_all(&self, _bytes: &[u8]) -> io::Result<()> {
        Err(io::Error::from(io::ErrorKind::Unsupported))
    }

    fn write_some(&self, bytes: &[u8]) -> io::Result<usize> {
        let mut out = &self.0;
        out.write(&bytes[..bytes.len().min(3)])
    }
}

/// Writes bytes. Where all are written, no fault is counted.
fn write<R: Print>(sink: &mut StdSink<R>, bytes: &[u8]) -> Result<(), Failed>
    ensures { OnOk result (sink.new ≡ sink.old) }
{
    write_all(sink, bytes)
}

#[test]
fn all_is_written_where_little_is_taken_at_a_time(rt: HostRuntime) {
    let (mut reader, writer) = io::pipe(&rt).expect(&rt, "a pipe");
    let narrow = Narrow(writer);
    let mut sink = StdSink::new(&narrow);
    for piece in ["a line ", "", "on standard output\n"] {
        write(&mut sink, piece.as_bytes()).expect(&rt, piece);
    }
    let mut buf = [0; 32];
    let count = reader.read(&mut buf).expect(&rt, "its bytes");
    assert!(rt; &buf[..count] == b"a line on standard output\n".as_slice());
}

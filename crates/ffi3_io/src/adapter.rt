//! Sources and sinks over std's readers and writers: the edge to the world outside.
ghost use Rattle.std.specs.Prelude.{◌≡◌, ◌<◌, ◌≤◌, [], None, Some, take, length, IfOk, OnOk, OnErr};
ghost use Rattle.std.specs.Io.Buffered.{writer_buffer, writer_contents};
ghost use Rattle.ffi3_io_spec.specs.Count.{next_count};
ghost use Rattle.std.specs.Io.KnownBytes.{Appends, Consumes, IsAtEnd, Keeps};
ghost use Rattle.ffi3_io.specs.Adapter.{ReaderGives};
ghost use Rattle.ffi3_io_spec.specs.Source.{Rose};

use crate::{Failed, Sink, Source};
use std::io::{BufWriter, Read, Write};
use std::marker::Model;

/// A source over a reader of std. It never tells what is left.
#[derive(Drop)]
pub struct ReadSource<R> {
    inner: R,
    count: u64,
}

impl<R> Model for ReadSource<R> {
    ghost use Rattle.ffi3_io.specs.Adapter.{AdapterState};

    ghost Value = { AdapterState R };

    ghost view = { λ s. record { inner = s.inner; faults = s.count } };
}

impl<R> ReadSource<R> {
    /// A source over this reader.
    pub fn new(inner: R) -> ReadSource<R>
        ensures inner { result.inner ≡ inner }
        ensures faults { result.faults ≡ 0 }
    {
        ReadSource { inner, count: 0 }
    }
}

impl<R: Read> Source for ReadSource<R> {
    ghost state = { λ s. record { left = None; faults = s.faults } };

    ghost read_gives = { λ s room given t. ReaderGives (R.remaining s.inner) room given (R.remaining t.inner) };

    /// One read of the reader. Each of its errors is a fault.
    fn read(&mut self, buf: &mut [u8]) -> Result<usize, Failed>
        ensures within { IfOk result (λ n. n ≤ length buf.old) }
        ensures same { OnOk result (self.new.faults ≡ self.old.faults) }
        ensures failed { OnErr result (Rose self.old.faults self.new.faults) }
        ensures never_falls { self.old.faults ≤ self.new.faults }
        ensures reads { IfOk result (λ n. Consumes (R.remaining self.old.inner) (R.remaining self.new.inner) (take n buf.new)) }
        ensures ends { IfOk result (λ n. n ≡ 0 → 0 < length buf.old → IsAtEnd (R.remaining self.new.inner)) }
        ensures kept { OnErr result (Keeps (R.remaining self.old.inner) (R.remaining self.new.inner)) }
        ensures gave { IfOk result (λ n. ReaderGives (R.remaining self.old.inner) (length buf.old) (Some (take n buf.new)) (R.remaining self.new.inner)) }
        ensures counted { OnErr result (self.new.faults ≡ next_count self.old.faults) }
    {
        match self.inner.read(buf) {
            Ok(n) => Ok(n),
            Err(_) => {
                self.count = self.count.saturating_add(1);
                Err(Failed)
            }
        }
    }
}

/// A sink over a writer of std. It never tells what it took.
#[derive(Drop)]
pub struct WriteSink<W> {
    inner: W,
    count: u64,
}

impl<W> Model for WriteSink<W> {
    ghost use Rattle.ffi3_io.specs.Adapter.{AdapterState};

    ghost Value = { AdapterState W };

    ghost view = { λ s. record { inner = s.inner; faults = s.count } };
}

impl<W> WriteSink<W> {
    /// A sink over this writer.
    pub fn new(inner: W) -> WriteSink<W>
        ensures inner { result.inner ≡ inner }
        ensures faults { result.faults ≡ 0 }
    {
        WriteSink { inner, count: 0 }
    }
}

impl<W: Write + Drop> WriteSink<BufWriter<W>> {
    /// Has the buffer written out to the writer behind it. A failure is a fault, as that of a write is.
    ///
    /// Nothing is held back where it does not fail. What was taken stays taken in either case.
    pub fn flush(&mut self) -> Result<(), Failed>
        ensures same { OnOk result (self.new.faults ≡ self.old.faults) }
        ensures failed { OnErr result (Rose self.old.faults self.new.faults) }
        ensures never_falls { self.old.faults ≤ self.new.faults }
        ensures counted { OnErr result (self.new.faults ≡ next_count self.old.faults) }
        ensures kept { Keeps (writer_contents W.contents self.old.inner) (writer_contents W.contents self.new.inner) }
        ensures empty { OnOk result (writer_buffer self.new.inner ≡ []) }
    {
        match self.inner.flush() {
            Ok(()) => Ok(()),
            Err(_) => {
                self.count = self.count.saturating_add(1);
                Err(Failed)
            }
        }
    }
}

impl<W: Write> Sink for WriteSink<W> {
    ghost state = { λ s. record { taken = None; faults = s.faults } };

    /// One write of the writer. Each of its errors is a fault, and so is that it takes nothing of a
    /// piece that is not empty.
    fn write(&mut self, bytes: &[u8]) -> Result<usize, Failed>
        ensures some { IfOk result (λ n. 0 < length bytes.now → 0 < n) }
        ensures within { IfOk result (λ n. n ≤ length bytes.now) }
        ensures same { OnOk result (self.new.faults ≡ self.old.faults) }
        ensures failed { OnErr result (Rose self.old.faults self.new.faults) }
        ensures never_falls { self.old.faults ≤ self.new.faults }
        ensures writes { IfOk result (λ n. Appends (W.contents self.old.inner) (W.contents self.new.inner) (take n bytes.now)) }
        ensures kept { OnErr result (Keeps (W.contents self.old.inner) (W.contents self.new.inner)) }
        ensures counted { OnErr result (self.new.faults ≡ next_count self.old.faults) }
    {
        match self.inner.write(bytes) {
            Ok(n) if n > 0 || bytes.is_empty() => Ok(n),
            _ => {
                self.count = self.count.saturating_add(1);
                Err(Failed)
            }
        }
    }
}

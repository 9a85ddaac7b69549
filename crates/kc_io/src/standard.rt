// The standard streams as sources and sinks, which tell nothing of what they hold.
ghost use Rattle.std.specs.Prelude.{◌≡◌, ℕ};

use crate::faults::FaultCount;
use crate::sinks::{OutFault, Sink};
use crate::sources::{ReadFailed, Source};
use std::alloc::Global;
use std::io::{Read, Write};

/// A reader of the running system as a source, such as the standard input. It tells no bytes.
///
/// Each error of the reader is a failure. After 2^64 - 1 failures the reader is asked no more, and the source is
/// at its end.
#[derive(Debug, Drop)]
pub struct StdSource<R> {
    reader: R,
    faults: FaultCount,
}

impl<R: Read> StdSource<R> {
    /// A source over a reader, as `rt.stdin().lock()`.
    pub fn new(reader: R) -> StdSource<R>
        ensures { ⟦<StdSource<R> as Source>⟧.faults result ≡ 0 }
    {
        StdSource {
            reader,
            faults: FaultCount::new(),
        }
    }

    /// How often a read failed.
    pub fn faults(&self) -> u64
        ensures { result ≡ ⟦<StdSource<R> as Source>⟧.faults self.now }
    {
        self.faults.count
    }
}

impl<R: Read> Source for StdSource<R> {
    ghost use Rattle.std.specs.Prelude.{None};

    ghost left = { λ _. None };

    ghost faults = { λ s. s.faults.count };

    fn read(&mut self, buf: &mut [u8]) -> Result<usize, ReadFailed> {
        if !self.faults.has_room() {
            return Ok(0);
        }
        match self.reader.read(buf) {
            Ok(count) => Ok(count),
            Err(_) => {
                self.faults.raise();
                Err(ReadFailed)
            }
        }
    }
}

/// A writer of the running system as a sink, such as the standard output or the standard error. It tells no bytes.
///
/// Each error of the writer is a failure, and so is a write that takes nothing. After 2^64 - 1 failures the writer
/// is asked no more, and each write answers want of memory.
#[derive(Debug, Drop)]
pub struct StdSink<W> {
    writer: W,
    faults: FaultCount,
}

impl<W: Write> StdSink<W> {
    /// A sink over a writer, as `rt.stdout()` or `rt.stderr()`.
    pub fn new(writer: W) -> StdSink<W>
        ensures { ⟦<StdSink<W> as Sink>⟧.faults result ≡ 0 }
    {
        StdSink {
            writer,
            faults: FaultCount::new(),
        }
    }

    /// How often a write failed.
    pub fn faults(&self) -> u64
        ensures { result ≡ ⟦<StdSink<W> as Sink>⟧.faults self.now }
    {
        self.faults.count
    }
}

impl<W: Write> Sink for StdSink<W> {
    ghost use Rattle.std.specs.Prelude.{None};

    ghost taken = { λ _. None };

    ghost faults = { λ s. s.faults.count };

    fn write(&mut self, _alloc: Global, bytes: &[u8]) -> Result<usize, OutFault> {
        if !self.faults.has_room() {
            return Err(OutFault::Memory);
        }
        match self.writer.write(bytes) {
            Ok(count) if count > 0 || bytes.is_empty() => Ok(count),
            _ => {
                self.faults.raise();
                Err(OutFault::Failed)
            }
        }
    }
}

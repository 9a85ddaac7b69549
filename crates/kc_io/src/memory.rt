// Sources and sinks in memory, which tell all that they hold.
ghost use Rattle.std.specs.Prelude.{◌≡◌, ℕ, ◌+◌, ◌≤◌, min, [], ◌++◌, length, take, drop, IfOk, OnOk, OnErr, IsTrue, IsErr, IsErrOf, ◌↔◌};
ghost use Rattle.kc_io.specs.Memory.{is_due, next_calls};

use crate::failing::FailingCalls;
use crate::sinks::{OutFault, Sink};
use crate::sources::{ReadFailed, Source};
use std::alloc::Global;
use std::marker::Model;

/// A sink that keeps what it takes.
#[derive(Debug, Drop)]
pub struct MemorySink {
    bytes: Vec<u8>,
    most: usize,
    calls: FailingCalls,
}

impl Model for MemorySink {
    ghost use Rattle.std.specs.Prelude.{◌≤◌};
    ghost use Rattle.kc_io.specs.Memory.{SinkInMemory};

    ghost Value = { SinkInMemory };

    ghost view = { λ s. record { taken = s.bytes.items; most = s.most; calls = s.calls } };

    ghost invariant = { λ s. 1 ≤ s.most };
}

impl MemorySink {
    /// A sink that takes at most `most` bytes in a call. The calls with the numbers `failing`, from 1, fail.
    pub fn new(alloc: Global, most: usize, failing: Vec<u64>) -> MemorySink
        requires { 1 ≤ most }
        ensures taken { result.taken ≡ [] }
        ensures most { result.most ≡ most }
        ensures calls { result.calls ≡ record { failing = failing.items; made = 0; failed = 0 } }
    {
        MemorySink {
            bytes: Vec::new(alloc),
            most,
            calls: FailingCalls::new(failing),
        }
    }

    /// The bytes taken.
    pub fn bytes(&self) -> &[u8]
        ensures { result.now ≡ self.now.taken }
    {
        &self.bytes
    }
}

impl Sink for MemorySink {
    ghost use Rattle.std.specs.Prelude.{Some};

    ghost taken = { λ s. Some s.taken };

    ghost faults = { λ s. s.calls.failed };

    fn write(&mut self, _alloc: Global, bytes: &[u8]) -> Result<usize, OutFault>
        ensures due { IsErrOf result OutFault.Failed ↔ IsTrue (is_due self.old.calls) }
        ensures count { IfOk result (λ n. n ≡ min self.old.most (length bytes.now)) }
        ensures ok { IfOk result (λ n. self.new.taken ≡ self.old.taken ++ take n bytes.now) }
        ensures err { OnErr result (self.new.taken ≡ self.old.taken) }
        ensures calls { self.new.calls ≡ next_calls self.old.calls }
        ensures most { self.new.most ≡ self.old.most }
        ensures some { 1 ≤ self.old.most }
    {
        if self.calls.count() {
            return Err(OutFault::Failed);
        }
        let count = bytes.len().min(self.most);
        match self.bytes.extend_from_slice(&bytes[..count]) {
            Ok(()) => Ok(count),
            Err(_) => Err(OutFault::Memory),
        }
    }
}

/// A source of given bytes.
#[derive(Debug, Drop)]
pub struct MemorySource {
    bytes: Vec<u8>,
    start: usize,
    most: usize,
    calls: FailingCalls,
}

impl Model for MemorySource {
    ghost use Rattle.std.specs.Prelude.{◌≤◌, drop, length};
    ghost use Rattle.kc_io.specs.Memory.{SourceInMemory};

    ghost Value = { SourceInMemory };

    ghost view = { λ s. record { left = drop s.start s.bytes.items; most = s.most; calls = s.calls } };

    ghost invariant = { λ s. (s.start ≤ length s.bytes.items) × (1 ≤ s.most) };
}

impl MemorySource {
    /// A source that gives at most `most` bytes in a call. The calls with the numbers `failing`, from 1, fail.
    pub fn new(bytes: Vec<u8>, most: usize, failing: Vec<u64>) -> MemorySource
        requires { 1 ≤ most }
        ensures left { result.left ≡ bytes.items }
        ensures most { result.most ≡ most }
        ensures calls { result.calls ≡ record { failing = failing.items; made = 0; failed = 0 } }
    {
        MemorySource {
            bytes,
            start: 0,
            most,
            calls: FailingCalls::new(failing),
        }
    }

    /// The bytes left.
    pub fn left(&self) -> &[u8]
        ensures { result.now ≡ self.now.left }
    {
        &self.bytes[self.start..]
    }
}

impl Source for MemorySource {
    ghost use Rattle.std.specs.Prelude.{Some};

    ghost left = { λ s. Some s.left };

    ghost faults = { λ s. s.calls.failed };

    fn read(&mut self, buf: &mut [u8]) -> Result<usize, ReadFailed>
        ensures due { IsErr result ↔ IsTrue (is_due self.old.calls) }
        ensures count { IfOk result (λ n. n ≡ min (min self.old.most (length buf.new)) (length self.old.left)) }
        ensures ok { IfOk result (λ n. self.old.left ≡ take n buf.new ++ self.new.left) }
        ensures err { OnErr result (self.new.left ≡ self.old.left) }
        ensures calls { self.new.calls ≡ next_calls self.old.calls }
        ensures most { self.new.most ≡ self.old.most }
        ensures some { 1 ≤ self.old.most }
    {
        if self.calls.count() {
            return Err(ReadFailed);
        }
        let left = &self.bytes[self.start..];
        let count = left.len().min(buf.len()).min(self.most);
        buf[..count].copy_from_slice(&left[..count]);
        self.start += count;
        Ok(count)
    }
}

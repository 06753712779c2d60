ghost use Rattle.std.specs.Prelude.{◌≡◌, ◌≤◌, ◌<◌, [], Some, drop, length, take, ◌++◌};

use crate::calls::Calls;
use crate::device::{Failed, Sink, Source};
use std::alloc::Global;
use wt_span::{List, front_of, rest_of};

/// Bytes that are read from the front, at most so many a call.
#[derive(Debug, Drop)]
struct Content {
    bytes: List<u8>,
    at: usize,
    most: usize,
    ghost within: { at ≤ length bytes },
    ghost some: { 0 < most },
}

impl Content {
    fn new(bytes: List<u8>, most: usize) -> Content
        requires { 0 < most }
        ensures { drop result.at result.bytes ≡ bytes }
    {
        Content { bytes, at: 0, most }
    }

    fn read(&mut self, into: &mut [u8]) -> usize
        requires { 0 < length into.old }
        ensures bound { result ≤ length into.new }
        ensures front { drop self.old.at self.old.bytes ≡ take result into.new ++ drop self.new.at self.new.bytes }
        ensures end { result ≡ 0 → drop self.new.at self.new.bytes ≡ [] }
    {
        let rest = rest_of(self.bytes.as_slice(), self.at);
        let count = rest.len().min(into.len()).min(self.most);
        into[..count].copy_from_slice(front_of(rest, count));
        self.at += count;
        count
    }
}

/// A source in memory, which gives at most `most` bytes a call and fails at the calls that `failing` numbers.
#[derive(Debug, Drop)]
pub struct MemSource {
    content: Content,
    calls: Calls,
}

impl MemSource {
    /// A source that has these bytes left. The first call has the number 1.
    pub fn new(left: List<u8>, most: usize, failing: List<u64>) -> MemSource
        requires { 0 < most }
        ensures left { ⟦<MemSource as Source>⟧.left result ≡ Some left }
        ensures faults { ⟦<MemSource as Source>⟧.fault_count result ≡ 0 }
    {
        MemSource {
            content: Content::new(left, most),
            calls: Calls::new(failing),
        }
    }
}

impl Source for MemSource {
    ghost left = { λ s. Some (drop s.content.at s.content.bytes) };

    ghost fault_count = { λ s. s.calls.faults };

    fn read(&mut self, into: &mut [u8]) -> Result<usize, Failed> {
        self.calls.begin()?;
        Ok(self.content.read(into))
    }

    fn faults(&self) -> u64 {
        self.calls.faults()
    }
}

/// A source in memory that never fails.
#[derive(Debug, Drop)]
pub struct NeverFailsSource {
    content: Content,
}

impl NeverFailsSource {
    /// A source that has these bytes left and gives at most `most` of them a call.
    pub fn new(left: List<u8>, most: usize) -> NeverFailsSource
        requires { 0 < most }
        ensures { ⟦<NeverFailsSource as Source>⟧.left result ≡ Some left }
    {
        NeverFailsSource {
            content: Content::new(left, most),
        }
    }
}

impl Source for NeverFailsSource {
    ghost left = { λ s. Some (drop s.content.at s.content.bytes) };

    ghost fault_count = { λ _. 0 };

    fn read(&mut self, into: &mut [u8]) -> Result<usize, Failed> {
        Ok(self.content.read(into))
    }

    fn faults(&self) -> u64 {
        0
    }
}

/// A sink in memory, which takes at most `most` bytes a call and fails at the calls that `failing` numbers.
/// Where it finds no memory for its own growth it fails too.
#[derive(Debug, Drop)]
pub struct MemSink {
    taken: Vec<u8>,
    most: usize,
    calls: Calls,
}

impl MemSink {
    /// A sink that has taken nothing. The first call has the number 1.
    pub fn new(alloc: Global, most: usize, failing: List<u64>) -> MemSink
        ensures taken { ⟦<MemSink as Sink>⟧.taken result ≡ Some [] }
        ensures faults { ⟦<MemSink as Sink>⟧.fault_count result ≡ 0 }
    {
        MemSink {
            taken: Vec::new(alloc),
            most,
            calls: Calls::new(failing),
        }
    }

    /// The bytes that it has taken.
    pub fn taken(&self) -> &[u8]
        ensures { ⟦<MemSink as Sink>⟧.taken self.now ≡ Some result.now }
    {
        self.taken.as_slice()
    }
}

impl Sink for MemSink {
    ghost taken = { λ s. Some s.taken.items };

    ghost fault_count = { λ s. s.calls.faults };

    fn write(&mut self, bytes: &[u8]) -> Result<usize, Failed> {
        self.calls.begin()?;
        let count = bytes.len().min(self.most);
        if self
            .taken
            .extend_from_slice(front_of(bytes, count))
            .is_err()
        {
            return Err(self.calls.fail());
        }
        if count == 0 && !bytes.is_empty() {
            self.calls.fail();
        }
        Ok(count)
    }

    fn faults(&self) -> u64 {
        self.calls.faults()
    }
}

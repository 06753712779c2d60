ghost use Rattle.std.specs.Prelude.{◌≡◌, ◌<◌, ◌≤◌, ℕ, max, List, [], ◌∷◌, ◌++◌, length, Option, option_map, IfOk, OnOk, OnErr};
ghost use Rattle.std.specs.Io.KnownBytes.{ReadConsumes, WriteAppends};

use std::alloc::Global;
use wt_span::List;

/// A device failed: its count of faults rose, or is at its last value, 2^64 - 1.
#[derive(Clone, Copy, Debug, PartialEq, Eq)]
pub struct Failed;

/// What a folder answers to a name.
#[derive(Debug, Drop)]
pub enum Fetched {
    /// The bytes of the page, cut to the number that was asked for.
    Found(List<u8>),
    /// The folder has no page of this name.
    Absent,
}

/// Why a folder gives no answer to a name.
#[derive(Clone, Copy, Debug, PartialEq, Eq)]
pub enum FetchRefusal {
    /// The folder failed, as [`Failed`] says.
    Failed,
    /// There was no memory for the answer.
    NoMemory,
}

/// Where bytes come from.
pub trait Source {
    ghost use Rattle.wt_devices.specs.Device.{ReadCause};

    // the bytes that it has left, where they can be named
    ghost left: { Self → Option (List ℕ) };

    // how often it has failed
    ghost fault_count: { Self → ℕ };

    /// Puts the next bytes at the front of `into` and answers how many. None are the end of the input.
    fn read(&mut self, into: &mut [u8]) -> Result<usize, Failed>
        requires { 0 < length into.old }
        ensures bound { IfOk result (λ n. n ≤ length into.new) }
        ensures bytes { ReadConsumes (left self.old) (left self.new) result into.new }
        ensures cause { ReadCause (fault_count self.old) (fault_count self.new) result };

    /// How often it has failed. The count stops at its last value.
    fn faults(&self) -> u64
        ensures { result ≡ fault_count self.now };
}

/// Where bytes go.
pub trait Sink {
    ghost use Rattle.wt_devices.specs.Device.{WriteCause};

    // the bytes that it has taken, where they can be named
    ghost taken: { Self → Option (List ℕ) };

    // how often it has failed
    ghost fault_count: { Self → ℕ };

    /// Takes the first bytes of `bytes` and answers how many. To take none of some bytes is a fault.
    fn write(&mut self, bytes: &[u8]) -> Result<usize, Failed>
        ensures bound { IfOk result (λ n. n ≤ length bytes.now) }
        ensures bytes { WriteAppends (taken self.old) (taken self.new) result bytes.now }
        ensures cause { WriteCause (fault_count self.old) (fault_count self.new) bytes.now result };

    /// How often it has failed. The count stops at its last value.
    fn faults(&self) -> u64
        ensures { result ≡ fault_count self.now };
}

/// Where pages lie under their full names.
pub trait Folder {
    ghost use Rattle.wt_devices.specs.Device.{Pages, Gives, IsAtMost, FetchCause};

    // its pages, where they can be named
    ghost pages: { Self → Option Pages };

    // the names that it has answered, in order, where they can be named
    ghost answered: { Self → Option (List (List ℕ)) };

    // the most bytes that a call asked for which it answered, where this can be named
    ghost most_asked: { Self → Option ℕ };

    // how often it has failed
    ghost fault_count: { Self → ℕ };

    /// The page of this full name, cut to its first `most` bytes.
    fn fetch(&mut self, alloc: Global, name: &str, most: u32) -> Result<Fetched, FetchRefusal>
        ensures bound { IfOk result (IsAtMost most) }
        ensures page { IfOk result (Gives (pages self.old) name.now most) }
        ensures kept { pages self.new ≡ pages self.old }
        ensures named { OnOk result (answered self.new ≡ option_map (λ names. names ++ name.now ∷ []) (answered self.old)) }
        ensures asked { OnOk result (most_asked self.new ≡ option_map (λ before. max before most) (most_asked self.old)) }
        ensures unnamed { OnErr result (answered self.new ≡ answered self.old) }
        ensures unasked { OnErr result (most_asked self.new ≡ most_asked self.old) }
        ensures cause { FetchCause (fault_count self.old) (fault_count self.new) result };

    /// How often it has failed. The count stops at its last value.
    fn faults(&self) -> u64
        ensures { result ≡ fault_count self.now };
}

ghost use Rattle.std.specs.Prelude.{◌≡◌, Some};

use wt_devices::{Failed, Source};
use wt_span::{front_of, rest_of};

/// A source over bytes of the caller, which never fails.
#[derive(Debug, Drop)]
pub struct BufferSource<'a> {
    left: &'a [u8],
}

impl<'a> BufferSource<'a> {
    /// A source that has these bytes left.
    pub fn new(left: &'a [u8]) -> BufferSource<'a>
        ensures { ⟦<BufferSource<'a> as Source>⟧.left result ≡ Some left.entry.now }
    {
        BufferSource { left }
    }
}

impl Source for BufferSource<'_> {
    ghost left = { λ s. Some s.left.now };

    ghost fault_count = { λ _. 0 };

    fn read(&mut self, into: &mut [u8]) -> Result<usize, Failed> {
        let count = self.left.len().min(into.len());
        into[..count].copy_from_slice(front_of(self.left, count));
        self.left = rest_of(self.left, count);
        Ok(count)
    }

    fn faults(&self) -> u64 {
        0
    }
}

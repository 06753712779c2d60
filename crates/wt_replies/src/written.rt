ghost use Rattle.std.specs.Prelude.{◌≡◌, [], Some};

use std::alloc::Global;
use wt_devices::{Failed, Sink};
use wt_span::List;

/// A sink that keeps what it takes. It fails where there is no memory for that.
#[derive(Debug, Drop)]
pub struct Written {
    pub bytes: List<u8>,
    faults: u64,
}

impl Written {
    /// A sink that has taken nothing.
    pub fn new(alloc: Global) -> Written
        ensures bytes { result.bytes ≡ [] }
        ensures faults { ⟦<Written as Sink>⟧.fault_count result ≡ 0 }
    {
        Written {
            bytes: List::new(alloc),
            faults: 0,
        }
    }
}

impl Sink for Written {
    ghost taken = { λ s. Some s.bytes };

    ghost fault_count = { λ s. s.faults };

    fn write(&mut self, bytes: &[u8]) -> Result<usize, Failed> {
        if self.bytes.extend_from_slice(bytes).is_err() {
            self.faults = self.faults.saturating_add(1);
            return Err(Failed);
        }
        Ok(bytes.len())
    }

    fn faults(&self) -> u64 {
        self.faults
    }
}

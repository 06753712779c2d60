ghost use Rattle.std.specs.Prelude.{◌≡◌, ◌≤◌, ◌^◌, ◌+◌, ◌-◌, ◌==◌, ℕ, min, is_err, OnOk, OnErr};
ghost use Rattle.std.specs.List.{list_any};

use crate::device::Failed;
use wt_span::List;

/// The calls of a device in memory: which of them fail, counted from 1, how many there were, and how many faults.
#[derive(Debug, Drop)]
pub struct Calls {
    failing: List<u64>,
    made: u64,
    faults: u64,
}

impl Calls {
    pub fn new(failing: List<u64>) -> Calls
        ensures made { result.made ≡ 0 }
        ensures faults { result.faults ≡ 0 }
        ensures failing { result.failing ≡ failing }
    {
        Calls {
            failing,
            made: 0,
            faults: 0,
        }
    }

    /// Counts one more fault.
    pub fn fail(&mut self) -> Failed
        ensures made { self.new.made ≡ self.old.made }
        ensures counted { self.new.faults ≡ min (self.old.faults + 1) (2 ^ 64 - 1) }
        ensures later { self.old.faults ≤ self.new.faults }
    {
        self.faults = self.faults.saturating_add(1);
        Failed
    }

    /// Counts one more call, which fails where its number is among the failing ones.
    pub fn begin(&mut self) -> Result<(), Failed>
        ensures when { is_err result ≡ list_any (λ number. number == min (self.old.made + 1) (2 ^ 64 - 1)) self.old.failing }
        ensures made { self.new.made ≡ min (self.old.made + 1) (2 ^ 64 - 1) }
        ensures kept { OnOk result (self.new.faults ≡ self.old.faults) }
        ensures counted { OnErr result (self.new.faults ≡ min (self.old.faults + 1) (2 ^ 64 - 1)) }
        ensures later { self.old.faults ≤ self.new.faults }
    {
        self.made = self.made.saturating_add(1);
        if self.failing.as_slice().contains(&self.made) {
            return Err(self.fail());
        }
        Ok(())
    }

    pub fn faults(&self) -> u64
        ensures { result ≡ self.now.faults }
    {
        self.faults
    }
}

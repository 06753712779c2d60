//! How many new pages are read back in one call.

ghost use Rattle.std.specs.Prelude.{◌≡◌, ◌<◌, ◌+◌};

use std::marker::Model;

/// How many new pages are read back in one call at most.
pub const MOST_READINGS: u8 = 3;

/// How many new pages were read back in a call so far.
#[derive(Drop)]
pub struct Readings {
    count: u8,
}

impl Model for Readings {
    ghost use Rattle.std.specs.Prelude.{ℕ};

    ghost Value = { ℕ };

    ghost view = { λ r. r.count };
}

impl Readings {
    /// None was read yet.
    pub fn none() -> Readings
        ensures { result ≡ 0 }
    {
        Readings { count: 0 }
    }

    /// Counts one more, where one may still be read.
    pub fn count(&mut self)
        requires { self.old < MOST_READINGS }
        ensures { self.new ≡ self.old + 1 }
    {
        self.count += 1;
    }
}

ghost use Rattle.std.specs.Prelude.{◌≡◌};

use std::marker::Model;

/// The number of a node (`mwN`); the body and new elements have the number 0.
#[derive(Clone, Copy, Debug, PartialEq, Eq)]
pub struct NodeNumber {
    number: u32,
}

impl Model for NodeNumber {
    ghost use Rattle.std.specs.Prelude.{ℕ, ◌<◌, ◌^◌};

    ghost Value = { ℕ };

    ghost view = { λ n. n.number };

    ghost inverse = { λ n. record { number = n } };

    ghost invariant = { λ n. n.number < 2 ^ 32 };
}

impl NodeNumber {
    /// The number of `mwN`, by N.
    pub fn new(number: u32) -> NodeNumber
        ensures { result ≡ number }
    {
        NodeNumber { number }
    }

    /// N of `mwN`.
    pub fn get(self) -> u32
        ensures { result ≡ self }
    {
        self.number
    }
}

ghost use Rattle.std.specs.Prelude.{◌≤◌};

use crate::finding::Kind;

/// A finding by its place, from `start` up to `end`. Findings are in the order of their starts, then of their
/// ends, then of their kinds.
#[derive(Clone, Copy, Debug, PartialEq, Eq, PartialOrd, Ord)]
pub struct BareFinding {
    pub start: u32,
    pub end: u32,
    pub kind: Kind,
    pub ghost ordered: { start ≤ end },
}

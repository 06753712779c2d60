ghost use Rattle.std.specs.Prelude.{◌≡◌, ◌+◌, ◌^◌, ◌<◌};
ghost use Rattle.wt_annotated.specs.Numbering.{number_of, next_after};

use crate::number::{next_after, number_of};
use wt_tree::Kind;

/// Where a pass over a tree is: the place of the next byte, and the number of the next node that
/// has one.
#[derive(Clone, Copy)]
pub struct Cursor {
    pub place: u32,
    pub next: u32,
}

impl Cursor {
    /// The number of a node of this kind that begins here; 0 where it has none.
    pub fn number(self, kind: Kind) -> u32
        ensures { result ≡ number_of kind self.next }
    {
        number_of(kind, self.next)
    }

    /// After so many bytes that a node of this kind begins with.
    pub fn after(self, kind: Kind, width: u32) -> Cursor
        requires place { self.place + width < 2 ^ 32 }
        requires number { next_after kind self.next < 2 ^ 32 }
        ensures place { result.place ≡ self.place + width }
        ensures number { result.next ≡ next_after kind self.next }
    {
        Cursor {
            place: self.place + width,
            next: next_after(kind, self.next),
        }
    }
}

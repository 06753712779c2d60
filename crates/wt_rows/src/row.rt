//! Rows in code: places among the pieces of a page.

ghost use Rattle.std.specs.Prelude.{◌≡◌};
ghost use Rattle.wt_span.specs.Items.{items};
ghost use Rattle.wt_rows.specs.Views.{slice, row_view};

use wt_lines::LineKind;
use wt_span::{Piece, front_of, rest_of};

/// The pieces between two places; one past the pieces is their end.
pub fn between<'p, 'a>(pieces: &'p [Piece<'a>], from: usize, to: usize) -> &'p [Piece<'a>]
    ensures { result.now ≡ slice from to pieces.entry.now }
{
    let end = to.min(pieces.len());
    let start = from.min(end);
    front_of(rest_of(pieces, start), end - start)
}

/// A row: what it is, and the places among the pieces of a page at which it begins, its lead ends,
/// its end begins, and this ends.
#[derive(Clone, Copy)]
pub struct RowAt {
    pub kind: LineKind,
    pub start: usize,
    pub from: usize,
    pub to: usize,
    pub end: usize,
}

impl RowAt {
    /// What comes before a block that begins here.
    pub fn lead<'p, 'a>(&self, pieces: &'p [Piece<'a>]) -> &'p [Piece<'a>]
        ensures { items result.now ≡ (row_view pieces.entry.now self.now).lead }
    {
        between(pieces, self.start, self.from)
    }

    /// The row itself.
    pub fn items<'p, 'a>(&self, pieces: &'p [Piece<'a>]) -> &'p [Piece<'a>]
        ensures { items result.now ≡ (row_view pieces.entry.now self.now).items }
    {
        between(pieces, self.from, self.to)
    }

    /// What ends it.
    pub fn ending<'p, 'a>(&self, pieces: &'p [Piece<'a>]) -> &'p [Piece<'a>]
        ensures { items result.now ≡ (row_view pieces.entry.now self.now).ending }
    {
        between(pieces, self.to, self.end)
    }
}

//! Lines and columns.

ghost use Rattle.std.specs.Prelude.{◌≡◌, ◌≤◌, ◌<◌, ◌+◌, ℕ, List, length};
ghost use Rattle.wt_span.specs.declared.limits.TheConstants.{PAGE_BYTES};
ghost use Rattle.wt_lint.specs.Cursors.{IsAt};

use std::cmp;
use wt_span::PAGE_BYTES;

/// A place of a page with its line, and the byte of that line, both from 1.
#[derive(Clone, Copy)]
pub struct Cursor {
    pub at: u32,
    pub line: u32,
    pub column: u32,
}

impl Cursor {
    /// The start of a page.
    pub fn first() -> Cursor
        ensures at { result.at ≡ 0 }
        ensures is { (page : List ℕ) → IsAt page result.at result }
    {
        Cursor {
            at: 0,
            line: 1,
            column: 1,
        }
    }

    /// The place after the next byte.
    fn stepped(self, page: &[u8]) -> Cursor
        requires room { length page.now ≤ PAGE_BYTES }
        requires is { IsAt page.now self.at self }
        requires within { self.at < length page.now }
        ensures at { result.at ≡ self.at + 1 }
        ensures is { IsAt page.now result.at result }
    {
        if page[self.at as usize] == b'\n' {
            Cursor {
                at: self.at + 1,
                line: self.line + 1,
                column: 1,
            }
        } else {
            Cursor {
                at: self.at + 1,
                line: self.line,
                column: self.column + 1,
            }
        }
    }

    /// A place that doesn't come before this one.
    fn counted(self, page: &[u8], place: u32) -> Cursor
        requires room { length page.now ≤ PAGE_BYTES }
        requires is { IsAt page.now self.at self }
        requires ahead { self.at ≤ place }
        requires within { place ≤ length page.now }
        ensures at { result.at ≡ place }
        ensures is { IsAt page.now result.at result }
    {
        let mut cursor = self;
        for _at in self.at..place {
            cursor = cursor.stepped(page);
        }
        cursor
    }

    /// A place, which counts as the end of the page where it comes after it. It is counted on from this
    /// one, or from the start where it comes before this one.
    pub fn moved(self, page: &[u8], place: u32) -> Cursor
        requires room { length page.now ≤ PAGE_BYTES }
        requires is { IsAt page.now self.at self }
        ensures own { IsAt page.now result.at result }
        ensures is { IsAt page.now place result }
    {
        let end = cmp::min(place, page.len() as u32);
        if self.at <= end {
            self.counted(page, end)
        } else {
            Cursor::first().counted(page, end)
        }
    }
}

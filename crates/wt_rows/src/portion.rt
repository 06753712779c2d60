//! Portions of a page: lines up to an empty one that is in no table. No block reaches over such
//! a line, so each portion is made to blocks by itself.

ghost use Rattle.std.specs.Prelude.{◌≡◌, ◌<◌, ◌++◌, All, List, true, false, length, IfOk};
ghost use Rattle.wt_span.specs.Items.{items};
ghost use Rattle.wt_span.specs.Origins.{IsSoundPiece};
ghost use Rattle.wt_page.specs.Rows.{Row, all_items, rows};
ghost use Rattle.wt_rows.specs.Building.{ArePageRows, made_rows};
ghost use Rattle.wt_rows.specs.Unread.{left};
ghost use Rattle.wt_rows.specs.Portions.{IsPortion, IsPortionOf, IsEnd, AreFirst};

use crate::rows::{PageRows, line_kind};
use crate::unread::Unread;
use std::alloc::Global;
use wt_span::{NoMemory, rest_of};
use wt_tables::behind;

/// The rows of lines that are read, how many tables are open after them, and what is not yet read.
#[derive(Drop)]
pub struct Portion<'p, 'a> {
    made: PageRows<'a>,
    tables: u32,
    rest: Unread<'p, 'a>,
}

impl<'p, 'a> Portion<'p, 'a> {
    /// A portion that begins here.
    fn begun(alloc: Global, rest: Unread<'p, 'a>) -> Portion<'p, 'a>
        requires { All IsSoundPiece (left rest) }
        ensures portion { IsPortion result }
        ensures all { IsPortionOf (rows (items (left rest.entry))) result }
        ensures rest { result.rest ≡ rest.entry }
    {
        Portion {
            made: PageRows::new(alloc),
            tables: 0,
            rest,
        }
    }

    /// One line more.
    fn with_line(self, alloc: Global) -> Result<Portion<'p, 'a>, NoMemory>
        requires portion { IsPortion self }
        requires some { 0 < length (left self.rest) }
        ensures portion_after { IfOk result (λ s. IsPortion s) }
        ensures all { IfOk result (λ s. (all : List Row) → IsPortionOf all self.entry → IsPortionOf all s) }
        ensures fewer { IfOk result (λ s. length (items (left s.rest)) < length (items (left self.entry.rest))) }
    {
        let Portion { made, tables, rest } = self;
        let PageRows { pieces, rows } = made;
        let start = pieces.len();
        let (pieces, after) = rest.push_line(pieces)?;
        let kind = line_kind(rest_of(pieces.as_slice(), start), tables);
        let page = PageRows { pieces, rows };
        let made = page.with_line_from(alloc, start, kind)?;
        Ok(Portion {
            made,
            tables: behind(tables, kind),
            rest: after,
        })
    }

    /// Whether the next line belongs to it.
    fn goes_on(&self) -> bool
        ensures some { result ≡ true → 0 < length (left self.now.rest) }
        ensures end { result ≡ false → IsEnd self.now }
    {
        if self.rest.is_empty() {
            return false;
        }
        if self.tables > 0 {
            return true;
        }
        !self.rest.begins_break()
    }
}

/// The rows of the first portion, and what is left after it.
pub fn next_portion<'p, 'a>(
    alloc: Global,
    rest: Unread<'p, 'a>,
) -> Result<(PageRows<'a>, Unread<'p, 'a>), NoMemory>
    requires sound { All IsSoundPiece (left rest) }
    requires some { 0 < length (left rest) }
    ensures first { IfOk result (λ r. AreFirst (made_rows r.0) (items (left rest.entry)) (items (left r.1))) }
    ensures kept { IfOk result (λ r. all_items (made_rows r.0) ++ items (left r.1) ≡ items (left rest.entry)) }
    ensures made { IfOk result (λ r. ArePageRows r.0) }
    ensures sound_after { IfOk result (λ r. All IsSoundPiece (left r.1)) }
    ensures fewer { IfOk result (λ r. length (items (left r.1)) < length (items (left rest.entry))) }
{
    let mut portion = Portion::begun(alloc, rest).with_line(alloc)?;
    while portion.goes_on() {
        portion = portion.with_line(alloc)?;
    }
    let Portion { made, tables, rest } = portion;
    let rows = made.with_ends(tables)?;
    Ok((rows, rest))
}

//! Groups of the rows in a table: a row that begins a caption, a row of the table or cells, and those
//! after it up to the next such row.

ghost use Rattle.std.specs.Prelude.{◌≡◌, ◌<◌, ◌≤◌, ◌+◌, List as ListOf, map, length, drop, IfOk};
ghost use Rattle.std.specs.List.{prefix_len};
ghost use Rattle.wt_span.specs.declared.form.Piece.{Piece as PieceOf};
ghost use Rattle.wt_tables.specs.Parts.{unit_kind, is_row, is_caption};
ghost use Rattle.wt_rows.specs.Ready.{AreReadyRows};
ghost use Rattle.wt_rows.specs.Units.{kind_at, unit_len, plain_count};
ghost use Rattle.wt_rows.specs.Groups.{group_rows, goes_on, captions_count};
ghost use Rattle.wt_rows.specs.GroupViews.{group_view, groups_view};

use crate::row::RowAt;
use crate::unit::{plain_len, unit_len};
use std::alloc::Global;
use wt_lines::LineKind;
use wt_span::{List, NoMemory, front_of, rest_of};

/// The rows from one place up to another.
#[derive(Clone, Copy)]
pub struct Group {
    from: usize,
    to: usize,
}

impl Group {
    /// The rows of the group.
    pub fn rows<'r>(&self, rows: &'r [RowAt]) -> &'r [RowAt]
        ensures view { result.now ≡ group_view rows.entry.now self.now }
        ensures ready { (ps : ListOf PieceOf) → AreReadyRows ps rows.entry.now → AreReadyRows ps result.now }
    {
        let to = self.to.min(rows.len());
        let from = self.from.min(to);
        front_of(rest_of(rows, from), to - from)
    }

    /// The kind of its first row.
    fn kind(&self, rows: &[RowAt]) -> LineKind
        ensures { result ≡ unit_kind kind_at (group_view rows.now self.now) }
    {
        match self.rows(rows).first() {
            Some(row) => row.kind,
            None => LineKind::Blank,
        }
    }

    /// Whether it begins a row of the table.
    pub fn is_row(&self, rows: &[RowAt]) -> bool
        ensures { result ≡ is_row (unit_kind kind_at (group_view rows.now self.now)) }
    {
        is_row(self.kind(rows))
    }

    /// Whether it is a caption.
    fn is_caption(&self, rows: &[RowAt]) -> bool
        ensures { result ≡ is_caption (unit_kind kind_at (group_view rows.now self.now)) }
    {
        is_caption(self.kind(rows))
    }
}

fn is_row(kind: LineKind) -> bool
    ensures { result ≡ is_row kind }
{
    matches!(kind, LineKind::Row)
}

fn is_caption(kind: LineKind) -> bool
    ensures { result ≡ is_caption kind }
{
    matches!(kind, LineKind::Caption)
}

/// How many rows the first group has.
fn group_len(rows: &[RowAt]) -> usize
    requires { 0 < length rows.now }
    ensures value { result ≡ unit_len (map kind_at rows.now) + plain_count 0 (drop (unit_len (map kind_at rows.now)) (map kind_at rows.now)) }
    ensures some { 0 < result }
    ensures within { result ≤ length rows.now }
{
    let n = unit_len(rows);
    n + plain_len(rest_of(rows, n))
}

/// The groups of rows.
pub fn groups(alloc: Global, rows: &[RowAt]) -> Result<List<Group>, NoMemory>
    ensures { IfOk result (λ l. groups_view rows.now l ≡ group_rows kind_at rows.now) }
{
    let mut out = List::new(alloc);
    let mut at = 0;
    while at < rows.len() {
        let to = at + group_len(rest_of(rows, at));
        out.push(Group { from: at, to })?;
        at = to;
    }
    Ok(out)
}

/// How many captions are first.
pub fn captions_len(rows: &[RowAt], groups: &[Group]) -> usize
    ensures value { result ≡ captions_count kind_at (groups_view rows.now groups.now) }
    ensures within { result ≤ length groups.now }
{
    for (i, group) in groups.iter().enumerate() {
        if !group.is_caption(rows) {
            return i;
        }
    }
    groups.len()
}

/// How many groups come before the first that begins a row of the table.
pub fn going_len(rows: &[RowAt], groups: &[Group]) -> usize
    ensures value { result ≡ prefix_len (goes_on kind_at) (groups_view rows.now groups.now) }
    ensures within { result ≤ length groups.now }
{
    for (i, group) in groups.iter().enumerate() {
        if group.is_row(rows) {
            return i;
        }
    }
    groups.len()
}

//! Tables, by groups of their rows, whose cells are read as blocks.

ghost use Rattle.std.specs.Prelude.{◌≡◌, ◌<◌, true, false, take, drop, length, IfOk};
ghost use Rattle.std.specs.List.{flat_map};
ghost use Rattle.wt_tables.specs.Extents.{is_open};
ghost use Rattle.wt_tables.specs.Parts.{unit_kind};
ghost use Rattle.wt_page.specs.Rows.{kind_of};
ghost use Rattle.wt_page.specs.Tables.{cell_stretches, table};
ghost use Rattle.wt_rows.specs.Ready.{AreReadyRows};
ghost use Rattle.wt_build.specs.Blocks.{reading_at};
ghost use Rattle.wt_rows.specs.Units.{kind_at};
ghost use Rattle.wt_rows.specs.Groups.{group_rows};
ghost use Rattle.wt_build.specs.RowGroups.{row_of_groups, rows_of_groups, body_of_groups, inside_groups};
ghost use Rattle.wt_build.specs.CellGroups.{groups_rows, FirstBegins, AllBegin, AreParts, StartsPart};
ghost use Rattle.wt_rows.specs.Views.{rows_view, stretches_view};

use crate::block::blocks;
use std::alloc::Global;
use wt_inline::NodeHead;
use wt_rows::{
    Group, RowAt, StretchAt, captions_len, enclosed, gaps, going_len, groups, opened_row,
    plain_len, row_cells, whole_table,
};
use wt_span::{List, NoMemory, Piece, front_of, rest_of};
use wt_tree::Kind;

/// How the rows of a cell are read, in which so many tables may be one inside the other.
#[cycle(tabling)]
fn read_rows<'a>(
    alloc: Global,
    pieces: &[Piece<'a>],
    rows: &[RowAt],
    depth: usize,
) -> Result<List<StretchAt<'a>>, NoMemory>
    requires { AreReadyRows pieces.now rows.now }
    ensures { IfOk result (λ l. stretches_view pieces.now l ≡ reading_at depth (rows_view pieces.now rows.now)) }
{
    if depth > 0 {
        return blocks(alloc, pieces, rows, depth - 1);
    }
    let found = gaps(alloc, pieces, rows)?;
    Ok(List::from_vec(found))
}

/// The cells, or the caption, of the first row, and the rows after it that belong to the last of
/// them.
#[cycle(tabling)]
fn cell_stretches<'a>(
    alloc: Global,
    pieces: &[Piece<'a>],
    rows: &[RowAt],
    caption: bool,
    depth: usize,
) -> Result<List<StretchAt<'a>>, NoMemory>
    requires ready { AreReadyRows pieces.now rows.now }
    requires sign { FirstBegins caption (rows_view pieces.now rows.now) }
    ensures { IfOk result (λ l. stretches_view pieces.now l ≡ cell_stretches (reading_at depth) caption (rows_view pieces.now rows.now)) }
{
    if rows.is_empty() {
        return Ok(List::new(alloc));
    }
    let inside = read_rows(alloc, pieces, rest_of(rows, 1), depth)?;
    row_cells(alloc, pieces, rows[0], caption, inside)
}

/// The cells, or the captions, of groups.
#[cycle(tabling)]
fn all_cells<'a>(
    alloc: Global,
    pieces: &[Piece<'a>],
    rows: &[RowAt],
    groups: &[Group],
    caption: bool,
    depth: usize,
) -> Result<List<StretchAt<'a>>, NoMemory>
    requires ready { AreReadyRows pieces.now rows.now }
    requires sign { AllBegin caption (groups_rows pieces.now rows.now groups.now) }
    ensures { IfOk result (λ l. stretches_view pieces.now l
        ≡ flat_map (cell_stretches (reading_at depth) caption) (groups_rows pieces.now rows.now groups.now)) }
{
    let mut out = Vec::new(alloc);
    for group in groups {
        let made = cell_stretches(alloc, pieces, group.rows(rows), caption, depth)?;
        let mut more = made.into_vec();
        out.append(&mut more)?;
    }
    Ok(List::from_vec(out))
}

/// A row of the table, of which the first group opens it or has cells.
#[cycle(tabling)]
fn table_row<'a>(
    alloc: Global,
    pieces: &[Piece<'a>],
    rows: &[RowAt],
    groups: &[Group],
    depth: usize,
) -> Result<List<StretchAt<'a>>, NoMemory>
    requires some { 0 < length groups.now }
    requires ready { AreReadyRows pieces.now rows.now }
    requires first { AreParts (groups_rows pieces.now rows.now (take 1 groups.now)) }
    requires others { AllBegin false (groups_rows pieces.now rows.now (drop 1 groups.now)) }
    ensures { IfOk result (λ l. stretches_view pieces.now l ≡ row_of_groups (reading_at depth) (groups_rows pieces.now rows.now groups.now)) }
{
    let first = groups[0];
    if first.is_row(rows) {
        let cells = all_cells(alloc, pieces, rows, rest_of(groups, 1), false, depth)?;
        return opened_row(alloc, pieces, first.rows(rows), cells);
    }
    let cells = all_cells(alloc, pieces, rows, groups, false, depth)?;
    enclosed(alloc, NodeHead::plain(Kind::Tr), pieces, cells)
}

/// The rows of the table.
#[cycle(tabling)]
fn all_rows<'a>(
    alloc: Global,
    pieces: &[Piece<'a>],
    rows: &[RowAt],
    groups: &[Group],
    depth: usize,
) -> Result<List<StretchAt<'a>>, NoMemory>
    requires ready { AreReadyRows pieces.now rows.now }
    requires parts { AreParts (groups_rows pieces.now rows.now groups.now) }
    ensures { IfOk result (λ l. stretches_view pieces.now l ≡ rows_of_groups (reading_at depth) (groups_rows pieces.now rows.now groups.now)) }
{
    let mut out = Vec::new(alloc);
    let mut at = 0;
    while at < groups.len() {
        let rest = rest_of(groups, at);
        let n = 1 + going_len(rows, rest_of(rest, 1));
        let made = table_row(alloc, pieces, rows, front_of(rest, n), depth)?;
        let mut more = made.into_vec();
        out.append(&mut more)?;
        at += n;
    }
    Ok(List::from_vec(out))
}

/// The body of a table, if it has rows.
#[cycle(tabling)]
fn body<'a>(
    alloc: Global,
    pieces: &[Piece<'a>],
    rows: &[RowAt],
    groups: &[Group],
    depth: usize,
) -> Result<List<StretchAt<'a>>, NoMemory>
    requires ready { AreReadyRows pieces.now rows.now }
    requires parts { AreParts (groups_rows pieces.now rows.now groups.now) }
    ensures { IfOk result (λ l. stretches_view pieces.now l ≡ body_of_groups (reading_at depth) (groups_rows pieces.now rows.now groups.now)) }
{
    if groups.is_empty() {
        return Ok(List::new(alloc));
    }
    let found = all_rows(alloc, pieces, rows, groups, depth)?;
    enclosed(alloc, NodeHead::plain(Kind::Tbody), pieces, found)
}

/// What is in a table after its open delimiter: captions, and rows.
#[cycle(tabling)]
fn inside<'a>(
    alloc: Global,
    pieces: &[Piece<'a>],
    rows: &[RowAt],
    depth: usize,
) -> Result<List<StretchAt<'a>>, NoMemory>
    requires ready { AreReadyRows pieces.now rows.now }
    requires part { StartsPart rows.now }
    ensures { IfOk result (λ l. stretches_view pieces.now l ≡ inside_groups (reading_at depth) (group_rows kind_of (rows_view pieces.now rows.now))) }
{
    let found = groups(alloc, rows)?;
    let parts = found.as_slice();
    let n = captions_len(rows, parts);
    let captions = all_cells(alloc, pieces, rows, front_of(parts, n), true, depth)?;
    let made = body(alloc, pieces, rows, rest_of(parts, n), depth)?;
    let mut out = captions.into_vec();
    let mut more = made.into_vec();
    out.append(&mut more)?;
    Ok(List::from_vec(out))
}

/// A table, from the row that opens it to the one that ends it.
#[cycle(tabling)]
pub fn table<'a>(
    alloc: Global,
    pieces: &[Piece<'a>],
    rows: &[RowAt],
    depth: usize,
) -> Result<List<StretchAt<'a>>, NoMemory>
    requires ready { AreReadyRows pieces.now rows.now }
    requires opens { is_open (unit_kind kind_at rows.now) ≡ true }
    ensures { IfOk result (λ l. stretches_view pieces.now l ≡ table (reading_at depth) (rows_view pieces.now rows.now)) }
{
    if rows.len() < 2 {
        let found = gaps(alloc, pieces, rows)?;
        return Ok(List::from_vec(found));
    }
    let last = rows.len() - 1;
    let behind = rest_of(rows, 1);
    let inner = front_of(behind, last - 1);
    let n = plain_len(inner);
    let parts = rest_of(inner, n);
    let held = inside(alloc, pieces, parts, depth)?;
    let front = front_of(rows, 1 + n);
    whole_table(alloc, pieces, front, held, rows[last])
}

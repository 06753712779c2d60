//! The delimiters of tables and of their rows, with the stray lines after them.

ghost use Rattle.std.specs.Prelude.{◌≡◌, ◌<◌, ◌≤◌, ◌+◌, ◌==◌, ◌∷◌, ◌++◌, true, All, codes, length, drop, IfOk};
ghost use Rattle.wt_span.specs.Bytes.{begins};
ghost use Rattle.wt_span.specs.Items.{items};
ghost use Rattle.wt_span.specs.Origins.{IsSoundPiece};
ghost use Rattle.wt_tree.specs.View.{attrs_of};
ghost use Rattle.wt_tables.specs.Cells.{table_attributes, row_attributes};
ghost use Rattle.wt_tables.specs.Parts.{is_blank_kind};
ghost use Rattle.wt_page.specs.Rows.{signs};
ghost use Rattle.wt_page.specs.Stretches.{gap};
ghost use Rattle.wt_page.specs.Tables.{is_blank_row, stray_len, gaps};
ghost use Rattle.wt_rows.specs.Ready.{AreReadyRows};
ghost use Rattle.wt_rows.specs.Delimiters.{IsJoined};
ghost use Rattle.wt_rows.specs.Views.{row_view, rows_view, stretches_view};

use crate::cuts::{cut, cut_with};
use crate::front::Front;
use crate::row::{RowAt, between};
use crate::stretch::{StretchAt, before};
use std::alloc::Global;
use wt_attributes::read_attributes;
use wt_lines::{LineKind, Signs};
use wt_page::content_len;
use wt_span::{List, NoMemory, Piece};
use wt_tree::Attr;

fn is_blank_kind(kind: LineKind) -> bool
    ensures { result ≡ is_blank_kind kind }
{
    matches!(kind, LineKind::Blank)
}

/// Whether pieces hold no items.
fn has_no_items(pieces: &[Piece<'_>]) -> bool
    ensures { result ≡ (length (items pieces.now) == 0) }
{
    Signs::of(pieces).is_empty()
}

/// A blank line, or an end that no line makes.
fn is_blank(pieces: &[Piece<'_>], row: &RowAt) -> bool
    ensures { result ≡ is_blank_row (row_view pieces.now row.now) }
{
    is_blank_kind(row.kind) || has_no_items(row.items(pieces))
}

/// How many rows there are up to the last one that isn't blank.
pub fn stray_len(pieces: &[Piece<'_>], rows: &[RowAt]) -> usize
    ensures value { result ≡ stray_len (rows_view pieces.now rows.now) }
    ensures within { result ≤ length rows.now }
{
    let mut end = rows.len();
    while end > 0 {
        if !is_blank(pieces, &rows[end - 1]) {
            return end;
        }
        end -= 1;
    }
    end
}

/// Rows that are read as gaps.
pub fn gaps<'a>(
    alloc: Global,
    pieces: &[Piece<'a>],
    rows: &[RowAt],
) -> Result<Vec<StretchAt<'a>>, NoMemory>
    requires { AreReadyRows pieces.now rows.now }
    ensures { IfOk result (λ l. stretches_view pieces.now l.items ≡ gaps (rows_view pieces.now rows.now)) }
{
    let mut out = Vec::new(alloc);
    for row in rows {
        out.push(StretchAt::Gap {
            from: row.start,
            to: row.end,
        })?;
    }
    Ok(out)
}

/// Rows joined to one from the first sign on: what comes before it, all lines to the last one's line
/// break, and this. Of no rows an empty one.
pub fn joined_row(pieces: &[Piece<'_>], rows: &[RowAt]) -> RowAt
    requires { AreReadyRows pieces.now rows.now }
    ensures { IsJoined (row_view pieces.now result) (rows_view pieces.now rows.now) }
{
    if rows.is_empty() {
        return RowAt {
            kind: LineKind::Blank,
            start: 0,
            from: 0,
            to: 0,
            end: 0,
        };
    }
    let first = rows[0];
    let last = rows[rows.len() - 1];
    let n = content_len(between(pieces, first.from, last.end));
    RowAt {
        kind: first.kind,
        start: first.start,
        from: first.from,
        to: first.from + n,
        end: last.end,
    }
}

/// The attributes of a table, by the line that opens it.
pub fn table_attrs(alloc: Global, line: &[Piece<'_>]) -> Result<List<Attr>, NoMemory>
    requires sound { All IsSoundPiece line.now }
    requires sign { begins (codes "{|") (signs (items line.now)) ≡ true }
    ensures { IfOk result (λ l. attrs_of l ≡ table_attributes (items line.now)) }
{
    let (_, rest) = cut(alloc, line, 2)?;
    read_attributes(alloc, rest.as_slice())
}

/// The attributes of a row of a table, by the line that opens it: after all `-` of its sign.
pub fn row_attrs(alloc: Global, line: &[Piece<'_>]) -> Result<List<Attr>, NoMemory>
    requires sound { All IsSoundPiece line.now }
    requires sign { begins (codes "|-") (signs (items line.now)) ≡ true }
    ensures { IfOk result (λ l. attrs_of l ≡ row_attributes (items line.now)) }
{
    let (_, rest) = cut_with(alloc, line, 1, Front::Dashes)?;
    read_attributes(alloc, rest.as_slice())
}

/// The line break of a delimiter's last line, the blank lines after it, and other stretches.
pub fn behind_delimiter<'a>(
    alloc: Global,
    pieces: &[Piece<'a>],
    delimiter: RowAt,
    blank: &[RowAt],
    others: List<StretchAt<'a>>,
) -> Result<List<StretchAt<'a>>, NoMemory>
    requires { AreReadyRows pieces.now blank.now }
    ensures { IfOk result (λ l. stretches_view pieces.now l
        ≡ gap (row_view pieces.now delimiter).ending ∷ (gaps (rows_view pieces.now blank.now) ++ stretches_view pieces.now others.entry)) }
{
    let mut found = gaps(alloc, pieces, blank)?;
    let mut more = others.into_vec();
    found.append(&mut more)?;
    let ending = StretchAt::Gap {
        from: delimiter.to,
        to: delimiter.end,
    };
    before(alloc, ending, List::from_vec(found))
}

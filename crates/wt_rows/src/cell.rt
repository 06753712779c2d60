//! Cells and captions, with what is on their line and what follows in them.

ghost use Rattle.std.specs.Prelude.{◌≡◌, ◌<◌, ◌^◌, [], ◌∷◌, length, All, map, IfOk};
ghost use Rattle.std.specs.List.{flat_map};
ghost use Rattle.wt_span.specs.Items.{items};
ghost use Rattle.wt_span.specs.Origins.{IsSoundPiece};
ghost use Rattle.wt_tables.specs.Cells.{cells_from};
ghost use Rattle.wt_tables.specs.CellViews.{cell_view};
ghost use Rattle.wt_page.specs.Tables.{cell_kind, cell_by, cells_by};
ghost use Rattle.wt_rows.specs.Ready.{BeginsCell, IsReadyCell};
ghost use Rattle.wt_page.specs.Rows.{signs};
ghost use Rattle.wt_page.specs.Stretches.{gap};
ghost use Rattle.wt_rows.specs.Views.{row_view, stretches_view};

use crate::row::{RowAt, between};
use crate::stretch::{StretchAt, before, opened_line};
use std::alloc::Global;
use wt_inline::NodeHead;
use wt_lines::Line;
use wt_span::{List, NoMemory, Piece};
use wt_tables::{CellAt, cells};
use wt_tree::Kind;

/// What a cell is: a caption, a header cell, or another.
fn cell_kind(caption: bool, header: bool) -> Kind
    ensures { result ≡ cell_kind caption header }
{
    if caption {
        Kind::Caption
    } else if header {
        Kind::Th
    } else {
        Kind::Td
    }
}

/// A cell: what is left of its line, and what follows.
fn cell_by<'a>(
    alloc: Global,
    caption: bool,
    cell: CellAt<'a>,
    pieces: &[Piece<'a>],
    after: List<StretchAt<'a>>,
) -> Result<List<StretchAt<'a>>, NoMemory>
    requires { IsReadyCell cell }
    ensures { IfOk result (λ l. stretches_view pieces.now l ≡ cell_by caption (cell_view cell.entry) (stretches_view pieces.now after.entry)) }
{
    let CellAt {
        header,
        opening,
        attrs,
        rest,
    } = cell;
    let head = NodeHead::with_attrs(alloc, cell_kind(caption, header), attrs)?;
    opened_line(alloc, head, opening, rest.pieces.as_slice(), pieces, after)
}

/// The cells before the last one of a line, each without more.
fn first_cells<'a>(
    alloc: Global,
    caption: bool,
    cells: Vec<CellAt<'a>>,
    pieces: &[Piece<'a>],
) -> Result<Vec<StretchAt<'a>>, NoMemory>
    requires { All IsReadyCell cells.items }
    ensures { IfOk result (λ l. stretches_view pieces.now l.items ≡ flat_map (λ c. cell_by caption (cell_view c) []) cells.entry.items) }
{
    let mut out = Vec::new(alloc);
    for cell in cells {
        let made = cell_by(alloc, caption, cell, pieces, List::new(alloc))?;
        let mut more = made.into_vec();
        out.append(&mut more)?;
    }
    Ok(out)
}

/// The cells of a line, of which the last one goes on with what follows.
pub fn cells_by<'a>(
    alloc: Global,
    caption: bool,
    cells: List<CellAt<'a>>,
    pieces: &[Piece<'a>],
    after: List<StretchAt<'a>>,
) -> Result<List<StretchAt<'a>>, NoMemory>
    requires { All IsReadyCell cells }
    ensures { IfOk result (λ l. stretches_view pieces.now l ≡ cells_by caption (map cell_view cells.entry) (stretches_view pieces.now after.entry)) }
{
    let mut others = cells.into_vec();
    let Some(last) = others.pop() else {
        return Ok(after);
    };
    let mut out = first_cells(alloc, caption, others, pieces)?;
    let made = cell_by(alloc, caption, last, pieces, after)?;
    let mut more = made.into_vec();
    out.append(&mut more)?;
    Ok(List::from_vec(out))
}

/// The cells of a line from its first sign on, of which the last one goes on with what follows.
pub fn line_cells<'a>(
    alloc: Global,
    caption: bool,
    line: &[Piece<'a>],
    pieces: &[Piece<'a>],
    after: List<StretchAt<'a>>,
) -> Result<List<StretchAt<'a>>, NoMemory>
    requires sound { All IsSoundPiece line.now }
    requires few { length (items line.now) < 2 ^ 32 }
    requires sign { BeginsCell caption (signs (items line.now)) }
    ensures { IfOk result (λ l. stretches_view pieces.now l ≡ cells_by caption (cells_from caption (items line.now)) (stretches_view pieces.now after.entry)) }
{
    let own = Vec::from_slice(alloc, line)?;
    let whole = Line {
        pieces: List::from_vec(own),
    };
    let cells = cells(alloc, whole, caption)?;
    cells_by(alloc, caption, cells, pieces, after)
}

/// The cells, or the caption, of a row, of which the last one goes on with what was read of the rows
/// after it.
pub fn row_cells<'a>(
    alloc: Global,
    pieces: &[Piece<'a>],
    row: RowAt,
    caption: bool,
    inside: List<StretchAt<'a>>,
) -> Result<List<StretchAt<'a>>, NoMemory>
    requires sound { All IsSoundPiece pieces.now }
    requires few { length (row_view pieces.now row).items < 2 ^ 32 }
    requires sign { BeginsCell caption (signs (row_view pieces.now row).items) }
    ensures { IfOk result (λ l. stretches_view pieces.now l
        ≡ gap (row_view pieces.now row).lead ∷ cells_by caption (cells_from caption (row_view pieces.now row).items)
        (gap (row_view pieces.now row).ending ∷ stretches_view pieces.now inside.entry)) }
{
    let line = between(pieces, row.from, row.to);
    let ending = StretchAt::Gap {
        from: row.to,
        to: row.end,
    };
    let after = before(alloc, ending, inside)?;
    let cells = line_cells(alloc, caption, line, pieces, after)?;
    let lead = StretchAt::Gap {
        from: row.start,
        to: row.from,
    };
    before(alloc, lead, cells)
}

//! Rows of tables, and tables, with the lines that open and end them.

ghost use Rattle.std.specs.Prelude.{◌≡◌, ◌<◌, true, codes, length, IfOk};
ghost use Rattle.wt_span.specs.Bytes.{begins};
ghost use Rattle.wt_span.specs.Items.{items};
ghost use Rattle.wt_tree.specs.View.{attrs_of};
ghost use Rattle.wt_tree.specs.declared.kind.Kind.TheVariants as node_kind;
ghost use Rattle.wt_inline.specs.ItemTree.{inner, forest};
ghost use Rattle.wt_inline.specs.View.{head_of, item_tree, item_trees};
ghost use Rattle.wt_page.specs.Rows.{signs};
ghost use Rattle.wt_page.specs.Tables.{with_attrs, first_items, row_by};
ghost use Rattle.wt_rows.specs.Ready.{AreReadyRows};
ghost use Rattle.wt_rows.specs.Delimiters.{table_nodes, table_with};
ghost use Rattle.wt_rows.specs.Views.{row_view, rows_view, stretches_view};

use crate::delimiter::{behind_delimiter, joined_row, row_attrs, stray_len, table_attrs};
use crate::row::{RowAt, between};
use crate::stretch::{StretchAt, before, opened_by, with_separators, with_stretches};
use std::alloc::Global;
use wt_inline::{Children, NodeHead, PieceTree};
use wt_span::{List, NoMemory, Piece, front_of, rest_of};
use wt_tree::{Attr, Kind};

/// A row of a table with the lines that open it, and its cells.
pub fn opened_row<'a>(
    alloc: Global,
    pieces: &[Piece<'a>],
    rows: &[RowAt],
    cells: List<StretchAt<'a>>,
) -> Result<List<StretchAt<'a>>, NoMemory>
    requires some { 0 < length rows.now }
    requires ready { AreReadyRows pieces.now rows.now }
    requires opens { begins (codes "|-") (signs (first_items (rows_view pieces.now rows.now))) ≡ true }
    ensures { IfOk result (λ l. stretches_view pieces.now l ≡ row_by (rows_view pieces.now rows.now) (stretches_view pieces.now cells.entry)) }
{
    let n = stray_len(pieces, rows);
    let delimiter = joined_row(pieces, front_of(rows, n));
    let after = behind_delimiter(alloc, pieces, delimiter, rest_of(rows, n), cells)?;
    let first = rows[0];
    let attrs = row_attrs(alloc, between(pieces, first.from, first.to))?;
    let own = Vec::from_slice(alloc, between(pieces, delimiter.from, delimiter.to))?;
    let head = NodeHead::with_attrs(alloc, Kind::Tr, attrs)?;
    let opening = List::from_vec(own);
    let node = opened_by(alloc, head, opening, Children::new(alloc), pieces, after)?;
    let lead = StretchAt::Gap {
        from: delimiter.start,
        to: delimiter.from,
    };
    before(alloc, lead, node)
}

/// The node of a table.
fn table_node<'a>(
    head: NodeHead<'a>,
    opening: List<Piece<'a>>,
    children: List<PieceTree<'a>>,
    closing: List<Piece<'a>>,
) -> PieceTree<'a>
    ensures { item_tree result ≡ inner (head_of head.entry) (items opening.entry) (forest (item_trees children.entry)) (items closing.entry) }
{
    PieceTree {
        head,
        opening,
        children,
        closing,
    }
}

/// A table by its delimiters and children.
fn table_tree<'a>(
    alloc: Global,
    attrs: List<Attr>,
    opening: &[Piece<'a>],
    children: List<PieceTree<'a>>,
    closing: &[Piece<'a>],
) -> Result<PieceTree<'a>, NoMemory>
    ensures { IfOk result (λ t. item_tree t ≡ inner (with_attrs node_kind.Table (attrs_of attrs))
        (items opening.now) (forest (item_trees children.entry)) (items closing.now)) }
{
    let head = NodeHead::with_attrs(alloc, Kind::Table, attrs)?;
    let first = Vec::from_slice(alloc, opening)?;
    let last = Vec::from_slice(alloc, closing)?;
    let tree = table_node(head, List::from_vec(first), children, List::from_vec(last));
    Ok(tree)
}

/// What a table holds: what comes after its open delimiter, and what comes before its end.
fn table_children<'a>(
    alloc: Global,
    pieces: &[Piece<'a>],
    delimiter: RowAt,
    blank: &[RowAt],
    inside: List<StretchAt<'a>>,
    end: RowAt,
) -> Result<List<PieceTree<'a>>, NoMemory>
    requires { AreReadyRows pieces.now blank.now }
    ensures { IfOk result (λ l. item_trees l
        ≡ table_nodes (row_view pieces.now delimiter) (rows_view pieces.now blank.now)
        (stretches_view pieces.now inside.entry) (row_view pieces.now end)) }
{
    let mut held = inside.into_vec();
    held.push(StretchAt::Gap {
        from: end.start,
        to: end.from,
    })?;
    let inner = List::from_vec(held);
    let after = behind_delimiter(alloc, pieces, delimiter, blank, inner)?;
    let made = with_stretches(alloc, Children::new(alloc), pieces, after)?;
    made.finish(alloc)
}

/// A table with the lines that open it, what comes after them, and the row that ends it.
pub fn whole_table<'a>(
    alloc: Global,
    pieces: &[Piece<'a>],
    rows: &[RowAt],
    inside: List<StretchAt<'a>>,
    end: RowAt,
) -> Result<List<StretchAt<'a>>, NoMemory>
    requires some { 0 < length rows.now }
    requires ready { AreReadyRows pieces.now rows.now }
    requires opens { begins (codes "{|") (signs (first_items (rows_view pieces.now rows.now))) ≡ true }
    ensures { IfOk result (λ l. stretches_view pieces.now l
        ≡ table_with (rows_view pieces.now rows.now) (stretches_view pieces.now inside.entry) (row_view pieces.now end)) }
{
    let n = stray_len(pieces, rows);
    let delimiter = joined_row(pieces, front_of(rows, n));
    let children = table_children(alloc, pieces, delimiter, rest_of(rows, n), inside, end)?;
    let first = rows[0];
    let attrs = table_attrs(alloc, between(pieces, first.from, first.to))?;
    let opening = between(pieces, delimiter.from, delimiter.to);
    let closing = between(pieces, end.from, end.to);
    let tree = table_tree(alloc, attrs, opening, children, closing)?;
    with_separators(alloc, tree, delimiter, end)
}

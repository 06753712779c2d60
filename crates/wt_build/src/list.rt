//! Lists, by the nest of their lines' prefixes.

ghost use Rattle.std.specs.Prelude.{◌≡◌, true, List as ListOf, IfOk};
ghost use Rattle.wt_span.specs.declared.form.Piece.{Piece as PieceOf};
ghost use Rattle.wt_blocks.specs.View.{list_tree, list_trees};
ghost use Rattle.wt_blocks.specs.ListTree.{forest};
ghost use Rattle.wt_page.specs.Lists.{list_kind, begins_at, row_at, list_stretches, all_lists, prefixes, lists};
ghost use Rattle.wt_rows.specs.Ready.{AreReadyRows};
ghost use Rattle.wt_build.specs.Blocks.{AreListRows};
ghost use Rattle.wt_build.specs.Nodes.{node_by};
ghost use Rattle.wt_rows.specs.Views.{row_view, rows_view, stretches_view};

use crate::item::{item_kind, line_item};
use std::alloc::Global;
use wt_blocks::{ListNode, nest_lists};
use wt_inline::NodeHead;
use wt_lines::LineKind;
use wt_rows::{RowAt, StretchAt, enclosed, prefix_of};
use wt_span::{List, NoMemory, Piece, Str};
use wt_tree::Kind;

/// What a list is by the sign of its first line.
fn list_kind(sign: char) -> Kind
    ensures { result ≡ list_kind sign }
{
    match sign {
        '*' => Kind::Ul,
        '#' => Kind::Ol,
        _ => Kind::Dl,
    }
}

/// The row of this number; past the rows one without items.
fn row_at(rows: &[RowAt], number: usize) -> RowAt
    ensures { (ps : ListOf PieceOf) → row_view ps result ≡ row_at (rows_view ps rows.now) number }
{
    match rows.get(number) {
        Some(row) => *row,
        None => RowAt {
            kind: LineKind::TableEnd,
            start: 0,
            from: 0,
            to: 0,
            end: 0,
        },
    }
}

/// The first of these nodes begins at this line.
fn begins_at(nodes: &[ListNode], line: usize) -> bool
    ensures { result ≡ begins_at line (forest (list_trees nodes.now)) }
{
    match nodes.first() {
        None => false,
        Some(node) => node.line == line,
    }
}

/// A list or an item by itself, without what is in it.
#[derive(Clone, Copy)]
struct ListHead {
    item: bool,
    /// The sign of its first line that makes it.
    sign: char,
    /// The number of its first line.
    line: usize,
    /// Whether a list in it begins at that line, so that the line isn't its own.
    inner: bool,
}

/// The stretches of an item that its line begins, or of one that has nothing of this line by itself,
/// with the lists in it.
fn item_stretches<'a>(
    alloc: Global,
    pieces: &[Piece<'a>],
    rows: &[RowAt],
    list: ListHead,
    inside: List<StretchAt<'a>>,
) -> Result<List<StretchAt<'a>>, NoMemory>
    requires { AreReadyRows pieces.now rows.now }
    ensures { IfOk result (λ l. stretches_view pieces.now l
        ≡ node_by (rows_view pieces.now rows.now) true list.sign list.line list.inner (stretches_view pieces.now inside.entry)) }
{
    if list.inner {
        let head = NodeHead::plain(item_kind(list.sign));
        return enclosed(alloc, head, pieces, inside);
    }
    line_item(alloc, pieces, row_at(rows, list.line), list.sign, inside)
}

/// The stretches of a node, with those inside it.
fn node_stretches<'a>(
    alloc: Global,
    pieces: &[Piece<'a>],
    rows: &[RowAt],
    list: ListHead,
    inside: List<StretchAt<'a>>,
) -> Result<List<StretchAt<'a>>, NoMemory>
    requires { AreReadyRows pieces.now rows.now }
    ensures { IfOk result (λ l. stretches_view pieces.now l
        ≡ node_by (rows_view pieces.now rows.now) list.item list.sign list.line list.inner (stretches_view pieces.now inside.entry)) }
{
    if list.item {
        return item_stretches(alloc, pieces, rows, list, inside);
    }
    let head = NodeHead::plain(list_kind(list.sign));
    enclosed(alloc, head, pieces, inside)
}

/// The stretches of lists.
#[cycle(listing)]
fn all_lists<'a>(
    alloc: Global,
    pieces: &[Piece<'a>],
    rows: &[RowAt],
    nodes: List<ListNode>,
) -> Result<List<StretchAt<'a>>, NoMemory>
    requires { AreReadyRows pieces.now rows.now }
    ensures { IfOk result (λ l. stretches_view pieces.now l ≡ all_lists (rows_view pieces.now rows.now) (forest (list_trees nodes))) }
{
    let mut out = Vec::new(alloc);
    for node in nodes.into_vec() {
        let made = list_stretches(alloc, pieces, rows, node)?;
        let mut more = made.into_vec();
        out.append(&mut more)?;
    }
    Ok(List::from_vec(out))
}

/// The stretches of a list, or of an item of one.
#[cycle(listing)]
fn list_stretches<'a>(
    alloc: Global,
    pieces: &[Piece<'a>],
    rows: &[RowAt],
    node: ListNode,
) -> Result<List<StretchAt<'a>>, NoMemory>
    requires { AreReadyRows pieces.now rows.now }
    ensures { IfOk result (λ l. stretches_view pieces.now l ≡ list_stretches (rows_view pieces.now rows.now) (list_tree node)) }
{
    let ListNode {
        item,
        sign,
        line,
        children,
    } = node;
    let list = ListHead {
        item,
        sign,
        line,
        inner: begins_at(children.as_slice(), line),
    };
    let inside = all_lists(alloc, pieces, rows, children)?;
    node_stretches(alloc, pieces, rows, list, inside)
}

/// The prefixes of rows.
fn prefixes(alloc: Global, pieces: &[Piece<'_>], rows: &[RowAt]) -> Result<List<Str>, NoMemory>
    ensures { IfOk result (λ l. l ≡ prefixes (rows_view pieces.now rows.now)) }
{
    let mut out = List::new(alloc);
    for row in rows {
        let prefix = prefix_of(alloc, row.items(pieces))?;
        out.push(prefix)?;
    }
    Ok(out)
}

/// The stretches of the lists that these rows are.
#[tactic(auto, unfolding(wt_page::specs::Lists::lists))]
pub fn lists<'a>(
    alloc: Global,
    pieces: &[Piece<'a>],
    rows: &[RowAt],
) -> Result<List<StretchAt<'a>>, NoMemory>
    requires ready { AreReadyRows pieces.now rows.now }
    requires listed { AreListRows rows.now }
    ensures { IfOk result (λ l. stretches_view pieces.now l ≡ lists (rows_view pieces.now rows.now)) }
{
    let prefixes = prefixes(alloc, pieces, rows)?;
    let nodes = nest_lists(alloc, &prefixes)?;
    all_lists(alloc, pieces, rows, nodes)
}

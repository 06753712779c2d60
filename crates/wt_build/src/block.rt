//! Rows, cut into blocks, and what the blocks give.

ghost use Rattle.std.specs.Prelude.{◌≡◌, ◌<◌, ◌≤◌, ◌^◌, ◌∷◌, [], All, length, take, IfOk};
ghost use Rattle.wt_span.specs.Items.{items, sources};
ghost use Rattle.wt_span.specs.Origins.{IsSoundPiece};
ghost use Rattle.wt_lines.specs.Pieces.{AllParted};
ghost use Rattle.wt_blocks.specs.Paragraphs.{is_text};
ghost use Rattle.wt_tables.specs.Extents.{is_open};
ghost use Rattle.wt_tables.specs.Parts.{unit_kind};
ghost use Rattle.wt_inline.specs.View.{item_tree};
ghost use Rattle.wt_inline.specs.Grown.{growth, Grows};
ghost use Rattle.wt_page.specs.Headings.{heading};
ghost use Rattle.wt_page.specs.Stretches.{stretches_parts};
ghost use Rattle.wt_page.specs.Tables.{Reading, gaps};
ghost use Rattle.wt_page.specs.Body.{is_list_line, is_pre_line, one_block, block_stretches, within};
ghost use Rattle.wt_rows.specs.Views.{row_view, rows_view, stretches_view};
ghost use Rattle.wt_rows.specs.Units.{kind_at};
ghost use Rattle.wt_rows.specs.Ready.{IsReadyRow, AreReadyRows};
ghost use Rattle.wt_build.specs.Blocks.{reading_at, joined_len, AreOneBlock, IsBlockLen, block_node, IsNodeKind};

use crate::list::lists;
use crate::table::table;
use crate::text::{paragraph, preformatted, rule_tree};
use std::alloc::Global;
use wt_inline::{Children, Loose, PieceTree};
use wt_lines::LineKind;
use wt_page::heading;
use wt_rows::{RowAt, StretchAt, between, unit_len, with_separators, with_stretches};
use wt_span::{List, NoMemory, Piece, front_of, rest_of};

fn is_text(kind: LineKind) -> bool
    ensures { result ≡ is_text kind }
{
    matches!(kind, LineKind::Text)
}

fn is_pre(kind: LineKind) -> bool
    ensures { result ≡ is_pre_line kind }
{
    matches!(kind, LineKind::Pre)
}

fn is_list(kind: LineKind) -> bool
    ensures { result ≡ is_list_line kind }
{
    matches!(kind, LineKind::List)
}

fn opens_table(kind: LineKind) -> bool
    ensures { result ≡ is_open kind }
{
    matches!(kind, LineKind::TableOpen)
}

/// Whether neighbouring rows of these kinds are in one block.
fn one_block(kind: LineKind, next: LineKind) -> bool
    ensures { result ≡ one_block kind next }
{
    is_text(kind) && is_text(next)
        || (is_pre(kind) && is_pre(next) || is_list(kind) && is_list(next))
}

/// How many of these rows make one block with a row of this kind before them.
fn joined_len(rows: &[RowAt], kind: LineKind) -> usize
    ensures value { result ≡ joined_len kind rows.now }
    ensures within { result ≤ length rows.now }
{
    for (i, row) in rows.iter().enumerate() {
        if !one_block(kind, row.kind) {
            return i;
        }
    }
    rows.len()
}

/// How many rows the first block has.
fn block_len(rows: &[RowAt]) -> usize
    requires { 0 < length rows.now }
    ensures cut { IsBlockLen rows.now result }
    ensures block { AreOneBlock (unit_kind kind_at rows.now) (take result rows.now) }
    ensures some { 0 < result }
    ensures within { result ≤ length rows.now }
{
    let kind = rows[0].kind;
    if opens_table(kind) {
        return unit_len(rows);
    }
    1 + joined_len(rest_of(rows, 1), kind)
}

/// A row as a gap.
fn gap_of<'a>(
    alloc: Global,
    pieces: &[Piece<'a>],
    row: RowAt,
) -> Result<List<StretchAt<'a>>, NoMemory>
    requires { IsReadyRow pieces.now row }
    ensures { IfOk result (λ l. stretches_view pieces.now l ≡ gaps (row_view pieces.now row ∷ [])) }
{
    let mut out = List::new(alloc);
    out.push(StretchAt::Gap {
        from: row.start,
        to: row.end,
    })?;
    Ok(out)
}

/// A heading, of its line from the first `=` on.
fn heading_tree<'a>(alloc: Global, line: &[Piece<'a>]) -> Result<PieceTree<'a>, NoMemory>
    requires sound { All IsSoundPiece line.now }
    requires parted { AllParted line.now }
    requires few { length (sources (items line.now)) < 2 ^ 32 }
    ensures { IfOk result (λ t. item_tree t ≡ heading (items line.now)) }
{
    heading(alloc, line)
}

/// The node of a block that is no list, no table and no blank line.
fn block_tree<'a>(
    alloc: Global,
    pieces: &[Piece<'a>],
    kind: LineKind,
    rows: &[RowAt],
) -> Result<PieceTree<'a>, NoMemory>
    requires ready { AreReadyRows pieces.now rows.now }
    requires block { AreOneBlock kind rows.now }
    ensures { IfOk result (λ t. item_tree t ≡ block_node kind (rows_view pieces.now rows.now)) }
{
    let first = rows[0];
    let line = between(pieces, first.from, first.to);
    match kind {
        LineKind::Heading => heading_tree(alloc, line),
        LineKind::Rule => rule_tree(alloc, line),
        LineKind::Pre => preformatted(alloc, pieces, rows),
        LineKind::Blank
        | LineKind::TableOpen
        | LineKind::TableEnd
        | LineKind::Caption
        | LineKind::Row
        | LineKind::Cell
        | LineKind::Header
        | LineKind::List
        | LineKind::Text => paragraph(alloc, pieces, rows),
    }
}

/// A block that is one node with separators round it.
fn node_block<'a>(
    alloc: Global,
    pieces: &[Piece<'a>],
    kind: LineKind,
    rows: &[RowAt],
) -> Result<List<StretchAt<'a>>, NoMemory>
    requires ready { AreReadyRows pieces.now rows.now }
    requires block { AreOneBlock kind rows.now }
    requires node { IsNodeKind kind }
    ensures { (read : Reading) → IfOk result (λ l. stretches_view pieces.now l ≡ block_stretches read kind (rows_view pieces.now rows.now)) }
{
    let tree = block_tree(alloc, pieces, kind, rows)?;
    with_separators(alloc, tree, rows[0], rows[rows.len() - 1])
}

/// What a block gives, in which so many tables may be one inside the other.
#[cycle(tabling)]
fn block<'a>(
    alloc: Global,
    pieces: &[Piece<'a>],
    kind: LineKind,
    rows: &[RowAt],
    depth: usize,
) -> Result<List<StretchAt<'a>>, NoMemory>
    requires ready { AreReadyRows pieces.now rows.now }
    requires block { AreOneBlock kind rows.now }
    ensures { IfOk result (λ l. stretches_view pieces.now l ≡ block_stretches (reading_at depth) kind (rows_view pieces.now rows.now)) }
{
    match kind {
        LineKind::Blank => gap_of(alloc, pieces, rows[0]),
        LineKind::TableOpen => table(alloc, pieces, rows, depth),
        LineKind::List => lists(alloc, pieces, rows),
        LineKind::TableEnd
        | LineKind::Caption
        | LineKind::Row
        | LineKind::Cell
        | LineKind::Header
        | LineKind::Heading
        | LineKind::Rule
        | LineKind::Pre
        | LineKind::Text => node_block(alloc, pieces, kind, rows),
    }
}

/// The blocks of rows, in which so many tables may be one inside the other.
#[cycle(tabling)]
pub fn blocks<'a>(
    alloc: Global,
    pieces: &[Piece<'a>],
    rows: &[RowAt],
    depth: usize,
) -> Result<List<StretchAt<'a>>, NoMemory>
    requires { AreReadyRows pieces.now rows.now }
    ensures { IfOk result (λ l. stretches_view pieces.now l ≡ within depth (rows_view pieces.now rows.now)) }
{
    let mut out = Vec::new(alloc);
    let mut at = 0;
    while at < rows.len() {
        let rest = rest_of(rows, at);
        let n = block_len(rest);
        let made = block(alloc, pieces, rest[0].kind, front_of(rest, n), depth)?;
        out.append(&mut made.into_vec())?;
        at += n;
    }
    Ok(List::from_vec(out))
}

/// The children of a body with a block that is one node, and the separators round it.
fn with_node_block<'a>(
    alloc: Global,
    children: Children<'a>,
    pieces: &[Piece<'a>],
    kind: LineKind,
    rows: &[RowAt],
) -> Result<Children<'a>, NoMemory>
    requires ready { AreReadyRows pieces.now rows.now }
    requires block { AreOneBlock kind rows.now }
    requires node { IsNodeKind kind }
    ensures { (read : Reading) → IfOk result (λ c. Grows (growth children.entry)
        (stretches_parts (block_stretches read kind (rows_view pieces.now rows.now))) (growth c)) }
{
    let first = rows[0];
    let last = rows[rows.len() - 1];
    let tree = block_tree(alloc, pieces, kind, rows)?;
    let before = children.with_pieces(alloc, Loose::Sep, first.lead(pieces))?;
    let behind = before.with_tree(alloc, tree)?;
    behind.with_pieces(alloc, Loose::Sep, last.ending(pieces))
}

/// The children of a body with a block, in which so many tables may be one inside the other.
fn with_block<'a>(
    alloc: Global,
    children: Children<'a>,
    pieces: &[Piece<'a>],
    kind: LineKind,
    rows: &[RowAt],
    depth: usize,
) -> Result<Children<'a>, NoMemory>
    requires ready { AreReadyRows pieces.now rows.now }
    requires block { AreOneBlock kind rows.now }
    ensures { IfOk result (λ c. Grows (growth children.entry)
        (stretches_parts (block_stretches (reading_at depth) kind (rows_view pieces.now rows.now))) (growth c)) }
{
    match kind {
        LineKind::Blank => {
            let row = rows[0];
            children.with_pieces(alloc, Loose::Sep, between(pieces, row.start, row.end))
        }
        LineKind::TableOpen | LineKind::List => {
            let made = block(alloc, pieces, kind, rows, depth)?;
            with_stretches(alloc, children, pieces, made)
        }
        LineKind::TableEnd
        | LineKind::Caption
        | LineKind::Row
        | LineKind::Cell
        | LineKind::Header
        | LineKind::Heading
        | LineKind::Rule
        | LineKind::Pre
        | LineKind::Text => with_node_block(alloc, children, pieces, kind, rows),
    }
}

/// The children of a body with the blocks of rows, in which so many tables may be one inside the
/// other.
pub fn with_blocks<'a>(
    alloc: Global,
    children: Children<'a>,
    pieces: &[Piece<'a>],
    rows: &[RowAt],
    depth: usize,
) -> Result<Children<'a>, NoMemory>
    requires { AreReadyRows pieces.now rows.now }
    ensures { IfOk result (λ c. Grows (growth children.entry) (stretches_parts (within depth (rows_view pieces.now rows.now))) (growth c)) }
{
    let mut children = children;
    let mut at = 0;
    while at < rows.len() {
        let rest = rest_of(rows, at);
        let n = block_len(rest);
        children = with_block(
            alloc,
            children,
            pieces,
            rest[0].kind,
            front_of(rest, n),
            depth,
        )?;
        at += n;
    }
    Ok(children)
}

//! Paragraphs, preformatted text and rules.

ghost use Rattle.std.specs.Prelude.{◌≡◌, ◌<◌, ◌^◌, [], ◌++◌, All, length, take, drop, IfOk};
ghost use Rattle.wt_span.specs.Items.{items};
ghost use Rattle.wt_span.specs.Origins.{IsSoundPiece};
ghost use Rattle.wt_inline.specs.ItemTree.{plain, leaf, inner, forest};
ghost use Rattle.wt_inline.specs.View.{item_tree, item_trees};
ghost use Rattle.wt_inline.specs.Grown.{growth, Grows};
ghost use Rattle.wt_inline.specs.declared.loose.Loose.TheVariants.{Text};
ghost use Rattle.wt_inline.specs.Parts.{parts, children};
ghost use Rattle.wt_context.specs.Line.{line_parts};
ghost use Rattle.wt_page.specs.Rows.{row_items};
ghost use Rattle.wt_page.specs.Texts.{later_line, later_pre, para, pre, rule};
ghost use Rattle.wt_rows.specs.Views.{row_view, rows_view};
ghost use Rattle.wt_build.specs.Blocks.{IsOrdered, IsSpaced, later_of, IsOf, AreOf, later_from};
ghost use Rattle.wt_rows.specs.Ready.{IsReadyRow, AreReadyRows};
ghost use Rattle.wt_build.specs.declared.text.TextKind.TheVariants as text_kind;

use std::alloc::Global;
use wt_context::with_line;
use wt_inline::{Children, Loose, NodeHead, PieceTree};
use wt_rows::{RowAt, between, cut};
use wt_span::{List, NoMemory, Piece};
use wt_tree::Kind;

/// A leaf that has nothing beside its kind.
fn plain_leaf<'a>(alloc: Global, kind: Kind, own: List<Piece<'a>>) -> PieceTree<'a>
    ensures { item_tree result ≡ leaf (plain kind) (items own.entry) }
{
    PieceTree {
        head: NodeHead::plain(kind),
        opening: own,
        children: List::new(alloc),
        closing: List::new(alloc),
    }
}

/// A node that has nothing beside its kind, its open delimiter and its children.
pub fn plain_node<'a>(
    alloc: Global,
    kind: Kind,
    opening: List<Piece<'a>>,
    children: List<PieceTree<'a>>,
) -> PieceTree<'a>
    ensures { item_tree result ≡ inner (plain kind) (items opening.entry) (forest (item_trees children.entry)) [] }
{
    PieceTree {
        head: NodeHead::plain(kind),
        opening,
        children,
        closing: List::new(alloc),
    }
}

/// The node of a rule, by its run of `-`.
#[tactic(auto, unfolding(wt_page::specs::Texts::rule))]
pub fn rule_tree<'a>(alloc: Global, run: &[Piece<'a>]) -> Result<PieceTree<'a>, NoMemory>
    ensures { IfOk result (λ t. item_tree t ≡ rule (items run.now)) }
{
    let own = List::from_vec(Vec::from_slice(alloc, run)?);
    Ok(plain_leaf(alloc, Kind::Rule, own))
}

/// The children of a paragraph with a later line.
fn with_later_line<'a>(
    alloc: Global,
    children: Children<'a>,
    pieces: &[Piece<'a>],
    row: &RowAt,
) -> Result<Children<'a>, NoMemory>
    requires sound { All IsSoundPiece pieces.now }
    requires few { length (row_items (row_view pieces.now row.now)) < 2 ^ 32 }
    requires order { IsOrdered row.now }
    ensures { IfOk result (λ c. Grows (growth children.entry) (later_line (row_view pieces.now row.now)) (growth c)) }
{
    with_line(alloc, children, between(pieces, row.start, row.to))
}

/// The children of preformatted text with a later line, whose space is a leaf by itself.
fn with_later_pre<'a>(
    alloc: Global,
    children: Children<'a>,
    pieces: &[Piece<'a>],
    row: &RowAt,
) -> Result<Children<'a>, NoMemory>
    requires sound { All IsSoundPiece pieces.now }
    requires few { length (row_items (row_view pieces.now row.now)) < 2 ^ 32 }
    requires spaced { IsSpaced (row_view pieces.now row.now) }
    ensures { IfOk result (λ c. Grows (growth children.entry) (later_pre (row_view pieces.now row.now)) (growth c)) }
{
    let line = between(pieces, row.from, row.to);
    let lead = between(pieces, row.start, row.from);
    let (space, rest) = cut(alloc, line, 1)?;
    let before = children.with_pieces(alloc, Loose::Text, lead)?;
    let behind = before.with_tree(alloc, plain_leaf(alloc, Kind::Skip, space))?;
    with_line(alloc, behind, rest.as_slice())
}

/// What lines of text make.
#[derive(Clone, Copy)]
pub enum TextKind {
    Para,
    Pre,
}

/// The children of a block with a line after another one, whose end is text.
fn with_next<'a>(
    alloc: Global,
    children: Children<'a>,
    pieces: &[Piece<'a>],
    kind: TextKind,
    before: &RowAt,
    row: &RowAt,
) -> Result<Children<'a>, NoMemory>
    requires sound { All IsSoundPiece pieces.now }
    requires few { length (row_items (row_view pieces.now row.now)) < 2 ^ 32 }
    requires ready { IsReadyRow pieces.now row.now }
    requires kind { IsOf kind row.now }
    ensures { IfOk result (λ c. Grows (growth children.entry)
        (parts Text (row_view pieces.now before.now).ending ++ later_of kind (row_view pieces.now row.now)) (growth c)) }
{
    let children = children.with_pieces(alloc, Loose::Text, before.ending(pieces))?;
    match kind {
        TextKind::Para => with_later_line(alloc, children, pieces, row),
        TextKind::Pre => with_later_pre(alloc, children, pieces, row),
    }
}

/// The children of a block, of whose rows the first is read, with what the later ones hold.
fn with_later_rows<'a>(
    alloc: Global,
    children: Children<'a>,
    pieces: &[Piece<'a>],
    kind: TextKind,
    rows: &[RowAt],
) -> Result<Children<'a>, NoMemory>
    requires some { 0 < length rows.now }
    requires ready { AreReadyRows pieces.now rows.now }
    requires kind { AreOf kind rows.now }
    ensures { IfOk result (λ c. Grows (growth children.entry) (later_from kind (rows_view pieces.now rows.now)) (growth c)) }
{
    let mut children = children;
    let mut at = 1;
    while at < rows.len() {
        children = with_next(alloc, children, pieces, kind, &rows[at - 1], &rows[at])?;
        at += 1;
    }
    Ok(children)
}

/// The children of a block: what this holds of its first line, and what its later rows hold.
fn text_children<'a>(
    alloc: Global,
    content: &[Piece<'a>],
    pieces: &[Piece<'a>],
    kind: TextKind,
    rows: &[RowAt],
) -> Result<List<PieceTree<'a>>, NoMemory>
    requires sound { All IsSoundPiece content.now }
    requires few { length (items content.now) < 2 ^ 32 }
    requires some { 0 < length rows.now }
    requires ready { AreReadyRows pieces.now rows.now }
    requires kind { AreOf kind rows.now }
    ensures { IfOk result (λ l. item_trees l ≡ children (line_parts (items content.now) ++ later_from kind (rows_view pieces.now rows.now))) }
{
    let first = with_line(alloc, Children::new(alloc), content)?;
    let all = with_later_rows(alloc, first, pieces, kind, rows)?;
    all.finish(alloc)
}

/// A paragraph.
pub fn paragraph<'a>(
    alloc: Global,
    pieces: &[Piece<'a>],
    rows: &[RowAt],
) -> Result<PieceTree<'a>, NoMemory>
    requires some { 0 < length rows.now }
    requires ready { AreReadyRows pieces.now rows.now }
    ensures { IfOk result (λ t. item_tree t ≡ para (rows_view pieces.now rows.now)) }
{
    let first = rows[0];
    let content = between(pieces, first.from, first.to);
    let children = text_children(alloc, content, pieces, TextKind::Para, rows)?;
    Ok(plain_node(alloc, Kind::Para, List::new(alloc), children))
}

/// Preformatted text, whose first space is its open delimiter.
pub fn preformatted<'a>(
    alloc: Global,
    pieces: &[Piece<'a>],
    rows: &[RowAt],
) -> Result<PieceTree<'a>, NoMemory>
    requires some { 0 < length rows.now }
    requires ready { AreReadyRows pieces.now rows.now }
    requires kind { AreOf text_kind.Pre rows.now }
    ensures { IfOk result (λ t. item_tree t ≡ pre (rows_view pieces.now rows.now)) }
{
    let first = rows[0];
    let content = between(pieces, first.from, first.to);
    let (opening, rest) = cut(alloc, content, 1)?;
    let children = text_children(alloc, rest.as_slice(), pieces, TextKind::Pre, rows)?;
    Ok(plain_node(alloc, Kind::Pre, opening, children))
}

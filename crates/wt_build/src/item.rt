//! The innermost item that a line of a list begins.

ghost use Rattle.std.specs.Prelude.{◌≡◌, ◌<◌, ◌==◌, ◌^◌, [], true, false, Some, All, length, IfOk, drop, take};
ghost use Rattle.wt_span.specs.Items.{items};
ghost use Rattle.wt_span.specs.Origins.{IsSoundPiece};
ghost use Rattle.wt_span.specs.Characters as byte;
ghost use Rattle.wt_inline.specs.ItemTree.{plain, inner, forest};
ghost use Rattle.wt_inline.specs.Parts.{children};
ghost use Rattle.wt_inline.specs.View.{item_tree};
ghost use Rattle.wt_context.specs.Line.{line_parts};
ghost use Rattle.wt_page.specs.Lists.{item_opening_len, item_kind, item_by, term_len, term, line_item};
ghost use Rattle.wt_rows.specs.Views.{row_view, stretches_view, IsBetween};

use crate::colon::term_len;
use crate::text::plain_node;
use std::alloc::Global;
use wt_context::{line_children, with_line};
use wt_inline::{Children, NodeHead, PieceTree};
use wt_rows::{
    Front, RowAt, StretchAt, before, between, cut, cut_with, opened_line, prefix_of,
    with_separators,
};
use wt_span::{List, NoMemory, Piece};
use wt_tree::Kind;

/// What an item is by its sign.
pub fn item_kind(sign: char) -> Kind
    ensures { result ≡ item_kind sign }
{
    match sign {
        ';' => Kind::Dt,
        ':' => Kind::Dd,
        _ => Kind::Li,
    }
}

/// The open delimiter of an item, which is the prefix of its line and the blanks after; and the rest
/// of the line.
fn cut_opening<'a>(
    alloc: Global,
    line: &[Piece<'a>],
) -> Result<(List<Piece<'a>>, List<Piece<'a>>), NoMemory>
    requires { All IsSoundPiece line.now }
    ensures front { IfOk result (λ r. items r.0 ≡ take (item_opening_len (items line.now)) (items line.now)) }
    ensures back { IfOk result (λ r. items r.1 ≡ drop (item_opening_len (items line.now)) (items line.now)) }
    ensures sound { IfOk result (λ r. All IsSoundPiece r.1) }
{
    let prefix = prefix_of(alloc, line)?;
    cut_with(alloc, line, prefix.as_str().len(), Front::Blanks)
}

/// A term, which ends at its `:`.
#[tactic(auto, unfolding(wt_context::specs::Line::line_trees))]
fn term<'a>(
    alloc: Global,
    opening: List<Piece<'a>>,
    line: &[Piece<'a>],
) -> Result<PieceTree<'a>, NoMemory>
    requires sound { All IsSoundPiece line.now }
    requires few { length (items line.now) < 2 ^ 32 }
    ensures { IfOk result (λ t. item_tree t ≡ term (items opening.entry) (items line.now)) }
{
    let children = line_children(alloc, line)?;
    Ok(PieceTree {
        head: NodeHead::plain(Kind::Dt),
        opening,
        children,
        closing: List::new(alloc),
    })
}

/// A term and the definition after it, which holds what follows.
fn term_and_definition<'a>(
    alloc: Global,
    n: usize,
    opening: List<Piece<'a>>,
    line: &[Piece<'a>],
    pieces: &[Piece<'a>],
    after: List<StretchAt<'a>>,
) -> Result<List<StretchAt<'a>>, NoMemory>
    requires sound { All IsSoundPiece line.now }
    requires few { length (items line.now) < 2 ^ 32 }
    requires colon { term_len 59 (items line.now) ≡ Some n }
    ensures { IfOk result (λ l. stretches_view pieces.now l
        ≡ item_by 59 (Some n) (items opening.entry) (items line.now) (stretches_view pieces.now after.entry)) }
{
    let (front, rest) = cut(alloc, line, n)?;
    let term = term(alloc, opening, front.as_slice())?;
    let node = Box::new(alloc, term)?;
    let (colon, content) = cut_with(alloc, rest.as_slice(), 1, Front::Blanks)?;
    let head = NodeHead::plain(Kind::Dd);
    let definition = opened_line(alloc, head, colon, content.as_slice(), pieces, after)?;
    before(alloc, StretchAt::Tree(node), definition)
}

/// An item with what is on its line after the open delimiter, and with what follows in it.
fn item_by<'a>(
    alloc: Global,
    sign: char,
    opening: List<Piece<'a>>,
    line: &[Piece<'a>],
    pieces: &[Piece<'a>],
    after: List<StretchAt<'a>>,
) -> Result<List<StretchAt<'a>>, NoMemory>
    requires sound { All IsSoundPiece line.now }
    requires few { length (items line.now) < 2 ^ 32 }
    ensures { IfOk result (λ l. stretches_view pieces.now l
        ≡ item_by sign (term_len sign (items line.now)) (items opening.entry) (items line.now) (stretches_view pieces.now after.entry)) }
{
    match term_len(alloc, sign, line)? {
        None => {
            let head = NodeHead::plain(item_kind(sign));
            opened_line(alloc, head, opening, line, pieces, after)
        }
        Some(n) => term_and_definition(alloc, n, opening, line, pieces, after),
    }
}

/// Whether an item holds nothing but what is on its line, in which no `:` is looked for.
fn is_plain(sign: char, inside: &[StretchAt<'_>]) -> bool
    ensures none { result ≡ true → inside.now ≡ [] }
    ensures no_term { result ≡ true → (sign == byte.semicolon) ≡ false }
{
    inside.is_empty() && sign != ';'
}

/// An item with an open delimiter that holds nothing but what is on its line.
fn plain_item<'a>(
    alloc: Global,
    row: RowAt,
    sign: char,
    opening: List<Piece<'a>>,
    line: &[Piece<'a>],
) -> Result<List<StretchAt<'a>>, NoMemory>
    requires sound { All IsSoundPiece line.now }
    requires few { length (items line.now) < 2 ^ 32 }
    ensures { IfOk result (λ l. IsBetween (inner (plain (item_kind sign)) (items opening.entry) (forest (children (line_parts (items line.now)))) []) row row l) }
{
    let children = with_line(alloc, Children::new(alloc), line)?;
    let nodes = children.finish(alloc)?;
    let node = plain_node(alloc, item_kind(sign), opening, nodes);
    with_separators(alloc, node, row, row)
}

/// The innermost item that a line begins, with these lists in it.
#[tactic(auto, unfolding(wt_page::specs::Lists::line_item))]
pub fn line_item<'a>(
    alloc: Global,
    pieces: &[Piece<'a>],
    row: RowAt,
    sign: char,
    inside: List<StretchAt<'a>>,
) -> Result<List<StretchAt<'a>>, NoMemory>
    requires sound { All IsSoundPiece pieces.now }
    requires few { length (row_view pieces.now row).items < 2 ^ 32 }
    ensures { IfOk result (λ l. stretches_view pieces.now l ≡ line_item sign (row_view pieces.now row) (stretches_view pieces.now inside.entry)) }
{
    let line = between(pieces, row.from, row.to);
    let (opening, rest) = cut_opening(alloc, line)?;
    if is_plain(sign, inside.as_slice()) {
        return plain_item(alloc, row, sign, opening, rest.as_slice());
    }
    let ending = StretchAt::Gap {
        from: row.to,
        to: row.end,
    };
    let after = before(alloc, ending, inside)?;
    let item = item_by(alloc, sign, opening, rest.as_slice(), pieces, after)?;
    let lead = StretchAt::Gap {
        from: row.start,
        to: row.from,
    };
    before(alloc, lead, item)
}

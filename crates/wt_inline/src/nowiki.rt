ghost use Rattle.std.specs.Prelude.{◌≡◌, IfOk, map};
ghost use Rattle.wt_span.specs.Slice.{bytes_of};
ghost use Rattle.wt_span.specs.Items.{items, items_of, char, call_of_origin};
ghost use Rattle.wt_inline.specs.Inside.{inside_items};
ghost use Rattle.wt_inline.specs.Parts.{form_head, inside_part, children, nowiki};
ghost use Rattle.wt_inline.specs.ItemTree.{leaf};
ghost use Rattle.wt_inline.specs.Grown.{growth, Grows};
ghost use Rattle.wt_inline.specs.View.{item_tree, item_trees};

use crate::carried::form_head;
use crate::children::Children;
use crate::inside::split_inside;
use crate::loose::Loose;
use crate::raw::RawTag;
use crate::room::with_room;
use crate::tree::{NodeHead, PieceTree, leaf};
use std::alloc::Global;
use wt_lines::{chars_piece, is_chars};
use wt_span::{List, NoMemory, Origin, Piece, Text};
use wt_tree::Kind;

/// The characters of a text: one piece, or none where it is empty.
fn chars<'a>(alloc: Global, text: Text<'a>, origin: Origin) -> Result<List<Piece<'a>>, NoMemory>
    ensures { IfOk result (λ l. items l ≡ map (char (call_of_origin origin)) (bytes_of text.entry)) }
{
    let mut pieces = List::new(alloc);
    if text.as_str().is_empty() {
        return Ok(pieces);
    }
    pieces.push_tight(chars_piece(text, origin))?;
    Ok(pieces)
}

/// A leaf of one piece that is one item.
pub fn form_leaf<'a>(alloc: Global, piece: Piece<'a>) -> Result<PieceTree<'a>, NoMemory>
    ensures { IfOk result (λ t. item_tree t ≡ leaf (form_head piece.entry.form (bytes_of piece.entry.text)) (items_of piece.entry)) }
{
    let head = form_head(alloc, &piece)?;
    let mut own = with_room(alloc, 1)?;
    own.push(piece)?;
    Ok(leaf(alloc, head, own))
}

/// The children with a piece of the inside of `nowiki`.
fn with_inside<'a>(
    alloc: Global,
    children: Children<'a>,
    piece: Piece<'a>,
) -> Result<Children<'a>, NoMemory>
    ensures { IfOk result (λ c. Grows (growth children.entry) (map inside_part (items_of piece.entry)) (growth c)) }
{
    if is_chars(piece.form) {
        children.with_chars(alloc, Loose::Text, piece)
    } else {
        let tree = form_leaf(alloc, piece)?;
        children.with_tree(alloc, tree)
    }
}

/// The children of a `nowiki` with this inside.
fn inside<'a>(
    alloc: Global,
    text: Text<'a>,
    origin: Origin,
) -> Result<List<PieceTree<'a>>, NoMemory>
    ensures { IfOk result (λ l. item_trees l ≡ children (map inside_part (inside_items (call_of_origin origin) 0 (bytes_of text.entry)))) }
{
    let mut children = Children::new(alloc);
    let mut rest = text;
    while !rest.as_str().is_empty() {
        let (piece, after) = split_inside(rest, origin);
        children = with_inside(alloc, children, piece)?;
        rest = after;
    }
    children.finish(alloc)
}

/// The node of a `nowiki` with this source.
#[tactic(auto, unfolding(crate::specs::Parts::nowiki))]
pub fn nowiki<'a>(alloc: Global, text: Text<'a>, origin: Origin) -> Result<PieceTree<'a>, NoMemory>
    ensures { IfOk result (λ t. item_tree t ≡ nowiki (call_of_origin origin) (bytes_of text.entry)) }
{
    let raw = RawTag::of(text);
    let opening = chars(alloc, raw.opening, origin)?;
    let children = inside(alloc, raw.inside, origin)?;
    let closing = chars(alloc, raw.closing, origin)?;
    Ok(PieceTree {
        head: NodeHead::plain(Kind::Nowiki),
        opening,
        children,
        closing,
    })
}

//! Tiles as nodes.

ghost use Rattle.std.specs.Prelude.{◌≡◌, ◌∷◌, ◌++◌, [], All, IfOk};
ghost use Rattle.wt_span.specs.Items.{items};
ghost use Rattle.wt_span.specs.Origins.{IsSoundPiece};
ghost use Rattle.wt_inline.specs.ItemTree.{leaf, inner, forest};
ghost use Rattle.wt_inline.specs.View.{head_of, item_tree, item_trees};
ghost use Rattle.wt_inline.specs.Grown.{growth, Grows, made};
ghost use Rattle.wt_context.specs.Nodes.{trail_parts, leaf_head, leaf_tree, link_by, nested_head, nested_by, bare_url};
ghost use Rattle.wt_context.specs.TileParts.{shape_of, HasCuts};
ghost use Rattle.wt_context.specs.Made.{Inside, IsMade};

use crate::head::{
    bare_url_head, category_head, ext_link_head, link_head, placeholder, switch_head,
};
use crate::pair::pair_head;
use crate::parts::{TileParts, parts_of};
use std::alloc::Global;
use wt_inline::{Children, Loose, NodeHead, PieceTree};
use wt_span::{List, NoMemory, Piece};
use wt_tiles::Tile;
use wt_tree::Kind;

/// A tile that has a context of its own.
#[derive(Clone, Copy, Debug, PartialEq, Eq)]
pub enum Nested {
    Link,
    ExtLink,
    Pair,
}

/// A tile whose node is a leaf of all its pieces.
#[derive(Clone, Copy, Debug, PartialEq, Eq)]
pub enum Leaf {
    Category,
    Switch,
    Break,
    Placeholder,
}

fn leaf_of<'a>(alloc: Global, head: NodeHead<'a>, own: List<Piece<'a>>) -> PieceTree<'a>
    ensures { item_tree result ≡ leaf (head_of head.entry) (items own.entry) }
{
    PieceTree {
        head,
        opening: own,
        children: List::new(alloc),
        closing: List::new(alloc),
    }
}

fn leaf_head<'a>(alloc: Global, kind: Leaf, pieces: &[Piece<'a>]) -> Result<NodeHead<'a>, NoMemory>
    requires { All IsSoundPiece pieces.now }
    ensures { IfOk result (λ h. head_of h ≡ leaf_head kind (items pieces.now)) }
{
    match kind {
        Leaf::Category => category_head(alloc, pieces),
        Leaf::Switch => switch_head(alloc, pieces),
        Leaf::Break => Ok(NodeHead::plain(Kind::Br)),
        Leaf::Placeholder => placeholder(alloc),
    }
}

/// The leaf of a tile's pieces.
pub fn leaf_tree<'a>(
    alloc: Global,
    kind: Leaf,
    pieces: &[Piece<'a>],
) -> Result<PieceTree<'a>, NoMemory>
    requires { All IsSoundPiece pieces.now }
    ensures { IfOk result (λ t. item_tree t ≡ leaf_tree kind (items pieces.now)) }
{
    let head = leaf_head(alloc, kind, pieces)?;
    let own = List::from_vec(Vec::from_slice(alloc, pieces)?);
    Ok(leaf_of(alloc, head, own))
}

/// The node of a bare URL.
#[tactic(auto, unfolding(crate::specs::Nodes::bare_url))]
pub fn bare_url<'a>(alloc: Global, tile: &Tile<'a>) -> Result<PieceTree<'a>, NoMemory>
    requires sound { All IsSoundPiece tile.now.pieces }
    requires cuts { HasCuts (shape_of tile.now) (items tile.now.pieces) }
    ensures { IfOk result (λ t. item_tree t ≡ bare_url (shape_of tile.now) (items tile.now.pieces)) }
{
    let parts = parts_of(alloc, tile)?;
    let head = bare_url_head(alloc, parts.inside.as_slice())?;
    let children = Children::new(alloc).with_pieces(alloc, Loose::Text, parts.inside.as_slice())?;
    Ok(PieceTree {
        head,
        opening: parts.opening,
        children: children.finish(alloc)?,
        closing: parts.closing,
    })
}

/// A node with these children between the delimiters of a tile.
fn round<'a>(
    alloc: Global,
    head: NodeHead<'a>,
    opening: List<Piece<'a>>,
    children: Children<'a>,
    closing: List<Piece<'a>>,
) -> Result<PieceTree<'a>, NoMemory>
    ensures { IfOk result (λ t. item_tree t ≡ inner (head_of head.entry) (items opening.entry) (forest (made (growth children.entry) [])) (items closing.entry)) }
{
    Ok(PieceTree {
        head,
        opening,
        children: children.finish(alloc)?,
        closing,
    })
}

/// The children of a link with its `]]` and the letters that join it.
fn with_trail<'a>(
    alloc: Global,
    children: Children<'a>,
    closing: List<Piece<'a>>,
    trail: &[Piece<'a>],
) -> Result<Children<'a>, NoMemory>
    ensures { IfOk result (λ c. Grows (growth children.entry) (trail_parts (items closing.entry) (items trail.now)) (growth c)) }
{
    let skip = leaf_of(alloc, NodeHead::plain(Kind::Skip), closing);
    let children = children.with_tree(alloc, skip)?;
    children.with_pieces(alloc, Loose::Text, trail)
}

/// The node of a link with these children.
fn link<'a>(
    alloc: Global,
    head: NodeHead<'a>,
    trail: usize,
    parts: TileParts<'a>,
    children: Children<'a>,
) -> Result<PieceTree<'a>, NoMemory>
    ensures { IfOk result (λ t. (ps : Inside) → IsMade (growth children.entry) ps
        → item_tree t ≡ link_by (head_of head.entry) trail (items parts.entry.opening) (items parts.entry.closing)
        (items parts.entry.trail) ps) }
{
    let TileParts {
        opening,
        closing,
        trail: letters,
        ..
    } = parts;
    if trail == 0 {
        return round(alloc, head, opening, children, closing);
    }
    let children = with_trail(alloc, children, closing, letters.as_slice())?;
    round(alloc, head, opening, children, List::new(alloc))
}

fn nested_head<'a>(
    alloc: Global,
    kind: Nested,
    pieces: &[Piece<'a>],
    opening: &[Piece<'a>],
) -> Result<NodeHead<'a>, NoMemory>
    requires { All IsSoundPiece opening.now }
    ensures { IfOk result (λ h. head_of h ≡ nested_head kind (items pieces.now) (items opening.now)) }
{
    match kind {
        Nested::Link => link_head(alloc, pieces),
        Nested::ExtLink => ext_link_head(alloc, opening),
        Nested::Pair => pair_head(alloc, opening),
    }
}

/// The node of a tile with these children.
pub fn nested_tree<'a>(
    alloc: Global,
    kind: Nested,
    tile: &Tile<'a>,
    parts: TileParts<'a>,
    children: Children<'a>,
) -> Result<PieceTree<'a>, NoMemory>
    requires { All IsSoundPiece parts.opening }
    ensures { IfOk result (λ t. (ps : Inside) → IsMade (growth children.entry) ps
        → item_tree t ≡ nested_by kind tile.now.trail (items tile.now.pieces) (items parts.entry.opening)
        (items parts.entry.closing) (items parts.entry.trail) ps) }
{
    let head = nested_head(
        alloc,
        kind,
        tile.pieces.as_slice(),
        parts.opening.as_slice(),
    )?;
    match kind {
        Nested::Link => link(alloc, head, tile.trail, parts, children),
        Nested::ExtLink | Nested::Pair => {
            let TileParts {
                opening,
                closing,
                ..
            } = parts;
            round(alloc, head, opening, children, closing)
        }
    }
}

//! Contexts, each read with what is in its tiles.

ghost use Rattle.std.specs.Prelude.{◌≡◌, ◌<◌, ◌+◌, ◌^◌, ◌++◌, length, map, option_map, All, IfOk};
ghost use Rattle.std.specs.List.{flat_map};
ghost use Rattle.wt_span.specs.Items.{items};
ghost use Rattle.wt_span.specs.Origins.{IsSoundPiece};
ghost use Rattle.wt_tiles.specs.Contexts.{in_pair};
ghost use Rattle.wt_tiles.specs.Cutting.{tile_of};
ghost use Rattle.wt_inline.specs.View.{item_tree};
ghost use Rattle.wt_inline.specs.Grown.{growth, Grows};
ghost use Rattle.wt_context.specs.Line.{within};
ghost use Rattle.wt_context.specs.Nodes.{inside_of, nested_tree, tile_tree, tile_segments};
ghost use Rattle.wt_context.specs.TileParts.{shape_of, HasCuts, IsCutTile};
ghost use Rattle.wt_context.specs.Tokens.{segments_of};

use crate::inert::are_inert;
use crate::loose::with_loose;
use crate::node::{Leaf, Nested, bare_url, leaf_tree, nested_tree};
use crate::parts::parts_of;
use crate::style::with_styles;
use crate::token::{TileNode, Token};
use std::alloc::Global;
use wt_inline::{Children, PieceTree};
use wt_span::{List, NoMemory, Piece};
use wt_tiles::{Context, Tile, TileKind, tiles_in};

/// The node of a tile that has a context of its own.
#[cycle(reading)]
fn nested<'a>(
    alloc: Global,
    levels: u32,
    context: Context,
    kind: Nested,
    tile: &Tile<'a>,
) -> Result<PieceTree<'a>, NoMemory>
    requires sound { All IsSoundPiece tile.now.pieces }
    requires few { length (items tile.now.pieces) < 2 ^ 32 }
    requires cuts { HasCuts (shape_of tile.now) (items tile.now.pieces) }
    requires room { context.pairs + levels < 2 ^ 32 }
    ensures { IfOk result (λ t. item_tree t ≡ nested_tree kind (shape_of tile.now) (items tile.now.pieces)
        (within levels context (inside_of (shape_of tile.now) (items tile.now.pieces)))) }
{
    let parts = parts_of(alloc, tile)?;
    let children = with_context(
        alloc,
        Children::new(alloc),
        levels,
        context,
        parts.inside.as_slice(),
    )?;
    nested_tree(alloc, kind, tile, parts, children)
}

/// The node of a tile.
#[cycle(reading)]
fn tile_tree<'a>(
    alloc: Global,
    levels: u32,
    context: Context,
    tile: &Tile<'a>,
) -> Result<Option<PieceTree<'a>>, NoMemory>
    requires cut { IsCutTile tile.now }
    requires room { context.pairs + levels + 1 < 2 ^ 32 }
    ensures { IfOk result (λ o. option_map item_tree o ≡ tile_tree (within levels) context tile.now.kind (shape_of tile.now) (items tile.now.pieces)) }
{
    let pieces = tile.pieces.as_slice();
    match tile.kind {
        TileKind::Chars | TileKind::Atom | TileKind::Mark => Ok(None),
        TileKind::Link => {
            let tree = nested(alloc, levels, context.link_text(), Nested::Link, tile)?;
            Ok(Some(tree))
        }
        TileKind::ExtLink => {
            let tree = nested(alloc, levels, context.link_text(), Nested::ExtLink, tile)?;
            Ok(Some(tree))
        }
        TileKind::Pair => {
            let tree = nested(alloc, levels, inside_pair(context), Nested::Pair, tile)?;
            Ok(Some(tree))
        }
        TileKind::BareUrl => {
            let tree = bare_url(alloc, tile)?;
            Ok(Some(tree))
        }
        TileKind::Category => {
            let tree = leaf_tree(alloc, Leaf::Category, pieces)?;
            Ok(Some(tree))
        }
        TileKind::Switch => {
            let tree = leaf_tree(alloc, Leaf::Switch, pieces)?;
            Ok(Some(tree))
        }
        TileKind::Br => {
            let tree = leaf_tree(alloc, Leaf::Break, pieces)?;
            Ok(Some(tree))
        }
        TileKind::Media | TileKind::TagIsland => {
            let tree = leaf_tree(alloc, Leaf::Placeholder, pieces)?;
            Ok(Some(tree))
        }
    }
}

/// The inside of a pair of tags.
fn inside_pair(context: Context) -> Context
    requires { context.pairs + 1 < 2 ^ 32 }
    ensures { result ≡ in_pair context }
{
    Context {
        in_link: context.in_link,
        pairs: context.pairs + 1,
    }
}

/// Tokens with those of a tile.
#[cycle(reading)]
fn with_tile<'a>(
    alloc: Global,
    levels: u32,
    context: Context,
    tokens: List<Token<'a>>,
    tile: Tile<'a>,
) -> Result<List<Token<'a>>, NoMemory>
    requires cut { IsCutTile tile }
    requires room { context.pairs + levels + 1 < 2 ^ 32 }
    ensures { IfOk result (λ ts. segments_of ts ≡ segments_of tokens.entry ++ tile_segments (within levels) context (tile_of tile.entry)) }
{
    let Some(tree) = tile_tree(alloc, levels, context, &tile)? else {
        return with_loose(alloc, tokens, tile.pieces.as_slice());
    };
    let mut tokens = tokens;
    let Tile { pieces, .. } = tile;
    tokens.push(Token::Tile(TileNode { pieces, tree }))?;
    Ok(tokens)
}

/// The tokens of tiles.
#[cycle(reading)]
fn tokens_of<'a>(
    alloc: Global,
    levels: u32,
    context: Context,
    tiles: List<Tile<'a>>,
) -> Result<List<Token<'a>>, NoMemory>
    requires cut { All IsCutTile tiles }
    requires room { context.pairs + levels + 1 < 2 ^ 32 }
    ensures { IfOk result (λ ts. segments_of ts ≡ flat_map (tile_segments (within levels) context) (map tile_of tiles.entry)) }
{
    let mut tokens = List::new(alloc);
    for tile in tiles.into_vec() {
        tokens = with_tile(alloc, levels, context, tokens, tile)?;
    }
    Ok(tokens)
}

/// The children of a node with what is in a context, where so many more contexts may be one
/// inside the other. What holds no sign of a tile or a style is text.
#[cycle(reading)]
pub fn with_context<'a>(
    alloc: Global,
    children: Children<'a>,
    levels: u32,
    context: Context,
    pieces: &[Piece<'a>],
) -> Result<Children<'a>, NoMemory>
    requires sound { All IsSoundPiece pieces.now }
    requires few { length (items pieces.now) < 2 ^ 32 }
    requires room { context.pairs + levels < 2 ^ 32 }
    ensures { IfOk result (λ c. Grows (growth children.entry) (within levels context (items pieces.now)) (growth c)) }
{
    if levels == 0 || are_inert(pieces) {
        return children.with_line(alloc, pieces);
    }
    let tiles = tiles_in(alloc, context, pieces)?;
    let tokens = tokens_of(alloc, levels - 1, context, tiles)?;
    with_styles(alloc, children, tokens)
}

//! The pieces of a tile by its parts.

ghost use Rattle.std.specs.Prelude.{◌≡◌, ◌<◌, ◌+◌, take, drop, All, IfOk};
ghost use Rattle.wt_span.specs.Items.{items};
ghost use Rattle.wt_span.specs.Origins.{IsSoundPiece};
ghost use Rattle.wt_tiles.specs.Cutting.{rest_pieces, IsEdgeIn};
ghost use Rattle.wt_context.specs.Nodes.{opening_of, inside_of, closing_of, trail_of};
ghost use Rattle.wt_context.specs.TileParts.{shape_of, HasCuts};

use std::alloc::Global;
use wt_span::{List, NoMemory, Piece};
use wt_tiles::{Rest, Tile, take_items};

/// The pieces of a tile's open delimiter, of what is between its delimiters, of its close
/// delimiter, and of the letters that join a link.
#[derive(Debug, Drop)]
pub struct TileParts<'a> {
    pub opening: List<Piece<'a>>,
    pub inside: List<Piece<'a>>,
    pub closing: List<Piece<'a>>,
    pub trail: List<Piece<'a>>,
}

/// Takes n items from the front; none need no cut.
pub fn take_some<'p, 'a>(
    alloc: Global,
    pieces: Rest<'p, 'a>,
    n: usize,
) -> Result<(List<Piece<'a>>, Rest<'p, 'a>), NoMemory>
    requires sound { All IsSoundPiece (rest_pieces pieces) }
    requires edge { 0 < n → IsEdgeIn (items (rest_pieces pieces)) n }
    ensures front { IfOk result (λ r. items r.0 ≡ take n (items (rest_pieces pieces.entry))) }
    ensures back { IfOk result (λ r. items (rest_pieces r.1) ≡ drop n (items (rest_pieces pieces.entry))) }
    ensures sound_front { IfOk result (λ r. All IsSoundPiece r.0) }
    ensures sound_back { IfOk result (λ r. All IsSoundPiece (rest_pieces r.1)) }
{
    if n == 0 {
        return Ok((List::new(alloc), pieces));
    }
    take_items(alloc, pieces, n)
}

/// A tile, cut into its parts.
pub fn parts_of<'a>(alloc: Global, tile: &Tile<'a>) -> Result<TileParts<'a>, NoMemory>
    requires sound { All IsSoundPiece tile.now.pieces }
    requires cuts { HasCuts (shape_of tile.now) (items tile.now.pieces) }
    ensures opening { IfOk result (λ p. items p.opening ≡ opening_of (shape_of tile.now) (items tile.now.pieces)) }
    ensures inside { IfOk result (λ p. items p.inside ≡ inside_of (shape_of tile.now) (items tile.now.pieces)) }
    ensures closing { IfOk result (λ p. items p.closing ≡ closing_of (shape_of tile.now) (items tile.now.pieces)) }
    ensures trail { IfOk result (λ p. items p.trail ≡ trail_of (shape_of tile.now) (items tile.now.pieces)) }
    ensures sound_opening { IfOk result (λ p. All IsSoundPiece p.opening) }
    ensures sound_inside { IfOk result (λ p. All IsSoundPiece p.inside) }
{
    let rest = Rest::of(tile.pieces.as_slice());
    let (opening, rest) = take_some(alloc, rest, tile.opening)?;
    let (inside, rest) = take_some(alloc, rest, tile.inside)?;
    let (closing, rest) = take_some(alloc, rest, tile.closing)?;
    let (trail, _) = take_some(alloc, rest, tile.trail)?;
    Ok(TileParts {
        opening,
        inside,
        closing,
        trail,
    })
}

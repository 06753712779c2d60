//! Pieces, cut after a number of items.

ghost use Rattle.std.specs.Prelude.{◌≡◌, ◌<◌, ◌≤◌, ◌++◌, All, take, drop, length, IfOk, OnOk};
ghost use Rattle.wt_span.specs.Items.{items};
ghost use Rattle.wt_span.specs.Origins.{IsSoundPiece};
ghost use Rattle.wt_tiles.specs.Cutting.{IsEdgeIn, rest_pieces};
ghost use Rattle.wt_rows.specs.Fronts.{front_len, with_front, IsFrontCut, IsWithCut};

use crate::front::Front;
use std::alloc::Global;
use wt_context::take_some;
use wt_lines::item_count;
use wt_span::{List, NoMemory, Piece};
use wt_tiles::{Rest, take_piece};

/// The first n items of pieces, and those after them. No character may lie on both sides of the
/// cut.
pub fn cut<'a>(
    alloc: Global,
    pieces: &[Piece<'a>],
    n: usize,
) -> Result<(List<Piece<'a>>, List<Piece<'a>>), NoMemory>
    requires sound { All IsSoundPiece pieces.now }
    requires within { n ≤ length (items pieces.now) }
    requires edge { 0 < n → IsEdgeIn (items pieces.now) n }
    ensures front { IfOk result (λ r. items r.0 ≡ take n (items pieces.now)) }
    ensures back { IfOk result (λ r. items r.1 ≡ drop n (items pieces.now)) }
    ensures sound_front { IfOk result (λ r. All IsSoundPiece r.0) }
    ensures sound_back { IfOk result (λ r. All IsSoundPiece r.1) }
{
    let (front, rest) = take_some(alloc, Rest::of(pieces), n)?;
    let back = rest.all(alloc)?;
    Ok((front, back))
}

/// Takes the first n items, after others, and those behind them that have such signs: what is left. No
/// character may lie on both sides of the cut.
fn take_with<'p, 'a>(
    taken: &mut List<Piece<'a>>,
    pieces: Rest<'p, 'a>,
    n: usize,
    front: Front,
) -> Result<Rest<'p, 'a>, NoMemory>
    requires sound { All IsSoundPiece (rest_pieces pieces) }
    requires sound_taken { All IsSoundPiece taken.old }
    requires edge { IsWithCut front n (items (rest_pieces pieces)) }
    ensures front { OnOk result (items taken.new ≡ items taken.old ++ take (with_front front n (items (rest_pieces pieces.entry))) (items (rest_pieces pieces.entry))) }
    ensures back { IfOk result (λ r. items (rest_pieces r) ≡ drop (with_front front n (items (rest_pieces pieces.entry))) (items (rest_pieces pieces.entry))) }
    ensures sound_front { OnOk result (All IsSoundPiece taken.new) }
    ensures sound_back { IfOk result (λ r. All IsSoundPiece (rest_pieces r)) }
{
    let mut rest = pieces;
    let mut left = n;
    while let Some((piece, after)) = rest.split_first() {
        let count = item_count(&piece);
        let own = front.len_with(&piece, left);
        if own == 0 {
            return Ok(rest);
        }
        let next = take_piece(taken, piece, after, own)?;
        rest = next.1;
        if own < count {
            return Ok(rest);
        }
        left = left.saturating_sub(count);
    }
    Ok(rest)
}

/// The items at the front that have such signs, and those after them. No character may lie on both
/// sides of the cut.
pub fn cut_front<'a>(
    alloc: Global,
    pieces: &[Piece<'a>],
    front: Front,
) -> Result<(List<Piece<'a>>, List<Piece<'a>>), NoMemory>
    requires sound { All IsSoundPiece pieces.now }
    requires edge { IsFrontCut front (items pieces.now) }
    ensures front { IfOk result (λ r. items r.0 ≡ take (front_len front (items pieces.now)) (items pieces.now)) }
    ensures back { IfOk result (λ r. items r.1 ≡ drop (front_len front (items pieces.now)) (items pieces.now)) }
    ensures sound_front { IfOk result (λ r. All IsSoundPiece r.0) }
    ensures sound_back { IfOk result (λ r. All IsSoundPiece r.1) }
{
    cut_with(alloc, pieces, 0, front)
}

/// The first n items with those after them that have such signs, and what is left. No character may
/// lie on both sides of either cut.
pub fn cut_with<'a>(
    alloc: Global,
    pieces: &[Piece<'a>],
    n: usize,
    front: Front,
) -> Result<(List<Piece<'a>>, List<Piece<'a>>), NoMemory>
    requires sound { All IsSoundPiece pieces.now }
    requires within { n ≤ length (items pieces.now) }
    requires edge { 0 < n → IsEdgeIn (items pieces.now) n }
    requires edge_behind { IsFrontCut front (drop n (items pieces.now)) }
    ensures front { IfOk result (λ r. items r.0 ≡ take (with_front front n (items pieces.now)) (items pieces.now)) }
    ensures back { IfOk result (λ r. items r.1 ≡ drop (with_front front n (items pieces.now)) (items pieces.now)) }
    ensures sound_front { IfOk result (λ r. All IsSoundPiece r.0) }
    ensures sound_back { IfOk result (λ r. All IsSoundPiece r.1) }
{
    let mut taken = List::new(alloc);
    let rest = take_with(&mut taken, Rest::of(pieces), n, front)?;
    let back = rest.all(alloc)?;
    Ok((taken, back))
}

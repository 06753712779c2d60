//! Pieces, cut where the close delimiter of a heading begins.

ghost use Rattle.std.specs.Prelude.{◌≡◌, ◌<◌, All, true, take, drop, slice_get, IfOk};
ghost use Rattle.wt_span.specs.Items.{items};
ghost use Rattle.wt_span.specs.Origins.{IsSoundPiece};
ghost use Rattle.wt_lines.specs.Pieces.{begins_char};

use std::alloc::Global;
use wt_lines::split_items;
use wt_span::{List, NoMemory, Piece};

/// A copy of pieces.
fn copied<'a>(alloc: Global, pieces: &[Piece<'a>]) -> Result<List<Piece<'a>>, NoMemory>
    ensures { IfOk result (λ l. l ≡ pieces.now) }
{
    Ok(List::from_vec(Vec::from_slice(alloc, pieces)?))
}

/// Pieces, cut after a number of items, where a character begins or nothing comes before.
pub fn split_before<'a>(
    alloc: Global,
    pieces: &[Piece<'a>],
    n: usize,
) -> Result<(List<Piece<'a>>, List<Piece<'a>>), NoMemory>
    requires sound { All IsSoundPiece pieces.now }
    requires border { 0 < n → begins_char (slice_get (items pieces.now) n) ≡ true }
    ensures front { IfOk result (λ r. items r.0 ≡ take n (items pieces.now)) }
    ensures back { IfOk result (λ r. items r.1 ≡ drop n (items pieces.now)) }
    ensures sound_front { IfOk result (λ r. All IsSoundPiece r.0) }
{
    if n == 0 {
        let all = copied(alloc, pieces)?;
        return Ok((List::new(alloc), all));
    }
    let (front, back) = split_items(alloc, pieces, n)?;
    Ok((front, back))
}

//! Pieces, cut after a number of items.

ghost use Rattle.std.specs.Prelude.{◌≡◌, ◌<◌, ◌-◌, ◌++◌, All, true, take, drop, slice_get, OnOk, IfOk};
ghost use Rattle.std.specs.Str.{IsCharBoundary};
ghost use Rattle.wt_span.specs.Slice.{bytes_of};
ghost use Rattle.wt_span.specs.Items.{items, items_of};
ghost use Rattle.wt_span.specs.Origins.{IsSoundPiece};
ghost use Rattle.wt_lines.specs.Pieces.{item_count, begins_char};

use crate::partition::{chars_piece, is_chars};
use std::alloc::Global;
use wt_span::{List, NoMemory, Piece};

/// How many items it holds.
pub fn item_count(piece: &Piece<'_>) -> usize
    ensures { result ≡ item_count piece.now }
{
    if is_chars(piece.form) {
        piece.text.as_str().len()
    } else {
        1
    }
}

/// A piece whose first items end here, as two.
fn cut_piece<'a>(piece: Piece<'a>, n: usize) -> (Piece<'a>, Piece<'a>)
    requires sound { IsSoundPiece piece }
    requires some { 0 < n }
    requires within { n < item_count piece }
    requires border { IsCharBoundary (bytes_of piece.text) n }
    ensures front { items_of result.0 ≡ take n (items_of piece.entry) }
    ensures back { items_of result.1 ≡ drop n (items_of piece.entry) }
    ensures sound_front { IsSoundPiece result.0 }
    ensures sound_back { IsSoundPiece result.1 }
{
    let (front, back) = piece.text.split_at(piece.text.range().start + n as u32);
    (
        chars_piece(front, piece.origin),
        chars_piece(back, piece.origin),
    )
}

/// A piece after those on either side, where `n` items more belong to the front; how many still do
/// after it.
fn push_split<'a>(
    front: &mut List<Piece<'a>>,
    back: &mut List<Piece<'a>>,
    piece: Piece<'a>,
    n: usize,
) -> Result<usize, NoMemory>
    requires sound { IsSoundPiece piece }
    requires border { 0 < n → n < item_count piece → IsCharBoundary (bytes_of piece.text) n }
    ensures left { IfOk result (λ m. m ≡ n - item_count piece.entry) }
    ensures front { OnOk result (items front.new ≡ items front.old ++ take n (items_of piece.entry)) }
    ensures back { OnOk result (items back.new ≡ items back.old ++ drop n (items_of piece.entry)) }
    ensures sound_front { OnOk result (All IsSoundPiece front.old → All IsSoundPiece front.new) }
    ensures sound_back { OnOk result (All IsSoundPiece back.old → All IsSoundPiece back.new) }
{
    let count = item_count(&piece);
    if count <= n {
        front.push_tight(piece)?;
        return Ok(n - count);
    }
    if n == 0 {
        back.push_tight(piece)?;
        return Ok(0);
    }
    let cut = cut_piece(piece, n);
    front.push_tight(cut.0)?;
    back.push_tight(cut.1)?;
    Ok(0)
}

/// Pieces, cut after `n` items: all of them come before the cut where there are fewer. No
/// character may lie on both sides of it, which holds wherever a byte of an ASCII character, an
/// atom or a mark comes after the cut.
pub fn split_items<'a>(
    alloc: Global,
    pieces: &[Piece<'a>],
    n: usize,
) -> Result<(List<Piece<'a>>, List<Piece<'a>>), NoMemory>
    requires sound { All IsSoundPiece pieces.now }
    requires border { begins_char (slice_get (items pieces.now) n) ≡ true }
    ensures front { IfOk result (λ r. items r.0 ≡ take n (items pieces.now)) }
    ensures back { IfOk result (λ r. items r.1 ≡ drop n (items pieces.now)) }
    ensures sound_front { IfOk result (λ r. All IsSoundPiece r.0) }
    ensures sound_back { IfOk result (λ r. All IsSoundPiece r.1) }
{
    let mut front = List::new(alloc);
    let mut back = List::new(alloc);
    let mut left = n;
    for piece in pieces {
        left = push_split(&mut front, &mut back, *piece, left)?;
    }
    Ok((front, back))
}

//! Pieces of a line, taken from the front a number of items at a time.

ghost use Rattle.std.specs.Prelude.{◌≡◌, ◌<◌, ◌≤◌, ◌-◌, ◌++◌, ◌⊎◌, [], All, MatchOption, OnOk, IfOk, IfSome, length, map, take, drop, slice_index};
ghost use Rattle.std.specs.Str.{IsCharBoundary};
ghost use Rattle.wt_span.specs.Slice.{bytes_of};
ghost use Rattle.wt_span.specs.Items.{sign, items, items_of};
ghost use Rattle.wt_span.specs.Origins.{IsSoundPiece};
ghost use Rattle.wt_lines.specs.Pieces.{item_count};
ghost use Rattle.wt_tables.specs.Views.{waiting, AreSound, IsLowCut};

use std::alloc::Global;
use wt_lines::{chars_piece, item_count};
use wt_span::{List, NoMemory, Piece, Text, rest_of};

/// A text, cut beside an ASCII character.
fn split_text<'a>(text: Text<'a>, n: usize) -> (Text<'a>, Text<'a>)
    requires some { 0 < n }
    requires within { n < length (bytes_of text) }
    requires low { (slice_index (bytes_of text) (n - 1) < 128) ⊎ (slice_index (bytes_of text) n < 128) }
    ensures front { bytes_of result.0 ≡ take n (bytes_of text.entry) }
    ensures back { bytes_of result.1 ≡ drop n (bytes_of text.entry) }
{
    let len = cut_len(text.as_str(), n);
    text.split_at(text.range().start + len as u32)
}

/// The place of a cut beside an ASCII character.
fn cut_len(text: &str, n: usize) -> usize
    requires some { 0 < n }
    requires within { n < length text.now }
    requires low { (slice_index text.now (n - 1) < 128) ⊎ (slice_index text.now n < 128) }
    ensures value { result ≡ n }
    ensures border { IsCharBoundary text.now n }
{
    n.min(text.len())
}

/// A piece of characters, cut beside an ASCII one.
fn cut_piece<'a>(piece: Piece<'a>, n: usize) -> (Piece<'a>, Piece<'a>)
    requires sound { IsSoundPiece piece }
    requires some { 0 < n }
    requires within { n < item_count piece }
    requires low { IsLowCut n (items_of piece) }
    ensures front { items_of result.0 ≡ take n (items_of piece.entry) }
    ensures back { items_of result.1 ≡ drop n (items_of piece.entry) }
    ensures sound_front { IsSoundPiece result.0 }
    ensures sound_back { IsSoundPiece result.1 }
    ensures count { item_count result.0 ≡ n }
{
    let (front, back) = split_text(piece.text, n);
    (
        chars_piece(front, piece.origin),
        chars_piece(back, piece.origin),
    )
}

/// What is left of a line's pieces.
#[derive(Clone, Copy, Debug)]
pub struct Cursor<'p, 'a> {
    first: Option<Piece<'a>>,
    pieces: &'p [Piece<'a>],
}

impl<'p, 'a> Cursor<'p, 'a> {
    /// All pieces.
    pub fn of(pieces: &'p [Piece<'a>]) -> Cursor<'p, 'a>
        requires { All IsSoundPiece pieces.now }
        ensures items { waiting result ≡ items pieces.entry.now }
        ensures sound { AreSound result }
    {
        Cursor {
            first: None,
            pieces,
        }
    }

    fn split_first(self) -> Option<(Piece<'a>, Cursor<'p, 'a>)>
        requires { AreSound self }
        ensures items { MatchOption result (waiting self.entry ≡ []) (λ r. waiting self.entry ≡ items_of r.0 ++ waiting r.1) }
        ensures alone { IfSome result (λ r. waiting r.1 ≡ items r.1.pieces.now) }
        ensures sound_piece { IfSome result (λ r. IsSoundPiece r.0) }
        ensures sound { IfSome result (λ r. AreSound r.1) }
    {
        let pieces = self.pieces;
        if let Some(piece) = self.first {
            return Some((
                piece,
                Cursor {
                    first: None,
                    pieces,
                },
            ));
        }
        let piece = pieces.first()?;
        let pieces = rest_of(pieces, 1);
        Some((
            *piece,
            Cursor {
                first: None,
                pieces,
            },
        ))
    }

    /// The first piece, cut where it has more than `most` items, and what is left after it.
    fn next_piece(self, most: usize) -> Option<(Piece<'a>, Cursor<'p, 'a>)>
        requires sound { AreSound self }
        requires some { 0 < most }
        requires low { IsLowCut most (waiting self) }
        ensures items { MatchOption result (waiting self.entry ≡ []) (λ r. waiting self.entry ≡ items_of r.0 ++ waiting r.1) }
        ensures within { IfSome result (λ r. item_count r.0 ≤ most) }
        ensures sound_piece { IfSome result (λ r. IsSoundPiece r.0) }
        ensures sound_rest { IfSome result (λ r. AreSound r.1) }
    {
        let (piece, rest) = self.split_first()?;
        if item_count(&piece) <= most {
            return Some((piece, rest));
        }
        let (front, back) = cut_piece(piece, most);
        let pieces = rest.pieces;
        Some((
            front,
            Cursor {
                first: Some(back),
                pieces,
            },
        ))
    }

    /// The first `n` items, or all where there are fewer, and what is left after them.
    pub fn take(
        self,
        alloc: Global,
        n: usize,
    ) -> Result<(List<Piece<'a>>, Cursor<'p, 'a>), NoMemory>
        requires sound { AreSound self }
        requires low { IsLowCut n (waiting self) }
        ensures front { IfOk result (λ r. items r.0 ≡ take n (waiting self.entry)) }
        ensures back { IfOk result (λ r. waiting r.1 ≡ drop n (waiting self.entry)) }
        ensures sound_front { IfOk result (λ r. All IsSoundPiece r.0) }
        ensures sound_back { IfOk result (λ r. AreSound r.1) }
    {
        let mut out = List::new(alloc);
        let mut cursor = self;
        let mut left = n;
        while left > 0 {
            match cursor.next_piece(left) {
                None => return Ok((out, cursor)),
                Some((piece, rest)) => {
                    left -= item_count(&piece);
                    out.push_tight(piece)?;
                    cursor = rest;
                }
            }
        }
        Ok((out, cursor))
    }

    /// What is left after the first `n` items.
    pub fn skip(self, n: usize) -> Cursor<'p, 'a>
        requires sound { AreSound self }
        requires low { IsLowCut n (waiting self) }
        ensures back { waiting result ≡ drop n (waiting self.entry) }
        ensures sound_back { AreSound result }
    {
        let mut cursor = self;
        let mut left = n;
        while left > 0 {
            match cursor.next_piece(left) {
                None => return cursor,
                Some((piece, rest)) => {
                    left -= item_count(&piece);
                    cursor = rest;
                }
            }
        }
        cursor
    }

    /// All that is left.
    pub fn all(self, alloc: Global) -> Result<List<Piece<'a>>, NoMemory>
        requires { AreSound self }
        ensures items { IfOk result (λ l. items l ≡ waiting self.entry) }
        ensures sound { IfOk result (λ l. All IsSoundPiece l) }
    {
        let mut out = List::new(alloc);
        if let Some(piece) = self.first {
            out.push(piece)?;
        }
        for piece in self.pieces {
            out.push(*piece)?;
        }
        Ok(out)
    }
}

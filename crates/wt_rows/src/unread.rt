//! What is not yet read of the pieces of a page.

ghost use Rattle.std.specs.Prelude.{◌≡◌, ◌<◌, ◌≤◌, ◌==◌, ◌++◌, [], ◌∷◌, not, All, true, IfOk, IfSome, MatchOption, length, take, drop};
ghost use Rattle.std.specs.List.{prefix_len};
ghost use Rattle.std.specs.Str.{IsCharBoundary};
ghost use Rattle.wt_span.specs.Bytes.{is_break};
ghost use Rattle.wt_span.specs.Slice.{bytes_of};
ghost use Rattle.wt_span.specs.Items.{items, items_of};
ghost use Rattle.wt_span.specs.Origins.{IsSoundPiece};
ghost use Rattle.wt_lines.specs.Lines.{full_lines};
ghost use Rattle.wt_lines.specs.Pieces.{is_chars, starts_break, IsParted, ArePartedBytes};
ghost use Rattle.wt_rows.specs.Building.{AreWhole};
ghost use Rattle.wt_rows.specs.Unread.{left, IsBehind, all_breaks, AreBreaks, begins_break};

use std::alloc::Global;
use wt_lines::{chars_piece, is_break, is_chars, unbroken_len};
use wt_span::{List, NoMemory, Piece};

/// Pieces of a page, of which the first may be the rest of one.
#[derive(Clone, Copy)]
pub struct Unread<'p, 'a> {
    first: Option<Piece<'a>>,
    others: &'p [Piece<'a>],
}

/// How many line breaks are at the front.
fn breaks_len(bytes: &[u8]) -> usize
    ensures value { result ≡ prefix_len is_break bytes.now }
    ensures within { result ≤ length bytes.now }
{
    for (i, byte) in bytes.iter().enumerate() {
        if *byte != b'\n' {
            return i;
        }
    }
    bytes.len()
}

/// The length of the line breaks at the front, of which there is one.
fn break_chunk_len(text: &str) -> usize
    requires { starts_break text.now ≡ true }
    ensures within { result ≤ length text.now }
    ensures some { 0 < result }
    ensures chunk { all_breaks (take result text.now) ≡ true }
    ensures border { IsCharBoundary text.now result }
{
    let bytes = text.as_bytes();
    breaks_len(bytes)
}

/// The length of a line break at the front, or of what comes before the first one.
fn chunk_len(text: &str) -> usize
    requires { 0 < length text.now }
    ensures within { result ≤ length text.now }
    ensures some { 0 < result }
    ensures chunk { ArePartedBytes (take result text.now) }
    ensures border { IsCharBoundary text.now result }
{
    let bytes = text.as_bytes();
    let unbroken = unbroken_len(bytes);
    if unbroken == 0 { 1 } else { unbroken }
}

impl<'p, 'a> Unread<'p, 'a> {
    /// All of these pieces.
    pub fn of(pieces: &'p [Piece<'a>]) -> Unread<'p, 'a>
        ensures { left result ≡ pieces.entry.now }
    {
        match pieces.split_first() {
            None => Unread {
                first: None,
                others: pieces,
            },
            Some((piece, others)) => Unread {
                first: Some(*piece),
                others,
            },
        }
    }

    /// Whether all is read.
    pub fn is_empty(&self) -> bool
        ensures { result ≡ (length (left self.now) == 0) }
    {
        self.first.is_none()
    }

    /// What is left after a piece of which this is the rest.
    fn behind(back: Piece<'a>, others: &'p [Piece<'a>]) -> Unread<'p, 'a>
        requires sound { IsSoundPiece back }
        requires others { All IsSoundPiece others.now }
        ensures left { left result ≡ back.entry ∷ others.entry.now }
        ensures sound_after { All IsSoundPiece (left result) }
    {
        Unread {
            first: Some(back),
            others,
        }
    }

    /// The first n bytes of a piece of characters, and what is left after them.
    fn cut(piece: Piece<'a>, n: usize, others: &'p [Piece<'a>]) -> (Piece<'a>, Unread<'p, 'a>)
        requires chars { is_chars piece.form ≡ true }
        requires some { 0 < n }
        requires within { n ≤ length (bytes_of piece.text) }
        requires border { IsCharBoundary (bytes_of piece.text) n }
        requires sound { All IsSoundPiece others.now }
        ensures joined { items (piece.entry ∷ others.entry.now) ≡ items_of result.0 ++ items (left result.1) }
        ensures front { items_of result.0 ≡ take n (items_of piece.entry) }
        ensures parted { ArePartedBytes (take n (bytes_of piece.entry.text)) → IsParted result.0 }
        ensures sound_front { IsSoundPiece result.0 }
        ensures sound_after { All IsSoundPiece (left result.1) }
    {
        let (front, back) = piece.text.split_at(piece.text.range().start + n as u32);
        let own = chars_piece(front, piece.origin);
        if back.as_str().is_empty() {
            return (own, Unread::of(others));
        }
        let rest = chars_piece(back, piece.origin);
        (own, Unread::behind(rest, others))
    }

    /// The next piece, parted at line breaks, and what is left after it.
    fn split_first(self) -> Option<(Piece<'a>, Unread<'p, 'a>)>
        requires { All IsSoundPiece (left self) }
        ensures joined { MatchOption result (left self.entry ≡ []) (λ r. items (left self.entry) ≡ items_of r.0 ++ items (left r.1)) }
        ensures parted { IfSome result (λ r. IsParted r.0) }
        ensures sound { IfSome result (λ r. IsSoundPiece r.0) }
        ensures sound_after { IfSome result (λ r. All IsSoundPiece (left r.1)) }
    {
        let piece = self.first?;
        if !is_chars(piece.form) {
            return Some((piece, Unread::of(self.others)));
        }
        let n = chunk_len(piece.text.as_str());
        Some(Unread::cut(piece, n, self.others))
    }

    /// Whether a line break comes next.
    pub fn begins_break(&self) -> bool
        ensures { result ≡ true → begins_break (items (left self.now)) ≡ true }
    {
        match self.first {
            None => false,
            Some(piece) => is_break(&piece),
        }
    }

    /// The line breaks that come next, as one piece, and what is left after them.
    pub fn split_breaks(self) -> Option<(Piece<'a>, Unread<'p, 'a>)>
        requires { All IsSoundPiece (left self) }
        ensures joined { IfSome result (λ r. items (left self.entry) ≡ items_of r.0 ++ items (left r.1)) }
        ensures breaks { IfSome result (λ r. AreBreaks (items_of r.0)) }
        ensures some { IfSome result (λ r. 0 < length (items_of r.0)) }
        ensures sound_after { IfSome result (λ r. All IsSoundPiece (left r.1)) }
    {
        let piece = self.first?;
        if !is_break(&piece) {
            return None;
        }
        let n = break_chunk_len(piece.text.as_str());
        Some(Unread::cut(piece, n, self.others))
    }

    /// The next line, with its line break, put after these pieces; and what is left after it.
    pub fn push_line(
        self,
        pieces: List<Piece<'a>>,
    ) -> Result<(List<Piece<'a>>, Unread<'p, 'a>), NoMemory>
        requires sound { All IsSoundPiece (left self) }
        requires some { 0 < length (left self) }
        ensures kept { IfOk result (λ r. IsBehind pieces.entry r.0) }
        ensures cut { IfOk result (λ r. full_lines (items (left self.entry)) ≡ items (drop (length pieces.entry) r.0) ∷ full_lines (items (left r.1))) }
        ensures whole { IfOk result (λ r. AreWhole (drop (length pieces.entry) r.0)) }
        ensures sound_after { IfOk result (λ r. All IsSoundPiece (left r.1)) }
        ensures fewer { IfOk result (λ r. length (items (left r.1)) < length (items (left self.entry))) }
    {
        let mut pieces = pieces;
        let mut rest = self;
        while let Some((piece, after)) = rest.split_first() {
            pieces.push(piece)?;
            rest = after;
            if is_break(&piece) {
                return Ok((pieces, rest));
            }
        }
        Ok((pieces, rest))
    }
}

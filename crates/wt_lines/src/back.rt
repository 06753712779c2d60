//! A line's signs, read from its back without memory.

ghost use Rattle.std.specs.Prelude.{◌≡◌, ◌++◌, ◌∷◌, [], map, reverse, MatchOption};
ghost use Rattle.wt_span.specs.Bytes.{begins};
ghost use Rattle.wt_span.specs.Items.{sign, items, items_of};
ghost use Rattle.wt_lines.specs.Kinds.{is_idle, past};
ghost use Rattle.wt_lines.specs.Signs.{right, number};

use crate::sign::LineSign;
use wt_span::{Piece, front_of};

/// The last sign of a piece, and the bytes before it.
#[tactic(auto, using(crate::proofs::PieceSigns::signs_of_whole, crate::proofs::PieceSigns::signs_of_chars))]
fn split_piece_last<'a>(piece: &Piece<'a>) -> Option<(LineSign, &'a [u8])>
    ensures { MatchOption result (map sign (items_of piece.now) ≡ []) (λ r. map sign (items_of piece.now) ≡ r.1.now ++ (number r.0 ∷ [])) }
{
    if let Some(sign) = LineSign::of_form(piece.form) {
        return Some((sign, &[]));
    }
    let (byte, rest) = piece.text.as_str().as_bytes().split_last()?;
    Some((LineSign::Byte(*byte), rest))
}

/// What is left of a line to be read from its back.
#[derive(Clone, Copy, Debug)]
pub struct BackSigns<'p, 'a> {
    pieces: &'p [Piece<'a>],
    bytes: &'a [u8],
}

impl<'p, 'a> BackSigns<'p, 'a> {
    /// All signs of the pieces.
    #[tactic(auto, using(crate::proofs::Backs::right_of_all))]
    pub fn of(pieces: &'p [Piece<'a>]) -> BackSigns<'p, 'a>
        ensures { right result ≡ reverse (map sign (items pieces.now)) }
    {
        BackSigns { pieces, bytes: &[] }
    }

    /// The last sign, and what is left before it.
    pub fn split_last(self) -> Option<(LineSign, BackSigns<'p, 'a>)>
        ensures { MatchOption result (right self.entry ≡ []) (λ r. right self.entry ≡ number r.0 ∷ right r.1) }
    {
        if let Some((byte, bytes)) = self.bytes.split_last() {
            let pieces = self.pieces;
            return Some((LineSign::Byte(*byte), BackSigns { pieces, bytes }));
        }
        let mut end = self.pieces.len();
        while end > 0 {
            end -= 1;
            if let Some((sign, bytes)) = split_piece_last(&self.pieces[end]) {
                let pieces = front_of(self.pieces, end);
                return Some((sign, BackSigns { pieces, bytes }));
            }
        }
        None
    }

    /// What is left up to the last sign that is neither blank nor mark.
    pub fn before_idle(self) -> BackSigns<'p, 'a>
        ensures { right result ≡ past is_idle (right self.entry) }
    {
        let mut rest = self;
        while let Some((sign, before)) = rest.split_last() {
            if !sign.is_idle() {
                return rest;
            }
            rest = before;
        }
        rest
    }

    /// The last sign is this byte.
    #[tactic(auto, using(crate::proofs::Words::begins_one, crate::proofs::Words::begins_none))]
    pub fn ends_with(self, byte: u8) -> bool
        ensures { result ≡ begins (byte ∷ []) (right self.entry) }
    {
        match self.split_last() {
            Some((sign, _)) => sign.is_byte(byte),
            None => false,
        }
    }
}

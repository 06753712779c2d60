//! The signs that are taken from the front of a line.

ghost use Rattle.std.specs.Prelude.{◌≡◌, ◌∷◌, [], min};
ghost use Rattle.std.specs.List.{prefix_len};
ghost use Rattle.wt_span.specs.Items.{items_of};
ghost use Rattle.wt_lines.specs.Pieces.{item_count};
ghost use Rattle.wt_lines.specs.Signs.{number};
ghost use Rattle.wt_rows.specs.Fronts.{with_front, in_front};

use wt_lines::{LineSign, item_count};
use wt_span::{Piece, rest_of};

/// Which signs are taken.
#[derive(Clone, Copy, Debug)]
pub enum Front {
    /// Blanks and invisible marks.
    Idle,
    /// Spaces and tabs.
    Blanks,
    /// Hyphens.
    Dashes,
}

impl Front {
    fn has(self, sign: LineSign) -> bool
        ensures { result ≡ in_front self (number sign) }
    {
        match self {
            Front::Idle => sign.is_idle(),
            Front::Blanks => sign.is_byte(b' ') || sign.is_byte(b'\t'),
            Front::Dashes => sign.is_byte(b'-'),
        }
    }

    /// How many such bytes are at the front.
    fn len_in(self, bytes: &[u8]) -> usize
        ensures { result ≡ prefix_len (in_front self) bytes.now }
    {
        for (i, byte) in bytes.iter().enumerate() {
            if !self.has(LineSign::Byte(*byte)) {
                return i;
            }
        }
        bytes.len()
    }

    /// One, where this sign is such.
    fn len_at(self, sign: LineSign) -> usize
        ensures { result ≡ prefix_len (in_front self) (number sign ∷ []) }
    {
        if self.has(sign) { 1 } else { 0 }
    }

    /// How many items of a piece are among the first n and those behind them that are such.
    pub fn len_with(self, piece: &Piece<'_>, n: usize) -> usize
        ensures { result ≡ min (with_front self n (items_of piece.now)) (item_count piece.now) }
    {
        let count = item_count(piece);
        if count <= n {
            return count;
        }
        match LineSign::of_form(piece.form) {
            None => n + self.len_in(rest_of(piece.text.as_str().as_bytes(), n)),
            Some(sign) => self.len_at(sign),
        }
    }
}

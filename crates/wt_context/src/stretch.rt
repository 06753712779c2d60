//! Apostrophes, and the stretches between them.

ghost use Rattle.std.specs.Prelude.{◌≡◌, ◌<◌, true, length, take, drop};
ghost use Rattle.wt_span.specs.Items.{items, items_of};
ghost use Rattle.wt_lines.specs.Pieces.{is_chars};
ghost use Rattle.wt_context.specs.Segments.{are_quotes, are_plain};

use std::alloc::Global;
use wt_lines::chars_piece;
use wt_span::{List, NoMemory, Origin, Piece, Text};

/// Apostrophes of one origin.
#[derive(Debug, Drop)]
pub struct Quotes<'a> {
    pub piece: Piece<'a>,
    pub ghost chars: { is_chars piece.form ≡ true },
    pub ghost some: { 0 < length (items_of piece) },
    pub ghost quotes: { are_quotes (items_of piece) ≡ true },
}

/// Characters that follow one another and are no apostrophes; likewise an atom or a mark.
#[derive(Debug, Drop)]
pub struct Stretch<'a> {
    pub pieces: List<Piece<'a>>,
    pub ghost plain: { are_plain (items pieces) ≡ true },
    pub ghost solid: { 0 < length pieces → 0 < length (items pieces) },
}

impl<'a> Quotes<'a> {
    ghost use Rattle.std.specs.Prelude.{map};
    ghost use Rattle.wt_span.specs.Slice.{bytes_of};
    ghost use Rattle.wt_span.specs.Items.{char, call_of_origin};

    /// The apostrophes of a text.
    pub fn of(text: Text<'a>, origin: Origin) -> Quotes<'a>
        requires some { 0 < length (bytes_of text) }
        requires quotes { are_quotes (map (char (call_of_origin origin)) (bytes_of text)) ≡ true }
        ensures { items_of result.piece ≡ map (char (call_of_origin origin)) (bytes_of text.entry) }
    {
        Quotes {
            piece: chars_piece(text, origin),
        }
    }

    /// How many there are.
    pub fn len(&self) -> usize
        ensures value { result ≡ length (items_of self.now.piece) }
        ensures some { 0 < result }
    {
        self.piece.text.as_str().len()
    }

    /// The first n of them, and the others.
    pub fn split_at(self, n: usize) -> (Quotes<'a>, Quotes<'a>)
        requires some { 0 < n }
        requires within { n < length (items_of self.piece) }
        ensures front { items_of result.0.piece ≡ take n (items_of self.entry.piece) }
        ensures back { items_of result.1.piece ≡ drop n (items_of self.entry.piece) }
    {
        let Quotes { piece } = self;
        let _text = piece.text.as_str();
        let (front, back) = piece.text.split_at(piece.text.range().start + n as u32);
        (
            Quotes::of(front, piece.origin),
            Quotes::of(back, piece.origin),
        )
    }
}

impl<'a> Stretch<'a> {
    ghost use Rattle.std.specs.Prelude.{◌++◌, [], IfOk};

    /// No characters so far.
    pub fn new(alloc: Global) -> Stretch<'a>
        ensures { items result.pieces ≡ [] }
    {
        Stretch {
            pieces: List::new(alloc),
        }
    }

    /// These and a piece.
    pub fn with(self, piece: Piece<'a>) -> Result<Stretch<'a>, NoMemory>
        requires plain { are_plain (items_of piece) ≡ true }
        requires some { 0 < length (items_of piece) }
        ensures { IfOk result (λ s. items s.pieces ≡ items self.entry.pieces ++ items_of piece.entry) }
    {
        let Stretch { mut pieces } = self;
        pieces.push_tight(piece)?;
        Ok(Stretch { pieces })
    }
}

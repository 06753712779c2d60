//! The visible items before a run of apostrophes.

ghost use Rattle.std.specs.Prelude.{◌≡◌, ◌<◌, ◌-◌, ◌∷◌, [], None, Some, length, slice_index};
ghost use Rattle.wt_span.specs.Items.{items, items_of};
ghost use Rattle.wt_context.specs.Seen.{nothing_seen, after_items, after_bytes, seen_letter};

use wt_span::{ItemForm, Piece};

/// The last visible item since a run, and the one before it: none where there is none, or where it
/// is no character. A character past ASCII counts by its last byte.
#[derive(Clone, Copy, Debug, PartialEq, Eq)]
pub struct Seen {
    pub last: Option<char>,
    pub before: Option<char>,
}

impl Seen {
    /// Nothing so far.
    pub fn nothing() -> Seen
        ensures { result ≡ nothing_seen }
    {
        Seen {
            last: None,
            before: None,
        }
    }

    /// One more visible item.
    pub fn with(self, letter: Option<char>) -> Seen
        ensures { result ≡ seen_letter self letter }
    {
        Seen {
            last: letter,
            before: self.last,
        }
    }

    fn with_byte(self, byte: u8) -> Seen
        ensures { result ≡ seen_letter self (Some byte) }
    {
        self.with(Some(char::from(byte)))
    }

    /// More characters.
    fn with_bytes(self, bytes: &[u8]) -> Seen
        ensures { result ≡ after_bytes self bytes.now }
    {
        let n = bytes.len();
        if n == 0 {
            return self;
        }
        if n == 1 {
            return self.with_byte(bytes[0]);
        }
        self.with_byte(bytes[n - 2]).with_byte(bytes[n - 1])
    }

    /// The items of a piece more.
    fn with_piece(self, piece: &Piece<'_>) -> Seen
        ensures { result ≡ after_items self (items_of piece.now) }
    {
        match piece.form {
            ItemForm::Chars => self.with_bytes(piece.text.as_str().as_bytes()),
            ItemForm::Entity(_) | ItemForm::Nowiki | ItemForm::Extension | ItemForm::Function =>
                self.with(None),
            ItemForm::Comment | ItemForm::Include | ItemForm::Hidden | ItemForm::EmptyCall => self,
        }
    }

    /// The items of these pieces more.
    pub fn with_pieces(self, pieces: &[Piece<'_>]) -> Seen
        ensures { result ≡ after_items self (items pieces.now) }
    {
        let mut seen = self;
        for piece in pieces {
            seen = seen.with_piece(piece);
        }
        seen
    }
}

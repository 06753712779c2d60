//! A line's signs, read from its front without memory.

ghost use Rattle.std.specs.Prelude.{ℕ, List, ◌≡◌, ◌==◌, ◌++◌, ◌∷◌, [], Bool, true, false, length, map, drop, MatchOption, if◌then◌else◌};
ghost use Rattle.wt_span.specs.Bytes.{begins};
ghost use Rattle.wt_span.specs.Items.{sign, items, items_of, is_mark_form};
ghost use Rattle.wt_lines.specs.Kinds.{is_idle, is_mark_sign, is_idle_all, is_alone, past};
ghost use Rattle.wt_lines.specs.Pieces.{is_chars};
ghost use Rattle.wt_lines.specs.Signs.{left, number};

use wt_span::{ItemForm, Piece, rest_of};

/// An item, as the signs of a line tell it: a byte of a character, any atom, or any invisible mark.
#[derive(Clone, Copy, Debug, PartialEq, Eq)]
pub enum LineSign {
    Byte(u8),
    Atom,
    Mark,
}

impl LineSign {
    /// The sign of an item that is no character.
    pub fn of_form(form: ItemForm) -> Option<LineSign>
        ensures { MatchOption result (is_chars form ≡ true) (λ s. (is_chars form ≡ false) × (number s ≡ (if is_mark_form form then 257 else 256))) }
    {
        match form {
            ItemForm::Chars => None,
            ItemForm::Entity(_) | ItemForm::Nowiki | ItemForm::Extension | ItemForm::Function =>
                Some(LineSign::Atom),
            ItemForm::Comment | ItemForm::Include | ItemForm::Hidden | ItemForm::EmptyCall => Some(
                LineSign::Mark,
            ),
        }
    }

    pub fn is_byte(self, byte: u8) -> bool
        ensures { result ≡ (byte == number self) }
    {
        match self {
            LineSign::Byte(own) => byte == own,
            LineSign::Atom => false,
            LineSign::Mark => false,
        }
    }

    pub fn is_mark(self) -> bool
        ensures { result ≡ is_mark_sign (number self) }
    {
        match self {
            LineSign::Mark => true,
            LineSign::Atom => false,
            LineSign::Byte(_) => false,
        }
    }

    /// A space, a tab or a mark.
    pub fn is_idle(self) -> bool
        ensures { result ≡ is_idle (number self) }
    {
        match self {
            LineSign::Mark => true,
            LineSign::Atom => false,
            LineSign::Byte(byte) => byte == b' ' || byte == b'\t',
        }
    }
}

/// The first sign of a piece, and the bytes after it.
#[tactic(auto, using(crate::proofs::PieceSigns::signs_of_whole, crate::proofs::PieceSigns::signs_of_chars))]
fn split_piece<'a>(piece: &Piece<'a>) -> Option<(LineSign, &'a [u8])>
    ensures { MatchOption result (map sign (items_of piece.now) ≡ []) (λ r. map sign (items_of piece.now) ≡ number r.0 ∷ r.1.now) }
{
    if let Some(sign) = LineSign::of_form(piece.form) {
        return Some((sign, &[]));
    }
    let (byte, rest) = piece.text.as_str().as_bytes().split_first()?;
    Some((LineSign::Byte(*byte), rest))
}

/// What is left of a line to be read from its front.
#[derive(Clone, Copy, Debug)]
pub struct Signs<'p, 'a> {
    bytes: &'a [u8],
    pieces: &'p [Piece<'a>],
}

impl<'p, 'a> Signs<'p, 'a> {
    /// All signs of the pieces.
    pub fn of(pieces: &'p [Piece<'a>]) -> Signs<'p, 'a>
        ensures { left result ≡ map sign (items pieces.now) }
    {
        Signs { bytes: &[], pieces }
    }

    /// The first sign, and what is left after it.
    pub fn split_first(self) -> Option<(LineSign, Signs<'p, 'a>)>
        ensures { MatchOption result (left self.entry ≡ []) (λ r. left self.entry ≡ number r.0 ∷ left r.1) }
    {
        if let Some((byte, bytes)) = self.bytes.split_first() {
            let pieces = self.pieces;
            return Some((LineSign::Byte(*byte), Signs { bytes, pieces }));
        }
        for (i, piece) in self.pieces.iter().enumerate() {
            if let Some((sign, bytes)) = split_piece(piece) {
                let pieces = rest_of(self.pieces, i + 1);
                return Some((sign, Signs { bytes, pieces }));
            }
        }
        None
    }

    /// What is left from the first sign on that is no mark.
    pub fn past_marks(self) -> Signs<'p, 'a>
        ensures { left result ≡ past is_mark_sign (left self.entry) }
    {
        let mut rest = self;
        while let Some((sign, after)) = rest.split_first() {
            if !sign.is_mark() {
                return rest;
            }
            rest = after;
        }
        rest
    }

    /// What is left from the first sign on that is neither blank nor mark.
    pub fn past_idle(self) -> Signs<'p, 'a>
        ensures { left result ≡ past is_idle (left self.entry) }
    {
        let mut rest = self;
        while let Some((sign, after)) = rest.split_first() {
            if !sign.is_idle() {
                return rest;
            }
            rest = after;
        }
        rest
    }

    #[tactic(auto, using(crate::proofs::Words::begins_other, crate::proofs::Words::begins_none))]
    fn after_byte(self, byte: u8) -> Option<Signs<'p, 'a>>
        ensures { MatchOption result ((word : List ℕ) → begins (byte ∷ word) (left self.entry) ≡ false) (λ r. left self.entry ≡ byte ∷ left r) }
    {
        let (sign, after) = self.split_first()?;
        if sign.is_byte(byte) {
            Some(after)
        } else {
            None
        }
    }

    /// What is left after a word, where the word is there.
    pub fn after(self, word: &[u8]) -> Option<Signs<'p, 'a>>
        ensures { MatchOption result (begins word.now (left self.entry) ≡ false)
            (λ r. (begins word.now (left self.entry) ≡ true) × (left r ≡ drop (length word.now) (left self.entry))) }
    {
        let mut rest = self;
        for byte in word {
            rest = rest.after_byte(*byte)?;
        }
        Some(rest)
    }

    /// The word is there.
    pub fn begins(self, word: &[u8]) -> bool
        ensures { result ≡ begins word.now (left self.entry) }
    {
        self.after(word).is_some()
    }

    pub fn is_empty(self) -> bool
        ensures { result ≡ (length (left self.entry) == 0) }
    {
        self.split_first().is_none()
    }

    /// Nothing visible but blanks is left.
    pub fn is_idle(self) -> bool
        ensures { result ≡ is_idle_all (left self.entry) }
    {
        self.past_idle().is_empty()
    }

    /// The word is there, and nothing else visible but blanks after it.
    pub fn is_alone(self, word: &[u8]) -> bool
        ensures { result ≡ is_alone word.now (left self.entry) }
    {
        match self.after(word) {
            Some(rest) => rest.is_idle(),
            None => false,
        }
    }
}

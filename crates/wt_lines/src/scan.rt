//! The marks that come before what is visible.

ghost use Rattle.std.specs.Prelude.{◌≡◌, ◌≤◌, All, length};
ghost use Rattle.std.specs.List.{prefix_len};
ghost use Rattle.wt_span.specs.Origins.{IsSoundPiece};
ghost use Rattle.wt_lines.specs.Pieces.{AreLeadingMarks, is_mark_piece};

use wt_span::{ItemForm, Piece};

/// An invisible mark.
pub fn is_mark(piece: &Piece<'_>) -> bool
    ensures { result ≡ is_mark_piece piece.now }
{
    match piece.form {
        ItemForm::Chars
        | ItemForm::Entity(_)
        | ItemForm::Nowiki
        | ItemForm::Extension
        | ItemForm::Function => false,
        ItemForm::Comment | ItemForm::Include | ItemForm::Hidden | ItemForm::EmptyCall => true,
    }
}

fn front_marks(pieces: &[Piece<'_>]) -> usize
    ensures value { result ≡ prefix_len is_mark_piece pieces.now }
    ensures within { result ≤ length pieces.now }
{
    for (i, piece) in pieces.iter().enumerate() {
        if !is_mark(piece) {
            return i;
        }
    }
    pieces.len()
}

/// How many marks come before the first visible piece.
pub fn marks_len(pieces: &[Piece<'_>]) -> usize
    requires { All IsSoundPiece pieces.now }
    ensures cut { AreLeadingMarks pieces.now result }
    ensures within { result ≤ length pieces.now }
{
    front_marks(pieces)
}

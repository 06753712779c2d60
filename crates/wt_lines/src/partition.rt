//! Pieces that are parted at their line breaks.

ghost use Rattle.std.specs.Prelude.{◌≡◌, ◌<◌, ◌≤◌, not, length, map};
ghost use Rattle.std.specs.List.{prefix_len};
ghost use Rattle.wt_span.specs.Bytes.{is_break};
ghost use Rattle.wt_span.specs.Slice.{bytes_of};
ghost use Rattle.wt_span.specs.Items.{items_of, char, call_of_origin};
ghost use Rattle.wt_span.specs.Origins.{IsSoundPiece};
ghost use Rattle.wt_lines.specs.Pieces.{is_chars, is_break_piece, IsParted, ArePartedBytes};

use wt_span::{ItemForm, Origin, Piece, Text};

/// Characters, of which each is an item.
pub fn is_chars(form: ItemForm) -> bool
    ensures { result ≡ is_chars form }
{
    matches!(form, ItemForm::Chars)
}

/// A line break, of parted pieces.
pub fn is_break(piece: &Piece<'_>) -> bool
    ensures { result ≡ is_break_piece piece.now }
{
    is_chars(piece.form) && piece.text.as_str().as_bytes().starts_with(b"\n")
}

/// How many bytes come before the first line break.
pub fn unbroken_len(bytes: &[u8]) -> usize
    ensures value { result ≡ prefix_len (λ b. not (is_break b)) bytes.now }
    ensures within { result ≤ length bytes.now }
{
    for (i, byte) in bytes.iter().enumerate() {
        if *byte == b'\n' {
            return i;
        }
    }
    bytes.len()
}

/// Characters of the same call as `origin`, or of the page.
pub fn chars_piece<'a>(text: Text<'a>, origin: Origin) -> Piece<'a>
    requires { 0 < length (bytes_of text) }
    ensures items { items_of result ≡ map (char (call_of_origin origin)) (bytes_of text.entry) }
    ensures parted { ArePartedBytes (bytes_of text.entry) → IsParted result }
    ensures sound { IsSoundPiece result }
{
    let origin = match origin {
        Origin::Page(_) => Origin::Page(text.range()),
        Origin::Call(call) => Origin::Call(call),
    };
    Piece {
        text,
        form: ItemForm::Chars,
        origin,
    }
}

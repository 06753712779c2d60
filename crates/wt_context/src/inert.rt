//! Characters that are text in every context: most lines of a page are these alone, and so is most of
//! what is in links and tags, and no tile is sought in them.

ghost use Rattle.std.specs.Prelude.{◌≡◌, ◌&&◌, true, take, map, ℕ, Option};
ghost use Rattle.std.specs.List.{list_all};
ghost use Rattle.wt_span.specs.Items.{char, items, items_of};
ghost use Rattle.wt_context.specs.Inert.{is_inert, are_inert};

use wt_lines::is_chars;
use wt_span::Piece;

/// Whether no tile and no style begins with this byte.
fn is_inert_byte(byte: u8) -> bool
    ensures { result ≡ is_inert byte }
{
    !(byte == b'\'' || byte == b':' || byte == b'<' || byte == b'[' || byte == b'_')
}

fn are_inert_bytes(bytes: &[u8]) -> bool
    ensures { result ≡ list_all is_inert bytes.now }
{
    bytes.iter().all(|byte| is_inert_byte(*byte))
}

/// Whether a piece is characters with which no tile and no style begins.
fn is_inert_piece(piece: &Piece<'_>) -> bool
    ensures { result ≡ true → are_inert (items_of piece.now) ≡ true }
{
    is_chars(piece.form) && are_inert_bytes(piece.text.as_str().as_bytes())
}

/// Whether pieces are such characters alone.
pub fn are_inert(pieces: &[Piece<'_>]) -> bool
    ensures { result ≡ true → are_inert (items pieces.now) ≡ true }
{
    for piece in pieces {
        if !is_inert_piece(piece) {
            return false;
        }
    }
    true
}

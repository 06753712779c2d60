//! What only counts at the start of a line.
ghost use Rattle.std.specs.Prelude.{◌≡◌};
ghost use Rattle.wt_span.specs.Items.{items};
ghost use Rattle.wt_expand.specs.Expansion.{is_block_sign, begins_with_bar, opens_block};
ghost use Rattle.wt_transclusion.specs.Opening.{IsOpening};

use crate::trim::is_chars;
use wt_span::{Piece, rest_of};

/// The characters that open a block by themselves at the start of a line.
fn is_block_sign(byte: u8) -> bool
    ensures { result ≡ is_block_sign byte }
{
    byte == b'*' || byte == b'#' || byte == b':' || byte == b';'
}

/// Whether the first item of these pieces is a `|`.
fn begins_with_bar(pieces: &[Piece<'_>]) -> bool
    ensures { result ≡ begins_with_bar (items pieces.now) }
{
    for piece in pieces {
        if !is_chars(piece.form) {
            return false;
        }
        if let Some(byte) = piece.text.as_str().as_bytes().first() {
            return *byte == b'|';
        }
    }
    false
}

/// What the first characters of a text say of whether it opens a block.
enum Opening {
    /// There are none.
    Empty,
    /// A `{` that ends the text.
    Brace,
    Known(bool),
}

fn read_opening(bytes: &[u8]) -> Opening
    ensures { IsOpening bytes.now result }
{
    match bytes {
        [] => Opening::Empty,
        [b'{'] => Opening::Brace,
        [b'{', next, ..] => Opening::Known(*next == b'|'),
        [sign, ..] => Opening::Known(is_block_sign(*sign)),
    }
}

/// Whether pieces begin with what opens a list or a table at the start of a line.
pub fn opens_block(pieces: &[Piece<'_>]) -> bool
    ensures { result ≡ opens_block (items pieces.now) }
{
    for (i, piece) in pieces.iter().enumerate() {
        if !is_chars(piece.form) {
            return false;
        }
        match read_opening(piece.text.as_str().as_bytes()) {
            Opening::Empty => {}
            Opening::Brace => return begins_with_bar(rest_of(pieces, i + 1)),
            Opening::Known(opens) => return opens,
        }
    }
    false
}

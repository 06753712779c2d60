//! How many items pieces hold.

ghost use Rattle.std.specs.Prelude.{◌≡◌, ◌^◌, ◌<◌, length};
ghost use Rattle.wt_span.specs.Items.{items, sources};

use wt_span::Piece;

/// How many items the pieces hold.
pub fn item_count(pieces: &[Piece<'_>]) -> usize
    requires { length (sources (items pieces.now)) < 2 ^ 32 }
    ensures { result ≡ length (items pieces.now) }
{
    let mut count = 0;
    for piece in pieces {
        count += wt_lines::item_count(piece);
    }
    count
}

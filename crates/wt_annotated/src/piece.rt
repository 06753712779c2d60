ghost use Rattle.std.specs.Prelude.{◌≡◌, ◌^◌, ◌<◌, length};
ghost use Rattle.wt_span.specs.Slice.{bytes_of};
ghost use Rattle.wt_span.specs.Items.{items};
ghost use Rattle.wt_annotated.specs.Labels.{width};

use wt_span::{Piece, Text};

fn text_width(text: Text<'_>) -> u32
    ensures { result ≡ length (bytes_of text.entry) }
{
    text.as_str().len() as u32
}

/// How many bytes pieces have.
pub fn width(pieces: &[Piece<'_>]) -> u32
    requires { width (items pieces.now) < 2 ^ 32 }
    ensures { result ≡ width (items pieces.now) }
{
    let mut width = 0;
    for piece in pieces {
        width += text_width(piece.text);
    }
    width
}

//! Where a line's break is among its pieces.

ghost use Rattle.std.specs.Prelude.{◌≡◌, ◌≤◌, length, take, drop};
ghost use Rattle.wt_span.specs.Items.{items};
ghost use Rattle.wt_lines.specs.Lines.{content};
ghost use Rattle.wt_lines.specs.Pieces.{AllParted};
ghost use Rattle.wt_page.specs.Lines.{ending};

use wt_lines::is_break;
use wt_span::Piece;

/// How many pieces come before the last line break.
pub fn content_len(pieces: &[Piece<'_>]) -> usize
    requires { AllParted pieces.now }
    ensures within { result ≤ length pieces.now }
    ensures content { content (items pieces.now) ≡ items (take result pieces.now) }
    ensures ending { ending (items pieces.now) ≡ items (drop result pieces.now) }
{
    let n = pieces.len();
    if n == 0 {
        return 0;
    }
    if is_break(&pieces[n - 1]) { n - 1 } else { n }
}

//! Open styles and tables.

ghost use Rattle.std.specs.Prelude.{◌≡◌};
ghost use Rattle.wt_lint.specs.Findings.{is_open_style, is_empty, is_unclosed};

use crate::bytes::byte_at;
use wt_tree::Ranges;

/// Whether a node has no closing delimiter.
pub fn is_unclosed(range: Ranges) -> bool
    ensures { result ≡ is_unclosed range }
{
    range.close_w == 0
}

/// Whether bold or italic text has no closing delimiter, and no apostrophe comes after it.
pub fn is_open_style(page: &[u8], range: Ranges) -> bool
    ensures { result ≡ is_open_style page.now range }
{
    is_unclosed(range) && byte_at(page, range.end as usize) != b'\''
}

pub fn is_empty(range: Ranges) -> bool
    ensures { result ≡ is_empty range }
{
    range.start == range.end
}

//! Headings whose signs differ in number.

ghost use Rattle.std.specs.Prelude.{◌≡◌, ◌≤◌, length};
ghost use Rattle.wt_lint.specs.Findings.{is_plain, signs_behind, is_unequal};

use crate::bytes::{equals_ahead, equals_behind, others_behind, slice};
use wt_span::front_of;
use wt_tree::Ranges;

/// Whether a text holds `=`, spaces and tabs alone.
fn is_plain(bytes: &[u8]) -> bool
    ensures { result ≡ is_plain bytes.now }
{
    for byte in bytes {
        if !(*byte == b'=' || (*byte == b' ' || *byte == b'\t')) {
            return false;
        }
    }
    true
}

/// How many `=` the last run of a text has.
fn signs_behind(bytes: &[u8]) -> usize
    ensures { result ≡ signs_behind bytes.now }
{
    let count = bytes.len() - others_behind(bytes);
    equals_behind(front_of(bytes, count))
}

/// Whether a heading at this place, which ends with `=` but for blanks, has fewer or more at its end than at
/// its start.
pub fn is_unequal(page: &[u8], range: Ranges) -> bool
    requires { range.end ≤ length page.now }
    ensures { result ≡ is_unequal page.now range }
{
    let source = slice(page, range.start, range.end);
    let closing = slice(page, range.end.saturating_sub(range.close_w), range.end);
    is_plain(closing) && equals_ahead(source) != signs_behind(source)
}

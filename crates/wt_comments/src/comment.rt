ghost use Rattle.std.specs.Prelude.{◌≡◌, ◌+◌, ◌-◌, ◌<◌, ◌≤◌, length, drop, IfSome, slice_index};
ghost use Rattle.wt_span.specs.Comments.{comment_len, comment_line_len, remarks_len};
ghost use Rattle.wt_comments.specs.Views.{remark_len};

use crate::byte::{ByteClass, byte_at, run_len, through};
use wt_span::rest_of;

/// How many bytes a comment that begins a text takes.
#[tactic(auto, unfolding(wt_span::specs::Comments::comment_len))]
pub fn comment_len(bytes: &[u8]) -> Option<usize>
    ensures value { result ≡ comment_len bytes.now }
    ensures within { IfSome result (λ n. (0 < n) × (n ≤ length bytes.now)) }
{
    if bytes.starts_with(b"<!--") {
        Some(4 + through(b"-->", rest_of(bytes, 4)))
    } else {
        None
    }
}

/// How many bytes the comment or the blank takes that begins a text; 0 where none does.
fn remark_len(bytes: &[u8]) -> usize
    ensures value { result ≡ remark_len bytes.now }
    ensures within { result ≤ length bytes.now }
{
    match comment_len(bytes) {
        Some(n) => n,
        None => usize::from(ByteClass::Blank.has(byte_at(bytes, 0))),
    }
}

/// How many bytes of comments and blanks begin a text.
fn remarks_len(bytes: &[u8]) -> usize
    ensures value { result ≡ remarks_len 0 bytes.now }
    ensures within { result ≤ length bytes.now }
{
    let mut at = 0;
    while at < bytes.len() {
        let n = remark_len(rest_of(bytes, at));
        if n == 0 {
            return at;
        }
        at += n;
    }
    at
}

/// How many bytes a comment line takes that begins a text, with its line break.
#[tactic(auto, unfolding(wt_span::specs::Comments::comment_line_len))]
pub fn comment_line_len(bytes: &[u8]) -> Option<usize>
    ensures value { result ≡ comment_line_len bytes.now }
    ensures within { IfSome result (λ n. (0 < n) × (n ≤ length bytes.now)) }
{
    let n = remarks_len(bytes);
    if run_len(ByteClass::Blank, bytes) < n && byte_at(bytes, n) == b'\n' {
        Some(n + 1)
    } else {
        None
    }
}

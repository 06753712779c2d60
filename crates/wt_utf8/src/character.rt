ghost use Rattle.std.specs.Prelude.{◌≡◌, ◌≤◌, length};
ghost use Rattle.wt_html_grammar.specs.Signs.{between};
ghost use Rattle.wt_utf8.specs.Begun.{begun_len, following_len};

use wt_html_grammar::follow;
use wt_span::rest_of;

fn is_between(low: u8, high: u8, byte: u8) -> bool
    ensures { result ≡ between low high byte }
{
    low <= byte && byte <= high
}

/// How many of these bytes may come after the first byte of a character. (It calls itself at most
/// twice: a character has at most four bytes.)
fn following_len(low: u8, high: u8, more: u8, bytes: &[u8]) -> usize
    ensures value { result ≡ following_len low high more bytes.now }
    ensures within { result ≤ length bytes.now }
{
    if bytes.is_empty() {
        return 0;
    }
    if !is_between(low, high, bytes[0]) {
        return 0;
    }
    if more == 0 {
        return 1;
    }
    1 + following_len(128, 191, more - 1, rest_of(bytes, 1))
}

/// How many bytes at the front may be those of a character of several bytes.
pub fn begun_len(bytes: &[u8]) -> usize
    ensures value { result ≡ begun_len bytes.now }
    ensures within { result ≤ length bytes.now }
{
    if bytes.is_empty() {
        return 0;
    }
    match follow(bytes[0]) {
        Some(next) => 1 + following_len(next.low, next.high, next.more, rest_of(bytes, 1)),
        None => 0,
    }
}

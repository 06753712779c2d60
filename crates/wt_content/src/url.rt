//! Whether bytes are a URL in whole.

ghost use Rattle.std.specs.Prelude.{◌≡◌, ◌==◌, ◌&&◌, not, length};
ghost use Rattle.wt_tiles.specs.Glyphs.{byte_glyphs};
ghost use Rattle.wt_tiles.specs.Urls.{is_url_char, url_run};
ghost use Rattle.wt_content.specs.Content.{is_url};

use wt_isolation::scheme_len;
use wt_span::rest_of;

#[tactic(auto, unfolding(wt_tiles::specs::Urls::is_url_char))]
fn is_url_byte(byte: u8) -> bool
    ensures { result ≡ is_url_char byte }
{
    32 < byte
        && !(byte == 127
            || byte == b'['
            || byte == b']'
            || byte == b'<'
            || byte == b'>'
            || byte == b'"')
}

/// Whether a URL goes on with a byte; `after` says whether an apostrophe comes before it, with which
/// another one would end the URL.
fn goes_on(after: bool, byte: u8) -> bool
    ensures { result ≡ is_url_char byte && not (after && byte == 39) }
{
    is_url_byte(byte) && !(after && byte == b'\'')
}

/// Whether all bytes belong to a URL: each may be in one, and no two apostrophes are side by side.
fn are_url_bytes(bytes: &[u8]) -> bool
    ensures { result ≡ (url_run (byte_glyphs bytes.now) == length bytes.now) }
{
    let mut apostrophe = false;
    for byte in bytes {
        if !goes_on(apostrophe, *byte) {
            return false;
        }
        apostrophe = *byte == b'\'';
    }
    true
}

/// Whether bytes are a URL in whole: the beginning of one, and at least one more byte.
pub fn is_url(bytes: &[u8]) -> bool
    ensures { result ≡ is_url bytes.now }
{
    let scheme = scheme_len(bytes);
    if scheme == 0 || scheme == bytes.len() {
        return false;
    }
    are_url_bytes(rest_of(bytes, scheme))
}

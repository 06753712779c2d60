//! The beginning of a URL in bytes.

ghost use Rattle.std.specs.Prelude.{◌≡◌, ◌≤◌, length};
ghost use Rattle.wt_tiles.specs.Glyphs.{begins_like, byte_glyphs};
ghost use Rattle.wt_tiles.specs.Urls.{scheme_len};

/// Whether a word in lower case is first, without ASCII case.
fn begins_like(word: &[u8], bytes: &[u8]) -> bool
    ensures { result ≡ begins_like word.now (byte_glyphs bytes.now) }
{
    if bytes.len() < word.len() {
        return false;
    }
    for (i, byte) in word.iter().enumerate() {
        if bytes[i].to_ascii_lowercase() != *byte {
            return false;
        }
    }
    true
}

/// How many bytes the beginning of a URL takes; 0 where none begins.
#[tactic(auto, unfolding(wt_tiles::specs::Urls::scheme_len))]
pub fn scheme_len(bytes: &[u8]) -> usize
    ensures value { result ≡ scheme_len (byte_glyphs bytes.now) }
    ensures within { result ≤ length bytes.now }
{
    if begins_like(b"http://", bytes) {
        7
    } else if begins_like(b"https://", bytes) {
        8
    } else if begins_like(b"ftp://", bytes) {
        6
    } else {
        0
    }
}

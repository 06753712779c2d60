//! Blanks and line breaks at the ends of a text.
ghost use Rattle.std.specs.Prelude.{◌≡◌, ◌-◌, ◌≤◌, drop, length, reverse};
ghost use Rattle.std.specs.List.{prefix_len};
ghost use Rattle.std.specs.Str.{IsCharBoundary};
ghost use Rattle.wt_expand.specs.Texts.{is_space, without_front, trimmed};
ghost use Rattle.wt_transclusion.specs.Ends.{without_back};

/// A space, a tab or a line break.
fn is_space(byte: u8) -> bool
    ensures { result ≡ is_space byte }
{
    byte == b' ' || byte == b'\t' || byte == b'\n'
}

/// How many blanks and line breaks are first.
pub fn front_len(bytes: &[u8]) -> usize
    ensures value { result ≡ prefix_len is_space bytes.now }
    ensures within { result ≤ length bytes.now }
{
    for (i, byte) in bytes.iter().enumerate() {
        if !is_space(*byte) {
            return i;
        }
    }
    bytes.len()
}

/// How many bytes there are up to and with the last one that is neither blank nor line break.
pub fn back_end(bytes: &[u8]) -> usize
    ensures value { result ≡ length bytes.now - prefix_len is_space (reverse bytes.now) }
    ensures within { result ≤ length bytes.now }
{
    let mut end = bytes.len();
    while end > 0 && is_space(bytes[end - 1]) {
        end -= 1;
    }
    end
}

/// A text from a place on.
pub fn behind(text: &str, at: usize) -> &str
    requires { IsCharBoundary text.now at }
    ensures { result.now ≡ drop at text.entry.now }
{
    text.split_at(at).1
}

/// A text without the blanks and line breaks at its start.
pub fn without_front(text: &str) -> &str
    ensures { result.now ≡ without_front is_space text.entry.now }
{
    text.split_at(front_len(text.as_bytes())).1
}

/// A text without the blanks and line breaks at its end.
pub fn without_back(text: &str) -> &str
    ensures { result.now ≡ without_back is_space text.entry.now }
{
    text.split_at(back_end(text.as_bytes())).0
}

/// A text without the blanks and line breaks at both its ends.
#[tactic(auto, unfolding(wt_expand::specs::Texts::trimmed))]
pub fn trimmed(text: &str) -> &str
    ensures { result.now ≡ trimmed text.entry.now }
{
    without_back(without_front(text))
}
